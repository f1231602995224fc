//! The list of shortcuts of a network: the walks between two rides that some journey needs (ULTRA, ESA 2019).
//!
//! A shortcut is the walk of a candidate, two rides that leave a stop at a second of departure there, that neither a lesser
//! pair of rides nor a journey with at most one ride makes needless. With these walks alone every journey can be replaced
//! by one that arrives no later and has no more rides.
//!
//! - [`shortcuts`] gives exactly the list of all shortcuts of a network, each with the seconds of its walk.
#![tactic(auto)]

mod build;
mod collect;
mod listing;

pub use build::shortcuts;
