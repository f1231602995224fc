//! Pairs of stops as a list of shortcuts: the walks between two rides that some journey needs (ULTRA, ESA 2019).
//!
//! A search for shortcuts finds pairs of stops between which some start needs a walk, and looks up how long each walk is.
//! - `listed_pairs` is the law, a function with an empty body: the walks of exactly the needed pairs, in rising order,
//!   are the list of shortcuts.
#![tactic(auto)]

mod laws;

pub use laws::listed_pairs;
