//! Journeys whose rides are known: their walks are found in a hierarchy.
//!
//! [`build`] gives the journey with given rides, or None where a ride is none of the network, where two places that a walk
//! must join have none in the hierarchy, or where a ride leaves too early.
#![tactic(auto)]

mod calls;
mod leg;
mod whole;

pub use whole::build;
