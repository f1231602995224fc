//! The starts of a network: the seconds at which a passenger may be at a stop and board a departure there at once.
//!
//! A search for shortcuts goes through the starts of each place, from the latest to the earliest. Stops at one vertex share
//! a place, and their starts are taken together.
//!
//! - [`Start`] is a place and a second.
//! - [`starts`] gives all starts of a network in the order of the search.
#![tactic(auto)]

mod calls;
mod order;
mod start;

pub use calls::starts;
pub use start::{Start, Starts};
