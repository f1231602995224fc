//! What follows from the definitions of networks and journeys alone, and two tests of a given value.
//!
//! The laws are functions with empty bodies, whose contracts state them:
//! - `sufficiency`: no journey needs a transfer that is no shortcut (ULTRA, ESA 2019).
//! - `all_pairs_sufficiency`: the list of all pairs of different stops serves as well.
//! - `listed_sufficiency`, `earliest_by_listed`: over a list that suffices, the walk on foot and the
//!   journeys that are joined by rows of first and last walks and by the list stand for all journeys.
//! - `range_by_listed`: the same for the answer to a range, at every second of its window.
//! - `pareto_by_rides`: the Pareto set is made of the least arrivals that no fewer rides give (RAPTOR, ALENEX 2012).
//! - `distance_bound`: how long a distance may be.
//! - `uniqueness`: a network has one list of shortcuts, and a question one answer.
//!
//! `is_journey` tests whether a value is a journey, and `key_less` is the order of the pieces to a stop.
#![tactic(auto)]

mod journey;
mod key;
mod laws;
mod walk;

pub use journey::is_journey;
pub use key::key_less;
pub use laws::{
    all_pairs_sufficiency, distance_bound, earliest_by_listed, listed_sufficiency, pareto_by_rides,
    range_by_listed, sufficiency, uniqueness,
};
