//! Tests of the rules that the parts of a compiled network keep, each in time near linear in what it is lent.
#![tactic(auto)]

mod arcs;
mod names;
mod network;
mod ranks;

pub use arcs::{fall_down, rise_up};
pub use names::{differ, stops_have_ids, trips_have_ids};
pub use network::{have_few_calls, keeps};
pub use ranks::are_ranks;
