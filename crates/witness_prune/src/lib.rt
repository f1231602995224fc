//! The search for needed walks between two rides.
//!
//! A passenger sets out from a stop, rides, walks, and rides again. The walk is needed where no other journey with at most
//! two rides does as well. The search goes from the latest second of a place to its earliest, and keeps its labels from
//! step to step: what is true from a second is true from every earlier one.
//!
//! - [`Needed`] keeps the pairs of stops that were found, in rising order, each once.
//! - [`TwoTrip`] is the search from one stop.
//! - [`Search`] is the search from all stops of a place, over a table of distances that its caller keeps.
#![tactic(auto)]

mod labels;
mod needed;
mod open;
mod scratch;
mod search;
mod two_trip;

pub use needed::Needed;
pub use search::Search;
pub use two_trip::TwoTrip;
