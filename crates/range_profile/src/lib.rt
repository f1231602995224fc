//! Answers to queries over a range of departure seconds.
//!
//! For every second of a window [`profile`] gives the pairs of arrival and number of rides that are best of who leaves
//! then: the walk on foot, and spans, each with the rides of a journey that leaves at its last second. The journeys are
//! those of listed transfers, as in `raptor_rounds`. [`departures`] are the seconds of the window at which a ride is just
//! caught; only there the search looks for new rides, from the latest to the earliest, eight of them over routes that are
//! opened once.
#![tactic(auto)]

mod answer;
mod seeds;
mod window;

pub use answer::{ProfileWork, profile, profile_with};
pub use range_lanes::departures;
