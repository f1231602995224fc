//! A search over the departures of a range, from the latest to the earliest.
//!
//! At each second of a window the levels of `range_lanes` tell which pairs of arrival and number of rides are best of who
//! leaves then: they are searched at the last second and at each departure before it ([`search_last`], [`search_second`]),
//! the departures of a group of eight over routes that are opened once. [`turn_spans`] closes the spans of pairs that are
//! best no more and opens those of new ones, each with the rides of a journey that leaves at the span's last second.
#![tactic(auto)]

mod leads;
mod opening;
mod rides;
mod search;

pub use opening::turn_spans;
pub use search::{search_last, search_second};
