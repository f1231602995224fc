//! The trips of a day of a feed of the GTFS Schedule Reference: [`active`] and [`active_before`] tell
//! which services run on the day and on the day before, and [`expand`] gives the trips, copies by
//! `frequencies.txt` and night trips of the day before included, numbered by their seconds.
#![tactic(auto)]

mod count;
mod day;
mod day_trips;
mod departure;
mod gather;
mod number;
mod rows;
mod running;
mod shift;

pub use day_trips::expand;
pub use running::{ServiceSet, active, active_before};
