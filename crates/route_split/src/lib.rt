//! The trips of a day by routes, and the rows of a route.
//!
//! A route is a list of trips that call at the same stops with the same flags and of which none overtakes another: from
//! one trip to the next no arrival and no departure falls at any call. [`Timetable`] holds the routes of a day's trips,
//! and tells which routes call at a stop. [`Timetable::open_route`] lends the rows of a route, the seconds of all its
//! trips at one call side by side, and [`catch`] finds in a row the first trip that is not missed.
#![tactic(auto)]

mod chains;
mod day;
mod fill;
mod follow;
mod groups;
mod index;
mod marks;
mod partition;
mod place;
mod rows;
mod timetable;

pub use marks::RoundMarks;
pub use place::{Place, RouteCall};
pub use rows::{RouteRows, catch};
pub use timetable::Timetable;
