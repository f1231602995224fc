//! The rides of a search for shortcuts, one route at a time.
//!
//! A passenger sets out from a vertex at a second. For each place of a route the search holds the least row that was boarded
//! there or before, and for each stop the least label of the rides that are left there. What is kept falls only, so it
//! serves for every earlier second too.
//!
//! - [`board_first`] boards a route at a call as the first ride, and [`ride_own`] rides a row that leaves the start itself.
//! - [`board_second`] boards it as the second ride, with the label that the passenger has at the call's stop.
//!
//! Their contracts have two parts that know nothing of each other: what is closed, a fact of the numbers alone, and what
//! the labels stand for, over the definitions of pieces.
#![tactic(auto)]

mod first;
mod second;

pub use first::{NEVER, board_first, ride_own};
pub use second::board_second;
