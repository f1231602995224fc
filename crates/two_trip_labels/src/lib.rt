//! The labels of a search for shortcuts over all routes and stops.
//!
//! A passenger sets out from one vertex at a second. [`board_calls`] boards first rides from a stop, [`walk_from`] walks on
//! from where one is left, and [`ride_calls`] boards second rides. What is kept falls only, and lasts to earlier seconds.
//!
//! Two laws say what the labels mean: [`labels_stand`], that closed and sound labels are the least ones of all pieces, and
//! [`labels_last`], that they stay closed and sound at every earlier second.
#![tactic(auto)]

mod first_all;
mod first_rows;
mod held_rows;
mod label;
mod laws;
mod second_all;
mod walks;

pub use first_all::board_calls;
pub use first_rows::FirstRows;
pub use held_rows::HeldRows;
pub use label::label_at;
pub use laws::{label_stands, labels_last, labels_stand};
pub use second_all::ride_calls;
pub use walks::{put_cuts, walk_from};
