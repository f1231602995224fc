//! Reading of network files.
//!
//! [`decode`] gives the value that a file holds, of version 1 or of version 2, or the first damage of the file. What it takes
//! of memory is bounded by the bytes that are there, whatever numbers they tell.
#![tactic(auto)]

mod parts;
mod reading;
mod sections;

pub use reading::decode;
