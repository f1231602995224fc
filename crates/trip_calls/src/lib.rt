//! The calls of one trip: their order, the rules that they keep together, and the times of the calls that have none.
#![tactic(auto)]

mod fault;
mod fill;
mod kept;
mod order;

pub use fault::{Fault, first_fault};
pub use fill::fill_times;
pub use kept::{KeptCall, Times};
pub use order::sort_calls;
