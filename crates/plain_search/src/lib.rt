//! The plain answer to point queries: every arc and every ride is tried until no arrival gets earlier.
//!
//! It is the yardstick of the faster searches: short, and right by the definitions of walks, distances, journeys and
//! Pareto sets alone.
#![tactic(auto)]

mod answer;
mod rides;
mod rounds;
mod walks;
mod way;

pub use answer::point_findings;
pub use move_model::{Finding, Findings};
pub use rounds::{ArrivalRow, ArrivalRows, distances, earliest};
