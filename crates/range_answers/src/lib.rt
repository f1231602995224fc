//! Answers to queries over a range of departure seconds, by a compiled network, whether it is right for its network or not.
//!
//! [`RangeWork`] holds the memory of searches, and [`RangeWork::range`] finds the listed answer to a range query: rows of
//! first and last walks by the buckets, the seconds on foot by the hierarchy, the spans of the range over the value's list
//! of transfers, and a journey for each span that leaves at its last second.
#![tactic(auto)]

mod found;
mod walks;
mod work;

pub use found::RangeFindings;
pub use work::RangeWork;
