//! Answers of a compiled network, whether it is right for its network or not.
//!
//! [`AnswerWork`] holds the memory of searches, and [`AnswerWork::point`] finds the listed answer to a point query: rows of
//! first and last walks by the buckets, the seconds on foot by the hierarchy, rounds of rides over the value's list of
//! transfers, and a journey for each number of rides that arrives before fewer rides and before the walk on foot.
//! [`exact_pairs`] is a law: the listed pairs of a right value are the Pareto set.
#![tactic(auto)]

mod asked;
mod found;
mod gains;
mod laws;
mod work;

pub use laws::exact_pairs;
pub use work::AnswerWork;
