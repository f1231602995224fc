//! The rows of answers over a compiled network.
//!
//! [`answer`] sends the header and the rows of point and range queries, each with the answer of the value: the listed one,
//! which is exact where the value is right for its network.
#![tactic(auto)]

mod answers;
mod place;
mod point;
mod range;
mod send;
mod stop;
mod works;

pub use answers::answer;
pub use stop::AnswerStop;
