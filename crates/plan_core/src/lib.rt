//! Compiles a network, and answers queries over what was compiled: the calls that a run of the planner makes for its rows.
#![tactic(auto)]

pub use answer_rows::{AnswerStop, answer};
pub use network_compile::{Compiled, compile};
pub use query_table::read_queries;
