//! The top call: runs the command that words name, over files and sinks that are handed in.
//!
//! `run` reads the words, the files and the queries in their order, sends the rows of the answers, and tells in one line how
//! it ended. `run_program` does the same with the words that the system gives; `main` hands it the files and streams of the
//! system.
#![tactic(auto)]

mod columns;
mod command;
mod feed;
mod given;
mod inputs;
mod line;
mod network;
mod status;
mod words;

pub use command::run;
pub use given::run_program;
pub use status::{Status, exit_number};
