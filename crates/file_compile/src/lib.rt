//! Networks, compiled into files.
//!
//! - [`compile_file`] compiles a network, and leaves the newest file of the value under a name.
#![tactic(auto)]

mod rules;
mod whole;

pub use whole::compile_file;
