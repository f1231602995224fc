//! Compiles a network: the routes of its trips, the hierarchy of its streets, the buckets of its stops, and the list of its
//! shortcuts.
//!
//! [`compile`] gives a value that is right for its network. The streets are contracted once, to the core over which the
//! shortcuts are found, and from there to the hierarchy.
#![tactic(auto)]

mod limits;
mod streets;
mod whole;

pub use network_file::Compiled;
pub use whole::compile;
