//! Network files, read and rewritten under their names.
//!
//! A network file of version 2 is the newest. One of either version is read whole before anything is written, so a file may
//! take the place of the one that it is made of.
//!
//! - [`read_network_file`] gives the value whose file a name holds.
//! - [`migrate`] leaves the newest file of that value under the same name, or another.
#![tactic(auto)]

mod read;
mod rewrite;
mod stop;

pub use read::read_network_file;
pub use rewrite::migrate;
pub use stop::{FileStop, MigrateStop};
