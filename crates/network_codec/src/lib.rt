//! The network file: a compiled network as bytes.
//!
//! A file has a head and a body of nine sections. The head has a mark, the version, the length of the body and its SHA-256.
//! Version 1 doesn't tell the buffer, which is then 0 seconds; version 2 has it in front of the streets. All numbers stand
//! with the highest byte first. The bytes are a function of the value, and no value has two files of one version.
//!
//! - [`encode`] leaves the file of version 2 under a name, [`encode_one`] that of version 1.
//! - [`headed`] gives the version and the body of a file, or the first damage of its head.
#![tactic(auto)]

mod damage;
mod file;
mod head;
mod version;
mod writing;

pub use damage::{Damage, DecodeStop, EncodeStop};
pub use file::{encode, encode_one};
pub use head::headed;
pub use version::Version;
