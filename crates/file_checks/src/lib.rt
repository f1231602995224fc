//! Tests of the network file: the files of two small networks, altered files, and what is left where a read or a write fails.
//!
//! Tests stand in a crate of their own, so that a library is proved once, and they see of it what any caller sees. The files
//! and their digests were made by another program.
#![tactic(auto)]

#[cfg(test)]
mod altered;
#[cfg(test)]
mod commands;
#[cfg(test)]
mod files;
#[cfg(test)]
mod tests;
