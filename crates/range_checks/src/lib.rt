//! Tests of answers to ranges against values that were worked by hand: how long the walk on foot is, windows of one
//! second, and more departures than a group has.
//!
//! This crate ships nothing and no crate uses it.
#![tactic(auto)]

#[cfg(test)]
mod samples;
#[cfg(test)]
mod spans;
