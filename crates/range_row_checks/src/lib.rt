//! Tests of the rows of ranges, over a small network, worked by hand.
//!
//! This crate ships nothing and no crate uses it.
#![tactic(auto)]

#[cfg(test)]
mod printed;
#[cfg(test)]
mod sample;
