//! Tests of the top call: rows of answers over small feeds and streets, what is told of inputs that are wrong, and reads
//! and writes that fail.
//!
//! This crate ships nothing and no crate uses it. Each expected row was worked by hand.
#![tactic(auto)]

#[cfg(test)]
mod cases;
#[cfg(test)]
mod cities;
#[cfg(test)]
mod faults;
#[cfg(test)]
mod given;
#[cfg(test)]
mod ranges;
#[cfg(test)]
mod rows;
#[cfg(test)]
mod sample;
#[cfg(test)]
mod wrong;
