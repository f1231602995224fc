//! Tests of contracted streets against values that were worked by hand: cores, hierarchies and their order, walks to and
//! from stops, and journeys with given rides.
//!
//! This crate has no items of its own.
#![tactic(auto)]

#[cfg(test)]
mod buckets;
#[cfg(test)]
mod cores;
#[cfg(test)]
mod graphs;
#[cfg(test)]
mod hierarchies;
#[cfg(test)]
mod journeys;
#[cfg(test)]
mod orders;
#[cfg(test)]
mod samples;
