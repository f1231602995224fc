//! Tests that cross the crates of streets: generated street graphs are contracted to a hierarchy, and its distances,
//! walks, searches up and down and walks to and from stops are compared with those of plain search, which tries every
//! arc until no distance falls.
//!
//! The graphs have arcs of no seconds, parallel arcs, loops, arcs one way and parts that no walk joins, and several stops
//! stand at one vertex. This crate has no items of its own.
#![tactic(auto)]

#[cfg(test)]
mod compare;
#[cfg(test)]
mod difference;
#[cfg(test)]
mod generate;
#[cfg(test)]
mod plain;
#[cfg(test)]
mod stops;
#[cfg(test)]
mod tests;
