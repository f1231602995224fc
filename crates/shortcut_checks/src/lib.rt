//! Tests of the crates that make shortcuts: labels that spread over a core, rows of distances between stops, the needed walks
//! of a start, and the list of shortcuts, on small networks whose values were worked by hand. On networks from seeds the
//! searched list is compared with the plain one: these have departures and arrivals that tie, trips that overtake one another,
//! lines with many trips, arcs and rides of no seconds, stops that share a vertex or that nothing reaches, a buffer, and calls
//! where nobody boards or alights. This crate has no items of its own.
#![tactic(auto)]

#[cfg(test)]
mod draws;
#[cfg(test)]
mod lists;
#[cfg(test)]
mod networks;
#[cfg(test)]
mod pieces;
#[cfg(test)]
mod rows;
#[cfg(test)]
mod sample;
#[cfg(test)]
mod seeds;
#[cfg(test)]
mod spread;
#[cfg(test)]
mod tables;
