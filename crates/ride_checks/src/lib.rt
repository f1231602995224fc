//! Tests of journeys and rides against values that were worked by hand: the test of a journey, the order of keys, the
//! plain search, routes against a plain split of generated trips, and rounds.
//!
//! This crate has no items of its own.
#![tactic(auto)]

#[cfg(test)]
mod laws;
#[cfg(test)]
mod plain;
#[cfg(test)]
mod rounds;
#[cfg(test)]
mod routes;
#[cfg(test)]
mod samples;
