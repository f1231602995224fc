//! Tests of feeds and their days: small feeds with each cause of each file, and the trips of a date.
//!
//! This crate has no items of its own.
#![tactic(auto)]

#[cfg(test)]
mod days;
#[cfg(test)]
mod feeds;
