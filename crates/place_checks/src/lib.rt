//! Tests of streets and places: street graphs and coordinates with each cause of a refusal, the nearest vertex against a
//! plain minimum over generated points, and the vertices of stops.
//!
//! This crate has no items of its own.
#![tactic(auto)]

#[cfg(test)]
mod nearest;
#[cfg(test)]
mod stops;
#[cfg(test)]
mod streets;
