//! The sections of the body of a network file. Each reader gives the one value in front of the bytes that keeps the rules of
//! its section, and the bytes behind it, or tells that there is none.
//!
//! - [`streets`], [`stops`] and [`trips`] read a network, one after the other.
//! - [`ranks`], [`arcs_up`] and [`arcs_down`] read a hierarchy of its streets.
//! - [`buckets`] reads entries between its vertices and its stops, to stops or from stops.
//! - [`shortcuts`] reads the walks between stops by which a passenger may change.
#![tactic(auto)]

mod hierarchy;
mod lists;
mod network;
mod rules;

pub use hierarchy::{arcs_down, arcs_up, ranks};
pub use lists::{buckets, shortcuts};
pub use network::{stops, streets, trips};
