//! Tests of the rules that bind the parts of a compiled network to one another, each in time near linear in what it is lent.
//!
//! - [`are_made`] tests the arcs of a hierarchy: each is a least street arc, or is made of two others at its middle.
//! - [`are_buckets`] tests entries between vertices and stops, and [`are_transfers`] walks between stops.
#![tactic(auto)]

mod buckets;
mod find;
mod made;
mod streets;
mod transfers;

pub use buckets::are_buckets;
pub use made::are_made;
pub use transfers::are_transfers;
