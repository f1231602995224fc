//! Walks between a vertex and every stop, by one search in a hierarchy and by buckets, in the manner of Knopp, Sanders,
//! Schultes, Schulz and Wagner (ALENEX 2007).
//!
//! A bucket entry says how many seconds it is along arcs down from a vertex to a stop, or along arcs up from a stop to a
//! vertex. The least sum of a search up from a vertex and of an entry where it comes to is the distance to the stop, for a
//! hierarchy that keeps the distances of its streets and for its own buckets; for any others, it is still what
//! [`Buckets::first_walks`] gives.
//!
//! - [`Buckets::new`] makes the buckets of a hierarchy, and [`Buckets::from_parts`] those of two lists of entries.
//! - [`Buckets::to_stops`] and [`Buckets::from_stops`] lend the lists.
//! - [`Buckets::first_walks`] and [`Buckets::last_walks`] fill a row with the walks from a vertex and to a vertex.
#![tactic(auto)]

mod bucket;
mod buckets;
mod bypasses;
mod gather;
mod index;
mod scan;
mod slim;
mod starts;
mod twins;

pub use bucket::{Bucket, BucketList};
pub use buckets::Buckets;
