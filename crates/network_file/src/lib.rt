//! A compiled network: what answers to queries need of it, and what it means that they are right.
//!
//! [`Compiled`] holds a network with its routes, a hierarchy of its streets, buckets between vertices and stops, and a
//! list of transfers between rides. Its parts *fit together* where they belong to one network, whatever walks they tell
//! of. It is *right* where its sums are the distances of the network and its list suffices. A value whose parts fit
//! together gives answers of its own, the *listed* ones, right or not; those of a right one are exact.
#![tactic(auto)]

mod compiled;

pub use compiled::Compiled;
