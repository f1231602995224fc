//! Tests of what everything stands on: the times and the rules of a network, files and sinks, and the queue of keys.
//!
//! Tests stand in a crate of their own, so that a library is proved once, and they see of it what any caller sees. This
//! crate has no items of its own.
#![tactic(auto)]

#[cfg(test)]
mod files;
#[cfg(test)]
mod networks;
#[cfg(test)]
mod queues;
#[cfg(test)]
mod times;
