//! A queue that yields the least key, for searches in the manner of Dijkstra (1959).
//!
//! Each of the places `0..places` has one key at most. A key can be lowered while it waits, so a
//! search puts each vertex once and takes no memory after the start. Keys are of any type that has a
//! total order and is `Copy`, as a number or a tuple of numbers; equal keys come in the order of
//! their places.
//!
//! - [`MinQueue::new`] takes all the memory.
//! - [`MinQueue::put_or_lower`] puts a key at a place, or lowers the key there.
//! - [`MinQueue::take_least`] takes out the least key with its place.
//! - [`MinQueue::clear`] leaves no key, at a cost of what the queue holds.
//!
//! Contracts see a queue as the list of its optional keys, one for each place: `length queue` is the
//! number of places, `key_at queue place` the key at a place. A key type's order is `K.cmp`.
//!
//! Inside is a heap of four children to each entry, the fewer levels of which a search feels, and
//! for each place the slot of its entry.
#![tactic(auto)]

mod heap;
mod queue;

pub use queue::MinQueue;
