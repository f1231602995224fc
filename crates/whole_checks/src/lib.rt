//! Tests over whole networks: every faster search against the plain one.
//!
//! This crate ships nothing and no crate uses it. Its tests make small networks from seeds, with all that tends to go
//! wrong in a search: arcs of no seconds, parallel arcs, loops and one-way arcs, vertices that nothing leads to, stops
//! that share a vertex, trips that tie and overtake one another, calls where boarding or alighting is forbidden. Each
//! answer over such a network is compared with that of `plain_search`, which is right by the definitions alone.
#![tactic(auto)]

#[cfg(test)]
mod draws;
#[cfg(test)]
mod halves;
#[cfg(test)]
mod networks;
#[cfg(test)]
mod ranges;
#[cfg(test)]
mod rides;
#[cfg(test)]
mod rounds;
#[cfg(test)]
mod tables;
#[cfg(test)]
mod walks;
