//! Tests of tables and queries: records, columns, values and names of small files, and queries with each cause of a
//! refusal.
//!
//! Tests stand in a crate of their own, so that a library is proved once, and they see of it what any caller sees. This
//! crate has no items of its own.
#![tactic(auto)]

#[cfg(test)]
mod queries;
#[cfg(test)]
mod values;
