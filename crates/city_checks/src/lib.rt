//! Tests of the generated city: its counts, some of its parts, sums over all of it, and the lines that its run sends are
//! compared with values that were worked out apart from the program. This crate has no items of its own.
#![tactic(auto)]

#[cfg(test)]
mod runs;
#[cfg(test)]
mod sums;
#[cfg(test)]
mod tests;
#[cfg(test)]
mod words;
