//! The plain list of shortcuts (ULTRA, ESA 2019): every pair of rides from every start is tried, and kept where nothing
//! betters it.
//!
//! It is the yardstick of the faster search: slow, and right by the definitions of pieces, keys and shortcuts alone.
//!
//! - [`plain_shortcuts`] gives the list of shortcuts of a network.
#![tactic(auto)]

mod changes;
mod keys;
mod list;
mod needed;
mod rides;
mod walks;

pub use list::plain_shortcuts;
