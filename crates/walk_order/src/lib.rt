//! The full order of a street graph: a core contracted to a hierarchy, in which arcs up and then arcs down have all
//! distances (contraction hierarchies, Geisberger, Sanders, Schultes and Delling, WEA 2008).
//!
//! - [`order`] contracts the rest of a core and gives the [`Hierarchy`], with the ranks of the vertices, the arcs up and
//!   the arcs down.
//! - [`distance`], [`path`], [`search_up`] and [`search_down`] search it, with the memory of a [`Work`].
#![tactic(auto)]

mod arcs;
mod whole;

pub use walk_hierarchy::{
    Hierarchy, Ranks, Settled, UpDown, UpDowns, Work, distance, from_parts, path, search_down,
    search_up,
};
pub use whole::order;
