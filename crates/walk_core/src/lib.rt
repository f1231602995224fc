//! A street graph contracted to a core that keeps given vertices.
//!
//! Vertices are contracted one after another: where the way over a vertex is the only shortest one between two of its
//! neighbours, they get an arc of their own that remembers the vertex as its middle. What is left is the core, in which
//! the distances are those of the streets (contraction hierarchies, Geisberger et al. 2008; the core of ULTRA, ESA 2019).
//!
//! - [`contract`] gives the [`Core`] of a graph, with each vertex of a list kept.
//! - [`Core::holds`], [`Core::out`] are the vertices of the core and its arcs.
//! - [`Core::contracted`], [`Core::up`], [`Core::down`] are the other vertices in their order, with the arcs to and from
//!   where was contracted later or never.
//! - [`contract_rest`] contracts the vertices of a core too, so that arcs up and arcs down alone have the distances.
#![tactic(auto)]

mod contraction;
mod core_graph;
mod order;
mod rest;
mod rows;
mod search;
mod state;
mod streets;
mod whole;

pub use core_graph::Core;
pub use rest::contract_rest;
pub use walk_laws::CoreArc;
pub use whole::contract;
