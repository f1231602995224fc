//! A hierarchy over contracted streets: ranks of the vertices, arcs up to greater ranks and arcs down to lesser ones, in
//! the manner of contraction hierarchies (Geisberger, Sanders, Schultes and Delling, WEA 2008).
//!
//! A search up from a vertex goes along arcs up alone, a search down to a vertex along arcs down alone, against their
//! direction. The least sum of arcs up from one vertex and then of arcs down to another is the distance between them, for
//! a hierarchy that keeps the distances of its streets; for any other, it is still what [`distance`] gives.
//!
//! - [`from_parts`] makes a hierarchy of ranks and arcs, and [`Hierarchy::ranks`], [`Hierarchy::up_arcs`] and
//!   [`Hierarchy::down_arcs`] lend them.
//! - [`Work::new`] takes the memory of all later searches.
//! - [`distance`] gives the least sum, [`path`] a walk along streets with these seconds, and [`timed_path`] both.
//! - [`search_up`] and [`search_down`] leave the least sums of arcs up from a vertex, and of arcs down to a vertex, for
//!   [`Work::settled`] to lend.
#![tactic(auto)]

mod arcs;
mod hierarchy;
mod labels;
mod meeting;
mod places;
mod rows;
mod search;
mod settled;
mod sweep;
mod unfolding;
mod up_down;
mod way;
mod work;

pub use arcs::{Ranks, UpDown, UpDowns};
pub use hierarchy::{Hierarchy, from_parts};
pub use meeting::distance;
pub use settled::Settled;
pub use unfolding::{TimedWalk, path, timed_path};
pub use up_down::{search_down, search_up};
pub use work::Work;
