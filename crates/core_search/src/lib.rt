//! Labels that spread over the core of a street graph.
//!
//! A label has a number of seconds and a rest, and labels are compared entry by entry. A label that stands at a vertex
//! comes to every other vertex of the core with the seconds of the walk there added, and each vertex keeps the least label
//! that comes to it. One search does this for all labels at once, in the manner of Dijkstra (1959) with many sources.
//!
//! - [`Label`] and its [`Rest`], and [`Labels`]: one label at most for each vertex.
//! - [`SpreadWork::new`] takes the memory of all searches.
//! - [`spread`] leaves the least labels.
#![tactic(auto)]

mod label;
mod labels;
mod settle;
mod waiting;
mod work;

pub use label::{Label, Rest};
pub use labels::Labels;
pub use work::{SpreadWork, spread};
