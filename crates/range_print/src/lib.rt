//! The rows of the answer to a range query: records of eleven fields, as `csv` writes them with its default writer.
//!
//! [`write_range`] writes the row of the walk on foot, then one for each span, each with the legs of its journey below it;
//! [`write_range_with`] does so where an index of the network's arcs is lent.
#![tactic(auto)]

mod answer;
mod records;
mod rows;

pub use answer::RangeAnswer;
pub use rows::{write_range, write_range_with};
