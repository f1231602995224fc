//! The rows of the output: records of eleven fields, as `csv` writes them with its default writer.
//!
//! - [`build`] gives the journey with given rides, whose walks are found in a hierarchy.
//! - [`write_header`] and [`write_point`] write the rows.
//! - [`LeastArcs`] tells the seconds of printed arcs. Who writes many answers makes it once, and lends it to
//!   [`write_point_with`].
//! - [`new_writer`], [`add_record`], [`add_legs`], [`text_of`] and [`send`] are what rows of other answers are made of.
#![tactic(auto)]

mod answer;
mod arcs;
mod least_arcs;
mod legs;
mod rows;
mod text;

pub use answer::{PointAnswer, PrintStop};
pub use journey_build::build;
pub use least_arcs::LeastArcs;
pub use legs::add_legs;
pub use rows::{write_header, write_point, write_point_with};
pub use text::{add_record, new_writer, send, text_of};
