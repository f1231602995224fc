//! The distances between the vertices at which stops stand, as rows of seconds.
//!
//! A search that looks at the walks between stops again and again reads them from a table: one row for each vertex with a
//! stop, with the seconds to each such vertex. Stops at one vertex share a row: the vertex is their place.
//!
//! - [`StopRows::new`] makes the table of a network, by one search over its core from each place.
//! - [`StopRows::place`] is the place of a stop, and [`StopRows::stops_at`] are the stops of a place.
//! - [`StopRows::row`] lends the seconds from a place to all places, with [`NEVER`] where no walk is short enough.
//! - [`between_stops`] is the law that says the same of stops.
//!
//! The table has four bytes for each pair of places, however many they are.
#![tactic(auto)]

mod laws;
mod places;
mod row;
mod rows;

pub use laws::between_stops;
pub use row::NEVER;
pub use rows::StopRows;
