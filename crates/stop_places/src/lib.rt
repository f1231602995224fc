//! The vertices of a street graph at which the stops of a feed stand.
//!
//! A stop that `stop_nodes.txt` names stands at the vertex given there. Any other stop with coordinates stands at the
//! vertex nearest to it, where the vertices have coordinates too. `specs/Rules.antt` defines the rules of a row of that
//! table, each a test into an optional cause, `specs/Table.antt` those of the whole file, and `specs/Places.antt` where a
//! stop stands and what is refused: a broken rule of the table, or the first stop that has no place.
#![tactic(auto)]

mod columns;
mod given;
mod ids;
mod near;
mod place;
mod row;
mod table;

pub use near::Near;
pub use place::place_stops;
