//! Street graphs: the two text forms of the DIMACS shortest path challenge, `.gr` for vertices and arcs, `.co` for
//! coordinates, and the graph with its arcs by vertex.
#![tactic(auto)]

mod co;
mod gr;
mod graph;
mod number;
mod point;
mod rows;
mod text;

pub use co::read_co;
pub use gr::read_gr;
pub use graph::Graph;
pub use point::{Point, Points};
pub use rows::Half;
