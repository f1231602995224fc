// Where an answer differs from plain search.
use move_model::{NodeNo, StopNo};

/// What answers otherwise than plain search.
#[derive(Clone, Copy, Debug, PartialEq, Eq)]
pub enum Difference {
    /// The graph, whose text is refused.
    Graph,
    /// The distance between two vertices.
    Distance(NodeNo, NodeNo),
    /// The walk between two vertices.
    Path(NodeNo, NodeNo),
    /// A walk between two vertices that comes to a vertex twice.
    Circle(NodeNo, NodeNo),
    /// The sums up from a vertex.
    Up(NodeNo),
    /// The sums down to a vertex.
    Down(NodeNo),
    /// The least sum up and then down between two vertices.
    Meeting(NodeNo, NodeNo),
    /// Some stop, which stands at no vertex.
    Stops,
    /// The walk from a vertex to a stop.
    First(NodeNo, StopNo),
    /// The walk from a stop to a vertex.
    Last(StopNo, NodeNo),
}
