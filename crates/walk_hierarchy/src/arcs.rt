// Arcs of a hierarchy.
use move_model::{List, NodeNo};

/// An arc of a hierarchy, up or down. The middle is vertex 0 where the arc has the seconds of a street; for an added arc
/// it is the vertex between the two arcs that it stands for.
#[derive(Clone, Copy, Debug, PartialEq, Eq)]
pub struct UpDown {
    pub from: NodeNo,
    pub to: NodeNo,
    pub seconds: u64,
    pub middle: NodeNo,
}

/// Arcs up, or arcs down.
pub type UpDowns = List<UpDown>;

/// The ranks of the vertices, from vertex 1.
pub type Ranks = List<u32>;
