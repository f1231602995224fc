// The core and its arcs.
ghost use Rattle.std.specs.Prelude.{◌≡◌, ◌↔◌, IsTrue};
ghost use Rattle.walk_core.specs.Core.{Holds, IsCore, core_row, up_row, down_row};

use crate::rows::{Rows, is_left};
use move_model::NodeNo;
use std::marker::Model;
use walk_laws::CoreArc;

/// A street graph of which some vertices were contracted, one after another. The others are its core: between any two of
/// them the arcs of the core alone have the distance of the streets. Each contracted vertex keeps its arcs up, to
/// vertices that were contracted later or are in the core, and its arcs down, from such vertices.
#[derive(Debug, Drop)]
pub struct Core {
    pub(crate) nodes: u32,
    // The arcs out of each vertex, by its number.
    pub(crate) out: Rows,
    // The arcs into each vertex, by its number.
    pub(crate) into: Rows,
    // The place of each vertex in the order, or the greatest number for a vertex of the core.
    pub(crate) rank: Vec<u32>,
    pub(crate) contracted: Vec<NodeNo>,
}

impl Model for Core {
    ghost use Rattle.walk_core.specs.Core.{Contraction};
    ghost use Rattle.walk_core.specs.State.{contraction_of, IsStored};

    ghost Value = { Contraction };

    ghost view = { λ core. contraction_of core.nodes core.out core.into core.rank.items core.contracted.items };

    ghost invariant = { λ core. IsStored core.nodes core.out core.into core.rank.items core.contracted.items };
}

impl Core {
    /// The number of vertices of the graph, in the core or not.
    pub fn nodes(&self) -> u32
        ensures value { result ≡ self.now.nodes }
        ensures rules { IsCore self.now }
    {
        self.nodes
    }

    /// Whether the vertex is in the core.
    pub fn holds(&self, node: NodeNo) -> bool
        ensures { IsTrue result ↔ Holds self.now node }
    {
        1 <= node.0 && node.0 <= self.nodes && is_left(self.rank.as_slice(), node)
    }

    /// The arcs of the core out of a vertex. The list is empty for a vertex outside the core.
    pub fn out(&self, node: NodeNo) -> &[CoreArc]
        ensures { result.now ≡ core_row self.now node.0 }
    {
        self.row_in_core(node)
    }

    fn row_in_core(&self, node: NodeNo) -> &[CoreArc]
        ensures { result.now ≡ core_row self.now node.0 }
    {
        if is_left(self.rank.as_slice(), node) {
            self.out.row(node)
        } else {
            &[]
        }
    }

    /// The vertices outside the core, each once, in the order in which they were contracted.
    pub fn contracted(&self) -> &[NodeNo]
        ensures { result.now ≡ self.now.contracted }
    {
        self.contracted.as_slice()
    }

    /// The arcs out of a contracted vertex, to vertices that were contracted later or are in the core. The list is empty
    /// for any other vertex.
    pub fn up(&self, node: NodeNo) -> &[CoreArc]
        ensures { result.now ≡ up_row self.now node.0 }
    {
        if is_left(self.rank.as_slice(), node) {
            &[]
        } else {
            self.out.row(node)
        }
    }

    /// The arcs into a contracted vertex, from vertices that were contracted later or are in the core; `to` is the vertex
    /// at which the arc begins. The list is empty for any other vertex.
    pub fn down(&self, node: NodeNo) -> &[CoreArc]
        ensures { result.now ≡ down_row self.now node.0 }
    {
        if is_left(self.rank.as_slice(), node) {
            &[]
        } else {
            self.into.row(node)
        }
    }
}
