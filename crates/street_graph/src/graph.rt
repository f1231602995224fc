// Street graphs.
ghost use Rattle.std.specs.Prelude.{◌≡◌, IfOk};
ghost use Rattle.move_model.specs.Streets.{IsVertex};
ghost use Rattle.street_graph.specs.Graph.{IsWithinLimits};
ghost use Rattle.street_graph.specs.Rows.{halves_out, halves_into};

use crate::rows::{Half, Rows, Side};
use move_model::{Arc, Arcs, NoMemory, NodeNo};
use std::alloc::Global;
use std::marker::Model;

/// A street graph with 1 to 2,000,000 vertices, numbered from 1, and at most 8,000,000 arcs of at most 1,000,000
/// seconds. It lends the arcs of each vertex without a copy.
#[derive(Debug, Drop)]
pub struct Graph {
    nodes: u32,
    arcs: Arcs,
    out: Rows,
    into: Rows,
}

impl Model for Graph {
    ghost use Rattle.move_model.specs.Streets.{Streets};
    ghost use Rattle.street_graph.specs.Graph.{IsWithinLimits, IsIndexed};

    ghost Value = { Streets };

    ghost view = { λ graph. record { nodes = graph.nodes; arcs = graph.arcs } };

    ghost invariant = { λ graph. IsIndexed graph.nodes graph.arcs graph.out graph.into };
}

impl Graph {
    /// The graph of these vertices and arcs.
    pub fn new(alloc: Global, nodes: u32, arcs: &Arcs) -> Result<Graph, NoMemory>
        requires { IsWithinLimits (record { nodes = nodes; arcs = arcs.now }) }
        ensures { IfOk result (λ graph. graph ≡ record { nodes = nodes; arcs = arcs.now }) }
    {
        let arcs = Arcs::from_slice(alloc, arcs.as_slice())?;
        Graph::of(alloc, nodes, arcs)
    }

    // The graph of these vertices and arcs, which it keeps.
    pub(crate) fn of(alloc: Global, nodes: u32, arcs: Arcs) -> Result<Graph, NoMemory>
        requires { IsWithinLimits (record { nodes = nodes; arcs = arcs }) }
        ensures { IfOk result (λ graph. graph ≡ record { nodes = nodes; arcs = arcs }) }
    {
        let out = Rows::new(alloc, nodes, arcs.as_slice(), Side::Out)?;
        let into = Rows::new(alloc, nodes, arcs.as_slice(), Side::Into)?;
        Ok(Graph {
            nodes,
            arcs,
            out,
            into,
        })
    }

    /// The number of vertices.
    pub fn nodes(&self) -> u32
        ensures value { result ≡ self.now.nodes }
        ensures limits { IsWithinLimits self.now }
    {
        self.nodes
    }

    /// All arcs, in the order in which they were given.
    pub fn arcs(&self) -> &[Arc]
        ensures value { result.now ≡ self.now.arcs }
        ensures limits { IsWithinLimits self.now }
    {
        self.arcs.as_slice()
    }

    /// The arcs that leave a vertex, in the order of all arcs; `to` is the vertex at the other end.
    pub fn out(&self, node: NodeNo) -> &[Half]
        requires { IsVertex self.now node }
        ensures { result.now ≡ halves_out node.0 self.now.arcs }
    {
        self.out.row(node)
    }

    /// The arcs that end at a vertex, in the order of all arcs; `to` is the vertex at which the arc begins.
    pub fn into_node(&self, node: NodeNo) -> &[Half]
        requires { IsVertex self.now node }
        ensures { result.now ≡ halves_into node.0 self.now.arcs }
    {
        self.into.row(node)
    }
}
