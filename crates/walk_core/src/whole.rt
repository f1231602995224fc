// The contraction of a whole graph.
ghost use Rattle.std.specs.Prelude.{◌≡◌, ◌+◌, ◌<◌, ◌≤◌, ◌^◌, [], true, false, replicate, length, slice_index_or, vec_len, All, OnOk, IfOk};
ghost use Rattle.move_model.specs.Streets.{IsVertex};
ghost use Rattle.walk_core.specs.Core.{Holds, IsContraction};
ghost use Rattle.walk_core.specs.Bridge.{IsUnranked};
ghost use Rattle.walk_core.specs.State.{IsStored, contraction_of};

use crate::core_graph::Core;
use crate::order::{Effort, contract_some};
use crate::rows::{LEFT, Rows};
use crate::state::clean_all;
use crate::streets::lay_streets;
use move_model::{NoMemory, NodeNo};
use std::alloc::{AllocError, Global};
use street_graph::Graph;

// Marks these of so many vertices.
fn marks_of(alloc: Global, count: usize, nodes: &[NodeNo]) -> Result<Vec<bool>, AllocError>
    requires { All (λ v. v.0 < count) nodes.now }
    ensures many { IfOk result (λ marks. vec_len marks ≡ count) }
    ensures marked { IfOk result (λ marks. All (λ v. slice_index_or marks.items v.0 false ≡ true) nodes.now) }
{
    let mut marks = vec![in alloc; false; count]?;
    for node in nodes {
        marks[node.0 as usize] = true;
    }
    Ok(marks)
}

// Lays the streets and contracts vertices, from lists without arcs.
fn fill(
    alloc: Global,
    graph: &Graph,
    nodes: u32,
    keep: &[NodeNo],
    out: &mut Rows,
    into: &mut Rows,
    rank: &mut [u32],
    contracted: &mut Vec<NodeNo>,
) -> Result<(), AllocError>
    requires nodes { nodes ≡ graph.now.nodes }
    requires keep { All (λ v. IsVertex graph.now v) keep.now }
    requires out { out.old ≡ replicate (length rank.old) [] }
    requires into { into.old ≡ replicate (length rank.old) [] }
    requires unranked { IsUnranked rank.old }
    requires many { length rank.old ≡ nodes + 1 }
    requires none { contracted.old.items ≡ [] }
    ensures stored { OnOk result (IsStored nodes out.new into.new rank.new contracted.new.items) }
    ensures contraction { OnOk result (IsContraction graph.now (contraction_of nodes out.new into.new rank.new contracted.new.items)) }
    ensures kept { OnOk result (All (λ v. Holds (contraction_of nodes out.new into.new rank.new contracted.new.items) v) keep.now) }
{
    let arcs = graph.arcs();
    lay_streets(out, into, rank, arcs)?;
    let marks = marks_of(alloc, rank.len(), keep)?;
    let effort = Effort {
        degree: 16,
        tried: 30,
    };
    contract_some(alloc, out, into, rank, contracted, marks.as_slice(), effort)?;
    clean_all(out, rank);
    Ok(())
}

/// Contracts a graph to a core that holds at least the vertices to be kept: between any two vertices of the core its arcs
/// have the distance of the streets, and over the arcs up, the core and the arcs down any two vertices have it. Vertices
/// that need few arcs are contracted first, until a vertex of the core has 16 arcs out on average.
pub fn contract(alloc: Global, graph: &Graph, keep: &[NodeNo]) -> Result<Core, NoMemory>
    requires { All (λ v. IsVertex graph.now v) keep.now }
    ensures contraction { IfOk result (λ core. IsContraction graph.now core) }
    ensures kept { IfOk result (λ core. All (λ v. Holds core v) keep.now) }
{
    let nodes = graph.nodes();
    let count = nodes as usize + 1;
    let mut out = Rows::new(alloc, count)?;
    let mut into = Rows::new(alloc, count)?;
    let mut rank: Vec<u32> = vec![in alloc; LEFT; count]?;
    let mut contracted = Vec::new(alloc);
    fill(
        alloc,
        graph,
        nodes,
        keep,
        &mut out,
        &mut into,
        rank.as_mut_slice(),
        &mut contracted,
    )?;
    Ok(Core {
        nodes,
        out,
        into,
        rank,
        contracted,
    })
}
