// Cores of small texts.
ghost use Rattle.std.specs.Prelude.{All, IfOk, OnOk};
ghost use Rattle.move_model.specs.Streets.{IsVertex};

use move_model::NodeNo;
use std::alloc::{AllocError, Global};
use street_graph::{Graph, read_gr};
use walk_core::{Core, contract};

// Puts the number last, if it is that of a vertex.
fn push_vertex(graph: &Graph, list: &mut Vec<NodeNo>, number: u32) -> Result<(), AllocError>
    ensures { OnOk result (All (λ v. IsVertex graph.now v) list.old.items
        → All (λ v. IsVertex graph.now v) list.new.items) }
{
    if number < 1 || graph.nodes() < number {
        return Ok(());
    }
    list.push(NodeNo(number))?;
    Ok(())
}

// Those of the numbers that are vertices of the graph.
fn vertices(alloc: Global, graph: &Graph, numbers: &[u32]) -> Result<Vec<NodeNo>, AllocError>
    ensures { IfOk result (λ list. All (λ v. IsVertex graph.now v) list.items) }
{
    let mut list = Vec::new(alloc);
    for number in numbers {
        push_vertex(graph, &mut list, *number)?;
    }
    Ok(list)
}

fn graph_of(alloc: Global, text: &[u8]) -> Option<Graph> {
    if text.len() > 1000 {
        return None;
    }
    read_gr(alloc, text).ok()
}

fn contracted(alloc: Global, graph: &Graph, keep: &[u32]) -> Result<Core, AllocError> {
    let keep = vertices(alloc, graph, keep)?;
    contract(alloc, graph, keep.as_slice())
}

/// The core of a text of `.gr`, with these vertices in it.
pub fn core_of(alloc: Global, text: &[u8], keep: &[u32]) -> Option<Core> {
    let graph = graph_of(alloc, text)?;
    contracted(alloc, &graph, keep).ok()
}
