// The contraction of what is left.
ghost use Rattle.std.specs.Prelude.{◌≡◌, length, vec_len, IfOk, OnOk};
ghost use Rattle.move_model.specs.Streets.{Streets};
ghost use Rattle.move_model.specs.declared.network.NodeNo.{NodeNo};
ghost use Rattle.walk_core.specs.Core.{Holds, IsContraction};
ghost use Rattle.walk_core.specs.Bridge.{view_of};
ghost use Rattle.walk_core.specs.State.{AreGone, IsRight, IsSound};

use crate::contraction::Scratch;
use crate::core_graph::Core;
use crate::order::{Effort, contract_some};
use crate::rows::{Rows, is_left};
use crate::search::Search;
use crate::state::contract_next;
use move_model::{NoMemory, NodeNo};
use std::alloc::{AllocError, Global};

// Contracts the vertices that are left, in the order of their numbers.
fn contract_each(
    out: &mut Rows,
    into: &mut Rows,
    rank: &mut [u32],
    contracted: &mut Vec<NodeNo>,
    scratch: &mut Scratch,
) -> Result<(), AllocError>
    requires sound { IsSound (view_of out.old into.old rank.old) contracted.old.items }
    requires labels { vec_len scratch.old.search.labels ≡ length rank.old }
    ensures sound { OnOk result (IsSound (view_of out.new into.new rank.new) contracted.new.items) }
    ensures right { OnOk result ((graph : Streets) → IsRight graph (view_of out.old into.old rank.old) → IsRight graph (view_of out.new into.new rank.new)) }
    ensures gone { OnOk result (AreGone rank.new) }
{
    for at in 1..rank.len() as u32 {
        if is_left(rank, NodeNo(at)) {
            contract_next(out, into, rank, contracted, at, scratch, 30)?;
        }
    }
    Ok(())
}

// Contracts all vertices that are left: those that need few arcs first.
fn contract_left(
    alloc: Global,
    out: &mut Rows,
    into: &mut Rows,
    rank: &mut [u32],
    contracted: &mut Vec<NodeNo>,
) -> Result<(), AllocError>
    requires sound { IsSound (view_of out.old into.old rank.old) contracted.old.items }
    ensures sound { OnOk result (IsSound (view_of out.new into.new rank.new) contracted.new.items) }
    ensures right { OnOk result ((graph : Streets) → IsRight graph (view_of out.old into.old rank.old) → IsRight graph (view_of out.new into.new rank.new)) }
    ensures gone { OnOk result (AreGone rank.new) }
{
    let marks = vec![in alloc; false; rank.len()]?;
    let effort = Effort {
        degree: u64::MAX,
        tried: 30,
    };
    contract_some(alloc, out, into, rank, contracted, marks.as_slice(), effort)?;
    let mut scratch = Scratch {
        ins: Vec::new(alloc),
        outs: Vec::new(alloc),
        search: Search::new(alloc, rank.len() as u32)?,
    };
    contract_each(out, into, rank, contracted, &mut scratch)
}

/// Contracts the vertices of a core, so that none is left: over the arcs up and then the arcs down any two vertices have
/// the distance of the streets.
pub fn contract_rest(alloc: Global, core: Core) -> Result<Core, NoMemory>
    ensures contraction { IfOk result (λ rest. (graph : Streets) → IsContraction graph core → IsContraction graph rest) }
    ensures none { IfOk result (λ rest. (v : NodeNo) → Holds rest v → ⊥) }
    ensures nodes { IfOk result (λ rest. rest.nodes ≡ core.nodes) }
{
    let Core {
        nodes,
        mut out,
        mut into,
        mut rank,
        mut contracted,
    } = core;
    contract_left(
        alloc,
        &mut out,
        &mut into,
        rank.as_mut_slice(),
        &mut contracted,
    )?;
    Ok(Core {
        nodes,
        out,
        into,
        rank,
        contracted,
    })
}
