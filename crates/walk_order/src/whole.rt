// The hierarchy of a core.
ghost use Rattle.std.specs.Prelude.{◌≡◌, ◌-◌, ◌<◌, ◌^◌, length, IfOk};
ghost use Rattle.std.specs.List.{AllAdjacentBelow};
ghost use Rattle.move_model.specs.Streets.{Streets};
ghost use Rattle.walk_core.specs.Core.{IsContraction};
ghost use Rattle.walk_hierarchy.specs.Hierarchy.{IsBefore, IsOver, GivesDistances};
ghost use Rattle.walk_order.specs.Lists.{AreArcsOf, AreRanksOf};

use crate::arcs::{Side, in_order};
use move_model::{List, NoMemory};
use std::alloc::{AllocError, Global};
use walk_core::{Core, contract_rest};
use walk_hierarchy::{Hierarchy, Ranks, UpDowns};

// The rank of each vertex: its place in the order of the contraction.
fn ranks_of(alloc: Global, core: &Core) -> Result<Vec<u32>, AllocError>
    ensures { IfOk result (λ ranks. AreRanksOf core.now ranks.items) }
{
    let mut ranks = vec![in alloc; 0u32; core.nodes() as usize]?;
    for (place, node) in core.contracted().iter().enumerate() {
        ranks[node.0 as usize - 1] = place as u32;
    }
    Ok(ranks)
}

// The arcs of one side as a list, or no memory for that many.
fn arcs_of(alloc: Global, core: &Core, side: Side) -> Result<UpDowns, NoMemory>
    ensures arcs { IfOk result (λ arcs. AreArcsOf side core.now core.now.nodes arcs) }
    ensures order { IfOk result (λ arcs. AllAdjacentBelow IsBefore arcs (length arcs)) }
    ensures few { IfOk result (λ arcs. length arcs < 2 ^ 32 - 1) }
{
    let arcs = in_order(alloc, core, side)?;
    if arcs.len() >= u32::MAX as usize {
        return Err(NoMemory);
    }
    Ok(List::from_vec(arcs))
}

/// The hierarchy of a core: the vertices that are left are contracted too, and each vertex has the rank of its place in
/// the whole order. The core is given up where memory is wanting.
pub fn order(alloc: Global, core: Core) -> Result<Hierarchy, NoMemory>
    ensures nodes { IfOk result (λ hierarchy. length hierarchy.ranks ≡ core.nodes) }
    ensures streets { IfOk result (λ hierarchy. (graph : Streets) → IsContraction graph core → IsOver graph hierarchy) }
    ensures distances { IfOk result (λ hierarchy. (graph : Streets) → IsContraction graph core → GivesDistances graph hierarchy) }
{
    let core = contract_rest(alloc, core)?;
    let ranks: Ranks = List::from_vec(ranks_of(alloc, &core)?);
    let up = arcs_of(alloc, &core, Side::Up)?;
    let down = arcs_of(alloc, &core, Side::Down)?;
    Hierarchy::of(alloc, ranks, up, down)
}
