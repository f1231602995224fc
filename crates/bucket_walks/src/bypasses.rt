// The arcs past each vertex to greater ranks, by which a way between the vertex and a stop may be shorter.
ghost use Rattle.std.specs.Prelude.{◌≡◌, ◌↔◌, ◌+◌, ◌<◌, Contains, IfOk, length, map};
ghost use Rattle.std.specs.List.Sorted.{IsNonDecreasingBy, IsPermutation};
ghost use Rattle.bucket_walks.specs.declared.bypasses.Bypass.{Bypass};
ghost use Rattle.bucket_walks.specs.Starts.{AreStarts};
ghost use Rattle.bucket_walks.specs.Gathered.{arcs_of, bypass_of, heads_of, AreBypasses};

use crate::starts::{row, starts};
use move_model::{NoMemory, NodeNo};
use std::alloc::Global;
use walk_hierarchy::{Hierarchy, UpDown};

// Whether entries say how many seconds it is to stops or from stops.
#[derive(Clone, Copy, Debug)]
pub(crate) enum Side {
    To,
    From,
}

// An arc between a vertex and one of greater rank.
#[derive(Clone, Copy, Debug, PartialEq, Eq)]
pub(crate) struct Bypass {
    pub(crate) seconds: u64,
    pub(crate) node: NodeNo,
    pub(crate) over: NodeNo,
}

fn arc_past(side: Side, arc: &UpDown) -> Bypass
    ensures { result ≡ bypass_of side arc.now }
{
    let (node, over) = match side {
        Side::To => (arc.from, arc.to),
        Side::From => (arc.to, arc.from),
    };
    Bypass {
        seconds: arc.seconds,
        node,
        over,
    }
}

// The arcs that lead past the vertices: up out of them, or down into them.
fn given(side: Side, hierarchy: &Hierarchy) -> &[UpDown]
    ensures { result.now ≡ arcs_of side hierarchy.now }
{
    match side {
        Side::To => hierarchy.up_arcs(),
        Side::From => hierarchy.down_arcs(),
    }
}

fn all_past(alloc: Global, side: Side, arcs: &[UpDown]) -> Result<Vec<Bypass>, NoMemory>
    ensures { IfOk result (λ all. all.items ≡ map (bypass_of side) arcs.now) }
{
    let mut all = Vec::with_capacity(alloc, arcs.len())?;
    for arc in arcs {
        all.push(arc_past(side, arc))?;
    }
    Ok(all)
}

// Puts the arcs in the order of their vertices.
fn sort_arcs(arcs: &mut Vec<Bypass>)
    ensures same { IsPermutation arcs.old.items arcs.new.items }
    ensures rise { IsNonDecreasingBy (λ arc. arc.node.0) arcs.new.items }
{
    arcs.sort_unstable_by_key(|arc| arc.node.0);
}

// The vertices of arcs.
fn heads(alloc: Global, arcs: &[Bypass]) -> Result<Vec<u32>, NoMemory>
    ensures { IfOk result (λ heads. heads.items ≡ heads_of arcs.now) }
{
    arcs.iter().map(|arc| arc.node.0).collect(alloc)
}

// The arcs of each vertex, one vertex behind the other.
#[derive(Debug, Drop)]
pub(crate) struct Bypasses {
    pub(crate) starts: Vec<u32>,
    pub(crate) arcs: Vec<Bypass>,
}

impl Bypasses {
    // The arcs up out of each vertex, or the arcs down into it.
    pub(crate) fn new(
        alloc: Global,
        side: Side,
        hierarchy: &Hierarchy,
    ) -> Result<Bypasses, NoMemory>
        ensures { IfOk result (AreBypasses side hierarchy.now) }
    {
        let nodes = hierarchy.nodes();
        let mut arcs = all_past(alloc, side, given(side, hierarchy))?;
        sort_arcs(&mut arcs);
        if arcs.len() > u32::MAX as usize {
            return Err(NoMemory);
        }
        let heads = heads(alloc, &arcs)?;
        let starts = starts(alloc, nodes, &heads)?;
        Ok(Bypasses { starts, arcs })
    }

    // The arcs of a vertex.
    pub(crate) fn row(&self, node: NodeNo) -> &[Bypass]
        requires starts { AreStarts self.now.starts.items (heads_of self.now.arcs.items) }
        requires exists { node.0 + 1 < length self.now.starts.items }
        ensures { (arc : Bypass) → Contains result.now arc ↔ (Contains self.now.arcs.items arc × (arc.node ≡ node)) }
    {
        row(&self.arcs, &self.starts, node.0)
    }
}
