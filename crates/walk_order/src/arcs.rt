// The arcs of a hierarchy, from the lists of its vertices.
ghost use Rattle.std.specs.Prelude.{◌≡◌, ◌+◌, ◌*◌, ◌++◌, length, map, IfOk, OnOk};
ghost use Rattle.std.specs.List.{AllAdjacentBelow};
ghost use Rattle.walk_core.specs.Core.{IsCore};
ghost use Rattle.walk_hierarchy.specs.Hierarchy.{IsBefore};
ghost use Rattle.walk_order.specs.Lists.{row_at, with_ends, ends_of, AreArcsOf};

use move_model::NodeNo;
use std::alloc::{AllocError, Global};
use walk_core::{Core, CoreArc};
use walk_hierarchy::UpDown;

// The arcs that are wanted.
#[derive(Clone, Copy, Debug)]
pub(crate) enum Side {
    Up,
    Down,
}

// The arcs up out of a vertex, or the arcs down into it.
fn row(core: &Core, side: Side, node: NodeNo) -> &[CoreArc]
    ensures { result.now ≡ row_at side core.now node.0 }
{
    match side {
        Side::Up => core.up(node),
        Side::Down => core.down(node),
    }
}

// An arc in the list of a vertex, with both ends.
fn arc_of(side: Side, node: NodeNo, arc: &CoreArc) -> UpDown
    ensures { result ≡ with_ends side node arc.now }
{
    let (from, to) = match side {
        Side::Up => (node, arc.to),
        Side::Down => (arc.to, node),
    };
    UpDown {
        from,
        to,
        seconds: arc.seconds,
        middle: arc.middle,
    }
}

// Puts the arcs of a vertex last.
fn push_row(
    arcs: &mut Vec<UpDown>,
    side: Side,
    node: NodeNo,
    row: &[CoreArc],
) -> Result<(), AllocError>
    ensures { OnOk result (arcs.new.items ≡ arcs.old.items ++ map (with_ends side node) row.now) }
{
    for arc in row {
        arcs.push(arc_of(side, node, arc))?;
    }
    Ok(())
}

// The arcs of all vertices, one vertex after the other.
fn gathered(alloc: Global, core: &Core, side: Side) -> Result<Vec<UpDown>, AllocError>
    ensures arcs { IfOk result (λ arcs. AreArcsOf side core.now core.now.nodes arcs.items) }
    ensures rules { IsCore core.now }
{
    let mut arcs = Vec::new(alloc);
    for place in 0..core.nodes() {
        let node = NodeNo(place + 1);
        push_row(&mut arcs, side, node, row(core, side, node))?;
    }
    Ok(arcs)
}

// Two numbers as one, of which the first counts more.
fn packed(high: u32, low: u32) -> u64
    ensures { result ≡ high * 4294967296 + low }
{
    u64::from(high) * 4_294_967_296 + u64::from(low)
}

// What arcs are ordered by: the vertex where an arc begins, and then that at its end.
fn ends(arc: &UpDown) -> u64
    ensures { result ≡ ends_of arc.now }
{
    packed(arc.from.0, arc.to.0)
}

// The arcs of all vertices by the vertex where they begin, and then by that at their end.
pub(crate) fn in_order(alloc: Global, core: &Core, side: Side) -> Result<Vec<UpDown>, AllocError>
    ensures arcs { IfOk result (λ arcs. AreArcsOf side core.now core.now.nodes arcs.items) }
    ensures order { IfOk result (λ arcs. AllAdjacentBelow IsBefore arcs.items (length arcs.items)) }
{
    let mut arcs = gathered(alloc, core, side)?;
    arcs.sort_unstable_by_key(ends);
    Ok(arcs)
}
