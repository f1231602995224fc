// The rules of arcs up and down.
ghost use Rattle.std.specs.Prelude.{◌≡◌, ◌↔◌, ◌-◌, ◌≤◌, ◌⊎◌, [], IsTrue, All, length};
ghost use Rattle.walk_hierarchy.specs.Hierarchy.{IsNode, IsArcUp, IsArcDown, IsBefore};
ghost use Rattle.network_rules.specs.Rules.{AreInOrder, RiseUp, FallDown};

use move_model::NodeNo;
use walk_hierarchy::UpDown;

// No arc is longer.
const LONGEST: u64 = 2_000_000_000_000;

// Whether there is such a vertex.
pub(crate) fn is_node(ranks: &[u32], v: NodeNo) -> bool
    ensures { IsTrue result ↔ IsNode (record { ranks = ranks.now; up = []; down = [] }) v }
{
    1 <= v.0 && v.0 as usize <= ranks.len()
}

// Whether an arc leads up.
fn is_up(ranks: &[u32], arc: UpDown) -> bool
    ensures { IsTrue result ↔ IsArcUp (record { ranks = ranks.now; up = []; down = [] }) arc }
{
    is_node(ranks, arc.from)
        && is_node(ranks, arc.to)
        && ranks[arc.from.0 as usize - 1] < ranks[arc.to.0 as usize - 1]
        && arc.seconds <= LONGEST
}

// Whether an arc leads down.
fn is_down(ranks: &[u32], arc: UpDown) -> bool
    ensures { IsTrue result ↔ IsArcDown (record { ranks = ranks.now; up = []; down = [] }) arc }
{
    is_node(ranks, arc.from)
        && is_node(ranks, arc.to)
        && ranks[arc.to.0 as usize - 1] < ranks[arc.from.0 as usize - 1]
        && arc.seconds <= LONGEST
}

// Whether one arc stands before another one.
pub(crate) fn is_before(arc: UpDown, other: UpDown) -> bool
    ensures { IsTrue result ↔ IsBefore arc other }
{
    arc.from.0 < other.from.0 || (arc.from.0 == other.from.0 && arc.to.0 < other.to.0)
}

// Whether the arcs stand in their order.
fn are_in_order(arcs: &[UpDown]) -> bool
    ensures { IsTrue result ↔ AreInOrder arcs.now }
{
    for i in 1..arcs.len() {
        if !is_before(arcs[i - 1], arcs[i]) {
            return false;
        }
    }
    true
}

// Whether all arcs lead up.
fn all_up(ranks: &[u32], arcs: &[UpDown]) -> bool
    ensures { IsTrue result ↔ All (IsArcUp (record { ranks = ranks.now; up = []; down = [] })) arcs.now }
{
    for i in 0..arcs.len() {
        if !is_up(ranks, arcs[i]) {
            return false;
        }
    }
    true
}

// Whether all arcs lead down.
fn all_down(ranks: &[u32], arcs: &[UpDown]) -> bool
    ensures { IsTrue result ↔ All (IsArcDown (record { ranks = ranks.now; up = []; down = [] })) arcs.now }
{
    for i in 0..arcs.len() {
        if !is_down(ranks, arcs[i]) {
            return false;
        }
    }
    true
}

/// Whether arcs lead up by these ranks, in their order.
pub fn rise_up(ranks: &[u32], up: &[UpDown]) -> bool
    ensures { IsTrue result ↔ RiseUp (record { ranks = ranks.now; up = up.now; down = [] }) }
{
    all_up(ranks, up) && are_in_order(up)
}

/// Whether arcs lead down by these ranks, in their order.
pub fn fall_down(ranks: &[u32], down: &[UpDown]) -> bool
    ensures { IsTrue result ↔ FallDown (record { ranks = ranks.now; up = []; down = down.now }) }
{
    all_down(ranks, down) && are_in_order(down)
}
