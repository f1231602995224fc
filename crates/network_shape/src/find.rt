// Arcs by their ends, in a list that stands in its order.
ghost use Rattle.std.specs.Prelude.{◌-◌, ◌<◌, ◌↔◌, IsTrue, IfSome, IfNone, length};
ghost use Rattle.network_rules.specs.Rules.{AreInOrder};
ghost use Rattle.network_shape.specs.Search.{HasEnds, IsEarlier, IsBetween, StandsAt, HasNone};

use move_model::NodeNo;
use walk_hierarchy::UpDown;

// Whether an arc leads from the one vertex to the other.
fn has_ends(arc: UpDown, from: NodeNo, to: NodeNo) -> bool
    ensures { IsTrue result ↔ HasEnds arc from to }
{
    arc.from.0 == from.0 && arc.to.0 == to.0
}

// Whether an arc stands before those from the one vertex to the other.
fn is_earlier(arc: UpDown, from: NodeNo, to: NodeNo) -> bool
    ensures { IsTrue result ↔ IsEarlier arc from to }
{
    arc.from.0 < from.0 || (arc.from.0 == from.0 && arc.to.0 < to.0)
}

// The half of the places at which an arc between the vertices can stand.
fn halved(arcs: &[UpDown], from: NodeNo, to: NodeNo, low: usize, high: usize) -> (usize, usize)
    requires in_order { AreInOrder arcs.now }
    requires more { low < high }
    requires between { IsBetween arcs.now from to low high }
    ensures between { IsBetween arcs.now from to result.0 result.1 }
    ensures fewer { result.1 - result.0 < high - low }
{
    let half = low + (high - low) / 2;
    if is_earlier(arcs[half], from, to) {
        (half + 1, high)
    } else {
        (low, half)
    }
}

// How many arcs stand before those between the vertices.
fn place(arcs: &[UpDown], from: NodeNo, to: NodeNo) -> usize
    requires { AreInOrder arcs.now }
    ensures { IsBetween arcs.now from to result result }
{
    let mut low = 0;
    let mut high = arcs.len();
    'halves: while low < high {
        (low, high) = halved(arcs, from, to, low, high);
    }
    low
}

// The place of the arc from the one vertex to the other; None where there is none.
pub(crate) fn place_between(arcs: &[UpDown], from: NodeNo, to: NodeNo) -> Option<usize>
    requires { AreInOrder arcs.now }
    ensures found { IfSome result (StandsAt arcs.now from to) }
    ensures none { IfNone result (HasNone arcs.now from to) }
{
    let at = place(arcs, from, to);
    if at >= arcs.len() {
        return None;
    }
    if !has_ends(arcs[at], from, to) {
        return None;
    }
    Some(at)
}
