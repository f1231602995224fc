// The rule on middles.
ghost use Rattle.std.specs.Prelude.{◌↔◌, [], IsTrue, IfOk, All};
ghost use Rattle.move_model.specs.Network.{streets};
ghost use Rattle.walk_hierarchy.specs.Hierarchy.{IsNode, IsAdded, IsMade};
ghost use Rattle.network_rules.specs.Rules.{AreInOrder, RiseUp, FallDown, AreMade};
ghost use Rattle.network_shape.specs.Made.{IsBelowEnds, AddsUp};

use crate::find::place_between;
use crate::streets::are_least;
use move_model::{Network, NoMemory};
use std::alloc::Global;
use walk_hierarchy::UpDown;

// Whether the middle is a vertex of lesser rank than both ends.
fn is_below_ends(ranks: &[u32], arc: UpDown) -> bool
    requires from { IsNode (record { ranks = ranks.now; up = []; down = [] }) arc.from }
    requires to { IsNode (record { ranks = ranks.now; up = []; down = [] }) arc.to }
    ensures { IsTrue result ↔ IsBelowEnds ranks.now arc }
{
    let middle = arc.middle.0 as usize;
    if middle < 1 || middle > ranks.len() {
        return false;
    }
    let rank = ranks[middle - 1];
    rank < ranks[arc.from.0 as usize - 1] && rank < ranks[arc.to.0 as usize - 1]
}

// Whether an arc down to the middle and an arc up from it have the seconds together.
fn adds_up(up: &[UpDown], down: &[UpDown], arc: UpDown) -> bool
    requires up { AreInOrder up.now }
    requires down { AreInOrder down.now }
    ensures { IsTrue result ↔ AddsUp up.now down.now arc }
{
    let Some(first) = place_between(down, arc.from, arc.middle) else {
        return false;
    };
    let Some(second) = place_between(up, arc.middle, arc.to) else {
        return false;
    };
    let l = down[first].seconds;
    let k = up[second].seconds;
    if l > arc.seconds {
        return false;
    }
    k == arc.seconds - l
}

// Whether the arc has no middle, or is made of two others at it.
fn is_made(ranks: &[u32], up: &[UpDown], down: &[UpDown], arc: UpDown) -> bool
    requires up { AreInOrder up.now }
    requires down { AreInOrder down.now }
    requires from { IsNode (record { ranks = ranks.now; up = []; down = [] }) arc.from }
    requires to { IsNode (record { ranks = ranks.now; up = []; down = [] }) arc.to }
    ensures { IsTrue result ↔ IsMade (record { ranks = ranks.now; up = up.now; down = down.now }) arc }
{
    if arc.middle.0 == 0 {
        return true;
    }
    if !is_below_ends(ranks, arc) {
        return false;
    }
    adds_up(up, down, arc)
}

// Whether each of some arcs has no middle, or is made of two others at it.
fn all_made(ranks: &[u32], up: &[UpDown], down: &[UpDown], arcs: &[UpDown]) -> bool
    requires up { AreInOrder up.now }
    requires down { AreInOrder down.now }
    requires from { All (λ arc. IsNode (record { ranks = ranks.now; up = []; down = [] }) arc.from) arcs.now }
    requires to { All (λ arc. IsNode (record { ranks = ranks.now; up = []; down = [] }) arc.to) arcs.now }
    ensures { IsTrue result ↔ All (IsMade (record { ranks = ranks.now; up = up.now; down = down.now })) arcs.now }
{
    for i in 0..arcs.len() {
        if !is_made(ranks, up, down, arcs[i]) {
            return false;
        }
    }
    true
}

/// Whether each arc of a hierarchy over the streets of the network is a least street arc, where it has no middle, or is made
/// of an arc down to its middle and an arc up from it.
pub fn are_made(
    alloc: Global,
    network: &Network,
    ranks: &[u32],
    up: &[UpDown],
    down: &[UpDown],
) -> Result<bool, NoMemory>
    requires up { RiseUp (record { ranks = ranks.now; up = up.now; down = [] }) }
    requires down { FallDown (record { ranks = ranks.now; up = []; down = down.now }) }
    ensures { IfOk result (λ made. IsTrue made ↔ AreMade (streets network.now) (record { ranks = ranks.now; up = up.now; down = down.now })) }
{
    if !all_made(ranks, up, down, up) {
        return Ok(false);
    }
    if !all_made(ranks, up, down, down) {
        return Ok(false);
    }
    let least_up = are_least(alloc, network.arcs.as_slice(), up)?;
    if !least_up {
        return Ok(false);
    }
    are_least(alloc, network.arcs.as_slice(), down)
}
