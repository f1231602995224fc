// The rule on arcs without a middle.
ghost use Rattle.std.specs.Prelude.{◌≡◌, ◌+◌, ◌<◌, ◌↔◌, false, IsTrue, IfOk, All, length};
ghost use Rattle.network_rules.specs.Rules.{AreInOrder};
ghost use Rattle.network_shape.specs.Met.{IsLeastOf, AreMet, AllMet};

use crate::find::place_between;
use move_model::{Arc, NoMemory};
use std::alloc::Global;
use walk_hierarchy::UpDown;

// Marks the arc that has the seconds of the street arc at a place. False where the street arc has fewer.
fn mark(streets: &[Arc], i: usize, arcs: &[UpDown], met: &mut [bool]) -> bool
    requires within { i < length streets.now }
    requires in_order { AreInOrder arcs.now }
    requires before { AreMet streets.now arcs.now met.old i }
    ensures met { IsTrue result → AreMet streets.now arcs.now met.new (i + 1) }
    ensures shorter { result ≡ false → ¬ (All (IsLeastOf streets.now) arcs.now) }
{
    let street = streets[i];
    let Some(at) = place_between(arcs, street.from, street.to) else {
        return true;
    };
    let arc = arcs[at];
    if arc.middle.0 != 0 {
        return true;
    }
    if (street.seconds as u64) < arc.seconds {
        return false;
    }
    if street.seconds as u64 == arc.seconds {
        met[at] = true;
    }
    true
}

// Whether each arc without a middle has a mark.
fn all_met(arcs: &[UpDown], met: &[bool]) -> bool
    requires { length met.now ≡ length arcs.now }
    ensures { IsTrue result ↔ AllMet arcs.now met.now }
{
    for i in 0..arcs.len() {
        if arcs[i].middle.0 == 0 && !met[i] {
            return false;
        }
    }
    true
}

// Whether each arc without a middle has the seconds of the least street arc between its ends.
pub(crate) fn are_least(alloc: Global, streets: &[Arc], arcs: &[UpDown]) -> Result<bool, NoMemory>
    requires { AreInOrder arcs.now }
    ensures { IfOk result (λ least. IsTrue least ↔ All (IsLeastOf streets.now) arcs.now) }
{
    let mut marks = vec![in alloc; false; arcs.len()]?;
    let met = marks.as_mut_slice();
    for i in 0..streets.len() {
        if !mark(streets, i, arcs, met) {
            return Ok(false);
        }
    }
    Ok(all_met(arcs, met))
}
