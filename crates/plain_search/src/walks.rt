// Walking on from the ways of a row.
ghost use Rattle.std.specs.Prelude.{◌≡◌, ◌<◌, ◌≤◌, [], ◌∷◌, length, MatchBool, IfOk, OnOk};
ghost use Rattle.plain_search.specs.Row.{IsWhole, IsWalked, WalksOn, weight};

use crate::way::{Way, is_better, longer, way_to};
use move_model::{Arc, NoMemory};
use std::alloc::Global;

/// Walks along an arc, where that leads to its end earlier. Answers whether it did.
fn walk_arc(alloc: Global, row: &mut [Option<Way>], arc: Arc) -> Result<bool, NoMemory>
    requires { IsWhole row.old }
    ensures whole { OnOk result (IsWhole row.new) }
    ensures walks_on { OnOk result (WalksOn (arc ∷ []) row.old row.new) }
    ensures falls { IfOk result (λ fell. MatchBool fell
        (weight row.new < weight row.old)
        ((row.new ≡ row.old) × IsWalked (arc ∷ []) row.old)) }
{
    let Some(way) = way_to(row, arc.from) else {
        return Ok(false);
    };
    let second = way.second + u64::from(arc.seconds);
    if !is_better(row, arc.to, second) {
        return Ok(false);
    }
    let walk = longer(alloc, &way.walk, arc.to)?;
    let ride = way.ride;
    row[arc.to.0 as usize] = Some(Way { second, walk, ride });
    Ok(true)
}

/// Walks once along each arc. Answers whether some arrival got earlier.
fn walk_arcs(alloc: Global, row: &mut [Option<Way>], arcs: &[Arc]) -> Result<bool, NoMemory>
    requires { IsWhole row.old }
    ensures whole { OnOk result (IsWhole row.new) }
    ensures walks_on { OnOk result (WalksOn arcs.now row.old row.new) }
    ensures falls { IfOk result (λ fell. MatchBool fell
        (weight row.new < weight row.old)
        ((row.new ≡ row.old) × IsWalked arcs.now row.old)) }
{
    let mut fell = false;
    for arc in arcs {
        if walk_arc(alloc, row, *arc)? {
            fell = true;
        }
    }
    Ok(fell)
}

/// Walks on until no arrival gets earlier.
pub fn walk_on(alloc: Global, row: &mut [Option<Way>], arcs: &[Arc]) -> Result<(), NoMemory>
    requires { IsWhole row.old }
    ensures whole { OnOk result (IsWhole row.new) }
    ensures walks_on { OnOk result (WalksOn arcs.now row.old row.new) }
    ensures walked { OnOk result (IsWalked arcs.now row.new) }
{
    while walk_arcs(alloc, row, arcs)? {}
    Ok(())
}
