// Vertices by rank. Searches come to many of the vertices of great rank, so what they read stands near each other.
ghost use Rattle.std.specs.Prelude.{◌≡◌, ◌+◌, ◌-◌, ◌<◌, ◌≤◌, All, IfOk, length};
ghost use Rattle.walk_hierarchy.specs.Hierarchy.{AreRanks};
ghost use Rattle.walk_hierarchy.specs.Places.{IsAt, HasEnds, place_of, placed, AreNames};

use crate::arcs::UpDown;
use move_model::NodeNo;
use std::alloc::{AllocError, Global};

// The place of a vertex, one more than its rank.
#[inline]
pub(crate) fn place(ranks: &[u32], v: NodeNo) -> NodeNo
    requires ranks { AreRanks ranks.now }
    requires few { length ranks.now ≤ 2000000 }
    requires vertex { IsAt ranks.now v.0 }
    ensures { result ≡ record { 0 = place_of ranks.now v.0 } }
{
    NodeNo(ranks[v.0 as usize - 1] + 1)
}

// The arcs, with the places of their ends.
pub(crate) fn placed(
    alloc: Global,
    ranks: &[u32],
    arcs: &[UpDown],
) -> Result<Vec<UpDown>, AllocError>
    requires ranks { AreRanks ranks.now }
    requires few { length ranks.now ≤ 2000000 }
    requires ends { All (HasEnds ranks.now) arcs.now }
    ensures { IfOk result (λ all. all.items ≡ placed ranks.now arcs.now) }
{
    let mut all = Vec::with_capacity(alloc, arcs.len())?;
    for arc in arcs {
        all.push_reserved(UpDown {
            from: place(ranks, arc.from),
            to: place(ranks, arc.to),
            seconds: arc.seconds,
            middle: arc.middle,
        });
    }
    Ok(all)
}

// The vertices by place, from place 0, where there is none.
pub(crate) fn names(alloc: Global, ranks: &[u32]) -> Result<Vec<u32>, AllocError>
    requires ranks { AreRanks ranks.now }
    requires few { length ranks.now ≤ 2000000 }
    ensures { IfOk result (λ names. AreNames ranks.now names.items) }
{
    let mut names = vec![in alloc; 0u32; ranks.len() + 1]?;
    for k in 0..ranks.len() {
        names[ranks[k] as usize + 1] = k as u32 + 1;
    }
    Ok(names)
}
