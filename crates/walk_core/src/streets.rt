// The streets, before any contraction.
ghost use Rattle.std.specs.Prelude.{◌≡◌, ◌<◌, ◌≤◌, [], replicate, length, All, OnOk};
ghost use Rattle.move_model.specs.Streets.{Streets};
ghost use Rattle.walk_laws.specs.Sums.{longest, Keeps};
ghost use Rattle.walk_core.specs.Middles.{Ruled};
ghost use Rattle.walk_core.specs.Bridge.{view_of, IsBuilt, StreetDone, StreetsDone, IsUnranked};

use crate::rows::Rows;
use move_model::{Arc, NodeNo};
use std::alloc::AllocError;
use walk_laws::CoreArc;

// Lays a street. A loop serves no walk.
fn lay_street(out: &mut Rows, into: &mut Rows, rank: &[u32], arc: Arc) -> Result<(), AllocError>
    requires built { IsBuilt (view_of out.old into.old rank.now) }
    requires from_one { 1 ≤ arc.from.0 }
    requires to_one { 1 ≤ arc.to.0 }
    requires from { arc.from.0 < length rank.now }
    requires to { arc.to.0 < length rank.now }
    requires short { arc.seconds ≤ longest }
    ensures { OnOk result (StreetDone arc (view_of out.old into.old rank.now) (view_of out.new into.new rank.now)) }
{
    if arc.from.0 == arc.to.0 {
        return Ok(());
    }
    let seconds = arc.seconds as u64;
    out.put(
        arc.from.0 as usize,
        CoreArc {
            seconds,
            to: arc.to,
            middle: NodeNo(0),
        },
    )?;
    into.put(
        arc.to.0 as usize,
        CoreArc {
            seconds,
            to: arc.from,
            middle: NodeNo(0),
        },
    )?;
    Ok(())
}

/// Lays all streets: of those between the same two vertices the least.
pub fn lay_streets(
    out: &mut Rows,
    into: &mut Rows,
    rank: &[u32],
    arcs: &[Arc],
) -> Result<(), AllocError>
    requires out { out.old ≡ replicate (length rank.now) [] }
    requires into { into.old ≡ replicate (length rank.now) [] }
    requires unranked { IsUnranked rank.now }
    requires from_one { All (λ arc. 1 ≤ arc.from.0) arcs.now }
    requires to_one { All (λ arc. 1 ≤ arc.to.0) arcs.now }
    requires from { All (λ arc. arc.from.0 < length rank.now) arcs.now }
    requires to { All (λ arc. arc.to.0 < length rank.now) arcs.now }
    requires short { All (λ arc. arc.seconds ≤ longest) arcs.now }
    ensures built { OnOk result (IsBuilt (view_of out.new into.new rank.now)) }
    ensures keeps { OnOk result ((graph : Streets) → graph.arcs ≡ arcs.now → Keeps graph (view_of out.new into.new rank.now)) }
    ensures ruled { OnOk result ((graph : Streets) → graph.arcs ≡ arcs.now → Ruled graph (view_of out.new into.new rank.now)) }
{
    for arc in arcs {
        lay_street(out, into, rank, *arc)?;
    }
    Ok(())
}
