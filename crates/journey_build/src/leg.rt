// A walk to where a ride is boarded, and the ride.
ghost use Rattle.std.specs.Prelude.{◌≡◌, ◌↔◌, ◌+◌, ◌≤◌, IsTrue, IfOk, IfSome, IfNone, length};
ghost use Rattle.move_model.specs.Network.{streets, IsNetwork};
ghost use Rattle.walk_hierarchy.specs.Hierarchy.{IsNode, IsOver};
ghost use Rattle.journey_build.specs.Built.{IsMissed};
ghost use Rattle.journey_build.specs.Leg.{IsLeg};

use crate::calls::{calls_of, node_at};
use move_model::{Network, NoMemory, NodeNo, Ride, Walk};
use std::alloc::Global;
use std::sync::ledger::Ledger;
use steps::Steps;
use walk_hierarchy::{Hierarchy, Work, timed_path};

// The walk before a ride, and where and when the ride is left.
#[derive(Debug, Drop)]
pub(crate) struct Leg {
    pub(crate) walk: Walk,
    pub(crate) place: NodeNo,
    pub(crate) second: u32,
}

// Whether a walk and the buffer leave time for a departure.
fn is_in_time(second: u32, seconds: u64, buffer: u32, dep: u32) -> bool
    ensures { IsTrue result ↔ (second + seconds + buffer ≤ dep) }
{
    let boards = seconds
        .saturating_add(u64::from(second))
        .saturating_add(u64::from(buffer));
    boards <= u64::from(dep)
}

// The leg from a place at a second, or None where the ride is missed.
pub(crate) fn next_leg<L: Ledger>(
    alloc: Global,
    network: &Network,
    hierarchy: &Hierarchy,
    place: NodeNo,
    second: u32,
    ride: Ride,
    work: &mut Work,
    searches: &mut Steps<L>,
) -> Result<Option<Leg>, NoMemory>
    requires network { IsNetwork network.now }
    requires over { IsOver (streets network.now) hierarchy.now }
    requires place { IsNode hierarchy.now place }
    requires fits { work.old.nodes ≡ length hierarchy.now.ranks }
    ensures leg { IfOk result (λ found. IfSome found (IsLeg network.now hierarchy.now place second ride)) }
    ensures missed { IfOk result (λ found. IfNone found (IsMissed network.now hierarchy.now place second ride)) }
    ensures nodes { work.new.nodes ≡ work.old.nodes }
    ensures ticks { searches.new ≤ searches.old + 1 }
{
    let Some((on, off)) = calls_of(network, ride) else {
        return Ok(None);
    };
    let found = timed_path(
        alloc,
        hierarchy,
        place,
        node_at(network, on.stop),
        work,
        searches,
    )?;
    let Some(timed) = found else {
        return Ok(None);
    };
    if !is_in_time(second, timed.seconds, network.buffer, on.dep) {
        return Ok(None);
    }
    Ok(Some(Leg {
        walk: timed.walk,
        place: node_at(network, off.stop),
        second: off.arr,
    }))
}
