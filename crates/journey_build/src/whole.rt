// Journeys with given rides.
ghost use Rattle.std.specs.Prelude.{◌≡◌, ◌↔◌, ◌+◌, ◌≤◌, IfOk, IfSome, IsNone, All, length};
ghost use Rattle.move_model.specs.Network.{streets, IsNetwork};
ghost use Rattle.move_model.specs.Found.{IsLeastWalk};
ghost use Rattle.walk_hierarchy.specs.Hierarchy.{IsNode, IsOver, GivesDistances};
ghost use Rattle.journey_build.specs.Built.{IsBuilt, IsBroken, HasRides};

use crate::leg::next_leg;
use move_model::{Journey, Network, NoMemory, NodeNo, RideList, Walks};
use std::alloc::Global;
use std::sync::ledger::Ledger;
use steps::Steps;
use walk_hierarchy::{Hierarchy, Work, path};

/// The journey with these rides that leaves a vertex at a second. Each of its walks has the least seconds of the hierarchy
/// between its ends, and comes to no vertex twice at one second. None comes where a ride is none of the network, where the
/// hierarchy leads between no two places that a walk must join, and where a ride leaves before the walk there and the
/// buffer end. A search is made for each walk, and none behind the one that fails.
pub fn build<L: Ledger>(
    alloc: Global,
    network: &Network,
    hierarchy: &Hierarchy,
    from: NodeNo,
    to: NodeNo,
    depart: u32,
    rides: &RideList,
    work: &mut Work,
    searches: &mut Steps<L>,
) -> Result<Option<Journey>, NoMemory>
    requires network { IsNetwork network.now }
    requires over { IsOver (streets network.now) hierarchy.now }
    requires from { IsNode hierarchy.now from }
    requires to { IsNode hierarchy.now to }
    requires fits { work.old.nodes ≡ length hierarchy.now.ranks }
    ensures built { IfOk result (λ made. IfSome made (IsBuilt network.now hierarchy.now from depart rides.now to)) }
    ensures none { IfOk result (λ made. IsNone made ↔ IsBroken network.now hierarchy.now from depart rides.now to) }

    // For a hierarchy that keeps the distances of the streets.
    ensures least_walks { IfOk result (λ made. IfSome made (λ journey. GivesDistances (streets network.now) hierarchy.now
        → All (IsLeastWalk (streets network.now)) journey.walks)) }
    ensures no_journey { IfOk result (λ made. GivesDistances (streets network.now) hierarchy.now
        → IsNone made ↔ (HasRides network.now from depart rides.now to → ⊥)) }

    ensures nodes { work.new.nodes ≡ work.old.nodes }
    ensures ticks { searches.new ≤ searches.old + length rides.now + 1 }
{
    let mut walks = Walks::new(alloc);
    let mut place = from;
    let mut second = depart;
    for ride in rides.as_slice() {
        let found = next_leg(
            alloc, network, hierarchy, place, second, *ride, work, searches,
        )?;
        let Some(leg) = found else {
            return Ok(None);
        };
        walks.push(leg.walk)?;
        place = leg.place;
        second = leg.second;
    }
    let Some(walk) = path(alloc, hierarchy, place, to, work, searches)? else {
        return Ok(None);
    };
    walks.push(walk)?;
    let rides = RideList::from_slice(alloc, rides.as_slice())?;
    Ok(Some(Journey {
        depart,
        walks,
        rides,
    }))
}
