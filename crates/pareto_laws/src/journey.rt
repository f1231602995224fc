// Whether a value is a journey.
ghost use Rattle.std.specs.Prelude.{◌≡◌, ◌↔◌, ◌+◌, ◌<◌, ◌≤◌, ◌^◌, ℕ, IsTrue, IfSome, IfNone};
ghost use Rattle.move_model.specs.declared.network.NodeNo.{NodeNo};
ghost use Rattle.move_model.specs.declared.network.Call.{Call};
ghost use Rattle.move_model.specs.Network.{node_of};
ghost use Rattle.move_model.specs.Journey.{IsRide, IsSomeJourney};
ghost use Rattle.pareto_laws.specs.Leg.{IsLeg};

use crate::walk::{leads_on, walk_seconds};
use move_model::{Call, Journey, Network, NodeNo, Ride, StopNo};

/// Whether the value is a journey of the network: its walks and rides lead on from each other, and
/// each ride is boarded in time and with the buffer. It takes no memory.
pub fn is_journey(network: &Network, journey: &Journey) -> bool
    ensures { IsTrue result ↔ IsSomeJourney network.now journey.now }
{
    let walks = journey.walks.as_slice();
    let rides = journey.rides.as_slice();
    if walks.len() != rides.len() + 1 {
        return false;
    }
    let Some(from) = walks[0].get(0) else {
        return false;
    };
    let mut place = *from;
    let mut second = journey.depart;
    for i in 0..rides.len() {
        let Some((node, left)) = leg_end(network, place, second, walks[i].as_slice(), rides[i])
        else {
            return false;
        };
        place = node;
        second = left;
    }
    leads_on(network, place, walks[rides.len()].as_slice())
}

// Where and at which second a ride is left, after a walk to where it is boarded, or None where the
// two are no such walk and ride.
fn leg_end(
    network: &Network,
    from: NodeNo,
    second: u32,
    walk: &[NodeNo],
    ride: Ride,
) -> Option<(NodeNo, u32)>
    ensures end { IfSome result (λ end. IsLeg network.now from second walk.now ride end.0 end.1) }
    ensures none { IfNone result ((q : NodeNo) (a : ℕ) → IsLeg network.now from second walk.now ride q a → ⊥) }
{
    let (on, off) = calls_of(network, ride)?;
    let seconds = walk_seconds(network, from, walk, node_at(network, on.stop))?;
    if is_in_time(second, seconds, network.buffer, on.dep) {
        Some((node_at(network, off.stop), off.arr))
    } else {
        None
    }
}

// The calls where a ride is boarded and left, or None where it is no ride.
fn calls_of(network: &Network, ride: Ride) -> Option<(Call, Call)>
    ensures ride { IfSome result (λ calls. IsRide network.now ride calls.0 calls.1) }
    ensures none { IfNone result ((on off : Call) → IsRide network.now ride on off → ⊥) }
{
    let trip = network.trips.get(ride.trip.0 as usize)?;
    let on = *trip.calls.get(ride.board as usize)?;
    let off = *trip.calls.get(ride.alight as usize)?;
    if ride.board < ride.alight && on.board && off.alight {
        Some((on, off))
    } else {
        None
    }
}

// The vertex of a stop.
fn node_at(network: &Network, stop: StopNo) -> NodeNo
    ensures { result ≡ node_of network.now stop }
{
    match network.stops.get(stop.0 as usize) {
        Some(found) => found.node,
        None => NodeNo(0),
    }
}

// Whether a walk and the buffer leave time for a departure.
fn is_in_time(second: u32, seconds: u128, buffer: u32, dep: u32) -> bool
    requires { seconds < 2 ^ 100 }
    ensures { IsTrue result ↔ (second + seconds + buffer ≤ dep) }
{
    u128::from(second) + seconds + u128::from(buffer) <= u128::from(dep)
}
