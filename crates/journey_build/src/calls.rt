// Rides of a network.
ghost use Rattle.std.specs.Prelude.{◌≡◌, IfSome, IfNone};
ghost use Rattle.move_model.specs.declared.network.Call.{Call};
ghost use Rattle.move_model.specs.Network.{node_of};
ghost use Rattle.move_model.specs.Journey.{IsRide};

use move_model::{Call, Network, NodeNo, Ride, StopNo};

// The calls where a ride is boarded and left, or None where it is no ride.
pub(crate) fn calls_of(network: &Network, ride: Ride) -> Option<(Call, Call)>
    ensures ride { IfSome result (λ calls. IsRide network.now ride calls.0 calls.1) }
    ensures none { IfNone result ((on off : Call) → IsRide network.now ride on off → ⊥) }
{
    let trip = network.trips.get(ride.trip.0 as usize)?;
    let on = *trip.calls.get(ride.board as usize)?;
    let off = *trip.calls.get(ride.alight as usize)?;
    if ride.board < ride.alight && on.board && off.alight {
        Some((on, off))
    } else {
        None
    }
}

// The vertex of a stop.
pub(crate) fn node_at(network: &Network, stop: StopNo) -> NodeNo
    ensures { result ≡ node_of network.now stop }
{
    match network.stops.get(stop.0 as usize) {
        Some(found) => found.node,
        None => NodeNo(0),
    }
}
