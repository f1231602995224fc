// Riding on from the ways of a row.
ghost use Rattle.std.specs.Prelude.{◌≡◌, ◌<◌, MatchBool, OnOk};
ghost use Rattle.move_model.specs.declared.journey.Ride.{Ride as RideValue};
ghost use Rattle.move_model.specs.Network.{node_of as node_of_lem};
ghost use Rattle.plain_search.specs.Row.{IsWhole};
ghost use Rattle.plain_search.specs.Ridden.{Leaves, IsCaught, RidesOn, IsRidden};

use crate::way::{Way, is_better, way_to};
use move_model::{Call, List, Network, NoMemory, NodeNo, Ride, StopNo, TripNo};
use std::alloc::Global;

/// The vertex of a stop.
pub fn node_of(network: &Network, stop: StopNo) -> NodeNo
    ensures { result ≡ node_of_lem network.now stop }
{
    match network.stops.get(stop.0 as usize) {
        Some(stop) => stop.node,
        None => NodeNo(0),
    }
}

/// Whether a passenger with these ways is in time for a call.
fn catches(network: &Network, before: &[Option<Way>], call: Call) -> bool
    ensures { MatchBool result
        (IsCaught network.now before.now call)
        (IsCaught network.now before.now call → ⊥) }
{
    match way_to(before, node_of(network, call.stop)) {
        Some(way) => { way.second.saturating_add(u64::from(network.buffer)) <= u64::from(call.dep) }
        None => false,
    }
}

/// Leaves a ride at a vertex, where that is earlier.
fn leave(
    alloc: Global,
    row: &mut [Option<Way>],
    node: NodeNo,
    second: u32,
    ride: Ride,
) -> Result<(), NoMemory>
    requires { IsWhole row.old }
    ensures whole { OnOk result (IsWhole row.new) }
    ensures leaves { OnOk result (Leaves row.old row.new node second ride) }
{
    let second = u64::from(second);
    if is_better(row, node, second) {
        let walk = List::from_slice(alloc, &[node])?;
        row[node.0 as usize] = Some(Way {
            second,
            walk,
            ride: Some(ride),
        });
    }
    Ok(())
}

/// Boards a trip at the first call that the ways allow, and leaves it at each later one.
fn ride_trip(
    alloc: Global,
    network: &Network,
    before: &[Option<Way>],
    row: &mut [Option<Way>],
    trip: TripNo,
) -> Result<(), NoMemory>
    requires { IsWhole row.old }
    ensures whole { OnOk result (IsWhole row.new) }
    ensures rides_on { OnOk result (RidesOn network.now before.now row.old row.new) }
    ensures ridden { OnOk result ((ride : RideValue) → ride.trip ≡ trip → ride.alight < 4294967296
        → IsRidden network.now before.now row.new ride) }
{
    let Some(found) = network.trips.get(trip.0 as usize) else {
        return Ok(());
    };
    let mut boarded: Option<u32> = None;
    for (index, call) in found.calls.as_slice().iter().enumerate() {
        let Ok(place) = u32::try_from(index) else {
            break;
        };
        match boarded {
            Some(board) => {
                if call.alight {
                    let ride = Ride {
                        trip,
                        board,
                        alight: place,
                    };
                    leave(alloc, row, node_of(network, call.stop), call.arr, ride)?;
                }
            }
            None => {
                if call.board && catches(network, before, *call) {
                    boarded = Some(place);
                }
            }
        }
    }
    Ok(())
}

/// Boards each trip that the ways allow, and leaves it where that is earlier.
pub fn ride_on(
    alloc: Global,
    network: &Network,
    before: &[Option<Way>],
    row: &mut [Option<Way>],
) -> Result<(), NoMemory>
    requires { IsWhole row.old }
    ensures whole { OnOk result (IsWhole row.new) }
    ensures rides_on { OnOk result (RidesOn network.now before.now row.old row.new) }
    ensures ridden { OnOk result ((ride : RideValue) → ride.trip.0 < 4294967296 → ride.alight < 4294967296
        → IsRidden network.now before.now row.new ride) }
{
    for index in 0..network.trips.len() {
        let Ok(number) = u32::try_from(index) else {
            break;
        };
        ride_trip(alloc, network, before, row, TripNo(number))?;
    }
    Ok(())
}
