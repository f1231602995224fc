// All rides.
ghost use Rattle.std.specs.Prelude.{◌≡◌, ◌⊎◌, ◌↔◌, ◌<◌, ◌≤◌, Contains, IfOk, OnOk, length};
ghost use Rattle.move_model.specs.Network.{IsNumbered};
ghost use Rattle.plain_shortcuts.specs.declared.rides.RideCalls.{RideCalls as RideCallsValue};
ghost use Rattle.plain_shortcuts.specs.Rides.{IsTripRide, AreRides};

use move_model::{Call, Network, NoMemory, Ride, TripNo};
use std::alloc::Global;

/// A ride with the calls where it is boarded and left.
#[derive(Clone, Copy, Debug)]
pub struct RideCalls {
    pub ride: Ride,
    pub on: Call,
    pub off: Call,
}

// Puts the rides of a trip that are boarded at one of its calls last.
fn note_boarded(
    trip: TripNo,
    calls: &[Call],
    board: usize,
    rides: &mut Vec<RideCalls>,
) -> Result<(), NoMemory>
    requires few { length calls.now ≤ 4294967296 }
    requires exists { board < length calls.now }
    ensures { OnOk result ((r : RideCallsValue) → Contains rides.new.items r
        ↔ (Contains rides.old.items r ⊎ (IsTripRide trip calls.now r × (r.ride.board ≡ board)))) }
{
    let on = calls[board];
    if !on.board {
        return Ok(());
    }
    for alight in board + 1..calls.len() {
        let off = calls[alight];
        if off.alight {
            let ride = Ride {
                trip,
                board: board as u32,
                alight: alight as u32,
            };
            rides.push(RideCalls { ride, on, off })?;
        }
    }
    Ok(())
}

// Puts the rides of a trip last.
fn note_trip(trip: TripNo, calls: &[Call], rides: &mut Vec<RideCalls>) -> Result<(), NoMemory>
    requires { length calls.now ≤ 4294967296 }
    ensures { OnOk result ((r : RideCallsValue) → Contains rides.new.items r
        ↔ (Contains rides.old.items r ⊎ IsTripRide trip calls.now r)) }
{
    for board in 0..calls.len() {
        note_boarded(trip, calls, board, rides)?;
    }
    Ok(())
}

/// All rides of a network.
pub(crate) fn rides_of(alloc: Global, network: &Network) -> Result<Vec<RideCalls>, NoMemory>
    requires { IsNumbered network.now }
    ensures { IfOk result (λ rides. AreRides network.now rides.items) }
{
    let mut rides = Vec::new(alloc);
    let trips = network.trips.as_slice();
    for t in 0..trips.len() {
        note_trip(TripNo(t as u32), trips[t].calls.as_slice(), &mut rides)?;
    }
    Ok(rides)
}
