// Listed journeys of given rides.
ghost use Rattle.std.specs.Prelude.{◌≡◌, ◌<◌, length};

use crate::walks::{Walks, seconds_at};
use move_model::{Call, Network, Ride, Shortcut, StopNo, TripNo};

fn call_of(n: &Network, trip: TripNo, place: u32) -> Option<Call> {
    match n.trips.get(trip.0 as usize) {
        Some(trip) => trip.calls.get(place as usize).copied(),
        None => None,
    }
}

// The calls where a ride is boarded and left, if it is a ride.
fn ends_of(n: &Network, ride: Ride) -> Option<(Call, Call)> {
    let on = call_of(n, ride.trip, ride.board)?;
    let off = call_of(n, ride.trip, ride.alight)?;
    if ride.board < ride.alight && on.board && off.alight {
        Some((on, off))
    } else {
        None
    }
}

fn lesser(one: Option<u64>, other: u64) -> Option<u64> {
    match one {
        Some(one) => Some(one.min(other)),
        None => Some(other),
    }
}

// The least seconds of a transfer: none to go where one stays, else by one entry of the list.
fn transfer(list: &[Shortcut], from: StopNo, to: StopNo) -> Option<u64> {
    let mut least = if from == to { Some(0) } else { None };
    for entry in list {
        if entry.from == from && entry.to == to {
            least = lesser(least, entry.seconds);
        }
    }
    least
}

/// The arrival of the listed journey with these rides, or None where they make none.
pub fn listed_arrival(
    n: &Network,
    walks: &Walks,
    stops: u32,
    depart: u32,
    rides: &[Ride],
) -> Option<u64>
    requires first { length walks.now.first ≡ stops }
    requires last { length walks.now.last ≡ stops }
{
    let mut at: Option<Call> = None;
    for ride in rides {
        let (on, off) = ends_of(n, *ride)?;
        let ready = match at {
            Some(left) => {
                let walk = transfer(walks.list.as_slice(), left.stop, on.stop)?;
                u64::from(left.arr).saturating_add(walk)
            }
            None => u64::from(depart).saturating_add(seconds_at(&walks.first, stops, on.stop)?),
        };
        if ready.saturating_add(u64::from(n.buffer)) > u64::from(on.dep) {
            return None;
        }
        at = Some(off);
    }
    let left = at?;
    let walk = seconds_at(&walks.last, stops, left.stop)?;
    Some(u64::from(left.arr).saturating_add(walk))
}
