// Two small timetables, and what is walked to and from their stops.
ghost use Rattle.std.specs.Prelude.{◌≡◌, ◌<◌, ◌≤◌, ◌-◌, ◌^◌, length, All, IfOk, IfSome, OnOk};
ghost use Rattle.raptor_rounds.specs.Answers.{IsEntryWithin, HasSeconds};

use move_model::{
    Arcs, Call, Calls, List, Network, NoMemory, NodeNo, Shortcut, Shortcuts, Stop, StopNo, Stops,
    Trip, Trips, WalkRow,
};
use route_split::Timetable;
use std::alloc::Global;

pub const A: StopNo = StopNo(0);

pub const B: StopNo = StopNo(1);

pub const C: StopNo = StopNo(2);

pub const D: StopNo = StopNo(3);

fn call_at(stop: StopNo, second: u32) -> Call {
    Call {
        stop,
        arr: second,
        dep: second,
        board: true,
        alight: true,
    }
}

fn trip_of(alloc: Global, from: Call, to: Call) -> Result<Trip, NoMemory>
    ensures { IfOk result (λ trip. length trip.calls ≡ 2) }
{
    let mut calls = Calls::new(alloc);
    calls.push(from)?;
    calls.push(to)?;
    Ok(Trip {
        name: List::new(alloc),
        calls,
    })
}

/// From A at 8:00 to B at 8:10, and from C at 8:15 to D at 8:30.
pub fn two_trips(alloc: Global) -> Result<Trips, NoMemory>
    ensures few { IfOk result (λ trips. length trips ≤ 8) }
    ensures few_calls { IfOk result (λ trips. All (λ trip. length trip.calls ≡ 2) trips) }
{
    let first = trip_of(alloc, call_at(A, 28800), call_at(B, 29400))?;
    let second = trip_of(alloc, call_at(C, 29700), call_at(D, 30600))?;
    let mut trips = Trips::new(alloc);
    trips.push(first)?;
    trips.push(second)?;
    Ok(trips)
}

/// From A to B in ten minutes, at 8:00 and every ten minutes until 9:10.
pub fn eight_trips(alloc: Global) -> Result<Trips, NoMemory>
    ensures few { IfOk result (λ trips. length trips ≤ 8) }
    ensures few_calls { IfOk result (λ trips. All (λ trip. length trip.calls ≡ 2) trips) }
{
    let mut trips = Trips::new(alloc);
    for i in 0..8u32 {
        let second = 28800 + 600 * i;
        trips.push(trip_of(alloc, call_at(A, second), call_at(B, second + 600))?)?;
    }
    Ok(trips)
}

// The stops A, B, C and D.
fn four_stops(alloc: Global) -> Result<Stops, NoMemory> {
    let mut stops = Stops::new(alloc);
    for node in [1, 2, 3, 4] {
        stops.push(Stop {
            node: NodeNo(node),
            name: List::new(alloc),
        })?;
    }
    Ok(stops)
}

/// A network of trips between the four stops. Who walks there is told by rows.
pub fn network_of(alloc: Global, trips: Trips) -> Result<Network, NoMemory>
    ensures { IfOk result (λ n. n.trips ≡ trips) }
{
    Ok(Network {
        nodes: 4,
        arcs: Arcs::new(alloc),
        stops: four_stops(alloc)?,
        trips,
        buffer: 0,
    })
}

/// The timetable of a network's trips, or None where it breaks a rule.
pub fn table_of(alloc: Global, n: &Network) -> Result<Option<Timetable>, NoMemory>
    requires few { length n.now.trips ≤ 8 }
    requires few_calls { All (λ trip. length trip.calls ≡ 2) n.now.trips }
    ensures stops { IfOk result (λ made. IfSome made (λ table. table.stops ≡ 4)) }
    ensures at_stops { IfOk result (λ made. IfSome made (λ table. All (λ trip. All (λ call. call.stop.0 < table.stops) trip.calls) n.now.trips)) }
{
    if n.arcs.len() != 0 || n.stops.len() != 4 {
        return Ok(None);
    }
    if n.check().is_err() {
        return Ok(None);
    }
    let table = Timetable::new(alloc, &n.trips, 4)?;
    Ok(Some(table))
}

/// Four minutes between B and C, both ways.
pub fn two_walks(alloc: Global) -> Result<Shortcuts, NoMemory>
    ensures { IfOk result (λ list. All (IsEntryWithin 4) list) }
{
    let mut list = Shortcuts::new(alloc);
    list.push(Shortcut {
        from: B,
        to: C,
        seconds: 240,
    })?;
    list.push(Shortcut {
        from: C,
        to: B,
        seconds: 240,
    })?;
    Ok(list)
}

/// No seconds to or from a stop, some to or from another, and no walk to or from the rest.
pub fn row_of(
    alloc: Global,
    here: StopNo,
    there: StopNo,
    seconds: Option<u64>,
) -> Result<WalkRow, NoMemory>
    requires here { here.0 < 4 }
    requires there { there.0 < 4 }
    requires bound { HasSeconds seconds }
    ensures length { IfOk result (λ row. length row ≡ 4) }
    ensures bound { IfOk result (λ row. All HasSeconds row) }
{
    let mut row = WalkRow::new(alloc, 4)?;
    row.set(there, seconds);
    row.set(here, Some(0));
    Ok(row)
}
