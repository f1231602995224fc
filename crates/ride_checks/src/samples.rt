// Small networks of two or three trips of two calls each, and their timetables.
ghost use Rattle.std.specs.Prelude.{◌≡◌, ◌-◌, ◌<◌, ◌^◌, length, All, IfOk, IfSome, IsTrue};

use move_model::{
    Arc, Arcs, Call, Calls, List, Network, NoMemory, NodeNo, Stop, StopNo, Stops, Trip, Trips,
};
use route_split::Timetable;
use std::alloc::Global;

/// A trip of two calls: a stop and the second there, and another stop and the second there.
pub type TripRow = (u32, u32, u32, u32);

pub const T1: TripRow = (0, 28800, 1, 29400);

pub const T2: TripRow = (2, 29700, 3, 30600);

pub const T3: TripRow = (0, 28860, 1, 29340);

pub fn call_at(stop: u32, second: u32) -> Call {
    Call {
        stop: StopNo(stop),
        arr: second,
        dep: second,
        board: true,
        alight: true,
    }
}

pub fn trip_of(alloc: Global, first: Call, second: Call) -> Result<Trip, NoMemory> {
    Ok(Trip {
        name: List::new(alloc),
        calls: Calls::from_slice(alloc, &[first, second])?,
    })
}

pub fn trips_of(alloc: Global, rows: &[TripRow]) -> Result<Trips, NoMemory> {
    let mut trips = Trips::new(alloc);
    for (from, leaves, to, comes) in rows {
        trips.push(trip_of(alloc, call_at(*from, *leaves), call_at(*to, *comes))?)?;
    }
    Ok(trips)
}

fn stops_of(alloc: Global, nodes: &[u32]) -> Result<Stops, NoMemory> {
    let mut stops = Stops::new(alloc);
    for node in nodes {
        stops.push(Stop {
            node: NodeNo(*node),
            name: List::new(alloc),
        })?;
    }
    Ok(stops)
}

fn arc(from: u32, to: u32, seconds: u32) -> Arc {
    Arc {
        from: NodeNo(from),
        to: NodeNo(to),
        seconds,
    }
}

// Streets both ways: between 2 and 3, and of two hours between 1 and 4.
fn arcs_of(alloc: Global, seconds: u32) -> Result<Arcs, NoMemory> {
    Arcs::from_slice(
        alloc,
        &[
            arc(2, 3, seconds),
            arc(3, 2, seconds),
            arc(1, 4, 7200),
            arc(4, 1, 7200),
        ],
    )
}

/// Four vertices with stops at these, streets of two hours between 1 and 4, and of these seconds between 2 and 3.
pub fn network_of(
    alloc: Global,
    seconds: u32,
    nodes: &[u32],
    trips: Trips,
) -> Result<Network, NoMemory> {
    let stops = stops_of(alloc, nodes)?;
    Ok(Network {
        nodes: 4,
        arcs: arcs_of(alloc, seconds)?,
        stops,
        trips,
        buffer: 0,
    })
}

// Whether each trip has few calls.
fn have_few_calls(trips: &[Trip]) -> bool
    ensures { IsTrue result → All (λ trip. length trip.calls < 2 ^ 32 - 1) trips.now }
{
    for i in 0..trips.len() {
        if trips[i].calls.len() >= 4_294_967_295 {
            return false;
        }
    }
    true
}

/// The table of a network of four stops, or None where it breaks a rule.
pub fn table_of(alloc: Global, n: &Network, buffer: u32) -> Result<Option<Timetable>, NoMemory>
    ensures { IfOk result (λ made. IfSome made (λ table. table.stops ≡ 4)) }
{
    let few = n.stops.len() == 4 && n.trips.len() < 1000 && n.arcs.len() < 9;
    if !few || !have_few_calls(n.trips.as_slice()) {
        return Ok(None);
    }
    if n.check().is_err() {
        return Ok(None);
    }
    Ok(Some(Timetable::with_buffer(alloc, &n.trips, 4, buffer)?))
}
