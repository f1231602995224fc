// Small networks from seeds.
ghost use Rattle.std.specs.Prelude.{◌<◌};

use crate::draws::Draws;
use move_model::{
    Arc, Arcs, Call, Calls, List, Network, NoMemory, NodeNo, Stop, StopNo, Stops, Trip, Trips,
};
use std::alloc::Global;

// Arcs, many of no seconds and some of them loops. Most have one back.
fn arcs_of(alloc: Global, draws: &mut Draws, nodes: u32) -> Result<Arcs, NoMemory>
    requires some { 0 < nodes }
    requires few { nodes < 100 }
{
    let mut arcs = Arcs::new(alloc);
    for _arc in 0..nodes + 4 {
        let from = NodeNo(1 + draws.below(nodes));
        let to = NodeNo(1 + draws.below(nodes));
        let seconds = draws.below(5).wrapping_mul(draws.below(10));
        arcs.push(Arc { from, to, seconds })?;
        if !draws.one_in(4) {
            arcs.push(Arc {
                from: to,
                to: from,
                seconds,
            })?;
        }
    }
    Ok(arcs)
}

// Stops at vertices that may be the same.
fn stops_of(alloc: Global, draws: &mut Draws, nodes: u32, count: u32) -> Result<Stops, NoMemory>
    requires { 0 < nodes }
{
    let mut stops = Stops::new(alloc);
    for _stop in 0..count {
        stops.push(Stop {
            node: NodeNo(1 + draws.below(nodes)),
            name: List::new(alloc),
        })?;
    }
    Ok(stops)
}

// A trip of a line from a second on. Its stops, seconds and flags follow from the line's seed, but for a few that differ.
fn trip_of(
    alloc: Global,
    draws: &mut Draws,
    line: u32,
    stops: u32,
    first: u32,
) -> Result<Trip, NoMemory>
    requires { 0 < stops }
{
    let mut line = Draws::new(line);
    let mut calls = Calls::new(alloc);
    let mut second = first;
    for _call in 0..2 + line.below(4) {
        let late = if draws.one_in(6) { draws.below(4) } else { 0 };
        let arr = second.wrapping_add(line.below(6)).wrapping_add(late);
        let dep = arr.wrapping_add(line.below(2));
        calls.push(Call {
            stop: StopNo(line.below(stops)),
            arr,
            dep,
            board: !line.one_in(12),
            alight: !line.one_in(12) && !draws.one_in(24),
        })?;
        second = dep;
    }
    Ok(Trip {
        name: List::new(alloc),
        calls,
    })
}

// Whether the seconds of calls are at or before those of others, in lexicographic order.
fn is_at_or_before(calls: &[Call], others: &[Call]) -> bool {
    for i in 0..calls.len().min(others.len()) {
        let (call, other) = (calls[i], others[i]);
        if call.arr != other.arr {
            return call.arr < other.arr;
        }
        if call.dep != other.dep {
            return call.dep < other.dep;
        }
    }
    calls.len() <= others.len()
}

// Puts a trip behind all that are at or before it.
fn put(trips: &mut Vec<Trip>, trip: Trip) -> Result<(), NoMemory> {
    let mut place = 0;
    for i in 0..trips.len() {
        if is_at_or_before(trips[i].calls.as_slice(), trip.calls.as_slice()) {
            place = i + 1;
        }
    }
    let place = place.min(trips.len());
    trips.insert(place, trip)?;
    Ok(())
}

// Puts the trips of a line where they belong: a few, or many at a headway of few seconds, or of none.
fn put_line(
    alloc: Global,
    draws: &mut Draws,
    stops: u32,
    trips: &mut Vec<Trip>,
) -> Result<(), NoMemory>
    requires { 0 < stops }
{
    let line = draws.below(65_536);
    let count = if draws.one_in(3) {
        4 + draws.below(4)
    } else {
        1 + draws.below(2)
    };
    let headway = draws.below(8);
    let mut second = draws.below(40);
    for _trip in 0..count {
        put(trips, trip_of(alloc, draws, line, stops, second)?)?;
        second = second.wrapping_add(headway);
    }
    Ok(())
}

/// The network of a seed: 8 to 15 vertices, 8 to 12 stops, 8 to 11 lines of 1 to 7 trips, and a buffer of 0 to 2 seconds.
pub fn network_of(alloc: Global, seed: u32) -> Result<Network, NoMemory> {
    let mut draws = Draws::new(seed);
    let nodes = 8 + draws.below(8);
    let arcs = arcs_of(alloc, &mut draws, nodes)?;
    let many = 8 + draws.below(5);
    let stops = stops_of(alloc, &mut draws, nodes, many)?;
    let mut trips = Vec::new(alloc);
    for _line in 0..8 + draws.below(4) {
        put_line(alloc, &mut draws, many, &mut trips)?;
    }
    let buffer = if draws.one_in(2) { 0 } else { draws.below(3) };
    Ok(Network {
        nodes,
        arcs,
        stops,
        trips: Trips::from_vec(trips),
        buffer,
    })
}
