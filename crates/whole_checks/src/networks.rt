// Small networks from seeds.
ghost use Rattle.std.specs.Prelude.{◌<◌};

use crate::draws::Draws;
use move_model::{
    Arc, Arcs, Call, Calls, List, Network, NoMemory, NodeNo, Stop, StopNo, Stops, Trip, Trips,
};
use std::alloc::Global;

fn arc_of(draws: &mut Draws, nodes: u32) -> Arc
    requires { 0 < nodes }
{
    let from = NodeNo(1 + draws.below(nodes));
    let to = NodeNo(1 + draws.below(nodes));
    let one = draws.below(4);
    let other = draws.below(20);
    Arc {
        from,
        to,
        seconds: one.wrapping_mul(other),
    }
}

// Arcs, loops among them; many have none back, and some have a longer one beside them.
fn arcs_of(alloc: Global, draws: &mut Draws, nodes: u32) -> Result<Arcs, NoMemory>
    requires { 0 < nodes }
{
    let mut arcs = Arcs::new(alloc);
    for _arc in 3..nodes {
        let arc = arc_of(draws, nodes);
        let Arc { from, to, seconds } = arc;
        arcs.push(arc)?;
        if draws.one_in(3) {
            arcs.push(Arc {
                from: to,
                to: from,
                seconds,
            })?;
        }
        if draws.one_in(6) {
            arcs.push(Arc {
                from,
                to,
                seconds: seconds.wrapping_add(1),
            })?;
        }
    }
    Ok(arcs)
}

// Stops at vertices that may be the same.
fn stops_of(alloc: Global, draws: &mut Draws, nodes: u32, count: u32) -> Result<Stops, NoMemory>
    requires { 0 < nodes }
{
    let mut stops = Stops::new(alloc);
    for _stop in 0..count {
        stops.push(Stop {
            node: NodeNo(1 + draws.below(nodes)),
            name: List::new(alloc),
        })?;
    }
    Ok(stops)
}

// A trip of a line. Its stops and most of its flags follow from the line's seed, and its seconds do not.
fn trip_of(alloc: Global, draws: &mut Draws, line: u32, stops: u32) -> Result<Trip, NoMemory>
    requires { 0 < stops }
{
    let mut line = Draws::new(line);
    let mut calls = Calls::new(alloc);
    let mut second = draws.below(60);
    for _call in 0..2 + line.below(3) {
        let arr = second.wrapping_add(draws.below(4));
        let dep = arr.wrapping_add(draws.below(2));
        calls.push(Call {
            stop: StopNo(line.below(stops)),
            arr,
            dep,
            board: !line.one_in(8) && !draws.one_in(16),
            alight: !line.one_in(8) && !draws.one_in(16),
        })?;
        second = dep;
    }
    Ok(Trip {
        name: List::new(alloc),
        calls,
    })
}

// Whether the seconds of calls are at or before those of others, in lexicographic order.
fn is_at_or_before(calls: &[Call], others: &[Call]) -> bool {
    for i in 0..calls.len().min(others.len()) {
        let (call, other) = (calls[i], others[i]);
        if call.arr != other.arr {
            return call.arr < other.arr;
        }
        if call.dep != other.dep {
            return call.dep < other.dep;
        }
    }
    calls.len() <= others.len()
}

// Behind how many trips a trip stands.
fn place_of(trips: &[Trip], trip: &Trip) -> usize {
    let mut place = 0;
    for i in 0..trips.len() {
        if is_at_or_before(trips[i].calls.as_slice(), trip.calls.as_slice()) {
            place = i + 1;
        }
    }
    place
}

// Trips of few lines, in their order.
fn trips_of(alloc: Global, draws: &mut Draws, stops: u32, count: u32) -> Result<Trips, NoMemory>
    requires { 0 < stops }
{
    let lines = draws.below(65_536);
    let mut trips = Vec::new(alloc);
    for _trip in 0..count {
        let line = lines.wrapping_add(draws.below(12));
        let trip = trip_of(alloc, draws, line, stops)?;
        let place = place_of(trips.as_slice(), &trip).min(trips.len());
        trips.insert(place, trip)?;
    }
    Ok(List::from_vec(trips))
}

/// The network of a seed: 5 to 9 vertices, 4 to 8 stops, 12 to 20 trips of 2 to 4 calls, and a buffer of 0 to 3 seconds.
pub fn network_of(alloc: Global, seed: u32) -> Result<Network, NoMemory> {
    let mut draws = Draws::new(seed);
    let nodes = 5 + draws.below(5);
    let arcs = arcs_of(alloc, &mut draws, nodes)?;
    let many = 4 + draws.below(5);
    let stops = stops_of(alloc, &mut draws, nodes, many)?;
    let count = 12 + draws.below(9);
    let trips = trips_of(alloc, &mut draws, many, count)?;
    let buffer = if draws.one_in(2) { 0 } else { draws.below(4) };
    Ok(Network {
        nodes,
        arcs,
        stops,
        trips,
        buffer,
    })
}
