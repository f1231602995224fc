// Networks in two halves, so that each way between the halves has a ride.
use move_model::{
    Arc, Arcs, Call, Calls, List, Network, NoMemory, NodeNo, Stop, StopNo, Stops, Trip, Trips,
};
use std::alloc::Global;

/// The vertex of the second half that stands for a vertex.
pub fn second_half(n: &Network, node: NodeNo) -> NodeNo {
    NodeNo(node.0.wrapping_add(n.nodes))
}

// Each arc in both halves.
fn arcs_of(alloc: Global, n: &Network) -> Result<Arcs, NoMemory> {
    let mut arcs = Arcs::new(alloc);
    for arc in n.arcs.as_slice() {
        arcs.push(*arc)?;
        arcs.push(Arc {
            from: second_half(n, arc.from),
            to: second_half(n, arc.to),
            seconds: arc.seconds,
        })?;
    }
    Ok(arcs)
}

// Each stop in both halves, one behind the other.
fn stops_of(alloc: Global, n: &Network) -> Result<Stops, NoMemory> {
    let mut stops = Stops::new(alloc);
    for stop in n.stops.as_slice() {
        for node in [stop.node, second_half(n, stop.node)] {
            stops.push(Stop {
                node,
                name: List::new(alloc),
            })?;
        }
    }
    Ok(stops)
}

// A call where a trip is left in the second half, then calls where it is boarded in the first and in the second.
fn calls_of(alloc: Global, trip: &Trip) -> Result<Calls, NoMemory> {
    let mut calls = Calls::new(alloc);
    for call in trip.calls.as_slice() {
        let here = StopNo(call.stop.0.wrapping_mul(2));
        let there = StopNo(here.0.wrapping_add(1));
        calls.push(Call {
            stop: there,
            arr: call.arr,
            dep: call.arr,
            board: false,
            alight: call.alight,
        })?;
        for stop in [here, there] {
            calls.push(Call {
                stop,
                arr: call.dep,
                dep: call.dep,
                board: call.board,
                alight: false,
            })?;
        }
    }
    Ok(calls)
}

/// A network in two halves. No arc leads from one to the other, and each ride ends in the second. So the journeys from a
/// vertex of the first half to one of the second are those of the network with one ride or more.
pub fn halves_of(alloc: Global, n: &Network) -> Result<Network, NoMemory> {
    let mut trips = Trips::new(alloc);
    for trip in n.trips.as_slice() {
        trips.push(Trip {
            name: List::new(alloc),
            calls: calls_of(alloc, trip)?,
        })?;
    }
    Ok(Network {
        nodes: n.nodes.wrapping_mul(2),
        arcs: arcs_of(alloc, n)?,
        stops: stops_of(alloc, n)?,
        trips,
        buffer: n.buffer,
    })
}
