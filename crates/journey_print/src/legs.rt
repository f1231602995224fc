// The rows of the legs of a journey.
ghost use Rattle.std.specs.Prelude.{◌≡◌, ◌++◌, ◌+◌, ◌<◌, ◌≤◌, ◌^◌, List, ℕ, IfOk, OnOk};
ghost use Rattle.move_model.specs.declared.network.NodeNo.{NodeNo};
ghost use Rattle.move_model.specs.declared.network.Call.{Call};
ghost use Rattle.move_model.specs.Streets.{IsWalk};
ghost use Rattle.move_model.specs.Network.{streets, node_of};
ghost use Rattle.move_model.specs.Journey.{IsRide, IsJourney};
ghost use Rattle.journey_print.specs.Arcs.{TellsLeastArcs};
ghost use Rattle.journey_print.specs.Legs as spec;
ghost use Rattle.journey_print.specs.Records.{HasText, record_text, records_text};

use crate::LeastArcs;
use crate::text::add_record;
use csv::{Error, Writer};
use itoa::Buffer;
use move_model::{Call, Journey, Network, NodeNo, Ride, StopNo, TimeText, Trip, write_time};

#[tactic(auto, unfolding(crate::specs::Legs::walk_record))]
fn add_arc(
    out: &mut Writer<Vec<u8>>,
    number: u32,
    journey: usize,
    from: NodeNo,
    begins: u64,
    to: NodeNo,
    ends: u64,
) -> Result<(), Error>
    ensures { OnOk result ((text : List ℕ) → HasText out.old text → HasText out.new (text ++ record_text (spec.walk_record number journey from begins to ends))) }
{
    let mut query_digits = Buffer::new();
    let mut journey_digits = Buffer::new();
    let mut from_at = Buffer::new();
    let mut to_at = Buffer::new();
    let mut start = TimeText::new();
    let mut end = TimeText::new();
    write_time(begins, &mut start);
    write_time(ends, &mut end);
    add_record(
        out,
        &[
            query_digits.format(number).as_bytes(),
            journey_digits.format(journey).as_bytes(),
            b"walk",
            b"",
            b"",
            from_at.format(from.0).as_bytes(),
            b"",
            to_at.format(to.0).as_bytes(),
            start.bytes(),
            end.bytes(),
            b"",
        ],
    )
}

// Writes the rows of a walk that begins at a second, one for each arc.
fn add_walk(
    out: &mut Writer<Vec<u8>>,
    number: u32,
    journey: usize,
    network: &Network,
    arcs: &LeastArcs,
    walk: &[NodeNo],
    begin: u64,
) -> Result<(), Error>
    requires { TellsLeastArcs arcs.now network.now.arcs }
    ensures { OnOk result ((a b : NodeNo) (m : ℕ) → IsWalk (streets network.now) a walk.now b m → begin + m < 2 ^ 64
        → (text : List ℕ) → HasText out.old text
        → HasText out.new (text ++ records_text (spec.walk_records number journey network.now.arcs walk.now begin))) }
{
    let mut begins = begin;
    for i in 0..walk.len().saturating_sub(1) {
        let ends = arcs.end(walk[i], walk[i + 1], begins);
        add_arc(out, number, journey, walk[i], begins, walk[i + 1], ends)?;
        begins = ends;
    }
    Ok(())
}

// The id of a stop, empty where there is no such stop.
fn name_of(network: &Network, stop: StopNo) -> &[u8]
    ensures { result.now ≡ spec.name_of network.now stop }
{
    match network.stops.get(stop.0 as usize) {
        Some(found) => found.name.as_slice(),
        None => b"",
    }
}

// The vertex of a stop, 0 where there is no such stop.
fn vertex_of(network: &Network, stop: StopNo) -> NodeNo
    ensures { result ≡ node_of network.now stop }
{
    match network.stops.get(stop.0 as usize) {
        Some(found) => found.node,
        None => NodeNo(0),
    }
}

#[tactic(auto, unfolding(crate::specs::Legs::ride_record))]
fn add_ride(
    out: &mut Writer<Vec<u8>>,
    number: u32,
    journey: usize,
    network: &Network,
    trip: &Trip,
    on: &Call,
    off: &Call,
) -> Result<(), Error>
    ensures row { OnOk result ((text : List ℕ) → HasText out.old text → HasText out.new (text ++ record_text (spec.ride_record number journey network.now trip.now on.now off.now))) }
    ensures small { on.now.dep < 2 ^ 32 }
{
    let mut query_digits = Buffer::new();
    let mut journey_digits = Buffer::new();
    let mut from_at = Buffer::new();
    let mut to_at = Buffer::new();
    let mut start = TimeText::new();
    let mut end = TimeText::new();
    write_time(u64::from(on.dep), &mut start);
    write_time(u64::from(off.arr), &mut end);
    add_record(
        out,
        &[
            query_digits.format(number).as_bytes(),
            journey_digits.format(journey).as_bytes(),
            b"ride",
            trip.name.as_slice(),
            name_of(network, on.stop),
            from_at.format(vertex_of(network, on.stop).0).as_bytes(),
            name_of(network, off.stop),
            to_at.format(vertex_of(network, off.stop).0).as_bytes(),
            start.bytes(),
            end.bytes(),
            b"",
        ],
    )
}

// Writes the rows of a walk that begins at a second and of the ride behind it, and gives the second at which the ride
// is left.
fn add_leg(
    out: &mut Writer<Vec<u8>>,
    number: u32,
    journey: usize,
    network: &Network,
    arcs: &LeastArcs,
    walk: &[NodeNo],
    begin: u64,
    ride: Ride,
) -> Result<u64, Error>
    requires { TellsLeastArcs arcs.now network.now.arcs }
    ensures { IfOk result (λ left. (a b : NodeNo) (m : ℕ) (on off : Call) → IsWalk (streets network.now) a walk.now b m
        → IsRide network.now ride on off → begin + m ≤ on.dep → (left ≡ off.arr)
        × ((text : List ℕ) → HasText out.old text → HasText out.new (text ++ records_text
        (spec.walk_records number journey network.now.arcs walk.now begin ++ spec.ride_records number journey network.now ride)))) }
{
    let Some(trip) = network.trips.get(ride.trip.0 as usize) else {
        return Ok(0);
    };
    let Some(on) = trip.calls.get(ride.board as usize) else {
        return Ok(0);
    };
    let Some(off) = trip.calls.get(ride.alight as usize) else {
        return Ok(0);
    };
    add_walk(out, number, journey, network, arcs, walk, begin)?;
    add_ride(out, number, journey, network, trip, on, off)?;
    Ok(u64::from(off.arr))
}

/// Writes the rows of the walks and rides of a journey. `arcs` tells the seconds of the network's least arcs.
pub fn add_legs(
    out: &mut Writer<Vec<u8>>,
    number: u32,
    journey: usize,
    network: &Network,
    arcs: &LeastArcs,
    found: &Journey,
) -> Result<(), Error>
    requires { TellsLeastArcs arcs.now network.now.arcs }
    ensures { OnOk result ((s t : NodeNo) (arrive : ℕ) → IsJourney network.now s found.now t arrive → arrive < 2 ^ 64
        → (text : List ℕ) → HasText out.old text → HasText out.new (text ++ records_text
        (spec.leg_records number journey network.now found.now.walks found.now.rides found.now.depart))) }
{
    let walks = found.walks.as_slice();
    let rides = found.rides.as_slice();
    if walks.len() <= rides.len() {
        return Ok(());
    }
    let mut begins = u64::from(found.depart);
    for i in 0..rides.len() {
        begins = add_leg(
            out,
            number,
            journey,
            network,
            arcs,
            walks[i].as_slice(),
            begins,
            rides[i],
        )?;
    }
    add_walk(
        out,
        number,
        journey,
        network,
        arcs,
        walks[rides.len()].as_slice(),
        begins,
    )
}
