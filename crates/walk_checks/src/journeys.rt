// Two trips over four vertices: from 1 at 8:00 to 2 at 8:10, and from 3 at 8:15 to 4 at 8:30. It is 240 seconds between 2
// and 3, and 7200 between 1 and 4.
ghost use Rattle.std.specs.Prelude.{◌≡◌, ◌≤◌, ◌<◌, ◌-◌, ◌^◌, All, IfOk, IsTrue, length};
ghost use Rattle.move_model.specs.Network.{streets, IsNetwork};
ghost use Rattle.walk_hierarchy.specs.Hierarchy.{IsOver};
ghost use Rattle.walk_checks.specs.Samples.{pairs_streets};

use crate::samples::{pairs_over, street};
use journey_build::build;
use move_model::{
    Arcs, Call, Calls, List, Network, NoMemory, NodeNo, Ride, RideList, Stop, StopNo, Stops, Trip,
    TripNo, Trips,
};
use std::alloc::Global;
use std::marker::Brand;
use std::sync::ledger::{Blank, Ledger};
use std::test::Fail;
use steps::Steps;
use walk_hierarchy::{Hierarchy, Work};

fn call_at(stop: u32, second: u32) -> Call {
    Call {
        stop: StopNo(stop),
        arr: second,
        dep: second,
        board: true,
        alight: true,
    }
}

fn trip_of(alloc: Global, first: Call, second: Call) -> Result<Trip, NoMemory>
    ensures { IfOk result (λ trip. length trip.calls ≡ 2) }
{
    let mut calls = Calls::new(alloc);
    calls.push(first)?;
    calls.push(second)?;
    Ok(Trip {
        name: List::new(alloc),
        calls,
    })
}

fn trips_of(alloc: Global) -> Result<Trips, NoMemory>
    ensures few { IfOk result (λ trips. length trips ≡ 2) }
    ensures few_calls { IfOk result (λ trips. All (λ trip. length trip.calls < 2 ^ 32 - 1) trips) }
{
    let first = trip_of(alloc, call_at(0, 28800), call_at(1, 29400))?;
    let second = trip_of(alloc, call_at(2, 29700), call_at(3, 30600))?;
    let mut trips = Trips::new(alloc);
    trips.push(first)?;
    trips.push(second)?;
    Ok(trips)
}

fn stops_of(alloc: Global) -> Result<Stops, NoMemory> {
    let mut stops = Stops::new(alloc);
    for node in 1..5 {
        stops.push(Stop {
            node: NodeNo(node),
            name: List::new(alloc),
        })?;
    }
    Ok(stops)
}

fn network_of(alloc: Global) -> Result<Network, NoMemory>
    ensures streets { IfOk result (λ network. streets network ≡ pairs_streets) }
    ensures trips { IfOk result (λ network. length network.trips ≡ 2) }
    ensures calls { IfOk result (λ network. All (λ trip. length trip.calls < 2 ^ 32 - 1) network.trips) }
{
    let arcs = Arcs::from_slice(
        alloc,
        &[
            street(2, 3, 240),
            street(3, 2, 240),
            street(1, 4, 7200),
            street(4, 1, 7200),
        ],
    )?;
    Ok(Network {
        nodes: 4,
        arcs,
        stops: stops_of(alloc)?,
        trips: trips_of(alloc)?,
        buffer: 0,
    })
}

// Whether the network keeps the rules.
fn is_network(network: &Network) -> bool
    requires streets { streets network.now ≡ pairs_streets }
    requires trips { length network.now.trips ≡ 2 }
    requires calls { All (λ trip. length trip.calls < 2 ^ 32 - 1) network.now.trips }
    ensures { IsTrue result → IsNetwork network.now }
{
    if network.stops.len() != 4 {
        return false;
    }
    network.check().is_ok()
}

const FIRST: Ride = Ride {
    trip: TripNo(0),
    board: 0,
    alight: 1,
};

const SECOND: Ride = Ride {
    trip: TripNo(1),
    board: 0,
    alight: 1,
};

const NO_TRIP: Ride = Ride {
    trip: TripNo(2),
    board: 0,
    alight: 1,
};

// The vertex to which a journey leads from vertex 1, the second at which it leaves, its rides, and its walks; no walks
// stand for no journey.
type Row = (u32, u32, &'static [Ride], &'static [&'static [NodeNo]]);

const WALKS: [&[NodeNo]; 3] = [&[NodeNo(1)], &[NodeNo(2), NodeNo(3)], &[NodeNo(4)]];

const ROWS: [Row; 5] = [
    (4, 28500, &[FIRST, SECOND], &WALKS),
    (4, 28800, &[FIRST, SECOND], &WALKS),
    (4, 28801, &[FIRST, SECOND], &[]),
    (4, 28500, &[NO_TRIP], &[]),
    (1, 28500, &[FIRST], &[]),
];

fn are_walks(walks: &[List<NodeNo>], want: &[&[NodeNo]]) -> bool {
    for (walk, nodes) in walks.iter().zip(want) {
        if walk.as_slice() != *nodes {
            return false;
        }
    }
    walks.len() == want.len()
}

fn builds<L: Ledger>(
    alloc: Global,
    network: &Network,
    hierarchy: &Hierarchy,
    row: Row,
    rides: &RideList,
    work: &mut Work,
    blank: Blank,
) -> Result<bool, NoMemory>
    requires name { blank.name ≡ L.name }
    requires parts { blank.parts ≡ L.parts }
    requires some { 0 < blank.parts }
    requires network { IsNetwork network.now }
    requires over { IsOver (streets network.now) hierarchy.now }
    requires four { length hierarchy.now.ranks ≡ 4 }
    requires from_one { 1 ≤ row.0 }
    requires to_four { row.0 ≤ 4 }
    requires fits { work.old.nodes ≡ 4 }
{
    let (to, depart, _, walks) = row;
    let mut searches = Steps::<L>::new(blank);
    let made = build(
        alloc,
        network,
        hierarchy,
        NodeNo(1),
        NodeNo(to),
        depart,
        rides,
        work,
        &mut searches,
    )?;
    Ok(match made {
        Some(journey) => are_walks(journey.walks.as_slice(), walks),
        None => walks.is_empty(),
    })
}

fn builds_over(
    alloc: Global,
    network: &Network,
    hierarchy: &Hierarchy,
    row: Row,
) -> Result<bool, NoMemory>
    requires network { IsNetwork network.now }
    requires over { IsOver (streets network.now) hierarchy.now }
    requires four { length hierarchy.now.ranks ≡ 4 }
{
    if row.0 < 1 || 4 < row.0 {
        return Ok(false);
    }
    let rides = RideList::from_slice(alloc, row.2)?;
    let mut work = Work::new(alloc, hierarchy)?;
    builds::<Brand>(
        alloc,
        network,
        hierarchy,
        row,
        &rides,
        &mut work,
        Blank::new(1),
    )
}

// How many of the rows hold over a network.
fn count_right(alloc: Global, network: &Network) -> Result<usize, NoMemory>
    requires streets { streets network.now ≡ pairs_streets }
    requires network { IsNetwork network.now }
{
    let hierarchy = pairs_over(alloc, network)?;
    let mut count = 0usize;
    for row in ROWS {
        if builds_over(alloc, network, &hierarchy, row)? {
            count = count.saturating_add(1);
        }
    }
    Ok(count)
}

// How many of the rows hold, or None where the network breaks a rule.
fn count_of_pairs(alloc: Global) -> Result<Option<usize>, NoMemory> {
    let network = network_of(alloc)?;
    if !is_network(&network) {
        return Ok(None);
    }
    Ok(Some(count_right(alloc, &network)?))
}

#[test]
fn builds_two_rides(rt: HostRuntime) -> Result<(), Fail> {
    assert_eq!(rt; count_of_pairs(rt.alloc())?, Some(ROWS.len()));
    Ok(())
}
