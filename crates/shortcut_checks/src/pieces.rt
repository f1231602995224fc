// Needed walks of starts.
ghost use Rattle.std.specs.Prelude.{◌≡◌, ◌<◌, map, length, All};
ghost use Rattle.move_model.specs.Check.{KeepsRules};
ghost use Rattle.move_model.specs.Network.{streets};
ghost use Rattle.route_split.specs.Calls.{IsTableOf};
ghost use Rattle.route_split.specs.Routes.{AreRoutes};
ghost use Rattle.walk_core.specs.Core.{Holds, IsContraction};

use crate::sample::{core_of, network_of};
use crate::tables::{is_small, table_of};
use move_model::{Call, List, Network, NoMemory, StopNo, StopPairs, Trip};
use route_split::Timetable;
use std::alloc::Global;
use std::test::Fail;
use stop_rows::StopRows;
use walk_core::Core;
use witness_prune::{Needed, Search, TwoTrip};

// The calls of a trip: a stop and the second of arrival and departure.
type Calls = &'static [(u32, u32)];

// A trip with these calls.
fn trip_of(alloc: Global, calls: Calls) -> Result<Trip, NoMemory> {
    let mut list = List::new(alloc);
    for call in calls {
        list.push(Call {
            stop: StopNo(call.0),
            arr: call.1,
            dep: call.1,
            board: true,
            alight: true,
        })?;
    }
    Ok(Trip {
        name: List::new(alloc),
        calls: list,
    })
}

// Adds trips to a network.
fn put_trips(alloc: Global, network: &mut Network, trips: &[Calls]) -> Result<(), NoMemory> {
    for calls in trips {
        let trip = trip_of(alloc, *calls)?;
        network.trips.push(trip)?;
    }
    Ok(())
}

// The pairs that two steps from a stop need, the second step at an earlier second.
fn steps_at(
    alloc: Global,
    network: &Network,
    core: &Core,
    table: &Timetable,
    stop: StopNo,
    first: u32,
    second: u32,
) -> Result<StopPairs, NoMemory>
    requires rules { KeepsRules network.now }
    requires few { length network.now.stops < 1000 }
    requires contraction { IsContraction (streets network.now) core.now }
    requires kept { All (λ stop. Holds core.now stop.node) network.now.stops }
    requires table { IsTableOf network.now table.now }
    requires routes { AreRoutes network.now.trips (map (λ route. route.trips) table.now.routes) }
    requires stop { stop.0 < length network.now.stops }
    requires seconds { second < first }
{
    let mut search = TwoTrip::start(alloc, network, core, table, stop)?;
    let mut needed = Needed::new(alloc);
    search.step(first, &mut needed)?;
    search.step(second, &mut needed)?;
    needed.into_pairs()
}

// The same from the place of the stop.
fn steps_from(
    alloc: Global,
    network: &Network,
    core: &Core,
    table: &Timetable,
    stop: StopNo,
    first: u32,
    second: u32,
) -> Result<StopPairs, NoMemory>
    requires rules { KeepsRules network.now }
    requires few { length network.now.stops < 1000 }
    requires contraction { IsContraction (streets network.now) core.now }
    requires kept { All (λ stop. Holds core.now stop.node) network.now.stops }
    requires table { IsTableOf network.now table.now }
    requires routes { AreRoutes network.now.trips (map (λ route. route.trips) table.now.routes) }
    requires stop { stop.0 < length network.now.stops }
    requires seconds { second < first }
{
    let rows = StopRows::new(alloc, network, core)?;
    let place = rows.place(stop);
    let mut search = Search::new(alloc, network, &rows, table)?;
    let mut needed = Needed::new(alloc);
    search.begin(place);
    search.step(first, &mut needed)?;
    search.step(second, &mut needed)?;
    needed.into_pairs()
}

// The pairs that two steps need, from a stop alone or from its place, or None where the network breaks a rule.
fn needed_by(
    alloc: Global,
    network: &Network,
    alone: bool,
    first: u32,
    second: u32,
) -> Result<Option<StopPairs>, NoMemory> {
    if !is_small(network) || network.stops.is_empty() || second >= first {
        return Ok(None);
    }
    let Some(core) = core_of(alloc, network)? else {
        return Ok(None);
    };
    let table = table_of(alloc, network)?;
    let pairs = if alone {
        steps_at(alloc, network, &core, &table, StopNo(0), first, second)?
    } else {
        steps_from(alloc, network, &core, &table, StopNo(0), first, second)?
    };
    Ok(Some(pairs))
}

// A network, two seconds at which steps are made from the stop 0, the pairs that are needed then, and the list of all
// shortcuts: from, to and seconds.
pub struct Row {
    nodes: u32,
    arcs: Arcs,
    stops: &'static [u32],
    trips: &'static [Calls],
    buffer: u32,
    first: u32,
    second: u32,
    pairs: &'static [(StopNo, StopNo)],
    pub list: &'static [(u32, u32, u64)],
}

type Arcs = &'static [(u32, u32, u32)];

const ARCS: Arcs = &[(2, 3, 240), (3, 2, 240), (1, 4, 7200), (4, 1, 7200)];

const FAR: Arcs = &[(2, 3, 360), (3, 2, 360), (1, 4, 7200), (4, 1, 7200)];

const WITH_E: Arcs = &[
    (2, 3, 240),
    (3, 2, 240),
    (1, 4, 7200),
    (4, 1, 7200),
    (5, 3, 360),
];

// The trips t1 from A at 08:00:00 to B at 08:10:00, and t2 from C at 08:15:00 to D at 08:30:00.
const T1: Calls = &[(0, 28_800), (1, 29_400)];

const T2: Calls = &[(2, 29_700), (3, 30_600)];

// From A at 08:01:00 to B at 08:09:00; t1 with a call at E at 08:08:00; and from A at 08:05:00 to D at 08:30:00.
const FAST: Calls = &[(0, 28_860), (1, 29_340)];

const BY_E: Calls = &[(0, 28_800), (4, 29_280), (1, 29_400)];

const DIRECT: Calls = &[(0, 29_100), (3, 30_600)];

pub const ROWS: [Row; 7] = [
    // From B the passenger walks to C for 240 seconds.
    Row {
        nodes: 4,
        arcs: ARCS,
        stops: &[1, 2, 3, 4],
        trips: &[T1, T2],
        buffer: 0,
        first: 28_800,
        second: 28_799,
        pairs: &[(StopNo(1), StopNo(2))],
        list: &[(1, 2, 240)],
    },
    // B and C stand at one vertex.
    Row {
        nodes: 4,
        arcs: ARCS,
        stops: &[1, 2, 2, 4],
        trips: &[T1, T2],
        buffer: 0,
        first: 28_800,
        second: 28_799,
        pairs: &[(StopNo(1), StopNo(2))],
        list: &[(1, 2, 0)],
    },
    // The walk takes 360 seconds. A trip from 08:01:00 to 08:09:00 overtakes t1 and alone is in time.
    Row {
        nodes: 4,
        arcs: FAR,
        stops: &[1, 2, 3, 4],
        trips: &[T1, FAST, T2],
        buffer: 0,
        first: 28_860,
        second: 28_800,
        pairs: &[(StopNo(1), StopNo(2))],
        list: &[(1, 2, 360)],
    },
    // At the second of t1 alone no ride is in time.
    Row {
        nodes: 4,
        arcs: FAR,
        stops: &[1, 2, 3, 4],
        trips: &[T1, FAST, T2],
        buffer: 0,
        first: 28_800,
        second: 28_799,
        pairs: &[],
        list: &[(1, 2, 360)],
    },
    // t1 calls at E at 08:08:00 before B; both walks end at 08:14:00, and the ride to E is left earlier.
    Row {
        nodes: 5,
        arcs: WITH_E,
        stops: &[1, 2, 3, 4, 5],
        trips: &[BY_E, T2],
        buffer: 0,
        first: 28_800,
        second: 28_799,
        pairs: &[(StopNo(4), StopNo(2))],
        list: &[(4, 2, 360)],
    },
    // A trip from A at 08:05:00 comes to D at 08:30:00 too, with one ride.
    Row {
        nodes: 4,
        arcs: ARCS,
        stops: &[1, 2, 3, 4],
        trips: &[T1, DIRECT, T2],
        buffer: 0,
        first: 29_100,
        second: 28_800,
        pairs: &[],
        list: &[],
    },
    // With a buffer of 60 seconds t2 is caught exactly, by who is at A 60 seconds before t1 departs.
    Row {
        nodes: 4,
        arcs: ARCS,
        stops: &[1, 2, 3, 4],
        trips: &[T1, T2],
        buffer: 60,
        first: 28_800,
        second: 28_740,
        pairs: &[(StopNo(1), StopNo(2))],
        list: &[(1, 2, 240)],
    },
];

/// The network of a row.
pub fn sample_of(alloc: Global, row: &Row) -> Result<Network, NoMemory> {
    let mut network = network_of(alloc, row.nodes, row.arcs, row.stops)?;
    put_trips(alloc, &mut network, row.trips)?;
    network.buffer = row.buffer;
    Ok(network)
}

#[test]
fn needs_the_walks_of_a_start(rt: HostRuntime) -> Result<(), Fail> {
    for row in &ROWS {
        let network = sample_of(rt.alloc(), row)?;
        let pairs = needed_by(rt.alloc(), &network, true, row.first, row.second)?.ok_or(
            "no search",
        )?;
        assert_eq!(rt; pairs.as_slice(), row.pairs);
    }
    Ok(())
}

#[test]
fn needs_the_walks_of_a_place(rt: HostRuntime) -> Result<(), Fail> {
    for row in &ROWS {
        let network = sample_of(rt.alloc(), row)?;
        let pairs = needed_by(rt.alloc(), &network, false, row.first, row.second)?.ok_or(
            "no search",
        )?;
        assert_eq!(rt; pairs.as_slice(), row.pairs);
    }
    Ok(())
}
