// The sample: two trips that a walk joins, and spoiled copies of its journeys.
ghost use Rattle.std.specs.Prelude.{◌<◌};

use crate::samples::{T1, T2, call_at, network_of, trip_of, trips_of};
use move_model::{Call, Journey, Key, List, Network, NoMemory, NodeNo, Ride, TripNo, Trips, Walks};
use pareto_laws::{is_journey, key_less};
use std::alloc::Global;
use std::test::Fail;

const A: NodeNo = NodeNo(1);

const B: NodeNo = NodeNo(2);

const C: NodeNo = NodeNo(3);

const D: NodeNo = NodeNo(4);

const OUTSIDE: NodeNo = NodeNo(5);

// Trip 0 leaves stop 0 at 08:00 and reaches stop 1 at 08:10, trip 1 leaves stop 2 at 08:15 and reaches stop 3 at 08:30.
// Trips 2 and 3 do so a minute and two later, but trip 2 may not be boarded, and trip 3 may not be left.
fn trips(alloc: Global) -> Result<Trips, NoMemory> {
    let closed = Call {
        board: false,
        ..call_at(2, 29760)
    };
    let kept = Call {
        alight: false,
        ..call_at(3, 30720)
    };
    let mut trips = trips_of(alloc, &[T1, T2])?;
    trips.push(trip_of(alloc, closed, call_at(3, 30660))?)?;
    trips.push(trip_of(alloc, call_at(2, 29820), kept)?)?;
    Ok(trips)
}

// Stops 0 to 3 stand at vertices 1 to 4.
fn sample(alloc: Global, buffer: u32) -> Result<Network, NoMemory> {
    let mut network = network_of(alloc, 240, &[1, 2, 3, 4], trips(alloc)?)?;
    network.buffer = buffer;
    Ok(network)
}

fn walks_of(alloc: Global, vertices: &[&[NodeNo]]) -> Result<Walks, NoMemory> {
    let mut walks = Walks::new(alloc);
    for walk in vertices {
        walks.push(List::from_slice(alloc, walk)?)?;
    }
    Ok(walks)
}

const FIRST: Ride = Ride {
    trip: TripNo(0),
    board: 0,
    alight: 1,
};

const SECOND: Ride = Ride {
    trip: TripNo(1),
    board: 0,
    alight: 1,
};

const NO_TRIP: Ride = Ride {
    trip: TripNo(4),
    board: 0,
    alight: 1,
};

const NO_CALL: Ride = Ride {
    trip: TripNo(1),
    board: 0,
    alight: 2,
};

const BACKWARDS: Ride = Ride {
    trip: TripNo(1),
    board: 1,
    alight: 0,
};

const NOWHERE: Ride = Ride {
    trip: TripNo(1),
    board: 0,
    alight: 0,
};

const NOT_BOARDED: Ride = Ride {
    trip: TripNo(2),
    board: 0,
    alight: 1,
};

const NOT_LEFT: Ride = Ride {
    trip: TripNo(3),
    board: 0,
    alight: 1,
};

// The buffer, the second of departure, the walks and the rides, and whether they are a journey.
type Case = (
    u32,
    u32,
    &'static [&'static [NodeNo]],
    &'static [Ride],
    bool,
);

const CASES: [Case; 24] = [
    (0, 28500, &[&[A], &[B, C], &[D]], &[FIRST, SECOND], true),
    (0, 28800, &[&[A], &[B, C], &[D]], &[FIRST, SECOND], true),
    (60, 28740, &[&[A], &[B, C], &[D]], &[FIRST, SECOND], true),
    (0, 29460, &[&[B, C], &[D]], &[SECOND], true),
    (0, 29401, &[&[C], &[D, A, D]], &[SECOND], true),
    (0, 28500, &[&[A, D]], &[], true),
    (0, 28500, &[&[C]], &[], true),
    // too late for the first ride, for the second, and by the buffer for the second
    (0, 28801, &[&[A], &[B, C], &[D]], &[FIRST, SECOND], false),
    (0, 29461, &[&[B, C], &[D]], &[SECOND], false),
    (61, 28500, &[&[A], &[B, C], &[D]], &[FIRST, SECOND], false),
    // along no arc, to another stop, from another stop, at no vertex
    (0, 28500, &[&[A], &[B, D, C], &[D]], &[FIRST, SECOND], false),
    (0, 28500, &[&[A], &[B], &[D]], &[FIRST, SECOND], false),
    (0, 28500, &[&[A], &[C], &[D]], &[FIRST, SECOND], false),
    (0, 28500, &[&[OUTSIDE]], &[], false),
    // a walk too many, a walk too few, a walk of no vertex
    (
        0,
        28500,
        &[&[A], &[B, C], &[D], &[D]],
        &[FIRST, SECOND],
        false,
    ),
    (0, 28500, &[&[A], &[B, C]], &[FIRST, SECOND], false),
    (0, 28500, &[&[A], &[B, C], &[]], &[FIRST, SECOND], false),
    (0, 28500, &[&[]], &[], false),
    // no such trip, no such call, backwards, to the same call, not boarded there, not left there
    (0, 28500, &[&[C], &[D]], &[NO_TRIP], false),
    (0, 28500, &[&[C], &[D]], &[NO_CALL], false),
    (0, 28500, &[&[D], &[C]], &[BACKWARDS], false),
    (0, 28500, &[&[C], &[C]], &[NOWHERE], false),
    (0, 28500, &[&[C], &[D]], &[NOT_BOARDED], false),
    (0, 28500, &[&[C], &[D]], &[NOT_LEFT], false),
];

fn journey_of(alloc: Global, case: Case) -> Result<Journey, NoMemory> {
    let (_, depart, walks, rides, _) = case;
    let walks = walks_of(alloc, walks)?;
    Ok(Journey {
        depart,
        walks,
        rides: List::from_slice(alloc, rides)?,
    })
}

fn is_right(alloc: Global, network: &Network, case: Case) -> Result<bool, NoMemory> {
    let journey = journey_of(alloc, case)?;
    Ok(is_journey(network, &journey) == case.4)
}

fn holds(alloc: Global, case: Case) -> Result<bool, NoMemory> {
    let network = sample(alloc, case.0)?;
    is_right(alloc, &network, case)
}

#[test]
fn journeys(rt: HostRuntime) -> Result<(), Fail> {
    for (i, case) in CASES.iter().enumerate() {
        assert!(rt; holds(rt.alloc(), *case)?, "case {i}");
    }
    Ok(())
}

fn key(entries: &[u32; 8]) -> Key {
    Key {
        arrive: u64::from(entries[0]),
        a2: entries[1],
        e: entries[2],
        trip: entries[3],
        ready: u64::from(entries[4]),
        y: entries[5],
        a1: entries[6],
        c: entries[7],
    }
}

// Entries that are greater than 5 but equal before the first that is less.
fn less_at(first: usize) -> [u32; 8]
    requires { first < 8 }
{
    let mut less = [9; 8];
    for before in 0..first {
        less[before] = 5;
    }
    less[first] = 4;
    less
}

// Whether two keys are less than one another, each than the other.
fn order_of(one: &[u32; 8], other: &[u32; 8]) -> (bool, bool) {
    let (one, other) = (key(one), key(other));
    (key_less(&one, &other), key_less(&other, &one))
}

// The first entry that differs decides, whatever stands behind it.
#[test]
fn keys(rt: HostRuntime) {
    let equal = [5; 8];
    assert_eq!(rt; order_of(&equal, &equal), (false, false));
    for first in 0..8 {
        assert_eq!(rt; order_of(&less_at(first), &equal), (true, false), "{first}");
    }
}
