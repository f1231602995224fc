// The sample: two trips that a walk joins, and a long walk.
use move_model::{
    Arc, Call, Finding, Journey, List, Name, Network, NoMemory, NodeNo, Pair, Place, Ride,
    SpanFinding, SpanFindings, Stop, StopNo, Trip, TripNo,
};
use range_print::RangeAnswer;
use std::alloc::Global;

fn arc(from: u32, to: u32, seconds: u32) -> Arc {
    Arc {
        from: NodeNo(from),
        to: NodeNo(to),
        seconds,
    }
}

fn call(stop: u32, second: u32) -> Call {
    Call {
        stop: StopNo(stop),
        arr: second,
        dep: second,
        board: true,
        alight: true,
    }
}

/// Stops A to D stand at vertices 1 to 4. Trip t1 leaves A at 08:00 and reaches B at 08:10, trip t2 leaves C at 08:15 and
/// reaches D at 08:30. It is four minutes on foot from B to C, and two hours from A to D.
pub fn network(alloc: Global) -> Result<Network, NoMemory> {
    let mut stops = List::new(alloc);
    for (node, word) in [(1, b"A"), (2, b"B"), (3, b"C"), (4, b"D")] {
        let name = Name::from_slice(alloc, word)?;
        stops.push(Stop {
            node: NodeNo(node),
            name,
        })?;
    }
    let mut trips = List::new(alloc);
    for (word, calls) in [
        (b"t1", [call(0, 28800), call(1, 29400)]),
        (b"t2", [call(2, 29700), call(3, 30600)]),
    ] {
        let name = Name::from_slice(alloc, word)?;
        let calls = List::from_slice(alloc, &calls)?;
        trips.push(Trip { name, calls })?;
    }
    let arcs = [
        arc(2, 3, 240),
        arc(3, 2, 240),
        arc(1, 4, 7200),
        arc(4, 1, 7200),
    ];
    Ok(Network {
        nodes: 4,
        arcs: List::from_slice(alloc, &arcs)?,
        stops,
        trips,
        buffer: 0,
    })
}

fn place(alloc: Global, node: u32, word: &[u8]) -> Result<Place, NoMemory> {
    let word = Name::from_slice(alloc, word)?;
    Ok(Place {
        node: NodeNo(node),
        word,
    })
}

fn ride(trip: u32) -> Ride {
    Ride {
        trip: TripNo(trip),
        board: 0,
        alight: 1,
    }
}

fn journey(
    alloc: Global,
    depart: u32,
    walks: &[&[NodeNo]],
    rides: &[Ride],
) -> Result<Journey, NoMemory> {
    let mut all = List::new(alloc);
    for walk in walks {
        let walk = List::from_slice(alloc, walk)?;
        all.push(walk)?;
    }
    Ok(Journey {
        depart,
        walks: all,
        rides: List::from_slice(alloc, rides)?,
    })
}

// The walk from A to D that leaves at 07:00.
fn foot(alloc: Global) -> Result<Finding, NoMemory> {
    let journey = journey(alloc, 25200, &[&[NodeNo(1), NodeNo(4)]], &[])?;
    let pair = Pair {
        arrive: 32400,
        trips: 0,
    };
    Ok(Finding { pair, journey })
}

// Both rides, from 08:00 on, which are best from 07:00 to 08:00.
fn span(alloc: Global) -> Result<SpanFinding, NoMemory> {
    let journey = journey(
        alloc,
        28800,
        &[&[NodeNo(1)], &[NodeNo(2), NodeNo(3)], &[NodeNo(4)]],
        &[ride(0), ride(1)],
    )?;
    let pair = Pair {
        arrive: 30600,
        trips: 2,
    };
    Ok(SpanFinding {
        first: 25200,
        last: 28800,
        finding: Finding { pair, journey },
    })
}

fn foot_or_none(alloc: Global, walks: bool) -> Result<Option<Finding>, NoMemory> {
    if !walks {
        return Ok(None);
    }
    let foot = foot(alloc)?;
    Ok(Some(foot))
}

fn spans(alloc: Global, rides: bool) -> Result<SpanFindings, NoMemory> {
    let mut spans = SpanFindings::new(alloc);
    if rides {
        spans.push(span(alloc)?)?;
    }
    Ok(spans)
}

/// From A to D between 07:00 and 09:00: the walk, or the rides, or both, or nothing.
pub fn answer(alloc: Global, walks: bool, rides: bool) -> Result<RangeAnswer, NoMemory> {
    let foot = foot_or_none(alloc, walks)?;
    let spans = spans(alloc, rides)?;
    let from = place(alloc, 1, b"node:1")?;
    let to = place(alloc, 4, b"node:4")?;
    Ok(RangeAnswer {
        from,
        to,
        first: 25200,
        last: 32400,
        foot,
        spans,
    })
}
