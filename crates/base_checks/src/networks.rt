// The first fault of small networks.
ghost use Rattle.std.specs.Prelude.{◌≡◌, ◌<◌, ◌-◌, ◌^◌, length, All, IfOk};

use move_model::{Arc, Call, List, NetFault, Network, NodeNo, Stop, StopNo, Trip};
use std::alloc::{AllocError, Global};
use std::test::Fail;

fn call(stop: u32, arr: u32, dep: u32) -> Call {
    Call {
        stop: StopNo(stop),
        arr,
        dep,
        board: true,
        alight: true,
    }
}

fn stop(alloc: Global, node: u32) -> Stop {
    Stop {
        node: NodeNo(node),
        name: List::new(alloc),
    }
}

fn trip(alloc: Global, calls: &[Call]) -> Result<Trip, AllocError>
    ensures { IfOk result (λ trip. trip.calls ≡ calls.now) }
{
    Ok(Trip {
        name: List::new(alloc),
        calls: List::from_slice(alloc, calls)?,
    })
}

// Two vertices, a stop at each, an arc, and two trips.
fn network(alloc: Global, first: &[Call], second: &[Call]) -> Result<Network, AllocError>
    requires first { length first.now < 9 }
    requires second { length second.now < 9 }
    ensures arcs { IfOk result (λ n. length n.arcs < 9) }
    ensures stops { IfOk result (λ n. length n.stops < 9) }
    ensures trips { IfOk result (λ n. length n.trips < 9) }
    ensures calls { IfOk result (λ n. All (λ trip. length trip.calls < 2 ^ 32 - 1) n.trips) }
{
    let arc = Arc {
        from: NodeNo(1),
        to: NodeNo(2),
        seconds: 240,
    };
    let mut stops = List::new(alloc);
    stops.push(stop(alloc, 1))?;
    stops.push(stop(alloc, 2))?;
    let mut trips = List::new(alloc);
    trips.push(trip(alloc, first)?)?;
    trips.push(trip(alloc, second)?)?;
    Ok(Network {
        nodes: 2,
        arcs: List::from_slice(alloc, &[arc])?,
        stops,
        trips,
        buffer: 0,
    })
}

#[test]
fn names_the_first_fault(rt: HostRuntime) -> Result<(), Fail> {
    let alloc = rt.alloc();
    let early = [call(0, 100, 100), call(1, 200, 200)];
    let late = [call(0, 100, 100), call(1, 201, 201)];
    let short = [call(0, 100, 100)];
    let stray = [call(0, 100, 100), call(2, 200, 200)];
    let falls = [call(0, 100, 101), call(1, 100, 200)];
    let past = [call(0, 100, 100), call(1, 200, 3_600_000)];
    let rows: [(&[Call], &[Call], Result<(), NetFault>); 7] = [
        (&early, &late, Ok(())),
        (&early, &early, Ok(())),
        (&late, &early, Err(NetFault::TripOrder(1))),
        (&early, &short, Err(NetFault::TripShort(1))),
        (&stray, &falls, Err(NetFault::CallStop(0, 1))),
        (&falls, &late, Err(NetFault::CallTimes(0, 1))),
        (&early, &past, Err(NetFault::CallTimes(1, 1))),
    ];
    for (first, second, fault) in rows {
        assert!(rt; first.len() < 9 && second.len() < 9);
        let network = network(alloc, first, second)?;
        assert_eq!(rt; network.check(), fault);
    }
    Ok(())
}
