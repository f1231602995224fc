// Labels that spread over a core.
ghost use Rattle.std.specs.Prelude.{◌≡◌, ◌+◌, length};
ghost use Rattle.core_search.specs.Spread.{StandInCore, AreShort};

use crate::sample::{core_of, network_of};
use core_search::{Label, Labels, Rest, SpreadWork, spread};
use move_model::{Network, NodeNo};
use std::alloc::Global;
use std::test::Fail;
use walk_core::Core;

fn label(seconds: u64, a: u32, c: u32) -> Label {
    let rest = Rest {
        a,
        b: 0,
        trip: 0,
        ready: 0,
        y: 0,
        a1: 0,
        c,
    };
    Label { seconds, rest }
}

// Puts a label at a vertex of the core.
fn put(core: &Core, labels: &mut Labels, at: u32, label: Label)
    requires fits { length labels.old ≡ core.now.nodes + 1 }
    requires in_core { StandInCore core.now labels.old }
    requires short { AreShort labels.old }
    ensures fits { length labels.new ≡ length labels.old }
    ensures in_core { StandInCore core.now labels.new }
    ensures short { AreShort labels.new }
{
    if core.holds(NodeNo(at)) && label.seconds <= 4_000_000_000_000 {
        labels.set(NodeNo(at), Some(label));
    }
}

// The labels at the vertices from 1 on, after labels at two vertices were spread.
fn spread_two(
    alloc: Global,
    network: &Network,
    one: (u32, Label),
    two: (u32, Label),
) -> Option<Vec<Option<Label>>> {
    if network.arcs.len() > 100 || network.stops.len() > 100 || !network.trips.is_empty() {
        return None;
    }
    let Ok(()) = network.check() else {
        return None;
    };
    let Ok(Some(core)) = core_of(alloc, network) else {
        return None;
    };
    let Ok(mut labels) = Labels::new(alloc, core.nodes()) else {
        return None;
    };
    let Ok(mut work) = SpreadWork::new(alloc, core.nodes()) else {
        return None;
    };
    put(&core, &mut labels, one.0, one.1);
    put(&core, &mut labels, two.0, two.1);
    spread(&core, &mut labels, &mut work);
    all(alloc, &labels)
}

// The label of each vertex.
fn all(alloc: Global, labels: &Labels) -> Option<Vec<Option<Label>>> {
    let mut list = Vec::new(alloc);
    for v in 0..labels.nodes() {
        let Ok(()) = list.push(labels.get(NodeNo(v + 1))) else {
            return None;
        };
    }
    Some(list)
}

#[test]
fn leaves_the_seconds_of_walks(rt: HostRuntime) -> Result<(), Fail> {
    let arcs = [(2, 3, 240), (3, 2, 240), (1, 4, 7200), (4, 1, 7200)];
    let network = network_of(rt.alloc(), 4, &arcs, &[1, 2, 3, 4])?;
    let found = spread_two(
        rt.alloc(),
        &network,
        (2, label(100, 0, 0)),
        (9, label(0, 0, 0)),
    )
    .ok_or("no core")?;
    let want = [None, Some(label(100, 0, 0)), Some(label(340, 0, 0)), None];
    assert_eq!(rt; found.as_slice(), want.as_slice());
    Ok(())
}

#[test]
fn leaves_the_lesser_rest_of_equal_seconds(rt: HostRuntime) -> Result<(), Fail> {
    // The vertex 3 lies between 1 and 2, and is contracted where no stop stands there.
    let arcs = [(1, 3, 5), (3, 2, 7), (2, 3, 5), (3, 1, 7), (3, 4, 0)];
    let network = network_of(rt.alloc(), 4, &arcs, &[1, 2, 4])?;
    let found = spread_two(
        rt.alloc(),
        &network,
        (1, label(10, 4, 8)),
        (2, label(10, 4, 7)),
    )
    .ok_or("no core")?;
    let want = [
        Some(label(10, 4, 8)),
        Some(label(10, 4, 7)),
        None,
        Some(label(15, 4, 7)),
    ];
    assert_eq!(rt; found.as_slice(), want.as_slice());
    let found = spread_two(
        rt.alloc(),
        &network,
        (1, label(10, 4, 8)),
        (4, label(16, 0, 0)),
    )
    .ok_or("no core")?;
    let want = [
        Some(label(10, 4, 8)),
        Some(label(22, 4, 8)),
        None,
        Some(label(15, 4, 8)),
    ];
    assert_eq!(rt; found.as_slice(), want.as_slice());
    Ok(())
}

#[test]
fn forgets_what_is_cleared(rt: HostRuntime) -> Result<(), Fail> {
    let mut labels = Labels::new(rt.alloc(), 3)?;
    assert_eq!(rt; labels.get(NodeNo(3)), None);
    labels.set(NodeNo(3), Some(label(1, 2, 3)));
    labels.set(NodeNo(1), Some(label(4, 5, 6)));
    labels.set(NodeNo(3), None);
    assert_eq!(rt; labels.get(NodeNo(3)), None);
    assert_eq!(rt; labels.get(NodeNo(1)), Some(label(4, 5, 6)));
    labels.clear();
    assert_eq!(rt; labels.get(NodeNo(1)), None);
    Ok(())
}
