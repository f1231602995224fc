// Rows of distances between stops.
use crate::sample::{core_of, network_of};
use move_model::{Network, StopNo};
use std::alloc::Global;
use std::test::Fail;
use stop_rows::{NEVER, StopRows};

fn rows_of(alloc: Global, network: &Network) -> Option<StopRows> {
    if network.arcs.len() > 100 || network.stops.len() > 100 || !network.trips.is_empty() {
        return None;
    }
    let Ok(()) = network.check() else {
        return None;
    };
    let Ok(Some(core)) = core_of(alloc, network) else {
        return None;
    };
    let Ok(rows) = StopRows::new(alloc, network, &core) else {
        return None;
    };
    Some(rows)
}

// The row of a stop, or none where there is no such stop.
fn row_of(rows: &StopRows, stop: u32) -> &[u32] {
    if stop < rows.stops() {
        rows.row(rows.place(StopNo(stop)))
    } else {
        &[]
    }
}

// The stops at the vertex of a stop, or none where there is no such stop.
fn beside(rows: &StopRows, stop: u32) -> &[StopNo] {
    if stop < rows.stops() {
        rows.stops_at(rows.place(StopNo(stop)))
    } else {
        &[]
    }
}

#[test]
fn has_a_row_for_each_vertex_with_a_stop(rt: HostRuntime) -> Result<(), Fail> {
    // Stops at the vertices 5, 2, 5 and 4; the vertex 4 can be left and not reached.
    let arcs = [(2, 3, 100), (3, 5, 20), (5, 2, 70), (4, 2, 0), (2, 5, 130)];
    let network = network_of(rt.alloc(), 5, &arcs, &[5, 2, 5, 4])?;
    let rows = rows_of(rt.alloc(), &network).ok_or("no rows")?;
    assert_eq!(rt; rows.places(), 3);
    assert_eq!(rt; row_of(&rows, 1), [0, NEVER, 120].as_slice());
    assert_eq!(rt; row_of(&rows, 3), [0, 0, 120].as_slice());
    assert_eq!(rt; row_of(&rows, 0), [70, NEVER, 0].as_slice());
    assert_eq!(rt; row_of(&rows, 2), [70, NEVER, 0].as_slice());
    assert_eq!(rt; beside(&rows, 2), [StopNo(0), StopNo(2)].as_slice());
    assert_eq!(rt; beside(&rows, 3), [StopNo(3)].as_slice());
    Ok(())
}

#[test]
fn has_no_walk_past_the_last_second(rt: HostRuntime) -> Result<(), Fail> {
    // 3,599,999 seconds from 1 to 5, and one more from 1 to 6.
    let long = 1_000_000;
    let arcs = [
        (1, 2, long),
        (2, 3, long),
        (3, 4, long),
        (4, 5, 599_999),
        (5, 6, 1),
    ];
    let network = network_of(rt.alloc(), 6, &arcs, &[1, 5, 6])?;
    let rows = rows_of(rt.alloc(), &network).ok_or("no rows")?;
    assert_eq!(rt; row_of(&rows, 0), [0, 3_599_999, NEVER].as_slice());
    assert_eq!(rt; row_of(&rows, 1), [NEVER, 0, 1].as_slice());
    Ok(())
}
