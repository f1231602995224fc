// The plain search over small networks, by hand.
use crate::samples::{T1, T2, T3, TripRow, network_of, trips_of};
use move_model::{Finding, Network, NoMemory, NodeNo};
use plain_search::*;
use std::alloc::Global;
use std::test::Fail;

// From A at 8:00 to B at 8:10, and from C at 8:15 to D at 8:30.
const TWO: [TripRow; 2] = [T1, T2];

// The same, and a later trip from A to B that is there earlier.
const EARLY: [TripRow; 3] = [T1, T3, T2];

// The same as at first, and a trip from A to D without a change.
const DIRECT: [TripRow; 3] = [T1, (0, 29100, 3, 30600), T2];

// The seconds of the walk between B and C, the vertices of the stops, and the trips.
type Day = (u32, [u32; 4], &'static [TripRow]);

// A day, the ends of a query, its departure and its limit, and its pairs: the arrival, the number of trips and that of
// walks of each.
type Row = (Day, (u32, u32, u32, u8), &'static [(u64, u8, usize)]);

const SAMPLE: Day = (240, [1, 2, 3, 4], &TWO);

const ROWS: [Row; 11] = [
    (SAMPLE, (1, 4, 28500, 2), &[(35700, 0, 1), (30600, 2, 3)]),
    (SAMPLE, (1, 4, 28500, 1), &[(35700, 0, 1)]),
    (SAMPLE, (1, 1, 28500, 2), &[(28500, 0, 1)]),
    (SAMPLE, (2, 1, 29520, 2), &[]),
    (SAMPLE, (2, 1, 29460, 2), &[(37800, 1, 2)]),
    (SAMPLE, (1, 4, 28801, 2), &[(36001, 0, 1)]),
    // just caught, just missed, at one vertex, passed, and without a change
    (
        (300, [1, 2, 3, 4], &TWO),
        (1, 4, 28500, 2),
        &[(35700, 0, 1), (30600, 2, 3)],
    ),
    (
        (301, [1, 2, 3, 4], &TWO),
        (1, 4, 28500, 2),
        &[(35700, 0, 1)],
    ),
    (
        (240, [1, 2, 2, 4], &TWO),
        (1, 4, 28500, 2),
        &[(35700, 0, 1), (30600, 2, 3)],
    ),
    (
        (360, [1, 2, 3, 4], &EARLY),
        (1, 4, 28500, 2),
        &[(35700, 0, 1), (30600, 2, 3)],
    ),
    (
        (240, [1, 2, 3, 4], &DIRECT),
        (1, 4, 28500, 2),
        &[(35700, 0, 1), (30600, 1, 2)],
    ),
];

fn day_of(alloc: Global, day: Day) -> Result<Network, NoMemory> {
    let (seconds, nodes, trips) = day;
    network_of(alloc, seconds, &nodes, trips_of(alloc, trips)?)
}

fn are_pairs(found: &[Finding], pairs: &[(u64, u8, usize)]) -> bool {
    for (finding, (arrive, trips, walks)) in found.iter().zip(pairs) {
        if finding.pair.arrive != *arrive
            || finding.pair.trips != *trips
            || finding.journey.walks.len() != *walks
        {
            return false;
        }
    }
    found.len() == pairs.len()
}

fn finds(alloc: Global, network: &Network, row: Row) -> Result<bool, NoMemory> {
    let (_, (from, to, depart, limit), pairs) = row;
    let found = point_findings(alloc, network, NodeNo(from), NodeNo(to), depart, limit)?;
    Ok(are_pairs(found.as_slice(), pairs))
}

fn gives(alloc: Global, row: Row) -> Result<bool, NoMemory> {
    let network = day_of(alloc, row.0)?;
    finds(alloc, &network, row)
}

#[test]
fn finds_the_pairs_of_samples(rt: HostRuntime) -> Result<(), Fail> {
    for (i, row) in ROWS.iter().enumerate() {
        assert!(rt; gives(rt.alloc(), *row)?, "row {i}");
    }
    Ok(())
}

fn are_distances(alloc: Global, network: &Network) -> Result<bool, NoMemory> {
    let row = distances(alloc, network, NodeNo(2))?;
    Ok(row.as_slice() == [None, None, Some(0), Some(240), None].as_slice())
}

fn are_arrivals(rows: &[ArrivalRow]) -> bool {
    let want = [None, Some(28500), Some(29400), Some(29640), Some(30600)];
    rows.len() == 3 && rows[2].as_slice() == want.as_slice()
}

fn gives_arrivals(alloc: Global, network: &Network) -> Result<bool, NoMemory> {
    let rows = earliest(alloc, network, NodeNo(1), 28500, 2)?;
    Ok(are_arrivals(rows.as_slice()))
}

// Whether the distances are right, and the earliest arrivals.
fn gives_rows(alloc: Global) -> Result<(bool, bool), NoMemory> {
    let network = day_of(alloc, SAMPLE)?;
    Ok((
        are_distances(alloc, &network)?,
        gives_arrivals(alloc, &network)?,
    ))
}

#[test]
fn finds_distances_and_arrivals(rt: HostRuntime) -> Result<(), Fail> {
    assert_eq!(rt; gives_rows(rt.alloc())?, (true, true));
    Ok(())
}
