// Routes of small days, by rows worked by hand and against a plain split.
ghost use Rattle.std.specs.Prelude.{◌≡◌, ◌<◌, ◌^◌, length, replicate, false, IfOk};
ghost use Rattle.route_split.specs.Route.{IsRoute, NeverFalls};

use crate::samples::{T1, T2, T3, TripRow, network_of, table_of, trip_of, trips_of};
use move_model::{Call, Network, NoMemory, StopNo, Trip, Trips};
use route_split::*;
use std::alloc::Global;
use std::marker::Brand;
use std::sync::ledger::{Blank, Ledger};
use std::test::Fail;
use steps::Steps;

/// A route and a trip in it, both by their numbers.
type Member = (u32, u32);

// Trips over two stops with few seconds, in their order: many tie, many overtake, and their flags differ.
fn generated(alloc: Global, seed: u32) -> Result<Trips, NoMemory> {
    let mut trips = Trips::new(alloc);
    let mut state = seed;
    for code in 0..768u32 {
        state = state.wrapping_mul(1_664_525).wrapping_add(1_013_904_223);
        let seconds = code / 3;
        let first = Call {
            stop: StopNo(state / 65_536 % 2),
            arr: seconds / 64,
            dep: 4 + seconds / 16 % 4,
            board: state / 131_072 % 4 > 0,
            alight: true,
        };
        let second = Call {
            stop: StopNo(2),
            arr: 8 + seconds / 4 % 4,
            dep: 12 + seconds % 4,
            board: true,
            alight: true,
        };
        if state / 1_048_576 % 3 == 0 {
            trips.push(trip_of(alloc, first, second)?)?;
        }
    }
    Ok(trips)
}

// The rows of a route, opened with marks of their own.
fn opened<'a, L: Ledger>(
    alloc: Global,
    table: &'a Timetable,
    route: u32,
    opens: Blank,
) -> Result<RouteRows<'a>, NoMemory>
    requires exists { route < length table.now.routes }
    requires name { opens.name ≡ L.name }
    requires parts { opens.parts ≡ L.parts }
    requires some { 0 < opens.parts }
    ensures whole { IfOk result (IsRoute table.now.stops) }
{
    let mut marks = RoundMarks::new(alloc, table)?;
    let mut opens = Steps::<L>::new(opens);
    Ok(table.open_route(route, &mut marks, &mut opens))
}

// The trips of all routes, by route and row.
fn members(alloc: Global, table: &Timetable) -> Result<Vec<Member>, NoMemory> {
    let mut members = Vec::new(alloc);
    for route in 0..table.routes() {
        let rows = opened::<Brand>(alloc, table, route, Blank::new(1))?;
        if rows.calls() > 0 {
            for row in 0..rows.departs(0).len() {
                members.push((route, rows.trip(row).0))?;
            }
        }
    }
    Ok(members)
}

// Whether a trip has the places of another one and is everywhere at or before it.
fn stands_before(trip: &Trip, next: &Trip) -> bool {
    let cs = trip.calls.as_slice();
    let ds = next.calls.as_slice();
    let mut before = cs.len() == ds.len();
    for k in 0..cs.len().min(ds.len()) {
        let (c, d) = (cs[k], ds[k]);
        let same = c.stop == d.stop && c.board == d.board && c.alight == d.alight;
        before = before && same && c.arr <= d.arr && c.dep <= d.dep;
    }
    before
}

// Each trip behind the last trip of the newest group that lets it stand there, or in a group of its own.
fn plain_groups(alloc: Global, trips: &[Trip]) -> Result<Vec<Vec<u32>>, NoMemory>
    requires { length trips.now < 2 ^ 32 }
{
    let mut groups: Vec<Vec<u32>> = Vec::new(alloc);
    for u in 0..trips.len() {
        let mut home = groups.len();
        for g in 0..groups.len() {
            if let Some(last) = groups[g].last()
                && let Some(trip) = trips.get(*last as usize)
                && stands_before(trip, &trips[u])
            {
                home = g;
            }
        }
        if home == groups.len() {
            groups.push(Vec::new(alloc))?;
        }
        if let Some(group) = groups.get_mut(home) {
            group.push(u as u32)?;
        }
    }
    Ok(groups)
}

// The members of groups, by group and place.
fn flattened(alloc: Global, groups: &[Vec<u32>]) -> Result<Vec<Member>, NoMemory>
    requires { length groups.now < 2 ^ 32 }
{
    let mut members = Vec::new(alloc);
    for g in 0..groups.len() {
        for t in groups[g].as_slice() {
            members.push((g as u32, *t))?;
        }
    }
    Ok(members)
}

fn are_members(alloc: Global, table: &Timetable, want: &[Member]) -> Result<bool, NoMemory> {
    let got = members(alloc, table)?;
    Ok(got.as_slice() == want)
}

fn are_groups(alloc: Global, table: &Timetable, groups: &[Vec<u32>]) -> Result<bool, NoMemory> {
    if groups.len() <= 20 || groups.len() >= 100 {
        return Ok(false);
    }
    let want = flattened(alloc, groups)?;
    are_members(alloc, table, want.as_slice())
}

// Whether a table has many trips, and the groups of a plain split.
fn is_plain(alloc: Global, table: &Timetable, trips: &[Trip]) -> Result<bool, NoMemory> {
    if trips.len() <= 200 || trips.len() >= 1000 {
        return Ok(false);
    }
    let groups = plain_groups(alloc, trips)?;
    are_groups(alloc, table, groups.as_slice())
}

fn is_split(alloc: Global, network: &Network) -> Result<Option<bool>, NoMemory> {
    let Some(table) = table_of(alloc, network, 0)? else {
        return Ok(None);
    };
    Ok(Some(is_plain(alloc, &table, network.trips.as_slice())?))
}

// None where the generated day breaks a rule.
fn splits(alloc: Global, seed: u32) -> Result<Option<bool>, NoMemory> {
    let network = network_of(alloc, 240, &[1, 2, 3, 4], generated(alloc, seed)?)?;
    is_split(alloc, &network)
}

#[test]
fn splits_as_a_plain_split(rt: HostRuntime) -> Result<(), Fail> {
    for seed in [1, 2, 3] {
        assert_eq!(rt;
            splits(rt.alloc(), seed)?,
            Some(true),
            "with the seed {seed}"
        );
    }
    Ok(())
}

const DAYS: [(&[TripRow], &[Member]); 3] = [
    (&[T1, T2], &[(0, 0), (1, 1)]),
    (&[T1, T3, T2], &[(0, 0), (1, 1), (2, 2)]),
    (&[T1, T1, T2], &[(0, 0), (0, 1), (1, 2)]),
];

fn has_members(
    alloc: Global,
    network: &Network,
    want: &[Member],
) -> Result<Option<bool>, NoMemory> {
    let Some(table) = table_of(alloc, network, 0)? else {
        return Ok(None);
    };
    Ok(Some(are_members(alloc, &table, want)?))
}

// None where the day breaks a rule.
fn gives(alloc: Global, rows: &[TripRow], want: &[Member]) -> Result<Option<bool>, NoMemory> {
    let network = network_of(alloc, 240, &[1, 2, 3, 4], trips_of(alloc, rows)?)?;
    has_members(alloc, &network, want)
}

#[test]
fn splits_a_trip_that_overtakes(rt: HostRuntime) -> Result<(), Fail> {
    for (i, (rows, want)) in DAYS.iter().enumerate() {
        assert_eq!(rt; gives(rt.alloc(), rows, want)?, Some(true), "day {i}");
    }
    Ok(())
}

fn catches(departs: &[u32]) -> [Option<usize>; 4]
    requires { NeverFalls departs.now }
{
    [
        catch(departs, 0),
        catch(departs, 28800),
        catch(departs, 28801),
        catch(departs, u64::MAX),
    ]
}

// Whether a route has the rows of the first trip of the sample.
fn are_rows(rows: &RouteRows, stops: u32) -> bool
    requires { IsRoute stops rows.now }
{
    rows.calls() == 2
        && rows.arrives(1) == [29400].as_slice()
        && rows.departs(1) == [29400].as_slice()
        && rows.stop(1) == StopNo(1)
        && rows.board(1)
        && rows.alight(1)
        && rows.departs(0) == [28800].as_slice()
        && catches(rows.departs(0)) == [Some(0), Some(0), None, None]
}

// Whether the marks tell that the first route is opened until they are cleared, and whether its rows are right.
fn opens_first<L: Ledger>(
    table: &Timetable,
    marks: &mut RoundMarks,
    opens: Blank,
) -> (bool, bool, bool, bool)
    requires two { length table.now.routes ≡ 2 }
    requires marks { marks.old ≡ replicate 2 false }
    requires name { opens.name ≡ L.name }
    requires parts { opens.parts ≡ L.parts }
    requires some { 0 < opens.parts }
{
    let mut opens = Steps::<L>::new(opens);
    let rows = table.open_route(0, marks, &mut opens);
    let (first, second) = (marks.marked(0), marks.marked(1));
    marks.clear();
    (
        first,
        second,
        marks.marked(0),
        are_rows(&rows, table.stops()),
    )
}

fn lends(alloc: Global, table: &Timetable) -> Result<(bool, bool, bool, bool), NoMemory>
    requires { length table.now.routes ≡ 2 }
{
    let mut marks = RoundMarks::new(alloc, table)?;
    Ok(opens_first::<Brand>(table, &mut marks, Blank::new(1)))
}

// Whether a table has the routes, the stops, the buffer and the calls of the sample.
fn is_sample(table: &Timetable) -> bool
    requires { table.now.stops ≡ 4 }
{
    table.routes() == 2
        && table.buffer() == 60
        && table.at_stop(StopNo(1)) == [RouteCall { route: 0, call: 1 }].as_slice()
}

type Lent = Option<(bool, bool, bool, bool)>;

// None where the sample breaks a rule, or its table has other routes.
fn lends_in(alloc: Global, network: &Network) -> Result<Lent, NoMemory> {
    let Some(table) = table_of(alloc, network, 60)? else {
        return Ok(None);
    };
    if !is_sample(&table) || table.routes() != 2 {
        return Ok(None);
    }
    Ok(Some(lends(alloc, &table)?))
}

fn lends_in_sample(alloc: Global) -> Result<Lent, NoMemory> {
    let network = network_of(alloc, 240, &[1, 2, 3, 4], trips_of(alloc, &[T1, T2])?)?;
    lends_in(alloc, &network)
}

#[test]
fn lends_the_rows_of_the_sample(rt: HostRuntime) -> Result<(), Fail> {
    let lent = lends_in_sample(rt.alloc())?;
    assert_eq!(rt; lent, Some((true, false, false, true)));
    Ok(())
}
