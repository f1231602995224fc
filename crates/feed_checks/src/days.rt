// Worked rows: calendars, frequencies, night trips and refusals, over feeds of two stops and one service.
ghost use Rattle.std.specs.Prelude.{◌≡◌, ◌≤◌, ◌<◌, ◌-◌, ◌^◌, All, IfOk, IsTrue, length};
ghost use Rattle.std.specs.List.Sorted.{IsNonDecreasingBy};
ghost use Rattle.service_day.specs.Day.{IsDay};
ghost use Rattle.gtfs_feed.specs.Feed.{IsFeed, IsFeedTrip, IsCopyRow, IsId};
ghost use Rattle.feed_checks.specs.Kept.{Goes, EndsInTime, IsStopNamed};

use gtfs_feed::{CopyRow, CopyRows, Feed, FeedStop, FeedTrip, FeedTrips, Service};
use move_model::{
    Call, Calls, Cause, FileKind, List, NoMemory, Refusal, StopNo, Stopped, Trip, Trips,
};
use service_day::{ServiceSet, active, active_before, expand};
use std::alloc::Global;
use std::test::Fail;

const LAST_SECOND: u32 = 3_599_999;

/// A call: its stop, and the seconds of its arrival and its departure.
type CallRow = (u32, u32, u32);

fn call(stop: u32, arr: u32, dep: u32) -> Call {
    Call {
        stop: StopNo(stop),
        arr,
        dep,
        board: true,
        alight: true,
    }
}

// Whether calls are those of a trip over two stops.
fn goes(calls: &[Call]) -> bool
    ensures { IsTrue result → Goes calls.now }
{
    if calls.len() < 2 || calls.len() >= 100 {
        return false;
    }
    for i in 0..calls.len() {
        let call = calls[i];
        if call.stop.0 > 1 || call.arr > call.dep || call.dep > LAST_SECOND {
            return false;
        }
        if i > 0 && calls[i - 1].dep > call.arr {
            return false;
        }
    }
    true
}

// A trip of the one service.
fn feed_trip(alloc: Global, calls: &[Call]) -> Result<FeedTrip, NoMemory>
    requires { Goes calls.now }
    ensures trip { IfOk result (IsFeedTrip 2 1) }
    ensures few { IfOk result (λ trip. length trip.calls < 100) }
{
    Ok(FeedTrip {
        name: List::from_slice(alloc, b"t")?,
        service: Some(0),
        calls: List::from_slice(alloc, calls)?,
    })
}

// Whether the copies of a trip by a row end within a day's last second.
fn fits(row: CopyRow, calls: &[Call]) -> bool
    requires some { 0 < length calls.now }
    requires rising { IsNonDecreasingBy (λ call. call.dep) calls.now }
    ensures { IsTrue result → EndsInTime calls.now row }
{
    let travel = u64::from(calls[calls.len() - 1].dep - calls[0].dep);
    row.start <= LAST_SECOND
        && row.end <= LAST_SECOND
        && row.headway >= 1
        && u64::from(row.end) + travel <= u64::from(LAST_SECOND) + 1
}

fn stop(alloc: Global, name: u8, row: u32) -> Result<FeedStop, NoMemory>
    requires { (1 ≤ row) × (row ≤ 2) }
    ensures { IfOk result (IsStopNamed name) }
{
    Ok(FeedStop {
        name: List::from_slice(alloc, &[name])?,
        lat: None,
        lon: None,
        row,
    })
}

fn service(
    alloc: Global,
    days: [bool; 7],
    first: u32,
    last: u32,
    added: &[u32],
    removed: &[u32],
) -> Result<Service, NoMemory>
    ensures { IfOk result (λ service. IsId service.name) }
{
    Ok(Service {
        name: List::from_slice(alloc, b"w")?,
        days,
        first,
        last,
        added: List::from_slice(alloc, added)?,
        removed: List::from_slice(alloc, removed)?,
    })
}

fn calls_of(alloc: Global, rows: &[CallRow]) -> Result<Calls, NoMemory> {
    let mut calls = Calls::new(alloc);
    for (stop, arr, dep) in rows {
        calls.push(call(*stop, *arr, *dep))?;
    }
    Ok(calls)
}

fn trip_of(alloc: Global, rows: &[CallRow]) -> Result<FeedTrip, Fail>
    ensures trip { IfOk result (IsFeedTrip 2 1) }
    ensures few { IfOk result (λ trip. length trip.calls < 100) }
{
    let calls = calls_of(alloc, rows)?;
    if !goes(calls.as_slice()) {
        return Err(Fail::new("calls"));
    }
    Ok(feed_trip(alloc, calls.as_slice())?)
}

fn feed_trips(alloc: Global, trips: &[&[CallRow]]) -> Result<FeedTrips, Fail>
    requires { length trips.now < 100 }
    ensures trips { IfOk result (All (IsFeedTrip 2 1)) }
    ensures few { IfOk result (All (λ trip. length trip.calls < 100)) }
    ensures count { IfOk result (λ list. length list ≡ length trips.now) }
{
    let mut list = List::new(alloc);
    for calls in trips {
        list.push(trip_of(alloc, calls)?)?;
    }
    Ok(list)
}

fn copy_rows(alloc: Global, rows: &[CopyRow], trips: &[FeedTrip]) -> Result<CopyRows, Fail>
    requires rows { length rows.now < 100 }
    requires trips { All (IsFeedTrip 2 1) trips.now }
    ensures rows { IfOk result (All (IsCopyRow trips.now)) }
    ensures count { IfOk result (λ list. length list ≡ length rows.now) }
{
    let mut list = List::new(alloc);
    for row in rows {
        let place = row.trip as usize;
        if place >= trips.len() || trips[place].calls.is_empty() {
            return Err(Fail::new("trip"));
        }
        if !fits(*row, trips[place].calls.as_slice()) {
            return Err(Fail::new("row"));
        }
        list.push(*row)?;
    }
    Ok(list)
}

// A feed of two stops, a service and these trips and rows.
fn feed(alloc: Global, trips: &[&[CallRow]], rows: &[CopyRow]) -> Result<Feed, Fail>
    requires trips { length trips.now < 100 }
    requires rows { length rows.now < 100 }
    ensures feed { IfOk result IsFeed }
    ensures services { IfOk result (λ feed. length feed.services ≡ 1) }
    ensures calls { IfOk result (λ feed. All (λ trip. length trip.calls < 2 ^ 32 - 1) feed.trips) }
{
    let mut stops = List::new(alloc);
    stops.push(stop(alloc, b'A', 1)?)?;
    stops.push(stop(alloc, b'B', 2)?)?;
    let mut services = List::new(alloc);
    services.push(service(alloc, [true; 7], 20250101, 20251231, &[], &[])?)?;
    let trips = feed_trips(alloc, trips)?;
    let copies = copy_rows(alloc, rows, trips.as_slice())?;
    Ok(Feed {
        stops,
        services,
        trips,
        copies,
    })
}

// A feed of one service and no trips.
fn calendar(alloc: Global, service: Service) -> Result<Feed, NoMemory> {
    let mut services = List::new(alloc);
    services.push(service)?;
    Ok(Feed {
        stops: List::new(alloc),
        services,
        trips: List::new(alloc),
        copies: List::new(alloc),
    })
}

// Whether the one service of a feed runs on a day.
fn runs_on(alloc: Global, feed: &Feed, day: u32) -> Result<bool, Fail>
    requires { IsDay day }
{
    let set = active(alloc, feed, day)?;
    match set.as_slice() {
        [runs] => Ok(*runs),
        _ => Err(Fail::new("one service")),
    }
}

// Whether the one service of a feed runs on the day before.
fn runs_before(alloc: Global, feed: &Feed, day: u32) -> Result<bool, Fail>
    requires { IsDay day }
{
    let set = active_before(alloc, feed, day)?;
    match set.as_slice() {
        [runs] => Ok(*runs),
        _ => Err(Fail::new("one service")),
    }
}

// Weekdays from Monday, the first and the last day, and days added and removed; whether a service with these runs on
// Monday 3 March 2025, and on the day before.
type ServiceRow = (
    [bool; 7],
    u32,
    u32,
    &'static [u32],
    &'static [u32],
    [bool; 2],
);

const NONE: [bool; 7] = [false, false, false, false, false, false, false];

const MONDAY: [bool; 7] = [true, false, false, false, false, false, false];

const SUNDAY: [bool; 7] = [false, false, false, false, false, false, true];

const SERVICES: [ServiceRow; 9] = [
    (NONE, 0, 0, &[], &[], [false, false]),
    (NONE, 20250101, 20251231, &[20250303], &[], [true, false]),
    (MONDAY, 20250101, 20251231, &[], &[], [true, false]),
    (MONDAY, 20250101, 20251231, &[], &[20250303], [false, false]),
    (MONDAY, 20250303, 20250303, &[], &[], [true, false]),
    (MONDAY, 20250304, 20251231, &[], &[], [false, false]),
    (MONDAY, 20250101, 20250302, &[], &[], [false, false]),
    (SUNDAY, 20250101, 20251231, &[], &[], [false, true]),
    (NONE, 0, 0, &[20250302], &[20250303], [false, true]),
];

fn calendar_of(alloc: Global, row: ServiceRow) -> Result<Feed, NoMemory> {
    let (days, first, last, added, removed, _) = row;
    calendar(alloc, service(alloc, days, first, last, added, removed)?)
}

fn runs(alloc: Global, row: ServiceRow) -> Result<[bool; 2], Fail> {
    let feed = calendar_of(alloc, row)?;
    Ok([
        runs_on(alloc, &feed, 20250303)?,
        runs_before(alloc, &feed, 20250303)?,
    ])
}

#[test]
fn runs_by_calendar_and_exceptions(rt: HostRuntime) -> Result<(), Fail> {
    for (i, row) in SERVICES.iter().enumerate() {
        assert_eq!(rt; runs(rt.alloc(), *row)?, row.5, "row {i}");
    }
    Ok(())
}

// Whether a service runs on the days before these, over the ends of months and years.
fn days_before(alloc: Global, feed: &Feed) -> Result<[bool; 5], Fail> {
    Ok([
        runs_before(alloc, feed, 20250301)?,
        runs_before(alloc, feed, 20240301)?,
        runs_before(alloc, feed, 20250101)?,
        runs_before(alloc, feed, 102)?,
        runs_before(alloc, feed, 101)?,
    ])
}

fn days_before_added(alloc: Global, added: &'static [u32]) -> Result<[bool; 5], Fail> {
    let feed = calendar_of(alloc, (NONE, 0, 0, added, &[], [false, false]))?;
    days_before(alloc, &feed)
}

#[test]
fn runs_on_the_day_before(rt: HostRuntime) -> Result<(), Fail> {
    let runs = days_before_added(rt.alloc(), &[20250228, 20240229, 20241231, 101])?;
    assert_eq!(rt; runs, [true, true, true, true, false]);
    Ok(())
}

fn set(alloc: Global, runs: bool) -> Result<ServiceSet, NoMemory>
    ensures { IfOk result (λ set. length set ≡ 1) }
{
    List::from_slice(alloc, &[runs])
}

fn are_calls(calls: &[Call], rows: &[CallRow]) -> bool {
    for (found, (stop, arr, dep)) in calls.iter().zip(rows) {
        if *found != call(*stop, *arr, *dep) {
            return false;
        }
    }
    calls.len() == rows.len()
}

fn are_trips(trips: &[Trip], expected: &[&[CallRow]]) -> bool {
    for (trip, calls) in trips.iter().zip(expected) {
        if !are_calls(trip.calls.as_slice(), calls) {
            return false;
        }
    }
    trips.len() == expected.len()
}

type Expanded = Result<Trips, Stopped>;

// What is expanded where the service runs on the day and on the day before, or on one of them alone.
fn expanded(alloc: Global, feed: &Feed, today: bool, before: bool) -> Result<Expanded, NoMemory>
    requires feed { IsFeed feed.now }
    requires one { length feed.now.services ≡ 1 }
    requires calls { All (λ trip. length trip.calls < 2 ^ 32 - 1) feed.now.trips }
{
    let today = set(alloc, today)?;
    let before = set(alloc, before)?;
    Ok(expand(alloc, feed, &today, &before))
}

// Trips, rows of copies, whether the service runs on the day and on the day before, and the trips of the day.
type DayRow = (
    &'static [&'static [CallRow]],
    &'static [CopyRow],
    bool,
    bool,
    &'static [&'static [CallRow]],
);

const DAY: [CallRow; 2] = [(0, 21600, 21600), (1, 22200, 22200)];

const FIRST: [CallRow; 2] = [(0, 28800, 28800), (1, 29400, 29400)];

const SECOND: [CallRow; 2] = [(0, 29700, 29700), (1, 30300, 30300)];

const BY_NIGHT: [CallRow; 3] = [(0, 85800, 85800), (1, 86340, 86460), (0, 87000, 87000)];

const LEFT: [CallRow; 2] = [(1, 0, 60), (0, 600, 600)];

const ONE_CALL: [CallRow; 2] = [(0, 85800, 85800), (1, 87000, 87000)];

const TIED: [CallRow; 2] = [(0, 0, 60), (1, 600, 600)];

const MIDNIGHT: [CallRow; 2] = [(0, 0, 0), (1, 600, 600)];

const COPIES: CopyRow = CopyRow {
    trip: 0,
    start: 28800,
    end: 30600,
    headway: 900,
};

const LATE: CopyRow = CopyRow {
    trip: 0,
    start: 86340,
    end: 86401,
    headway: 60,
};

// Copies at their starts before the end, night trips cut at midnight, and the order of what leaves at once.
const DAYS: [DayRow; 9] = [
    (&[&DAY], &[], true, true, &[&DAY]),
    (&[&DAY], &[COPIES], true, true, &[&FIRST, &SECOND]),
    (&[&SECOND, &FIRST], &[], true, false, &[&FIRST, &SECOND]),
    (&[&SECOND, &FIRST], &[], false, true, &[]),
    (&[&BY_NIGHT], &[], false, true, &[&LEFT]),
    (&[&BY_NIGHT], &[], true, true, &[&LEFT, &BY_NIGHT]),
    (&[&ONE_CALL], &[], false, true, &[]),
    (
        &[&BY_NIGHT, &TIED],
        &[],
        true,
        true,
        &[&TIED, &LEFT, &BY_NIGHT],
    ),
    (&[&DAY], &[LATE], false, true, &[&MIDNIGHT]),
];

fn has_trips(alloc: Global, feed: &Feed, row: DayRow) -> Result<bool, NoMemory>
    requires feed { IsFeed feed.now }
    requires one { length feed.now.services ≡ 1 }
    requires calls { All (λ trip. length trip.calls < 2 ^ 32 - 1) feed.now.trips }
{
    Ok(match expanded(alloc, feed, row.2, row.3)? {
        Ok(given) => are_trips(given.as_slice(), row.4),
        Err(_) => false,
    })
}

fn gives(alloc: Global, row: DayRow) -> Result<bool, Fail> {
    let (trips, rows, _, _, _) = row;
    if trips.len() >= 100 || rows.len() >= 100 {
        return Ok(false);
    }
    let feed = feed(alloc, trips, rows)?;
    Ok(has_trips(alloc, &feed, row)?)
}

#[test]
fn gives_copies_and_night_trips(rt: HostRuntime) -> Result<(), Fail> {
    for (i, row) in DAYS.iter().enumerate() {
        assert!(rt; gives(rt.alloc(), *row)?, "row {i}");
    }
    Ok(())
}

fn stopped_by(alloc: Global, row: CopyRow) -> Result<Option<Stopped>, Fail> {
    let feed = feed(alloc, &[&DAY], &[row])?;
    Ok(expanded(alloc, &feed, true, false)?.err())
}

// A row of one copy a second is counted and refused.
#[test]
fn refuses_too_many_copies(rt: HostRuntime) -> Result<(), Fail> {
    let row = CopyRow {
        trip: 0,
        start: 0,
        end: 3_599_399,
        headway: 1,
    };
    let refusal = Refusal {
        file: FileKind::Trips,
        row: 0,
        cause: Cause::Limit(3_599_399),
    };
    assert_eq!(rt;
        stopped_by(rt.alloc(), row)?,
        Some(Stopped::Refused(refusal))
    );
    Ok(())
}
