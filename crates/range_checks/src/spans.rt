// The answers to ranges over the samples.
ghost use Rattle.std.specs.Prelude.{◌≡◌, ◌<◌, ◌≤◌, ◌+◌, ◌*◌, ◌/◌, ◌-◌, ◌^◌, ℕ, List, length, All, IfOk};
ghost use Rattle.move_model.specs.declared.network.Network.{Network as Net};
ghost use Rattle.move_model.specs.Range.{AreDepartures};
ghost use Rattle.raptor_rounds.specs.Answers.{IsEntryWithin, HasSeconds};

use crate::samples::{A, B, C, D, eight_trips, network_of, row_of, table_of, two_trips, two_walks};
use move_model::{NoMemory, Profile, Ride, Shortcuts, Span, TripNo, Trips, WalkRow};
use range_profile::{departures, profile};
use route_split::Timetable;
use std::alloc::Global;
use std::marker::Brand;
use std::process::Abort;
use std::sync::ledger::{Blank, Ledger};
use std::test::Fail;
use steps::Steps;

/// A span without its rides: its first and last second, its number of trips and its arrival.
type Outline = (u32, u32, u8, u64);

/// What is walked to the first stop, from the last one and between two rides.
#[derive(Drop)]
struct Walks {
    first: WalkRow,
    last: WalkRow,
    list: Shortcuts,
}

/// A query: its seconds on foot, its first and last second, and its limit of rides.
#[derive(Clone, Copy)]
struct Asked {
    foot: Option<u64>,
    first: u32,
    last: u32,
    limit: u8,
}

impl Asked {
    fn of(foot: Option<u64>, first: u32, last: u32, limit: u8) -> Asked
        ensures foot { result.foot ≡ foot }
        ensures first { result.first ≡ first }
        ensures last { result.last ≡ last }
        ensures limit { result.limit ≡ limit }
    {
        Asked {
            foot,
            first,
            last,
            limit,
        }
    }
}

fn outlines(alloc: Global, spans: &[Span]) -> Result<Vec<Outline>, NoMemory> {
    let mut outlines = Vec::new(alloc);
    for span in spans {
        outlines.push((span.first, span.last, span.trips, span.arrive))?;
    }
    Ok(outlines)
}

// From A to D, which are some seconds on foot apart.
fn across(alloc: Global, foot: Option<u64>) -> Result<Walks, NoMemory>
    requires { HasSeconds foot }
    ensures first { IfOk result (λ walks. length walks.first ≡ 4) }
    ensures first_bound { IfOk result (λ walks. All HasSeconds walks.first) }
    ensures last { IfOk result (λ walks. length walks.last ≡ 4) }
    ensures bound { IfOk result (λ walks. All HasSeconds walks.last) }
    ensures list { IfOk result (λ walks. All (IsEntryWithin 4) walks.list) }
{
    Ok(Walks {
        first: row_of(alloc, A, D, foot)?,
        last: row_of(alloc, D, A, foot)?,
        list: two_walks(alloc)?,
    })
}

// Asks, over rows and a list that fit the four stops.
fn answer<L: Ledger>(
    alloc: Global,
    table: &Timetable,
    trips: &Trips,
    walks: &Walks,
    asked: Asked,
    opens: &mut Steps<L>,
) -> Result<Profile, NoMemory>
    requires stops { table.now.stops ≡ 4 }
    requires at_stops { All (λ trip. All (λ call. call.stop.0 < table.now.stops) trip.calls) trips.now }
    requires window { asked.first ≤ asked.last }
    requires short { asked.last < 2 ^ 32 - 1 }
    requires foot { HasSeconds asked.foot }
    requires first { length walks.now.first ≡ 4 }
    requires first_bound { All HasSeconds walks.now.first }
    requires last { length walks.now.last ≡ 4 }
    requires bound { All HasSeconds walks.now.last }
    requires list { All (IsEntryWithin 4) walks.now.list }
    ensures counted { (n : Net) (ds : List ℕ) → n.trips ≡ trips.now → n.buffer ≡ table.now.buffer → AreDepartures n walks.now.first asked.first asked.last ds
        → opens.new ≤ opens.old + asked.limit * length table.now.routes * ((length ds + 7) / 8) }
{
    profile(
        alloc,
        table,
        trips,
        &walks.list,
        &walks.first,
        &walks.last,
        asked.foot,
        asked.first,
        asked.last,
        asked.limit,
        opens,
    )
}

// Asks from A to D, and sees that the spans are those that are wanted.
fn expect_across<L: Ledger>(
    rt: &impl Abort,
    alloc: Global,
    table: &Timetable,
    trips: &Trips,
    asked: Asked,
    want: &[Outline],
    opens: &mut Steps<L>,
) -> Result<(), Fail>
    requires stops { table.now.stops ≡ 4 }
    requires at_stops { All (λ trip. All (λ call. call.stop.0 < table.now.stops) trip.calls) trips.now }
    requires window { asked.first ≤ asked.last }
    requires short { asked.last < 2 ^ 32 - 1 }
    requires foot { HasSeconds asked.foot }
{
    let walks = across(alloc, asked.foot)?;
    let found = answer(alloc, table, trips, &walks, asked, opens)?;
    assert!(rt; found.foot == asked.foot);
    let spans = outlines(alloc, found.spans.as_slice())?;
    assert!(rt;
        spans.as_slice() == want,
        "{} to {}",
        asked.first,
        asked.last
    );
    let ride = |trip| Ride {
        trip: TripNo(trip),
        board: 0,
        alight: 1,
    };
    for span in found.spans.as_slice() {
        assert!(rt; span.rides.as_slice() == [ride(0), ride(1)].as_slice());
    }
    Ok(())
}

// The two trips, at several lengths of the walk from A to D, at one second and at one ride.
fn ask_two<L: Ledger>(
    rt: &impl Abort,
    alloc: Global,
    table: &Timetable,
    trips: &Trips,
    blank: Blank,
) -> Result<(), Fail>
    requires stops { table.now.stops ≡ 4 }
    requires at_stops { All (λ trip. All (λ call. call.stop.0 < table.now.stops) trip.calls) trips.now }
    requires name { blank.name ≡ L.name }
    requires parts { blank.parts ≡ L.parts }
    requires some { 0 < blank.parts }
{
    let mut opens = Steps::<L>::new(blank);
    let far = Asked::of(Some(7200), 25200, 32400, 2);
    expect_across(
        rt,
        alloc,
        table,
        trips,
        far,
        &[(25200, 28800, 2, 30600)],
        &mut opens,
    )?;
    let near = Asked::of(Some(1800), 25200, 32400, 2);
    expect_across(rt, alloc, table, trips, near, &[], &mut opens)?;
    let between = Asked::of(Some(3000), 25200, 32400, 2);
    expect_across(
        rt,
        alloc,
        table,
        trips,
        between,
        &[(27601, 28800, 2, 30600)],
        &mut opens,
    )?;
    let second = Asked::of(Some(7200), 28800, 28800, 2);
    expect_across(
        rt,
        alloc,
        table,
        trips,
        second,
        &[(28800, 28800, 2, 30600)],
        &mut opens,
    )?;
    for limit in 0..2u8 {
        let few = Asked::of(Some(7200), 25200, 32400, limit);
        expect_across(rt, alloc, table, trips, few, &[], &mut opens)?;
    }
    Ok(())
}

#[test]
fn gives_the_spans_of_two_trips(rt: HostRuntime) -> Result<(), Fail> {
    let alloc = rt.alloc();
    let network = network_of(alloc, two_trips(alloc)?)?;
    let Some(table) = table_of(alloc, &network)? else {
        panic!(rt; "the network breaks a rule");
    };
    let row = row_of(alloc, A, D, Some(7200))?;
    let seconds = departures(alloc, &table, &network.trips, &row, 25200, 32400)?;
    assert!(rt; seconds.as_slice() == [32400, 28800].as_slice());
    ask_two::<Brand>(&rt, alloc, &table, &network.trips, Blank::new(1))
}

// Asks from A to B, at nine departures: so a single route is opened at most twice.
fn ask_eight<L: Ledger>(
    alloc: Global,
    table: &Timetable,
    trips: &Trips,
    walks: &Walks,
    opens: &mut Steps<L>,
) -> Result<Profile, NoMemory>
    requires stops { table.now.stops ≡ 4 }
    requires at_stops { All (λ trip. All (λ call. call.stop.0 < table.now.stops) trip.calls) trips.now }
    requires first { length walks.now.first ≡ 4 }
    requires first_bound { All HasSeconds walks.now.first }
    requires last { length walks.now.last ≡ 4 }
    requires bound { All HasSeconds walks.now.last }
    requires list { All (IsEntryWithin 4) walks.now.list }
    ensures { (n : Net) (ds : List ℕ) → n.trips ≡ trips.now → n.buffer ≡ table.now.buffer → AreDepartures n walks.now.first 27000 34200 ds
        → length table.now.routes ≡ 1 → length ds ≡ 9 → opens.new ≤ opens.old + 2 }
{
    answer(
        alloc,
        table,
        trips,
        walks,
        Asked::of(None, 27000, 34200, 1),
        opens,
    )
}

fn from_a_to_b(alloc: Global) -> Result<Walks, NoMemory>
    ensures first { IfOk result (λ walks. length walks.first ≡ 4) }
    ensures first_bound { IfOk result (λ walks. All HasSeconds walks.first) }
    ensures last { IfOk result (λ walks. length walks.last ≡ 4) }
    ensures bound { IfOk result (λ walks. All HasSeconds walks.last) }
    ensures list { IfOk result (λ walks. All (IsEntryWithin 4) walks.list) }
{
    Ok(Walks {
        first: row_of(alloc, A, D, None)?,
        last: row_of(alloc, B, C, Some(240))?,
        list: two_walks(alloc)?,
    })
}

// Each of the eight trips from the second after the one before departs to the second when it departs.
fn expect_eight<L: Ledger>(
    rt: &impl Abort,
    alloc: Global,
    table: &Timetable,
    trips: &Trips,
    blank: Blank,
) -> Result<(), Fail>
    requires stops { table.now.stops ≡ 4 }
    requires at_stops { All (λ trip. All (λ call. call.stop.0 < table.now.stops) trip.calls) trips.now }
    requires name { blank.name ≡ L.name }
    requires parts { blank.parts ≡ L.parts }
    requires some { 0 < blank.parts }
{
    let mut opens = Steps::<L>::new(blank);
    let walks = from_a_to_b(alloc)?;
    let seconds = departures(alloc, table, trips, &walks.first, 27000, 34200)?;
    assert_eq!(rt; (table.routes(), seconds.len()), (1, 9));
    let found = ask_eight(alloc, table, trips, &walks, &mut opens)?;
    assert!(rt; found.foot.is_none());
    let spans = outlines(alloc, found.spans.as_slice())?;
    let want = [
        (27000, 28800, 1, 29400),
        (28801, 29400, 1, 30000),
        (29401, 30000, 1, 30600),
        (30001, 30600, 1, 31200),
        (30601, 31200, 1, 31800),
        (31201, 31800, 1, 32400),
        (31801, 32400, 1, 33000),
        (32401, 33000, 1, 33600),
    ];
    assert!(rt; spans.as_slice() == want.as_slice());
    Ok(())
}

#[test]
fn opens_one_route_for_eight_departures(rt: HostRuntime) -> Result<(), Fail> {
    let alloc = rt.alloc();
    let network = network_of(alloc, eight_trips(alloc)?)?;
    let Some(table) = table_of(alloc, &network)? else {
        panic!(rt; "the network breaks a rule");
    };
    expect_eight::<Brand>(&rt, alloc, &table, &network.trips, Blank::new(1))
}
