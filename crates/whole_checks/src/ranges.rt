// Answers to ranges against the rounds at every second of a window.
ghost use Rattle.std.specs.Prelude.{◌≡◌, ◌<◌, ◌≤◌, ◌+◌, ◌-◌, ◌^◌, length, All, OnOk};
ghost use Rattle.raptor_rounds.specs.Answers.{IsEntryWithin, HasSeconds};
ghost use Rattle.range_profile.specs.Profile.{FitsWork, most_rides};

use crate::draws::Draws;
use crate::rides::listed_arrival;
use crate::rounds::{Asked, Case, asked_of, case_of, is_earlier, run, walks_of};
use crate::tables::table_of;
use crate::walks::{Walks, seconds_of};
use move_model::{Network, Profile, Span};
use range_profile::{ProfileWork, profile_with};
use raptor_rounds::Rounds;
use route_split::Timetable;
use std::alloc::Global;
use std::marker::Brand;
use std::process::Abort;
use std::sync::ledger::{Blank, Ledger};
use std::test::Fail;
use steps::Steps;

/// How many spans there are, how many of more than one second, and how many stand beside another at some second.
#[derive(Clone, Copy)]
struct Tally {
    spans: u32,
    long: u32,
    beside: u32,
}

// How many spans with so many rides cover the second.
fn count_covering(spans: &[Span], second: u32, rides: u8) -> usize {
    let mut count = 0usize;
    for span in spans {
        if span.first <= second && second <= span.last && span.trips == rides {
            count = count.wrapping_add(1);
        }
    }
    count
}

// The arrival of the last span with so many rides that covers the second.
fn arrival_at(spans: &[Span], second: u32, rides: u8) -> Option<u64> {
    let mut arrive = None;
    for span in spans {
        if span.first <= second && second <= span.last && span.trips == rides {
            arrive = Some(span.arrive);
        }
    }
    arrive
}

// Sees that at the second the spans are the best pairs that the last run found.
fn expect_second(
    rt: &impl Abort,
    spans: &[Span],
    second: u32,
    foot: Option<u64>,
    rounds: &Rounds,
    limit: u8,
    tally: &mut Tally,
) -> Result<(), Fail>
    requires answers { length rounds.now.answers ≡ limit + 1 }
    requires few { limit ≤ 4 }
{
    let mut least = foot.map(|seconds| seconds.saturating_add(u64::from(second)));
    let mut pairs = 0u32;
    for k in 1..limit + 1 {
        let best = rounds.best(k);
        let want = if is_earlier(best, least) { best } else { None };
        assert!(rt;
            arrival_at(spans, second, k) == want,
            "{k} rides at {second}"
        );
        assert_eq!(rt;
            count_covering(spans, second, k),
            usize::from(want.is_some())
        );
        if want.is_some() {
            least = want;
            pairs = pairs.wrapping_add(1);
        }
    }
    if pairs > 1 {
        tally.beside = tally.beside.wrapping_add(1);
    }
    Ok(())
}

// Sees that each span has the rides of a listed journey that leaves at its last second.
fn expect_rides(
    rt: &impl Abort,
    n: &Network,
    walks: &Walks,
    stops: u32,
    spans: &[Span],
    tally: &mut Tally,
) -> Result<(), Fail>
    requires first { length walks.now.first ≡ stops }
    requires last { length walks.now.last ≡ stops }
{
    for span in spans {
        assert_eq!(rt; span.rides.len(), usize::from(span.trips));
        let arrive = listed_arrival(n, walks, stops, span.last, span.rides.as_slice());
        assert!(rt; arrive == Some(span.arrive));
        tally.spans = tally.spans.wrapping_add(1);
        if span.first < span.last {
            tally.long = tally.long.wrapping_add(1);
        }
    }
    Ok(())
}

// Sees that the spans stand by first second and then trips, and that none goes on with the pair of another.
fn expect_order(rt: &impl Abort, spans: &[Span]) {
    for i in 1..spans.len() {
        let (before, span) = (&spans[i - 1], &spans[i]);
        assert!(rt; (before.first, before.trips) < (span.first, span.trips));
        for j in 0..i {
            assert!(rt; (spans[j].trips, spans[j].arrive) != (span.trips, span.arrive));
        }
    }
}

// Asks the rounds at every second of the window.
fn expect_window<L: Ledger>(
    rt: &impl Abort,
    table: &Timetable,
    walks: &Walks,
    asked: Asked,
    last: u32,
    profile: &Profile,
    rounds: &mut Rounds,
    opens: &mut Steps<L>,
    tally: &mut Tally,
) -> Result<(), Fail>
    requires short { last < 2 ^ 32 - 1 }
    requires stops { rounds.old.stops ≡ table.now.stops }
    requires routes { rounds.old.routes ≡ length table.now.routes }
    requires limit { asked.limit ≤ rounds.old.limit }
    requires few { asked.limit ≤ 4 }
    requires first { length walks.now.first ≡ table.now.stops }
    requires first_bound { All HasSeconds walks.now.first }
    requires last { length walks.now.last ≡ table.now.stops }
    requires bound { All HasSeconds walks.now.last }
    requires list { All (IsEntryWithin table.now.stops) walks.now.list }
    ensures keeps { OnOk result (rounds.new ≡ record rounds.old { answers = rounds.new.answers }) }
{
    let spans = profile.spans.as_slice();
    for second in asked.depart..last + 1 {
        let at = Asked {
            depart: second,
            ..asked
        };
        run(table, walks, at, rounds, opens);
        expect_second(rt, spans, second, profile.foot, rounds, asked.limit, tally)?;
    }
    Ok(())
}

// Asks one range over memory that other queries were asked in before.
fn ask<'a, L: Ledger>(
    rt: &impl Abort,
    alloc: Global,
    case: &Case,
    table: &'a Timetable,
    asked: Asked,
    window: u32,
    step: u32,
    work: &mut ProfileWork<'a>,
    rounds: &mut Rounds,
    opens: &mut Steps<L>,
    tally: &mut Tally,
) -> Result<(), Fail>
    requires at_stops { All (λ trip. All (λ call. call.stop.0 < table.now.stops) trip.calls) case.now.network.trips }
    requires window { asked.depart + window < 2 ^ 32 - 1 }
    requires stops { rounds.old.stops ≡ table.now.stops }
    requires routes { rounds.old.routes ≡ length table.now.routes }
    requires few { asked.limit ≤ 4 }
    requires limit { rounds.old.limit ≡ 4 }
    requires work { FitsWork table.now work.old }
    requires most { most_rides work.old ≡ 4 }
    ensures keeps { OnOk result (rounds.new ≡ record rounds.old { answers = rounds.new.answers }) }
    ensures work { FitsWork table.now work.new }
    ensures most { most_rides work.new ≡ 4 }
{
    let n = &case.network;
    let stops = table.stops();
    let walks = walks_of(alloc, case, asked, stops, step)?;
    let foot = seconds_of(&case.away, asked.from, asked.to);
    let last = asked.depart + window;
    let profile = profile_with(
        work,
        alloc,
        table,
        &n.trips,
        &walks.list,
        &walks.first,
        &walks.last,
        foot,
        asked.depart,
        last,
        asked.limit,
        opens,
    )?;
    assert!(rt; profile.foot == foot);
    expect_order(rt, profile.spans.as_slice());
    expect_rides(rt, n, &walks, stops, profile.spans.as_slice(), tally)?;
    expect_window(
        rt, table, &walks, asked, last, &profile, rounds, opens, tally,
    )
}

// Asks ranges one after the other in the same memory.
fn ask_over<L: Ledger>(
    rt: &impl Abort,
    alloc: Global,
    case: &Case,
    table: &Timetable,
    mut draws: Draws,
    blank: Blank,
    tally: &mut Tally,
) -> Result<(), Fail>
    requires at_stops { All (λ trip. All (λ call. call.stop.0 < table.now.stops) trip.calls) case.now.network.trips }
    requires name { blank.name ≡ L.name }
    requires parts { blank.parts ≡ L.parts }
    requires some { 0 < blank.parts }
{
    let mut opens = Steps::<L>::new(blank);
    let mut rounds = Rounds::new(alloc, table, table.stops(), 4)?;
    let mut work = ProfileWork::new(alloc, table, 4)?;
    for _query in 0..6 {
        let asked = asked_of(&mut draws, case.network.nodes);
        let window = draws.below(40);
        let step = 1 + draws.below(100);
        ask(
            rt,
            alloc,
            case,
            table,
            asked,
            window,
            step,
            &mut work,
            &mut rounds,
            &mut opens,
            tally,
        )?;
    }
    Ok(())
}

// Asks ranges over the network of a seed.
fn ask_all(rt: &impl Abort, alloc: Global, seed: u32, tally: &mut Tally) -> Result<(), Fail> {
    let case = case_of(alloc, seed)?;
    let Some(table) = table_of(alloc, &case.network)? else {
        panic!(rt; "the network {seed} breaks a rule");
    };
    let draws = Draws::new(seed.wrapping_add(2_000_000));
    ask_over::<Brand>(rt, alloc, &case, &table, draws, Blank::new(1), tally)
}

#[test]
fn ranges_give_the_answers_of_each_second(rt: HostRuntime) -> Result<(), Fail> {
    let mut tally = Tally {
        spans: 0,
        long: 0,
        beside: 0,
    };
    for seed in 1..=400u32 {
        ask_all(&rt, rt.alloc(), seed, &mut tally)?;
    }
    let Tally {
        spans,
        long,
        beside,
    } = tally;
    assert!(rt;
        spans > 1000 && long > 500 && beside > 400,
        "{spans} spans, {long} of them long, {beside} seconds with two"
    );
    Ok(())
}
