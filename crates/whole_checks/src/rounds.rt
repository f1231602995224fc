// The rounds over the list of all pairs of stops.
ghost use Rattle.std.specs.Prelude.{◌≡◌, ◌<◌, ◌≤◌, ◌+◌, ◌*◌, length, All, IfOk, OnOk};
ghost use Rattle.raptor_rounds.specs.Answers.{IsEntryWithin, HasSeconds};

use crate::draws::Draws;
use crate::halves::{halves_of, second_half};
use crate::networks::network_of;
use crate::rides::listed_arrival;
use crate::tables::table_of;
use crate::walks::{Walks, all_distances, all_pairs, row_of, seconds_of, turned};
use move_model::{Network, NoMemory, NodeNo};
use plain_search::{ArrivalRows, earliest};
use raptor_rounds::Rounds;
use route_split::Timetable;
use std::alloc::Global;
use std::marker::Brand;
use std::process::Abort;
use std::sync::ledger::{Blank, Ledger};
use std::test::Fail;
use steps::Steps;

/// A network, the same in two halves, and the distances between its vertices both ways.
#[derive(Drop)]
pub struct Case {
    pub network: Network,
    halves: Network,
    pub away: ArrivalRows,
    back: ArrivalRows,
}

/// A query.
#[derive(Clone, Copy)]
pub struct Asked {
    pub from: NodeNo,
    pub to: NodeNo,
    pub depart: u32,
    pub limit: u8,
}

/// How many queries gain by a second ride and by a third or fourth, for how many the walk on foot is earlier than any
/// ride, and how many have no journey with a ride.
#[derive(Clone, Copy)]
struct Tally {
    second: u32,
    third: u32,
    later: u32,
    none: u32,
}

/// Whether one arrival is earlier than another, or there is no other.
pub fn is_earlier(one: Option<u64>, other: Option<u64>) -> bool {
    match (one, other) {
        (Some(one), Some(other)) => one < other,
        (Some(_), None) => true,
        (None, _) => false,
    }
}

impl Tally {
    // Counts what the last run found.
    fn count(&mut self, rounds: &Rounds, limit: u8, foot: Option<u64>)
        requires answers { length rounds.now.answers ≡ limit + 1 }
        requires limit { 2 ≤ limit }
    {
        let (one, two, most) = (rounds.best(1), rounds.best(2), rounds.best(limit));
        self.second = self.second.wrapping_add(u32::from(is_earlier(two, one)));
        self.third = self.third.wrapping_add(u32::from(is_earlier(most, two)));
        self.later = self.later.wrapping_add(u32::from(is_earlier(foot, most)));
        self.none = self.none.wrapping_add(u32::from(most.is_none()));
    }
}

/// The network of a seed.
pub fn case_of(alloc: Global, seed: u32) -> Result<Case, NoMemory> {
    let network = network_of(alloc, seed)?;
    let halves = halves_of(alloc, &network)?;
    let away = all_distances(alloc, &network)?;
    let back = turned(alloc, &away)?;
    Ok(Case {
        network,
        halves,
        away,
        back,
    })
}

/// A query between two vertices.
pub fn asked_of(draws: &mut Draws, nodes: u32) -> Asked
    ensures some { 2 ≤ result.limit }
    ensures limit { result.limit ≤ 4 }
    ensures early { result.depart < 8 }
{
    Asked {
        from: NodeNo(1 + draws.below(nodes.max(1))),
        to: NodeNo(1 + draws.below(nodes.max(1))),
        depart: draws.below(8),
        limit: if draws.one_in(4) { 2 } else { 4 },
    }
}

/// The rows of a query, and the list of all pairs in an order that the step gives.
pub fn walks_of(
    alloc: Global,
    case: &Case,
    asked: Asked,
    stops: u32,
    step: u32,
) -> Result<Walks, NoMemory>
    ensures first { IfOk result (λ walks. length walks.first ≡ stops) }
    ensures first_bound { IfOk result (λ walks. All HasSeconds walks.first) }
    ensures last { IfOk result (λ walks. length walks.last ≡ stops) }
    ensures bound { IfOk result (λ walks. All HasSeconds walks.last) }
    ensures list { IfOk result (λ walks. All (IsEntryWithin stops) walks.list) }
{
    let first = row_of(alloc, &case.network, &case.away, asked.from, stops)?;
    let last = row_of(alloc, &case.network, &case.back, asked.to, stops)?;
    let list = all_pairs(alloc, &case.network, &case.away, stops, step)?;
    Ok(Walks { first, last, list })
}

/// Runs the rounds for a query.
pub fn run<L: Ledger>(
    table: &Timetable,
    walks: &Walks,
    asked: Asked,
    rounds: &mut Rounds,
    opens: &mut Steps<L>,
)
    requires stops { rounds.old.stops ≡ table.now.stops }
    requires routes { rounds.old.routes ≡ length table.now.routes }
    requires limit { asked.limit ≤ rounds.old.limit }
    requires first { length walks.now.first ≡ table.now.stops }
    requires first_bound { All HasSeconds walks.now.first }
    requires last { length walks.now.last ≡ table.now.stops }
    requires bound { All HasSeconds walks.now.last }
    requires list { All (IsEntryWithin table.now.stops) walks.now.list }
    ensures one_each { length rounds.new.answers ≡ asked.limit + 1 }
    ensures keeps { rounds.new ≡ record rounds.old { answers = rounds.new.answers } }
    ensures counted { opens.new ≤ opens.old + asked.limit * length table.now.routes }
{
    let Asked { depart, limit, .. } = asked;
    rounds.run(
        table,
        &walks.list,
        &walks.first,
        &walks.last,
        depart,
        limit,
        opens,
    );
}

// Sees that rounds of their own find the same arrivals.
fn expect_fresh<L: Ledger>(
    rt: &impl Abort,
    alloc: Global,
    table: &Timetable,
    walks: &Walks,
    asked: Asked,
    rounds: &Rounds,
    opens: &mut Steps<L>,
) -> Result<(), Fail>
    requires limit { asked.limit ≤ 4 }
    requires answers { length rounds.now.answers ≡ asked.limit + 1 }
    requires first { length walks.now.first ≡ table.now.stops }
    requires first_bound { All HasSeconds walks.now.first }
    requires last { length walks.now.last ≡ table.now.stops }
    requires bound { All HasSeconds walks.now.last }
    requires list { All (IsEntryWithin table.now.stops) walks.now.list }
{
    let mut fresh = Rounds::new(alloc, table, table.stops(), asked.limit)?;
    run(table, walks, asked, &mut fresh, opens);
    for k in 0..asked.limit + 1 {
        assert!(rt; rounds.best(k) == fresh.best(k), "with {k} rides");
    }
    Ok(())
}

// Sees that an answer is that of the plain search, and that its rides are listed and attain it.
fn expect_answer(
    rt: &impl Abort,
    alloc: Global,
    n: &Network,
    walks: &Walks,
    stops: u32,
    depart: u32,
    rounds: &Rounds,
    k: u8,
    plain: Option<u64>,
) -> Result<(), Fail>
    requires first { length walks.now.first ≡ stops }
    requires last { length walks.now.last ≡ stops }
    requires answers { k < length rounds.now.answers }
{
    let best = rounds.best(k);
    assert!(rt; best == plain, "with {k} rides");
    let Some(rides) = rounds.legs(alloc, k)? else {
        assert!(rt; best.is_none());
        return Ok(());
    };
    assert!(rt; rides.len() <= usize::from(k));
    let arrive = listed_arrival(n, walks, stops, depart, rides.as_slice());
    assert!(rt; arrive == best, "by {k} rides");
    Ok(())
}

// Compares the answers of the last run for every number of rides.
fn expect_answers(
    rt: &impl Abort,
    alloc: Global,
    case: &Case,
    walks: &Walks,
    stops: u32,
    asked: Asked,
    rounds: &Rounds,
    tally: &mut Tally,
) -> Result<(), Fail>
    requires first { length walks.now.first ≡ stops }
    requires last { length walks.now.last ≡ stops }
    requires answers { length rounds.now.answers ≡ asked.limit + 1 }
    requires some { 2 ≤ asked.limit }
    requires few { asked.limit ≤ 4 }
{
    let Asked {
        from,
        to,
        depart,
        limit,
    } = asked;
    let n = &case.network;
    let there = second_half(n, to);
    let plain = earliest(alloc, &case.halves, from, depart, limit)?;
    for k in 0..limit + 1 {
        let want = seconds_of(&plain, NodeNo(u32::from(k)), there);
        expect_answer(rt, alloc, n, walks, stops, depart, rounds, k, want)?;
    }
    tally.count(rounds, limit, seconds_of(&plain, NodeNo(0), to));
    Ok(())
}

// Sees that the last run and the walk on foot together are what the plain search finds over the network itself.
fn expect_with_foot(
    rt: &impl Abort,
    alloc: Global,
    n: &Network,
    asked: Asked,
    rounds: &Rounds,
) -> Result<(), Fail>
    requires answers { length rounds.now.answers ≡ asked.limit + 1 }
    requires few { asked.limit ≤ 4 }
{
    let Asked {
        from,
        to,
        depart,
        limit,
    } = asked;
    let plain = earliest(alloc, n, from, depart, limit)?;
    let foot = seconds_of(&plain, NodeNo(0), to);
    for k in 0..limit + 1 {
        let best = rounds.best(k);
        let either = if is_earlier(foot, best) { foot } else { best };
        let want = seconds_of(&plain, NodeNo(u32::from(k)), to);
        assert!(rt; either == want, "with {k} rides or none");
    }
    Ok(())
}

// Asks one query over rounds that other queries were asked before.
fn ask<L: Ledger>(
    rt: &impl Abort,
    alloc: Global,
    case: &Case,
    table: &Timetable,
    asked: Asked,
    step: u32,
    rounds: &mut Rounds,
    opens: &mut Steps<L>,
    tally: &mut Tally,
) -> Result<(), Fail>
    requires stops { rounds.old.stops ≡ table.now.stops }
    requires routes { rounds.old.routes ≡ length table.now.routes }
    requires some { 2 ≤ asked.limit }
    requires few { asked.limit ≤ 4 }
    requires limit { rounds.old.limit ≡ 4 }
    ensures keeps { OnOk result (rounds.new ≡ record rounds.old { answers = rounds.new.answers }) }
{
    let stops = table.stops();
    let walks = walks_of(alloc, case, asked, stops, step)?;
    run(table, &walks, asked, rounds, opens);
    expect_fresh(rt, alloc, table, &walks, asked, rounds, opens)?;
    expect_with_foot(rt, alloc, &case.network, asked, rounds)?;
    expect_answers(rt, alloc, case, &walks, stops, asked, rounds, tally)
}

// Asks queries one after the other over the same rounds, half of them with the list in another order.
fn ask_over<L: Ledger>(
    rt: &impl Abort,
    alloc: Global,
    case: &Case,
    table: &Timetable,
    mut draws: Draws,
    blank: Blank,
    tally: &mut Tally,
) -> Result<(), Fail>
    requires name { blank.name ≡ L.name }
    requires parts { blank.parts ≡ L.parts }
    requires some { 0 < blank.parts }
{
    let mut opens = Steps::<L>::new(blank);
    let mut rounds = Rounds::new(alloc, table, table.stops(), 4)?;
    for _query in 0..12 {
        let step = if draws.one_in(2) {
            1
        } else {
            1 + draws.below(100)
        };
        let asked = asked_of(&mut draws, case.network.nodes);
        ask(
            rt,
            alloc,
            case,
            table,
            asked,
            step,
            &mut rounds,
            &mut opens,
            tally,
        )?;
    }
    Ok(())
}

// Asks queries over the network of a seed.
fn ask_all(rt: &impl Abort, alloc: Global, seed: u32, tally: &mut Tally) -> Result<(), Fail> {
    let case = case_of(alloc, seed)?;
    let Some(_halves) = table_of(alloc, &case.halves)? else {
        panic!(rt; "the halves of the network {seed} break a rule");
    };
    let Some(table) = table_of(alloc, &case.network)? else {
        panic!(rt; "the network {seed} breaks a rule");
    };
    let draws = Draws::new(seed.wrapping_add(1_000_000));
    ask_over::<Brand>(rt, alloc, &case, &table, draws, Blank::new(1), tally)
}

#[test]
fn rounds_find_the_plain_arrivals(rt: HostRuntime) -> Result<(), Fail> {
    let mut tally = Tally {
        second: 0,
        third: 0,
        later: 0,
        none: 0,
    };
    for seed in 1..=2000u32 {
        ask_all(&rt, rt.alloc(), seed, &mut tally)?;
    }
    let Tally {
        second,
        third,
        later,
        none,
    } = tally;
    assert!(rt;
        second > 1600 && third > 100,
        "{second} and {third} gain by more rides"
    );
    assert!(rt;
        later > 4000 && none > 4000 && none < 16_000,
        "{later} are earlier on foot, {none} have no ride"
    );
    Ok(())
}
