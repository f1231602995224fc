// The sums over answers.
ghost use Rattle.std.specs.Prelude.{◌≡◌, ◌+◌, ◌*◌, ◌-◌, ◌<◌, ◌≤◌, ◌^◌, ℕ, All, IfOk, OnOk, length, sum_by};
ghost use Rattle.move_model.specs.declared.query.Query.TheVariants as query;
ghost use Rattle.move_model.specs.declared.journey.Finding.{Finding as FindingValue};
ghost use Rattle.move_model.specs.declared.journey.SpanFinding.{SpanFinding as SpanFindingValue};
ghost use Rattle.network_file.specs.Compiled.{IsRight};
ghost use Rattle.network_answers.specs.Point as point;
ghost use Rattle.range_answers.specs.Range as range;
ghost use Rattle.city_maker.specs.Asked.{IsAsked};
ghost use Rattle.city_summary.specs.Summary.{HasCounts, HasSums, AreTotals};
ghost use Rattle.city_summary.specs.Few.{IsFew};
ghost use Rattle.answer_rows.specs.Counted.{IsSearchedOver, IsOpenedOver, CountsFirst};
ghost use Rattle.city_summary.specs.Room.{HasRoom, limit_of};

use crate::found::{find_point, find_range};
use crate::totals::{Counts, Totals};
use crate::works::{Works, greatest_limit};
use move_model::{Finding, NoMemory, Place, Queries, Query, SpanFinding};
use network_answers::AnswerWork;
use network_file::Compiled;
use range_answers::RangeWork;
use std::alloc::Global;
use std::sync::ledger::Ledger;
use steps::Steps;

// The sum of the arrivals of pairs.
fn arrivals_of_pairs(found: &[Finding]) -> u64
    requires { sum_by (λ (finding : FindingValue). finding.pair.arrive) found.now < 2 ^ 64 }
    ensures { result ≡ sum_by (λ (finding : FindingValue). finding.pair.arrive) found.now }
{
    found.iter().map(|finding| finding.pair.arrive).sum()
}

// The sum of the arrivals of spans.
fn arrivals_of_spans(spans: &[SpanFinding]) -> u64
    requires { sum_by (λ (span : SpanFindingValue). span.finding.pair.arrive) spans.now < 2 ^ 64 }
    ensures { result ≡ sum_by (λ (span : SpanFindingValue). span.finding.pair.arrive) spans.now }
{
    spans.iter().map(|span| span.finding.pair.arrive).sum()
}

// What the answer to a query at a second comes to.
fn counts_of_point<L: Ledger, M: Ledger>(
    alloc: Global,
    compiled: &Compiled,
    work: &mut AnswerWork,
    from: &Place,
    to: &Place,
    depart: u32,
    limit: u8,
    searches: &mut Steps<L>,
    opens: &mut Steps<M>,
) -> Result<Counts, NoMemory>
    requires right { IsRight compiled.now }
    requires asked { IsAsked compiled.now.network (query.At from.now to.now depart limit) }
    requires room { point.IsRoomFor compiled.now limit work.old }
    ensures counts { IfOk result (HasCounts compiled.now.network (query.At from.now to.now depart limit)) }
    ensures few { IfOk result IsFew }
    ensures room { work.new ≡ work.old }
    ensures searches { IsSearchedOver compiled.now.network (query.At from.now to.now depart limit) searches.old searches.new }
    ensures opens { IsOpenedOver compiled.now.network (length compiled.now.table.routes) (query.At from.now to.now depart limit) opens.old opens.new }
{
    let found = find_point(
        alloc, compiled, work, from, to, depart, limit, searches, opens,
    )?;
    Ok(Counts {
        pairs: found.len() as u64,
        spans: 0,
        arrivals: arrivals_of_pairs(found.as_slice()),
    })
}

// What the answer to a range comes to.
fn counts_of_range<'a, L: Ledger, M: Ledger>(
    alloc: Global,
    compiled: &'a Compiled,
    work: &mut RangeWork<'a>,
    from: &Place,
    to: &Place,
    first: u32,
    last: u32,
    limit: u8,
    searches: &mut Steps<L>,
    opens: &mut Steps<M>,
) -> Result<Counts, NoMemory>
    requires right { IsRight compiled.now }
    requires asked { IsAsked compiled.now.network (query.Range from.now to.now first last limit) }
    requires room { range.IsRoomFor compiled.now limit work.old }
    ensures counts { IfOk result (HasCounts compiled.now.network (query.Range from.now to.now first last limit)) }
    ensures few { IfOk result IsFew }
    ensures room { (most : ℕ) → range.IsRoomFor compiled.now most work.old → range.IsRoomFor compiled.now most work.new }
    ensures searches { IsSearchedOver compiled.now.network (query.Range from.now to.now first last limit) searches.old searches.new }
    ensures opens { IsOpenedOver compiled.now.network (length compiled.now.table.routes) (query.Range from.now to.now first last limit) opens.old opens.new }
{
    let found = find_range(
        alloc, compiled, work, from, to, first, last, limit, searches, opens,
    )?;
    let spans = found.spans.as_slice();
    Ok(Counts {
        pairs: 0,
        spans: spans.len() as u64,
        arrivals: arrivals_of_spans(spans),
    })
}

// What the answer to a query comes to.
fn counts_of<'a, L: Ledger, M: Ledger>(
    alloc: Global,
    compiled: &'a Compiled,
    works: &mut Works<'a>,
    query: &Query,
    searches: &mut Steps<L>,
    opens: &mut Steps<M>,
) -> Result<Counts, NoMemory>
    requires right { IsRight compiled.now }
    requires asked { IsAsked compiled.now.network query.now }
    requires room { HasRoom compiled.now (limit_of query.now) works.old }
    ensures counts { IfOk result (HasCounts compiled.now.network query.now) }
    ensures few { IfOk result IsFew }
    ensures room { (most : ℕ) → HasRoom compiled.now most works.old → HasRoom compiled.now most works.new }
    ensures searches { IsSearchedOver compiled.now.network query.now searches.old searches.new }
    ensures opens { IsOpenedOver compiled.now.network (length compiled.now.table.routes) query.now opens.old opens.new }
{
    match query {
        Query::At {
            from,
            to,
            depart,
            limit,
        } => counts_of_point(
            alloc,
            compiled,
            &mut works.points,
            from,
            to,
            *depart,
            *limit,
            searches,
            opens,
        ),
        Query::Range {
            from,
            to,
            first,
            last,
            limit,
        } => counts_of_range(
            alloc,
            compiled,
            &mut works.ranges,
            from,
            to,
            *first,
            *last,
            *limit,
            searches,
            opens,
        ),
    }
}

// What the answers to queries come to.
fn counts_of_all<'a, L: Ledger, M: Ledger>(
    alloc: Global,
    compiled: &'a Compiled,
    works: &mut Works<'a>,
    queries: &[Query],
    searches: &mut Steps<L>,
    opens: &mut Steps<M>,
) -> Result<Counts, NoMemory>
    requires right { IsRight compiled.now }
    requires few { length queries.now ≤ 20 }
    requires asked { All (IsAsked compiled.now.network) queries.now }
    requires room { All (λ query. HasRoom compiled.now (limit_of query) works.old) queries.now }
    ensures sums { IfOk result (HasSums compiled.now.network queries.now) }
    ensures searches { CountsFirst (IsSearchedOver compiled.now.network) queries.now searches.old searches.new }
    ensures opens { CountsFirst (IsOpenedOver compiled.now.network (length compiled.now.table.routes)) queries.now opens.old opens.new }
{
    let mut sums = Counts::none();
    for query in queries {
        sums = sums.plus(counts_of(alloc, compiled, works, query, searches, opens)?);
    }
    Ok(sums)
}

// The size of a network, with what the answers to queries come to.
fn totals_of(compiled: &Compiled, queries: &[Query], sums: Counts) -> Totals
    requires right { IsRight compiled.now }
    requires sums { HasSums compiled.now.network queries.now sums }
    ensures { AreTotals compiled.now.network queries.now result }
{
    let network = &compiled.network;
    Totals {
        vertices: u64::from(network.nodes),
        arcs: network.arcs.len() as u64,
        stops: network.stops.len() as u64,
        trips: network.trips.len() as u64,
        shortcuts: compiled.shortcuts.len() as u64,
        queries: queries.len() as u64,
        pairs: sums.pairs,
        spans: sums.spans,
        arrivals: sums.arrivals,
    }
}

/// What the answers to queries over a compiled network come to. The memory for the searches of all queries is taken before
/// the first. `searches` counts searches in the streets, `opens` counts routes that rounds open.
pub fn summary<L: Ledger, M: Ledger>(
    alloc: Global,
    compiled: &Compiled,
    queries: &Queries,
    searches: &mut Steps<L>,
    opens: &mut Steps<M>,
) -> Result<Totals, NoMemory>
    // The value is right for its network, and there are twenty queries at most, whose windows are half an hour at most.
    requires right { IsRight compiled.now }
    requires few { length queries.now ≤ 20 }
    requires asked { All (IsAsked compiled.now.network) queries.now }

    // The totals are of the exact answers: the Pareto sets of the queries at a second, and at every second of a range.
    ensures totals { IfOk result (AreTotals compiled.now.network queries.now) }

    // Each query that was begun makes three searches, and at most one for each walk of the journeys of its answer. Each round
    // opens each route at most once, for a range once for eight departures.
    ensures searches { CountsFirst (IsSearchedOver compiled.now.network) queries.now searches.old searches.new }
    ensures opens { CountsFirst (IsOpenedOver compiled.now.network (length compiled.now.table.routes)) queries.now opens.old opens.new }
{
    let queries = queries.as_slice();
    let limit = greatest_limit(queries);
    let mut works = Works::new(alloc, compiled, limit)?;
    let sums = counts_of_all(alloc, compiled, &mut works, queries, searches, opens)?;
    Ok(totals_of(compiled, queries, sums))
}
