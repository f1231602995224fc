// Journeys for the walk on foot and for the spans of a range.
ghost use Rattle.std.specs.Prelude.{◌≡◌, ◌+◌, ◌≤◌, IfOk, OnOk, MatchOption, length, sum_by};
ghost use Rattle.move_model.specs.Streets.{IsVertex};
ghost use Rattle.move_model.specs.Network.{streets};
ghost use Rattle.raptor_rounds.specs.Answers.{HasSeconds};
ghost use Rattle.journey_build.specs.Built.{IsBroken};
ghost use Rattle.network_file.specs.Compiled.{FitTogether};
ghost use Rattle.network_file.specs.Answers.{AreLeastSums};
ghost use Rattle.range_answers.specs.Range.{sums_of, walks_on_foot};
ghost use Rattle.range_answers.specs.Spans.{IsFinding, IsFoot, AddsSpan, AreFound};

use crate::walks::Walks;
use journey_build::build;
use move_model::{
    Finding, NoMemory, NodeNo, Pair, RideList, Span, SpanFinding, SpanFindings, Spans,
};
use network_file::Compiled;
use std::alloc::Global;
use std::sync::ledger::Ledger;
use steps::Steps;
use walk_hierarchy::Work;

/// The walk on foot that leaves at the first second of a range, where there is one, and the spans by rising first second and
/// then number of trips.
#[derive(Debug, Drop)]
pub struct RangeFindings {
    pub foot: Option<Finding>,
    pub spans: SpanFindings,
}

// The pair with a journey of these rides, where there is one.
fn find<L: Ledger>(
    alloc: Global,
    compiled: &Compiled,
    from: NodeNo,
    to: NodeNo,
    depart: u32,
    pair: Pair,
    rides: &RideList,
    work: &mut Work,
    searches: &mut Steps<L>,
) -> Result<Option<Finding>, NoMemory>
    requires fits { FitTogether compiled.now }
    requires from { IsVertex (streets compiled.now.network) from }
    requires to { IsVertex (streets compiled.now.network) to }
    requires work { work.old.nodes ≡ length compiled.now.hierarchy.ranks }
    ensures found { IfOk result (λ made. MatchOption made (IsBroken compiled.now.network compiled.now.hierarchy from depart rides.now to)
        (IsFinding compiled.now from depart rides.now to pair)) }
    ensures nodes { work.new.nodes ≡ work.old.nodes }
    ensures ticks { searches.new ≤ searches.old + length rides.now + 1 }
{
    let made = build(
        alloc,
        &compiled.network,
        &compiled.hierarchy,
        from,
        to,
        depart,
        rides,
        work,
        searches,
    )?;
    match made {
        Some(journey) => Ok(Some(Finding { pair, journey })),
        None => Ok(None),
    }
}

// The walk on foot, where there is one.
pub(crate) fn find_foot<L: Ledger>(
    alloc: Global,
    compiled: &Compiled,
    walks: &Walks,
    from: NodeNo,
    to: NodeNo,
    first: u32,
    work: &mut Work,
    searches: &mut Steps<L>,
) -> Result<Option<Finding>, NoMemory>
    requires fits { FitTogether compiled.now }
    requires from { IsVertex (streets compiled.now.network) from }
    requires to { IsVertex (streets compiled.now.network) to }
    requires work { work.old.nodes ≡ length compiled.now.hierarchy.ranks }
    requires sums { AreLeastSums compiled.now from to (sums_of walks.now) }
    requires foot { HasSeconds walks.now.foot }
    ensures foot { IfOk result (IsFoot compiled.now (sums_of walks.now) from first to) }
    ensures nodes { work.new.nodes ≡ work.old.nodes }
    ensures ticks { searches.new ≤ searches.old + walks_on_foot walks.now.foot }
{
    let Some(seconds) = walks.foot else {
        return Ok(None);
    };
    let rides = RideList::new(alloc);
    let arrive = u64::from(first) + seconds;
    find(
        alloc,
        compiled,
        from,
        to,
        first,
        Pair { arrive, trips: 0 },
        &rides,
        work,
        searches,
    )
}

// Puts the span last, where a journey with its rides is found.
fn add_span<L: Ledger>(
    alloc: Global,
    compiled: &Compiled,
    from: NodeNo,
    to: NodeNo,
    span: &Span,
    found: &mut SpanFindings,
    work: &mut Work,
    searches: &mut Steps<L>,
) -> Result<(), NoMemory>
    requires fits { FitTogether compiled.now }
    requires from { IsVertex (streets compiled.now.network) from }
    requires to { IsVertex (streets compiled.now.network) to }
    requires work { work.old.nodes ≡ length compiled.now.hierarchy.ranks }
    ensures adds { OnOk result (AddsSpan compiled.now from to span.now found.old found.new) }
    ensures nodes { work.new.nodes ≡ work.old.nodes }
    ensures ticks { searches.new ≤ searches.old + (length span.now.rides + 1) }
{
    let pair = Pair {
        arrive: span.arrive,
        trips: span.trips,
    };
    let made = find(
        alloc,
        compiled,
        from,
        to,
        span.last,
        pair,
        &span.rides,
        work,
        searches,
    )?;
    if let Some(finding) = made {
        found.push(SpanFinding {
            first: span.first,
            last: span.last,
            finding,
        })?;
    }
    Ok(())
}

// The spans with their journeys, in their order. A span without such a journey is left out.
pub(crate) fn find_spans<L: Ledger>(
    alloc: Global,
    compiled: &Compiled,
    from: NodeNo,
    to: NodeNo,
    spans: &Spans,
    work: &mut Work,
    searches: &mut Steps<L>,
) -> Result<SpanFindings, NoMemory>
    requires fits { FitTogether compiled.now }
    requires from { IsVertex (streets compiled.now.network) from }
    requires to { IsVertex (streets compiled.now.network) to }
    requires work { work.old.nodes ≡ length compiled.now.hierarchy.ranks }
    ensures found { IfOk result (AreFound compiled.now from to spans.now) }
    ensures nodes { work.new.nodes ≡ work.old.nodes }
    ensures ticks { searches.new ≤ searches.old + sum_by (λ span. length span.rides + 1) spans.now }
{
    let mut found = SpanFindings::new(alloc);
    for span in spans.as_slice() {
        add_span(alloc, compiled, from, to, span, &mut found, work, searches)?;
    }
    Ok(found)
}
