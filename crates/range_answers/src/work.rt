// The memory of ranges.
ghost use Rattle.std.specs.Prelude.{◌≡◌, ◌+◌, ◌-◌, ◌<◌, ◌≤◌, ◌^◌, ℕ, IfOk, length, sum_by};
ghost use Rattle.move_model.specs.Streets.{IsVertex};
ghost use Rattle.move_model.specs.Network.{streets};
ghost use Rattle.raptor_rounds.specs.Answers.{HasSeconds};
ghost use Rattle.network_file.specs.Compiled.{FitTogether};
ghost use Rattle.network_file.specs.Answers.{AreLeastSums, IsListedSpans};
ghost use Rattle.range_answers.specs.Range.{sums_of, walks_on_foot, IsSearchedWithin, IsOpenedWithin, IsRoomFor};
ghost use Rattle.range_answers.specs.Spans.{IsRangeFound};

use crate::RangeFindings;
use crate::found::{find_foot, find_spans};
use crate::walks::Walks;
use move_model::{NoMemory, NodeNo, Spans};
use network_file::Compiled;
use range_profile::{ProfileWork, profile_with};
use std::alloc::Global;
use std::sync::ledger::Ledger;
use steps::Steps;
use walk_hierarchy::Work;

/// The memory that answers to ranges of one compiled network need, taken once.
#[derive(Drop)]
pub struct RangeWork<'a> {
    pub(crate) walks: Walks,
    pub(crate) search: Work,
    pub(crate) profile: ProfileWork<'a>,
}

// The walk on foot and the spans with their journeys.
fn find_range<L: Ledger>(
    alloc: Global,
    compiled: &Compiled,
    walks: &Walks,
    from: NodeNo,
    to: NodeNo,
    first: u32,
    spans: &Spans,
    work: &mut Work,
    searches: &mut Steps<L>,
) -> Result<RangeFindings, NoMemory>
    requires fits { FitTogether compiled.now }
    requires from { IsVertex (streets compiled.now.network) from }
    requires to { IsVertex (streets compiled.now.network) to }
    requires work { work.old.nodes ≡ length compiled.now.hierarchy.ranks }
    requires sums { AreLeastSums compiled.now from to (sums_of walks.now) }
    requires foot { HasSeconds walks.now.foot }
    ensures found { IfOk result (IsRangeFound compiled.now (sums_of walks.now) from first to spans.now) }
    ensures nodes { work.new.nodes ≡ work.old.nodes }
    ensures ticks { searches.new ≤ searches.old + (walks_on_foot walks.now.foot + sum_by (λ span. length span.rides + 1) spans.now) }
{
    let foot = find_foot(alloc, compiled, walks, from, to, first, work, searches)?;
    let spans = find_spans(alloc, compiled, from, to, spans, work, searches)?;
    Ok(RangeFindings { foot, spans })
}

impl<'a> RangeWork<'a> {
    /// Takes the memory for ranges with at most `limit` rides.
    pub fn new(alloc: Global, compiled: &'a Compiled, limit: u8) -> Result<RangeWork<'a>, NoMemory>
        ensures { IfOk result (IsRoomFor compiled.now limit) }
    {
        let walks = Walks::new(alloc, &compiled.table)?;
        let search = Work::new(alloc, &compiled.hierarchy)?;
        let profile = ProfileWork::new(alloc, &compiled.table, limit)?;
        Ok(RangeWork {
            walks,
            search,
            profile,
        })
    }

    /// Finds the listed answer to a range query, whose window has the seconds of the service day from `first` to `last`: the
    /// walk on foot that leaves at its first second, and for every second of it each pair of arrival and number of rides that
    /// no other listed pair of at most `limit` rides matches in both, as spans with a journey from their last second. A span is
    /// left out where no journey of walks with the least sums has its rides. Three searches are made for the rows and the
    /// seconds on foot, and at most one for each walk of the journeys of the listed range; each round opens each route at most
    /// once for eight departures.
    pub fn range<L: Ledger, M: Ledger>(
        &mut self,
        alloc: Global,
        compiled: &'a Compiled,
        from: NodeNo,
        to: NodeNo,
        first: u32,
        last: u32,
        limit: u8,
        searches: &mut Steps<L>,
        opens: &mut Steps<M>,
    ) -> Result<RangeFindings, NoMemory>
        requires fits { FitTogether compiled.now }
        requires from { IsVertex (streets compiled.now.network) from }
        requires to { IsVertex (streets compiled.now.network) to }
        requires window { first ≤ last }
        requires short { last < 2 ^ 32 - 1 }
        requires room { IsRoomFor compiled.now limit self.old }
        ensures found { IfOk result (λ found. IsListedSpans compiled.now from to limit first last found.foot found.spans) }
        ensures room { (most : ℕ) → IsRoomFor compiled.now most self.old → IsRoomFor compiled.now most self.new }
        ensures searches { IsSearchedWithin compiled.now from to limit first last searches.old searches.new }
        ensures opens { IsOpenedWithin compiled.now from to limit first last opens.old opens.new }
    {
        self.walks
            .measure(compiled, from, to, &mut self.search, searches);
        let profile = profile_with(
            &mut self.profile,
            alloc,
            &compiled.table,
            &compiled.network.trips,
            &compiled.shortcuts,
            &self.walks.first,
            &self.walks.last,
            self.walks.foot,
            first,
            last,
            limit,
            opens,
        )?;
        find_range(
            alloc,
            compiled,
            &self.walks,
            from,
            to,
            first,
            &profile.spans,
            &mut self.search,
            searches,
        )
    }
}
