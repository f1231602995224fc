// The walks of a query: its first and last walks, and the walk on foot.
ghost use Rattle.std.specs.Prelude.{◌≡◌, ◌+◌, IfOk, length, All};
ghost use Rattle.move_model.specs.Streets.{IsVertex};
ghost use Rattle.move_model.specs.Network.{streets};
ghost use Rattle.raptor_rounds.specs.Answers.{HasSeconds};
ghost use Rattle.network_file.specs.Compiled.{FitTogether};
ghost use Rattle.network_file.specs.Answers.{AreLeastSums};
ghost use Rattle.range_answers.specs.Range.{sums_of};

use move_model::{NoMemory, NodeNo, WalkRow};
use network_file::Compiled;
use route_split::Timetable;
use std::alloc::Global;
use std::sync::ledger::Ledger;
use steps::Steps;
use walk_hierarchy::{Work, distance};

// The seconds on foot, and the rows of first and last walks.
#[derive(Drop)]
pub(crate) struct Walks {
    pub(crate) foot: Option<u64>,
    pub(crate) first: WalkRow,
    pub(crate) last: WalkRow,
}

impl Walks {
    pub(crate) fn new(alloc: Global, table: &Timetable) -> Result<Walks, NoMemory>
        ensures first { IfOk result (λ walks. length walks.first ≡ table.now.stops) }
        ensures last { IfOk result (λ walks. length walks.last ≡ table.now.stops) }
    {
        let stops = table.stops();
        Ok(Walks {
            foot: None,
            first: WalkRow::new(alloc, stops)?,
            last: WalkRow::new(alloc, stops)?,
        })
    }

    // Leaves the least sums between two vertices and the stops, by three searches.
    pub(crate) fn measure<L: Ledger>(
        &mut self,
        compiled: &Compiled,
        from: NodeNo,
        to: NodeNo,
        work: &mut Work,
        searches: &mut Steps<L>,
    )
        requires fits { FitTogether compiled.now }
        requires from { IsVertex (streets compiled.now.network) from }
        requires to { IsVertex (streets compiled.now.network) to }
        requires first { length self.old.first ≡ compiled.now.table.stops }
        requires last { length self.old.last ≡ compiled.now.table.stops }
        requires work { work.old.nodes ≡ length compiled.now.hierarchy.ranks }
        ensures sums { AreLeastSums compiled.now from to (sums_of self.new) }
        ensures foot_seconds { HasSeconds self.new.foot }
        ensures first_seconds { All HasSeconds self.new.first }
        ensures last_seconds { All HasSeconds self.new.last }
        ensures first { length self.new.first ≡ length self.old.first }
        ensures last { length self.new.last ≡ length self.old.last }
        ensures nodes { work.new.nodes ≡ work.old.nodes }
        ensures searches { searches.new ≡ searches.old + 3 }
    {
        let hierarchy = &compiled.hierarchy;
        let buckets = &compiled.buckets;
        buckets.first_walks(hierarchy, from, &mut self.first, work, searches);
        buckets.last_walks(hierarchy, to, &mut self.last, work, searches);
        self.foot = distance(hierarchy, from, to, work, searches);
    }
}
