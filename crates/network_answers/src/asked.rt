// One question at a time: its rows, its seconds on foot and its rounds.
ghost use Rattle.std.specs.Prelude.{◌≡◌, ◌+◌, ◌*◌, ◌<◌, ◌≤◌, IfOk, length, All, None, [], ◌∷◌};
ghost use Rattle.move_model.specs.Streets.{IsVertex};
ghost use Rattle.move_model.specs.Network.{streets};
ghost use Rattle.raptor_rounds.specs.Answers.{HasSeconds};
ghost use Rattle.walk_laws.specs.Sums.{HasLeast};
ghost use Rattle.walk_hierarchy.specs.Hierarchy.{IsUpDownSum};
ghost use Rattle.bucket_walks.specs.Buckets.{HoldsFirst, HoldsLast};
ghost use Rattle.network_file.specs.Compiled.{FitTogether};
ghost use Rattle.network_file.specs.Answers.{AreLeastSums};
ghost use Rattle.network_answers.specs.Gains.{gain, sums_of, AreAnswers, HasRoom};

use crate::gains::{beats, lesser, on_foot};
use move_model::{NoMemory, NodeNo, WalkRow};
use network_file::Compiled;
use raptor_rounds::Rounds;
use route_split::Timetable;
use std::alloc::Global;
use std::sync::ledger::Ledger;
use steps::Steps;
use walk_hierarchy::{Work, distance};

// The seconds on foot, the rows of first and last walks, and what the rounds found by them.
#[derive(Drop)]
pub(crate) struct Asked {
    pub(crate) foot: Option<u64>,
    pub(crate) first: WalkRow,
    pub(crate) last: WalkRow,
    pub(crate) rounds: Rounds,
}

impl Asked {
    pub(crate) fn new(alloc: Global, table: &Timetable, limit: u8) -> Result<Asked, NoMemory>
        ensures first { IfOk result (λ asked. length asked.first ≡ table.now.stops) }
        ensures last { IfOk result (λ asked. length asked.last ≡ table.now.stops) }
        ensures rounds { IfOk result (λ asked. asked.rounds ≡ record { stops = table.now.stops; routes = length table.now.routes; limit = limit; answers = None ∷ [] }) }
    {
        let stops = table.stops();
        Ok(Asked {
            foot: None,
            first: WalkRow::new(alloc, stops)?,
            last: WalkRow::new(alloc, stops)?,
            rounds: Rounds::new(alloc, table, stops, limit)?,
        })
    }

    // Leaves the least sums between two vertices and the stops, by three searches.
    fn walk<L: Ledger>(
        &mut self,
        compiled: &Compiled,
        from: NodeNo,
        to: NodeNo,
        work: &mut Work,
        searches: &mut Steps<L>,
    )
        requires fits { FitTogether compiled.now }
        requires from { IsVertex (streets compiled.now.network) from }
        requires to { IsVertex (streets compiled.now.network) to }
        requires first { length self.old.first ≡ compiled.now.table.stops }
        requires last { length self.old.last ≡ compiled.now.table.stops }
        requires work { work.old.nodes ≡ length compiled.now.hierarchy.ranks }
        ensures foot { HasLeast (IsUpDownSum compiled.now.hierarchy from to) self.new.foot }
        ensures first { HoldsFirst compiled.now.hierarchy compiled.now.buckets from self.new.first }
        ensures last { HoldsLast compiled.now.hierarchy compiled.now.buckets to self.new.last }
        ensures rounds { self.new.rounds ≡ self.old.rounds }
        ensures nodes { work.new.nodes ≡ work.old.nodes }
        ensures searches { searches.new ≡ searches.old + 3 }
    {
        let hierarchy = &compiled.hierarchy;
        let buckets = &compiled.buckets;
        buckets.first_walks(hierarchy, from, &mut self.first, work, searches);
        buckets.last_walks(hierarchy, to, &mut self.last, work, searches);
        self.foot = distance(hierarchy, from, to, work, searches);
    }

    // Runs the rounds by the rows and the list of the value.
    fn ride<M: Ledger>(&mut self, compiled: &Compiled, depart: u32, limit: u8, opens: &mut Steps<M>)
        requires fits { FitTogether compiled.now }
        requires room { HasRoom compiled.now limit self.old }
        requires first { All HasSeconds self.old.first }
        requires last { All HasSeconds self.old.last }
        ensures foot { self.new.foot ≡ self.old.foot }
        ensures first { self.new.first ≡ self.old.first }
        ensures last { self.new.last ≡ self.old.last }
        ensures answers { AreAnswers compiled.now (sums_of self.new) depart self.new.rounds }
        ensures one_each { length self.new.rounds.answers ≡ limit + 1 }
        ensures keeps { self.new.rounds ≡ record self.old.rounds { answers = self.new.rounds.answers } }
        ensures opens { opens.new ≤ opens.old + limit * length compiled.now.table.routes }
    {
        self.rounds.run(
            &compiled.table,
            &compiled.shortcuts,
            &self.first,
            &self.last,
            depart,
            limit,
            opens,
        );
    }

    // Asks a question: leaves its least sums, and the answers of the rounds by them.
    pub(crate) fn ask<L: Ledger, M: Ledger>(
        &mut self,
        compiled: &Compiled,
        from: NodeNo,
        to: NodeNo,
        depart: u32,
        limit: u8,
        work: &mut Work,
        searches: &mut Steps<L>,
        opens: &mut Steps<M>,
    )
        requires fits { FitTogether compiled.now }
        requires from { IsVertex (streets compiled.now.network) from }
        requires to { IsVertex (streets compiled.now.network) to }
        requires room { HasRoom compiled.now limit self.old }
        requires work { work.old.nodes ≡ length compiled.now.hierarchy.ranks }
        ensures sums { AreLeastSums compiled.now from to (sums_of self.new) }
        ensures foot { HasSeconds self.new.foot }
        ensures answers { AreAnswers compiled.now (sums_of self.new) depart self.new.rounds }
        ensures one_each { length self.new.rounds.answers ≡ limit + 1 }
        ensures first { length self.new.first ≡ length self.old.first }
        ensures last { length self.new.last ≡ length self.old.last }
        ensures keeps { self.new.rounds ≡ record self.old.rounds { answers = self.new.rounds.answers } }
        ensures nodes { work.new.nodes ≡ work.old.nodes }
        ensures searches { searches.new ≡ searches.old + 3 }
        ensures opens { opens.new ≤ opens.old + limit * length compiled.now.table.routes }
    {
        self.walk(compiled, from, to, work, searches);
        self.ride(compiled, depart, limit, opens);
    }

    // The least arrival with one ride more, where it is earlier than with fewer rides and on foot.
    pub(crate) fn gain(&self, depart: u32, rides: u8) -> Option<u64>
        requires foot { HasSeconds self.now.foot }
        requires within { rides + 1 < length self.now.rounds.answers }
        requires few { rides < 255 }
        ensures { result ≡ gain depart self.now.foot self.now.rounds rides }
    {
        let before = lesser(on_foot(depart, self.foot), self.rounds.best(rides));
        beats(self.rounds.best(rides + 1), before)
    }
}
