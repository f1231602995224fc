// The memory of answers.
ghost use Rattle.std.specs.Prelude.{◌≡◌, ◌+◌, ◌*◌, ◌≤◌, IfOk, length};
ghost use Rattle.move_model.specs.Streets.{IsVertex};
ghost use Rattle.move_model.specs.Network.{streets};
ghost use Rattle.network_file.specs.Compiled.{FitTogether};
ghost use Rattle.network_file.specs.Answers.{IsListedPoint};
ghost use Rattle.network_answers.specs.Point.{IsRoomFor, IsSearched};

use crate::asked::Asked;
use crate::found::find_all;
use move_model::{Findings, NoMemory, NodeNo};
use network_file::Compiled;
use std::alloc::Global;
use std::marker::Model;
use std::sync::ledger::Ledger;
use steps::Steps;
use walk_hierarchy::Work;

/// The memory that answers of one compiled network need, taken once.
#[derive(Drop)]
pub struct AnswerWork {
    asked: Asked,
    search: Work,
}

impl Model for AnswerWork {
    ghost use Rattle.std.specs.Prelude.{◌≡◌, length};
    ghost use Rattle.network_answers.specs.Point.{Room};

    ghost Value = { Room };

    ghost view = { λ work. record { nodes = work.search.nodes; stops = work.asked.rounds.stops; routes = work.asked.rounds.routes; limit = work.asked.rounds.limit } };

    ghost invariant = { λ work. (length work.asked.first ≡ work.asked.rounds.stops) × (length work.asked.last ≡ work.asked.rounds.stops) };
}

impl AnswerWork {
    /// Takes the memory for answers with at most `limit` rides.
    pub fn new(alloc: Global, compiled: &Compiled, limit: u8) -> Result<AnswerWork, NoMemory>
        ensures { IfOk result (λ work. work ≡ record { nodes = length compiled.now.hierarchy.ranks; stops = compiled.now.table.stops; routes = length compiled.now.table.routes; limit = limit }) }
    {
        let asked = Asked::new(alloc, &compiled.table, limit)?;
        let search = Work::new(alloc, &compiled.hierarchy)?;
        Ok(AnswerWork { asked, search })
    }

    /// Finds the listed answer to a point query: each pair of arrival and number of rides that no other listed pair of at
    /// most `limit` rides matches in both, by rising number of rides, with a journey. A pair is left out where no journey
    /// of walks with the least sums has such rides. Three searches are made for the rows and the walk on foot, and at most
    /// one for each walk of a listed pair; each round opens each route at most once.
    pub fn point<L: Ledger, M: Ledger>(
        &mut self,
        alloc: Global,
        compiled: &Compiled,
        from: NodeNo,
        to: NodeNo,
        depart: u32,
        limit: u8,
        searches: &mut Steps<L>,
        opens: &mut Steps<M>,
    ) -> Result<Findings, NoMemory>
        requires fits { FitTogether compiled.now }
        requires from { IsVertex (streets compiled.now.network) from }
        requires to { IsVertex (streets compiled.now.network) to }
        requires room { IsRoomFor compiled.now limit self.old }
        ensures found { IfOk result (IsListedPoint compiled.now from depart to limit) }
        ensures room { self.new ≡ self.old }
        ensures searches { IsSearched compiled.now from depart to limit searches.old searches.new }
        ensures opens { opens.new ≤ opens.old + limit * length compiled.now.table.routes }
    {
        self.asked.ask(
            compiled,
            from,
            to,
            depart,
            limit,
            &mut self.search,
            searches,
            opens,
        );
        find_all(
            alloc,
            compiled,
            &self.asked,
            from,
            to,
            depart,
            limit,
            &mut self.search,
            searches,
        )
    }
}
