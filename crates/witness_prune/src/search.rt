// The search from all stops of a place.
ghost use Rattle.std.specs.Prelude.{◌≡◌, ◌<◌, ◌-◌, ◌^◌, ◌⊎◌, ◌↔◌, ℕ, map, length, All, Contains, IfOk, OnOk, OnErr};
ghost use Rattle.move_model.specs.declared.network.StopNo.{StopNo};
ghost use Rattle.witness_prune.specs.Search.{AreParts, IsNeededFrom};

use crate::Needed;
use crate::open::open_all;
use crate::scratch::Scratch;
use move_model::{Network, NoMemory};
use route_split::{RouteRows, Timetable};
use std::alloc::Global;
use std::marker::Model;
use stop_rows::StopRows;

/// A search for needed walks from one place after another, at each from its latest second to its earliest. Its memory is
/// taken once.
#[derive(Drop)]
pub struct Search<'a> {
    network: &'a Network,
    rows: &'a StopRows,
    table: &'a Timetable,
    routes: Vec<RouteRows<'a>>,
    scratch: Scratch,
    place: u32,
    // The next step's second must be below it.
    below: u64,
}

impl<'a> Model for Search<'a> {
    ghost use Rattle.witness_prune.specs.Search.{Searching, IsSearch};

    ghost Value = { Searching };

    ghost view = { λ s. record { network = s.network.now; rows = s.rows.now; place = s.place; below = s.below } };

    ghost invariant = { λ s. IsSearch s.network.now s.rows.now s.table.now s.routes.items s.place s.below s.scratch };
}

impl<'a> Search<'a> {
    /// Takes the memory of a search. It stands at no place: `begin` comes before the first step.
    pub fn new(
        alloc: Global,
        network: &'a Network,
        rows: &'a StopRows,
        table: &'a Timetable,
    ) -> Result<Search<'a>, NoMemory>
        requires { AreParts network.now rows.now table.now }
        ensures parts { IfOk result (λ search. (search.network ≡ network.now) × (search.rows ≡ rows.now)) }
        ensures closed { IfOk result (λ search. search.below ≡ 0) }
    {
        let routes = open_all(alloc, table)?;
        let lent = routes.as_slice();
        let scratch = Scratch::new(alloc, lent, rows)?;
        Ok(Search {
            network,
            rows,
            table,
            routes,
            scratch,
            place: 0,
            below: 0,
        })
    }

    /// Begins at a place. The first step may be made at any second.
    pub fn begin(&mut self, place: u32)
        requires { place < length self.old.rows.nodes }
        ensures network { self.new.network ≡ self.old.network }
        ensures rows { self.new.rows ≡ self.old.rows }
        ensures place { self.new.place ≡ place }
        ensures below { self.new.below ≡ 2 ^ 32 }
    {
        self.scratch.begin(self.rows, place);
        self.place = place;
        self.below = 1 << 32;
    }

    /// Adds the pairs of stops between which some candidate from the place at this second walks that nothing betters, and
    /// no others. The second is less than that of the last step. Where memory is wanting no pair is added.
    pub fn step(&mut self, second: u32, needed: &mut Needed) -> Result<(), NoMemory>
        requires { second < self.old.below }
        ensures network { self.new.network ≡ self.old.network }
        ensures rows { self.new.rows ≡ self.old.rows }
        ensures place { self.new.place ≡ self.old.place }
        ensures below { self.new.below ≡ second }
        ensures ok { OnOk result ((x y : StopNo) → Contains needed.new (x, y) ↔ (Contains needed.old (x, y) ⊎ IsNeededFrom self.old.network self.old.rows self.old.place second x y)) }
        ensures err { OnErr result (needed.new ≡ needed.old) }
    {
        let stops = self.rows.stops_at(self.place);
        let routes = self.routes.as_slice();
        let added = self.scratch.step(
            self.table, routes, self.rows, self.place, stops, second, needed,
        );
        self.below = second as u64;
        added
    }
}
