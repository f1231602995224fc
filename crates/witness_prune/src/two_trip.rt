// The search from one stop.
ghost use Rattle.std.specs.Prelude.{◌≡◌, ◌<◌, ◌-◌, ◌^◌, ◌⊎◌, ◌↔◌, [], ◌∷◌, false, map, length, All, Contains, IfOk, IsErr, IsTrue, OnOk, OnErr};
ghost use Rattle.move_model.specs.declared.network.StopNo.{StopNo};
ghost use Rattle.move_model.specs.Check.{KeepsRules};
ghost use Rattle.move_model.specs.Network.{streets};
ghost use Rattle.route_split.specs.Calls.{IsTableOf};
ghost use Rattle.route_split.specs.Routes.{AreRoutes};
ghost use Rattle.walk_core.specs.Core.{Holds, IsContraction};
ghost use Rattle.piece_laws.specs.Pieces.{IsNeeded};

use crate::Needed;
use crate::open::open_all;
use crate::scratch::Scratch;
use move_model::{Network, NoMemory, StopNo};
use route_split::{RouteRows, Timetable};
use std::alloc::Global;
use std::marker::Model;
use stop_rows::StopRows;
use walk_core::Core;

/// A search for the needed walks of the candidates from one stop, from its latest second to its earliest.
#[derive(Drop)]
pub struct TwoTrip<'a> {
    network: &'a Network,
    rows: StopRows,
    table: &'a Timetable,
    routes: Vec<RouteRows<'a>>,
    scratch: Scratch,
    place: u32,
    stop: StopNo,
    // The next step's second must be below it.
    below: u64,
    given_up: bool,
}

impl<'a> Model for TwoTrip<'a> {
    ghost use Rattle.witness_prune.specs.TwoTrip.{Stepping, IsTwoTrip};

    ghost Value = { Stepping };

    ghost view = { λ s. record { network = s.network.now; stop = s.stop; below = s.below; given_up = s.given_up } };

    ghost invariant = { λ s. IsTwoTrip s.network.now s.rows s.table.now s.routes.items s.place s.below s.scratch s.stop };
}

impl<'a> TwoTrip<'a> {
    /// Begins at a stop. The first step may be made at any second.
    pub fn start(
        alloc: Global,
        network: &'a Network,
        core: &'a Core,
        table: &'a Timetable,
        stop: StopNo,
    ) -> Result<TwoTrip<'a>, NoMemory>
        requires rules { KeepsRules network.now }
        requires few { length network.now.stops < 2 ^ 32 - 1 }
        requires contraction { IsContraction (streets network.now) core.now }
        requires kept { All (λ stop. Holds core.now stop.node) network.now.stops }
        requires table { IsTableOf network.now table.now }
        requires routes { AreRoutes network.now.trips (map (λ route. route.trips) table.now.routes) }
        requires stop { stop.0 < length network.now.stops }
        ensures at { IfOk result (λ search. (search.network ≡ network.now) × (search.stop ≡ stop)) }
        ensures below { IfOk result (λ search. search.below ≡ 2 ^ 32) }
        ensures goes_on { IfOk result (λ search. search.given_up ≡ false) }
    {
        let rows = StopRows::new(alloc, network, core)?;
        let routes = open_all(alloc, table)?;
        let lent = routes.as_slice();
        let mut scratch = Scratch::new(alloc, lent, &rows)?;
        let place = rows.place(stop);
        scratch.begin(&rows, place);
        Ok(TwoTrip {
            network,
            rows,
            table,
            routes,
            scratch,
            place,
            stop,
            below: 1 << 32,
            given_up: false,
        })
    }

    /// Adds the pairs of stops between which some candidate from the stop at this second walks that nothing betters, and no
    /// others. The second is less than that of the last step. Where memory is wanting no pair is added, and the search is
    /// given up: its later calls answer so too.
    pub fn step(&mut self, second: u32, needed: &mut Needed) -> Result<(), NoMemory>
        requires { second < self.old.below }
        ensures network { self.new.network ≡ self.old.network }
        ensures stop { self.new.stop ≡ self.old.stop }
        ensures over { IsTrue self.old.given_up → IsErr result }

        ensures ok { OnOk result ((x y : StopNo) → Contains needed.new (x, y) ↔ (Contains needed.old (x, y) ⊎ IsNeeded self.old.network (self.old.stop ∷ []) second x y)) }
        ensures below { OnOk result (self.new.below ≡ second) }
        ensures goes_on { OnOk result (self.new.given_up ≡ false) }

        ensures err { OnErr result (needed.new ≡ needed.old) }
        ensures given_up { OnErr result (IsTrue self.new.given_up) }
    {
        if self.given_up {
            return Err(NoMemory);
        }
        let stops = [self.stop];
        let routes = self.routes.as_slice();
        let added = self.scratch.step(
            self.table, routes, &self.rows, self.place, &stops, second, needed,
        );
        self.below = second as u64;
        self.given_up = added.is_err();
        added
    }
}
