// One round's scan of a route.
ghost use Rattle.std.specs.Prelude.{◌≡◌, ◌<◌, ◌≤◌, ◌+◌, ◌-◌, ◌^◌, ℕ, min, false, List, length, slice_get, slice_index, IsTrue, MatchOption, IfSome, All, Some, vec_len, ◌⊎◌, ◌≢◌};
ghost use Rattle.move_model.specs.declared.network.TripNo.{TripNo};
ghost use Rattle.route_split.specs.Route.{Route, arrivals_of, departures_of, IsRoute, NeverFalls};
ghost use Rattle.route_split.specs.Calls.{IsRouteOf, HoldsTrips};
ghost use Rattle.route_split.specs.declared.place.Place.{Place};
ghost use Rattle.raptor_rounds.specs.Answers.{HasSeconds};
ghost use Rattle.raptor_rounds.specs.Labels.{Scope, LeftBy, AllReady, IsFound, Covers, Scanned, Falls, IsHeld, step_of};

use crate::labels::{Found, Ready, Step};
use crate::sparse_row::{NEVER, SparseRow};
use move_model::{Ride, StopNo, WalkRow};
use route_split::{RoundMarks, RouteRows, Timetable, catch};
use std::sync::ledger::Ledger;
use steps::Steps;

/// Takes a ride left at a stop for its label, where it is earlier than the label and the best.
pub fn leave(stop: StopNo, second: u32, step: Step, last: &WalkRow, found: &mut Found)
    requires stop { stop.0 < length found.old.left }
    requires steps { vec_len found.old.steps ≡ length found.old.left }
    requires fresh { length found.old.fresh ≡ length found.old.left }
    requires last { length last.now ≡ length found.old.left }
    requires bound { All HasSeconds last.now }
    ensures known { min (slice_index found.new.left stop.0) found.new.best ≤ second }
    ensures falls { Falls found.old found.new }
    ensures covers { Covers last.now found.old → Covers last.now found.new }
    ensures sound { (s : Scope) → s.query.last ≡ last.now → LeftBy s stop second step → IsFound s found.old → IsFound s found.new }
{
    if second < found.left.get(stop.0) && u64::from(second) < found.best {
        found.left.set(stop.0, second);
        found.steps[stop.0 as usize] = step;
        found.fresh.insert(stop.0);
        if let Some(walk) = last.get(stop) {
            let arrive = u64::from(second) + walk;
            if arrive < found.best {
                found.best = arrive;
                found.best_step = step;
            }
        }
    }
}

/// The least row that departs at or after `wanted`, from one that does on.
fn walked_back(departures: &[u32], from: usize, wanted: u64) -> usize
    requires within { from < length departures.now }
    requires caught { wanted ≤ slice_index departures.now from }
    requires falls { NeverFalls departures.now }
    ensures before { result ≤ from }
    ensures caught { wanted ≤ slice_index departures.now result }
    ensures first { (k : ℕ) → k < result → slice_index departures.now k < wanted }
{
    let mut row = from;
    while row > 0 && wanted <= u64::from(departures[row - 1]) {
        row -= 1;
    }
    row
}

/// A row before `held` that departs at or after `wanted`: the least, if there is one.
pub fn earlier_row(departures: &[u32], held: usize, wanted: u64) -> Option<usize>
    requires { NeverFalls departures.now }
    ensures none { MatchOption result ((p : ℕ) → p < length departures.now → p < held → slice_index departures.now p < wanted) (λ p. p < length departures.now) }
    ensures before { IfSome result (λ p. p < held) }
    ensures caught { IfSome result (λ p. wanted ≤ slice_index departures.now p) }
    ensures first { IfSome result (λ p. (k : ℕ) → k < p → slice_index departures.now k < wanted) }
{
    if held > departures.len() {
        return catch(departures, wanted);
    }
    if held == 0 || u64::from(departures[held - 1]) < wanted {
        return None;
    }
    Some(walked_back(departures, held - 1, wanted))
}

/// A row of a route that was caught, the call where it is boarded, and the slot of the rides before it.
#[derive(Clone, Copy)]
pub struct Hold {
    pub row: usize,
    pub on: u32,
    pub by: u32,
}

/// Leaves the held row at a call, where that is allowed.
pub fn leave_held(rows: &RouteRows, call: u32, hold: Hold, last: &WalkRow, found: &mut Found)
    requires call { call < length rows.now.places }
    requires whole { IsRoute (length found.old.left) rows.now }
    requires steps { vec_len found.old.steps ≡ length found.old.left }
    requires fresh { length found.old.fresh ≡ length found.old.left }
    requires last { length last.now ≡ length found.old.left }
    requires bound { All HasSeconds last.now }
    ensures known { (off : Place) → slice_get rows.now.places call ≡ Some off → IsTrue off.alight → hold.row < length rows.now.trips
        → min (slice_index found.new.left off.stop.0) found.new.best ≤ slice_index (arrivals_of rows.now call) hold.row }
    ensures falls { Falls found.old found.new }
    ensures covers { Covers last.now found.old → Covers last.now found.new }
    ensures sound { (s : Scope) → s.query.last ≡ last.now
        → ((off : Place) (trip : TripNo) → slice_get rows.now.places call ≡ Some off → IsTrue off.alight → slice_get rows.now.trips hold.row ≡ Some trip
        → LeftBy s off.stop (slice_index (arrivals_of rows.now call) hold.row) (step_of hold trip call))
        → IsFound s found.old → IsFound s found.new }
{
    let place = rows.place(call);
    if !place.alight {
        return;
    }
    let arrivals = rows.arrives(call);
    if hold.row < arrivals.len() {
        let ride = Ride {
            trip: rows.trip(hold.row),
            board: hold.on,
            alight: call,
        };
        leave(
            place.stop,
            arrivals[hold.row],
            Step { ride, by: hold.by },
            last,
            found,
        );
    }
}

/// Catches an earlier row at a call, where there is one and the passenger is ready before the best arrival.
#[tactic(auto, using(crate::proofs::TimesLemmas::departs_before, crate::proofs::TimesLemmas::stop_within))]
pub fn hold_earlier(
    rows: &RouteRows,
    call: u32,
    buffer: u32,
    ready: &SparseRow,
    ready_by: &[u32],
    best: u64,
    hold: Hold,
) -> Hold
    requires call { call < length rows.now.places }
    requires whole { IsRoute (length ready.now) rows.now }
    requires by { length ready_by.now ≡ length ready.now }
    ensures lower { result.row ≤ hold.row }
    ensures caught { (on : Place) (p : ℕ) → slice_get rows.now.places call ≡ Some on → IsTrue on.board → p < length rows.now.trips
        → slice_index ready.now on.stop.0 < best → slice_index ready.now on.stop.0 + buffer ≤ slice_index (departures_of rows.now call) p → result.row ≤ p }
    ensures held { (result ≡ hold) ⊎ ((result.on ≡ call) × IsHeld rows.now buffer ready.now ready_by.now result) }
{
    let place = rows.place(call);
    if !place.board {
        return hold;
    }
    let second = ready.get(place.stop.0);
    if second == NEVER {
        return hold;
    }
    if best <= u64::from(second) {
        return hold;
    }
    match earlier_row(
        rows.departs(call),
        hold.row,
        u64::from(second) + u64::from(buffer),
    ) {
        Some(row) => Hold {
            row,
            on: call,
            by: ready_by[place.stop.0 as usize],
        },
        None => hold,
    }
}

/// Rides on a route from its call `start` on, from where the passenger is ready.
pub fn scan_route(
    rows: &RouteRows,
    start: u32,
    buffer: u32,
    ready: &SparseRow,
    ready_by: &[u32],
    last: &WalkRow,
    found: &mut Found,
)
    requires whole { IsRoute (length ready.now) rows.now }
    requires left { length found.old.left ≡ length ready.now }
    requires by { length ready_by.now ≡ length ready.now }
    requires steps { vec_len found.old.steps ≡ length found.old.left }
    requires fresh { length found.old.fresh ≡ length found.old.left }
    requires last { length last.now ≡ length found.old.left }
    requires bound { All HasSeconds last.now }
    ensures scanned { (i : ℕ) → start ≤ i → Scanned rows.now buffer ready.now found.new.left found.new.best i }
    ensures falls { Falls found.old found.new }
    ensures covers { Covers last.now found.old → Covers last.now found.new }
    ensures sound { (s : Scope) → s.query.last ≡ last.now → s.query.network.buffer ≡ buffer → IsRouteOf s.query.network.trips rows.now
        → AllReady s ready.now ready_by.now → IsFound s found.old → IsFound s found.new }
{
    let mut hold = Hold {
        row: usize::MAX,
        on: start,
        by: 0,
    };
    for call in start..rows.calls() {
        leave_held(rows, call, hold, last, found);
        hold = hold_earlier(rows, call, buffer, ready, ready_by, found.best, hold);
    }
}

/// Opens a route and rides on it from its first marked call on.
pub fn scan_at<L: Ledger>(
    table: &Timetable,
    route: u32,
    start: u32,
    ready: &Ready,
    last: &WalkRow,
    marks: &mut RoundMarks,
    found: &mut Found,
    opens: &mut Steps<L>,
)
    requires exists { route < length table.now.routes }
    requires unmarked { slice_get marks.old route ≡ Some false }
    requires stops { table.now.stops ≡ length ready.now.seconds }
    requires left { length found.old.left ≡ length ready.now.seconds }
    requires by { vec_len ready.now.by ≡ length ready.now.seconds }
    requires steps { vec_len found.old.steps ≡ length found.old.left }
    requires fresh { length found.old.fresh ≡ length found.old.left }
    requires last { length last.now ≡ length found.old.left }
    requires bound { All HasSeconds last.now }
    ensures scanned { (r : Route) (i : ℕ) → slice_get table.now.routes route ≡ Some r → start ≤ i
        → Scanned r table.now.buffer ready.now.seconds found.new.left found.new.best i }
    ensures falls { Falls found.old found.new }
    ensures covers { Covers last.now found.old → Covers last.now found.new }
    ensures sound { (s : Scope) → s.query.last ≡ last.now → s.query.network.buffer ≡ table.now.buffer → HoldsTrips s.query.network.trips table.now.routes
        → AllReady s ready.now.seconds ready.now.by.items → IsFound s found.old → IsFound s found.new }
    ensures marks { length marks.new ≡ length marks.old }
    ensures others { (k : ℕ) → k ≢ route → slice_get marks.new k ≡ slice_get marks.old k }
    ensures counted { opens.new ≤ opens.old + 1 }
{
    let rows = table.open_route(route, marks, opens);
    scan_route(
        &rows,
        start,
        table.buffer(),
        &ready.seconds,
        ready.by.as_slice(),
        last,
        found,
    );
}

/// Rides on each route that has a marked call, from its first marked call on.
pub fn scan_all<L: Ledger>(
    table: &Timetable,
    starts: &SparseRow,
    ready: &Ready,
    last: &WalkRow,
    marks: &mut RoundMarks,
    found: &mut Found,
    opens: &mut Steps<L>,
)
    requires starts { length starts.now ≡ length table.now.routes }
    requires marks { length marks.old ≡ length table.now.routes }
    requires stops { table.now.stops ≡ length ready.now.seconds }
    requires left { length found.old.left ≡ length ready.now.seconds }
    requires by { vec_len ready.now.by ≡ length ready.now.seconds }
    requires steps { vec_len found.old.steps ≡ length found.old.left }
    requires fresh { length found.old.fresh ≡ length found.old.left }
    requires last { length last.now ≡ length found.old.left }
    requires bound { All HasSeconds last.now }
    ensures scanned { (r i : ℕ) (route : Route) → slice_get table.now.routes r ≡ Some route → slice_index starts.now r < 2 ^ 32 - 1 → slice_index starts.now r ≤ i
        → Scanned route table.now.buffer ready.now.seconds found.new.left found.new.best i }
    ensures falls { Falls found.old found.new }
    ensures covers { Covers last.now found.old → Covers last.now found.new }
    ensures sound { (s : Scope) → s.query.last ≡ last.now → s.query.network.buffer ≡ table.now.buffer → HoldsTrips s.query.network.trips table.now.routes
        → AllReady s ready.now.seconds ready.now.by.items → IsFound s found.old → IsFound s found.new }
    ensures marks { length marks.new ≡ length marks.old }
    ensures counted { opens.new ≤ opens.old + length table.now.routes }
{
    marks.clear();
    let routes = starts.written();
    for route in routes {
        let start = starts.get(*route);
        scan_at(table, *route, start, ready, last, marks, found, opens);
    }
}
