// One round's rides, from the stops that got better.
ghost use Rattle.std.specs.Prelude.{◌≡◌, ◌<◌, ◌≤◌, ◌+◌, ◌-◌, ◌^◌, ℕ, true, false, length, All, slice_get, slice_index, slice_index_or, Some, vec_len};
ghost use Rattle.move_model.specs.declared.network.StopNo.{StopNo};
ghost use Rattle.route_split.specs.declared.place.Place.{Place};
ghost use Rattle.route_split.specs.Route.{Route, IsRoute};
ghost use Rattle.route_split.specs.Calls.{HoldsTrips};
ghost use Rattle.raptor_rounds.specs.Answers.{HasSeconds};
ghost use Rattle.raptor_rounds.specs.Ways.{Query};
ghost use Rattle.range_lanes.specs.Levels.{Boarded, Exploited, IsBound, LeftFalls, Covers, Fits, StartsFrom, IsSound};
ghost use Rattle.range_lanes.specs.Lent.{IsLentBy, lent_count};

use crate::lent::LentRows;
use crate::level::{Level, NEVER};
use crate::ride::board;
use move_model::{StopNo, WalkRow};
use raptor_rounds::SparseSet;
use route_split::{RouteCall, Timetable};
use std::sync::ledger::Ledger;
use steps::Steps;

/// Boards the rides of one call at a stop, from the second at which the passenger is ready there.
fn board_call<'a, L: Ledger>(
    table: &'a Timetable,
    held: &mut LentRows<'a>,
    call: RouteCall,
    second: u32,
    from: StopNo,
    below: &[Level],
    level: &mut Level,
    last: &WalkRow,
    bound: u64,
    fresh: &mut SparseSet,
    opens: &mut Steps<L>,
)
    requires route { (route : Route) → slice_get table.now.routes call.route ≡ Some route → call.call < length route.places }
    requires exists { call.route < length table.now.routes }
    requires stops { table.now.stops ≡ length last.now }
    requires held { IsLentBy table.now held.old }
    requires below { All (Fits (length last.now)) below.now }
    requires fits { Fits (length last.now) level.old }
    requires fresh { length fresh.old ≡ length last.now }
    requires seconds { All HasSeconds last.now }
    requires bound { IsBound below.now bound }
    ensures boarded { (route : Route) → slice_get table.now.routes call.route ≡ Some route → Boarded below.now level.new route table.now.buffer call.call second }
    ensures falls { LeftFalls level.old level.new fresh.old fresh.new }
    ensures covers { Covers last.now level.old → Covers last.now level.new }
    ensures sound { (q : Query) → q.last ≡ last.now → q.network.buffer ≡ table.now.buffer → HoldsTrips q.network.trips table.now.routes
        → ((route : Route) (place : Place) → slice_get table.now.routes call.route ≡ Some route → slice_get route.places call.call ≡ Some place
        → StartsFrom q below.now place.stop second from)
        → IsSound q below.now level.old → IsSound q below.now level.new }
    ensures held { IsLentBy table.now held.new }
    ensures counted { opens.new + lent_count held.old ≡ opens.old + lent_count held.new }
{
    let _routes = table.routes();
    held.lend(table, call.route, opens);
    if let Some(rows) = &held.rows[call.route as usize] {
        board(
            rows,
            call.call,
            second,
            from,
            table.buffer(),
            below,
            level,
            last,
            bound,
            fresh,
        );
    }
}

/// Boards the rides of all calls at a stop, from the second at which the passenger is ready there.
pub fn board_stop<'a, L: Ledger>(
    table: &'a Timetable,
    held: &mut LentRows<'a>,
    stop: StopNo,
    second: u32,
    from: StopNo,
    below: &[Level],
    level: &mut Level,
    last: &WalkRow,
    bound: u64,
    fresh: &mut SparseSet,
    opens: &mut Steps<L>,
)
    requires exists { stop.0 < table.now.stops }
    requires stops { table.now.stops ≡ length last.now }
    requires held { IsLentBy table.now held.old }
    requires below { All (Fits (length last.now)) below.now }
    requires fits { Fits (length last.now) level.old }
    requires fresh { length fresh.old ≡ length last.now }
    requires seconds { All HasSeconds last.now }
    requires bound { IsBound below.now bound }
    ensures boarded { (r i : ℕ) (route : Route) (place : Place) → slice_get table.now.routes r ≡ Some route → slice_get route.places i ≡ Some place
        → place.stop.0 ≡ stop.0 → Boarded below.now level.new route table.now.buffer i second }
    ensures falls { LeftFalls level.old level.new fresh.old fresh.new }
    ensures covers { Covers last.now level.old → Covers last.now level.new }
    ensures sound { (q : Query) → q.last ≡ last.now → q.network.buffer ≡ table.now.buffer → HoldsTrips q.network.trips table.now.routes
        → StartsFrom q below.now stop second from → IsSound q below.now level.old → IsSound q below.now level.new }
    ensures held { IsLentBy table.now held.new }
    ensures counted { opens.new + lent_count held.old ≡ opens.old + lent_count held.new }
{
    let calls = table.at_stop(stop);
    for call in calls {
        board_call(
            table, held, *call, second, from, below, level, last, bound, fresh, opens,
        );
    }
}

/// Boards the rides at a stop where the passenger is ready, unless a best arrival is no later.
fn board_from<'a, L: Ledger>(
    table: &'a Timetable,
    held: &mut LentRows<'a>,
    stop: StopNo,
    second: u64,
    from: StopNo,
    below: &[Level],
    level: &mut Level,
    last: &WalkRow,
    bound: u64,
    fresh: &mut SparseSet,
    opens: &mut Steps<L>,
)
    requires exists { stop.0 < table.now.stops }
    requires stops { table.now.stops ≡ length last.now }
    requires held { IsLentBy table.now held.old }
    requires below { All (Fits (length last.now)) below.now }
    requires fits { Fits (length last.now) level.old }
    requires fresh { length fresh.old ≡ length last.now }
    requires seconds { All HasSeconds last.now }
    requires bound { IsBound below.now bound }
    ensures exploited { (r i : ℕ) (route : Route) (place : Place) → slice_get table.now.routes r ≡ Some route → slice_get route.places i ≡ Some place
        → place.stop.0 ≡ stop.0 → Exploited below.now level.new route table.now.buffer i second }
    ensures falls { LeftFalls level.old level.new fresh.old fresh.new }
    ensures covers { Covers last.now level.old → Covers last.now level.new }
    ensures sound { (q : Query) → q.last ≡ last.now → q.network.buffer ≡ table.now.buffer → HoldsTrips q.network.trips table.now.routes
        → (second < 2 ^ 32 - 1 → StartsFrom q below.now stop second from) → IsSound q below.now level.old → IsSound q below.now level.new }
    ensures held { IsLentBy table.now held.new }
    ensures counted { opens.new + lent_count held.old ≡ opens.old + lent_count held.new }
{
    let _routes = table.routes();
    if u64::from(NEVER) <= second {
        return;
    }
    if level.best <= second {
        return;
    }
    if bound <= second {
        return;
    }
    let ready = second as u32;
    board_stop(
        table, held, stop, ready, from, below, level, last, bound, fresh, opens,
    );
}

/// Boards the rides at each stop that got better at the level before.
pub fn scan<'a, L: Ledger>(
    table: &'a Timetable,
    held: &mut LentRows<'a>,
    better: &SparseSet,
    before: &Level,
    below: &[Level],
    level: &mut Level,
    last: &WalkRow,
    bound: u64,
    fresh: &mut SparseSet,
    opens: &mut Steps<L>,
)
    requires stops { table.now.stops ≡ length last.now }
    requires better { length better.now ≡ length last.now }
    requires before { Fits (length last.now) before.now }
    requires held { IsLentBy table.now held.old }
    requires below { All (Fits (length last.now)) below.now }
    requires fits { Fits (length last.now) level.old }
    requires fresh { length fresh.old ≡ length last.now }
    requires seconds { All HasSeconds last.now }
    requires bound { IsBound below.now bound }
    ensures exploited { (r i : ℕ) (route : Route) (place : Place) → slice_get table.now.routes r ≡ Some route → slice_get route.places i ≡ Some place
        → slice_index_or better.now place.stop.0 false ≡ true
        → Exploited below.now level.new route table.now.buffer i (slice_index before.now.ready.items place.stop.0) }
    ensures falls { LeftFalls level.old level.new fresh.old fresh.new }
    ensures covers { Covers last.now level.old → Covers last.now level.new }
    ensures sound { (q : Query) → q.last ≡ last.now → q.network.buffer ≡ table.now.buffer → HoldsTrips q.network.trips table.now.routes
        → ((x z : StopNo) → slice_get before.now.from.items x.0 ≡ Some z → slice_index before.now.ready.items x.0 < 2 ^ 32 - 1
        → StartsFrom q below.now x (slice_index before.now.ready.items x.0) z)
        → IsSound q below.now level.old → IsSound q below.now level.new }
    ensures held { IsLentBy table.now held.new }
    ensures counted { opens.new + lent_count held.old ≡ opens.old + lent_count held.new }
{
    let marked = better.as_slice();
    for x in marked {
        let ready = before.ready[*x as usize];
        let from = before.from[*x as usize];
        let second = u64::from(ready);
        board_from(
            table,
            held,
            StopNo(*x),
            second,
            from,
            below,
            level,
            last,
            bound,
            fresh,
            opens,
        );
    }
}

/// Boards the first rides at one stop of who leaves at a second and walks there by the first row.
fn board_first<'a, L: Ledger>(
    table: &'a Timetable,
    held: &mut LentRows<'a>,
    stop: StopNo,
    first: &WalkRow,
    depart: u32,
    below: &[Level],
    level: &mut Level,
    last: &WalkRow,
    bound: u64,
    fresh: &mut SparseSet,
    opens: &mut Steps<L>,
)
    requires exists { stop.0 < length last.now }
    requires stops { table.now.stops ≡ length last.now }
    requires first { length first.now ≡ length last.now }
    requires first_seconds { All HasSeconds first.now }
    requires held { IsLentBy table.now held.old }
    requires none { length below.now ≡ 0 }
    requires bound { IsBound below.now bound }
    requires below { All (Fits (length last.now)) below.now }
    requires fits { Fits (length last.now) level.old }
    requires fresh { length fresh.old ≡ length last.now }
    requires seconds { All HasSeconds last.now }
    ensures exploited { (r i m : ℕ) (route : Route) (place : Place) → slice_get table.now.routes r ≡ Some route → slice_get route.places i ≡ Some place
        → place.stop.0 ≡ stop.0 → slice_get first.now stop.0 ≡ Some (Some m) → Exploited below.now level.new route table.now.buffer i (depart + m) }
    ensures falls { LeftFalls level.old level.new fresh.old fresh.new }
    ensures covers { Covers last.now level.old → Covers last.now level.new }
    ensures sound { (q : Query) → q.last ≡ last.now → q.first ≡ first.now → q.depart ≡ depart → q.network.buffer ≡ table.now.buffer
        → HoldsTrips q.network.trips table.now.routes → IsSound q below.now level.old → IsSound q below.now level.new }
    ensures held { IsLentBy table.now held.new }
    ensures counted { opens.new + lent_count held.old ≡ opens.old + lent_count held.new }
{
    if let Some(walk) = first.get(stop) {
        let second = u64::from(depart) + walk;
        board_from(
            table, held, stop, second, stop, below, level, last, bound, fresh, opens,
        );
    }
}

/// Boards the first rides of who leaves at a second and walks by the first row, at each of some stops.
pub fn scan_first<'a, L: Ledger>(
    table: &'a Timetable,
    held: &mut LentRows<'a>,
    seeds: &SparseSet,
    first: &WalkRow,
    depart: u32,
    below: &[Level],
    level: &mut Level,
    last: &WalkRow,
    bound: u64,
    fresh: &mut SparseSet,
    opens: &mut Steps<L>,
)
    requires stops { table.now.stops ≡ length last.now }
    requires seeds { length seeds.now ≡ length last.now }
    requires first { length first.now ≡ length last.now }
    requires first_seconds { All HasSeconds first.now }
    requires held { IsLentBy table.now held.old }
    requires none { length below.now ≡ 0 }
    requires bound { IsBound below.now bound }
    requires below { All (Fits (length last.now)) below.now }
    requires fits { Fits (length last.now) level.old }
    requires fresh { length fresh.old ≡ length last.now }
    requires seconds { All HasSeconds last.now }
    ensures exploited { (r i m : ℕ) (route : Route) (place : Place) → slice_get table.now.routes r ≡ Some route → slice_get route.places i ≡ Some place
        → slice_index_or seeds.now place.stop.0 false ≡ true → slice_get first.now place.stop.0 ≡ Some (Some m)
        → Exploited below.now level.new route table.now.buffer i (depart + m) }
    ensures falls { LeftFalls level.old level.new fresh.old fresh.new }
    ensures covers { Covers last.now level.old → Covers last.now level.new }
    ensures sound { (q : Query) → q.last ≡ last.now → q.first ≡ first.now → q.depart ≡ depart → q.network.buffer ≡ table.now.buffer
        → HoldsTrips q.network.trips table.now.routes → IsSound q below.now level.old → IsSound q below.now level.new }
    ensures held { IsLentBy table.now held.new }
    ensures counted { opens.new + lent_count held.old ≡ opens.old + lent_count held.new }
{
    let marked = seeds.as_slice();
    for x in marked {
        board_first(
            table,
            held,
            StopNo(*x),
            first,
            depart,
            below,
            level,
            last,
            bound,
            fresh,
            opens,
        );
    }
}
