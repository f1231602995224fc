// One round: rides from the stops that got better, and transfers from where they are left.
ghost use Rattle.std.specs.Prelude.{◌≡◌, ◌<◌, ◌≤◌, ◌⊎◌, ◌+◌, ◌-◌, ◌^◌, ℕ, true, false, length, All, slice_get, slice_index, slice_index_or, Some, vec_len};
ghost use Rattle.route_split.specs.declared.place.Place.{Place};
ghost use Rattle.route_split.specs.Route.{Route};
ghost use Rattle.route_split.specs.Calls.{HoldsTrips};
ghost use Rattle.raptor_rounds.specs.Answers.{HasSeconds, IsEntryWithin};
ghost use Rattle.raptor_rounds.specs.Labels.{AreSpans};
ghost use Rattle.raptor_rounds.specs.Ways.{Query};
ghost use Rattle.range_lanes.specs.declared.level.Level.{Level};
ghost use Rattle.range_lanes.specs.Levels.{Exploited, IsBound, Falls, LeftFalls, Covers, Fits, IsSound, IsReadySound};
ghost use Rattle.range_lanes.specs.Lent.{IsLentBy, lent_count};
ghost use Rattle.range_lanes.specs.State.{BoardsAt, IsWalked};

use crate::lent::LentRows;
use crate::level::Level;
use crate::scan::{scan, scan_first};
use crate::walk::walk;
use move_model::{Shortcut, WalkRow};
use raptor_rounds::{EntrySpans, SparseSet};
use route_split::Timetable;
use std::sync::ledger::Ledger;
use steps::Steps;

/// The lesser of two seconds.
fn lesser(a: u64, b: u64) -> u64
    ensures { (result ≡ a) ⊎ (result ≡ b) }
{
    if b < a {
        return b;
    }
    a
}

/// The least of the best arrivals.
fn least_best(below: &[Level]) -> u64
    ensures { IsBound below.now result }
{
    let mut bound = u64::MAX;
    let count = below.len();
    for i in 0..count {
        let level = &below[i];
        bound = lesser(bound, level.best);
    }
    bound
}

/// Boards rides at the stops that got better: at the level before, or by the first row.
fn ride_level<'a, L: Ledger>(
    table: &'a Timetable,
    held: &mut LentRows<'a>,
    better: &SparseSet,
    first: &WalkRow,
    depart: u32,
    below: &[Level],
    level: &mut Level,
    last: &WalkRow,
    bound: u64,
    fresh: &mut SparseSet,
    opens: &mut Steps<L>,
)
    requires stops { table.now.stops ≡ length last.now }
    requires better { length better.now ≡ length last.now }
    requires first { length first.now ≡ length last.now }
    requires first_seconds { All HasSeconds first.now }
    requires held { IsLentBy table.now held.old }
    requires below { All (Fits (length last.now)) below.now }
    requires fits { Fits (length last.now) level.old }
    requires fresh { length fresh.old ≡ length last.now }
    requires seconds { All HasSeconds last.now }
    requires bound { IsBound below.now bound }
    ensures followed { (r i second : ℕ) (route : Route) (place : Place) → slice_get table.now.routes r ≡ Some route → slice_get route.places i ≡ Some place
        → BoardsAt first.now depart (slice_get below.now (length below.now - 1)) place.stop.0 second
        → slice_index_or better.now place.stop.0 false ≡ true → Exploited below.now level.new route table.now.buffer i second }
    ensures falls { LeftFalls level.old level.new fresh.old fresh.new }
    ensures covers { Covers last.now level.old → Covers last.now level.new }
    ensures sound { (q : Query) → q.first ≡ first.now → q.last ≡ last.now → q.depart ≡ depart → q.network.buffer ≡ table.now.buffer
        → HoldsTrips q.network.trips table.now.routes
        → ((l : Level) → slice_get below.now (length below.now - 1) ≡ Some l → IsReadySound q l)
        → IsSound q below.now level.old → IsSound q below.now level.new }
    ensures held { IsLentBy table.now held.new }
    ensures counted { opens.new + lent_count held.old ≡ opens.old + lent_count held.new }
{
    let count = below.len();
    if count == 0 {
        scan_first(
            table, held, better, first, depart, below, level, last, bound, fresh, opens,
        );
    } else {
        let before = &below[count - 1];
        scan(
            table, held, better, before, below, level, last, bound, fresh, opens,
        );
    }
}

/// One round at a level, over the levels of fewer rides.
pub fn round_at<'a, L: Ledger>(
    table: &'a Timetable,
    held: &mut LentRows<'a>,
    list: &[Shortcut],
    spans: &EntrySpans,
    first: &WalkRow,
    depart: u32,
    below: &[Level],
    level: &mut Level,
    last: &WalkRow,
    better: &mut SparseSet,
    fresh: &mut SparseSet,
    opens: &mut Steps<L>,
)
    requires stops { table.now.stops ≡ length last.now }
    requires list { All (IsEntryWithin (length last.now)) list.now }
    requires firsts { length spans.now.firsts ≡ length last.now }
    requires ends { vec_len spans.now.ends ≡ length last.now }
    requires spans { AreSpans list.now (length list.now) spans.now }
    requires better { length better.old ≡ length last.now }
    requires first { length first.now ≡ length last.now }
    requires first_seconds { All HasSeconds first.now }
    requires held { IsLentBy table.now held.old }
    requires below { All (Fits (length last.now)) below.now }
    requires fits { Fits (length last.now) level.old }
    requires fresh { length fresh.old ≡ length last.now }
    requires seconds { All HasSeconds last.now }
    ensures followed { (r i second : ℕ) (route : Route) (place : Place) → slice_get table.now.routes r ≡ Some route → slice_get route.places i ≡ Some place
        → BoardsAt first.now depart (slice_get below.now (length below.now - 1)) place.stop.0 second
        → slice_index_or better.old place.stop.0 false ≡ true → Exploited below.now level.new route table.now.buffer i second }
    ensures falls { Falls level.old level.new }
    ensures fits { Fits (length last.now) level.new }
    ensures ready { (x : ℕ) → slice_index_or better.new x false ≡ false → slice_index level.new.ready.items x ≡ slice_index level.old.ready.items x }
    ensures walked { IsWalked list.now below.now level.old → IsWalked list.now below.now level.new }
    ensures covers { Covers last.now level.old → Covers last.now level.new }
    ensures sound { (q : Query) → q.first ≡ first.now → q.last ≡ last.now → q.list ≡ list.now → q.depart ≡ depart → q.network.buffer ≡ table.now.buffer
        → HoldsTrips q.network.trips table.now.routes
        → ((l : Level) → slice_get below.now (length below.now - 1) ≡ Some l → IsReadySound q l)
        → IsSound q below.now level.old → IsSound q below.now level.new }
    ensures held { IsLentBy table.now held.new }
    ensures better { length better.new ≡ length last.now }
    ensures fresh { length fresh.new ≡ length last.now }
    ensures counted { opens.new + lent_count held.old ≡ opens.old + lent_count held.new }
{
    let bound = least_best(below);
    fresh.clear();
    ride_level(
        table, held, better, first, depart, below, level, last, bound, fresh, opens,
    );
    better.clear();
    walk(below, level, list, spans, fresh, bound, better);
}
