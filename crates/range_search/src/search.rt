// From the last second of a window to its first.
ghost use Rattle.std.specs.Prelude.{◌≡◌, ◌<◌, ◌≤◌, ◌+◌, ◌-◌, ◌%◌, ◌^◌, ℕ, List, if◌then◌else◌, length, All, Contains, Some, slice_get, slice_index, slice_index_or, vec_len, true, false};
ghost use Rattle.move_model.specs.declared.network.StopNo.{StopNo};
ghost use Rattle.route_split.specs.Calls.{HoldsTrips};
ghost use Rattle.raptor_rounds.specs.Answers.{HasSeconds, IsEntryWithin};
ghost use Rattle.raptor_rounds.specs.Labels.{AreSpans};
ghost use Rattle.raptor_rounds.specs.Ways.{Query};
ghost use Rattle.range_lanes.specs.Levels.{Fits};
ghost use Rattle.range_lanes.specs.Lent.{IsLentBy, lent_count};
ghost use Rattle.range_lanes.specs.State.{IsClosed, AreSound};
ghost use Rattle.range_search.specs.Search.{CatchesListed, HasDone, HasOpened};

use move_model::{Shortcut, StopNo, WalkRow};
use range_lanes::{LentRows, Level, clear_levels, rounds};
use raptor_rounds::{EntrySpans, SparseSet};
use route_split::Timetable;
use std::sync::ledger::Ledger;
use steps::Steps;

/// Marks all numbers below a bound.
fn mark_all(bound: u32, set: &mut SparseSet)
    requires { bound ≤ length set.old }
    ensures same { length set.new ≡ length set.old }
    ensures marks { (x : ℕ) → x < bound → slice_index_or set.new x false ≡ true }
{
    for x in 0..bound {
        set.insert(x);
    }
}

/// The search at the last second of a window, of which nothing is known.
pub fn search_last<'a, L: Ledger>(
    table: &'a Timetable,
    held: &mut LentRows<'a>,
    list: &[Shortcut],
    spans: &EntrySpans,
    first: &WalkRow,
    depart: u32,
    levels: &mut [Level],
    last: &WalkRow,
    better: &mut SparseSet,
    fresh: &mut SparseSet,
    opens: &mut Steps<L>,
)
    requires stops { table.now.stops ≡ length last.now }
    requires list { All (IsEntryWithin (length last.now)) list.now }
    requires firsts { length spans.now.firsts ≡ length last.now }
    requires ends { vec_len spans.now.ends ≡ length last.now }
    requires spans { AreSpans list.now (length list.now) spans.now }
    requires better { length better.old ≡ length last.now }
    requires first { length first.now ≡ length last.now }
    requires first_seconds { All HasSeconds first.now }
    requires held { IsLentBy table.now held.old }
    requires fits { All (Fits (length last.now)) levels.old }
    requires fresh { length fresh.old ≡ length last.now }
    requires seconds { All HasSeconds last.now }
    ensures closed { IsClosed table.now first.now last.now list.now depart levels.new }
    ensures sound { (q : Query) → q.first ≡ first.now → q.last ≡ last.now → q.list ≡ list.now → q.depart ≡ depart → q.network.buffer ≡ table.now.buffer
        → HoldsTrips q.network.trips table.now.routes → AreSound q levels.new }
    ensures fits { All (Fits (length last.now)) levels.new }
    ensures many { length levels.new ≡ length levels.old }
    ensures held { IsLentBy table.now held.new }
    ensures better { length better.new ≡ length last.now }
    ensures fresh { length fresh.new ≡ length last.now }
    ensures counted { opens.new ≡ opens.old + lent_count held.new }
{
    let _routes = table.routes();
    held.close(table);
    clear_levels(levels);
    mark_all(table.stops(), better);
    rounds(
        table, held, list, spans, first, depart, levels, last, better, fresh, opens,
    );
}

/// Marks stops.
fn mark_stops(stops: &[StopNo], set: &mut SparseSet)
    requires within { All (λ stop. stop.0 < length set.old) stops.now }
    ensures same { length set.new ≡ length set.old }
    ensures marks { (x : StopNo) → Contains stops.now x → slice_index_or set.new x.0 false ≡ true }
{
    for stop in stops {
        set.insert(stop.0);
    }
}

/// The search at a departure, from what is known of the second after it. A group's first departure closes the routes.
fn search_back<'a, L: Ledger>(
    table: &'a Timetable,
    held: &mut LentRows<'a>,
    stops: &[StopNo],
    closes: bool,
    list: &[Shortcut],
    spans: &EntrySpans,
    first: &WalkRow,
    depart: u32,
    levels: &mut [Level],
    last: &WalkRow,
    better: &mut SparseSet,
    fresh: &mut SparseSet,
    opens: &mut Steps<L>,
)
    requires stops { table.now.stops ≡ length last.now }
    requires at_stops { All (λ stop. stop.0 < length last.now) stops.now }
    requires list { All (IsEntryWithin (length last.now)) list.now }
    requires firsts { length spans.now.firsts ≡ length last.now }
    requires ends { vec_len spans.now.ends ≡ length last.now }
    requires spans { AreSpans list.now (length list.now) spans.now }
    requires better { length better.old ≡ length last.now }
    requires first { length first.now ≡ length last.now }
    requires first_seconds { All HasSeconds first.now }
    requires held { IsLentBy table.now held.old }
    requires fits { All (Fits (length last.now)) levels.old }
    requires fresh { length fresh.old ≡ length last.now }
    requires seconds { All HasSeconds last.now }
    ensures closed { (ds : List ℕ) (next : ℕ) → CatchesListed table.now first.now depart stops.now ds next
        → IsClosed table.now first.now last.now list.now (depart + 1) levels.old → IsClosed table.now first.now last.now list.now depart levels.new }
    ensures sound { (q : Query) → q.first ≡ first.now → q.last ≡ last.now → q.list ≡ list.now → q.depart ≡ depart → q.network.buffer ≡ table.now.buffer
        → HoldsTrips q.network.trips table.now.routes → AreSound q levels.old → AreSound q levels.new }
    ensures fits { All (Fits (length last.now)) levels.new }
    ensures many { length levels.new ≡ length levels.old }
    ensures held { IsLentBy table.now held.new }
    ensures better { length better.new ≡ length last.now }
    ensures fresh { length fresh.new ≡ length last.now }
    ensures counted { opens.new + (if closes then 0 else lent_count held.old) ≡ opens.old + lent_count held.new }
{
    close_where(table, held, closes);
    better.clear();
    mark_stops(stops, better);
    rounds(
        table, held, list, spans, first, depart, levels, last, better, fresh, opens,
    );
}

/// Closes all routes where that is asked for.
fn close_where<'a>(table: &'a Timetable, held: &mut LentRows<'a>, closes: bool)
    requires { IsLentBy table.now held.old }
    ensures held { IsLentBy table.now held.new }
    ensures count { lent_count held.new ≡ (if closes then 0 else lent_count held.old) }
{
    if closes {
        held.close(table);
    }
}

/// Whether so many departures are whole groups of eight.
fn begins_group(done: usize) -> bool
    ensures yes { result ≡ true → done % 8 ≡ 0 }
    ensures no { result ≡ false → 0 < done % 8 }
{
    done % 8 == 0
}

/// Whether the second is the next departure.
fn is_next(departures: &[u32], next: usize, depart: u32) -> bool
    ensures yes { result ≡ true → slice_get departures.now next ≡ Some depart }
    ensures no { result ≡ false → slice_get departures.now next ≡ Some depart → ⊥ }
    ensures within { result ≡ true → next < length departures.now }
{
    match departures.get(next) {
        Some(second) => *second == depart,
        None => false,
    }
}

/// The search at a second of the window, from what is known of the second after it. It gives the number of departures that
/// are done.
pub fn search_second<'a, L: Ledger>(
    table: &'a Timetable,
    held: &mut LentRows<'a>,
    departures: &[u32],
    next: usize,
    stops: &[StopNo],
    list: &[Shortcut],
    spans: &EntrySpans,
    first: &WalkRow,
    depart: u32,
    levels: &mut [Level],
    last: &WalkRow,
    better: &mut SparseSet,
    fresh: &mut SparseSet,
    opens: &mut Steps<L>,
) -> usize
    requires next { next ≤ length departures.now }
    requires stops { table.now.stops ≡ length last.now }
    requires at_stops { All (λ stop. stop.0 < length last.now) stops.now }
    requires list { All (IsEntryWithin (length last.now)) list.now }
    requires firsts { length spans.now.firsts ≡ length last.now }
    requires ends { vec_len spans.now.ends ≡ length last.now }
    requires spans { AreSpans list.now (length list.now) spans.now }
    requires better { length better.old ≡ length last.now }
    requires first { length first.now ≡ length last.now }
    requires first_seconds { All HasSeconds first.now }
    requires held { IsLentBy table.now held.old }
    requires fits { All (Fits (length last.now)) levels.old }
    requires fresh { length fresh.old ≡ length last.now }
    requires seconds { All HasSeconds last.now }
    ensures done { HasDone departures.now next depart result }
    ensures closed { CatchesListed table.now first.now depart stops.now departures.now next
        → IsClosed table.now first.now last.now list.now (depart + 1) levels.old → IsClosed table.now first.now last.now list.now depart levels.new }
    ensures sound { (q : Query) → q.first ≡ first.now → q.last ≡ last.now → q.list ≡ list.now → q.depart ≡ depart → q.network.buffer ≡ table.now.buffer
        → HoldsTrips q.network.trips table.now.routes → AreSound q levels.old → AreSound q levels.new }
    ensures fits { All (Fits (length last.now)) levels.new }
    ensures many { length levels.new ≡ length levels.old }
    ensures held { IsLentBy table.now held.new }
    ensures better { length better.new ≡ length last.now }
    ensures fresh { length fresh.new ≡ length last.now }
    ensures counted { HasOpened next result (lent_count held.old) (lent_count held.new) opens.old opens.new }
{
    if is_next(departures, next, depart) {
        search_back(
            table,
            held,
            stops,
            begins_group(next),
            list,
            spans,
            first,
            depart,
            levels,
            last,
            better,
            fresh,
            opens,
        );
        return next + 1;
    }
    next
}
