// All rounds at one second.
ghost use Rattle.std.specs.Prelude.{◌≡◌, ◌<◌, ◌≤◌, ◌+◌, ◌-◌, ◌^◌, ℕ, length, All, vec_len};
ghost use Rattle.route_split.specs.Calls.{HoldsTrips};
ghost use Rattle.raptor_rounds.specs.Answers.{HasSeconds, IsEntryWithin};
ghost use Rattle.raptor_rounds.specs.Labels.{AreSpans};
ghost use Rattle.raptor_rounds.specs.Ways.{Query};
ghost use Rattle.range_lanes.specs.Levels.{Fits};
ghost use Rattle.range_lanes.specs.Lent.{IsLentBy, lent_count};
ghost use Rattle.range_lanes.specs.State.{IsClosed, IsBetween, AreSound};

use crate::lent::LentRows;
use crate::level::Level;
use crate::round::round_at;
use move_model::{Shortcut, WalkRow};
use raptor_rounds::{EntrySpans, SparseSet};
use route_split::Timetable;
use std::sync::ledger::Ledger;
use steps::Steps;

/// Round k: rides at the stops that got better at the level before, and transfers from where they are left.
fn round<'a, L: Ledger>(
    table: &'a Timetable,
    held: &mut LentRows<'a>,
    list: &[Shortcut],
    spans: &EntrySpans,
    first: &WalkRow,
    depart: u32,
    levels: &mut [Level],
    k: usize,
    last: &WalkRow,
    better: &mut SparseSet,
    fresh: &mut SparseSet,
    opens: &mut Steps<L>,
)
    requires k { k < length levels.old }
    requires stops { table.now.stops ≡ length last.now }
    requires list { All (IsEntryWithin (length last.now)) list.now }
    requires firsts { length spans.now.firsts ≡ length last.now }
    requires ends { vec_len spans.now.ends ≡ length last.now }
    requires spans { AreSpans list.now (length list.now) spans.now }
    requires better { length better.old ≡ length last.now }
    requires first { length first.now ≡ length last.now }
    requires first_seconds { All HasSeconds first.now }
    requires held { IsLentBy table.now held.old }
    requires fits { All (Fits (length last.now)) levels.old }
    requires fresh { length fresh.old ≡ length last.now }
    requires seconds { All HasSeconds last.now }
    ensures between { IsBetween table.now first.now last.now list.now depart k better.old levels.old
        → IsBetween table.now first.now last.now list.now depart (k + 1) better.new levels.new }
    ensures sound { (q : Query) → q.first ≡ first.now → q.last ≡ last.now → q.list ≡ list.now → q.depart ≡ depart → q.network.buffer ≡ table.now.buffer
        → HoldsTrips q.network.trips table.now.routes → AreSound q levels.old → AreSound q levels.new }
    ensures fits { All (Fits (length last.now)) levels.new }
    ensures many { length levels.new ≡ length levels.old }
    ensures held { IsLentBy table.now held.new }
    ensures better { length better.new ≡ length last.now }
    ensures fresh { length fresh.new ≡ length last.now }
    ensures counted { opens.new + lent_count held.old ≡ opens.old + lent_count held.new }
{
    let (below, rest) = levels.split_at_mut(k);
    round_at(
        table,
        held,
        list,
        spans,
        first,
        depart,
        below,
        &mut rest[0],
        last,
        better,
        fresh,
        opens,
    );
}

/// All rounds, from the first rides at the marked stops on: thereafter no listed journey that leaves at this second is
/// better than what the levels tell.
pub fn rounds<'a, L: Ledger>(
    table: &'a Timetable,
    held: &mut LentRows<'a>,
    list: &[Shortcut],
    spans: &EntrySpans,
    first: &WalkRow,
    depart: u32,
    levels: &mut [Level],
    last: &WalkRow,
    seeds: &mut SparseSet,
    fresh: &mut SparseSet,
    opens: &mut Steps<L>,
)
    requires stops { table.now.stops ≡ length last.now }
    requires list { All (IsEntryWithin (length last.now)) list.now }
    requires firsts { length spans.now.firsts ≡ length last.now }
    requires ends { vec_len spans.now.ends ≡ length last.now }
    requires spans { AreSpans list.now (length list.now) spans.now }
    requires seeds { length seeds.old ≡ length last.now }
    requires first { length first.now ≡ length last.now }
    requires first_seconds { All HasSeconds first.now }
    requires held { IsLentBy table.now held.old }
    requires fits { All (Fits (length last.now)) levels.old }
    requires fresh { length fresh.old ≡ length last.now }
    requires seconds { All HasSeconds last.now }
    ensures closed { IsBetween table.now first.now last.now list.now depart 0 seeds.old levels.old
        → IsClosed table.now first.now last.now list.now depart levels.new }
    ensures sound { (q : Query) → q.first ≡ first.now → q.last ≡ last.now → q.list ≡ list.now → q.depart ≡ depart → q.network.buffer ≡ table.now.buffer
        → HoldsTrips q.network.trips table.now.routes → AreSound q levels.old → AreSound q levels.new }
    ensures fits { All (Fits (length last.now)) levels.new }
    ensures many { length levels.new ≡ length levels.old }
    ensures held { IsLentBy table.now held.new }
    ensures seeds { length seeds.new ≡ length last.now }
    ensures fresh { length fresh.new ≡ length last.now }
    ensures counted { opens.new + lent_count held.old ≡ opens.old + lent_count held.new }
{
    let count = levels.len();
    for k in 0..count {
        round(
            table, held, list, spans, first, depart, levels, k, last, seeds, fresh, opens,
        );
    }
}
