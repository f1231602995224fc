// Transfers between rounds.
ghost use Rattle.std.specs.Prelude.{◌≡◌, ◌<◌, ◌≤◌, ◌+◌, ◌-◌, ◌^◌, IsTrue, ℕ, true, false, length, All, Contains, slice_index, slice_index_or, slice_set, vec_len};
ghost use Rattle.move_model.specs.declared.network.StopNo.{StopNo};
ghost use Rattle.move_model.specs.declared.journey.Shortcut.{Shortcut};
ghost use Rattle.move_model.specs.Listed.{HasTransfer};
ghost use Rattle.raptor_rounds.specs.Answers.{IsEntryWithin};
ghost use Rattle.raptor_rounds.specs.Labels.{AreSpans};
ghost use Rattle.raptor_rounds.specs.Ways.{Query};
ghost use Rattle.range_lanes.specs.declared.level.Level.{Level};
ghost use Rattle.range_lanes.specs.Levels.{Reached, IsBound, ReadyFalls, Fits, WalksBy, IsSound};

use crate::level::Level;
use move_model::{Shortcut, StopNo};
use raptor_rounds::{EntrySpans, SparseSet, entries_of};

/// Whether at a level below the passenger is ready no later.
fn is_ready_below(below: &[Level], stop: StopNo, second: u64) -> bool
    requires { All (λ level. stop.0 < vec_len level.ready) below.now }
    ensures { IsTrue result → (l : Level) × Contains below.now l × (slice_index l.ready.items stop.0 ≤ second) }
{
    for level in below {
        if u64::from(level.ready[stop.0 as usize]) <= second {
            return true;
        }
    }
    false
}

/// Whether the passenger, or a best arrival, is known to be no later.
fn is_ready_late(below: &[Level], level: &Level, stop: StopNo, second: u64, bound: u64) -> bool
    requires below { All (λ level. stop.0 < vec_len level.ready) below.now }
    requires stop { stop.0 < vec_len level.now.ready }
    requires bound { IsBound below.now bound }
    requires limited { second < 2 ^ 64 - 1 }
    ensures reached { IsTrue result → Reached below.now level.now stop.0 second }
    ensures earlier { result ≡ false → second < slice_index level.now.ready.items stop.0 }
    ensures sure { result ≡ false → second < 2 ^ 32 - 1 }
{
    if u64::from(level.ready[stop.0 as usize]) <= second {
        return true;
    }
    if level.best <= second {
        return true;
    }
    if bound <= second {
        return true;
    }
    is_ready_below(below, stop, second)
}

/// Writes when the passenger is ready at a stop.
fn set_ready(level: &mut Level, stop: StopNo, second: u32, from: StopNo, better: &mut SparseSet)
    requires ready { stop.0 < vec_len level.old.ready }
    requires from { stop.0 < vec_len level.old.from }
    requires better { stop.0 < length better.old }
    ensures ready { level.new.ready.items ≡ slice_set level.old.ready.items stop.0 second }
    ensures from { level.new.from.items ≡ slice_set level.old.from.items stop.0 from }
    ensures better { better.new ≡ slice_set better.old stop.0 true }
    ensures ready_length { vec_len level.new.ready ≡ vec_len level.old.ready }
    ensures from_length { vec_len level.new.from ≡ vec_len level.old.from }
    ensures left { level.new.left ≡ level.old.left }
    ensures steps { level.new.steps ≡ level.old.steps }
    ensures best { level.new.best ≡ level.old.best }
    ensures best_stop { level.new.best_stop ≡ level.old.best_stop }
{
    level.ready[stop.0 as usize] = second;
    level.from[stop.0 as usize] = from;
    better.insert(stop.0);
}

/// Makes the passenger ready at a stop, unless that is known to be no later.
fn reach(
    below: &[Level],
    level: &mut Level,
    stop: StopNo,
    second: u64,
    from: StopNo,
    bound: u64,
    better: &mut SparseSet,
)
    requires below { All (Fits (length better.old)) below.now }
    requires fits { Fits (length better.old) level.old }
    requires stop { stop.0 < length better.old }
    requires bound { IsBound below.now bound }
    requires limited { second < 2 ^ 64 - 1 }
    ensures known { Reached below.now level.new stop.0 second }
    ensures falls { ReadyFalls level.old level.new better.old better.new }
    ensures sound { (q : Query) → (second < 2 ^ 32 - 1 → WalksBy q level.old from stop second) → IsSound q below.now level.old → IsSound q below.now level.new }
{
    if !is_ready_late(below, level, stop, second, bound) {
        set_ready(level, stop, second as u32, from, better);
    }
}

/// Goes on by each entry of a stop from one second.
fn walk_by(
    below: &[Level],
    level: &mut Level,
    entries: &[Shortcut],
    from: StopNo,
    second: u32,
    bound: u64,
    better: &mut SparseSet,
)
    requires entries { All (IsEntryWithin (length better.old)) entries.now }
    requires below { All (Fits (length better.old)) below.now }
    requires fits { Fits (length better.old) level.old }
    requires bound { IsBound below.now bound }
    ensures known { (e : Shortcut) → Contains entries.now e → e.from ≡ from → Reached below.now level.new e.to.0 (second + e.seconds) }
    ensures falls { ReadyFalls level.old level.new better.old better.new }
    ensures sound { (q : Query) → ((e : Shortcut) → Contains entries.now e → e.from ≡ from → WalksBy q level.old from e.to (second + e.seconds))
        → IsSound q below.now level.old → IsSound q below.now level.new }
{
    for e in entries {
        if e.from.0 == from.0 {
            reach(
                below,
                level,
                e.to,
                u64::from(second) + e.seconds,
                from,
                bound,
                better,
            );
        }
    }
}

/// Goes on from where a ride was left: stays there, or takes one entry of the list.
fn walk_from(
    below: &[Level],
    level: &mut Level,
    list: &[Shortcut],
    spans: &EntrySpans,
    from: StopNo,
    bound: u64,
    better: &mut SparseSet,
)
    requires from { from.0 < length better.old }
    requires list { All (IsEntryWithin (length better.old)) list.now }
    requires firsts { length spans.now.firsts ≡ length better.old }
    requires ends { vec_len spans.now.ends ≡ length better.old }
    requires spans { AreSpans list.now (length list.now) spans.now }
    requires below { All (Fits (length better.old)) below.now }
    requires fits { Fits (length better.old) level.old }
    requires bound { IsBound below.now bound }
    ensures known { (x : StopNo) (m : ℕ) → HasTransfer list.now from x m → Reached below.now level.new x.0 (slice_index level.new.left.items from.0 + m) }
    ensures falls { ReadyFalls level.old level.new better.old better.new }
    ensures sound { (q : Query) → q.list ≡ list.now → slice_index level.old.left.items from.0 < 2 ^ 32 - 1
        → IsSound q below.now level.old → IsSound q below.now level.new }
{
    let second = level.left[from.0 as usize];
    reach(below, level, from, u64::from(second), from, bound, better);
    let entries = entries_of(list, spans, from);
    walk_by(below, level, entries, from, second, bound, better);
}

/// Goes on from each stop where a ride is left earlier than before.
pub fn walk(
    below: &[Level],
    level: &mut Level,
    list: &[Shortcut],
    spans: &EntrySpans,
    fresh: &SparseSet,
    bound: u64,
    better: &mut SparseSet,
)
    requires fresh { length fresh.now ≡ length better.old }
    requires list { All (IsEntryWithin (length better.old)) list.now }
    requires firsts { length spans.now.firsts ≡ length better.old }
    requires ends { vec_len spans.now.ends ≡ length better.old }
    requires spans { AreSpans list.now (length list.now) spans.now }
    requires below { All (Fits (length better.old)) below.now }
    requires fits { Fits (length better.old) level.old }
    requires bound { IsBound below.now bound }
    ensures known { (y x : StopNo) (m : ℕ) → slice_index_or fresh.now y.0 false ≡ true → HasTransfer list.now y x m
        → Reached below.now level.new x.0 (slice_index level.new.left.items y.0 + m) }
    ensures falls { ReadyFalls level.old level.new better.old better.new }
    ensures sound { (q : Query) → q.list ≡ list.now
        → ((y : ℕ) → slice_index_or fresh.now y false ≡ true → slice_index level.old.left.items y < 2 ^ 32 - 1)
        → IsSound q below.now level.old → IsSound q below.now level.new }
{
    let stops = fresh.as_slice();
    for y in stops {
        walk_from(below, level, list, spans, StopNo(*y), bound, better);
    }
}
