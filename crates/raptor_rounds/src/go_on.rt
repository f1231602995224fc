// Transfers between rounds.
ghost use Rattle.std.specs.Prelude.{◌≡◌, ◌<◌, ◌≤◌, ◌+◌, ◌-◌, ◌^◌, ℕ, min, true, false, length, slice_get, slice_index, slice_index_or, All, Contains, vec_len};
ghost use Rattle.move_model.specs.declared.network.StopNo.{StopNo};
ghost use Rattle.move_model.specs.declared.journey.Shortcut.{Shortcut};
ghost use Rattle.move_model.specs.Listed.{HasTransfer};
ghost use Rattle.raptor_rounds.specs.Answers.{IsEntryWithin};
ghost use Rattle.raptor_rounds.specs.Labels.{Scope, ReadyBy, AllReady, ReadyFalls, AreSpans};

use crate::entries::{Spans, entries_of};
use crate::labels::{Found, Ready, Step};
use move_model::{Shortcut, StopNo};

/// Makes the passenger ready at a stop, where that is earlier than the label and the best arrival.
pub fn lower_ready(stop: StopNo, second: u64, by: u32, best: u64, ready: &mut Ready)
    requires stop { stop.0 < length ready.old.seconds }
    requires by { vec_len ready.old.by ≡ length ready.old.seconds }
    requires better { length ready.old.better ≡ length ready.old.seconds }
    ensures known { min (slice_index ready.new.seconds stop.0) best ≤ second }
    ensures falls { ReadyFalls ready.old ready.new }
    ensures sound { (s : Scope) → (second < 2 ^ 32 - 1 → ReadyBy s stop second by) → AllReady s ready.old.seconds ready.old.by.items
        → AllReady s ready.new.seconds ready.new.by.items }
{
    if second < u64::from(ready.seconds.get(stop.0)) && second < best {
        ready.seconds.set(stop.0, second as u32);
        ready.by[stop.0 as usize] = by;
        ready.better.insert(stop.0);
    }
}

/// Goes on by each entry of a stop from one second.
pub fn walk_from(
    entries: &[Shortcut],
    from: StopNo,
    second: u32,
    by: u32,
    best: u64,
    ready: &mut Ready,
)
    requires entries { All (IsEntryWithin (length ready.old.seconds)) entries.now }
    requires by { vec_len ready.old.by ≡ length ready.old.seconds }
    requires better { length ready.old.better ≡ length ready.old.seconds }
    ensures known { (e : Shortcut) → Contains entries.now e → e.from ≡ from → min (slice_index ready.new.seconds e.to.0) best ≤ second + e.seconds }
    ensures falls { ReadyFalls ready.old ready.new }
    ensures sound { (s : Scope) → ((e : Shortcut) → Contains entries.now e → e.from ≡ from → second + e.seconds < 2 ^ 32 - 1 → ReadyBy s e.to (second + e.seconds) by)
        → AllReady s ready.old.seconds ready.old.by.items → AllReady s ready.new.seconds ready.new.by.items }
{
    for e in entries {
        if e.from.0 == from.0 {
            lower_ready(e.to, u64::from(second) + e.seconds, by, best, ready);
        }
    }
}

/// Goes on from where a ride was left: stays there, or takes one entry of the list.
pub fn go_on_from(
    list: &[Shortcut],
    spans: &Spans,
    from: StopNo,
    second: u32,
    by: u32,
    best: u64,
    ready: &mut Ready,
)
    requires from { from.0 < length ready.old.seconds }
    requires list { All (IsEntryWithin (length ready.old.seconds)) list.now }
    requires firsts { length spans.now.firsts ≡ length ready.old.seconds }
    requires ends { vec_len spans.now.ends ≡ length ready.old.seconds }
    requires spans { AreSpans list.now (length list.now) spans.now }
    requires by { vec_len ready.old.by ≡ length ready.old.seconds }
    requires better { length ready.old.better ≡ length ready.old.seconds }
    ensures known { (x : StopNo) (m : ℕ) → HasTransfer list.now from x m → min (slice_index ready.new.seconds x.0) best ≤ second + m }
    ensures falls { ReadyFalls ready.old ready.new }
    ensures sound { (s : Scope) → ((x : StopNo) (m : ℕ) → HasTransfer list.now from x m → second + m < 2 ^ 32 - 1 → ReadyBy s x (second + m) by)
        → AllReady s ready.old.seconds ready.old.by.items → AllReady s ready.new.seconds ready.new.by.items }
{
    lower_ready(from, u64::from(second), by, best, ready);
    let entries = entries_of(list, spans, from);
    walk_from(entries, from, second, by, best, ready);
}

/// Keeps the steps of fresh labels in their slots.
pub fn keep_steps(found: &Found, base: usize, slots: &mut [Step])
    requires room { base + vec_len found.now.steps ≤ length slots.old }
    requires fresh { length found.now.fresh ≡ vec_len found.now.steps }
    ensures below { (i : ℕ) → i < base → slice_get slots.new i ≡ slice_get slots.old i }
    ensures kept { (y : ℕ) → slice_index_or found.now.fresh y false ≡ true → slice_get slots.new (base + y) ≡ slice_get found.now.steps.items y }
{
    let stops = found.fresh.as_slice();
    for y in stops {
        let at = *y as usize;
        slots[base + at] = found.steps[at];
    }
}

/// Goes on from each fresh label.
pub fn go_on(list: &[Shortcut], spans: &Spans, found: &Found, base: usize, ready: &mut Ready)
    requires fresh { length found.now.fresh ≡ length found.now.left }
    requires left { length found.now.left ≡ length ready.old.seconds }
    requires list { All (IsEntryWithin (length ready.old.seconds)) list.now }
    requires firsts { length spans.now.firsts ≡ length ready.old.seconds }
    requires ends { vec_len spans.now.ends ≡ length ready.old.seconds }
    requires spans { AreSpans list.now (length list.now) spans.now }
    requires by { vec_len ready.old.by ≡ length ready.old.seconds }
    requires better { length ready.old.better ≡ length ready.old.seconds }
    requires room { base + length found.now.left < 2 ^ 32 }
    ensures known { (y x : StopNo) (m : ℕ) → slice_index_or found.now.fresh y.0 false ≡ true → HasTransfer list.now y x m
        → min (slice_index ready.new.seconds x.0) found.now.best ≤ slice_index found.now.left y.0 + m }
    ensures falls { ReadyFalls ready.old ready.new }
    ensures sound { (s : Scope) → ((y x : StopNo) (m : ℕ) → slice_index_or found.now.fresh y.0 false ≡ true → HasTransfer list.now y x m
        → slice_index found.now.left y.0 + m < 2 ^ 32 - 1 → ReadyBy s x (slice_index found.now.left y.0 + m) (base + y.0 + 1))
        → AllReady s ready.old.seconds ready.old.by.items → AllReady s ready.new.seconds ready.new.by.items }
{
    let stops = found.fresh.as_slice();
    for y in stops {
        let second = found.left.get(*y);
        let by = (base + *y as usize + 1) as u32;
        go_on_from(list, spans, StopNo(*y), second, by, found.best, ready);
    }
}
