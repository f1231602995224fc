// One round.
ghost use Rattle.std.specs.Prelude.{◌≡◌, ◌<◌, ◌≤◌, ◌+◌, ◌^◌, ℕ, true, length, slice_get, All, vec_len};
ghost use Rattle.route_split.specs.Calls.{IsTableOf};
ghost use Rattle.raptor_rounds.specs.Answers.{IsEntryWithin, HasSeconds};
ghost use Rattle.raptor_rounds.specs.Ways.{Query};
ghost use Rattle.raptor_rounds.specs.Labels.{Covers, Cleared, Unmarked, AreSpans};
ghost use Rattle.raptor_rounds.specs.Least.{Closed, Sizes, GoesOn};

use crate::entries::Spans;
use crate::go_on::{go_on, keep_steps};
use crate::labels::{Found, Ready, Step};
use crate::scan::scan_all;
use crate::sparse_row::SparseRow;
use crate::starts::first_calls;
use move_model::{Shortcut, WalkRow};
use route_split::{RoundMarks, Timetable};
use std::sync::ledger::Ledger;
use steps::Steps;

/// No label is fresh.
pub fn clear_fresh(found: &mut Found)
    ensures { Cleared found.old found.new }
{
    found.fresh.clear();
}

/// No stop is marked.
pub fn clear_better(ready: &mut Ready)
    ensures { Unmarked ready.old ready.new }
{
    ready.better.clear();
}

/// Rides on each route with a marked stop, and transfers from where a ride was left earlier.
pub fn round<L: Ledger>(
    table: &Timetable,
    list: &[Shortcut],
    spans: &Spans,
    last: &WalkRow,
    base: usize,
    ready: &mut Ready,
    found: &mut Found,
    starts: &mut SparseRow,
    slots: &mut [Step],
    marks: &mut RoundMarks,
    opens: &mut Steps<L>,
)
    requires sizes { Sizes table.now.stops ready.old found.old }
    requires starts { length starts.old ≡ length table.now.routes }
    requires marks { length marks.old ≡ length table.now.routes }
    requires last { length last.now ≡ table.now.stops }
    requires bound { All HasSeconds last.now }
    requires list { All (IsEntryWithin table.now.stops) list.now }
    requires firsts { length spans.now.firsts ≡ table.now.stops }
    requires ends { vec_len spans.now.ends ≡ table.now.stops }
    requires spans { AreSpans list.now (length list.now) spans.now }
    requires room { base + table.now.stops ≤ length slots.old }
    requires few { length slots.old < 2 ^ 32 }
    ensures sizes { Sizes table.now.stops ready.new found.new }
    ensures starts { length starts.new ≡ length starts.old }
    ensures marks { length marks.new ≡ length marks.old }
    ensures closed { Closed table.now list.now ready.old found.old → Closed table.now list.now ready.new found.new }
    ensures covers { Covers last.now found.old → Covers last.now found.new }
    ensures goes_on { (q : Query) (k : ℕ) → IsTableOf q.network table.now → q.last ≡ last.now → q.list ≡ list.now → Closed table.now list.now ready.old found.old
        → GoesOn q k table.now.stops base slots.old slots.new ready.old ready.new found.old found.new }
    ensures slots { (i : ℕ) → i < base → slice_get slots.new i ≡ slice_get slots.old i }
    ensures counted { opens.new ≤ opens.old + length table.now.routes }
{
    let _routes = table.routes();
    clear_fresh(found);
    first_calls(table, &ready.better, starts);
    scan_all(table, starts, ready, last, marks, found, opens);
    clear_better(ready);
    keep_steps(found, base, slots);
    go_on(list, spans, found, base, ready);
}
