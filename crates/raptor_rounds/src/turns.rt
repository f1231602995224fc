// All rounds of a run.
ghost use Rattle.std.specs.Prelude.{◌≡◌, ◌<◌, ◌≤◌, ◌+◌, ◌-◌, ◌*◌, ◌^◌, ℕ, min, length, slice_get, MatchOption, List, Option, All, Some, vec_len};
ghost use Rattle.raptor_rounds.specs.declared.labels.Best.{Best};
ghost use Rattle.raptor_rounds.specs.Answers.{IsEntryWithin, HasSeconds};
ghost use Rattle.raptor_rounds.specs.Ways.{Query};
ghost use Rattle.raptor_rounds.specs.Labels.{AreSpans};
ghost use Rattle.raptor_rounds.specs.Least.{Sizes, IsBestOf, Asks, IsReset};

use crate::entries::Spans;
use crate::labels::{Best, Found, Ready, Step};
use crate::round::round;
use crate::sparse_row::{NEVER, SparseRow};
use move_model::{Shortcut, StopNo, WalkRow};
use route_split::{RoundMarks, Timetable};
use std::sync::ledger::Ledger;
use steps::Steps;

/// When the passenger is ready at a stop by the first row.
pub fn start_second(walk: Option<u64>, depart: u32) -> u32
    requires { HasSeconds walk }
    ensures { MatchOption walk (result ≡ 2 ^ 32 - 1) (λ m. result ≡ min (depart + m) (2 ^ 32 - 1)) }
{
    match walk {
        Some(m) => {
            let second = u64::from(depart) + m;
            if second < u64::from(NEVER) {
                second as u32
            } else {
                NEVER
            }
        }
        None => NEVER,
    }
}

/// Forgets what was known of the last question.
pub fn forget(ready: &mut Ready, found: &mut Found)
    requires sizes { Sizes (length ready.old.seconds) ready.old found.old }
    ensures sizes { Sizes (length ready.old.seconds) ready.new found.new }
    ensures length { length ready.new.seconds ≡ length ready.old.seconds }
    ensures reset { (first : List (Option ℕ)) (depart : ℕ) → IsReset first depart 0 ready.new found.new }
    ensures best { found.new.best ≡ 2 ^ 64 - 1 }
{
    found.best = u64::MAX;
    found.left.clear();
    ready.seconds.clear();
    ready.better.clear();
}

/// Begins a run.
pub fn reset(first: &WalkRow, depart: u32, ready: &mut Ready, found: &mut Found)
    requires first { length first.now ≡ length ready.old.seconds }
    requires sizes { Sizes (length ready.old.seconds) ready.old found.old }
    requires few { length ready.old.seconds < 2 ^ 32 }
    requires bound { All HasSeconds first.now }
    ensures sizes { Sizes (length ready.old.seconds) ready.new found.new }
    ensures reset { IsReset first.now depart (length ready.old.seconds) ready.new found.new }
    ensures best { found.new.best ≡ 2 ^ 64 - 1 }
{
    forget(ready, found);
    let stops = ready.by.len() as u32;
    for x in 0..stops {
        let second = start_second(first.get(StopNo(x)), depart);
        if second < NEVER {
            ready.seconds.set(x, second);
            ready.by[x as usize] = 0;
            ready.better.insert(x);
        }
    }
}

/// Runs the rounds, and leaves the best arrival for each number of rides.
pub fn run_rounds<L: Ledger>(
    table: &Timetable,
    list: &[Shortcut],
    spans: &Spans,
    first: &WalkRow,
    last: &WalkRow,
    depart: u32,
    limit: u8,
    ready: &mut Ready,
    found: &mut Found,
    starts: &mut SparseRow,
    slots: &mut [Step],
    bests: &mut [Best],
    marks: &mut RoundMarks,
    opens: &mut Steps<L>,
)
    requires sizes { Sizes table.now.stops ready.old found.old }
    requires starts { length starts.old ≡ length table.now.routes }
    requires marks { length marks.old ≡ length table.now.routes }
    requires first { length first.now ≡ table.now.stops }
    requires last { length last.now ≡ table.now.stops }
    requires bound { All HasSeconds last.now }
    requires first_bound { All HasSeconds first.now }
    requires list { All (IsEntryWithin table.now.stops) list.now }
    requires firsts { length spans.now.firsts ≡ table.now.stops }
    requires ends { vec_len spans.now.ends ≡ table.now.stops }
    requires spans { AreSpans list.now (length list.now) spans.now }
    requires room { limit * table.now.stops ≤ length slots.old }
    requires few { length slots.old < 2 ^ 32 }
    requires bests { limit < length bests.old }
    ensures sizes { Sizes table.now.stops ready.new found.new }
    ensures starts { length starts.new ≡ length starts.old }
    ensures marks { length marks.new ≡ length marks.old }
    ensures best { (q : Query) → Asks q table.now first.now last.now list.now depart → (k : ℕ) (b : Best) → k ≤ limit → slice_get bests.new k ≡ Some b
        → IsBestOf q slots.new (limit * table.now.stops) k b }
    ensures counted { opens.new ≤ opens.old + limit * length table.now.routes }
{
    let _routes = table.routes();
    let stops = table.stops() as usize;
    reset(first, depart, ready, found);
    bests[0] = Best {
        second: found.best,
        step: found.best_step,
    };
    let mut base = 0usize;
    for k in 0..limit {
        round(
            table, list, spans, last, base, ready, found, starts, slots, marks, opens,
        );
        base += stops;
        bests[k as usize + 1] = Best {
            second: found.best,
            step: found.best_step,
        };
    }
}
