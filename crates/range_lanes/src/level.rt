// What is known of journeys with one number of rides.
ghost use Rattle.std.specs.Prelude.{◌≡◌, ◌<◌, ◌≤◌, ◌+◌, ◌-◌, ◌^◌, IsTrue, false, ℕ, List, length, All, Contains, slice_index, slice_set, true, vec_len};
ghost use Rattle.move_model.specs.Listed.{HasEntry};
ghost use Rattle.raptor_rounds.specs.Answers.{HasSeconds};
ghost use Rattle.raptor_rounds.specs.Ways.{Query};
ghost use Rattle.range_lanes.specs.declared.level.Level.{Level};
ghost use Rattle.range_lanes.specs.Levels.{Served, IsBound, LeftFalls, Covers, Fits, Arrives, IsBestFrom, IsSound};

use move_model::{Ride, StopNo, WalkRow};
use raptor_rounds::SparseSet;

/// What stands for no second.
pub const NEVER: u32 = u32::MAX;

/// A ride that leads to a stop, and the stop where the ride before it was left.
#[derive(Clone, Copy)]
pub struct Step {
    pub ride: Ride,
    pub from: StopNo,
}

/// What is known of journeys with one number of rides, from the seconds that were looked at so far.
#[derive(Drop)]
pub struct Level {
    /// By stop, the least second at which the last ride is left there.
    pub left: Vec<u32>,
    /// By stop, that ride.
    pub steps: Vec<Step>,
    /// By stop, the least second at which a passenger is ready there after the last ride.
    pub ready: Vec<u32>,
    /// By stop, where that ride was left.
    pub from: Vec<StopNo>,
    /// The least arrival.
    pub best: u64,
    /// Where the last ride before it is left.
    pub best_stop: StopNo,
}

/// Whether a level below has a label at the stop that is no later.
fn is_below(below: &[Level], stop: StopNo, second: u32) -> bool
    requires { All (λ level. stop.0 < vec_len level.left) below.now }
    ensures { IsTrue result → (l : Level) × Contains below.now l × (slice_index l.left.items stop.0 ≤ second) }
{
    for level in below {
        if level.left[stop.0 as usize] <= second {
            return true;
        }
    }
    false
}

/// Whether a label or a best arrival is known to be no later.
fn is_late(below: &[Level], level: &Level, stop: StopNo, second: u32, bound: u64) -> bool
    requires below { All (λ level. stop.0 < vec_len level.left) below.now }
    requires stop { stop.0 < vec_len level.now.left }
    requires bound { IsBound below.now bound }
    ensures served { IsTrue result → Served below.now level.now stop.0 second }
    ensures earlier { result ≡ false → second < slice_index level.now.left.items stop.0 }
{
    if level.left[stop.0 as usize] <= second {
        return true;
    }
    let late = u64::from(second);
    if level.best <= late {
        return true;
    }
    if bound <= late {
        return true;
    }
    is_below(below, stop, second)
}

/// Writes a label.
fn set_label(level: &mut Level, stop: StopNo, second: u32, step: Step, fresh: &mut SparseSet)
    requires left { stop.0 < vec_len level.old.left }
    requires steps { stop.0 < vec_len level.old.steps }
    requires fresh { stop.0 < length fresh.old }
    ensures left { level.new.left.items ≡ slice_set level.old.left.items stop.0 second }
    ensures steps { level.new.steps.items ≡ slice_set level.old.steps.items stop.0 step }
    ensures fresh { fresh.new ≡ slice_set fresh.old stop.0 true }
    ensures left_length { vec_len level.new.left ≡ vec_len level.old.left }
    ensures steps_length { vec_len level.new.steps ≡ vec_len level.old.steps }
    ensures ready { level.new.ready ≡ level.old.ready }
    ensures from { level.new.from ≡ level.old.from }
    ensures best { level.new.best ≡ level.old.best }
    ensures best_stop { level.new.best_stop ≡ level.old.best_stop }
{
    level.left[stop.0 as usize] = second;
    level.steps[stop.0 as usize] = step;
    fresh.insert(stop.0);
}

/// Takes the arrival from a stop for the best, where it is earlier.
fn lower_best(level: &mut Level, stop: StopNo, second: u32, last: &WalkRow)
    requires stop { stop.0 < length last.now }
    requires seconds { All HasSeconds last.now }
    ensures left { level.new.left ≡ level.old.left }
    ensures steps { level.new.steps ≡ level.old.steps }
    ensures ready { level.new.ready ≡ level.old.ready }
    ensures from { level.new.from ≡ level.old.from }
    ensures falls { level.new.best ≤ level.old.best }
    ensures known { (m : ℕ) → HasEntry last.now stop m → level.new.best ≤ second + m }
    ensures sound { IsBestFrom last.now level.old level.new stop second }
{
    let Some(walk) = last.get(stop) else {
        return;
    };
    let arrive = u64::from(second) + walk;
    if arrive < level.best {
        level.best = arrive;
        level.best_stop = stop;
    }
}

/// Takes a ride left at a stop for its label, which is later.
fn take(
    level: &mut Level,
    stop: StopNo,
    second: u32,
    step: Step,
    last: &WalkRow,
    fresh: &mut SparseSet,
)
    requires fits { Fits (length last.now) level.old }
    requires fresh { length fresh.old ≡ length last.now }
    requires stop { stop.0 < length last.now }
    requires seconds { All HasSeconds last.now }
    requires earlier { second < slice_index level.old.left.items stop.0 }
    requires sure { second < 2 ^ 32 - 1 }
    ensures label { slice_index level.new.left.items stop.0 ≡ second }
    ensures falls { LeftFalls level.old level.new fresh.old fresh.new }
    ensures covers { Covers last.now level.old → Covers last.now level.new }
    ensures sound { (q : Query) (below : List Level) → q.last ≡ last.now → Arrives q below stop second step → IsSound q below level.old → IsSound q below level.new }
{
    set_label(level, stop, second, step, fresh);
    lower_best(level, stop, second, last);
}

/// Takes a ride left at a stop for its label, unless a label or a best arrival is known to be no later.
pub fn leave(
    below: &[Level],
    level: &mut Level,
    stop: StopNo,
    second: u32,
    step: Step,
    last: &WalkRow,
    bound: u64,
    fresh: &mut SparseSet,
)
    requires below { All (Fits (length last.now)) below.now }
    requires fits { Fits (length last.now) level.old }
    requires fresh { length fresh.old ≡ length last.now }
    requires stop { stop.0 < length last.now }
    requires seconds { All HasSeconds last.now }
    requires bound { IsBound below.now bound }
    requires sure { second < 2 ^ 32 - 1 }
    ensures known { Served below.now level.new stop.0 second }
    ensures falls { LeftFalls level.old level.new fresh.old fresh.new }
    ensures covers { Covers last.now level.old → Covers last.now level.new }
    ensures sound { (q : Query) → q.last ≡ last.now → Arrives q below.now stop second step → IsSound q below.now level.old → IsSound q below.now level.new }
{
    if !is_late(below, level, stop, second, bound) {
        take(level, stop, second, step, last, fresh);
    }
}
