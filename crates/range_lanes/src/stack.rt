// The levels of a search.
ghost use Rattle.std.specs.Prelude.{◌≡◌, ℕ, length, All, IfOk, vec_len};
ghost use Rattle.range_lanes.specs.Levels.{Fits};
ghost use Rattle.range_lanes.specs.State.{IsBlank};

use crate::level::{Level, NEVER, Step};
use move_model::{NoMemory, Ride, StopNo, TripNo};
use std::alloc::Global;

/// A level that tells of no journey.
fn new_level(alloc: Global, stops: u32) -> Result<Level, NoMemory>
    ensures { IfOk result (IsBlank stops) }
{
    let count = stops as usize;
    let ride = Ride {
        trip: TripNo(0),
        board: 0,
        alight: 0,
    };
    let step = Step {
        ride,
        from: StopNo(0),
    };
    let left = vec![in alloc; NEVER; count]?;
    let steps = vec![in alloc; step; count]?;
    let ready = vec![in alloc; NEVER; count]?;
    let from = vec![in alloc; StopNo(0); count]?;
    Ok(Level {
        left,
        steps,
        ready,
        from,
        best: u64::MAX,
        best_stop: StopNo(0),
    })
}

/// So many levels that tell of no journey.
pub fn new_levels(alloc: Global, stops: u32, limit: u32) -> Result<Vec<Level>, NoMemory>
    ensures many { IfOk result (λ levels. vec_len levels ≡ limit) }
    ensures blank { IfOk result (λ levels. All (IsBlank stops) levels.items) }
{
    let mut levels: Vec<Level> = Vec::with_capacity(alloc, limit as usize)?;
    for _k in 0..limit {
        let level = new_level(alloc, stops)?;
        levels.push(level)?;
    }
    Ok(levels)
}

/// Forgets all journeys of a level.
fn clear_level(level: &mut Level)
    ensures { (stops : ℕ) → Fits stops level.old → IsBlank stops level.new }
{
    level.left.as_mut_slice().fill(NEVER);
    level.ready.as_mut_slice().fill(NEVER);
    level.best = u64::MAX;
}

/// Forgets all journeys.
pub fn clear_levels(levels: &mut [Level])
    ensures blank { (stops : ℕ) → All (Fits stops) levels.old → All (IsBlank stops) levels.new }
    ensures many { length levels.new ≡ length levels.old }
{
    for k in 0..levels.len() {
        clear_level(&mut levels[k]);
    }
}
