// The rides behind a label.
ghost use Rattle.std.specs.Prelude.{◌≡◌, ◌<◌, ◌++◌, [], List, length, OnOk, slice_get};
ghost use Rattle.move_model.specs.declared.journey.Ride.{Ride};
ghost use Rattle.raptor_rounds.specs.Answers.{turned_onto};
ghost use Rattle.range_lanes.specs.State.{IsChain};

use move_model::{NoMemory, RideList, StopNo};
use range_lanes::{Level, Step};

/// The last ride of the label at a stop.
fn step_at(level: &Level, stop: StopNo) -> Option<Step>
    ensures { result ≡ slice_get level.now.steps.items stop.0 }
{
    level.steps.get(stop.0 as usize).copied()
}

/// Puts the rides that lead to a label last, the earliest of them first.
pub fn push_rides(
    levels: &[Level],
    k: usize,
    stop: StopNo,
    rides: &mut RideList,
) -> Result<(), NoMemory>
    requires { k < length levels.now }
    ensures { (chain : List Ride) → IsChain levels.now k stop chain → OnOk result (rides.new ≡ rides.old ++ turned_onto chain []) }
{
    let Some(step) = step_at(&levels[k], stop) else {
        return Ok(());
    };
    if 0 < k {
        push_rides(levels, k - 1, step.from, rides)?;
    }
    rides.push(step.ride)?;
    Ok(())
}
