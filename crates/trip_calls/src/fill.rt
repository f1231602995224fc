// The times of calls that have none.
ghost use Rattle.std.specs.Prelude.{◌≡◌, ℕ, ◌<◌, ◌≤◌, ◌^◌, ◌++◌, length, map, All, IfOk, OnOk};
ghost use Rattle.trip_calls.specs.CallRules.{HoldTogether};
ghost use Rattle.trip_calls.specs.Filled as spec;

use crate::{KeptCall, Times};
use move_model::{Call, Calls};
use std::alloc::{AllocError, Global};

fn with_times(call: &KeptCall, times: Times) -> Call
    ensures { result ≡ spec.with_times call.now times.arr times.dep }
{
    Call {
        stop: call.stop,
        arr: times.arr,
        dep: times.dep,
        board: call.board,
        alight: call.alight,
    }
}

// The second after `step` of `steps` equal steps from one second to a later one.
fn between(from: u32, to: u32, step: u32, steps: u32) -> u32
    requires rises { from ≤ to }
    requires within { step < steps }
    ensures { result ≡ spec.second_between from to step steps }
{
    from + (u64::from(to - from) * u64::from(step) / u64::from(steps)) as u32
}

// Puts the calls from the first one that is not filled yet up to a place that has times: seconds pass evenly from the
// departure of the last one that is filled.
fn fill_gap(
    filled: &mut Calls,
    calls: &[KeptCall],
    place: usize,
    departs: u32,
    arrives: u32,
) -> Result<(), AllocError>
    requires ahead { length filled.old ≤ place }
    requires within { place < length calls.now }
    requires rises { departs ≤ arrives }
    requires few { length calls.now < 2 ^ 32 }
    ensures ok { OnOk result (filled.new ≡ filled.old ++ spec.gap calls.now (length filled.old) place departs arrives) }
{
    let begun = filled.len();
    let steps = (place + 1 - begun) as u32;
    for at in begun..place {
        let second = between(departs, arrives, (at + 1 - begun) as u32, steps);
        filled.push(with_times(
            &calls[at],
            Times {
                arr: second,
                dep: second,
            },
        ))?;
    }
    Ok(())
}

/// The calls of a trip with their times. Between the nearest calls that have times, seconds pass evenly from call to
/// call, rounded down.
pub fn fill_times(alloc: Global, calls: &[KeptCall]) -> Result<Calls, AllocError>
    requires hold { HoldTogether calls.now }
    requires in_time { All spec.IsInTime calls.now }
    requires few { length calls.now < 2 ^ 32 }

    ensures filled { IfOk result (spec.IsFilled calls.now) }
    ensures stops { IfOk result (λ filled. map (λ call. call.stop) filled ≡ map (λ call. call.stop) calls.now) }
    ensures timely { IfOk result (λ filled. (second : ℕ) × spec.IsTimely filled second) }
{
    let mut filled = Calls::new(alloc);
    let mut departs = 0;
    for (place, call) in calls.iter().enumerate() {
        if let Some(times) = call.times {
            fill_gap(&mut filled, calls, place, departs, times.arr)?;
            filled.push(with_times(call, times))?;
            departs = times.dep;
        }
    }
    Ok(filled)
}
