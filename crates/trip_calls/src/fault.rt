// The rules on the calls of a trip.
ghost use Rattle.std.specs.Prelude.{◌≡◌, ◌<◌, ◌+◌, ◌==◌, ◌||◌, length};
ghost use Rattle.refusals.specs.Refusal.{or_then};
ghost use Rattle.trip_calls.specs.CallRules as spec;

use crate::{KeptCall, Times};
use move_model::Cause;

/// The row of a call that breaks a rule, and the cause.
#[derive(Clone, Copy, Debug, PartialEq, Eq)]
pub struct Fault {
    pub row: u32,
    pub cause: Cause,
}

#[tactic(auto, unfolding(crate::specs::CallRules::repeated_broken))]
fn repeated(previous: Option<u32>, sequence: u32) -> Option<Cause>
    ensures { result ≡ spec.repeated_broken previous sequence }
{
    match previous {
        Some(before) if before == sequence => Some(Cause::Repeated),
        _ => None,
    }
}

#[tactic(auto, unfolding(crate::specs::CallRules::no_time_broken))]
fn no_time(at_end: bool, times: Option<Times>) -> Option<Cause>
    ensures { result ≡ spec.no_time_broken at_end times }
{
    match times {
        None if at_end => Some(Cause::NoTime),
        _ => None,
    }
}

#[tactic(auto, unfolding(crate::specs::CallRules::falls_broken))]
fn falls(earlier: Option<u32>, times: Option<Times>) -> Option<Cause>
    ensures { result ≡ spec.falls_broken earlier times }
{
    match (earlier, times) {
        (_, None) => None,
        (_, Some(own)) if own.dep < own.arr => Some(Cause::TimeFalls),
        (Some(departs), Some(own)) if own.arr < departs => Some(Cause::TimeFalls),
        _ => None,
    }
}

// The cause of the first rule that a call breaks: the sequence of the call before it, the departure of the nearest
// earlier call that has times, and whether the call is the first or the last.
fn cause_of(
    previous: Option<u32>,
    earlier: Option<u32>,
    at_end: bool,
    call: &KeptCall,
) -> Option<Cause>
    ensures { result ≡ or_then (spec.repeated_broken previous call.now.sequence)
        (or_then (spec.no_time_broken at_end call.now.times) (spec.falls_broken earlier call.now.times)) }
{
    if let Some(cause) = repeated(previous, call.sequence) {
        return Some(cause);
    }
    if let Some(cause) = no_time(at_end, call.times) {
        return Some(cause);
    }
    falls(earlier, call.times)
}

// The first fault of the least row so far, after one call more of a row, with the cause of the rule that it breaks.
fn with_cause(fault: Option<Fault>, row: u32, cause: Option<Cause>) -> Option<Fault>
    ensures { result ≡ spec.with_cause fault row cause }
{
    match (fault, cause) {
        (_, None) => fault,
        (Some(first), Some(_)) if first.row < row => fault,
        (_, Some(cause)) => Some(Fault { row, cause }),
    }
}

fn departure_after(earlier: Option<u32>, times: Option<Times>) -> Option<u32>
    ensures { result ≡ spec.departure_after earlier times }
{
    match times {
        Some(own) => Some(own.dep),
        None => earlier,
    }
}

fn is_end(place: usize, calls: usize) -> bool
    requires { place < calls }
    ensures { result ≡ ((place == 0) || (place + 1 == calls)) }
{
    place == 0 || place + 1 == calls
}

/// Of the rules that a trip's calls, sorted by stop sequence, break, the first one of the least row; None exactly
/// where they break none.
pub fn first_fault(calls: &[KeptCall]) -> Option<Fault>
    ensures { spec.IsFirstFault calls.now (length calls.now) result }
{
    let mut fault = None;
    let mut previous = None;
    let mut earlier = None;
    for (place, call) in calls.iter().enumerate() {
        let cause = cause_of(previous, earlier, is_end(place, calls.len()), call);
        fault = with_cause(fault, call.row, cause);
        previous = Some(call.sequence);
        earlier = departure_after(earlier, call.times);
    }
    fault
}
