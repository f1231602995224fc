// The trips of lines.
ghost use Rattle.std.specs.Prelude.{◌≡◌, ◌++◌, ◌+◌, ◌*◌, ◌<◌, ◌≤◌, All, IfOk, OnOk};
ghost use Rattle.city_maker.specs.Lines as spec;
ghost use Rattle.city_maker.specs.Lines.{Fits};

use crate::line::Line;
use crate::stops::{name_at, stops_along};
use move_model::{Call, Calls, List, NoMemory, StopNo, Trip};
use std::alloc::Global;

// The second from which lines run, and the second at which no trip leaves any more.
const FIRST_START: u32 = 21_600;

const END_OF_STARTS: u32 = 36_000;

// No line has more starts.
const MOST_STARTS: u32 = 48;

// The seconds from one call to the next, and those for which a trip stands at a stop.
const APART: u32 = 140;

const STANDING: u32 = 20;

// The second at which the trips of a number leave.
fn start(line: Line, number: u32) -> u32
    requires headway { line.headway ≤ 900 }
    requires offset { line.offset < line.headway }
    requires few { number < 48 }
    ensures { result ≡ spec.start line number }
{
    FIRST_START + line.offset + number * line.headway
}

// The number of the stop at which a call is.
fn stop_of_call(side: u32, line: Line, back: bool, k: u32) -> StopNo
    requires side { side ≤ 200 }
    requires line { Fits side line }
    requires within { k < spec.stops_along side }
    ensures { result ≡ record { 0 = spec.stop_of_call side line back k } }
{
    let many = stops_along(side);
    let along = if back { many - 1 - k } else { k };
    StopNo(line.number * many + along)
}

fn call_at(side: u32, line: Line, number: u32, back: bool, k: u32) -> Call
    requires side { side ≤ 200 }
    requires line { Fits side line }
    requires few { number < 48 }
    requires within { k < spec.stops_along side }
    ensures { result ≡ spec.call_at side line number back k }
{
    let second = start(line, number);
    let dep = second + APART * k;
    Call {
        stop: stop_of_call(side, line, back, k),
        arr: if k == 0 { second } else { dep - STANDING },
        dep,
        board: true,
        alight: true,
    }
}

#[tactic(auto, using(crate::proofs::Ranges::map_range_more))]
fn calls_of(
    alloc: Global,
    side: u32,
    line: Line,
    number: u32,
    back: bool,
) -> Result<Calls, NoMemory>
    requires side { side ≤ 200 }
    requires line { Fits side line }
    requires few { number < 48 }
    ensures { IfOk result (λ calls. calls ≡ (spec.trip_at side line number back).calls) }
{
    let many = stops_along(side);
    let mut calls = Vec::with_capacity(alloc, many as usize)?;
    for k in 0..many {
        calls.push_reserved(call_at(side, line, number, back, k));
    }
    Ok(List::from_vec(calls))
}

// The forward trip of a number, or the backward trip.
fn trip_at(alloc: Global, side: u32, line: Line, number: u32, back: bool) -> Result<Trip, NoMemory>
    requires side { side ≤ 200 }
    requires line { Fits side line }
    requires few { number < 48 }
    ensures { IfOk result (λ trip. trip ≡ spec.trip_at side line number back) }
{
    let letter: &[u8] = if back { b"B" } else { b"F" };
    let name = name_at(alloc, line, letter, number)?;
    let calls = calls_of(alloc, side, line, number, back)?;
    Ok(Trip { name, calls })
}

// Puts the two trips of a start last, where it is no later than starts are.
fn put_pair(
    alloc: Global,
    side: u32,
    line: Line,
    number: u32,
    trips: &mut Vec<Trip>,
) -> Result<(), NoMemory>
    requires side { side ≤ 200 }
    requires line { Fits side line }
    requires few { number < 48 }
    ensures { OnOk result (trips.new.items ≡ trips.old.items ++ spec.trips_at side line number) }
{
    if start(line, number) < END_OF_STARTS {
        trips.push(trip_at(alloc, side, line, number, false)?)?;
        trips.push(trip_at(alloc, side, line, number, true)?)?;
    }
    Ok(())
}

// Puts the trips of a line last.
#[tactic(auto, using(crate::proofs::Ranges::flat_map_range_more), unfolding(crate::specs::Lines::trips_of))]
fn put_trips(alloc: Global, side: u32, line: Line, trips: &mut Vec<Trip>) -> Result<(), NoMemory>
    requires side { side ≤ 200 }
    requires line { Fits side line }
    ensures { OnOk result (trips.new.items ≡ trips.old.items ++ spec.trips_of side line) }
{
    for number in 0..MOST_STARTS {
        put_pair(alloc, side, line, number, trips)?;
    }
    Ok(())
}

/// The trips of a city, not numbered yet.
pub(crate) fn city_trips(alloc: Global, side: u32, lines: &[Line]) -> Result<Vec<Trip>, NoMemory>
    requires side { side ≤ 200 }
    requires lines { All (Fits side) lines.now }
    ensures { IfOk result (λ trips. trips.items ≡ spec.city_trips side lines.now) }
{
    let mut trips = Vec::new(alloc);
    for line in lines {
        put_trips(alloc, side, *line, &mut trips)?;
    }
    Ok(trips)
}
