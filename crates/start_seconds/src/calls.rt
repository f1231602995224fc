// The starts of all calls.
ghost use Rattle.std.specs.Prelude.{◌≡◌, ◌+◌, ◌<◌, ℕ, All, IfOk, OnOk, length};
ghost use Rattle.move_model.specs.Network.{IsNetwork};
ghost use Rattle.stop_rows.specs.Rows.{ArePlaces};
ghost use Rattle.start_seconds.specs.Starts.{AreStarts};
ghost use Rattle.start_seconds.specs.Noted.{HasCalls, IsNoted, IsNoting};

use crate::order::put_in_order;
use crate::start::{Start, Starts};
use move_model::{Call, List, Network, NoMemory};
use std::alloc::Global;
use stop_rows::StopRows;

// Puts the start of a call last, where it has one.
fn note(buffer: u32, rows: &StopRows, call: Call, starts: &mut Vec<Start>) -> Result<(), NoMemory>
    requires { call.stop.0 < length rows.now.places }
    ensures { OnOk result (IsNoted buffer rows.now call starts.old.items starts.new.items) }
{
    if call.board && call.dep >= buffer {
        starts.push(Start {
            place: rows.place(call.stop),
            second: call.dep - buffer,
        })?;
    }
    Ok(())
}

// Puts the starts of a trip last: of each call that another one follows.
fn note_trip(
    network: &Network,
    rows: &StopRows,
    calls: &[Call],
    starts: &mut Vec<Start>,
) -> Result<(), NoMemory>
    requires at_stops { All (λ call. call.stop.0 < length rows.now.places) calls.now }
    requires places { ArePlaces network.now rows.now }
    ensures { OnOk result ((t : ℕ) → HasCalls network.now t calls.now → IsNoting network.now rows.now t 0 starts.old.items
        → IsNoting network.now rows.now (t + 1) 0 starts.new.items) }
{
    for k in 1..calls.len() {
        note(network.buffer, rows, calls[k - 1], starts)?;
    }
    Ok(())
}

/// All starts of a network by place, each once: by falling place, and at each place from the latest second to the
/// earliest.
pub fn starts(alloc: Global, network: &Network, rows: &StopRows) -> Result<Starts, NoMemory>
    requires rules { IsNetwork network.now }
    requires places { ArePlaces network.now rows.now }
    ensures { IfOk result (AreStarts network.now rows.now) }
{
    let mut list = Vec::new(alloc);
    for trip in network.trips.as_slice() {
        note_trip(network, rows, trip.calls.as_slice(), &mut list)?;
    }
    put_in_order(&mut list);
    Ok(List::from_vec(list))
}
