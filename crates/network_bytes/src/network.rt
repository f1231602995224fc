// The entries of a network.
ghost use Rattle.std.specs.Prelude.{◌≡◌, ◌++◌, ◌∷◌, [], OnOk};
ghost use Rattle.network_bytes.specs.Front.{Gives};
ghost use Rattle.network_bytes.specs.Forms.{flags, flagged};

use crate::ReadStop;
use crate::entry::{Entry, entries, put_entries};
use crate::names::{name, put_name};
use crate::numbers::{byte, long, put_long, put_word, word};
use move_model::{Arc, Call, NoMemory, NodeNo, Shortcut, Stop, StopNo, Trip};
use std::alloc::Global;

impl Entry for u32 {
    ghost use Rattle.network_bytes.specs.Bytes.{word as form_of};
    ghost use Rattle.network_bytes.specs.Front.{word_at};

    ghost form = { form_of };

    ghost front = { word_at };

    ghost fits = { λ _. Unit {0} };

    fn read(_alloc: Global, bytes: &[u8]) -> Result<(u32, &[u8]), ReadStop> {
        word(bytes)
    }

    fn put(&self, out: &mut Vec<u8>) -> Result<(), NoMemory> {
        put_word(out, *self)
    }
}

impl Entry for Arc {
    ghost use Rattle.network_bytes.specs.Forms.{arc_form, arc_at};

    ghost form = { arc_form };

    ghost front = { arc_at };

    ghost fits = { λ _. Unit {0} };

    #[tactic(auto, unfolding(crate::specs::Forms::arc_at))]
    fn read(_alloc: Global, bytes: &[u8]) -> Result<(Arc, &[u8]), ReadStop> {
        let (from, rest) = word(bytes)?;
        let (to, rest) = word(rest)?;
        let (seconds, rest) = word(rest)?;
        let arc = Arc {
            from: NodeNo(from),
            to: NodeNo(to),
            seconds,
        };
        Ok((arc, rest))
    }

    fn put(&self, out: &mut Vec<u8>) -> Result<(), NoMemory> {
        put_word(out, self.from.0)?;
        put_word(out, self.to.0)?;
        put_word(out, self.seconds)
    }
}

impl Entry for Stop {
    ghost use Rattle.std.specs.Prelude.{◌<◌, length};
    ghost use Rattle.network_bytes.specs.Forms.{stop_form, stop_at};

    ghost form = { stop_form };

    ghost front = { stop_at };

    ghost fits = { λ stop. length stop.name < 256 };

    #[tactic(auto, unfolding(crate::specs::Forms::stop_at))]
    fn read(alloc: Global, bytes: &[u8]) -> Result<(Stop, &[u8]), ReadStop> {
        let (node, rest) = word(bytes)?;
        let (name, rest) = name(alloc, rest)?;
        let stop = Stop {
            node: NodeNo(node),
            name,
        };
        Ok((stop, rest))
    }

    fn put(&self, out: &mut Vec<u8>) -> Result<(), NoMemory> {
        put_word(out, self.node.0)?;
        put_name(out, &self.name)
    }
}

// Whether passengers may board and alight, by the flags.
fn flagged(byte: u8) -> Result<(bool, bool), ReadStop>
    ensures { Gives (λ x. x) result (flagged byte) }
{
    match byte {
        0 => Ok((false, false)),
        1 => Ok((true, false)),
        2 => Ok((false, true)),
        3 => Ok((true, true)),
        _ => Err(ReadStop::Broken),
    }
}

// Puts the flags of a call behind the bytes.
fn put_flags(out: &mut Vec<u8>, call: &Call) -> Result<(), NoMemory>
    ensures { OnOk result (out.new.items ≡ out.old.items ++ flags call.now.board call.now.alight ∷ []) }
{
    let board = if call.board { 1 } else { 0 };
    let alight = if call.alight { 2 } else { 0 };
    out.push(board + alight)?;
    Ok(())
}

impl Entry for Call {
    ghost use Rattle.network_bytes.specs.Forms.{call_form, call_at};

    ghost form = { call_form };

    ghost front = { call_at };

    ghost fits = { λ _. Unit {0} };

    #[tactic(auto, unfolding(crate::specs::Forms::call_at))]
    fn read(_alloc: Global, bytes: &[u8]) -> Result<(Call, &[u8]), ReadStop> {
        let (stop, rest) = word(bytes)?;
        let (arr, rest) = word(rest)?;
        let (dep, rest) = word(rest)?;
        let (flags, rest) = byte(rest)?;
        let (board, alight) = flagged(flags)?;
        let call = Call {
            stop: StopNo(stop),
            arr,
            dep,
            board,
            alight,
        };
        Ok((call, rest))
    }

    fn put(&self, out: &mut Vec<u8>) -> Result<(), NoMemory> {
        put_word(out, self.stop.0)?;
        put_word(out, self.arr)?;
        put_word(out, self.dep)?;
        put_flags(out, self)
    }
}

impl Entry for Trip {
    ghost use Rattle.std.specs.Prelude.{◌<◌, ◌^◌, length};
    ghost use Rattle.network_bytes.specs.Forms.{trip_form, trip_at};

    ghost form = { trip_form };

    ghost front = { trip_at };

    ghost fits = { λ trip. (length trip.name < 256) × (length trip.calls < 2 ^ 32) };

    #[tactic(auto, unfolding(crate::specs::Forms::trip_at))]
    fn read(alloc: Global, bytes: &[u8]) -> Result<(Trip, &[u8]), ReadStop> {
        let (name, rest) = name(alloc, bytes)?;
        let (count, rest) = word(rest)?;
        let (calls, rest) = entries(alloc, count as u64, rest)?;
        Ok((Trip { name, calls }, rest))
    }

    fn put(&self, out: &mut Vec<u8>) -> Result<(), NoMemory> {
        put_name(out, &self.name)?;
        put_word(out, self.calls.len() as u32)?;
        put_entries(out, self.calls.as_slice())
    }
}

impl Entry for Shortcut {
    ghost use Rattle.network_bytes.specs.Forms.{shortcut_form, shortcut_at};

    ghost form = { shortcut_form };

    ghost front = { shortcut_at };

    ghost fits = { λ _. Unit {0} };

    #[tactic(auto, unfolding(crate::specs::Forms::shortcut_at))]
    fn read(_alloc: Global, bytes: &[u8]) -> Result<(Shortcut, &[u8]), ReadStop> {
        let (from, rest) = word(bytes)?;
        let (to, rest) = word(rest)?;
        let (seconds, rest) = long(rest)?;
        let entry = Shortcut {
            from: StopNo(from),
            to: StopNo(to),
            seconds,
        };
        Ok((entry, rest))
    }

    fn put(&self, out: &mut Vec<u8>) -> Result<(), NoMemory> {
        put_word(out, self.from.0)?;
        put_word(out, self.to.0)?;
        put_long(out, self.seconds)
    }
}
