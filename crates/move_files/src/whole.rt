// Whole files and whole texts.
ghost use Rattle.std.specs.Prelude.{◌≡◌, ◌+◌, ◌^◌, ◌<◌, ◌≤◌, ◌++◌, ℕ, length, IsNone, IsSome, IsSomeAnd, IfOk, OnOk, OnErr, IsErrOf};
ghost use Rattle.move_files.specs.Outside.{GoesOn, Rose, NeverFalls, SendsPrefix};

use crate::{Files, ReadFail, Sink, WriteFail};
use std::alloc::Global;

/// Why a file was not read whole.
#[derive(Clone, Copy, Debug, PartialEq, Eq)]
pub enum ReadStop {
    /// The name is not held.
    Missing,
    /// A read failed.
    ReadFault,
    /// The file is longer than the limit; the number is the limit and one.
    TooLong(u64),
    /// Memory was wanting.
    NoMemory,
}

// How many bytes are asked for in one read.
const PIECE: usize = 65_536;

/// The whole contents of a file of `limit` bytes at most.
pub fn read_whole<F: Files>(
    alloc: Global,
    files: &mut F,
    name: &str,
    limit: u64,
) -> Result<Vec<u8>, ReadStop>
    requires { limit ≤ 2 ^ 50 }

    ensures ok { F.tells → IfOk result (λ bytes. F.holds files.old name.now ≡ Some bytes.items) }
    ensures within { IfOk result (λ bytes. length bytes.items ≤ limit) }

    ensures missing { IsErrOf result ReadStop.Missing → Rose (F.misses files.old name.now) (F.misses files.new name.now) }
    ensures missing_told { F.tells → IsErrOf result ReadStop.Missing → IsNone (F.holds files.old name.now) }
    ensures fault { IsErrOf result ReadStop.ReadFault → Rose (F.read_faults files.old name.now) (F.read_faults files.new name.now) }
    ensures fault_told { F.tells → IsErrOf result ReadStop.ReadFault → IsSome (F.holds files.old name.now) }
    ensures too_long { (n : ℕ) → IsErrOf result (ReadStop.TooLong n) → n ≡ limit + 1 }
    ensures too_long_told { F.tells → (n : ℕ) → IsErrOf result (ReadStop.TooLong n) → IsSomeAnd (F.holds files.old name.now) (λ bytes. limit < length bytes) }

    ensures contents { F.holds files.new ≡ F.holds files.old }
    ensures read_counts { NeverFalls (F.read_faults files.old) (F.read_faults files.new) × NeverFalls (F.misses files.old) (F.misses files.new) }
    ensures write_counts { F.write_faults files.new ≡ F.write_faults files.old }
{
    let mut bytes = Vec::new(alloc);
    let Ok(mut piece) = vec![in alloc; 0u8; PIECE] else {
        return Err(ReadStop::NoMemory);
    };
    let piece = piece.as_mut_slice();
    while bytes.len() as u64 <= limit {
        match read_more(files, name, piece, &mut bytes) {
            Ok(0) => return Ok(bytes),
            Ok(_) => {}
            Err(stop) => return Err(stop),
        }
    }
    Err(ReadStop::TooLong(limit + 1))
}

// Reads one piece behind the bytes that were read so far, and gives its length: 0 only at the file's end.
fn read_more<F: Files>(
    files: &mut F,
    name: &str,
    piece: &mut [u8],
    bytes: &mut Vec<u8>,
) -> Result<usize, ReadStop>
    requires { 0 < length piece.old }

    ensures grown { IfOk result (λ n. length bytes.new.items ≡ length bytes.old.items + n) }
    ensures goes_on { F.tells → IfOk result (λ n. GoesOn (F.holds files.old name.now) bytes.old.items n bytes.new.items) }

    ensures missing { IsErrOf result ReadStop.Missing → Rose (F.misses files.old name.now) (F.misses files.new name.now) }
    ensures missing_told { F.tells → IsErrOf result ReadStop.Missing → IsNone (F.holds files.old name.now) }
    ensures fault { IsErrOf result ReadStop.ReadFault → Rose (F.read_faults files.old name.now) (F.read_faults files.new name.now) }
    ensures fault_told { F.tells → IsErrOf result ReadStop.ReadFault → IsSome (F.holds files.old name.now) }
    ensures never_too_long { (n : ℕ) → ¬ IsErrOf result (ReadStop.TooLong n) }

    ensures contents { F.holds files.new ≡ F.holds files.old }
    ensures read_counts { NeverFalls (F.read_faults files.old) (F.read_faults files.new) × NeverFalls (F.misses files.old) (F.misses files.new) }
    ensures write_counts { F.write_faults files.new ≡ F.write_faults files.old }
{
    match files.read_at(name, bytes.len() as u64, piece) {
        Ok(count) => match bytes.extend_from_slice(&piece[..count]) {
            Ok(()) => Ok(count),
            Err(_) => Err(ReadStop::NoMemory),
        },
        Err(ReadFail::Missing) => Err(ReadStop::Missing),
        Err(ReadFail::Failed) => Err(ReadStop::ReadFault),
    }
}

/// Sends all the bytes in order.
pub fn write_whole<S: Sink>(sink: &mut S, bytes: &[u8]) -> Result<(), WriteFail>
    ensures ok { S.tells → OnOk result (S.sent sink.new ≡ S.sent sink.old ++ bytes.now) }

    ensures err { S.tells → OnErr result (SendsPrefix (S.sent sink.old) bytes.now (S.sent sink.new)) }
    ensures failed { IsErrOf result WriteFail.Failed → Rose (S.faults sink.old) (S.faults sink.new) }
    ensures no_memory { IsErrOf result WriteFail.NoMemory → Rose (S.wants sink.old) (S.wants sink.new) }

    ensures counts { (S.faults sink.old ≤ S.faults sink.new) × (S.wants sink.old ≤ S.wants sink.new) }
{
    let mut at = 0;
    while at < bytes.len() {
        at += sink.write(&bytes[at..])?;
    }
    Ok(())
}
