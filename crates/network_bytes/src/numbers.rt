// Numbers.
ghost use Rattle.std.specs.Prelude.{◌≡◌, ◌++◌, OnOk};
ghost use Rattle.network_bytes.specs.Bytes.{word, long};
ghost use Rattle.network_bytes.specs.Front.{Gives, word_at, long_at, byte_at};

use crate::ReadStop;
use move_model::NoMemory;

/// The number in the first four bytes, and the bytes behind them.
#[tactic(auto, unfolding(crate::specs::Front::word_at))]
pub fn word(bytes: &[u8]) -> Result<(u32, &[u8]), ReadStop>
    ensures { Gives (λ x. (x.0, x.1.now)) result (word_at bytes.now) }
{
    if bytes.len() < 4 {
        return Err(ReadStop::Broken);
    }
    let (front, rest) = bytes.split_at(4);
    let number = u32::from_be_bytes([front[0], front[1], front[2], front[3]]);
    Ok((number, rest))
}

/// The number in the first eight bytes, and the bytes behind them.
#[tactic(auto, unfolding(crate::specs::Front::long_at))]
pub fn long(bytes: &[u8]) -> Result<(u64, &[u8]), ReadStop>
    ensures { Gives (λ x. (x.0, x.1.now)) result (long_at bytes.now) }
{
    if bytes.len() < 8 {
        return Err(ReadStop::Broken);
    }
    let (front, rest) = bytes.split_at(8);
    let number = u64::from_be_bytes([
        front[0], front[1], front[2], front[3], front[4], front[5], front[6], front[7],
    ]);
    Ok((number, rest))
}

// The first byte, and the bytes behind it.
#[tactic(auto, unfolding(crate::specs::Front::byte_at))]
pub(crate) fn byte(bytes: &[u8]) -> Result<(u8, &[u8]), ReadStop>
    ensures { Gives (λ x. (x.0, x.1.now)) result (byte_at bytes.now) }
{
    match bytes {
        [] => Err(ReadStop::Broken),
        [byte, rest @ ..] => Ok((*byte, rest)),
    }
}

/// Puts a number behind the bytes, in four bytes.
#[tactic(auto, unfolding(crate::specs::Bytes::word))]
pub fn put_word(out: &mut Vec<u8>, number: u32) -> Result<(), NoMemory>
    ensures { OnOk result (out.new.items ≡ out.old.items ++ word number) }
{
    out.extend_from_slice(&number.to_be_bytes())
}

/// Puts a number behind the bytes, in eight bytes.
#[tactic(auto, unfolding(crate::specs::Bytes::long))]
pub fn put_long(out: &mut Vec<u8>, number: u64) -> Result<(), NoMemory>
    ensures { OnOk result (out.new.items ≡ out.old.items ++ long number) }
{
    out.extend_from_slice(&number.to_be_bytes())
}
