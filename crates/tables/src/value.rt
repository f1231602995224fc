// The values that several tables share.
ghost use Rattle.std.specs.Prelude.{◌≡◌, ◌≤◌, ◌^◌, IfOk};
ghost use Rattle.refusals.specs.Refusal.{Tests};
ghost use Rattle.tables.specs.Values as spec;
ghost use Rattle.move_model.specs.Time.{digits_after};
ghost use Rattle.tables.specs.Values.{below};

use move_model::{Cause, read_time};
use std::str;

// The number that digits spell, where it is below 2 ^ 64.
fn digits(text: &[u8]) -> Option<u64>
    ensures { result ≡ below (2 ^ 64) (digits_after 0 text.now) }
{
    let mut value = 0u64;
    for digit in text {
        if !digit.is_ascii_digit() {
            return None;
        }
        let Some(shifted) = value.checked_mul(10) else {
            return None;
        };
        let Some(next) = shifted.checked_add(u64::from(*digit - b'0')) else {
            return None;
        };
        value = next;
    }
    Some(value)
}

/// The whole number that a text is, in 1 to 20 decimal digits and below 2 ^ 64, or None where it is none.
#[tactic(auto, unfolding(crate::specs::Values::number_of))]
pub fn read_number(text: &[u8]) -> Option<u64>
    ensures { result ≡ spec.number_of text.now }
{
    if !text.is_empty() && text.len() <= 20 {
        digits(text)
    } else {
        None
    }
}

/// Reads a whole number from `low` to `high`; any other text is Number.
#[tactic(auto, unfolding(crate::specs::Values::number_broken))]
pub fn read_number_within(text: &[u8], low: u64, high: u64) -> Result<u64, Cause>
    ensures value { Tests result (spec.number_broken low high text.now) (spec.number_in text.now) }
    ensures from_low { IfOk result (λ number. low ≤ number) }
    ensures to_high { IfOk result (λ number. number ≤ high) }
{
    match read_number(text) {
        Some(number) if low <= number && number <= high => Ok(number),
        _ => Err(Cause::Number),
    }
}

/// Reads the second that a time HH:MM:SS names; any other text is Time.
#[tactic(auto, unfolding(crate::specs::Values::time_broken))]
pub fn read_second(text: &[u8]) -> Result<u32, Cause>
    ensures value { Tests result (spec.time_broken text.now) (spec.time_in text.now) }
    ensures small { IfOk result (λ second. second ≤ 3599999) }
{
    match read_time(text) {
        Some(second) => Ok(second),
        None => Err(Cause::Time),
    }
}

/// Tests that a text is an id: 1 to 255 bytes of UTF-8.
#[tactic(auto, unfolding(crate::specs::Values::id_empty, crate::specs::Values::id_long, crate::specs::Values::id_not_utf8))]
pub fn check_id(text: &[u8]) -> Result<(), Cause>
    ensures { Tests result (spec.id_broken text.now) tt }
{
    if text.is_empty() {
        return Err(Cause::IdEmpty);
    }
    if text.len() > 255 {
        return Err(Cause::IdLong(text.len() as u64));
    }
    match str::from_utf8(text) {
        Ok(_) => Ok(()),
        Err(_) => Err(Cause::NotUtf8),
    }
}
