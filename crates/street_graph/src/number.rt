// Numbers in decimal digits.
ghost use Rattle.std.specs.Prelude.{◌≡◌, ◌^◌, MatchOption, None};
ghost use Rattle.street_graph.specs.Text.{fields, number_of, value_below, first_number, BeginsWithNumber};

use crate::text::next_field;

// The number that digits spell, where it is below 2 ^ 64.
fn digits(text: &[u8]) -> Option<u64>
    ensures { result ≡ value_below (2 ^ 64) text.now }
{
    let mut value = 0u64;
    for digit in text {
        if !digit.is_ascii_digit() {
            return None;
        }
        let Some(shifted) = value.checked_mul(10) else {
            return None;
        };
        let Some(next) = shifted.checked_add(u64::from(*digit - b'0')) else {
            return None;
        };
        value = next;
    }
    Some(value)
}

// The number of a field: 1 to 20 decimal digits below 2 ^ 64.
#[tactic(auto, unfolding(crate::specs::Text::number_of))]
pub(crate) fn number(text: &[u8]) -> Option<u64>
    ensures { result ≡ number_of text.now }
{
    if text.is_empty() || text.len() > 20 {
        return None;
    }
    digits(text)
}

// The number in the first field of a line, and the bytes behind it, or None where there is no field or it is no number.
pub(crate) fn next_number(line: &[u8]) -> Option<(u64, &[u8])>
    ensures { MatchOption result (first_number (fields line.now) ≡ None)
        (λ next. BeginsWithNumber (fields line.now) next.0 (fields next.1.now)) }
{
    let Some((field, more)) = next_field(line) else {
        return None;
    };
    match number(field) {
        Some(value) => Some((value, more)),
        None => None,
    }
}
