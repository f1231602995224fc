// Coordinates in decimal degrees.
ghost use Rattle.std.specs.Prelude.{◌≡◌, ◌≤◌, ◌+◌, ◌&&◌, Some, None, true, length, nat_lt, nat_le, if◌then◌else◌};
ghost use Rattle.std.specs.List.{list_all, position_or_len};
ghost use Rattle.std.specs.Char.{is_ascii_digit};
ghost use Rattle.feed_values.specs.Coordinate.{digits_after, is_point, is_minus, without_sign, whole_digits, decimals, six_digits, is_decimal, millionths, with_sign, coordinate_of};

// The sign of a text, and what stands behind it.
fn sign(text: &[u8]) -> (bool, &[u8])
    ensures minus { result.0 ≡ is_minus text.now }
    ensures digits { result.1.now ≡ without_sign text.now }
{
    match text {
        [b'-', digits @ ..] => (true, digits),
        [b'+', digits @ ..] => (false, digits),
        _ => (false, text),
    }
}

// The place of the first point of a text, or its length.
fn point_at(text: &[u8]) -> usize
    ensures { result ≡ position_or_len is_point text.now }
{
    for (i, c) in text.iter().enumerate() {
        if *c == b'.' {
            return i;
        }
    }
    text.len()
}

// What stands before the first point of a text, and what stands behind it.
#[tactic(auto, unfolding(crate::specs::Coordinate::whole_digits, crate::specs::Coordinate::decimals))]
fn point(text: &[u8]) -> (&[u8], &[u8])
    ensures whole { result.0.now ≡ whole_digits text.now }
    ensures decimals { result.1.now ≡ decimals text.now }
{
    let at = point_at(text);
    if at < text.len() {
        (&text[..at], &text[at + 1..])
    } else {
        (text, b"")
    }
}

fn are_digits(text: &[u8]) -> bool
    ensures { result ≡ list_all is_ascii_digit text.now }
{
    text.iter().all(|c| c.is_ascii_digit())
}

// The first six decimals, where missing ones count as 0.
fn six(decimals: &[u8]) -> [u8; 6]
    ensures value { result ≡ six_digits decimals.now }
    ensures digits { list_all is_ascii_digit decimals.now ≡ true → list_all is_ascii_digit result ≡ true }
{
    let mut six = [b'0'; 6];
    let mut i = 0;
    while i < 6 && i < decimals.len() {
        six[i] = decimals[i];
        i += 1;
    }
    six
}

// The number that digits spell behind a number, unless it passes the most.
fn number_after(number: u32, digits: &[u8], most: u32) -> Option<u32>
    requires starts { number ≤ most }
    requires limited { most ≤ 180000000 }
    requires digits { list_all is_ascii_digit digits.now ≡ true }
    ensures { result ≡ (if nat_le (digits_after number digits.now) most then Some (digits_after number digits.now) else None) }
{
    let mut value = number;
    for digit in digits {
        value = value * 10 + u32::from(*digit - b'0');
        if value > most {
            return None;
        }
    }
    Some(value)
}

// Whether these are digits, and at least one.
fn are_some_digits(whole: &[u8], decimals: &[u8]) -> bool
    ensures { result ≡ (list_all is_ascii_digit whole.now && list_all is_ascii_digit decimals.now
        && nat_lt 0 (length whole.now + length decimals.now)) }
{
    are_digits(whole) && are_digits(decimals) && (!whole.is_empty() || !decimals.is_empty())
}

// The millionths that a text without a sign spells, unless it is no decimal number or passes the most.
fn magnitude(text: &[u8], most: u32) -> Option<u32>
    requires { most ≤ 180000000 }
    ensures { result ≡ (if is_decimal text.now && nat_le (millionths text.now) most then Some (millionths text.now) else None) }
{
    let (whole, decimals) = point(text);
    if !are_some_digits(whole, decimals) {
        return None;
    }
    match number_after(0, whole, most) {
        Some(number) => number_after(number, &six(decimals), most),
        None => None,
    }
}

fn signed(minus: bool, number: u32) -> i32
    requires { number ≤ 180000000 }
    ensures { result ≡ with_sign minus number }
{
    if minus {
        -(number as i32)
    } else {
        number as i32
    }
}

/// The coordinate that a text spells, in millionths of a degree, of at most so many degrees either sign: an optional
/// `+` or `-`, then digits with at most one point and at least one digit, in at most 40 bytes. Digits after the sixth
/// decimal are dropped. None where the text is no such coordinate.
pub fn coordinate(text: &[u8], degrees: u32) -> Option<i32>
    requires { degrees ≤ 180 }
    ensures { result ≡ coordinate_of degrees text.now }
{
    if text.len() > 40 {
        return None;
    }
    let (minus, digits) = sign(text);
    match magnitude(digits, degrees * 1_000_000) {
        Some(number) => Some(signed(minus, number)),
        None => None,
    }
}
