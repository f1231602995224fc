// Dates of the form YYYYMMDD.
ghost use Rattle.std.specs.Prelude.{◌≡◌, ◌<◌, ◌≤◌, ◌+◌, ◌*◌, length, IfSome, IsTrue};
ghost use Rattle.feed_values.specs.Date.{date_of, number_at, is_date, IsDay};

use jiff::civil::Date;

// Two digits that stand at a place, as a number.
#[tactic(auto, unfolding(crate::specs::Date::number_at))]
fn two(text: &[u8], at: usize) -> Option<u8>
    requires { at + 1 < length text.now }
    ensures value { result ≡ number_at text.now at }
    ensures small { IfSome result (λ n. n < 100) }
{
    let (tens, ones) = (text[at], text[at + 1]);
    if tens.is_ascii_digit() && ones.is_ascii_digit() {
        Some((tens - b'0') * 10 + (ones - b'0'))
    } else {
        None
    }
}

// The number YYYYMMDD of a day.
fn day_number(year: u16, month: u8, day: u8) -> u32
    requires years { year ≤ 9999 }
    requires months { month < 100 }
    requires days { day < 100 }
    ensures value { result ≡ year * 10000 + month * 100 + day }
    ensures day { IsTrue (is_date year month day) → IsDay result }
{
    u32::from(year) * 10_000 + u32::from(month) * 100 + u32::from(day)
}

// Whether the calendar has a day.
fn is_day(year: u16, month: u8, day: u8) -> bool
    requires years { year ≤ 9999 }
    requires months { month < 100 }
    requires days { day < 100 }
    ensures { result ≡ is_date year month day }
{
    Date::new(year as i16, month as i8, day as i8).is_ok()
}

/// The date that a text of the form YYYYMMDD names, as the number that its digits spell. None where the text has
/// another form or the calendar has no such day.
#[tactic(auto, unfolding(crate::specs::Date::date_of))]
pub fn date(text: &[u8]) -> Option<u32>
    ensures value { result ≡ date_of text.now }
    ensures day { IfSome result IsDay }
{
    if text.len() != 8 {
        return None;
    }
    let century = two(text, 0)?;
    let year = u16::from(century) * 100 + u16::from(two(text, 2)?);
    let month = two(text, 4)?;
    let day = two(text, 6)?;
    if is_day(year, month, day) {
        Some(day_number(year, month, day))
    } else {
        None
    }
}
