// The words of a city.
ghost use Rattle.std.specs.Prelude.{◌≡◌, ◌≤◌, IfSome};
ghost use Rattle.city_run.specs.Words as spec;

use tables::read_number;

// The least and the greatest word SIDE.
const LEAST_SIDE: u32 = 5;

const MOST_SIDE: u32 = 200;

// The greatest word LINES.
const MOST_LINES: u32 = 200;

/// What the words SIDE, LINES and NUMBER of a city name: how many rows and columns of vertices it has, how many lines, and the
/// number from which all draws are made.
#[derive(Clone, Copy, Debug, PartialEq, Eq)]
pub struct CityWords {
    pub side: u32,
    pub lines: u32,
    pub number: u64,
}

// A whole number of a range.
fn number_between(least: u32, most: u32, text: &str) -> Option<u32>
    ensures value { result ≡ spec.number_between least most text.now }
    ensures from_least { IfSome result (λ number. least ≤ number) }
    ensures to_most { IfSome result (λ number. number ≤ most) }
{
    match read_number(text.as_bytes()) {
        Some(number) if u64::from(least) <= number && number <= u64::from(most) => {
            Some(number as u32)
        }
        _ => None,
    }
}

/// The numbers that the words are: SIDE from 5 to 200, LINES from 0 to 200 and NUMBER below 2^64, each of 1 to 20 decimal
/// digits; or None exactly where one of them is no such number.
#[tactic(auto, unfolding(crate::specs::Words::city_of))]
pub fn city_words(side: &str, lines: &str, number: &str) -> Option<CityWords>
    ensures value { result ≡ spec.city_of side.now lines.now number.now }
    ensures least { IfSome result (λ words. 5 ≤ words.side) }
    ensures most { IfSome result (λ words. words.side ≤ 200) }
    ensures few { IfSome result (λ words. words.lines ≤ 200) }
{
    let Some(side) = number_between(LEAST_SIDE, MOST_SIDE, side) else {
        return None;
    };
    let Some(lines) = number_between(0, MOST_LINES, lines) else {
        return None;
    };
    let Some(number) = read_number(number.as_bytes()) else {
        return None;
    };
    Some(CityWords {
        side,
        lines,
        number,
    })
}
