// Times of the service day as text.
ghost use Rattle.std.specs.Prelude.{◌≡◌, ◌<◌, ◌≤◌, ◌+◌, ◌*◌, ◌^◌, ◌++◌, ◌∷◌, [], IfSome, IsTrue, length};
ghost use Rattle.move_model.specs.Time.{digits_after, time_of, time_text, is_sixtieth, two_digits, padded, hours_text};

use itoa::Buffer;
use std::marker::Model;

// The number that at most three decimal digits spell.
fn digits(text: &[u8]) -> Option<u32>
    requires { length text.now ≤ 3 }
    ensures value { result ≡ digits_after 0 text.now }
    ensures small { IfSome result (λ n. n ≤ 999) }
{
    let mut value = 0u32;
    for digit in text {
        if !digit.is_ascii_digit() {
            return None;
        }
        value = value * 10 + u32::from(*digit - b'0');
    }
    Some(value)
}

// Whether two bytes are 00 to 59.
fn is_sixtieth(tens: u8, ones: u8) -> bool
    ensures { result ≡ is_sixtieth tens ones }
{
    tens.is_ascii_digit() && tens < b'6' && ones.is_ascii_digit()
}

// The number that two digits spell.
fn two_digits(tens: u8, ones: u8) -> u32
    requires { IsTrue (is_sixtieth tens ones) }
    ensures value { result ≡ two_digits tens ones }
    ensures small { result < 60 }
{
    10 * u32::from(tens - b'0') + u32::from(ones - b'0')
}

/// The second of the service day that a text HH:MM:SS names, with one to three digits of hours; None
/// exactly where it is no such text (GTFS Schedule Reference, Time; hours up to 999). It takes no memory.
#[tactic(auto, unfolding(crate::specs::Time::time_of, crate::specs::Time::is_time))]
pub fn read_time(text: &[u8]) -> Option<u32>
    ensures value { result ≡ time_of text.now }
    ensures small { IfSome result (λ second. second ≤ 3599999) }
{
    let n = text.len();
    if n < 7 || n > 9 {
        return None;
    }
    let Some(hours) = digits(&text[..n - 6]) else {
        return None;
    };
    if text[n - 6] == b':'
        && is_sixtieth(text[n - 5], text[n - 4])
        && text[n - 3] == b':'
        && is_sixtieth(text[n - 2], text[n - 1])
    {
        let minutes = two_digits(text[n - 5], text[n - 4]);
        let seconds = two_digits(text[n - 2], text[n - 1]);
        Some(3600 * hours + 60 * minutes + seconds)
    } else {
        None
    }
}

/// The text of a time, in memory of its own.
#[derive(Drop)]
pub struct TimeText {
    bytes: [u8; 24],
    length: usize,
}

impl Model for TimeText {
    ghost use Rattle.std.specs.Prelude.{List, ℕ, take, ◌≤◌};

    ghost Value = { List ℕ };

    ghost view = { λ text. take text.length text.bytes };

    ghost invariant = { λ text. text.length ≤ 24 };
}

impl TimeText {
    /// The empty text.
    pub fn new() -> TimeText
        ensures { result ≡ [] }
    {
        TimeText {
            bytes: [0; 24],
            length: 0,
        }
    }

    /// Lends the text.
    pub fn bytes(&self) -> &[u8]
        ensures { result.now ≡ self.now }
    {
        &self.bytes[..self.length]
    }

    fn clear(&mut self)
        ensures { self.new ≡ [] }
    {
        self.length = 0;
    }

    fn push(&mut self, byte: u8)
        requires { length self.old < 24 }
        ensures { self.new ≡ self.old ++ byte ∷ [] }
    {
        self.bytes[self.length] = byte;
        self.length += 1;
    }

    // Puts a number below 100 with two digits last.
    fn push_padded(&mut self, number: u8)
        requires room { length self.old < 23 }
        requires small { number < 100 }
        ensures { self.new ≡ self.old ++ padded number }
    {
        self.push(b'0' + number / 10);
        self.push(b'0' + number % 10);
    }

    // Puts bytes last.
    fn push_all(&mut self, bytes: &[u8])
        requires { length self.old + length bytes.now ≤ 24 }
        ensures { self.new ≡ self.old ++ bytes.now }
    {
        for byte in bytes {
            self.push(*byte);
        }
    }

    // Puts hours with at least two digits last.
    fn push_hours(&mut self, hours: u64)
        requires { self.old ≡ [] }
        ensures text { self.new ≡ hours_text hours }
        ensures room { hours < 10 ^ 16 → length self.new ≤ 16 }
    {
        if hours < 10 {
            self.push_padded(hours as u8);
        } else {
            let mut buffer = Buffer::new();
            self.push_all(buffer.format(hours).as_bytes());
        }
    }
}

/// Leaves the text HH:MM:SS of a second, with at least two digits of hours and no upper end. It takes no memory.
#[tactic(auto, unfolding(crate::specs::Time::time_text))]
pub fn write_time(second: u64, into: &mut TimeText)
    ensures { into.new ≡ time_text second }
{
    into.clear();
    into.push_hours(second / 3600);
    into.push(b':');
    into.push_padded((second / 60 % 60) as u8);
    into.push(b':');
    into.push_padded((second % 60) as u8);
}
