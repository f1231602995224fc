// The line that tells a status.
ghost use Rattle.std.specs.Prelude.{◌≡◌, ◌+◌, ◌<◌, ◌≤◌, ◌++◌, [], ◌∷◌, decimal, length, ◌≢◌, ℕ};
ghost use Rattle.std.specs.Option.{option_map_or};
ghost use Rattle.move_model.specs.declared.refusal.FileKind.{FileKind};
ghost use Rattle.top_call.specs.Words.{file_text as text_of_file};
ghost use Rattle.top_call.specs.Status as spec;

use crate::columns::column_text;
use crate::status::Status;
use crate::words::file_text;
use itoa::Buffer;
use move_model::{Cause, FileKind, Refusal};
use std::marker::Model;

/// A line, in memory of its own.
#[derive(Drop)]
pub struct Line {
    text: [u8; 256],
    length: usize,
}

impl Model for Line {
    ghost use Rattle.std.specs.Prelude.{List, ℕ, take, ◌≤◌};

    ghost Value = { List ℕ };

    ghost view = { λ line. take line.length line.text };

    ghost invariant = { λ line. line.length ≤ 256 };
}

impl Line {
    /// The empty line.
    pub fn new() -> Line
        ensures { result ≡ [] }
    {
        Line {
            text: [0; 256],
            length: 0,
        }
    }

    /// Lends the line.
    pub fn bytes(&self) -> &[u8]
        ensures { result.now ≡ self.now }
    {
        &self.text[..self.length]
    }

    fn push(&mut self, byte: u8)
        requires { length self.old < 256 }
        ensures { self.new ≡ self.old ++ byte ∷ [] }
    {
        self.text[self.length] = byte;
        self.length += 1;
    }

    // Puts words last.
    fn push_all(&mut self, words: &[u8])
        requires { length self.old + length words.now ≤ 256 }
        ensures { self.new ≡ self.old ++ words.now }
    {
        for byte in words {
            self.push(*byte);
        }
    }

    // Puts a number last.
    fn push_number(&mut self, number: u64)
        requires { length self.old + 20 ≤ 256 }
        ensures text { self.new ≡ self.old ++ decimal number }
        ensures short { length self.new ≤ length self.old + 20 }
    {
        let mut buffer = Buffer::new();
        self.push_all(buffer.format(number).as_bytes());
    }

    // Puts the words of a cause last.
    #[tactic(auto, unfolding(crate::specs::Status::cause_number))]
    fn push_cause(&mut self, file: FileKind, cause: Cause)
        requires { length self.old + 64 ≤ 256 }
        ensures text { self.new ≡ self.old ++ spec.cause_text file cause }
        ensures short { length self.new ≤ length self.old + 64 }
    {
        self.push_words(file, cause);
        if let Some(number) = number_of(cause) {
            self.push_number(number);
        }
        self.push_all(end_of(cause));
    }

    // Puts the words that tell a missing column last.
    #[tactic(auto, unfolding(crate::specs::Status::cause_words))]
    fn push_column(&mut self, file: FileKind, place: u32)
        requires { length self.old + 36 ≤ 256 }
        ensures text { self.new ≡ self.old ++ spec.cause_words file (Cause.NoColumn place) }
        ensures short { length self.new ≤ length self.old + 36 }
    {
        self.push_all(b"no column ");
        self.push_all(column_text(file, place));
    }

    // Puts the words before a cause's number last.
    #[tactic(auto, unfolding(crate::specs::Status::cause_words))]
    fn push_words(&mut self, file: FileKind, cause: Cause)
        requires { length self.old + 36 ≤ 256 }
        ensures text { self.new ≡ self.old ++ spec.cause_words file cause }
        ensures short { length self.new ≤ length self.old + 36 }
    {
        match cause {
            Cause::NoColumn(place) => self.push_column(file, place),
            _ => self.push_all(words_of(cause)),
        }
    }

    // Writes what a refusal tells.
    #[tactic(auto, unfolding(crate::specs::Status::refusal_text))]
    fn push_refusal(&mut self, refusal: Refusal)
        requires { self.old ≡ [] }
        ensures { self.new ≡ spec.refusal_text refusal }
    {
        self.push_all(b"refused: ");
        self.push_all(file_text(refusal.file).as_bytes());
        self.push_all(b" row ");
        self.push_number(u64::from(refusal.row));
        self.push_all(b": ");
        self.push_cause(refusal.file, refusal.cause);
        self.push(b'\n');
    }

    // Writes words and the name of a file.
    fn push_file(&mut self, words: &[u8], file: FileKind)
        requires empty { self.old ≡ [] }
        requires short { length words.now ≤ 20 }
        ensures { self.new ≡ words.now ++ text_of_file file ++ 10 ∷ [] }
    {
        self.push_all(words);
        self.push_all(file_text(file).as_bytes());
        self.push(b'\n');
    }

    /// Writes the line of a status into an empty line.
    #[tactic(auto, unfolding(crate::specs::Status::line_of, crate::specs::Status::usage_text))]
    pub fn tell(&mut self, status: Status)
        requires { self.old ≡ [] }
        ensures { self.new ≡ spec.line_of status }
    {
        match status {
            Status::Done => {}
            Status::Usage => self.push_all(USAGE.as_bytes()),
            Status::Refused(refusal) => self.push_refusal(refusal),
            Status::NoFile(file) => self.push_file(b"no file: ", file),
            Status::ReadFault(file) => self.push_file(b"read fault: ", file),
            Status::WriteFault => self.push_all(b"write fault\n"),
            Status::NoMemory => self.push_all(b"no memory\n"),
        }
    }
}

const USAGE: &str =
    "usage: planner plan FEED GR CO DATE SCALE QUERIES [BUFFER] | compile FEED GR CO DATE SCALE NET [BUFFER] | answer NET QUERIES | migrate OLD NEW | audit NET | city SIDE LINES NUMBER\n";

// The number that a cause keeps.
#[tactic(auto, unfolding(crate::specs::Status::cause_number))]
fn number_of(cause: Cause) -> Option<u64>
    ensures { spec.cause_number cause ≡ option_map_or decimal result [] }
{
    match cause {
        Cause::FileLong(number)
        | Cause::Limit(number)
        | Cause::IdLong(number)
        | Cause::CopyLate(number)
        | Cause::Vertex(number)
        | Cause::Weight(number)
        | Cause::Count(number)
        | Cause::Window(number) => Some(number),
        _ => None,
    }
}

// The words behind it.
#[tactic(auto, unfolding(crate::specs::Status::cause_end))]
fn end_of(cause: Cause) -> &'static [u8]
    ensures text { result.now ≡ spec.cause_end cause }
    ensures short { length result.now ≤ 6 }
{
    match cause {
        Cause::FileLong(_) | Cause::IdLong(_) => b" bytes",
        _ => b"",
    }
}

// The words before a cause's number, where they name no column.
#[tactic(auto, unfolding(crate::specs::Status::cause_words))]
fn words_of(cause: Cause) -> &'static [u8]
    ensures text { (file : FileKind) → ((k : ℕ) → cause ≢ Cause.NoColumn k) → result.now ≡ spec.cause_words file cause }
    ensures short { length result.now ≤ 20 }
{
    match cause {
        Cause::FileLong(_) => b"file of ",
        Cause::NoColumn(_) => b"",
        Cause::Limit(_) => b"limit ",
        Cause::NotUtf8 => b"not utf-8",
        Cause::IdEmpty => b"empty id",
        Cause::IdLong(_) => b"id of ",
        Cause::Repeated => b"repeated",
        Cause::Number => b"number",
        Cause::Coordinate => b"coordinate",
        Cause::Date => b"date",
        Cause::Time => b"time",
        Cause::UnknownTrip => b"unknown trip",
        Cause::UnknownStop => b"unknown stop",
        Cause::NotAStop => b"not a stop",
        Cause::NoTime => b"no time",
        Cause::TimeFalls => b"time falls",
        Cause::CopyLate(_) => b"copy until ",
        Cause::NoCalendar => b"no calendar",
        Cause::NoPlace => b"no place",
        Cause::Line => b"line",
        Cause::Vertex(_) => b"vertex ",
        Cause::Weight(_) => b"weight ",
        Cause::Count(_) => b"count ",
        Cause::Kind => b"kind",
        Cause::Place => b"place",
        Cause::Window(_) => b"window ",
        Cause::Unbuilt => b"unbuilt",
    }
}
