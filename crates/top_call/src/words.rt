// The words of a command.
ghost use Rattle.std.specs.Prelude.{◌≡◌, ◌≤◌, length, option_map, IfOk, IfSome};
ghost use Rattle.std.specs.String.{string_bytes};
ghost use Rattle.feed_values.specs.Date.{IsDay};
ghost use Rattle.top_call.specs.Words as spec;

use city_run::{CityWords, city_words};
use feed_values::date;
use move_model::{FileKind, NoMemory};
use std::alloc::Global;
use tables::read_number;

// The greatest word SCALE.
const MOST_SCALE: u32 = 1_000;

// The greatest word BUFFER, in seconds.
const MOST_BUFFER: u32 = 3_600;

/// What the words of `plan` name. The date is a number of the form YYYYMMDD, the buffer in seconds.
#[derive(Clone, Copy)]
pub struct PlanWords<'a> {
    pub feed: &'a str,
    pub gr: &'a str,
    pub co: &'a str,
    pub date: u32,
    pub scale: u32,
    pub queries: &'a str,
    pub buffer: u32,
}

// A whole number up to a limit.
fn number_up_to(most: u32, text: &str) -> Option<u32>
    ensures { result ≡ spec.number_up_to most text.now }
{
    match read_number(text.as_bytes()) {
        Some(number) if number <= u64::from(most) => Some(number as u32),
        _ => None,
    }
}

// The plan of words whose numbers and date are right.
#[tactic(auto, unfolding(crate::specs::Words::plan_with))]
fn plan_with<'a>(
    feed: &'a str,
    gr: &'a str,
    co: &'a str,
    date_word: &str,
    scale_word: &str,
    queries: &'a str,
    buffer_word: &str,
) -> Option<PlanWords<'a>>
    ensures day { IfSome result (λ words. IsDay words.date) }
    ensures scale { IfSome result (λ words. words.scale ≤ 1000) }
    ensures buffer { IfSome result (λ words. words.buffer ≤ 3600) }
    ensures value { option_map spec.told result ≡ spec.plan_with feed.now gr.now co.now date_word.now scale_word.now queries.now buffer_word.now }
{
    let Some(date) = date(date_word.as_bytes()) else {
        return None;
    };
    let Some(scale) = number_up_to(MOST_SCALE, scale_word) else {
        return None;
    };
    let Some(buffer) = number_up_to(MOST_BUFFER, buffer_word) else {
        return None;
    };
    Some(PlanWords {
        feed,
        gr,
        co,
        date,
        scale,
        queries,
        buffer,
    })
}

/// What the words name, or None exactly where they are no command.
#[tactic(auto, unfolding(crate::specs::Words::plan_of))]
pub fn plan_words(words: &[String]) -> Option<PlanWords>
    ensures day { IfSome result (λ plan. IsDay plan.date) }
    ensures scale { IfSome result (λ plan. plan.scale ≤ 1000) }
    ensures buffer { IfSome result (λ plan. plan.buffer ≤ 3600) }
    ensures value { option_map spec.told result ≡ spec.plan_of words.now }
{
    match words {
        [verb, feed, gr, co, date, scale, queries] if verb.as_str() == "plan" => plan_with(
            feed.as_str(),
            gr.as_str(),
            co.as_str(),
            date.as_str(),
            scale.as_str(),
            queries.as_str(),
            "0",
        ),
        [verb, feed, gr, co, date, scale, queries, buffer] if verb.as_str() == "plan" => plan_with(
            feed.as_str(),
            gr.as_str(),
            co.as_str(),
            date.as_str(),
            scale.as_str(),
            queries.as_str(),
            buffer.as_str(),
        ),
        _ => None,
    }
}

/// The numbers of a city that the words name, or None exactly where they are no command of a city.
#[tactic(auto, unfolding(crate::specs::Words::city_in))]
pub fn city_words_in(words: &[String]) -> Option<CityWords>
    ensures least { IfSome result (λ city. 5 ≤ city.side) }
    ensures most { IfSome result (λ city. city.side ≤ 200) }
    ensures few { IfSome result (λ city. city.lines ≤ 200) }
    ensures value { result ≡ spec.city_in words.now }
{
    match words {
        [verb, side, lines, number] if verb.as_str() == "city" => {
            city_words(side.as_str(), lines.as_str(), number.as_str())
        }
        _ => None,
    }
}

/// A file's own name.
#[tactic(auto, unfolding(crate::specs::Words::file_text))]
pub fn file_text(kind: FileKind) -> &'static str
    ensures text { result.now ≡ spec.file_text kind }
    ensures short { length result.now ≤ 18 }
{
    match kind {
        FileKind::Stops => "stops.txt",
        FileKind::Calendar => "calendar.txt",
        FileKind::CalendarDates => "calendar_dates.txt",
        FileKind::Trips => "trips.txt",
        FileKind::StopTimes => "stop_times.txt",
        FileKind::Frequencies => "frequencies.txt",
        FileKind::StopNodes => "stop_nodes.txt",
        FileKind::Gr => "GR",
        FileKind::Co => "CO",
        FileKind::Queries => "QUERIES",
        FileKind::Net => "NET",
    }
}

// A file of a folder.
fn in_folder(alloc: Global, folder: &str, file: &str) -> Result<String, NoMemory>
    ensures { IfOk result (λ name. string_bytes name ≡ spec.in_folder folder.now file.now) }
{
    let mut name = String::from_str(alloc, folder)?;
    name.push_str("/")?;
    name.push_str(file)?;
    Ok(name)
}

/// The name under which a file is read.
#[tactic(auto, unfolding(crate::specs::Words::name_in))]
pub fn name_in(alloc: Global, plan: &PlanWords, kind: FileKind) -> Result<String, NoMemory>
    ensures { IfOk result (λ name. string_bytes name ≡ spec.name_in (spec.told plan.now) kind) }
{
    match kind {
        FileKind::Gr => String::from_str(alloc, plan.gr),
        FileKind::Co => String::from_str(alloc, plan.co),
        FileKind::Queries => String::from_str(alloc, plan.queries),
        FileKind::Net => Ok(String::new(alloc)),
        FileKind::Stops
        | FileKind::Calendar
        | FileKind::CalendarDates
        | FileKind::Trips
        | FileKind::StopTimes
        | FileKind::Frequencies
        | FileKind::StopNodes => in_folder(alloc, plan.feed, file_text(kind)),
    }
}
