// One row of each kind.
ghost use Rattle.std.specs.Prelude.{◌++◌, ◌<◌, ◌^◌, List, ℕ, OnOk};
ghost use Rattle.journey_print.specs.Records.{HasText, record_text};
ghost use Rattle.range_print.specs.Rows as spec;

use crate::RangeAnswer;
use csv::{Error, Writer};
use itoa::Buffer;
use journey_print::add_record;
use move_model::{Finding, SpanFinding, TimeText, write_time};

#[tactic(auto, unfolding(crate::specs::Rows::foot_record))]
pub(crate) fn add_foot_row(
    out: &mut Writer<Vec<u8>>,
    number: u32,
    answer: &RangeAnswer,
    foot: &Finding,
) -> Result<(), Error>
    ensures row { OnOk result ((text : List ℕ) → HasText out.old text → HasText out.new (text ++ record_text (spec.foot_record number answer.now foot.now))) }
    ensures small { foot.now.pair.arrive < 2 ^ 64 }
{
    let mut query_digits = Buffer::new();
    let mut seconds = Buffer::new();
    let mut from_at = Buffer::new();
    let mut to_at = Buffer::new();
    let mut first = TimeText::new();
    let mut last = TimeText::new();
    write_time(u64::from(answer.first), &mut first);
    write_time(u64::from(answer.last), &mut last);
    let on_foot = foot.pair.arrive.saturating_sub(u64::from(answer.first));
    add_record(
        out,
        &[
            query_digits.format(number).as_bytes(),
            b"1",
            b"foot",
            seconds.format(on_foot).as_bytes(),
            answer.from.word.as_slice(),
            from_at.format(answer.from.node.0).as_bytes(),
            answer.to.word.as_slice(),
            to_at.format(answer.to.node.0).as_bytes(),
            first.bytes(),
            last.bytes(),
            b"",
        ],
    )
}

#[tactic(auto, unfolding(crate::specs::Rows::span_record))]
pub(crate) fn add_span_row(
    out: &mut Writer<Vec<u8>>,
    number: u32,
    journey: usize,
    answer: &RangeAnswer,
    found: &SpanFinding,
) -> Result<(), Error>
    ensures row { OnOk result ((text : List ℕ) → HasText out.old text → HasText out.new (text ++ record_text (spec.span_record number journey answer.now found.now))) }
    ensures small { found.now.finding.pair.arrive < 2 ^ 64 }
{
    let mut query_digits = Buffer::new();
    let mut journey_digits = Buffer::new();
    let mut trips = Buffer::new();
    let mut from_at = Buffer::new();
    let mut to_at = Buffer::new();
    let mut first = TimeText::new();
    let mut last = TimeText::new();
    let mut arrive = TimeText::new();
    write_time(u64::from(found.first), &mut first);
    write_time(u64::from(found.last), &mut last);
    write_time(found.finding.pair.arrive, &mut arrive);
    add_record(
        out,
        &[
            query_digits.format(number).as_bytes(),
            journey_digits.format(journey).as_bytes(),
            b"span",
            trips.format(found.finding.pair.trips).as_bytes(),
            answer.from.word.as_slice(),
            from_at.format(answer.from.node.0).as_bytes(),
            answer.to.word.as_slice(),
            to_at.format(answer.to.node.0).as_bytes(),
            first.bytes(),
            last.bytes(),
            arrive.bytes(),
        ],
    )
}

#[tactic(auto, unfolding(crate::specs::Rows::range_none_record))]
pub(crate) fn add_none_row(
    out: &mut Writer<Vec<u8>>,
    number: u32,
    answer: &RangeAnswer,
) -> Result<(), Error>
    ensures { OnOk result ((text : List ℕ) → HasText out.old text → HasText out.new (text ++ record_text (spec.range_none_record number answer.now))) }
{
    let mut query_digits = Buffer::new();
    let mut from_at = Buffer::new();
    let mut to_at = Buffer::new();
    let mut first = TimeText::new();
    let mut last = TimeText::new();
    write_time(u64::from(answer.first), &mut first);
    write_time(u64::from(answer.last), &mut last);
    add_record(
        out,
        &[
            query_digits.format(number).as_bytes(),
            b"0",
            b"none",
            b"",
            answer.from.word.as_slice(),
            from_at.format(answer.from.node.0).as_bytes(),
            answer.to.word.as_slice(),
            to_at.format(answer.to.node.0).as_bytes(),
            first.bytes(),
            last.bytes(),
            b"",
        ],
    )
}
