// The text of a range, and its way to a sink.
ghost use Rattle.std.specs.Prelude.{◌≡◌, [], ◌++◌, ◌≤◌, List, ℕ, All, IfOk, IfSome, OnOk, OnErr, IsErrOf, None, Some};
ghost use Rattle.move_files.specs.Outside.{Rose, SendsPrefix};
ghost use Rattle.journey_print.specs.Arcs.{TellsLeastArcs};
ghost use Rattle.journey_print.specs.Legs.{IsPrintable};
ghost use Rattle.journey_print.specs.Records.{HasText, records_text};
ghost use Rattle.range_print.specs.Rows as spec;
ghost use Rattle.range_print.specs.Rows.{ArePrintable};

use crate::RangeAnswer;
use crate::records::{add_foot_row, add_none_row, add_span_row};
use csv::{Error, Writer};
use journey_print::{LeastArcs, PrintStop, add_legs, new_writer, send, text_of};
use move_files::Sink;
use move_model::{Finding, Network, SpanFinding};
use std::alloc::Global;

/// Sends the rows of query `number`: the walk on foot with its arcs below it, then each span with the legs of its journey,
/// whose numbers go on from that of the walk; or one row of kind none. Their text is that of the records where each journey
/// is one of the network.
pub fn write_range<S: Sink>(
    alloc: Global,
    network: &Network,
    number: u32,
    answer: &RangeAnswer,
    out: &mut S,
) -> Result<(), PrintStop>
    ensures ok { S.tells → ArePrintable network.now answer.now
        → OnOk result (S.sent out.new ≡ S.sent out.old ++ records_text (spec.range_records number network.now answer.now)) }
    ensures err { S.tells → ArePrintable network.now answer.now
        → OnErr result (SendsPrefix (S.sent out.old) (records_text (spec.range_records number network.now answer.now)) (S.sent out.new)) }
    ensures grows { S.tells → (more : List ℕ) × (S.sent out.new ≡ S.sent out.old ++ more) }
    ensures fault { IsErrOf result PrintStop.WriteFault → Rose (S.faults out.old) (S.faults out.new) }
    ensures counts { (S.faults out.old ≤ S.faults out.new) × (S.wants out.old ≤ S.wants out.new) }
{
    let arcs = LeastArcs::new(alloc, network.arcs.as_slice())?;
    write_range_with(alloc, network, &arcs, number, answer, out)
}

/// Does what `write_range` does, where an index of the network's arcs is lent.
pub fn write_range_with<S: Sink>(
    alloc: Global,
    network: &Network,
    arcs: &LeastArcs,
    number: u32,
    answer: &RangeAnswer,
    out: &mut S,
) -> Result<(), PrintStop>
    requires { TellsLeastArcs arcs.now network.now.arcs }
    ensures ok { S.tells → ArePrintable network.now answer.now
        → OnOk result (S.sent out.new ≡ S.sent out.old ++ records_text (spec.range_records number network.now answer.now)) }
    ensures err { S.tells → ArePrintable network.now answer.now
        → OnErr result (SendsPrefix (S.sent out.old) (records_text (spec.range_records number network.now answer.now)) (S.sent out.new)) }
    ensures grows { S.tells → (more : List ℕ) × (S.sent out.new ≡ S.sent out.old ++ more) }
    ensures fault { IsErrOf result PrintStop.WriteFault → Rose (S.faults out.old) (S.faults out.new) }
    ensures counts { (S.faults out.old ≤ S.faults out.new) × (S.wants out.old ≤ S.wants out.new) }
{
    send(range_text(alloc, number, network, arcs, answer), out)
}

fn range_text(
    alloc: Global,
    number: u32,
    network: &Network,
    arcs: &LeastArcs,
    answer: &RangeAnswer,
) -> Result<Vec<u8>, Error>
    requires { TellsLeastArcs arcs.now network.now.arcs }
    ensures { ArePrintable network.now answer.now
        → IfOk result (λ text. text.items ≡ records_text (spec.range_records number network.now answer.now)) }
{
    let mut out = new_writer(alloc);
    add_range(&mut out, number, network, arcs, answer)?;
    text_of(out)
}

// Writes the rows of an answer.
fn add_range(
    out: &mut Writer<Vec<u8>>,
    number: u32,
    network: &Network,
    arcs: &LeastArcs,
    answer: &RangeAnswer,
) -> Result<(), Error>
    requires { TellsLeastArcs arcs.now network.now.arcs }
    ensures { OnOk result (ArePrintable network.now answer.now → (text : List ℕ) → HasText out.old text
        → HasText out.new (text ++ records_text (spec.range_records number network.now answer.now))) }
{
    match &answer.foot {
        Some(foot) => add_foot_and_spans(out, number, network, arcs, answer, foot),
        None => add_spans_or_none(out, number, network, arcs, answer),
    }
}

// Writes the rows of a walk on foot and, behind them, those of the spans.
fn add_foot_and_spans(
    out: &mut Writer<Vec<u8>>,
    number: u32,
    network: &Network,
    arcs: &LeastArcs,
    answer: &RangeAnswer,
    foot: &Finding,
) -> Result<(), Error>
    requires { TellsLeastArcs arcs.now network.now.arcs }
    ensures { OnOk result (IsPrintable network.now foot.now → All (λ found. IsPrintable network.now found.finding) answer.now.spans
        → (text : List ℕ) → HasText out.old text
        → HasText out.new (text ++ records_text (spec.rows_of number network.now answer.now (Some foot.now) answer.now.spans))) }
{
    add_foot(out, number, network, arcs, answer, foot)?;
    add_spans(out, number, 2, network, arcs, answer)
}

// Writes the rows of the spans, or one row of kind none.
fn add_spans_or_none(
    out: &mut Writer<Vec<u8>>,
    number: u32,
    network: &Network,
    arcs: &LeastArcs,
    answer: &RangeAnswer,
) -> Result<(), Error>
    requires { TellsLeastArcs arcs.now network.now.arcs }
    ensures { OnOk result (All (λ found. IsPrintable network.now found.finding) answer.now.spans → (text : List ℕ) → HasText out.old text
        → HasText out.new (text ++ records_text (spec.rows_of number network.now answer.now None answer.now.spans))) }
{
    if answer.spans.is_empty() {
        add_none_row(out, number, answer)
    } else {
        add_spans(out, number, 1, network, arcs, answer)
    }
}

// Writes the row of a walk on foot and its arcs.
fn add_foot(
    out: &mut Writer<Vec<u8>>,
    number: u32,
    network: &Network,
    arcs: &LeastArcs,
    answer: &RangeAnswer,
    foot: &Finding,
) -> Result<(), Error>
    requires { TellsLeastArcs arcs.now network.now.arcs }
    ensures { OnOk result (IsPrintable network.now foot.now → (text : List ℕ) → HasText out.old text
        → HasText out.new (text ++ records_text (spec.foot_records number network.now answer.now foot.now))) }
{
    add_foot_row(out, number, answer, foot)?;
    add_legs(out, number, 1, network, arcs, &foot.journey)
}

// Writes the rows of the spans, whose journeys are numbered from `begin` on.
fn add_spans(
    out: &mut Writer<Vec<u8>>,
    number: u32,
    begin: usize,
    network: &Network,
    arcs: &LeastArcs,
    answer: &RangeAnswer,
) -> Result<(), Error>
    requires few { begin ≤ 2 }
    requires arcs { TellsLeastArcs arcs.now network.now.arcs }
    ensures { OnOk result (All (λ found. IsPrintable network.now found.finding) answer.now.spans → (text : List ℕ) → HasText out.old text
        → HasText out.new (text ++ records_text (spec.spans_from number begin network.now answer.now answer.now.spans))) }
{
    let mut journey = begin;
    for found in answer.spans.as_slice() {
        add_span(out, number, journey, network, arcs, answer, found)?;
        journey += 1;
    }
    Ok(())
}

// Writes the row of a span and the legs of its journey.
fn add_span(
    out: &mut Writer<Vec<u8>>,
    number: u32,
    journey: usize,
    network: &Network,
    arcs: &LeastArcs,
    answer: &RangeAnswer,
    found: &SpanFinding,
) -> Result<(), Error>
    requires { TellsLeastArcs arcs.now network.now.arcs }
    ensures { OnOk result (IsPrintable network.now found.now.finding → (text : List ℕ) → HasText out.old text
        → HasText out.new (text ++ records_text (spec.span_records number journey network.now answer.now found.now))) }
{
    add_span_row(out, number, journey, answer, found)?;
    add_legs(out, number, journey, network, arcs, &found.finding.journey)
}
