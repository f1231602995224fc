// The text of rows, and its way to a sink.
ghost use Rattle.std.specs.Prelude.{◌≡◌, [], ◌++◌, ◌<◌, ◌≤◌, ◌^◌, List, ℕ, All, IfOk, OnOk, OnErr, IsErrOf};
ghost use Rattle.move_files.specs.Outside.{Rose, SendsPrefix};
ghost use Rattle.journey_print.specs.Arcs.{TellsLeastArcs};
ghost use Rattle.journey_print.specs.Legs.{IsPrintable};
ghost use Rattle.journey_print.specs.Records as spec;
ghost use Rattle.journey_print.specs.Records.{HasText, record_text, records_text};

use crate::legs::add_legs;
use crate::text::{add_record, new_writer, send, text_of};
use crate::{LeastArcs, PointAnswer, PrintStop};
use csv::{Error, Writer};
use itoa::Buffer;
use move_files::Sink;
use move_model::{Finding, Network, TimeText, write_time};
use std::alloc::Global;

#[tactic(auto, unfolding(crate::specs::Records::header_record))]
fn add_header(out: &mut Writer<Vec<u8>>) -> Result<(), Error>
    ensures { OnOk result ((text : List ℕ) → HasText out.old text → HasText out.new (text ++ record_text spec.header_record)) }
{
    add_record(
        out,
        &[
            b"query", b"journey", b"kind", b"id", b"from", b"from_at", b"to", b"to_at", b"start",
            b"end", b"arrive",
        ],
    )
}

#[tactic(auto, unfolding(crate::specs::Records::pair_record))]
fn add_pair(
    out: &mut Writer<Vec<u8>>,
    number: u32,
    journey: usize,
    answer: &PointAnswer,
    finding: &Finding,
) -> Result<(), Error>
    ensures row { OnOk result ((text : List ℕ) → HasText out.old text → HasText out.new (text ++ record_text (spec.pair_record number journey answer.now finding.now))) }
    ensures small { finding.now.pair.arrive < 2 ^ 64 }
{
    let mut query_digits = Buffer::new();
    let mut journey_digits = Buffer::new();
    let mut trips = Buffer::new();
    let mut from_at = Buffer::new();
    let mut to_at = Buffer::new();
    let mut depart = TimeText::new();
    let mut arrive = TimeText::new();
    write_time(u64::from(answer.depart), &mut depart);
    write_time(finding.pair.arrive, &mut arrive);
    add_record(
        out,
        &[
            query_digits.format(number).as_bytes(),
            journey_digits.format(journey).as_bytes(),
            b"pair",
            trips.format(finding.pair.trips).as_bytes(),
            answer.from.word.as_slice(),
            from_at.format(answer.from.node.0).as_bytes(),
            answer.to.word.as_slice(),
            to_at.format(answer.to.node.0).as_bytes(),
            depart.bytes(),
            b"",
            arrive.bytes(),
        ],
    )
}

#[tactic(auto, unfolding(crate::specs::Records::none_record))]
fn add_none(out: &mut Writer<Vec<u8>>, number: u32, answer: &PointAnswer) -> Result<(), Error>
    ensures { OnOk result ((text : List ℕ) → HasText out.old text → HasText out.new (text ++ record_text (spec.none_record number answer.now))) }
{
    let mut query_digits = Buffer::new();
    let mut from_at = Buffer::new();
    let mut to_at = Buffer::new();
    let mut depart = TimeText::new();
    write_time(u64::from(answer.depart), &mut depart);
    add_record(
        out,
        &[
            query_digits.format(number).as_bytes(),
            b"0",
            b"none",
            b"",
            answer.from.word.as_slice(),
            from_at.format(answer.from.node.0).as_bytes(),
            answer.to.word.as_slice(),
            to_at.format(answer.to.node.0).as_bytes(),
            depart.bytes(),
            b"",
            b"",
        ],
    )
}

// Writes the row of a pair and the legs of its journey.
fn add_finding(
    out: &mut Writer<Vec<u8>>,
    number: u32,
    journey: usize,
    network: &Network,
    arcs: &LeastArcs,
    answer: &PointAnswer,
    finding: &Finding,
) -> Result<(), Error>
    requires { TellsLeastArcs arcs.now network.now.arcs }
    ensures { OnOk result (IsPrintable network.now finding.now → (text : List ℕ) → HasText out.old text
        → HasText out.new (text ++ records_text (spec.finding_records number journey network.now answer.now finding.now))) }
{
    add_pair(out, number, journey, answer, finding)?;
    add_legs(out, number, journey, network, arcs, &finding.journey)
}

// Writes the rows of the findings of an answer.
fn add_findings(
    out: &mut Writer<Vec<u8>>,
    number: u32,
    network: &Network,
    arcs: &LeastArcs,
    answer: &PointAnswer,
) -> Result<(), Error>
    requires { TellsLeastArcs arcs.now network.now.arcs }
    ensures { OnOk result (All (IsPrintable network.now) answer.now.found → (text : List ℕ) → HasText out.old text
        → HasText out.new (text ++ records_text (spec.findings_from number 1 network.now answer.now answer.now.found))) }
{
    let mut journey = 1usize;
    for finding in answer.found.as_slice() {
        add_finding(out, number, journey, network, arcs, answer, finding)?;
        journey += 1;
    }
    Ok(())
}

// Writes the rows of the findings of an answer, or its row of kind none.
fn add_point(
    out: &mut Writer<Vec<u8>>,
    number: u32,
    network: &Network,
    arcs: &LeastArcs,
    answer: &PointAnswer,
) -> Result<(), Error>
    requires { TellsLeastArcs arcs.now network.now.arcs }
    ensures { OnOk result (All (IsPrintable network.now) answer.now.found → (text : List ℕ) → HasText out.old text
        → HasText out.new (text ++ records_text (spec.point_records number network.now answer.now answer.now.found))) }
{
    if answer.found.is_empty() {
        add_none(out, number, answer)
    } else {
        add_findings(out, number, network, arcs, answer)
    }
}

fn header_text(alloc: Global) -> Result<Vec<u8>, Error>
    ensures { IfOk result (λ text. text.items ≡ record_text spec.header_record) }
{
    let mut out = new_writer(alloc);
    add_header(&mut out)?;
    text_of(out)
}

fn point_text(
    alloc: Global,
    number: u32,
    network: &Network,
    arcs: &LeastArcs,
    answer: &PointAnswer,
) -> Result<Vec<u8>, Error>
    requires { TellsLeastArcs arcs.now network.now.arcs }
    ensures { All (IsPrintable network.now) answer.now.found
        → IfOk result (λ text. text.items ≡ records_text (spec.point_records number network.now answer.now answer.now.found)) }
{
    let mut out = new_writer(alloc);
    add_point(&mut out, number, network, arcs, answer)?;
    text_of(out)
}

/// Sends the header row.
pub fn write_header<S: Sink>(alloc: Global, out: &mut S) -> Result<(), PrintStop>
    ensures ok { S.tells → OnOk result (S.sent out.new ≡ S.sent out.old ++ record_text spec.header_record) }
    ensures err { S.tells → OnErr result (SendsPrefix (S.sent out.old) (record_text spec.header_record) (S.sent out.new)) }
    ensures fault { IsErrOf result PrintStop.WriteFault → Rose (S.faults out.old) (S.faults out.new) }
    ensures counts { (S.faults out.old ≤ S.faults out.new) × (S.wants out.old ≤ S.wants out.new) }
{
    send(header_text(alloc), out)
}

/// Sends the rows of query `number`: each pair with the legs of its journey below it, or one row of kind none. Their text
/// is that of the records where each journey is one of the network.
pub fn write_point<S: Sink>(
    alloc: Global,
    network: &Network,
    number: u32,
    answer: &PointAnswer,
    out: &mut S,
) -> Result<(), PrintStop>
    ensures ok { S.tells → All (IsPrintable network.now) answer.now.found
        → OnOk result (S.sent out.new ≡ S.sent out.old ++ records_text (spec.point_records number network.now answer.now answer.now.found)) }
    ensures err { S.tells → All (IsPrintable network.now) answer.now.found
        → OnErr result (SendsPrefix (S.sent out.old) (records_text (spec.point_records number network.now answer.now answer.now.found)) (S.sent out.new)) }
    ensures grows { S.tells → (more : List ℕ) × (S.sent out.new ≡ S.sent out.old ++ more) }
    ensures fault { IsErrOf result PrintStop.WriteFault → Rose (S.faults out.old) (S.faults out.new) }
    ensures counts { (S.faults out.old ≤ S.faults out.new) × (S.wants out.old ≤ S.wants out.new) }
{
    let arcs = LeastArcs::new(alloc, network.arcs.as_slice())?;
    write_point_with(alloc, network, &arcs, number, answer, out)
}

/// Does what `write_point` does, where an index of the network's arcs is lent.
pub fn write_point_with<S: Sink>(
    alloc: Global,
    network: &Network,
    arcs: &LeastArcs,
    number: u32,
    answer: &PointAnswer,
    out: &mut S,
) -> Result<(), PrintStop>
    requires { TellsLeastArcs arcs.now network.now.arcs }
    ensures ok { S.tells → All (IsPrintable network.now) answer.now.found
        → OnOk result (S.sent out.new ≡ S.sent out.old ++ records_text (spec.point_records number network.now answer.now answer.now.found)) }
    ensures err { S.tells → All (IsPrintable network.now) answer.now.found
        → OnErr result (SendsPrefix (S.sent out.old) (records_text (spec.point_records number network.now answer.now answer.now.found)) (S.sent out.new)) }
    ensures grows { S.tells → (more : List ℕ) × (S.sent out.new ≡ S.sent out.old ++ more) }
    ensures fault { IsErrOf result PrintStop.WriteFault → Rose (S.faults out.old) (S.faults out.new) }
    ensures counts { (S.faults out.old ≤ S.faults out.new) × (S.wants out.old ≤ S.wants out.new) }
{
    send(point_text(alloc, number, network, arcs, answer), out)
}
