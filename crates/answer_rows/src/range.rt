// Queries over a range of departures.
ghost use Rattle.std.specs.Prelude.{◌≡◌, ◌++◌, ◌<◌, ◌≤◌, ◌-◌, ◌^◌, ℕ, IfOk, OnOk, OnErr, IsErrOf};
ghost use Rattle.move_model.specs.Streets.{IsVertex};
ghost use Rattle.move_model.specs.Network.{streets};
ghost use Rattle.move_files.specs.Outside.{Rose, SendsPrefix};
ghost use Rattle.journey_print.specs.Arcs.{TellsLeastArcs};
ghost use Rattle.journey_print.specs.Records.{records_text};
ghost use Rattle.range_print.specs.Rows.{range_records, ArePrintable};
ghost use Rattle.query_table.specs.Queries.{IsQuery};
ghost use Rattle.network_file.specs.Compiled.{FitTogether};
ghost use Rattle.network_file.specs.Answers.{IsListedSpans};
ghost use Rattle.range_answers.specs.Range.{IsRoomFor, IsSearchedWithin, IsOpenedWithin};
ghost use Rattle.answer_rows.specs.Counted.{IsSearchedFor, IsOpenedFor};
ghost use Rattle.answer_rows.specs.Sent.{SendsQuery, SendsPartOfQuery};

use crate::place::places_of;
use crate::stop::{AnswerStop, stop_of};
use journey_print::LeastArcs;
use move_files::Sink;
use move_model::{Network, NoMemory, Place, Query};
use network_file::Compiled;
use range_answers::{RangeFindings, RangeWork};
use range_print::{RangeAnswer, write_range_with};
use std::alloc::Global;
use std::sync::ledger::Ledger;
use steps::Steps;

// What was found, with the places and the window of the query.
fn with_places(
    alloc: Global,
    from: &Place,
    to: &Place,
    first: u32,
    last: u32,
    found: RangeFindings,
) -> Result<RangeAnswer, NoMemory>
    ensures { IfOk result (λ answer. answer ≡ record { from = from.now; to = to.now; first = first; last = last; foot = found.foot; spans = found.spans }) }
{
    let (from, to) = places_of(alloc, from, to)?;
    let RangeFindings { foot, spans } = found;
    Ok(RangeAnswer {
        from,
        to,
        first,
        last,
        foot,
        spans,
    })
}

// The answer to a range.
fn answer_range<'a, L: Ledger, M: Ledger>(
    alloc: Global,
    compiled: &'a Compiled,
    work: &mut RangeWork<'a>,
    from: &Place,
    to: &Place,
    first: u32,
    last: u32,
    limit: u8,
    searches: &mut Steps<L>,
    opens: &mut Steps<M>,
) -> Result<RangeAnswer, NoMemory>
    requires fits { FitTogether compiled.now }
    requires from { IsVertex (streets compiled.now.network) from.now.node }
    requires to { IsVertex (streets compiled.now.network) to.now.node }
    requires window { first ≤ last }
    requires short { last < 2 ^ 32 - 1 }
    requires room { IsRoomFor compiled.now limit work.old }
    ensures asked { IfOk result (λ answer. answer ≡ record { from = from.now; to = to.now; first = first; last = last; foot = answer.foot; spans = answer.spans }) }
    ensures found { IfOk result (λ answer. IsListedSpans compiled.now from.now.node to.now.node limit first last answer.foot answer.spans) }
    ensures room { (most : ℕ) → IsRoomFor compiled.now most work.old → IsRoomFor compiled.now most work.new }
    ensures searches { IsSearchedWithin compiled.now from.now.node to.now.node limit first last searches.old searches.new }
    ensures opens { IsOpenedWithin compiled.now from.now.node to.now.node limit first last opens.old opens.new }
{
    let found = work.range(
        alloc, compiled, from.node, to.node, first, last, limit, searches, opens,
    )?;
    with_places(alloc, from, to, first, last, found)
}

// Sends the rows of an answer.
fn send_rows<S: Sink>(
    alloc: Global,
    network: &Network,
    arcs: &LeastArcs,
    number: u32,
    answer: &RangeAnswer,
    out: &mut S,
) -> Result<(), AnswerStop>
    requires real { ArePrintable network.now answer.now }
    requires arcs { TellsLeastArcs arcs.now network.now.arcs }
    ensures ok { S.tells → OnOk result (S.sent out.new ≡ S.sent out.old ++ records_text (range_records number network.now answer.now)) }
    ensures err { S.tells → OnErr result (SendsPrefix (S.sent out.old) (records_text (range_records number network.now answer.now)) (S.sent out.new)) }
    ensures fault { IsErrOf result AnswerStop.WriteFault → Rose (S.faults out.old) (S.faults out.new) }
    ensures counts { (S.faults out.old ≤ S.faults out.new) × (S.wants out.old ≤ S.wants out.new) }
{
    match write_range_with(alloc, network, arcs, number, answer, out) {
        Ok(()) => Ok(()),
        Err(stop) => Err(stop_of(stop)),
    }
}

// Sends the rows of a range.
pub(crate) fn send_range<'a, S: Sink, L: Ledger, M: Ledger>(
    alloc: Global,
    compiled: &'a Compiled,
    work: &mut RangeWork<'a>,
    arcs: &LeastArcs,
    number: u32,
    from: &Place,
    to: &Place,
    first: u32,
    last: u32,
    limit: u8,
    out: &mut S,
    searches: &mut Steps<L>,
    opens: &mut Steps<M>,
) -> Result<(), AnswerStop>
    requires fits { FitTogether compiled.now }
    requires query { IsQuery compiled.now.network (Query.Range from.now to.now first last limit) }
    requires room { IsRoomFor compiled.now limit work.old }
    requires arcs { TellsLeastArcs arcs.now compiled.now.network.arcs }
    ensures ok { S.tells → OnOk result (SendsQuery compiled.now number (Query.Range from.now to.now first last limit) (S.sent out.old) (S.sent out.new)) }
    ensures err { S.tells → OnErr result (SendsPartOfQuery compiled.now number (Query.Range from.now to.now first last limit) (S.sent out.old) (S.sent out.new)) }
    ensures fault { IsErrOf result AnswerStop.WriteFault → Rose (S.faults out.old) (S.faults out.new) }
    ensures counts { (S.faults out.old ≤ S.faults out.new) × (S.wants out.old ≤ S.wants out.new) }
    ensures room { (most : ℕ) → IsRoomFor compiled.now most work.old → IsRoomFor compiled.now most work.new }
    ensures searches { IsSearchedFor compiled.now (Query.Range from.now to.now first last limit) searches.old searches.new }
    ensures opens { IsOpenedFor compiled.now (Query.Range from.now to.now first last limit) opens.old opens.new }
{
    match answer_range(
        alloc, compiled, work, from, to, first, last, limit, searches, opens,
    ) {
        Ok(answer) => send_rows(alloc, &compiled.network, arcs, number, &answer, out),
        Err(_) => Err(AnswerStop::NoMemory),
    }
}
