// Point queries.
ghost use Rattle.std.specs.Prelude.{◌≡◌, ◌++◌, ◌≤◌, ◌+◌, ◌*◌, All, length, IfOk, OnOk, OnErr, IsErrOf};
ghost use Rattle.move_model.specs.Streets.{IsVertex};
ghost use Rattle.move_model.specs.Network.{streets};
ghost use Rattle.move_files.specs.Outside.{Rose, SendsPrefix};
ghost use Rattle.journey_print.specs.Arcs.{TellsLeastArcs};
ghost use Rattle.journey_print.specs.Legs.{IsPrintable};
ghost use Rattle.journey_print.specs.Records.{point_records, records_text};
ghost use Rattle.query_table.specs.Queries.{IsQuery};
ghost use Rattle.network_file.specs.Compiled.{FitTogether};
ghost use Rattle.network_file.specs.Answers.{IsListedPoint};
ghost use Rattle.network_answers.specs.Point.{IsRoomFor, IsSearched};
ghost use Rattle.answer_rows.specs.Counted.{IsSearchedFor, IsOpenedFor};
ghost use Rattle.answer_rows.specs.Sent.{SendsQuery, SendsPartOfQuery};

use crate::place::places_of;
use crate::stop::{AnswerStop, stop_of};
use journey_print::{LeastArcs, PointAnswer, write_point_with};
use move_files::Sink;
use move_model::{Findings, Network, NoMemory, Place, Query};
use network_answers::AnswerWork;
use network_file::Compiled;
use std::alloc::Global;
use std::sync::ledger::Ledger;
use steps::Steps;

// What was found, with the places of the query.
fn with_places(
    alloc: Global,
    from: &Place,
    to: &Place,
    depart: u32,
    found: Findings,
) -> Result<PointAnswer, NoMemory>
    ensures { IfOk result (λ answer. answer ≡ record { from = from.now; to = to.now; depart = depart; found = found }) }
{
    let (from, to) = places_of(alloc, from, to)?;
    Ok(PointAnswer {
        from,
        to,
        depart,
        found,
    })
}

// The answer to a point query.
fn answer_point<L: Ledger, M: Ledger>(
    alloc: Global,
    compiled: &Compiled,
    work: &mut AnswerWork,
    from: &Place,
    to: &Place,
    depart: u32,
    limit: u8,
    searches: &mut Steps<L>,
    opens: &mut Steps<M>,
) -> Result<PointAnswer, NoMemory>
    requires fits { FitTogether compiled.now }
    requires from { IsVertex (streets compiled.now.network) from.now.node }
    requires to { IsVertex (streets compiled.now.network) to.now.node }
    requires room { IsRoomFor compiled.now limit work.old }
    ensures asked { IfOk result (λ answer. answer ≡ record { from = from.now; to = to.now; depart = depart; found = answer.found }) }
    ensures found { IfOk result (λ answer. IsListedPoint compiled.now from.now.node depart to.now.node limit answer.found) }
    ensures room { work.new ≡ work.old }
    ensures searches { IsSearched compiled.now from.now.node depart to.now.node limit searches.old searches.new }
    ensures opens { opens.new ≤ opens.old + limit * length compiled.now.table.routes }
{
    let found = work.point(
        alloc, compiled, from.node, to.node, depart, limit, searches, opens,
    )?;
    with_places(alloc, from, to, depart, found)
}

// Sends the rows of an answer.
fn send_rows<S: Sink>(
    alloc: Global,
    network: &Network,
    arcs: &LeastArcs,
    number: u32,
    answer: &PointAnswer,
    out: &mut S,
) -> Result<(), AnswerStop>
    requires real { All (IsPrintable network.now) answer.now.found }
    requires arcs { TellsLeastArcs arcs.now network.now.arcs }
    ensures ok { S.tells → OnOk result (S.sent out.new ≡ S.sent out.old ++ records_text (point_records number network.now answer.now answer.now.found)) }
    ensures err { S.tells → OnErr result (SendsPrefix (S.sent out.old) (records_text (point_records number network.now answer.now answer.now.found)) (S.sent out.new)) }
    ensures fault { IsErrOf result AnswerStop.WriteFault → Rose (S.faults out.old) (S.faults out.new) }
    ensures counts { (S.faults out.old ≤ S.faults out.new) × (S.wants out.old ≤ S.wants out.new) }
{
    match write_point_with(alloc, network, arcs, number, answer, out) {
        Ok(()) => Ok(()),
        Err(stop) => Err(stop_of(stop)),
    }
}

// Sends the rows of a point query.
pub(crate) fn send_point<S: Sink, L: Ledger, M: Ledger>(
    alloc: Global,
    compiled: &Compiled,
    work: &mut AnswerWork,
    arcs: &LeastArcs,
    number: u32,
    from: &Place,
    to: &Place,
    depart: u32,
    limit: u8,
    out: &mut S,
    searches: &mut Steps<L>,
    opens: &mut Steps<M>,
) -> Result<(), AnswerStop>
    requires fits { FitTogether compiled.now }
    requires query { IsQuery compiled.now.network (Query.At from.now to.now depart limit) }
    requires room { IsRoomFor compiled.now limit work.old }
    requires arcs { TellsLeastArcs arcs.now compiled.now.network.arcs }
    ensures ok { S.tells → OnOk result (SendsQuery compiled.now number (Query.At from.now to.now depart limit) (S.sent out.old) (S.sent out.new)) }
    ensures err { S.tells → OnErr result (SendsPartOfQuery compiled.now number (Query.At from.now to.now depart limit) (S.sent out.old) (S.sent out.new)) }
    ensures fault { IsErrOf result AnswerStop.WriteFault → Rose (S.faults out.old) (S.faults out.new) }
    ensures counts { (S.faults out.old ≤ S.faults out.new) × (S.wants out.old ≤ S.wants out.new) }
    ensures room { work.new ≡ work.old }
    ensures searches { IsSearchedFor compiled.now (Query.At from.now to.now depart limit) searches.old searches.new }
    ensures opens { IsOpenedFor compiled.now (Query.At from.now to.now depart limit) opens.old opens.new }
{
    match answer_point(
        alloc, compiled, work, from, to, depart, limit, searches, opens,
    ) {
        Ok(answer) => send_rows(alloc, &compiled.network, arcs, number, &answer, out),
        Err(_) => Err(AnswerStop::NoMemory),
    }
}
