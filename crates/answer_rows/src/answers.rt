// Answers to queries.
ghost use Rattle.std.specs.Prelude.{◌<◌, ◌≤◌, ◌-◌, ◌^◌, All, length, OnOk, OnErr, IsErrOf};
ghost use Rattle.move_files.specs.Outside.{Rose};
ghost use Rattle.query_table.specs.Queries.{IsQuery};
ghost use Rattle.network_file.specs.Compiled.{FitTogether};
ghost use Rattle.answer_rows.specs.Answer.{IsAnswerOf};
ghost use Rattle.answer_rows.specs.Counted.{CountsFirst, IsSearchedFor, IsOpenedFor};
ghost use Rattle.answer_rows.specs.Printed.{PrintsAll, PrintsPart};
ghost use Rattle.answer_rows.specs.Room.{HasRoom};

use crate::send::send_answers;
use crate::stop::{AnswerStop, stop_of};
use crate::works::Works;
use journey_print::write_header;
use move_files::Sink;
use move_model::{Queries, Query};
use network_file::Compiled;
use std::alloc::Global;
use std::sync::ledger::Ledger;
use steps::Steps;

// Sends the header row, and the rows of all queries.
fn send_all<'a, S: Sink, L: Ledger, M: Ledger>(
    alloc: Global,
    compiled: &'a Compiled,
    works: &mut Works<'a>,
    queries: &[Query],
    out: &mut S,
    searches: &mut Steps<L>,
    opens: &mut Steps<M>,
) -> Result<(), AnswerStop>
    requires fits { FitTogether compiled.now }
    requires queries { All (IsQuery compiled.now.network) queries.now }
    requires few { length queries.now < 2 ^ 32 - 1 }
    requires room { All (HasRoom compiled.now works.old) queries.now }
    ensures rows { S.tells → OnOk result (PrintsAll compiled.now.network (IsAnswerOf compiled.now) queries.now (S.sent out.old) (S.sent out.new)) }
    ensures part { S.tells → OnErr result (PrintsPart compiled.now.network (IsAnswerOf compiled.now) queries.now (S.sent out.old) (S.sent out.new)) }
    ensures fault { IsErrOf result AnswerStop.WriteFault → Rose (S.faults out.old) (S.faults out.new) }
    ensures counts { (S.faults out.old ≤ S.faults out.new) × (S.wants out.old ≤ S.wants out.new) }
    ensures searches { CountsFirst (IsSearchedFor compiled.now) queries.now searches.old searches.new }
    ensures opens { CountsFirst (IsOpenedFor compiled.now) queries.now opens.old opens.new }
{
    if let Err(stop) = write_header(alloc, out) {
        return Err(stop_of(stop));
    }
    send_answers(alloc, compiled, works, queries, out, searches, opens)
}

/// Sends the header row, and the rows of all queries in their order, numbered from 1. The memory for the searches of all
/// queries is taken before anything is sent. `searches` counts searches in the streets, `opens` counts routes that rounds
/// open.
pub fn answer<S: Sink, L: Ledger, M: Ledger>(
    alloc: Global,
    compiled: &Compiled,
    queries: &Queries,
    out: &mut S,
    searches: &mut Steps<L>,
    opens: &mut Steps<M>,
) -> Result<(), AnswerStop>
    // The parts of the value belong together, and the queries are as `read_queries` gives them for its network.
    requires fits { FitTogether compiled.now }
    requires queries { All (IsQuery compiled.now.network) queries.now }
    requires few { length queries.now < 2 ^ 32 - 1 }

    // On Ok the rows are those of the value's answers to the queries; after a stop they are a prefix of the rows of the first
    // queries. The answers of a value that is right for its network are exact: the Pareto set of a point query, each pair with
    // a journey that attains it; of a range the Pareto set of every second of its window, as spans.
    ensures rows { S.tells → OnOk result (PrintsAll compiled.now.network (IsAnswerOf compiled.now) queries.now (S.sent out.old) (S.sent out.new)) }
    ensures part { S.tells → OnErr result (PrintsPart compiled.now.network (IsAnswerOf compiled.now) queries.now (S.sent out.old) (S.sent out.new)) }

    // A write fault comes only where the faults of the sink rose, and no count of the sink falls.
    ensures fault { IsErrOf result AnswerStop.WriteFault → Rose (S.faults out.old) (S.faults out.new) }
    ensures counts { (S.faults out.old ≤ S.faults out.new) × (S.wants out.old ≤ S.wants out.new) }

    // Each query that was begun makes three searches, and at most one for each walk of the journeys of its answer, which for a
    // right value are those of its exact answer. Each round of a point query opens each route at most once, and each round of
    // a range opens it at most once for eight departures.
    ensures searches { CountsFirst (IsSearchedFor compiled.now) queries.now searches.old searches.new }
    ensures opens { CountsFirst (IsOpenedFor compiled.now) queries.now opens.old opens.new }
{
    let Ok(mut works) = Works::new(alloc, compiled, queries.as_slice()) else {
        return Err(AnswerStop::NoMemory);
    };
    send_all(
        alloc,
        compiled,
        &mut works,
        queries.as_slice(),
        out,
        searches,
        opens,
    )
}
