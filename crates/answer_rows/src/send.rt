// The rows of queries.
ghost use Rattle.std.specs.Prelude.{◌≡◌, ◌<◌, ◌≤◌, ◌-◌, ◌^◌, All, length, OnOk, OnErr, IsErrOf};
ghost use Rattle.move_model.specs.declared.query.Query.{Query as Asked};
ghost use Rattle.move_files.specs.Outside.{Rose};
ghost use Rattle.query_table.specs.Queries.{IsQuery};
ghost use Rattle.network_file.specs.Compiled.{FitTogether};
ghost use Rattle.answer_rows.specs.Counted.{CountsFirst, IsSearchedFor, IsOpenedFor};
ghost use Rattle.answer_rows.specs.Room.{HasRoom};
ghost use Rattle.answer_rows.specs.Sent.{SendsQuery, SendsPartOfQuery, SendsQueries, SendsFirst};

use crate::point::send_point;
use crate::range::send_range;
use crate::stop::AnswerStop;
use crate::works::Works;
use move_files::Sink;
use move_model::Query;
use network_file::Compiled;
use std::alloc::Global;
use std::sync::ledger::Ledger;
use steps::Steps;

// Sends the rows of one query.
fn send_answer<'a, S: Sink, L: Ledger, M: Ledger>(
    alloc: Global,
    compiled: &'a Compiled,
    works: &mut Works<'a>,
    number: u32,
    query: &Query,
    out: &mut S,
    searches: &mut Steps<L>,
    opens: &mut Steps<M>,
) -> Result<(), AnswerStop>
    requires fits { FitTogether compiled.now }
    requires query { IsQuery compiled.now.network query.now }
    requires room { HasRoom compiled.now works.old query.now }
    ensures ok { S.tells → OnOk result (SendsQuery compiled.now number query.now (S.sent out.old) (S.sent out.new)) }
    ensures err { S.tells → OnErr result (SendsPartOfQuery compiled.now number query.now (S.sent out.old) (S.sent out.new)) }
    ensures fault { IsErrOf result AnswerStop.WriteFault → Rose (S.faults out.old) (S.faults out.new) }
    ensures counts { (S.faults out.old ≤ S.faults out.new) × (S.wants out.old ≤ S.wants out.new) }
    ensures room { (other : Asked) → HasRoom compiled.now works.old other → HasRoom compiled.now works.new other }
    ensures searches { IsSearchedFor compiled.now query.now searches.old searches.new }
    ensures opens { IsOpenedFor compiled.now query.now opens.old opens.new }
{
    match query {
        Query::At {
            from,
            to,
            depart,
            limit,
        } => send_point(
            alloc,
            compiled,
            &mut works.point,
            &works.arcs,
            number,
            from,
            to,
            *depart,
            *limit,
            out,
            searches,
            opens,
        ),
        Query::Range {
            from,
            to,
            first,
            last,
            limit,
        } => send_range(
            alloc,
            compiled,
            &mut works.range,
            &works.arcs,
            number,
            from,
            to,
            *first,
            *last,
            *limit,
            out,
            searches,
            opens,
        ),
    }
}

// Sends the rows of queries, which are numbered from 1.
pub(crate) fn send_answers<'a, S: Sink, L: Ledger, M: Ledger>(
    alloc: Global,
    compiled: &'a Compiled,
    works: &mut Works<'a>,
    queries: &[Query],
    out: &mut S,
    searches: &mut Steps<L>,
    opens: &mut Steps<M>,
) -> Result<(), AnswerStop>
    requires fits { FitTogether compiled.now }
    requires few { length queries.now < 2 ^ 32 - 1 }
    requires queries { All (IsQuery compiled.now.network) queries.now }
    requires room { All (HasRoom compiled.now works.old) queries.now }
    ensures ok { S.tells → OnOk result (SendsQueries compiled.now queries.now (S.sent out.old) (S.sent out.new)) }
    ensures err { S.tells → OnErr result (SendsFirst compiled.now queries.now (S.sent out.old) (S.sent out.new)) }
    ensures fault { IsErrOf result AnswerStop.WriteFault → Rose (S.faults out.old) (S.faults out.new) }
    ensures counts { (S.faults out.old ≤ S.faults out.new) × (S.wants out.old ≤ S.wants out.new) }
    ensures searches { CountsFirst (IsSearchedFor compiled.now) queries.now searches.old searches.new }
    ensures opens { CountsFirst (IsOpenedFor compiled.now) queries.now opens.old opens.new }
{
    let mut number = 0;
    for query in queries {
        number += 1;
        send_answer(alloc, compiled, works, number, query, out, searches, opens)?;
    }
    Ok(())
}
