// Files of queries.
ghost use Rattle.std.specs.Prelude.{◌≡◌, ◌≤◌, ℕ, List, length, map, All, IfOk, OnOk, IsErrOf};
ghost use Rattle.csv.specs.Records.{fields_of};
ghost use Rattle.move_model.specs.Check.{Stands};
ghost use Rattle.move_model.specs.declared.refusal.Cause.{Cause};
ghost use Rattle.move_model.specs.declared.refusal.Refusal.{Refusal};
ghost use Rattle.refusals.specs.Refusal.{Accepted, IsFirstRefusal};
ghost use Rattle.tables.specs.Table.{row_at};
ghost use Rattle.query_table.specs.Queries as spec;
ghost use Rattle.query_table.specs.Rules.{columns_of, query_rules, query_of};

use crate::columns::{Columns, find_columns, require_columns};
use crate::row::{query, test_row};
use crate::stops::{StopIds, number_stops};
use move_model::{Cause, FileKind, Network, Queries, Refusal, Stopped};
use std::alloc::Global;
use tables::{ByteRecord, Rows, Table, open_table, rows_above};

/// The greatest number of queries of a file.
const MOST_ROWS: usize = 100_000;

// A refusal of the file of queries.
fn refused(row: u32, cause: Cause) -> Stopped
    ensures { result ≡ Stopped.Refused (record { file = FileKind.Queries; row = row; cause = cause }) }
{
    Stopped::Refused(Refusal {
        file: FileKind::Queries,
        row,
        cause,
    })
}

// Reads the rows of a file that has few.
fn read_rows(
    alloc: Global,
    network: &Network,
    ids: &StopIds,
    columns: &Columns,
    rows: &mut Rows,
    row: &mut ByteRecord,
) -> Result<Queries, Stopped>
    requires ids { ids.now ≡ network.now.stops }
    requires few { length rows.old ≤ 100000 }
    ensures accepted { OnOk result (Accepted (query_rules network.now columns.now) (row_at rows.old) (length rows.old)) }
    ensures queries { IfOk result (λ queries. queries ≡ map (query_of network.now columns.now) rows.old) }
    ensures refused { (r : Refusal) → IsErrOf result (Stopped.Refused r)
        → (r.file ≡ FileKind.Queries) × IsFirstRefusal (query_rules network.now columns.now) (row_at rows.old) (length rows.old) r.row r.cause }
{
    let mut queries = Queries::new(alloc);
    let mut number = 0;
    'rows: loop {
        let Ok(found) = rows.next_row(row) else {
            return Err(Stopped::NoMemory);
        };
        if !found {
            return Ok(queries);
        }
        number += 1;
        let values = match test_row(network, ids, columns, row) {
            Ok(values) => values,
            Err(cause) => return Err(refused(number, cause)),
        };
        let Ok(next) = query(alloc, columns, row, values) else {
            return Err(Stopped::NoMemory);
        };
        if queries.push(next).is_err() {
            return Err(Stopped::NoMemory);
        }
    }
}

/// Reads a file of queries for a network. A row's number counts from 1 behind the header; row 0 is the whole file.
pub fn read_queries(alloc: Global, bytes: &[u8], network: &Network) -> Result<Queries, Stopped>
    requires { length bytes.now ≤ 134217728 }

    // Ok exactly where no rule is broken, and else the first broken rule; only want of memory may come in the place of either.
    ensures accepted { OnOk result (spec.IsQueryTable network.now bytes.now) }
    ensures queries { IfOk result (λ queries. queries ≡ spec.queries_of network.now bytes.now) }
    ensures refused { (refusal : Refusal) → IsErrOf result (Stopped.Refused refusal) → spec.IsQueryRefusal network.now bytes.now refusal }

    // What the queries keep.
    ensures few { IfOk result (λ queries. length queries ≤ 100000) }
    ensures sound { All (Stands network.now) network.now.stops → IfOk result (All (spec.IsQuery network.now)) }
{
    let Ok(table) = open_table(alloc, bytes) else {
        return Err(Stopped::NoMemory);
    };
    let Table {
        header: mut row,
        mut rows,
    } = table;
    let columns = find_columns(&row);
    if let Err(cause) = require_columns(columns) {
        return Err(refused(0, cause));
    }
    let Ok(above) = rows_above(alloc, bytes, MOST_ROWS) else {
        return Err(Stopped::NoMemory);
    };
    if let Some(count) = above {
        return Err(refused(0, Cause::Limit(count as u64)));
    }
    let Ok(ids) = number_stops(alloc, network.stops.as_slice()) else {
        return Err(Stopped::NoMemory);
    };
    read_rows(alloc, network, &ids, &columns, &mut rows, &mut row)
}
