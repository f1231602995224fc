// The table of vertices.
ghost use Rattle.std.specs.Prelude.{◌≡◌, ◌≤◌, ℕ, List, length, All, IfOk, OnOk, IsErrOf};
ghost use Rattle.std.specs.Option.{option_copied};
ghost use Rattle.csv.specs.Records.{fields_of};
ghost use Rattle.move_model.specs.declared.refusal.Cause.{Cause};
ghost use Rattle.move_model.specs.declared.refusal.FileKind.{FileKind};
ghost use Rattle.move_model.specs.declared.refusal.Refusal.{Refusal};
ghost use Rattle.refusals.specs.Refusal.{Accepted, IsFirstRefusal};
ghost use Rattle.tables.specs.Table.{rows_of};
ghost use Rattle.stop_places.specs.Given.{IsGivenBy, vertex_in};
ghost use Rattle.stop_places.specs.Rules.{row_rules, row_behind};
ghost use Rattle.stop_places.specs.Table as spec;

use crate::columns::{Columns, find_columns, require_columns};
use crate::given::Given;
use crate::ids::{StopIds, stop_ids};
use crate::row::test_row;
use gtfs_feed::FeedStop;
use move_model::{Cause, FileKind, Refusal, Stopped};
use std::alloc::Global;
use tables::{ByteRecord, Rows, Table, cell, open_table, rows_above};

/// The greatest number of rows of the table.
const MOST_ROWS: usize = 50_000_000;

// A refusal of the table.
fn refused(row: u32, cause: Cause) -> Stopped
    ensures { result ≡ Stopped.Refused (record { file = FileKind.StopNodes; row = row; cause = cause }) }
{
    Stopped::Refused(Refusal {
        file: FileKind::StopNodes,
        row,
        cause,
    })
}

// Reads the rows of a table that has few.
fn read_rows(
    alloc: Global,
    ids: &StopIds,
    nodes: u32,
    columns: &Columns,
    rows: &mut Rows,
    row: &mut ByteRecord,
) -> Result<Given, Stopped>
    requires { length rows.old ≤ 50000000 }
    ensures accepted { OnOk result (Accepted (row_rules ids.now nodes columns.now) (row_behind columns.now rows.old) (length rows.old)) }
    ensures given { IfOk result (IsGivenBy columns.now rows.old) }
    ensures vertices { IfOk result (λ given. All (λ node. (1 ≤ node) × (node ≤ nodes)) given.nodes) }
    ensures refused { (r : Refusal) → IsErrOf result (Stopped.Refused r)
        → (r.file ≡ FileKind.StopNodes) × IsFirstRefusal (row_rules ids.now nodes columns.now) (row_behind columns.now rows.old) (length rows.old) r.row r.cause }
{
    let mut given = Given::new(alloc);
    let mut number = 0;
    'rows: loop {
        let Ok(found) = rows.next_row(row) else {
            return Err(Stopped::NoMemory);
        };
        if !found {
            return Ok(given);
        }
        number += 1;
        let node = match test_row(ids, nodes, &given, columns, row) {
            Ok(node) => node,
            Err(cause) => return Err(refused(number, cause)),
        };
        let Ok(()) = given.push(alloc, cell(row, columns.stop_id), node) else {
            return Err(Stopped::NoMemory);
        };
    }
}

// Reads the table. A row's number counts from 1 behind the header; row 0 is the whole file.
fn read_table(alloc: Global, bytes: &[u8], stops: &[FeedStop], nodes: u32) -> Result<Given, Stopped>
    ensures accepted { OnOk result (spec.IsTable stops.now nodes bytes.now) }
    ensures given { IfOk result (IsGivenBy (spec.columns_in bytes.now) (rows_of bytes.now)) }
    ensures vertices { IfOk result (λ given. All (λ node. (1 ≤ node) × (node ≤ nodes)) given.nodes) }
    ensures refused { (r : Refusal) → IsErrOf result (Stopped.Refused r) → (r.file ≡ FileKind.StopNodes) × spec.IsTableRefusal stops.now nodes bytes.now r.row r.cause }
{
    let Ok(table) = open_table(alloc, bytes) else {
        return Err(Stopped::NoMemory);
    };
    let Table {
        header: mut row,
        mut rows,
    } = table;
    let columns = find_columns(&row);
    if let Err(cause) = require_columns(columns) {
        return Err(refused(0, cause));
    }
    let Ok(above) = rows_above(alloc, bytes, MOST_ROWS) else {
        return Err(Stopped::NoMemory);
    };
    if let Some(count) = above {
        return Err(refused(0, Cause::Limit(count as u64)));
    }
    let Ok(ids) = stop_ids(alloc, stops) else {
        return Err(Stopped::NoMemory);
    };
    read_rows(alloc, &ids, nodes, &columns, &mut rows, &mut row)
}

/// Reads the vertices that the table gives, where there is a table.
pub(crate) fn read_given(
    alloc: Global,
    bytes: Option<&[u8]>,
    stops: &[FeedStop],
    nodes: u32,
) -> Result<Given, Stopped>
    ensures accepted { OnOk result (spec.TableAccepted stops.now nodes (option_copied bytes.entry)) }
    ensures given { IfOk result (λ given. (id : List ℕ) → vertex_in given id ≡ spec.table_vertex (option_copied bytes.entry) id) }
    ensures vertices { IfOk result (λ given. All (λ node. (1 ≤ node) × (node ≤ nodes)) given.nodes) }
    ensures refused { (r : Refusal) → IsErrOf result (Stopped.Refused r) → (r.file ≡ FileKind.StopNodes) × spec.TableRefused stops.now nodes (option_copied bytes.entry) r.row r.cause }
{
    let Some(text) = bytes else {
        return Ok(Given::new(alloc));
    };
    read_table(alloc, text, stops, nodes)
}
