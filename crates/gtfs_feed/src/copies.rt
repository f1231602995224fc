// The table of copies of trips.
ghost use Rattle.std.specs.Prelude.{◌≡◌, ◌<◌, ◌≤◌, ◌+◌, ◌++◌, ◌∷◌, [], None, length, All, IfOk, IfErr, OnOk, IfSome};
ghost use Rattle.csv.specs.Records.{fields_of};
ghost use Rattle.move_model.specs.declared.refusal.FileKind.TheVariants as file_kind;
ghost use Rattle.refusals.specs.Refusal.{Tests, first_cause};
ghost use Rattle.gtfs_feed.specs.Copies as spec;
ghost use Rattle.gtfs_feed.specs.Feed.{IsCopyRow};
ghost use Rattle.gtfs_feed.specs.Frequencies.{latest_start, last_copy_second};
ghost use Rattle.gtfs_feed.specs.Kept.{IsRising};
ghost use Rattle.gtfs_feed.specs.RowStops.{Breaks};
ghost use Rattle.gtfs_feed.specs.Services.{OptionAccepted, OptionRefused};
ghost use Rattle.gtfs_feed.specs.Table.{Refuses};

use crate::calls::known_trip;
use crate::file_rows::FileRows;
use crate::ids::read_u32;
use crate::refuse::{RowStop, refuse_file};
use crate::trips::TripTable;
use crate::{CopyRow, CopyRows};
use move_model::{Call, Cause, FileKind, Stopped};
use std::alloc::Global;
use tables::{ByteRecord, Names, cell, find_column, read_second, require_column};

const LAST_SECOND: u64 = 3_599_999;

// The columns of `frequencies.txt`.
#[derive(Clone, Copy)]
struct CopyColumns {
    trip: Option<usize>,
    start: Option<usize>,
    end: Option<usize>,
    headway: Option<usize>,
}

#[tactic(auto, unfolding(crate::specs::Copies::copy_columns))]
fn copy_columns(header: &ByteRecord) -> CopyColumns
    ensures { result ≡ spec.copy_columns (fields_of header.now) }
{
    CopyColumns {
        trip: find_column(header, b"trip_id"),
        start: find_column(header, b"start_time"),
        end: find_column(header, b"end_time"),
        headway: find_column(header, b"headway_secs"),
    }
}

fn require_columns(columns: &CopyColumns) -> Result<(), Cause>
    ensures { Tests result (first_cause spec.copy_column_rules columns.now) tt }
{
    require_column(0, columns.trip)?;
    require_column(1, columns.start)?;
    require_column(2, columns.end)?;
    require_column(3, columns.headway)?;
    Ok(())
}

// The second at which the latest copy of a row leaves.
fn last_start(row: &CopyRow) -> u64
    requires some { row.now.start < row.now.end }
    requires steps { 1 ≤ row.now.headway }
    ensures value { result ≡ latest_start row.now }
    ensures before { result < row.now.end }
{
    u64::from(row.start)
        + u64::from((row.end - 1 - row.start) / row.headway) * u64::from(row.headway)
}

// The last second of the latest copy of a row; None where there is no copy, or no call.
fn last_second(row: &CopyRow, calls: &[Call]) -> Option<u64>
    requires steps { 1 ≤ row.now.headway }
    requires rises { IsRising calls.now }
    ensures { result ≡ last_copy_second row.now calls.now }
{
    match (calls.first(), calls.last()) {
        (Some(first), Some(last)) if row.start < row.end => {
            Some(last_start(row) + u64::from(last.dep - first.dep))
        }
        _ => None,
    }
}

// A row, with no test of its copies.
#[tactic(auto, unfolding(crate::specs::Copies::copy_rules))]
fn plain_row(names: &Names, columns: &CopyColumns, row: &ByteRecord) -> Result<CopyRow, Cause>
    requires { length names.now ≤ 50000000 }
    ensures value { Tests result (first_cause (spec.copy_rules columns.now names.now) (fields_of row.now)) (spec.copy_of columns.now names.now (fields_of row.now)) }
    ensures trip { IfOk result (λ copy. copy.trip < length names.now) }
    ensures times { IfOk result (λ copy. (copy.start ≤ 3599999) × (copy.end ≤ 3599999)) }
    ensures steps { IfOk result (λ copy. 1 ≤ copy.headway) }
{
    let place = known_trip(names, cell(row, columns.trip))?;
    let start = read_second(cell(row, columns.start))?;
    let end = read_second(cell(row, columns.end))?;
    let headway = read_u32(cell(row, columns.headway), 1)?;
    Ok(CopyRow {
        trip: place as u32,
        start,
        end,
        headway,
    })
}

// Tests the latest copy of a row.
#[tactic(auto, unfolding(crate::specs::Copies::late_broken))]
fn check_copy(copy: &CopyRow, calls: &[Call]) -> Result<(), Cause>
    requires steps { 1 ≤ copy.now.headway }
    requires rises { IsRising calls.now }
    ensures test { Tests result (spec.late_broken (last_copy_second copy.now calls.now)) tt }
    ensures in_time { OnOk result (IfSome (last_copy_second copy.now calls.now) (λ second. second ≤ 3599999)) }
{
    match last_second(copy, calls) {
        Some(second) if second > LAST_SECOND => Err(Cause::CopyLate(second)),
        _ => Ok(()),
    }
}

fn copy_row(table: &TripTable, columns: &CopyColumns, row: &ByteRecord) -> Result<CopyRow, Cause>
    requires each { length table.now.names ≡ length table.now.trips.items }
    requires few { length table.now.trips.items ≤ 50000000 }
    requires rises { All (λ trip. IsRising trip.calls) table.now.trips.items }
    ensures value { Tests result (spec.copy_broken columns.now table.now.names table.now.trips.items (fields_of row.now)) (spec.copy_of columns.now table.now.names (fields_of row.now)) }
    ensures kept { IfOk result (IsCopyRow table.now.trips.items) }
{
    let copy = plain_row(&table.names, columns, row)?;
    check_copy(&copy, table.trips[copy.trip as usize].calls.as_slice())?;
    Ok(copy)
}

fn add_copy(
    copies: &mut CopyRows,
    table: &TripTable,
    columns: &CopyColumns,
    row: &ByteRecord,
) -> Result<(), RowStop>
    requires each { length table.now.names ≡ length table.now.trips.items }
    requires few { length table.now.trips.items ≤ 50000000 }
    requires rises { All (λ trip. IsRising trip.calls) table.now.trips.items }
    requires kept { All (IsCopyRow table.now.trips.items) copies.old }

    ensures kept { OnOk result (All (IsCopyRow table.now.trips.items) copies.new) }
    ensures holds { OnOk result (spec.copy_broken columns.now table.now.names table.now.trips.items (fields_of row.now) ≡ None) }
    ensures copies { OnOk result (copies.new ≡ copies.old ++ spec.copy_of columns.now table.now.names (fields_of row.now) ∷ []) }
    ensures broken { IfErr result (Breaks (spec.copy_broken columns.now table.now.names table.now.trips.items (fields_of row.now))) }
{
    let copy = copy_row(table, columns, row)?;
    copies.push(copy)?;
    Ok(())
}

// Reads `frequencies.txt`.
fn read_copies(alloc: Global, bytes: &[u8], table: &TripTable) -> Result<CopyRows, Stopped>
    requires each { length table.now.names ≡ length table.now.trips.items }
    requires few { length table.now.trips.items ≤ 50000000 }
    requires rises { All (λ trip. IsRising trip.calls) table.now.trips.items }

    ensures kept { IfOk result (All (IsCopyRow table.now.trips.items)) }
    ensures few { IfOk result (λ copies. length copies ≤ 50000000) }
    ensures accepted { OnOk result (spec.CopiesAccepted table.now.names table.now.trips.items bytes.now) }
    ensures copies { IfOk result (λ copies. copies ≡ spec.copies_of table.now.names bytes.now) }
    ensures refused { IfErr result (λ stop. Refuses stop (λ file row because. (file ≡ file_kind.Frequencies) × spec.IsCopiesRefusal table.now.names table.now.trips.items bytes.now row because)) }
{
    let mut file = FileRows::open(alloc, FileKind::Frequencies, bytes)?;
    let columns = copy_columns(&file.header);
    if let Err(cause) = require_columns(&columns) {
        return Err(refuse_file(FileKind::Frequencies, cause));
    }
    let mut copies = CopyRows::new(alloc);
    'rows: while file.advance(alloc)? {
        if let Err(stop) = add_copy(&mut copies, table, &columns, &file.row) {
            return Err(file.refuse(alloc, stop));
        }
    }
    Ok(copies)
}

/// The copies of the trips; none where `frequencies.txt` is missing.
pub(crate) fn read_frequencies(
    alloc: Global,
    bytes: Option<&[u8]>,
    table: &TripTable,
) -> Result<CopyRows, Stopped>
    requires each { length table.now.names ≡ length table.now.trips.items }
    requires few { length table.now.trips.items ≤ 50000000 }
    requires rises { All (λ trip. IsRising trip.calls) table.now.trips.items }

    ensures kept { IfOk result (All (IsCopyRow table.now.trips.items)) }
    ensures few { IfOk result (λ copies. length copies ≤ 50000000) }
    ensures accepted { OnOk result (OptionAccepted bytes.entry (spec.CopiesAccepted table.now.names table.now.trips.items)) }
    ensures copies { IfOk result (λ copies. copies ≡ spec.copies_in table.now.names bytes.entry) }
    ensures refused { IfErr result (λ stop. Refuses stop (λ file row because. (file ≡ file_kind.Frequencies)
        × OptionRefused bytes.entry (λ bytes. spec.IsCopiesRefusal table.now.names table.now.trips.items bytes row because))) }
{
    match bytes {
        Some(bytes) => read_copies(alloc, bytes, table),
        None => Ok(CopyRows::new(alloc)),
    }
}
