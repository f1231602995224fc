// The table of stops.
ghost use Rattle.std.specs.Prelude.{◌≡◌, ◌<◌, ◌≤◌, ◌++◌, ◌∷◌, [], Some, None, length, IfOk, IfErr, OnOk, is_some, if◌then◌else◌};
ghost use Rattle.csv.specs.Records.{fields_of};
ghost use Rattle.move_model.specs.declared.refusal.FileKind.TheVariants as file_kind;
ghost use Rattle.refusals.specs.Refusal.{Tests, first_cause};
ghost use Rattle.tables.specs.Names.{place_of};
ghost use Rattle.tables.specs.Table.{header_of, rows_of, cell as cell_in};
ghost use Rattle.gtfs_feed.specs.Feed.{IsId};
ghost use Rattle.gtfs_feed.specs.Kept.{IsStopTable};
ghost use Rattle.gtfs_feed.specs.RowStops.{Breaks};
ghost use Rattle.gtfs_feed.specs.StopTables as made;
ghost use Rattle.gtfs_feed.specs.Stops as spec;
ghost use Rattle.gtfs_feed.specs.Table.{Refuses};

use crate::file_rows::FileRows;
use crate::ids::check_new;
use crate::refuse::{RowStop, refuse_file};
use crate::{FeedStop, FeedStops};
use feed_values::coordinate;
use move_model::{Cause, FileKind, List, Name, NoMemory, Stopped};
use std::alloc::Global;
use tables::{ByteRecord, Names, cell, check_id, find_column, read_number_within, require_column};

/// The names of all rows of `stops.txt`, each with its number where it is a stop or platform, and these stops.
#[derive(Drop)]
pub(crate) struct StopTable {
    pub(crate) names: Names,
    pub(crate) numbers: List<Option<u32>>,
    pub(crate) stops: FeedStops,
}

// The columns of `stops.txt`.
#[derive(Clone, Copy)]
struct StopColumns {
    id: Option<usize>,
    kind: Option<usize>,
    lat: Option<usize>,
    lon: Option<usize>,
}

#[tactic(auto, unfolding(crate::specs::Stops::stop_columns))]
fn stop_columns(header: &ByteRecord) -> StopColumns
    ensures { result ≡ spec.stop_columns (fields_of header.now) }
{
    StopColumns {
        id: find_column(header, b"stop_id"),
        kind: find_column(header, b"location_type"),
        lat: find_column(header, b"stop_lat"),
        lon: find_column(header, b"stop_lon"),
    }
}

fn require_columns(columns: &StopColumns) -> Result<(), Cause>
    ensures { Tests result (first_cause spec.stop_column_rules columns.now) tt }
{
    require_column(0, columns.id)?;
    Ok(())
}

// Whether a location type is that of a stop or platform.
#[tactic(auto, unfolding(crate::specs::Stops::kind_broken, crate::specs::Stops::is_stop))]
fn is_stop(text: &[u8]) -> Result<bool, Cause>
    ensures { Tests result (spec.kind_broken text.now) (spec.is_stop text.now) }
{
    if text.is_empty() {
        return Ok(true);
    }
    let kind = read_number_within(text, 0, 4)?;
    Ok(kind == 0)
}

// A coordinate of a row; that of a row of another location type is not read.
#[tactic(auto, unfolding(crate::specs::Stops::coordinate_broken, crate::specs::Stops::coordinate_in))]
fn optional_coordinate(stop: bool, text: &[u8], degrees: u32) -> Result<Option<i32>, Cause>
    requires { degrees ≤ 180 }
    ensures { Tests result (spec.coordinate_broken stop degrees text.now) (if stop then spec.coordinate_in degrees text.now else None) }
{
    if !stop || text.is_empty() {
        return Ok(None);
    }
    match coordinate(text, degrees) {
        Some(millionths) => Ok(Some(millionths)),
        None => Err(Cause::Coordinate),
    }
}

// Where a stop stands: both coordinates, or neither.
#[derive(Clone, Copy)]
struct Position {
    lat: Option<i32>,
    lon: Option<i32>,
}

fn both(lat: Option<i32>, lon: Option<i32>) -> Position
    ensures { result ≡ record { lat = spec.beside lat lon; lon = spec.beside lon lat } }
{
    match (lat, lon) {
        (Some(_), Some(_)) => Position { lat, lon },
        _ => Position {
            lat: None,
            lon: None,
        },
    }
}

// The position of a stop; None for a row of another location type.
#[tactic(auto, unfolding(crate::specs::Stops::stop_rules))]
fn stop_row(
    names: &Names,
    columns: &StopColumns,
    row: &ByteRecord,
) -> Result<Option<Position>, Cause>
    ensures { Tests result (first_cause (spec.stop_rules columns.now names.now) (fields_of row.now)) (made.position_of columns.now (fields_of row.now)) }
{
    check_id(cell(row, columns.id))?;
    check_new(names, cell(row, columns.id))?;
    let stop = is_stop(cell(row, columns.kind))?;
    let lat = optional_coordinate(stop, cell(row, columns.lat), 90)?;
    let lon = optional_coordinate(stop, cell(row, columns.lon), 180)?;
    Ok(if stop { Some(both(lat, lon)) } else { None })
}

/// Reads `stops.txt`.
pub(crate) fn read_stops(alloc: Global, bytes: &[u8]) -> Result<StopTable, Stopped>
    ensures kept { IfOk result IsStopTable }
    ensures few { IfOk result (λ table. length table.stops ≤ 200000) }
    ensures accepted { OnOk result (spec.StopsAccepted bytes.now) }
    ensures table { IfOk result (made.IsStopTableOf (spec.stop_columns (header_of bytes.now)) (rows_of bytes.now)) }
    ensures refused { IfErr result (λ stop. Refuses stop (λ file row because. (file ≡ file_kind.Stops) × spec.IsStopsRefusal bytes.now row because)) }
{
    let mut file = FileRows::open(alloc, FileKind::Stops, bytes)?;
    let columns = stop_columns(&file.header);
    if let Err(cause) = require_columns(&columns) {
        return Err(refuse_file(FileKind::Stops, cause));
    }
    let mut table = StopTable {
        names: Names::new(alloc),
        numbers: List::new(alloc),
        stops: FeedStops::new(alloc),
    };
    'rows: while file.advance(alloc)? {
        if let Err(stop) = table.add(alloc, &columns, &file.row, file.number) {
            return Err(file.refuse(alloc, stop));
        }
    }
    check_stops(table)
}

// Tests the number of stops.
#[tactic(auto, unfolding(crate::specs::Stops::stops_broken))]
fn check_stops(table: StopTable) -> Result<StopTable, Stopped>
    ensures few { OnOk result (spec.stops_broken (length table.stops) ≡ None) }
    ensures same { IfOk result (λ same. same ≡ table) }
    ensures small { IfOk result (λ same. length same.stops ≤ 200000) }
    ensures refused { IfErr result (λ stop. Refuses stop (λ file row because. (file ≡ file_kind.Stops) × (row ≡ 0) × (spec.stops_broken (length table.stops) ≡ Some because))) }
{
    let stops = table.stops.len();
    if stops > 200_000 {
        return Err(refuse_file(FileKind::Stops, Cause::Limit(stops as u64)));
    }
    Ok(table)
}

impl StopTable {
    // Puts a stop last.
    fn push(
        &mut self,
        alloc: Global,
        id: &[u8],
        position: Position,
        row: u32,
    ) -> Result<(), NoMemory>
        requires kept { IsStopTable self.old }
        requires named { IsId id.now }
        requires new { place_of id.now self.old.names ≡ None }
        requires both { is_some position.lat ≡ is_some position.lon }
        requires within { (1 ≤ row) × (row ≤ 50000000) }
        requires few { length self.old.stops < row }

        ensures kept { OnOk result (IsStopTable self.new) }
        ensures names { OnOk result (self.new.names ≡ self.old.names ++ id.now ∷ []) }
        ensures numbers { OnOk result (self.new.numbers ≡ self.old.numbers ++ Some (length self.old.stops) ∷ []) }
        ensures stops { OnOk result (self.new.stops ≡ self.old.stops ++ record { name = id.now; lat = position.lat; lon = position.lon; row = row } ∷ []) }
    {
        let name = Name::from_slice(alloc, id)?;
        let number = self.stops.len() as u32;
        self.names.insert(alloc, id)?;
        self.stops.push(FeedStop {
            name,
            lat: position.lat,
            lon: position.lon,
            row,
        })?;
        self.numbers.push(Some(number))?;
        Ok(())
    }

    // Puts the id of a row last that is no stop.
    fn push_other(&mut self, alloc: Global, id: &[u8]) -> Result<(), NoMemory>
        requires kept { IsStopTable self.old }
        requires new { place_of id.now self.old.names ≡ None }

        ensures kept { OnOk result (IsStopTable self.new) }
        ensures names { OnOk result (self.new.names ≡ self.old.names ++ id.now ∷ []) }
        ensures numbers { OnOk result (self.new.numbers ≡ self.old.numbers ++ None ∷ []) }
        ensures stops { OnOk result (self.new.stops ≡ self.old.stops) }
    {
        self.names.insert(alloc, id)?;
        self.numbers.push(None)?;
        Ok(())
    }

    fn add(
        &mut self,
        alloc: Global,
        columns: &StopColumns,
        row: &ByteRecord,
        number: u32,
    ) -> Result<(), RowStop>
        requires kept { IsStopTable self.old }
        requires within { (1 ≤ number) × (number ≤ 50000000) }
        requires few { length self.old.stops < number }

        ensures kept { OnOk result (IsStopTable self.new) }
        ensures holds { OnOk result (first_cause (spec.stop_rules columns.now self.old.names) (fields_of row.now) ≡ None) }
        ensures row { OnOk result (made.AddsStopRow self.old self.new columns.now (fields_of row.now) number) }
        ensures broken { IfErr result (Breaks (first_cause (spec.stop_rules columns.now self.old.names) (fields_of row.now))) }
    {
        let position = stop_row(&self.names, columns, row)?;
        let id = cell(row, columns.id);
        match position {
            None => self.push_other(alloc, id)?,
            Some(position) => self.push(alloc, id, position, number)?,
        }
        Ok(())
    }
}
