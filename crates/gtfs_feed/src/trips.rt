// The table of trips.
ghost use Rattle.std.specs.Prelude.{◌≡◌, ◌<◌, ◌≤◌, ◌+◌, ◌++◌, ◌∷◌, [], None, length, IfOk, IfErr, OnOk, IfSome};
ghost use Rattle.csv.specs.Records.{fields_of};
ghost use Rattle.move_model.specs.declared.refusal.FileKind.TheVariants as file_kind;
ghost use Rattle.refusals.specs.Refusal.{Tests, first_cause};
ghost use Rattle.tables.specs.Names.{place_of};
ghost use Rattle.tables.specs.Table.{cell as cell_in};
ghost use Rattle.gtfs_feed.specs.Feed.{IsId};
ghost use Rattle.gtfs_feed.specs.Kept.{IsTripTable};
ghost use Rattle.gtfs_feed.specs.RowStops.{Breaks};
ghost use Rattle.gtfs_feed.specs.Table.{Refuses};
ghost use Rattle.gtfs_feed.specs.Trips as spec;

use crate::FeedTrip;
use crate::file_rows::FileRows;
use crate::ids::check_new;
use crate::refuse::{RowStop, refuse_file};
use move_model::{Calls, Cause, FileKind, Name, NoMemory, Stopped};
use std::alloc::Global;
use tables::{ByteRecord, Names, cell, check_id, find_column, require_column};

/// The trips by the order of their names. Their calls are read later.
#[derive(Drop)]
pub(crate) struct TripTable {
    pub(crate) names: Names,
    pub(crate) trips: Vec<FeedTrip>,
}

// The columns of `trips.txt`.
#[derive(Clone, Copy)]
struct TripColumns {
    service: Option<usize>,
    id: Option<usize>,
}

#[tactic(auto, unfolding(crate::specs::Trips::trip_columns))]
fn trip_columns(header: &ByteRecord) -> TripColumns
    ensures { result ≡ spec.trip_columns (fields_of header.now) }
{
    TripColumns {
        service: find_column(header, b"service_id"),
        id: find_column(header, b"trip_id"),
    }
}

fn require_columns(columns: &TripColumns) -> Result<(), Cause>
    ensures { Tests result (first_cause spec.trip_column_rules columns.now) tt }
{
    require_column(0, columns.service)?;
    require_column(1, columns.id)?;
    Ok(())
}

#[tactic(auto, unfolding(crate::specs::Trips::trip_rules))]
fn test_row(names: &Names, columns: &TripColumns, row: &ByteRecord) -> Result<(), Cause>
    ensures { Tests result (first_cause (spec.trip_rules columns.now names.now) (fields_of row.now)) tt }
{
    check_id(cell(row, columns.id))?;
    check_new(names, cell(row, columns.id))?;
    check_id(cell(row, columns.service))?;
    Ok(())
}

// The number of a service, or None where no calendar names it.
fn service_of(services: &Names, id: &[u8]) -> Option<u32>
    requires { length services.now ≤ 100000000 }
    ensures value { result ≡ place_of id.now services.now }
    ensures within { IfSome result (λ number. number < length services.now) }
{
    match services.place(id) {
        Some(place) => Some(place as u32),
        None => None,
    }
}

impl TripTable {
    // Puts a trip last that has no calls yet.
    fn push(
        &mut self,
        alloc: Global,
        services: &Names,
        id: &[u8],
        service: &[u8],
    ) -> Result<(), NoMemory>
        requires few { length services.now ≤ 100000000 }
        requires kept { IsTripTable (length services.now) self.old }
        requires named { IsId id.now }
        requires new { place_of id.now self.old.names ≡ None }

        ensures kept { OnOk result (IsTripTable (length services.now) self.new) }
        ensures names { OnOk result (self.new.names ≡ self.old.names ++ id.now ∷ []) }
        ensures trips { OnOk result (self.new.trips.items ≡ self.old.trips.items ++ record { name = id.now; service = place_of service.now services.now; calls = [] } ∷ []) }
    {
        let name = Name::from_slice(alloc, id)?;
        self.names.insert(alloc, id)?;
        self.trips.push(FeedTrip {
            name,
            service: service_of(services, service),
            calls: Calls::new(alloc),
        })?;
        Ok(())
    }

    fn add(
        &mut self,
        alloc: Global,
        services: &Names,
        columns: &TripColumns,
        row: &ByteRecord,
    ) -> Result<(), RowStop>
        requires few { length services.now ≤ 100000000 }
        requires kept { IsTripTable (length services.now) self.old }

        ensures kept { OnOk result (IsTripTable (length services.now) self.new) }
        ensures holds { OnOk result (first_cause (spec.trip_rules columns.now self.old.names) (fields_of row.now) ≡ None) }
        ensures names { OnOk result (self.new.names ≡ self.old.names ++ cell_in columns.now.id (fields_of row.now) ∷ []) }
        ensures trips { OnOk result (self.new.trips.items ≡ self.old.trips.items ++ spec.bare_trip columns.now services.now (fields_of row.now) ∷ []) }
        ensures broken { IfErr result (Breaks (first_cause (spec.trip_rules columns.now self.old.names) (fields_of row.now))) }
    {
        test_row(&self.names, columns, row)?;
        let id = cell(row, columns.id);
        self.push(alloc, services, id, cell(row, columns.service))?;
        Ok(())
    }
}

/// Reads `trips.txt`.
pub(crate) fn read_trips(
    alloc: Global,
    bytes: &[u8],
    services: &Names,
) -> Result<TripTable, Stopped>
    requires { length services.now ≤ 100000000 }
    ensures kept { IfOk result (IsTripTable (length services.now)) }
    ensures few { IfOk result (λ table. length table.trips.items ≤ 50000000) }
    ensures accepted { OnOk result (spec.TripsAccepted bytes.now) }
    ensures names { IfOk result (λ table. table.names ≡ spec.trip_ids bytes.now) }
    ensures trips { IfOk result (λ table. table.trips.items ≡ spec.bare_trips services.now bytes.now) }
    ensures refused { IfErr result (λ stop. Refuses stop (λ file row because. (file ≡ file_kind.Trips) × spec.IsTripsRefusal bytes.now row because)) }
{
    let mut file = FileRows::open(alloc, FileKind::Trips, bytes)?;
    let columns = trip_columns(&file.header);
    if let Err(cause) = require_columns(&columns) {
        return Err(refuse_file(FileKind::Trips, cause));
    }
    let mut table = TripTable {
        names: Names::new(alloc),
        trips: Vec::new(alloc),
    };
    'rows: while file.advance(alloc)? {
        if let Err(stop) = table.add(alloc, services, &columns, &file.row) {
            return Err(file.refuse(alloc, stop));
        }
    }
    Ok(table)
}
