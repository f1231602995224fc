// The tables of services: weekdays, and dates that are added or removed.
ghost use Rattle.std.specs.Prelude.{◌≡◌, ◌==◌, ◌<◌, ◌≤◌, ◌+◌, ◌++◌, ◌∷◌, [], None, length, IfOk, IfErr, OnOk};
ghost use Rattle.csv.specs.Records.{fields_of};
ghost use Rattle.move_model.specs.declared.refusal.FileKind.TheVariants as file_kind;
ghost use Rattle.refusals.specs.Refusal.{Tests, first_cause};
ghost use Rattle.tables.specs.Names.{place_of};
ghost use Rattle.tables.specs.Table.{cell as cell_in};
ghost use Rattle.tables.specs.Values.{number_broken, number_in};
ghost use Rattle.gtfs_feed.specs.Calendar as weeks;
ghost use Rattle.gtfs_feed.specs.Dates as exceptions;
ghost use Rattle.gtfs_feed.specs.Feed.{IsId};
ghost use Rattle.gtfs_feed.specs.Ids.{repeated_broken};
ghost use Rattle.gtfs_feed.specs.Kept.{IsServiceTable};
ghost use Rattle.gtfs_feed.specs.RowStops.{Breaks};
ghost use Rattle.gtfs_feed.specs.Services as spec;
ghost use Rattle.gtfs_feed.specs.Table.{Refuses};

use crate::file_rows::FileRows;
use crate::ids::check_new;
use crate::refuse::{RowStop, refuse_file};
use crate::{Dates, Service};
use feed_values::date;
use move_model::{Cause, FileKind, Name, NoMemory, Stopped};
use std::alloc::Global;
use tables::{ByteRecord, Names, cell, check_id, find_column, read_number_within, require_column};

/// The services by the order of their names, and the services and dates with an exception, each as one text.
#[derive(Drop)]
pub(crate) struct ServiceTable {
    pub(crate) names: Names,
    pub(crate) services: Vec<Service>,
    seen: Names,
}

// The columns of `calendar.txt`.
#[derive(Clone, Copy)]
struct CalendarColumns {
    id: Option<usize>,
    monday: Option<usize>,
    tuesday: Option<usize>,
    wednesday: Option<usize>,
    thursday: Option<usize>,
    friday: Option<usize>,
    saturday: Option<usize>,
    sunday: Option<usize>,
    start: Option<usize>,
    end: Option<usize>,
}

#[tactic(auto, unfolding(crate::specs::Calendar::calendar_columns))]
fn calendar_columns(header: &ByteRecord) -> CalendarColumns
    ensures { result ≡ weeks.calendar_columns (fields_of header.now) }
{
    CalendarColumns {
        id: find_column(header, b"service_id"),
        monday: find_column(header, b"monday"),
        tuesday: find_column(header, b"tuesday"),
        wednesday: find_column(header, b"wednesday"),
        thursday: find_column(header, b"thursday"),
        friday: find_column(header, b"friday"),
        saturday: find_column(header, b"saturday"),
        sunday: find_column(header, b"sunday"),
        start: find_column(header, b"start_date"),
        end: find_column(header, b"end_date"),
    }
}

fn require_calendar(columns: &CalendarColumns) -> Result<(), Cause>
    ensures { Tests result (first_cause weeks.calendar_column_rules columns.now) tt }
{
    require_column(0, columns.id)?;
    require_column(1, columns.monday)?;
    require_column(2, columns.tuesday)?;
    require_column(3, columns.wednesday)?;
    require_column(4, columns.thursday)?;
    require_column(5, columns.friday)?;
    require_column(6, columns.saturday)?;
    require_column(7, columns.sunday)?;
    require_column(8, columns.start)?;
    require_column(9, columns.end)?;
    Ok(())
}

fn runs(text: &[u8]) -> Result<bool, Cause>
    ensures { Tests result (number_broken 0 1 text.now) (weeks.runs text.now) }
{
    let number = read_number_within(text, 0, 1)?;
    Ok(number == 1)
}

#[tactic(auto, unfolding(crate::specs::Calendar::date_broken))]
fn read_date(text: &[u8]) -> Result<u32, Cause>
    ensures { Tests result (weeks.date_broken text.now) (weeks.date_in text.now) }
{
    match date(text) {
        Some(date) => Ok(date),
        None => Err(Cause::Date),
    }
}

#[tactic(auto, unfolding(crate::specs::Calendar::day_rules, crate::specs::Calendar::days_of))]
fn days(columns: &CalendarColumns, row: &ByteRecord) -> Result<[bool; 7], Cause>
    ensures { Tests result (first_cause (weeks.day_rules columns.now) (fields_of row.now)) (weeks.days_of columns.now (fields_of row.now)) }
{
    let monday = runs(cell(row, columns.monday))?;
    let tuesday = runs(cell(row, columns.tuesday))?;
    let wednesday = runs(cell(row, columns.wednesday))?;
    let thursday = runs(cell(row, columns.thursday))?;
    let friday = runs(cell(row, columns.friday))?;
    let saturday = runs(cell(row, columns.saturday))?;
    let sunday = runs(cell(row, columns.sunday))?;
    Ok([
        monday, tuesday, wednesday, thursday, friday, saturday, sunday,
    ])
}

// The weekdays of a service and its first and last date.
#[derive(Clone, Copy)]
struct Week {
    days: [bool; 7],
    first: u32,
    last: u32,
}

#[tactic(auto, unfolding(crate::specs::Calendar::calendar_rules))]
fn calendar_row(names: &Names, columns: &CalendarColumns, row: &ByteRecord) -> Result<Week, Cause>
    ensures { Tests result (first_cause (weeks.calendar_rules columns.now names.now) (fields_of row.now)) (record {
      days = weeks.days_of columns.now (fields_of row.now);
      first = weeks.date_in (cell_in columns.now.start (fields_of row.now));
      last = weeks.date_in (cell_in columns.now.end (fields_of row.now));
    }) }
{
    check_id(cell(row, columns.id))?;
    check_new(names, cell(row, columns.id))?;
    let days = days(columns, row)?;
    let first = read_date(cell(row, columns.start))?;
    let last = read_date(cell(row, columns.end))?;
    Ok(Week { days, first, last })
}

// The columns of `calendar_dates.txt`.
#[derive(Clone, Copy)]
struct DateColumns {
    id: Option<usize>,
    date: Option<usize>,
    kind: Option<usize>,
}

#[tactic(auto, unfolding(crate::specs::Dates::date_columns))]
fn date_columns(header: &ByteRecord) -> DateColumns
    ensures { result ≡ exceptions.date_columns (fields_of header.now) }
{
    DateColumns {
        id: find_column(header, b"service_id"),
        date: find_column(header, b"date"),
        kind: find_column(header, b"exception_type"),
    }
}

fn require_dates(columns: &DateColumns) -> Result<(), Cause>
    ensures { Tests result (first_cause exceptions.date_column_rules columns.now) tt }
{
    require_column(0, columns.id)?;
    require_column(1, columns.date)?;
    require_column(2, columns.kind)?;
    Ok(())
}

// A date that is added to a service or removed from it.
#[derive(Clone, Copy)]
struct Exception {
    date: u32,
    added: bool,
}

// The exception of a row, with no test of earlier rows.
#[tactic(auto, unfolding(crate::specs::Dates::date_rules))]
fn date_row(columns: &DateColumns, row: &ByteRecord) -> Result<Exception, Cause>
    ensures value { Tests result (first_cause (exceptions.date_rules columns.now) (fields_of row.now)) (record {
      date = weeks.date_in (cell_in columns.now.date (fields_of row.now));
      added = number_in (cell_in columns.now.kind (fields_of row.now)) == 1;
    }) }
    ensures named { OnOk result (IsId (cell_in columns.now.id (fields_of row.now))) }
{
    check_id(cell(row, columns.id))?;
    let date = read_date(cell(row, columns.date))?;
    let kind = read_number_within(cell(row, columns.kind), 1, 2)?;
    Ok(Exception {
        date,
        added: kind == 1,
    })
}

// Notes that a service has an exception at a date. The date has eight digits, so that the text tells both.
#[tactic(auto, unfolding(crate::specs::Ids::repeated_broken))]
fn note_key(seen: &mut Names, alloc: Global, date: &[u8], id: &[u8]) -> Result<(), RowStop>
    ensures holds { OnOk result (repeated_broken seen.old (date.now ++ id.now) ≡ None) }
    ensures seen { OnOk result (seen.new ≡ seen.old ++ (date.now ++ id.now) ∷ []) }
    ensures broken { IfErr result (Breaks (repeated_broken seen.old (date.now ++ id.now))) }
{
    let Ok(mut key) = Vec::from_slice(alloc, date) else {
        return Err(RowStop::NoMemory);
    };
    if key.extend_from_slice(id).is_err() {
        return Err(RowStop::NoMemory);
    }
    match seen.insert(alloc, key.as_slice()) {
        Err(_) => Err(RowStop::NoMemory),
        Ok(false) => Err(RowStop::Broken(Cause::Repeated)),
        Ok(true) => Ok(()),
    }
}

impl ServiceTable {
    fn new(alloc: Global) -> ServiceTable
        ensures kept { IsServiceTable result }
        ensures names { result.names ≡ [] }
        ensures services { result.services.items ≡ [] }
        ensures seen { result.seen ≡ [] }
    {
        ServiceTable {
            names: Names::new(alloc),
            services: Vec::new(alloc),
            seen: Names::new(alloc),
        }
    }

    // Puts a service last.
    fn push(&mut self, alloc: Global, id: &[u8], week: Week) -> Result<(), NoMemory>
        requires kept { IsServiceTable self.old }
        requires named { IsId id.now }
        requires new { place_of id.now self.old.names ≡ None }

        ensures kept { OnOk result (IsServiceTable self.new) }
        ensures more { OnOk result (length self.new.services.items ≡ length self.old.services.items + 1) }
        ensures names { OnOk result (self.new.names ≡ self.old.names ++ id.now ∷ []) }
        ensures services { OnOk result (self.new.services.items ≡ self.old.services.items
            ++ record { name = id.now; days = week.days; first = week.first; last = week.last; added = []; removed = [] } ∷ []) }
        ensures seen { OnOk result (self.new.seen ≡ self.old.seen) }
    {
        let name = Name::from_slice(alloc, id)?;
        let Week { days, first, last } = week;
        self.names.insert(alloc, id)?;
        self.services.push(Service {
            name,
            days,
            first,
            last,
            added: Dates::new(alloc),
            removed: Dates::new(alloc),
        })?;
        Ok(())
    }

    fn add_week(
        &mut self,
        alloc: Global,
        columns: &CalendarColumns,
        row: &ByteRecord,
    ) -> Result<(), RowStop>
        requires { IsServiceTable self.old }

        ensures kept { OnOk result (IsServiceTable self.new) }
        ensures more { OnOk result (length self.new.services.items ≡ length self.old.services.items + 1) }
        ensures holds { OnOk result (first_cause (weeks.calendar_rules columns.now self.old.names) (fields_of row.now) ≡ None) }
        ensures names { OnOk result (self.new.names ≡ self.old.names ++ cell_in columns.now.id (fields_of row.now) ∷ []) }
        ensures services { OnOk result (self.new.services.items ≡ self.old.services.items ++ weeks.week_service columns.now (fields_of row.now) ∷ []) }
        ensures seen { OnOk result (self.new.seen ≡ self.old.seen) }
        ensures broken { IfErr result (Breaks (first_cause (weeks.calendar_rules columns.now self.old.names) (fields_of row.now))) }
    {
        let week = calendar_row(&self.names, columns, row)?;
        let id = cell(row, columns.id);
        self.push(alloc, id, week)?;
        Ok(())
    }

    // The place of a service, which is put last where it is new.
    #[tactic(auto, unfolding(crate::specs::Dates::with_service, crate::specs::Dates::place_in))]
    fn service_at(&mut self, alloc: Global, id: &[u8]) -> Result<usize, NoMemory>
        requires kept { IsServiceTable self.old }
        requires same { self.old.names ≡ exceptions.names_in self.old.services.items }
        requires named { IsId id.now }

        ensures kept { OnOk result (IsServiceTable self.new) }
        ensures within { IfOk result (λ place. place < length self.new.services.items) }
        ensures more { OnOk result (length self.new.services.items ≤ length self.old.services.items + 1) }
        ensures same { OnOk result (self.new.names ≡ exceptions.names_in self.new.services.items) }
        ensures services { OnOk result (self.new.services.items ≡ exceptions.with_service id.now self.old.services.items) }
        ensures place { IfOk result (λ place. place ≡ exceptions.place_in id.now self.old.services.items) }
        ensures seen { OnOk result (self.new.seen ≡ self.old.seen) }
    {
        match self.names.place(id) {
            Some(place) => Ok(place),
            None => {
                let place = self.services.len();
                self.push(
                    alloc,
                    id,
                    Week {
                        days: [false; 7],
                        first: 0,
                        last: 0,
                    },
                )?;
                Ok(place)
            }
        }
    }

    // Puts a date last in the list of a service.
    fn note_date(&mut self, service: usize, exception: Exception) -> Result<(), NoMemory>
        requires kept { IsServiceTable self.old }
        requires same { self.old.names ≡ exceptions.names_in self.old.services.items }
        requires within { service < length self.old.services.items }

        ensures kept { OnOk result (IsServiceTable self.new) }
        ensures same { OnOk result (self.new.names ≡ exceptions.names_in self.new.services.items) }
        ensures services { OnOk result (self.new.services.items ≡ exceptions.noted_at service exception.added exception.date self.old.services.items) }
        ensures seen { OnOk result (self.new.seen ≡ self.old.seen) }
    {
        add_exception(&mut self.services[service], exception)
    }

    #[tactic(auto, unfolding(crate::specs::Dates::with_row))]
    fn add_date(
        &mut self,
        alloc: Global,
        columns: &DateColumns,
        row: &ByteRecord,
    ) -> Result<(), RowStop>
        requires kept { IsServiceTable self.old }
        requires same { self.old.names ≡ exceptions.names_in self.old.services.items }

        ensures kept { OnOk result (IsServiceTable self.new) }
        ensures same { OnOk result (self.new.names ≡ exceptions.names_in self.new.services.items) }
        ensures more { OnOk result (length self.new.services.items ≤ length self.old.services.items + 1) }
        ensures holds { OnOk result (exceptions.exception_broken columns.now self.old.seen (fields_of row.now) ≡ None) }
        ensures seen { OnOk result (self.new.seen ≡ self.old.seen ++ exceptions.exception_key columns.now (fields_of row.now) ∷ []) }
        ensures services { OnOk result (self.new.services.items ≡ exceptions.with_row columns.now (fields_of row.now) self.old.services.items) }
        ensures broken { IfErr result (Breaks (exceptions.exception_broken columns.now self.old.seen (fields_of row.now))) }
    {
        let exception = date_row(columns, row)?;
        let id = cell(row, columns.id);
        note_key(&mut self.seen, alloc, cell(row, columns.date), id)?;
        let service = self.service_at(alloc, id)?;
        self.note_date(service, exception)?;
        Ok(())
    }
}

fn add_exception(service: &mut Service, exception: Exception) -> Result<(), NoMemory>
    ensures { OnOk result (service.new ≡ exceptions.noted exception.added exception.date service.old) }
{
    if exception.added {
        service.added.push(exception.date)
    } else {
        service.removed.push(exception.date)
    }
}

fn read_calendar(alloc: Global, bytes: &[u8]) -> Result<ServiceTable, Stopped>
    ensures kept { IfOk result IsServiceTable }
    ensures few { IfOk result (λ table. length table.services.items ≤ 50000000) }
    ensures accepted { OnOk result (weeks.CalendarAccepted bytes.now) }
    ensures names { IfOk result (λ table. table.names ≡ weeks.calendar_ids bytes.now) }
    ensures services { IfOk result (λ table. table.services.items ≡ weeks.week_services bytes.now) }
    ensures seen { IfOk result (λ table. table.seen ≡ []) }
    ensures refused { IfErr result (λ stop. Refuses stop (λ file row because. (file ≡ file_kind.Calendar) × weeks.IsCalendarRefusal bytes.now row because)) }
{
    let mut file = FileRows::open(alloc, FileKind::Calendar, bytes)?;
    let columns = calendar_columns(&file.header);
    if let Err(cause) = require_calendar(&columns) {
        return Err(refuse_file(FileKind::Calendar, cause));
    }
    let mut table = ServiceTable::new(alloc);
    'rows: while file.advance(alloc)? {
        if let Err(stop) = table.add_week(alloc, &columns, &file.row) {
            return Err(file.refuse(alloc, stop));
        }
    }
    Ok(table)
}

fn read_dates(alloc: Global, table: &mut ServiceTable, bytes: &[u8]) -> Result<(), Stopped>
    requires kept { IsServiceTable table.old }
    requires same { table.old.names ≡ exceptions.names_in table.old.services.items }
    requires unseen { table.old.seen ≡ [] }

    ensures kept { OnOk result (IsServiceTable table.new) }
    ensures same { OnOk result (table.new.names ≡ exceptions.names_in table.new.services.items) }
    ensures few { OnOk result (length table.new.services.items ≤ length table.old.services.items + 50000000) }
    ensures accepted { OnOk result (exceptions.DatesAccepted bytes.now) }
    ensures services { OnOk result (table.new.services.items ≡ exceptions.dated_services bytes.now table.old.services.items) }
    ensures refused { IfErr result (λ stop. Refuses stop (λ file row because. (file ≡ file_kind.CalendarDates) × exceptions.IsDatesRefusal bytes.now row because)) }
{
    let mut file = FileRows::open(alloc, FileKind::CalendarDates, bytes)?;
    let columns = date_columns(&file.header);
    if let Err(cause) = require_dates(&columns) {
        return Err(refuse_file(FileKind::CalendarDates, cause));
    }
    'rows: while file.advance(alloc)? {
        if let Err(stop) = table.add_date(alloc, &columns, &file.row) {
            return Err(file.refuse(alloc, stop));
        }
    }
    Ok(())
}

// The services of `calendar.txt`; none where the file is missing.
fn read_weeks(alloc: Global, calendar: Option<&[u8]>) -> Result<ServiceTable, Stopped>
    ensures kept { IfOk result IsServiceTable }
    ensures few { IfOk result (λ table. length table.services.items ≤ 50000000) }
    ensures same { IfOk result (λ table. table.names ≡ exceptions.names_in table.services.items) }
    ensures unseen { IfOk result (λ table. table.seen ≡ []) }
    ensures accepted { OnOk result (spec.OptionAccepted calendar.entry weeks.CalendarAccepted) }
    ensures services { IfOk result (λ table. table.services.items ≡ spec.weeks_of calendar.entry) }
    ensures refused { IfErr result (λ stop. Refuses stop (λ file row because. (file ≡ file_kind.Calendar) × spec.OptionRefused calendar.entry (λ bytes. weeks.IsCalendarRefusal bytes row because))) }
{
    match calendar {
        Some(bytes) => read_calendar(alloc, bytes),
        None => Ok(ServiceTable::new(alloc)),
    }
}

// Adds the exceptions of `calendar_dates.txt`; none where the file is missing.
fn read_exceptions(
    alloc: Global,
    table: &mut ServiceTable,
    dates: Option<&[u8]>,
) -> Result<(), Stopped>
    requires kept { IsServiceTable table.old }
    requires same { table.old.names ≡ exceptions.names_in table.old.services.items }
    requires unseen { table.old.seen ≡ [] }

    ensures kept { OnOk result (IsServiceTable table.new) }
    ensures same { OnOk result (table.new.names ≡ exceptions.names_in table.new.services.items) }
    ensures few { OnOk result (length table.new.services.items ≤ length table.old.services.items + 50000000) }
    ensures accepted { OnOk result (spec.OptionAccepted dates.entry exceptions.DatesAccepted) }
    ensures services { OnOk result (table.new.services.items ≡ spec.dated_of dates.entry table.old.services.items) }
    ensures refused { IfErr result (λ stop. Refuses stop (λ file row because. (file ≡ file_kind.CalendarDates) × spec.OptionRefused dates.entry (λ bytes. exceptions.IsDatesRefusal bytes row because))) }
{
    match dates {
        Some(bytes) => read_dates(alloc, table, bytes),
        None => Ok(()),
    }
}

/// The services of the two calendar files, of which one may be missing.
pub(crate) fn read_services(
    alloc: Global,
    calendar: Option<&[u8]>,
    dates: Option<&[u8]>,
) -> Result<ServiceTable, Stopped>
    ensures kept { IfOk result IsServiceTable }
    ensures few { IfOk result (λ table. length table.services.items ≤ 100000000) }
    ensures same { IfOk result (λ table. table.names ≡ exceptions.names_in table.services.items) }
    ensures accepted { OnOk result (spec.ServicesAccepted calendar.entry dates.entry) }
    ensures services { IfOk result (λ table. table.services.items ≡ spec.services_of calendar.entry dates.entry) }
    ensures refused { IfErr result (λ stop. Refuses stop (spec.IsServicesRefusal calendar.entry dates.entry)) }
{
    if calendar.is_none() && dates.is_none() {
        return Err(refuse_file(FileKind::Calendar, Cause::NoCalendar));
    }
    let mut table = read_weeks(alloc, calendar)?;
    read_exceptions(alloc, &mut table, dates)?;
    Ok(table)
}
