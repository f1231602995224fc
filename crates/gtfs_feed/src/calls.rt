// The table of calls.
ghost use Rattle.std.specs.Prelude.{◌≡◌, ℕ, ◌<◌, ◌≤◌, ◌+◌, ◌-◌, [], Some, None, length, slice_get, slice_index_or, List, All, IfOk, IfErr, OnOk, IfSome, unwrap_or, option_and_then};
ghost use Rattle.csv.specs.Records.{fields_of};
ghost use Rattle.move_model.specs.declared.refusal.Cause.TheVariants as cause;
ghost use Rattle.move_model.specs.declared.refusal.FileKind.TheVariants as file_kind;
ghost use Rattle.refusals.specs.Refusal.{Tests, first_cause};
ghost use Rattle.tables.specs.Names.{place_of};
ghost use Rattle.tables.specs.Table.{cell as cell_in};
ghost use Rattle.tables.specs.Values.{number_in};
ghost use Rattle.trip_calls.specs.Filled.{IsInTime};
ghost use Rattle.gtfs_feed.specs.Calls as spec;
ghost use Rattle.gtfs_feed.specs.Feed.{IsFeedTrip};
ghost use Rattle.gtfs_feed.specs.Known.{known_broken};
ghost use Rattle.gtfs_feed.specs.Kept.{IsStopTable, IsTripTable, IsBareTrip, IsKept, AreKept};
ghost use Rattle.gtfs_feed.specs.KeptCalls.{rows_in, GrowsByRow, GrowsByCall, AreCallsOf};
ghost use Rattle.gtfs_feed.specs.RowStops.{Breaks};
ghost use Rattle.gtfs_feed.specs.Table.{Refuses};
ghost use Rattle.gtfs_feed.specs.TripRules as rules;
ghost use Rattle.gtfs_feed.specs.declared.feed.FeedTrip.{FeedTrip};
ghost use Rattle.trip_calls.specs.declared.kept.KeptCall.{KeptCall};

use crate::FeedTrip;
use crate::file_rows::FileRows;
use crate::ids::read_u32;
use crate::refuse::{RowStop, refuse_file};
use crate::stops::StopTable;
use crate::trips::TripTable;
use move_model::{Cause, FileKind, NoMemory, Refusal, StopNo, Stopped};
use std::alloc::Global;
use std::mem;
use tables::{
    ByteRecord, Names, cell, check_id, find_column, read_number_within, read_second, require_column,
};
use trip_calls::{Fault, KeptCall, Times, fill_times, first_fault, sort_calls};

// The columns of `stop_times.txt`.
#[derive(Clone, Copy)]
struct CallColumns {
    trip: Option<usize>,
    stop: Option<usize>,
    sequence: Option<usize>,
    arrival: Option<usize>,
    departure: Option<usize>,
    pickup: Option<usize>,
    drop_off: Option<usize>,
}

#[tactic(auto, unfolding(crate::specs::Calls::call_columns))]
fn call_columns(header: &ByteRecord) -> CallColumns
    ensures { result ≡ spec.call_columns (fields_of header.now) }
{
    CallColumns {
        trip: find_column(header, b"trip_id"),
        stop: find_column(header, b"stop_id"),
        sequence: find_column(header, b"stop_sequence"),
        arrival: find_column(header, b"arrival_time"),
        departure: find_column(header, b"departure_time"),
        pickup: find_column(header, b"pickup_type"),
        drop_off: find_column(header, b"drop_off_type"),
    }
}

fn require_columns(columns: &CallColumns) -> Result<(), Cause>
    ensures { Tests result (first_cause spec.call_column_rules columns.now) tt }
{
    require_column(0, columns.trip)?;
    require_column(1, columns.stop)?;
    require_column(2, columns.sequence)?;
    Ok(())
}

// The place of an id among the names of another table.
#[tactic(auto, unfolding(crate::specs::Ids::unknown_broken, crate::specs::Known::known_broken))]
fn known(names: &Names, text: &[u8], unknown: Cause) -> Result<usize, Cause>
    ensures value { Tests result (known_broken unknown names.now text.now) (unwrap_or (place_of text.now names.now) 0) }
    ensures place { IfOk result (λ place. place_of text.now names.now ≡ Some place) }
    ensures within { IfOk result (λ place. place < length names.now) }
{
    check_id(text)?;
    match names.place(text) {
        Some(place) => Ok(place),
        None => Err(unknown),
    }
}

// The place of the trip that a row names.
pub(crate) fn known_trip(trips: &Names, text: &[u8]) -> Result<usize, Cause>
    ensures value { Tests result (known_broken cause.UnknownTrip trips.now text.now) (unwrap_or (place_of text.now trips.now) 0) }
    ensures place { IfOk result (λ place. place_of text.now trips.now ≡ Some place) }
    ensures within { IfOk result (λ place. place < length trips.now) }
{
    known(trips, text, Cause::UnknownTrip)
}

// The number of the stop that stands in a row of `stops.txt`.
fn number_at(stops: &StopTable, place: usize) -> Option<u32>
    requires { IsStopTable stops.now }
    ensures value { result ≡ option_and_then spec.same (slice_get stops.now.numbers place) }
    ensures within { IfSome result (λ number. number < length stops.now.stops) }
{
    match stops.numbers.get(place) {
        Some(Some(number)) => Some(*number),
        _ => None,
    }
}

// The number of the stop that a row names.
#[tactic(auto, unfolding(crate::specs::Calls::stop_broken, crate::specs::Calls::not_a_stop_broken, crate::specs::Calls::stop_number))]
fn known_stop(stops: &StopTable, text: &[u8]) -> Result<StopNo, Cause>
    requires { IsStopTable stops.now }
    ensures value { Tests result (spec.stop_broken (rows_in stops.now) text.now) (record { 0 = unwrap_or (spec.stop_number (rows_in stops.now) text.now) 0 }) }
    ensures within { IfOk result (λ stop. stop.0 < length stops.now.stops) }
{
    let place = known(&stops.names, text, Cause::UnknownStop)?;
    match number_at(stops, place) {
        Some(number) => Ok(StopNo(number)),
        None => Err(Cause::NotAStop),
    }
}

#[tactic(auto, unfolding(crate::specs::Calls::optional_time_broken, crate::specs::Calls::optional_time, tables::specs::Values::time_broken))]
fn optional_second(text: &[u8]) -> Result<Option<u32>, Cause>
    ensures value { Tests result (spec.optional_time_broken text.now) (spec.optional_time text.now) }
    ensures small { IfOk result (λ found. IfSome found (λ second. second ≤ 3599999)) }
{
    if text.is_empty() {
        return Ok(None);
    }
    match read_second(text) {
        Ok(second) => Ok(Some(second)),
        Err(cause) => Err(cause),
    }
}

// One given time of a pair stands for both.
fn times_of(arrival: Option<u32>, departure: Option<u32>) -> Option<Times>
    requires arrives { IfSome arrival (λ second. second ≤ 3599999) }
    requires departs { IfSome departure (λ second. second ≤ 3599999) }
    ensures value { result ≡ spec.times_of arrival departure }
    ensures small { IfSome result (λ own. (own.arr ≤ 3599999) × (own.dep ≤ 3599999)) }
{
    match (arrival, departure) {
        (None, None) => None,
        (Some(second), None) | (None, Some(second)) => Some(Times {
            arr: second,
            dep: second,
        }),
        (Some(arr), Some(dep)) => Some(Times { arr, dep }),
    }
}

// Whether passengers may board or alight, by a pickup or drop-off type.
#[tactic(auto, unfolding(crate::specs::Calls::type_broken, crate::specs::Calls::is_allowed))]
fn is_allowed(text: &[u8]) -> Result<bool, Cause>
    ensures { Tests result (spec.type_broken text.now) (spec.is_allowed text.now) }
{
    if text.is_empty() {
        return Ok(true);
    }
    let number = read_number_within(text, 0, 3)?;
    Ok(number != 1)
}

// The place of a call among the calls of its trip.
#[derive(Clone, Copy)]
struct Seat {
    sequence: u32,
    row: u32,
}

// The call of a row that has a stop.
#[tactic(auto, unfolding(crate::specs::Calls::kept_rules))]
fn kept_call(
    stops: &StopTable,
    columns: &CallColumns,
    row: &ByteRecord,
    seat: Seat,
) -> Result<KeptCall, Cause>
    requires { IsStopTable stops.now }
    ensures value { Tests result (first_cause (spec.kept_rules columns.now (rows_in stops.now)) (fields_of row.now))
        (spec.call_with columns.now (rows_in stops.now) seat.sequence seat.row (fields_of row.now)) }
    ensures kept { IfOk result (IsKept (length stops.now.stops)) }
{
    let stop = known_stop(stops, cell(row, columns.stop))?;
    let arrival = optional_second(cell(row, columns.arrival))?;
    let departure = optional_second(cell(row, columns.departure))?;
    let board = is_allowed(cell(row, columns.pickup))?;
    let alight = is_allowed(cell(row, columns.drop_off))?;
    Ok(KeptCall {
        sequence: seat.sequence,
        row: seat.row,
        stop,
        times: times_of(arrival, departure),
        board,
        alight,
    })
}

// The call of a row, or None where the row has no stop.
#[tactic(auto, unfolding(crate::specs::Calls::kept_broken))]
fn found_call(
    stops: &StopTable,
    columns: &CallColumns,
    row: &ByteRecord,
    seat: Seat,
) -> Result<Option<KeptCall>, Cause>
    requires { IsStopTable stops.now }
    ensures value { Tests result (spec.kept_broken columns.now (rows_in stops.now) (fields_of row.now))
        (spec.call_found columns.now (rows_in stops.now) seat.sequence seat.row (fields_of row.now)) }
    ensures kept { IfOk result (λ found. IfSome found (IsKept (length stops.now.stops))) }
{
    if cell(row, columns.stop).is_empty() {
        return Ok(None);
    }
    match kept_call(stops, columns, row, seat) {
        Ok(call) => Ok(Some(call)),
        Err(cause) => Err(cause),
    }
}

// The place of the trip that a row names, and its call.
#[derive(Clone, Copy)]
struct RowCall {
    trip: usize,
    call: Option<KeptCall>,
}

#[tactic(auto, unfolding(crate::specs::Calls::call_rules))]
fn call_row(
    stops: &StopTable,
    trips: &Names,
    columns: &CallColumns,
    row: &ByteRecord,
    number: u32,
) -> Result<RowCall, Cause>
    requires { IsStopTable stops.now }
    ensures value { Tests result (first_cause (spec.call_rules columns.now (rows_in stops.now) trips.now) (fields_of row.now)) (record {
      trip = unwrap_or (place_of (cell_in columns.now.trip (fields_of row.now)) trips.now) 0;
      call = spec.call_found columns.now (rows_in stops.now) (number_in (cell_in columns.now.sequence (fields_of row.now))) number (fields_of row.now);
    }) }
    ensures place { IfOk result (λ found. place_of (cell_in columns.now.trip (fields_of row.now)) trips.now ≡ Some found.trip) }
    ensures within { IfOk result (λ found. found.trip < length trips.now) }
    ensures kept { IfOk result (λ found. IfSome found.call (IsKept (length stops.now.stops))) }
{
    let trip = known_trip(trips, cell(row, columns.trip))?;
    let sequence = read_u32(cell(row, columns.sequence), 0)?;
    let seat = Seat {
        sequence,
        row: number,
    };
    let call = found_call(stops, columns, row, seat)?;
    Ok(RowCall { trip, call })
}

// As many empty lists as there are trips.
fn no_calls(alloc: Global, trips: usize) -> Result<Vec<Vec<KeptCall>>, NoMemory>
    ensures long { IfOk result (λ kept. length kept.items ≡ trips) }
    ensures none { IfOk result (λ kept. All (λ calls. calls.items ≡ []) kept.items) }
{
    let mut kept = Vec::new(alloc);
    for _trip in 0..trips {
        if kept.push(Vec::new(alloc)).is_err() {
            return Err(NoMemory);
        }
    }
    Ok(kept)
}

// Puts a call last in the list of its trip.
fn push_call(kept: &mut Vec<Vec<KeptCall>>, trip: usize, call: KeptCall) -> Result<(), NoMemory>
    requires { trip < length kept.old.items }
    ensures same { OnOk result (length kept.new.items ≡ length kept.old.items) }
    ensures kept { OnOk result ((stops rows : ℕ) → AreKept stops rows kept.old.items → IsKept stops call → AreKept stops (rows + 1) kept.new.items) }
    ensures calls { OnOk result (GrowsByCall kept.old.items kept.new.items trip call) }
{
    if kept[trip].push(call).is_err() {
        return Err(NoMemory);
    }
    Ok(())
}

fn add_call(
    kept: &mut Vec<Vec<KeptCall>>,
    stops: &StopTable,
    trips: &Names,
    columns: &CallColumns,
    row: &ByteRecord,
    number: u32,
) -> Result<(), RowStop>
    requires table { IsStopTable stops.now }
    requires each { length kept.old.items ≡ length trips.now }
    requires first { 1 ≤ number }
    requires kept { AreKept (length stops.now.stops) (number - 1) kept.old.items }

    ensures same { OnOk result (length kept.new.items ≡ length kept.old.items) }
    ensures kept { OnOk result (AreKept (length stops.now.stops) number kept.new.items) }
    ensures holds { OnOk result (first_cause (spec.call_rules columns.now (rows_in stops.now) trips.now) (fields_of row.now) ≡ None) }
    ensures calls { OnOk result (GrowsByRow kept.old.items kept.new.items columns.now (rows_in stops.now) trips.now number (fields_of row.now)) }
    ensures broken { IfErr result (Breaks (first_cause (spec.call_rules columns.now (rows_in stops.now) trips.now) (fields_of row.now))) }
{
    let found = call_row(stops, trips, columns, row, number)?;
    if let Some(call) = found.call {
        push_call(kept, found.trip, call)?;
    }
    Ok(())
}

// The calls of each trip, in the order of the file.
fn kept_calls(
    alloc: Global,
    bytes: &[u8],
    stops: &StopTable,
    table: &TripTable,
) -> Result<Vec<Vec<KeptCall>>, Stopped>
    requires stops { IsStopTable stops.now }
    requires each { length table.now.names ≡ length table.now.trips.items }

    ensures long { IfOk result (λ kept. length kept.items ≡ length table.now.trips.items) }
    ensures kept { IfOk result (λ kept. AreKept (length stops.now.stops) 50000000 kept.items) }
    ensures accepted { OnOk result (spec.CallsAccepted (rows_in stops.now) table.now.names bytes.now) }
    ensures calls { IfOk result (λ kept. AreCallsOf (rows_in stops.now) table.now.names bytes.now kept.items) }
    ensures refused { IfErr result (λ stop. Refuses stop (λ file row because. (file ≡ file_kind.StopTimes)
        × spec.IsCallsRefusal (rows_in stops.now) table.now.names bytes.now row because)) }
{
    let mut file = FileRows::open(alloc, FileKind::StopTimes, bytes)?;
    let columns = call_columns(&file.header);
    if let Err(cause) = require_columns(&columns) {
        return Err(refuse_file(FileKind::StopTimes, cause));
    }
    let Ok(mut kept) = no_calls(alloc, table.trips.len()) else {
        return Err(Stopped::NoMemory);
    };
    'rows: while file.advance(alloc)? {
        if let Err(stop) = add_call(
            &mut kept,
            stops,
            &table.names,
            &columns,
            &file.row,
            file.number,
        ) {
            return Err(file.refuse(alloc, stop));
        }
    }
    Ok(kept)
}

// Tests the calls of one trip, and fills in their times where they break no rule. A trip with fewer than two calls is
// passed over.
fn finish_trip(
    alloc: Global,
    trip: &mut FeedTrip,
    mut calls: Vec<KeptCall>,
) -> Result<Option<Fault>, NoMemory>
    requires few { length calls.items ≤ 50000000 }
    requires in_time { All IsInTime calls.items }

    ensures kept { OnOk result ((stops services : ℕ) → IsBareTrip services trip.old → All (IsKept stops) calls.items → IsFeedTrip stops services trip.new) }
    ensures outcome { IfOk result (rules.IsOutcome calls.items trip.old trip.new) }
{
    if calls.len() < 2 {
        return Ok(None);
    }
    sort_calls(&mut calls)?;
    match first_fault(calls.as_slice()) {
        Some(fault) => Ok(Some(fault)),
        None => {
            trip.calls = fill_times(alloc, calls.as_slice())?;
            Ok(None)
        }
    }
}

fn least(fault: Option<Fault>, other: Option<Fault>) -> Option<Fault>
    ensures { result ≡ rules.lesser fault other }
{
    match (fault, other) {
        (Some(first), Some(second)) if second.row < first.row => other,
        (None, _) => other,
        _ => fault,
    }
}

// Tests and fills the calls of all trips.
fn finish_trips(
    alloc: Global,
    trips: &mut Vec<FeedTrip>,
    mut kept: Vec<Vec<KeptCall>>,
    stops: usize,
) -> Result<Option<Fault>, NoMemory>
    requires each { length kept.items ≡ length trips.old.items }
    requires kept { AreKept stops 50000000 kept.items }

    ensures same { OnOk result (length trips.new.items ≡ length trips.old.items) }
    ensures outcomes { IfOk result (λ fault. (calls : ℕ → List KeptCall) → rules.IsListOf kept.items calls → rules.AreOutcomes calls (length trips.old.items) fault) }
    ensures trips { IfOk result (λ fault. (calls : ℕ → List KeptCall) → rules.IsListOf kept.items calls → fault ≡ None → (k : ℕ) (d : FeedTrip) → k < length trips.old.items
        → rules.IsFinished (calls k) (slice_index_or trips.old.items k d) (slice_index_or trips.new.items k d)) }
    ensures finished { OnOk result ((services : ℕ) → All (IsBareTrip services) trips.old.items → All (IsFeedTrip stops services) trips.new.items) }
{
    let mut fault = None;
    for place in 0..trips.len() {
        let calls = mem::replace(&mut kept[place], Vec::new(alloc));
        fault = least(fault, finish_trip(alloc, &mut trips[place], calls)?);
    }
    Ok(fault)
}

/// Reads `stop_times.txt`: the calls of all trips.
pub(crate) fn read_calls(
    alloc: Global,
    bytes: &[u8],
    stops: &StopTable,
    table: &mut TripTable,
) -> Result<(), Stopped>
    requires stops { IsStopTable stops.now }
    requires each { length table.old.names ≡ length table.old.trips.items }

    ensures same { OnOk result ((table.new.names ≡ table.old.names) × (length table.new.trips.items ≡ length table.old.trips.items)) }
    ensures finished { OnOk result ((services : ℕ) → IsTripTable services table.old → All (IsFeedTrip (length stops.now.stops) services) table.new.trips.items) }
    ensures accepted { OnOk result (rules.StopTimesAccepted (rows_in stops.now) table.old.names bytes.now) }
    ensures trips { OnOk result ((k : ℕ) (d : FeedTrip) → k < length table.old.trips.items
        → rules.IsFinished (spec.trip_calls (rows_in stops.now) table.old.names bytes.now k) (slice_index_or table.old.trips.items k d) (slice_index_or table.new.trips.items k d)) }
    ensures refused { IfErr result (λ stop. Refuses stop (λ file row because. (file ≡ file_kind.StopTimes)
        × rules.IsStopTimesRefusal (rows_in stops.now) table.old.names bytes.now row because)) }
{
    let kept = kept_calls(alloc, bytes, stops, table)?;
    match finish_trips(alloc, &mut table.trips, kept, stops.stops.len()) {
        Err(_) => Err(Stopped::NoMemory),
        Ok(None) => Ok(()),
        Ok(Some(fault)) => Err(Stopped::Refused(Refusal {
            file: FileKind::StopTimes,
            row: fault.row,
            cause: fault.cause,
        })),
    }
}
