// The departures of a date, and those of the day before that run on after midnight.
ghost use Rattle.std.specs.Prelude.{◌≡◌, ◌≤◌, ◌<◌, ◌+◌, ◌-◌, ℕ, [], ◌∷◌, ◌++◌, map, All, IfOk, OnOk, IfSome, length};
ghost use Rattle.std.specs.List.Sorted.{IsNonDecreasingBy};
ghost use Rattle.gtfs_feed.specs.Feed.{IsFeed, IsFeedTrip, IsCopyRow};
ghost use Rattle.service_day.specs.DayTrips.{rows_of, starts_from, copies, copy_at, gives, runs, trips_of_date, night_trips};
ghost use Rattle.service_day.specs.Departure.{trip_of, taken, IsEarliest};

use crate::departure::{Departure, MIDNIGHT};
use crate::rows::{first_start, named_rows};
use gtfs_feed::{CopyRow, Feed, FeedTrip};
use move_model::NoMemory;

/// Whether a trip's service runs and the trip has calls.
pub(crate) fn runs_in(set: &[bool], trip: &FeedTrip) -> bool
    requires { IfSome trip.now.service (λ service. service < length set.now) }
    ensures { result ≡ runs set.now trip.now }
{
    match trip.service {
        Some(service) => set[service as usize] && trip.calls.len() >= 2,
        None => false,
    }
}

/// The second from which on a copy of a trip gives a trip of the date, or a night trip of the day after.
pub(crate) fn earliest_start(trip: &FeedTrip, night: bool) -> u32
    requires calls { 2 ≤ length trip.now.calls }
    requires rising { IsNonDecreasingBy (λ call. call.dep) trip.now.calls }
    ensures { IsEarliest night trip.now result }
{
    if !night {
        return 0;
    }
    let calls = trip.calls.as_slice();
    let travel = calls[calls.len() - 2].dep - calls[0].dep;
    MIDNIGHT.saturating_sub(travel)
}

fn put<'a>(
    departures: &mut Vec<Departure<'a>>,
    departure: Departure<'a>,
    night: bool,
) -> Result<(), NoMemory>
    requires rising { IsNonDecreasingBy (λ call. call.dep) departure.calls.now }
    requires uncut { departure.shift.cut ≡ 0 }
    ensures { OnOk result (map trip_of departures.new.items ≡ map trip_of departures.old.items ++ taken night (trip_of departure.entry ∷ [])) }
{
    if !night {
        departures.push(departure)?;
        return Ok(());
    }
    if let Some(kept) = departure.after_midnight() {
        departures.push(kept)?;
    }
    Ok(())
}

fn put_copies<'a>(
    departures: &mut Vec<Departure<'a>>,
    trip: &'a FeedTrip,
    row: &CopyRow,
    night: bool,
) -> Result<(), NoMemory>
    requires calls { 2 ≤ length trip.now.calls }
    requires rising { IsNonDecreasingBy (λ call. call.dep) trip.now.calls }
    requires steps { 1 ≤ row.now.headway }
    ensures { OnOk result (map trip_of departures.new.items ≡ map trip_of departures.old.items ++ taken night (copies trip.now row.now)) }
{
    let end = u64::from(row.end);
    let headway = u64::from(row.headway);
    let mut start = first_start(row, earliest_start(trip, night));
    while start < end {
        put(departures, Departure::of_copy(trip, start as u32), night)?;
        start += headway;
    }
    Ok(())
}

fn put_trip<'a>(
    departures: &mut Vec<Departure<'a>>,
    trip: &'a FeedTrip,
    rows: &[CopyRow],
    night: bool,
) -> Result<(), NoMemory>
    requires calls { 2 ≤ length trip.now.calls }
    requires rising { IsNonDecreasingBy (λ call. call.dep) trip.now.calls }
    requires steps { All (λ row. 1 ≤ row.headway) rows.now }
    ensures { OnOk result (map trip_of departures.new.items ≡ map trip_of departures.old.items ++ taken night (gives rows.now trip.now)) }
{
    if rows.is_empty() {
        return put(departures, Departure::of_trip(trip), night);
    }
    for row in rows {
        put_copies(departures, trip, row, night)?;
    }
    Ok(())
}

/// Puts the departures of a date last, or the night trips of the day before.
pub(crate) fn put_trips<'a>(
    departures: &mut Vec<Departure<'a>>,
    feed: &'a Feed,
    rows: &[CopyRow],
    set: &[bool],
    night: bool,
) -> Result<(), NoMemory>
    requires feed { IsFeed feed.now }
    requires set { length set.now ≡ length feed.now.services }
    requires sorted { IsNonDecreasingBy (λ row. row.trip) rows.now }
    requires same { (place : ℕ) → rows_of place rows.now ≡ rows_of place feed.now.copies }
    ensures { OnOk result (map trip_of departures.new.items ≡ map trip_of departures.old.items ++ taken night (trips_of_date feed.now set.now)) }
{
    let trips = feed.trips.as_slice();
    for i in 0..trips.len() {
        if runs_in(set, &trips[i]) {
            put_trip(departures, &trips[i], named_rows(rows, i as u32), night)?;
        }
    }
    Ok(())
}
