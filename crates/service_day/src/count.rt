// How many trips a date gives, before any departure is made.
ghost use Rattle.std.specs.Prelude.{◌≡◌, ◌≤◌, ◌<◌, ◌^◌, ℕ, [], ◌∷◌, All, length};
ghost use Rattle.std.specs.List.Sorted.{IsNonDecreasingBy};
ghost use Rattle.gtfs_feed.specs.Feed.{IsFeed};
ghost use Rattle.service_day.specs.DayTrips.{rows_of, copies, gives, itself, trips_of_date};
ghost use Rattle.service_day.specs.Departure.{taken};

use crate::departure::Departure;
use crate::gather::{earliest_start, runs_in};
use crate::rows::{first_start, named_rows, starts_left};
use gtfs_feed::{CopyRow, Feed, FeedTrip};

// The trip itself, where no row names it.
fn count_itself(trip: &FeedTrip, night: bool) -> u64
    requires { IsNonDecreasingBy (λ call. call.dep) trip.now.calls }
    ensures { result ≡ length (taken night (itself trip.now ∷ [])) }
{
    if !night {
        return 1;
    }
    match Departure::of_trip(trip).after_midnight() {
        Some(_) => 1,
        None => 0,
    }
}

// The copies that a row gives.
fn count_copies(trip: &FeedTrip, row: &CopyRow, night: bool) -> u64
    requires calls { 2 ≤ length trip.now.calls }
    requires rising { IsNonDecreasingBy (λ call. call.dep) trip.now.calls }
    requires steps { 1 ≤ row.now.headway }
    ensures { result ≡ length (taken night (copies trip.now row.now)) }
{
    starts_left(row, first_start(row, earliest_start(trip, night)))
}

// What a trip that runs gives.
fn count_trip(trip: &FeedTrip, rows: &[CopyRow], night: bool) -> u64
    requires calls { 2 ≤ length trip.now.calls }
    requires rising { IsNonDecreasingBy (λ call. call.dep) trip.now.calls }
    requires steps { All (λ row. 1 ≤ row.headway) rows.now }
    requires few { length (taken night (gives rows.now trip.now)) < 2 ^ 62 }
    ensures count { result ≡ length (taken night (gives rows.now trip.now)) }
    ensures bound { result < 2 ^ 62 }
{
    if rows.is_empty() {
        return count_itself(trip, night);
    }
    let mut count = 0;
    for row in rows {
        count += count_copies(trip, row, night);
    }
    count
}

/// How many trips of a date there are, or how many night trips of the day before.
pub(crate) fn count_trips(feed: &Feed, rows: &[CopyRow], set: &[bool], night: bool) -> u64
    requires feed { IsFeed feed.now }
    requires set { length set.now ≡ length feed.now.services }
    requires sorted { IsNonDecreasingBy (λ row. row.trip) rows.now }
    requires same { (place : ℕ) → rows_of place rows.now ≡ rows_of place feed.now.copies }
    ensures count { result ≡ length (taken night (trips_of_date feed.now set.now)) }
    ensures bound { result < 2 ^ 62 }
{
    let trips = feed.trips.as_slice();
    let mut count = 0;
    for i in 0..trips.len() {
        if runs_in(set, &trips[i]) {
            count += count_trip(&trips[i], named_rows(rows, i as u32), night);
        }
    }
    count
}
