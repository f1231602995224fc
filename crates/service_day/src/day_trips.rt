// The trips of a day.
ghost use Rattle.std.specs.Prelude.{◌≡◌, ◌≤◌, ◌<◌, ◌-◌, ◌^◌, ◌++◌, ℕ, map, All, IfOk, IfErr, length};
ghost use Rattle.std.specs.List.Sorted.{IsNonDecreasingBy};
ghost use Rattle.gtfs_feed.specs.Feed.{IsFeed};
ghost use Rattle.service_day.specs.Order.{IsNumbered};
ghost use Rattle.service_day.specs.DayTrips.{rows_of, day_trips, call_count, most_trips, most_calls, above, IsRefusal, IsDayTrip};
ghost use Rattle.service_day.specs.Departure.{trip_of};

use crate::ServiceSet;
use crate::count::count_trips;
use crate::departure::Departure;
use crate::gather::put_trips;
use crate::number::{count_calls, numbered};
use crate::rows::sorted_rows;
use gtfs_feed::{CopyRow, Feed};
use move_model::{Cause, FileKind, NoMemory, Refusal, Stopped, Trips};
use std::alloc::Global;

/// The most trips of a day.
const MOST_TRIPS: u64 = 2_000_000;

/// The most calls of a day's trips.
const MOST_CALLS: u64 = 20_000_000;

fn too_many(file: FileKind, count: u64) -> Stopped
    ensures { result ≡ Stopped.Refused (above file count) }
{
    Stopped::Refused(Refusal {
        file,
        row: 0,
        cause: Cause::Limit(count),
    })
}

// The departures of a day, as many as were counted.
fn gathered<'a>(
    alloc: Global,
    feed: &'a Feed,
    rows: &[CopyRow],
    today: &[bool],
    before: &[bool],
    count: usize,
) -> Result<Vec<Departure<'a>>, NoMemory>
    requires feed { IsFeed feed.now }
    requires today { length today.now ≡ length feed.now.services }
    requires before { length before.now ≡ length feed.now.services }
    requires sorted { IsNonDecreasingBy (λ row. row.trip) rows.now }
    requires same { (place : ℕ) → rows_of place rows.now ≡ rows_of place feed.now.copies }
    ensures { IfOk result (λ departures. map trip_of departures.items ≡ day_trips feed.now today.now before.now) }
{
    let mut departures = Vec::with_capacity(alloc, count)?;
    put_trips(&mut departures, feed, rows, today, false)?;
    put_trips(&mut departures, feed, rows, before, true)?;
    Ok(departures)
}

/// The trips of a day: what the services of `today` give on it, and the night trips of those that run
/// on the day before, as `before` says. They are numbered by their seconds.
///
/// Refused are more than 2,000,000 trips as `trips.txt`, and else more than 20,000,000 calls as
/// `stop_times.txt`, with the count and row 0, before any call is copied. A trip's calls are copied once.
pub fn expand(
    alloc: Global,
    feed: &Feed,
    today: &ServiceSet,
    before: &ServiceSet,
) -> Result<Trips, Stopped>
    requires feed { IsFeed feed.now }
    requires calls { All (λ trip. length trip.calls < 2 ^ 32 - 1) feed.now.trips }
    requires today { length today.now ≡ length feed.now.services }
    requires before { length before.now ≡ length feed.now.services }

    // The trips of the day by rising seconds, each a trip over the feed's stops.
    ensures trips { IfOk result (IsNumbered (day_trips feed.now today.now before.now)) }
    ensures valid { IfOk result (All (IsDayTrip (length feed.now.stops))) }

    // Refused exactly where there are too many, if memory suffices.
    ensures few_trips { IfOk result (λ trips. length trips ≤ most_trips) }
    ensures few_calls { IfOk result (λ trips. call_count trips ≤ most_calls) }
    ensures refused { IfErr result (IsRefusal (day_trips feed.now today.now before.now)) }
{
    let Ok(rows) = sorted_rows(alloc, feed.copies.as_slice()) else {
        return Err(Stopped::NoMemory);
    };
    let (today, before) = (today.as_slice(), before.as_slice());
    let trips = count_trips(feed, &rows, today, false) + count_trips(feed, &rows, before, true);
    if trips > MOST_TRIPS {
        return Err(too_many(FileKind::Trips, trips));
    }
    let Ok(departures) = gathered(alloc, feed, &rows, today, before, trips as usize) else {
        return Err(Stopped::NoMemory);
    };
    let calls = count_calls(&departures);
    if calls > MOST_CALLS {
        return Err(too_many(FileKind::StopTimes, calls));
    }
    match numbered(alloc, departures) {
        Ok(trips) => Ok(trips),
        Err(_) => Err(Stopped::NoMemory),
    }
}
