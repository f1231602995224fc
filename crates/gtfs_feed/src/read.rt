// The whole feed.
ghost use Rattle.std.specs.Prelude.{IfOk, IfErr, OnOk};
ghost use Rattle.gtfs_feed.specs.Feed.{IsFeed};
ghost use Rattle.gtfs_feed.specs.FeedFiles.{FeedAccepted, IsFeedOf, IsFeedRefusal};
ghost use Rattle.gtfs_feed.specs.Table.{Refuses};

use crate::calls::read_calls;
use crate::copies::read_frequencies;
use crate::services::read_services;
use crate::stops::read_stops;
use crate::trips::read_trips;
use crate::{Feed, FeedBytes, FeedTrips, Services};
use move_model::Stopped;
use std::alloc::Global;

/// Reads a feed, or says which rule of which row of which file is the first that is broken.
pub fn read_feed(alloc: Global, bytes: &FeedBytes) -> Result<Feed, Stopped>
    // Ok exactly where no rule is broken, and else the first broken rule; only want of memory may come in the place of either.
    ensures accepted { OnOk result (FeedAccepted bytes.now) }
    ensures feed { IfOk result (IsFeedOf bytes.now) }
    ensures refused { IfErr result (λ stop. Refuses stop (IsFeedRefusal bytes.now)) }

    // What every feed keeps.
    ensures kept { IfOk result IsFeed }
{
    let stops = read_stops(alloc, bytes.stops)?;
    let services = read_services(alloc, bytes.calendar, bytes.dates)?;
    let mut trips = read_trips(alloc, bytes.trips, &services.names)?;
    read_calls(alloc, bytes.stop_times, &stops, &mut trips)?;
    let copies = read_frequencies(alloc, bytes.frequencies, &trips)?;
    Ok(Feed {
        stops: stops.stops,
        services: Services::from_vec(services.services),
        trips: FeedTrips::from_vec(trips.trips),
        copies,
    })
}
