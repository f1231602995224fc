// The ids of a feed's stops.
ghost use Rattle.std.specs.Prelude.{◌≡◌, IfOk, is_some};
ghost use Rattle.stop_places.specs.Rules.{stop_named};

use gtfs_feed::FeedStop;
use move_model::NoMemory;
use std::alloc::Global;
use std::marker::Model;
use tables::Names;

/// Stops whose ids are looked up, seen as their list.
#[derive(Drop)]
pub(crate) struct StopIds<'a> {
    stops: &'a [FeedStop],
    names: Names,
}

impl<'a> Model for StopIds<'a> {
    ghost use Rattle.std.specs.Prelude.{List};
    ghost use Rattle.gtfs_feed.specs.declared.feed.FeedStop.{FeedStop};
    ghost use Rattle.stop_places.specs.Ids.{AreIdsOf};

    ghost Value = { List FeedStop };

    ghost view = { λ ids. ids.stops.now };

    ghost invariant = { λ ids. AreIdsOf ids.names ids.stops.now };
}

impl StopIds<'_> {
    /// Whether a stop has an id.
    pub(crate) fn has(&self, id: &[u8]) -> bool
        ensures { result ≡ is_some (stop_named id.now self.now) }
    {
        self.names.place(id).is_some()
    }
}

/// Gathers the ids of stops.
pub(crate) fn stop_ids(alloc: Global, stops: &[FeedStop]) -> Result<StopIds, NoMemory>
    ensures { IfOk result (λ ids. ids ≡ stops.now) }
{
    let mut names = Names::new(alloc);
    for stop in stops {
        names.insert(alloc, stop.name.as_slice())?;
    }
    Ok(StopIds { stops, names })
}
