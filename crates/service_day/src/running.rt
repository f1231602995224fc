// Services that run on a day.
ghost use Rattle.std.specs.Prelude.{◌≡◌, ◌≢◌, ◌<◌, IfOk, map, false};
ghost use Rattle.service_day.specs.Day.{IsDay, first_day, weekday_of};
ghost use Rattle.service_day.specs.Running.{runs_on, running, AreRunningBefore};

use crate::day::{day_before, weekday};
use gtfs_feed::{Feed, Service};
use move_model::{List, NoMemory};
use std::alloc::Global;

/// For each service of a feed, in its order, whether it runs on a day.
pub type ServiceSet = List<bool>;

fn runs(service: &Service, day: u32, weekday: usize) -> bool
    requires weekday { weekday ≡ weekday_of day }
    requires bound { weekday < 7 }
    ensures { result ≡ runs_on day service.now }
{
    if service.added.as_slice().contains(&day) {
        return true;
    }
    if service.removed.as_slice().contains(&day) {
        return false;
    }
    service.days[weekday] && service.first <= day && day <= service.last
}

/// The services that run on a day: those to which it is added, and of the others those whose weekday and
/// dates hold it and from which it is not removed.
pub fn active(alloc: Global, feed: &Feed, day: u32) -> Result<ServiceSet, NoMemory>
    requires { IsDay day }
    ensures { IfOk result (λ set. set ≡ running day feed.now.services) }
{
    let weekday = weekday(day);
    let services = feed.services.as_slice();
    let mut set = List::new(alloc);
    for service in services {
        set.push(runs(service, day, weekday))?;
    }
    Ok(set)
}

// A set in which no service runs.
fn none(alloc: Global, feed: &Feed) -> Result<ServiceSet, NoMemory>
    ensures { IfOk result (λ set. set ≡ map (λ service. false) feed.now.services) }
{
    let services = feed.services.as_slice();
    let mut set = List::new(alloc);
    for _service in services {
        set.push(false)?;
    }
    Ok(set)
}

/// The services that run on the day before a day: none before 1 January of the year 0.
pub fn active_before(alloc: Global, feed: &Feed, day: u32) -> Result<ServiceSet, NoMemory>
    requires { IsDay day }
    ensures first { day ≡ first_day → IfOk result (λ set. set ≡ map (λ service. false) feed.now.services) }
    ensures later { day ≢ first_day → IfOk result (AreRunningBefore day feed.now.services) }
{
    match day_before(day) {
        Some(before) => active(alloc, feed, before),
        None => none(alloc, feed),
    }
}
