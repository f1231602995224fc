// The routes of a day's trips.
ghost use Rattle.std.specs.Prelude.{◌≡◌, ◌<◌, ◌^◌, ◌-◌, ℕ, length, map, All, IfOk};
ghost use Rattle.std.specs.List.{AllAdjacentBelow};
ghost use Rattle.move_model.specs.Check.{Stays};
ghost use Rattle.move_model.specs.Network.{IsAtOrBefore};
ghost use Rattle.route_split.specs.Route.{IsRoute};
ghost use Rattle.route_split.specs.Table.{route_of, HeadFits};
ghost use Rattle.route_split.specs.Calls.{HoldsTrips};
ghost use Rattle.route_split.specs.Routes.{AreRoutes};

use crate::fill::{Flat, filled};
use crate::groups::grouped;
use crate::partition::split;
use move_model::{NoMemory, Trip};
use std::alloc::Global;

/// The routes of trips that stand in their order, with their seconds.
pub fn day_routes(alloc: Global, trips: &[Trip], stops: u32) -> Result<Flat, NoMemory>
    requires few { length trips.now < 2 ^ 32 - 1 }
    requires few_calls { All (λ trip. length trip.calls < 2 ^ 32 - 1) trips.now }
    requires timed { All (λ trip. All Stays trip.calls) trips.now }
    requires at_stops { All (λ trip. All (λ call. call.stop.0 < stops) trip.calls) trips.now }
    requires in_order { AllAdjacentBelow (λ trip next. IsAtOrBefore trip.calls next.calls) trips.now (length trips.now) }
    ensures few { IfOk result (λ flat. length flat.heads.items < 2 ^ 32) }
    ensures heads { IfOk result (λ flat. All (HeadFits flat.seconds.items flat.places.items flat.trips.items) flat.heads.items) }
    ensures whole { IfOk result (λ flat. All (IsRoute stops) (map (route_of flat.seconds.items flat.places.items flat.trips.items) flat.heads.items)) }
    ensures routes { IfOk result (λ flat. AreRoutes trips.now (map (λ route. route.trips) (map (route_of flat.seconds.items flat.places.items flat.trips.items) flat.heads.items))) }
    ensures rows { IfOk result (λ flat. HoldsTrips trips.now (map (route_of flat.seconds.items flat.places.items flat.trips.items) flat.heads.items)) }
{
    let split = split(alloc, trips)?;
    let numbers = split.routes.as_slice();
    let groups = grouped(alloc, numbers, split.count)?;
    let lists = groups.as_slice();
    let flat = filled(alloc, trips, lists)?;
    Ok(flat)
}
