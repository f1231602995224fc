// Rides from the stops themselves.
ghost use Rattle.std.specs.Prelude.{◌≡◌, ◌<◌, ◌+◌, ◌^◌, ◌⊎◌, ℕ, length, slice_index, All, Contains};
ghost use Rattle.move_model.specs.declared.network.Network.{Network};
ghost use Rattle.move_model.specs.declared.network.NodeNo.{NodeNo};
ghost use Rattle.move_model.specs.declared.network.StopNo.{StopNo};
ghost use Rattle.route_split.specs.Route.{IsRoute};
ghost use Rattle.two_trip_rides.specs.First.{Falls};
ghost use Rattle.two_trip_labels.specs.First.{IsCallOf};
ghost use Rattle.two_trip_passes.specs.Own.{IsOwnAt, IsOwnFrom, IsOwnOf, IsOwnOfAny, OwnAt, OwnFrom};

use move_model::StopNo;
use route_split::{RouteCall, RouteRows, Timetable};
use two_trip_rides::ride_own;

// Puts down the arrivals of rides from a call.
fn own_call(routes: &[RouteRows], call: RouteCall, departs: u32, own: &mut [u32])
    requires whole { All (IsRoute (length own.old)) routes.now }
    requires exists { IsCallOf routes.now call }
    ensures falls { Falls own.old own.new }
    ensures known { OwnAt routes.now departs own.new call }
    ensures changed { (x : ℕ) → (slice_index own.new x ≡ slice_index own.old x) ⊎ IsOwnAt routes.now departs call x (slice_index own.new x) }
{
    let route = &routes[call.route as usize];
    ride_own(route, call.call, departs, own);
}

// Puts down the arrivals of rides from some calls.
fn own_calls(routes: &[RouteRows], calls: &[RouteCall], departs: u32, own: &mut [u32])
    requires whole { All (IsRoute (length own.old)) routes.now }
    requires exist { All (IsCallOf routes.now) calls.now }
    ensures falls { Falls own.old own.new }
    ensures known { All (OwnAt routes.now departs own.new) calls.now }
    ensures changed { (x : ℕ) → (slice_index own.new x ≡ slice_index own.old x) ⊎ IsOwnOf routes.now departs calls.now x (slice_index own.new x) }
{
    for call in calls {
        own_call(routes, *call, departs, own);
    }
}

// Puts down the arrivals of rides from a stop.
fn own_stop(table: &Timetable, routes: &[RouteRows], stop: StopNo, departs: u32, own: &mut [u32])
    requires routes { routes.now ≡ table.now.routes }
    requires whole { All (IsRoute (length own.old)) routes.now }
    requires stop { stop.0 < table.now.stops }
    ensures falls { Falls own.old own.new }
    ensures known { OwnFrom routes.now departs own.new stop }
    ensures changed { (x : ℕ) → (slice_index own.new x ≡ slice_index own.old x) ⊎ IsOwnFrom routes.now departs stop x (slice_index own.new x) }
{
    own_calls(routes, table.at_stop(stop), departs, own);
}

/// Puts down the least arrivals of the rides that depart at a second from one of some stops.
pub fn own_all(
    table: &Timetable,
    routes: &[RouteRows],
    stops: &[StopNo],
    departs: u32,
    own: &mut [u32],
)
    requires routes { routes.now ≡ table.now.routes }
    requires whole { All (IsRoute (length own.old)) routes.now }
    requires exist { All (λ stop. stop.0 < table.now.stops) stops.now }
    ensures falls { Falls own.old own.new }
    ensures known { All (OwnFrom routes.now departs own.new) stops.now }
    ensures changed { (x : ℕ) → (slice_index own.new x ≡ slice_index own.old x) ⊎ IsOwnOfAny routes.now departs stops.now x (slice_index own.new x) }
{
    for stop in stops {
        own_stop(table, routes, *stop, departs, own);
    }
}
