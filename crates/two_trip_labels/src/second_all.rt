// Second rides from stops.
ghost use Rattle.std.specs.Prelude.{◌≡◌, ◌<◌, ◌≤◌, ◌+◌, ◌^◌, ℕ, length, All};
ghost use Rattle.route_split.specs.Route.{IsRoute};
ghost use Rattle.two_trip_rides.specs.First.{Source};
ghost use Rattle.two_trip_labels.specs.First.{AreRoutesOf, IsCallOf};
ghost use Rattle.two_trip_labels.specs.Second.{HeldFit, SecondGoes, SecondSound, MayRideCall, IsCallRidden};

use crate::HeldRows;
use piece_laws::{Ready, Second};
use route_split::{RouteCall, RouteRows};

// Boards at a call with a label, in the first row that departs in time.
fn ride_call(
    routes: &[RouteRows],
    call: RouteCall,
    label: Ready,
    buffer: u32,
    foot: &[u32],
    second: u32,
    places: &[u32],
    ready: &[Ready],
    rows: &mut HeldRows,
    best: &mut [Second],
)
    requires whole { All (IsRoute (length best.old)) routes.now }
    requires exists { IsCallOf routes.now call }
    requires fit { HeldFit routes.now rows.old }
    requires foot { length foot.now ≡ length best.old }
    requires places { length places.now ≡ length best.old }
    requires within { All (λ p. p < length ready.now) places.now }
    ensures goes { SecondGoes routes.now foot.now second places.now ready.now rows.old rows.new best.old best.new }
    ensures boarded { IsCallRidden routes.now label buffer rows.new call }
    ensures sound { (s : Source) → AreRoutesOf s.network.trips routes.now → MayRideCall s routes.now label buffer call → SecondSound s routes.now rows.old best.old → SecondSound s routes.now rows.new best.new }
{
    let route = &routes[call.route as usize];
    rows.board(
        route, call.route, call.call, label, buffer, foot, second, places, ready, best,
    );
}

/// Boards at each of some calls with a label, in the first row that departs in time.
pub fn ride_calls(
    routes: &[RouteRows],
    calls: &[RouteCall],
    label: Ready,
    buffer: u32,
    foot: &[u32],
    second: u32,
    places: &[u32],
    ready: &[Ready],
    rows: &mut HeldRows,
    best: &mut [Second],
)
    requires whole { All (IsRoute (length best.old)) routes.now }
    requires exist { All (IsCallOf routes.now) calls.now }
    requires fit { HeldFit routes.now rows.old }
    requires foot { length foot.now ≡ length best.old }
    requires places { length places.now ≡ length best.old }
    requires within { All (λ p. p < length ready.now) places.now }
    ensures goes { SecondGoes routes.now foot.now second places.now ready.now rows.old rows.new best.old best.new }
    ensures boarded { All (IsCallRidden routes.now label buffer rows.new) calls.now }
    ensures sound { (s : Source) → AreRoutesOf s.network.trips routes.now → All (MayRideCall s routes.now label buffer) calls.now → SecondSound s routes.now rows.old best.old → SecondSound s routes.now rows.new best.new }
{
    for call in calls {
        ride_call(
            routes, *call, label, buffer, foot, second, places, ready, rows, best,
        );
    }
}
