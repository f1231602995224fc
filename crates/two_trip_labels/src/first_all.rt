// First rides from stops.
ghost use Rattle.std.specs.Prelude.{◌≡◌, ◌<◌, ◌≤◌, ◌+◌, ◌^◌, ℕ, length, take, All};
ghost use Rattle.route_split.specs.Route.{IsRoute};
ghost use Rattle.two_trip_rides.specs.First.{Source};
ghost use Rattle.two_trip_labels.specs.First.{RowsFit, AreRoutesOf, IsCallOf, FirstGoes, FirstSound, MayBoardCall, IsCallBoarded};

use crate::FirstRows;
use route_split::{RouteCall, RouteRows};

// Boards at a call in the first row that departs at or after a second.
fn board_call(
    routes: &[RouteRows],
    call: RouteCall,
    wanted: u64,
    foot: &[u32],
    second: u32,
    rows: &mut FirstRows,
    first: &mut [u32],
)
    requires whole { All (IsRoute (length first.old)) routes.now }
    requires exists { IsCallOf routes.now call }
    requires fit { RowsFit routes.now rows.old }
    requires foot { length foot.now ≡ length first.old }
    ensures goes { FirstGoes routes.now foot.now second rows.old rows.new first.old first.new }
    ensures boarded { IsCallBoarded routes.now wanted rows.new call }
    ensures sound { (s : Source) → AreRoutesOf s.network.trips routes.now → MayBoardCall s routes.now wanted call → FirstSound s routes.now rows.old first.old → FirstSound s routes.now rows.new first.new }
{
    let route = &routes[call.route as usize];
    rows.board(route, call.route, call.call, wanted, foot, second, first);
}

/// Boards at each of some calls in the first row that departs at or after a second.
pub fn board_calls(
    routes: &[RouteRows],
    calls: &[RouteCall],
    wanted: u64,
    foot: &[u32],
    second: u32,
    rows: &mut FirstRows,
    first: &mut [u32],
)
    requires whole { All (IsRoute (length first.old)) routes.now }
    requires exist { All (IsCallOf routes.now) calls.now }
    requires fit { RowsFit routes.now rows.old }
    requires foot { length foot.now ≡ length first.old }
    ensures goes { FirstGoes routes.now foot.now second rows.old rows.new first.old first.new }
    ensures boarded { All (IsCallBoarded routes.now wanted rows.new) calls.now }
    ensures sound { (s : Source) → AreRoutesOf s.network.trips routes.now → All (MayBoardCall s routes.now wanted) calls.now → FirstSound s routes.now rows.old first.old → FirstSound s routes.now rows.new first.new }
{
    for call in calls {
        board_call(routes, *call, wanted, foot, second, rows, first);
    }
}
