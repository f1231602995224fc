// First rides from all stops.
ghost use Rattle.std.specs.Prelude.{◌≡◌, ◌≢◌, ◌<◌, ◌≤◌, ◌+◌, ◌-◌, ◌^◌, ℕ, length, slice_index, All};
ghost use Rattle.route_split.specs.Route.{IsRoute, NeverFalls};
ghost use Rattle.two_trip_rides.specs.First.{Source};
ghost use Rattle.two_trip_labels.specs.First.{RowsFit, AreRoutesOf, IsCallOf, FirstGoes, FirstSound};
ghost use Rattle.two_trip_passes.specs.Stops.{IsStopBoarded, IsFootOf, IsTimed, IsDueAt, IsDueCall, AreDue};

use move_model::StopNo;
use route_split::{RouteCall, RouteRows, Timetable, catch};
use two_trip_labels::{FirstRows, board_calls};
use two_trip_rides::NEVER;

// One more than the departure of the row before a row, or 0 where there is none.
fn after(departures: &[u32], row: usize) -> u32
    requires row { row ≤ length departures.now }
    requires soon { (p : ℕ) → slice_index departures.now p < 2 ^ 32 - 1 }
    ensures { (p : ℕ) → p + 1 ≡ row → slice_index departures.now p < result }
{
    if row == 0 {
        return 0;
    }
    departures[row - 1] + 1
}

// The first row that departs at a second or later, or how many rows there are.
fn row_from(departures: &[u32], wanted: u64) -> usize
    requires { NeverFalls departures.now }
    ensures within { result ≤ length departures.now }
    ensures there { result < length departures.now → wanted ≤ slice_index departures.now result }
{
    match catch(departures, wanted) {
        Some(row) => row,
        None => departures.len(),
    }
}

// A second such that no row departs from a call between it and another second.
fn due_of(route: &RouteRows, call: u32, wanted: u64) -> u32
    requires call { call < length route.now.places }
    requires timed { IsTimed route.now }
    ensures { IsDueAt route.now call result wanted }
{
    let departures = route.departs(call);
    let row = row_from(departures, wanted);
    after(departures, row)
}

// The same of a call of some route.
fn due_at(routes: &[RouteRows], call: RouteCall, wanted: u64) -> u32
    requires timed { All IsTimed routes.now }
    requires exists { IsCallOf routes.now call }
    ensures { IsDueCall routes.now result wanted call }
{
    let route = &routes[call.route as usize];
    due_of(route, call.call, wanted)
}

// The later of two seconds.
fn later(a: u32, b: u32) -> u32
    ensures first { a ≤ result }
    ensures second { b ≤ result }
{
    if a < b { b } else { a }
}

// The same of some calls.
fn due_before(routes: &[RouteRows], calls: &[RouteCall], wanted: u64) -> u32
    requires timed { All IsTimed routes.now }
    requires exist { All (IsCallOf routes.now) calls.now }
    ensures { All (IsDueCall routes.now result wanted) calls.now }
{
    let mut due = 0;
    for call in calls {
        due = later(due, due_at(routes, *call, wanted));
    }
    due
}

// Puts down what is due at a stop.
fn put_due(stop: u32, second: u32, due: &mut [u32])
    requires { stop < length due.old }
    ensures as_many { length due.new ≡ length due.old }
    ensures here { slice_index due.new stop ≡ second }
    ensures others { (x : ℕ) → x ≢ stop → slice_index due.new x ≡ slice_index due.old x }
{
    due[stop as usize] = second;
}

// Boards first rides at all calls at a stop that is walked to before a second, unless no row departs there that isn't held.
fn board_stop(
    table: &Timetable,
    routes: &[RouteRows],
    stop: u32,
    foot: &[u32],
    second: u32,
    before: u64,
    due: &mut [u32],
    rows: &mut FirstRows,
    first: &mut [u32],
)
    requires routes { routes.now ≡ table.now.routes }
    requires whole { All (IsRoute (length first.old)) routes.now }
    requires stops { table.now.stops ≡ length first.old }
    requires foot { length foot.now ≡ length first.old }
    requires fit { RowsFit routes.now rows.old }
    requires stop { stop < length first.old }
    requires dues { length due.old ≡ length first.old }
    requires due { AreDue routes.now rows.old due.old }
    ensures goes { FirstGoes routes.now foot.now second rows.old rows.new first.old first.new }
    ensures caught { second + slice_index foot.now stop < before → IsStopBoarded routes.now (second + slice_index foot.now stop + table.now.buffer) rows.new stop }
    ensures dues { length due.new ≡ length due.old }
    ensures due { AreDue routes.now rows.new due.new }
    ensures sound { (s : Source) → s.second ≡ second → s.network.buffer ≡ table.now.buffer → AreRoutesOf s.network.trips routes.now → IsFootOf s foot.now
        → FirstSound s routes.now rows.old first.old → FirstSound s routes.now rows.new first.new }
{
    let at = stop as usize;
    let walked = second as u64 + foot[at] as u64;
    if walked >= before {
        return;
    }
    let wanted = walked + table.buffer() as u64;
    if due[at] != NEVER && due[at] as u64 <= wanted {
        return;
    }
    let calls = table.at_stop(StopNo(stop));
    put_due(stop, due_before(routes, calls, wanted), due);
    board_calls(routes, calls, wanted, foot, second, rows, first);
}

/// Boards first rides at all calls at stops that are walked to before a second. What isn't boarded at the others stays due.
pub fn board_all(
    table: &Timetable,
    routes: &[RouteRows],
    foot: &[u32],
    second: u32,
    before: u64,
    due: &mut [u32],
    rows: &mut FirstRows,
    first: &mut [u32],
)
    requires routes { routes.now ≡ table.now.routes }
    requires whole { All (IsRoute (length first.old)) routes.now }
    requires stops { table.now.stops ≡ length first.old }
    requires foot { length foot.now ≡ length first.old }
    requires fit { RowsFit routes.now rows.old }
    requires dues { length due.old ≡ length first.old }
    requires due { AreDue routes.now rows.old due.old }
    ensures goes { FirstGoes routes.now foot.now second rows.old rows.new first.old first.new }
    ensures dues { length due.new ≡ length due.old }
    ensures due { AreDue routes.now rows.new due.new }
    ensures caught { (x : ℕ) → x < length first.old → second + slice_index foot.now x < before
        → IsStopBoarded routes.now (second + slice_index foot.now x + table.now.buffer) rows.new x }
    ensures sound { (s : Source) → s.second ≡ second → s.network.buffer ≡ table.now.buffer → AreRoutesOf s.network.trips routes.now → IsFootOf s foot.now
        → FirstSound s routes.now rows.old first.old → FirstSound s routes.now rows.new first.new }
{
    for stop in 0..table.stops() {
        board_stop(table, routes, stop, foot, second, before, due, rows, first);
    }
}
