// First rides.
ghost use Rattle.std.specs.Prelude.{◌≡◌, ◌<◌, ◌≤◌, ◌+◌, ◌^◌, ◌⊎◌, ℕ, length, slice_get, slice_index, IsTrue, Some, MatchOption, IfSome};
ghost use Rattle.route_split.specs.declared.place.Place.{Place};
ghost use Rattle.route_split.specs.Route.{IsRoute, arrivals_of, departures_of, NeverFalls};
ghost use Rattle.route_split.specs.Calls.{IsRouteOf};
ghost use Rattle.two_trip_rides.specs.First.{Source, IsWalked, Falls, FirstClosed, IsFirstRow, AreFirstRows, AreFirst, IsLeft, IsOwnRow, IsLeftAfter, IsOwnRide, OwnOn};

use move_model::StopNo;
use route_split::{RouteRows, catch};

/// No second, and no row.
pub const NEVER: u32 = u32::MAX;

/// Leaves a ride at a stop at a second, unless walking from the start is no later.
pub fn leave_first(stop: StopNo, arrive: u32, foot: &[u32], second: u32, first: &mut [u32])
    requires stop { stop.0 < length first.old }
    requires foot { length foot.now ≡ length first.old }
    ensures known { IsWalked foot.now second stop arrive ⊎ (slice_index first.new stop.0 ≤ arrive) }
    ensures falls { Falls first.old first.new }
    ensures changed { (x : ℕ) → (slice_index first.new x ≡ slice_index first.old x) ⊎ ((x ≡ stop.0) × (slice_index first.new x ≡ arrive)) }
{
    let at = stop.0 as usize;
    let walked = u64::from(second) + u64::from(foot[at]) <= u64::from(arrive);
    if !walked && arrive < first[at] {
        first[at] = arrive;
    }
}

// Leaves a row at a call, where that is allowed and walking is later.
fn leave_at(rows: &RouteRows, call: u32, row: u32, foot: &[u32], second: u32, first: &mut [u32])
    requires call { call < length rows.now.places }
    requires row { row < length rows.now.trips }
    requires foot { length foot.now ≡ length first.old }
    requires whole { IsRoute (length first.old) rows.now }
    ensures known { (off : Place) → slice_get rows.now.places call ≡ Some off → IsTrue off.alight
        → IsWalked foot.now second off.stop (slice_index (arrivals_of rows.now call) row) ⊎ (slice_index first.new off.stop.0 ≤ slice_index (arrivals_of rows.now call) row) }
    ensures falls { Falls first.old first.new }
    ensures changed { (x : ℕ) → (slice_index first.new x ≡ slice_index first.old x) ⊎ IsLeft rows.now call row x (slice_index first.new x) }
{
    let place = rows.place(call);
    if place.alight {
        let arrive = rows.arrives(call)[row as usize];
        leave_first(place.stop, arrive, foot, second, first);
    }
}

/// Rides a row on from a call, as far as no lesser row is held.
pub fn ride_first(
    rows: &RouteRows,
    call: u32,
    row: u32,
    foot: &[u32],
    second: u32,
    held: &mut [u32],
    first: &mut [u32],
)
    requires call { call < length rows.now.places }
    requires row { row < length rows.now.trips }
    requires held { length held.old ≡ length rows.now.places }
    requires foot { length foot.now ≡ length first.old }
    requires whole { IsRoute (length first.old) rows.now }
    ensures boarded { call + 1 < length rows.now.places → slice_index held.new call ≤ row }
    ensures held_falls { Falls held.old held.new }
    ensures first_falls { Falls first.old first.new }
    ensures closed { FirstClosed rows.now foot.now second held.old first.old → FirstClosed rows.now foot.now second held.new first.new }
    ensures rows_sound { (s : Source) → IsFirstRow s rows.now call row → AreFirstRows s rows.now held.old → AreFirstRows s rows.now held.new }
    ensures sound { (s : Source) → IsRouteOf s.network.trips rows.now → IsFirstRow s rows.now call row → AreFirst s first.old → AreFirst s first.new }
{
    for next in call + 1..rows.calls() {
        let at = next as usize - 1;
        if held[at] <= row {
            return;
        }
        held[at] = row;
        leave_at(rows, next, row, foot, second, first);
    }
}

/// Boards a route at a call as the first ride, in the first row that departs at or after a second, if there is one.
pub fn board_first(
    rows: &RouteRows,
    call: u32,
    wanted: u64,
    foot: &[u32],
    second: u32,
    held: &mut [u32],
    first: &mut [u32],
)
    requires call { call < length rows.now.places }
    requires held { length held.old ≡ length rows.now.places }
    requires foot { length foot.now ≡ length first.old }
    requires whole { IsRoute (length first.old) rows.now }
    ensures boarded { (on : Place) (p : ℕ) → slice_get rows.now.places call ≡ Some on → IsTrue on.board → call + 1 < length rows.now.places → p < length rows.now.trips
        → wanted ≤ slice_index (departures_of rows.now call) p → slice_index held.new call ≤ p }
    ensures held_falls { Falls held.old held.new }
    ensures first_falls { Falls first.old first.new }
    ensures closed { FirstClosed rows.now foot.now second held.old first.old → FirstClosed rows.now foot.now second held.new first.new }
    ensures rows_sound { (s : Source)
        → ((on : Place) (p : ℕ) → slice_get rows.now.places call ≡ Some on → IsTrue on.board → wanted ≤ slice_index (departures_of rows.now call) p → IsFirstRow s rows.now call p)
        → AreFirstRows s rows.now held.old → AreFirstRows s rows.now held.new }
    ensures sound { (s : Source) → IsRouteOf s.network.trips rows.now
        → ((on : Place) (p : ℕ) → slice_get rows.now.places call ≡ Some on → IsTrue on.board → wanted ≤ slice_index (departures_of rows.now call) p → IsFirstRow s rows.now call p)
        → AreFirst s first.old → AreFirst s first.new }
{
    if !rows.place(call).board {
        return;
    }
    if let Some(row) = catch(rows.departs(call), wanted) {
        ride_first(rows, call, row as u32, foot, second, held, first);
    }
}

// The first row that departs at a second from a call where it may be boarded, if there is one.
fn own_row(rows: &RouteRows, call: u32, departs: u32) -> Option<u32>
    requires call { call < length rows.now.places }
    requires few { length rows.now.trips < 2 ^ 32 }
    requires order { NeverFalls (departures_of rows.now call) }
    ensures row { IfSome result (λ p. IsOwnRow rows.now call departs p) }
    ensures first { (p : ℕ) → IsOwnRow rows.now call departs p → MatchOption result ⊥ (λ row. row ≤ p) }
{
    if !rows.place(call).board {
        return None;
    }
    let departures = rows.departs(call);
    let row = catch(departures, u64::from(departs))?;
    if departures[row] == departs {
        Some(row as u32)
    } else {
        None
    }
}

// Leaves a row at a call, where that is allowed.
fn lower_own(rows: &RouteRows, call: u32, row: u32, own: &mut [u32])
    requires call { call < length rows.now.places }
    requires row { row < length rows.now.trips }
    requires whole { IsRoute (length own.old) rows.now }
    ensures known { (off : Place) → slice_get rows.now.places call ≡ Some off → IsTrue off.alight → slice_index own.new off.stop.0 ≤ slice_index (arrivals_of rows.now call) row }
    ensures falls { Falls own.old own.new }
    ensures changed { (x : ℕ) → (slice_index own.new x ≡ slice_index own.old x) ⊎ IsLeft rows.now call row x (slice_index own.new x) }
{
    let place = rows.place(call);
    if place.alight {
        let arrive = rows.arrives(call)[row as usize];
        let at = place.stop.0 as usize;
        if arrive < own[at] {
            own[at] = arrive;
        }
    }
}

// Leaves a row at each call behind one.
fn leave_own(rows: &RouteRows, call: u32, row: u32, own: &mut [u32])
    requires call { call < length rows.now.places }
    requires row { row < length rows.now.trips }
    requires whole { IsRoute (length own.old) rows.now }
    ensures falls { Falls own.old own.new }
    ensures known { (k : ℕ) (off : Place) → call < k → slice_get rows.now.places k ≡ Some off → IsTrue off.alight → slice_index own.new off.stop.0 ≤ slice_index (arrivals_of rows.now k) row }
    ensures changed { (x : ℕ) → (slice_index own.new x ≡ slice_index own.old x) ⊎ IsLeftAfter rows.now call row x (slice_index own.new x) }
{
    for next in call + 1..rows.calls() {
        lower_own(rows, next, row, own);
    }
}

/// Puts down the least arrivals of the rides that depart at a second from a call, where that may be boarded.
pub fn ride_own(rows: &RouteRows, call: u32, departs: u32, own: &mut [u32])
    requires call { call < length rows.now.places }
    requires whole { IsRoute (length own.old) rows.now }
    ensures falls { Falls own.old own.new }
    ensures known { OwnOn rows.now call departs own.new }
    ensures changed { (x : ℕ) → (slice_index own.new x ≡ slice_index own.old x) ⊎ IsOwnRide rows.now call departs x (slice_index own.new x) }
{
    if let Some(row) = own_row(rows, call, departs) {
        leave_own(rows, call, row, own);
    }
}
