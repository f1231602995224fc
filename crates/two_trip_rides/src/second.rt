// Second rides.
ghost use Rattle.std.specs.Prelude.{◌≡◌, ◌<◌, ◌≤◌, ◌+◌, ◌^◌, ◌⊎◌, ◌↔◌, ℕ, length, slice_get, slice_index, All, IsTrue, Some};
ghost use Rattle.move_model.specs.declared.network.TripNo.{TripNo};
ghost use Rattle.move_model.specs.Shortcut.{IsLess};
ghost use Rattle.route_split.specs.declared.place.Place.{Place};
ghost use Rattle.route_split.specs.Route.{IsRoute, arrivals_of, departures_of};
ghost use Rattle.route_split.specs.Calls.{IsRouteOf};
ghost use Rattle.piece_laws.specs.declared.labels.Held.{Held};
ghost use Rattle.piece_laws.specs.Pieces.{second_entries, held_entries};
ghost use Rattle.two_trip_rides.specs.First.{Source};
ghost use Rattle.two_trip_rides.specs.Second.{held_at, second_at, HeldFall, SecondsFall, IsCut, left_of, SecondClosed, IsSecondLeft, IsSecondRow, AreSecondRows, AreSeconds};

use move_model::StopNo;
use piece_laws::{Held, Ready, Second, held_less, second_less};
use route_split::{RouteRows, catch};

/// Leaves a second ride at a stop with a key, unless a journey with at most one ride is known to be no later.
pub fn leave_second(
    stop: StopNo,
    key: Second,
    foot: &[u32],
    second: u32,
    places: &[u32],
    ready: &[Ready],
    best: &mut [Second],
)
    requires stop { stop.0 < length best.old }
    requires foot { length foot.now ≡ length best.old }
    requires places { length places.now ≡ length best.old }
    requires within { All (λ p. p < length ready.now) places.now }
    ensures known { IsCut foot.now second places.now ready.now stop key.a2 ⊎ (IsLess (second_entries key) (second_entries (second_at best.new stop.0)) → ⊥) }
    ensures falls { SecondsFall best.old best.new }
    ensures changed { (x : ℕ) → (second_at best.new x ≡ second_at best.old x) ⊎ ((x ≡ stop.0) × (second_at best.new x ≡ key)) }
{
    let at = stop.0 as usize;
    let walked = u64::from(second) + u64::from(foot[at]) <= u64::from(key.a2);
    if walked || ready[places[at] as usize].ready <= key.a2 {
        return;
    }
    if second_less(key, best[at]) {
        best[at] = key;
    }
}

// Leaves a boarded row at a call, where that is allowed.
fn leave_at(
    rows: &RouteRows,
    call: u32,
    hold: Held,
    foot: &[u32],
    second: u32,
    places: &[u32],
    ready: &[Ready],
    best: &mut [Second],
)
    requires call { call < length rows.now.places }
    requires row { hold.row < length rows.now.trips }
    requires foot { length foot.now ≡ length best.old }
    requires places { length places.now ≡ length best.old }
    requires within { All (λ p. p < length ready.now) places.now }
    requires whole { IsRoute (length best.old) rows.now }
    ensures known { (off : Place) (trip : TripNo) → slice_get rows.now.places call ≡ Some off → IsTrue off.alight → slice_get rows.now.trips hold.row ≡ Some trip
        → IsCut foot.now second places.now ready.now off.stop (slice_index (arrivals_of rows.now call) hold.row)
        ⊎ (IsLess (second_entries (left_of (slice_index (arrivals_of rows.now call) hold.row) trip hold)) (second_entries (second_at best.new off.stop.0)) → ⊥) }
    ensures falls { SecondsFall best.old best.new }
    ensures changed { (x : ℕ) → (second_at best.new x ≡ second_at best.old x) ⊎ IsSecondLeft rows.now call hold x (second_at best.new x) }
{
    let place = rows.place(call);
    if place.alight {
        let key = Second {
            a2: rows.arrives(call)[hold.row as usize],
            trip: rows.trip(hold.row as usize).0,
            y: hold.y,
            label: hold.label,
        };
        leave_second(place.stop, key, foot, second, places, ready, best);
    }
}

// Whether a boarded row is less than the one that is held at a place.
fn is_better(hold: Held, held: &[Held], at: usize) -> bool
    requires { at < length held.now }
    ensures { IsTrue result ↔ IsLess (held_entries hold) (held_entries (held_at held.now at)) }
{
    held_less(hold, held[at])
}

/// Rides a boarded row on from a call, as far as none that is no greater is held.
pub fn ride_second(
    rows: &RouteRows,
    call: u32,
    hold: Held,
    foot: &[u32],
    second: u32,
    places: &[u32],
    ready: &[Ready],
    held: &mut [Held],
    best: &mut [Second],
)
    requires call { call < length rows.now.places }
    requires row { hold.row < length rows.now.trips }
    requires held { length held.old ≡ length rows.now.places }
    requires foot { length foot.now ≡ length best.old }
    requires places { length places.now ≡ length best.old }
    requires within { All (λ p. p < length ready.now) places.now }
    requires whole { IsRoute (length best.old) rows.now }
    ensures boarded { call + 1 < length rows.now.places → IsLess (held_entries hold) (held_entries (held_at held.new call)) → ⊥ }
    ensures held_fall { HeldFall held.old held.new }
    ensures best_fall { SecondsFall best.old best.new }
    ensures closed { SecondClosed rows.now foot.now second places.now ready.now held.old best.old → SecondClosed rows.now foot.now second places.now ready.now held.new best.new }
    ensures rows_sound { (s : Source) → IsSecondRow s rows.now call hold → AreSecondRows s rows.now held.old → AreSecondRows s rows.now held.new }
    ensures sound { (s : Source) → IsRouteOf s.network.trips rows.now → IsSecondRow s rows.now call hold → AreSeconds s best.old → AreSeconds s best.new }
{
    for next in call + 1..rows.calls() {
        let at = next as usize - 1;
        if !is_better(hold, held, at) {
            return;
        }
        held[at] = hold;
        leave_at(rows, next, hold, foot, second, places, ready, best);
    }
}

/// Boards a route at a call as the second ride with a label, in the first row that departs in time, if there is one.
pub fn board_second(
    rows: &RouteRows,
    call: u32,
    label: Ready,
    buffer: u32,
    foot: &[u32],
    second: u32,
    places: &[u32],
    ready: &[Ready],
    held: &mut [Held],
    best: &mut [Second],
)
    requires call { call < length rows.now.places }
    requires held { length held.old ≡ length rows.now.places }
    requires foot { length foot.now ≡ length best.old }
    requires places { length places.now ≡ length best.old }
    requires within { All (λ p. p < length ready.now) places.now }
    requires whole { IsRoute (length best.old) rows.now }
    ensures boarded { (on : Place) (p : ℕ) → slice_get rows.now.places call ≡ Some on → IsTrue on.board → call + 1 < length rows.now.places → p < length rows.now.trips
        → label.ready + buffer ≤ slice_index (departures_of rows.now call) p
        → (let hold : Held = record { row = p; y = on.stop.0; label = label } in IsLess (held_entries hold) (held_entries (held_at held.new call))) → ⊥ }
    ensures held_fall { HeldFall held.old held.new }
    ensures best_fall { SecondsFall best.old best.new }
    ensures closed { SecondClosed rows.now foot.now second places.now ready.now held.old best.old → SecondClosed rows.now foot.now second places.now ready.now held.new best.new }
    ensures rows_sound { (s : Source)
        → ((on : Place) (p : ℕ) → slice_get rows.now.places call ≡ Some on → IsTrue on.board → label.ready + buffer ≤ slice_index (departures_of rows.now call) p
        → IsSecondRow s rows.now call (record { row = p; y = on.stop.0; label = label }))
        → AreSecondRows s rows.now held.old → AreSecondRows s rows.now held.new }
    ensures sound { (s : Source) → IsRouteOf s.network.trips rows.now
        → ((on : Place) (p : ℕ) → slice_get rows.now.places call ≡ Some on → IsTrue on.board → label.ready + buffer ≤ slice_index (departures_of rows.now call) p
        → IsSecondRow s rows.now call (record { row = p; y = on.stop.0; label = label }))
        → AreSeconds s best.old → AreSeconds s best.new }
{
    let place = rows.place(call);
    if !place.board {
        return;
    }
    let wanted = label.ready as u64 + buffer as u64;
    if let Some(row) = catch(rows.departs(call), wanted) {
        let hold = Held {
            row: row as u32,
            y: place.stop.0,
            label,
        };
        ride_second(rows, call, hold, foot, second, places, ready, held, best);
    }
}
