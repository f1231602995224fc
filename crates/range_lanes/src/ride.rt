// Rides on the rows of a route.
ghost use Rattle.std.specs.Prelude.{◌≡◌, ◌<◌, ◌≤◌, ◌+◌, ◌-◌, ◌^◌, IsTrue, ℕ, length, All, slice_get, slice_index, Some, vec_len};
ghost use Rattle.move_model.specs.declared.network.TripNo.{TripNo};
ghost use Rattle.route_split.specs.declared.place.Place.{Place};
ghost use Rattle.route_split.specs.Route.{IsRoute, arrivals_of};
ghost use Rattle.route_split.specs.Calls.{IsRouteOf, call_of};
ghost use Rattle.raptor_rounds.specs.Answers.{HasSeconds};
ghost use Rattle.raptor_rounds.specs.Ways.{Query};
ghost use Rattle.range_lanes.specs.declared.level.Step.{Step};
ghost use Rattle.range_lanes.specs.Levels.{Served, Ridden, Boarded, IsBound, LeftFalls, Covers, Fits, Arrives, StartsFrom, IsSound, IsOnRow, step_on};

use crate::level::{Level, Step, leave};
use move_model::{Ride, StopNo, WalkRow};
use raptor_rounds::SparseSet;
use route_split::{RouteRows, catch};

/// A row that is boarded at a call, and the stop where the ride before it was left.
#[derive(Clone, Copy)]
pub struct Hold {
    pub row: usize,
    pub on: u32,
    pub from: StopNo,
}

/// Leaves the held row at a call, where that is allowed.
fn leave_at(
    rows: &RouteRows,
    call: u32,
    hold: Hold,
    below: &[Level],
    level: &mut Level,
    last: &WalkRow,
    bound: u64,
    fresh: &mut SparseSet,
)
    requires call { call < length rows.now.places }
    requires row { hold.row < length rows.now.trips }
    requires whole { IsRoute (length last.now) rows.now }
    requires below { All (Fits (length last.now)) below.now }
    requires fits { Fits (length last.now) level.old }
    requires fresh { length fresh.old ≡ length last.now }
    requires seconds { All HasSeconds last.now }
    requires bound { IsBound below.now bound }
    ensures known { (off : Place) → slice_get rows.now.places call ≡ Some off → IsTrue off.alight
        → Served below.now level.new off.stop.0 (slice_index (arrivals_of rows.now call) hold.row) }
    ensures falls { LeftFalls level.old level.new fresh.old fresh.new }
    ensures covers { Covers last.now level.old → Covers last.now level.new }
    ensures sound { (q : Query) → q.last ≡ last.now
        → ((off : Place) (trip : TripNo) → slice_get rows.now.places call ≡ Some off → IsTrue off.alight → slice_get rows.now.trips hold.row ≡ Some trip
        → Arrives q below.now off.stop (slice_index (arrivals_of rows.now call) hold.row) (step_on hold trip call))
        → IsSound q below.now level.old → IsSound q below.now level.new }
{
    let place = rows.place(call);
    if !place.alight {
        return;
    }
    let arrivals = rows.arrives(call);
    let ride = Ride {
        trip: rows.trip(hold.row),
        board: hold.on,
        alight: call,
    };
    let step = Step {
        ride,
        from: hold.from,
    };
    leave(
        below,
        level,
        place.stop,
        arrivals[hold.row],
        step,
        last,
        bound,
        fresh,
    );
}

/// Rides on from where the row is boarded, and leaves it at each later call.
fn ride_on(
    rows: &RouteRows,
    hold: Hold,
    below: &[Level],
    level: &mut Level,
    last: &WalkRow,
    bound: u64,
    fresh: &mut SparseSet,
)
    requires on { hold.on < length rows.now.places }
    requires row { hold.row < length rows.now.trips }
    requires whole { IsRoute (length last.now) rows.now }
    requires below { All (Fits (length last.now)) below.now }
    requires fits { Fits (length last.now) level.old }
    requires fresh { length fresh.old ≡ length last.now }
    requires seconds { All HasSeconds last.now }
    requires bound { IsBound below.now bound }
    ensures ridden { Ridden below.now level.new rows.now hold.on hold.row }
    ensures falls { LeftFalls level.old level.new fresh.old fresh.new }
    ensures covers { Covers last.now level.old → Covers last.now level.new }
    ensures sound { (q : Query) → q.last ≡ last.now → IsRouteOf q.network.trips rows.now → IsOnRow q below.now rows.now hold
        → IsSound q below.now level.old → IsSound q below.now level.new }
{
    for call in hold.on + 1..rows.calls() {
        leave_at(rows, call, hold, below, level, last, bound, fresh);
    }
}

/// Boards the first row of a call that departs in time, where that is allowed, and rides on.
pub fn board(
    rows: &RouteRows,
    on: u32,
    second: u32,
    from: StopNo,
    buffer: u32,
    below: &[Level],
    level: &mut Level,
    last: &WalkRow,
    bound: u64,
    fresh: &mut SparseSet,
)
    requires on { on < length rows.now.places }
    requires whole { IsRoute (length last.now) rows.now }
    requires below { All (Fits (length last.now)) below.now }
    requires fits { Fits (length last.now) level.old }
    requires fresh { length fresh.old ≡ length last.now }
    requires seconds { All HasSeconds last.now }
    requires bound { IsBound below.now bound }
    ensures boarded { Boarded below.now level.new rows.now buffer on second }
    ensures falls { LeftFalls level.old level.new fresh.old fresh.new }
    ensures covers { Covers last.now level.old → Covers last.now level.new }
    ensures sound { (q : Query) → q.last ≡ last.now → q.network.buffer ≡ buffer → IsRouteOf q.network.trips rows.now
        → ((place : Place) → slice_get rows.now.places on ≡ Some place → StartsFrom q below.now place.stop second from)
        → IsSound q below.now level.old → IsSound q below.now level.new }
{
    let place = rows.place(on);
    if !place.board {
        return;
    }
    let wanted = u64::from(second) + u64::from(buffer);
    if let Some(row) = catch(rows.departs(on), wanted) {
        let hold = Hold { row, on, from };
        ride_on(rows, hold, below, level, last, bound, fresh);
    }
}
