// Second rides from all stops.
ghost use Rattle.std.specs.Prelude.{◌≡◌, ◌≢◌, ◌<◌, ◌≤◌, ◌+◌, ◌^◌, ℕ, length, All};
ghost use Rattle.move_model.specs.declared.network.StopNo.{StopNo};
ghost use Rattle.route_split.specs.Route.{IsRoute};
ghost use Rattle.piece_laws.specs.Pieces.{HasReady};
ghost use Rattle.piece_laws.specs.Tables.{never};
ghost use Rattle.two_trip_rides.specs.First.{Source};
ghost use Rattle.two_trip_rides.specs.Second.{ready_at};
ghost use Rattle.two_trip_labels.specs.First.{AreRoutesOf};
ghost use Rattle.two_trip_labels.specs.Second.{HeldFit, SecondGoes, SecondSound};
ghost use Rattle.two_trip_passes.specs.Rides.{IsStopRidden, IsBoardedLow, IsLabelOf, RideGoes, AreReal};

use move_model::StopNo;
use piece_laws::{Ready, Second, ready_less};
use route_split::{RouteRows, Timetable};
use two_trip_labels::{HeldRows, label_at, ride_calls};

// Boards second rides at all calls at a stop with a label, unless walking from the start is no later than the label.
fn ride_from(
    table: &Timetable,
    routes: &[RouteRows],
    stop: u32,
    label: Ready,
    foot: &[u32],
    second: u32,
    places: &[u32],
    ready: &[Ready],
    rows: &mut HeldRows,
    best: &mut [Second],
)
    requires routes { routes.now ≡ table.now.routes }
    requires whole { All (IsRoute (length best.old)) routes.now }
    requires stops { table.now.stops ≡ length best.old }
    requires fit { HeldFit routes.now rows.old }
    requires foot { length foot.now ≡ length best.old }
    requires places { length places.now ≡ length best.old }
    requires within { All (λ p. p < length ready.now) places.now }
    requires stop { stop < length best.old }
    ensures goes { SecondGoes routes.now foot.now second places.now ready.now rows.old rows.new best.old best.new }
    ensures ridden { IsStopRidden routes.now foot.now second table.now.buffer label rows.new (record { 0 = stop }) }
    ensures sound { (s : Source) → s.network.buffer ≡ table.now.buffer → AreRoutesOf s.network.trips routes.now
        → (label.ready < never → HasReady s.network s.node s.second (record { 0 = stop }) label)
        → SecondSound s routes.now rows.old best.old → SecondSound s routes.now rows.new best.new }
{
    if second as u64 + foot[stop as usize] as u64 <= label.ready as u64 {
        return;
    }
    let calls = table.at_stop(StopNo(stop));
    let buffer = table.buffer();
    ride_calls(
        routes, calls, label, buffer, foot, second, places, ready, rows, best,
    );
}

// Puts down with which label a stop was boarded.
fn put_boarded(stop: u32, label: Ready, boarded: &mut [Ready])
    requires { stop < length boarded.old }
    ensures as_many { length boarded.new ≡ length boarded.old }
    ensures here { ready_at boarded.new stop ≡ label }
    ensures others { (y : ℕ) → y ≢ stop → ready_at boarded.new y ≡ ready_at boarded.old y }
{
    boarded[stop as usize] = label;
}

// Boards second rides from a stop, if its label is less than that with which it was boarded.
fn ride_stop(
    table: &Timetable,
    routes: &[RouteRows],
    stop: u32,
    foot: &[u32],
    second: u32,
    places: &[u32],
    first: &[u32],
    ready: &[Ready],
    boarded: &mut [Ready],
    rows: &mut HeldRows,
    best: &mut [Second],
)
    requires routes { routes.now ≡ table.now.routes }
    requires whole { All (IsRoute (length best.old)) routes.now }
    requires stops { table.now.stops ≡ length best.old }
    requires fit { HeldFit routes.now rows.old }
    requires foot { length foot.now ≡ length best.old }
    requires places { length places.now ≡ length best.old }
    requires within { All (λ p. p < length ready.now) places.now }
    requires first { length first.now ≡ length best.old }
    requires boarded { length boarded.old ≡ length best.old }
    requires stop { stop < length best.old }
    ensures goes { RideGoes routes.now foot.now second places.now table.now.buffer first.now ready.now boarded.old boarded.new rows.old rows.new best.old best.new }
    ensures low { IsBoardedLow places.now first.now ready.now (ready_at boarded.new stop) (record { 0 = stop }) }
    ensures sound { (s : Source) → s.network.buffer ≡ table.now.buffer → AreRoutesOf s.network.trips routes.now → AreReal s places.now first.now ready.now
        → SecondSound s routes.now rows.old best.old → SecondSound s routes.now rows.new best.new }
{
    let label = label_at(StopNo(stop), places[stop as usize], first, ready);
    if ready_less(label, boarded[stop as usize]) {
        put_boarded(stop, label, boarded);
        ride_from(
            table, routes, stop, label, foot, second, places, ready, rows, best,
        );
    }
}

/// Boards second rides from all stops whose labels are less than those with which they were boarded.
pub fn ride_all(
    table: &Timetable,
    routes: &[RouteRows],
    foot: &[u32],
    second: u32,
    places: &[u32],
    first: &[u32],
    ready: &[Ready],
    boarded: &mut [Ready],
    rows: &mut HeldRows,
    best: &mut [Second],
)
    requires routes { routes.now ≡ table.now.routes }
    requires whole { All (IsRoute (length best.old)) routes.now }
    requires stops { table.now.stops ≡ length best.old }
    requires fit { HeldFit routes.now rows.old }
    requires foot { length foot.now ≡ length best.old }
    requires places { length places.now ≡ length best.old }
    requires within { All (λ p. p < length ready.now) places.now }
    requires first { length first.now ≡ length best.old }
    requires boarded { length boarded.old ≡ length best.old }
    ensures goes { RideGoes routes.now foot.now second places.now table.now.buffer first.now ready.now boarded.old boarded.new rows.old rows.new best.old best.new }
    ensures low { (y : StopNo) → y.0 < length best.old → IsBoardedLow places.now first.now ready.now (ready_at boarded.new y.0) y }
    ensures sound { (s : Source) → s.network.buffer ≡ table.now.buffer → AreRoutesOf s.network.trips routes.now → AreReal s places.now first.now ready.now
        → SecondSound s routes.now rows.old best.old → SecondSound s routes.now rows.new best.new }
{
    for stop in 0..table.stops() {
        ride_stop(
            table, routes, stop, foot, second, places, first, ready, boarded, rows, best,
        );
    }
}
