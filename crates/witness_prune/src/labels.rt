// What is kept from one second of a place to an earlier one.
ghost use Rattle.std.specs.Prelude.{◌≡◌, ◌<◌, ◌≤◌, ◌+◌, ◌^◌, ℕ, List, All, IfOk, length, replicate, slice_index};
ghost use Rattle.move_model.specs.declared.network.Network.{Network};
ghost use Rattle.move_model.specs.declared.network.NodeNo.{NodeNo};
ghost use Rattle.move_model.specs.declared.network.StopNo.{StopNo};
ghost use Rattle.move_model.specs.Network.{IsNetwork};
ghost use Rattle.route_split.specs.Route.{Route, IsRoute};
ghost use Rattle.stop_rows.specs.Rows.{Rows};
ghost use Rattle.two_trip_rides.specs.First.{Source};
ghost use Rattle.two_trip_rides.specs.Second.{no_ready, no_second, ready_at};
ghost use Rattle.two_trip_labels.specs.First.{RowsFit, AreRoutesOf, FirstGoes, FirstSound};
ghost use Rattle.two_trip_labels.specs.Second.{HeldFit, SecondSound};
ghost use Rattle.two_trip_labels.specs.Closed.{ArePartsOf};
ghost use Rattle.two_trip_passes.specs.Stops.{IsStopBoarded, IsFootOf, AreDue};
ghost use Rattle.two_trip_passes.specs.Walks.{WalkGoes, last_walked};
ghost use Rattle.two_trip_passes.specs.Rides.{RideGoes, IsBoardedLow, AreReal};
ghost use Rattle.two_trip_passes.specs.Step.{parts_of, AreRowsOf};
ghost use Rattle.witness_prune.specs.Labels.{kept_of, Fits, HasDue, IsNone, IsKept, IsDone};

use move_model::NoMemory;
use piece_laws::{Ready, Second};
use route_split::{RouteRows, Timetable};
use std::alloc::Global;
use stop_rows::StopRows;
use two_trip_labels::{FirstRows, HeldRows};
use two_trip_passes::{board_all, ride_all, walk_all};
use two_trip_rides::NEVER;

const NO_READY: Ready = Ready {
    ready: NEVER,
    a1: NEVER,
    c: NEVER,
};

const NO_SECOND: Second = Second {
    a2: NEVER,
    trip: NEVER,
    y: NEVER,
    label: NO_READY,
};

/// The second from which on no row that isn't held departs from each stop, the rows that first rides hold and when these are left at each stop, from when walks were made, when the passenger is
/// ready at each place, with which label each stop was boarded, and the rows that second rides hold with their keys.
#[derive(Drop)]
pub struct Labels {
    pub due: Vec<u32>,
    pub first_rows: FirstRows,
    pub first: Vec<u32>,
    pub walked: Vec<u32>,
    pub ready: Vec<Ready>,
    pub boarded: Vec<Ready>,
    pub held: HeldRows,
    pub best: Vec<Second>,
}

/// No seconds at so many stops.
pub fn no_seconds(alloc: Global, count: usize) -> Result<Vec<u32>, NoMemory>
    ensures { IfOk result (λ v. v.items ≡ replicate count NEVER) }
{
    Ok(vec![in alloc; NEVER; count]?)
}

// No label at so many stops or places.
fn no_labels(alloc: Global, count: usize) -> Result<Vec<Ready>, NoMemory>
    ensures { IfOk result (λ v. v.items ≡ replicate count no_ready) }
{
    Ok(vec![in alloc; NO_READY; count]?)
}

// No key at so many stops.
fn no_keys(alloc: Global, count: usize) -> Result<Vec<Second>, NoMemory>
    ensures { IfOk result (λ v. v.items ≡ replicate count no_second) }
{
    Ok(vec![in alloc; NO_SECOND; count]?)
}

/// Lets no stop have a second.
pub fn clear_seconds(seconds: &mut Vec<u32>)
    ensures { seconds.new.items ≡ replicate (length seconds.old.items) NEVER }
{
    seconds.as_mut_slice().fill(NEVER);
}

// Lets no stop or place have a label.
fn clear_labels(labels: &mut Vec<Ready>)
    ensures { labels.new.items ≡ replicate (length labels.old.items) no_ready }
{
    labels.as_mut_slice().fill(NO_READY);
}

// Lets no stop have a key.
fn clear_keys(keys: &mut Vec<Second>)
    ensures { keys.new.items ≡ replicate (length keys.old.items) no_second }
{
    keys.as_mut_slice().fill(NO_SECOND);
}

// Boards first rides from all stops that are walked to before a second.
fn board(
    table: &Timetable,
    routes: &[RouteRows],
    foot: &[u32],
    second: u32,
    before: u64,
    due: &mut Vec<u32>,
    rows: &mut FirstRows,
    first: &mut Vec<u32>,
)
    requires routes { routes.now ≡ table.now.routes }
    requires whole { All (IsRoute (length first.old.items)) routes.now }
    requires stops { table.now.stops ≡ length first.old.items }
    requires foot { length foot.now ≡ length first.old.items }
    requires fit { RowsFit routes.now rows.old }
    requires dues { length due.old.items ≡ length first.old.items }
    requires due { AreDue routes.now rows.old due.old.items }
    ensures goes { FirstGoes routes.now foot.now second rows.old rows.new first.old.items first.new.items }
    ensures dues { length due.new.items ≡ length due.old.items }
    ensures due { AreDue routes.now rows.new due.new.items }
    ensures caught { (x : ℕ) → x < length first.old.items → second + slice_index foot.now x < before
        → IsStopBoarded routes.now (second + slice_index foot.now x + table.now.buffer) rows.new x }
    ensures sound { (s : Source) → s.second ≡ second → s.network.buffer ≡ table.now.buffer → AreRoutesOf s.network.trips routes.now → IsFootOf s foot.now
        → FirstSound s routes.now rows.old first.old.items → FirstSound s routes.now rows.new first.new.items }
{
    let dues = due.as_mut_slice();
    board_all(
        table,
        routes,
        foot,
        second,
        before,
        dues,
        rows,
        first.as_mut_slice(),
    );
}

// Walks on from all stops.
fn walk(
    rows: &StopRows,
    foot: &[u32],
    second: u32,
    first: &[u32],
    cuts: &mut Vec<u32>,
    walked: &mut Vec<u32>,
    ready: &mut Vec<Ready>,
)
    requires places { length rows.now.places ≡ length first.now }
    requires walked { length walked.old.items ≡ length first.now }
    requires foot { length foot.now ≡ length rows.now.nodes }
    requires ready { length ready.old.items ≡ length rows.now.nodes }
    requires cuts { length cuts.old.items ≡ length rows.now.nodes }
    ensures goes { WalkGoes rows.now foot.now second first.now walked.old.items walked.new.items ready.old.items ready.new.items }
    ensures low { (x : ℕ) → x < length first.now → last_walked walked.new.items x ≤ slice_index first.now x }
    ensures cuts { length cuts.new.items ≡ length cuts.old.items }
{
    let from = walked.as_mut_slice();
    let labels = ready.as_mut_slice();
    let limits = cuts.as_mut_slice();
    walk_all(rows, foot, second, first, limits, from, labels);
}

// Boards second rides from all stops.
fn ride(
    table: &Timetable,
    routes: &[RouteRows],
    foot: &[u32],
    second: u32,
    places: &[u32],
    first: &[u32],
    ready: &[Ready],
    boarded: &mut Vec<Ready>,
    rows: &mut HeldRows,
    best: &mut Vec<Second>,
)
    requires routes { routes.now ≡ table.now.routes }
    requires whole { All (IsRoute (length best.old.items)) routes.now }
    requires stops { table.now.stops ≡ length best.old.items }
    requires fit { HeldFit routes.now rows.old }
    requires foot { length foot.now ≡ length best.old.items }
    requires places { length places.now ≡ length best.old.items }
    requires within { All (λ p. p < length ready.now) places.now }
    requires first { length first.now ≡ length best.old.items }
    requires boarded { length boarded.old.items ≡ length best.old.items }
    ensures goes { RideGoes routes.now foot.now second places.now table.now.buffer first.now ready.now boarded.old.items boarded.new.items rows.old rows.new best.old.items best.new.items }
    ensures low { (y : StopNo) → y.0 < length best.old.items → IsBoardedLow places.now first.now ready.now (ready_at boarded.new.items y.0) y }
    ensures sound { (s : Source) → s.network.buffer ≡ table.now.buffer → AreRoutesOf s.network.trips routes.now → AreReal s places.now first.now ready.now
        → SecondSound s routes.now rows.old best.old.items → SecondSound s routes.now rows.new best.new.items }
{
    let labels = boarded.as_mut_slice();
    let keys = best.as_mut_slice();
    ride_all(
        table, routes, foot, second, places, first, ready, labels, rows, keys,
    );
}

impl Labels {
    /// Nothing is held, and no stop and no place has a label.
    pub fn new(alloc: Global, routes: &[RouteRows], rows: &StopRows) -> Result<Labels, NoMemory>
        ensures none { IfOk result (λ labels. IsNone routes.now rows.now (kept_of labels)) }
        ensures due { IfOk result (HasDue routes.now rows.now) }
    {
        let stops = rows.stops() as usize;
        let places = rows.places() as usize;
        let due = no_seconds(alloc, stops)?;
        let first_rows = FirstRows::new(alloc, routes)?;
        let first = no_seconds(alloc, stops)?;
        let walked = no_seconds(alloc, stops)?;
        let ready = no_labels(alloc, places)?;
        let boarded = no_labels(alloc, stops)?;
        let held = HeldRows::new(alloc, routes)?;
        let best = no_keys(alloc, stops)?;
        Ok(Labels {
            due,
            first_rows,
            first,
            walked,
            ready,
            boarded,
            held,
            best,
        })
    }

    /// Forgets all that is kept.
    pub fn clear(&mut self)
        ensures none { (routes : List Route) (rows : Rows) → Fits routes rows (kept_of self.old) → IsNone routes rows (kept_of self.new) }
        ensures due { (routes : List Route) (rows : Rows) → HasDue routes rows self.old → HasDue routes rows self.new }
    {
        clear_seconds(&mut self.due);
        self.first_rows.clear();
        clear_seconds(&mut self.first);
        clear_seconds(&mut self.walked);
        clear_labels(&mut self.ready);
        clear_labels(&mut self.boarded);
        self.held.clear();
        clear_keys(&mut self.best);
    }

    /// Goes on to a second that isn't later: what became catchable at stops that are walked to before another second is boarded,
    /// and what follows from it is done. What isn't boarded stays due. The cuts are scratch memory.
    pub fn advance(
        &mut self,
        table: &Timetable,
        routes: &[RouteRows],
        rows: &StopRows,
        places: &[u32],
        foot: &[u32],
        foot_row: &[u32],
        second: u32,
        before: u64,
        cuts: &mut Vec<u32>,
    )
        requires routes { routes.now ≡ table.now.routes }
        requires whole { All (IsRoute (length rows.now.places)) routes.now }
        requires stops { table.now.stops ≡ length rows.now.places }
        requires fits { Fits routes.now rows.now (kept_of self.old) }
        requires due { HasDue routes.now rows.now self.old }
        requires places { places.now ≡ rows.now.places }
        requires within { All (λ p. p < length rows.now.nodes) places.now }
        requires foot { length foot.now ≡ length rows.now.places }
        requires foot_row { length foot_row.now ≡ length rows.now.nodes }
        requires cuts { length cuts.old.items ≡ length rows.now.nodes }
        ensures fits { Fits routes.now rows.now (kept_of self.new) }
        ensures due { HasDue routes.now rows.now self.new }
        ensures cuts { length cuts.new.items ≡ length cuts.old.items }
        ensures done { (n : Network) (q : NodeNo) (z : ℕ) → IsNetwork n → n.buffer ≡ table.now.buffer → AreRowsOf n rows.now
            → ArePartsOf n q (parts_of routes.now foot.now foot_row.now rows.now) → second ≤ z
            → IsKept n q z (parts_of routes.now foot.now foot_row.now rows.now) (kept_of self.old)
            → IsDone n q second before (parts_of routes.now foot.now foot_row.now rows.now) (kept_of self.new) }
    {
        board(
            table,
            routes,
            foot,
            second,
            before,
            &mut self.due,
            &mut self.first_rows,
            &mut self.first,
        );
        let first = self.first.as_slice();
        walk(
            rows,
            foot_row,
            second,
            first,
            cuts,
            &mut self.walked,
            &mut self.ready,
        );
        let ready = self.ready.as_slice();
        ride(
            table,
            routes,
            foot,
            second,
            places,
            first,
            ready,
            &mut self.boarded,
            &mut self.held,
            &mut self.best,
        );
    }
}
