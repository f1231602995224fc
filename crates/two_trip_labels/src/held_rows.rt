// The rows that are held on all routes by second rides.
ghost use Rattle.std.specs.Prelude.{◌≡◌, ◌≢◌, ◌<◌, ℕ, List, length, map, replicate, All, IfOk, vec_len};
ghost use Rattle.route_split.specs.Route.{Route, IsRoute};
ghost use Rattle.two_trip_rides.specs.Second.{no_held};
ghost use Rattle.two_trip_labels.specs.Second.{held_row, HeldFit, RidesAt};
ghost use Rattle.two_trip_labels.specs.Fresh.{AreNoHeld};

use move_model::NoMemory;
use piece_laws::{Held, Ready, Second};
use route_split::RouteRows;
use std::alloc::Global;
use std::marker::Model;
use two_trip_rides::{NEVER, board_second};

// No row, and no label.
const NO_HELD: Held = Held {
    row: NEVER,
    y: NEVER,
    label: Ready {
        ready: NEVER,
        a1: NEVER,
        c: NEVER,
    },
};

/// For each route and each of its calls the least row that was boarded there or before as the second ride, with its label.
#[derive(Drop)]
pub struct HeldRows {
    rows: Vec<Vec<Held>>,
}

impl Model for HeldRows {
    ghost use Rattle.std.specs.Prelude.{List, map};
    ghost use Rattle.piece_laws.specs.declared.labels.Held.{Held};

    ghost Value = { List (List Held) };

    ghost view = { λ r. map (λ v. v.items) r.rows.items };
}

// Lets nothing be held in a row.
fn fill_row(row: &mut Vec<Held>)
    ensures { row.new.items ≡ replicate (length row.old.items) no_held }
{
    row.as_mut_slice().fill(NO_HELD);
}

// Boards a route whose held rows are lent.
fn ride_in(
    rows: &RouteRows,
    call: u32,
    label: Ready,
    buffer: u32,
    foot: &[u32],
    second: u32,
    places: &[u32],
    ready: &[Ready],
    held: &mut Vec<Held>,
    best: &mut [Second],
)
    requires call { call < length rows.now.places }
    requires held { vec_len held.old ≡ length rows.now.places }
    requires foot { length foot.now ≡ length best.old }
    requires places { length places.now ≡ length best.old }
    requires within { All (λ p. p < length ready.now) places.now }
    requires whole { IsRoute (length best.old) rows.now }
    ensures { RidesAt rows.now call label buffer foot.now second places.now ready.now held.old.items held.new.items best.old best.new }
{
    let rows_held = held.as_mut_slice();
    board_second(
        rows, call, label, buffer, foot, second, places, ready, rows_held, best,
    );
}

// A row of so many calls, in which nothing is held.
fn no_held_row(alloc: Global, calls: u32) -> Result<Vec<Held>, NoMemory>
    ensures { IfOk result (λ row. row.items ≡ replicate calls no_held) }
{
    let row: Vec<Held> = vec![in alloc; NO_HELD; calls as usize]?;
    Ok(row)
}

// A row for each route, in which nothing is held.
fn no_held_rows(alloc: Global, routes: &[RouteRows]) -> Result<Vec<Vec<Held>>, NoMemory>
    ensures { IfOk result (λ rows. AreNoHeld routes.now (map (λ row. row.items) rows.items)) }
{
    let mut rows = Vec::with_capacity(alloc, routes.len())?;
    for route in routes {
        let row = no_held_row(alloc, route.calls())?;
        rows.push_reserved(row);
    }
    Ok(rows)
}

impl HeldRows {
    /// Rows for some routes, in which nothing is held.
    pub fn new(alloc: Global, routes: &[RouteRows]) -> Result<HeldRows, NoMemory>
        ensures { IfOk result (AreNoHeld routes.now) }
    {
        let rows = no_held_rows(alloc, routes)?;
        Ok(HeldRows { rows })
    }

    // How many routes there are.
    fn count(&self) -> usize
        ensures { result ≡ length self.now }
    {
        self.rows.len()
    }

    // Lets nothing be held on a route.
    fn clear_row(&mut self, route: usize)
        requires { route < length self.old }
        ensures many { length self.new ≡ length self.old }
        ensures others { (r : ℕ) → r ≢ route → held_row self.new r ≡ held_row self.old r }
        ensures cleared { held_row self.new route ≡ replicate (length (held_row self.old route)) no_held }
    {
        fill_row(&mut self.rows[route]);
    }

    /// Lets nothing be held on any route.
    pub fn clear(&mut self)
        ensures { (routes : List Route) → HeldFit routes self.old → AreNoHeld routes self.new }
    {
        for route in 0..self.count() {
            self.clear_row(route);
        }
    }

    /// Boards a route at a call with a label, in the first row that departs in time, if there is one.
    pub fn board(
        &mut self,
        rows: &RouteRows,
        route: u32,
        call: u32,
        label: Ready,
        buffer: u32,
        foot: &[u32],
        second: u32,
        places: &[u32],
        ready: &[Ready],
        best: &mut [Second],
    )
        requires route { route < length self.old }
        requires call { call < length rows.now.places }
        requires held { length (held_row self.old route) ≡ length rows.now.places }
        requires foot { length foot.now ≡ length best.old }
        requires places { length places.now ≡ length best.old }
        requires within { All (λ p. p < length ready.now) places.now }
        requires whole { IsRoute (length best.old) rows.now }
        ensures many { length self.new ≡ length self.old }
        ensures others { (r : ℕ) → r ≢ route → held_row self.new r ≡ held_row self.old r }
        ensures boards { RidesAt rows.now call label buffer foot.now second places.now ready.now (held_row self.old route) (held_row self.new route) best.old best.new }
    {
        let held = &mut self.rows[route as usize];
        ride_in(
            rows, call, label, buffer, foot, second, places, ready, held, best,
        );
    }
}
