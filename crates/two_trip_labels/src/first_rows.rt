// The rows that are held on all routes by first rides.
ghost use Rattle.std.specs.Prelude.{◌≡◌, ◌≢◌, ◌<◌, ◌≤◌, ◌+◌, ◌^◌, ℕ, List, [], length, map, replicate, slice_get, slice_index, slice_index_or, IfOk, IsTrue, Some, vec_len};
ghost use Rattle.route_split.specs.declared.place.Place.{Place};
ghost use Rattle.route_split.specs.Route.{Route, IsRoute, departures_of};
ghost use Rattle.route_split.specs.Calls.{IsRouteOf};
ghost use Rattle.two_trip_rides.specs.First.{Source, Falls, FirstClosed, IsFirstRow, AreFirstRows, AreFirst};
ghost use Rattle.two_trip_labels.specs.First.{row_at, RowsFit, BoardsAt};
ghost use Rattle.two_trip_labels.specs.Fresh.{AreNoFirst};

use move_model::NoMemory;
use route_split::RouteRows;
use std::alloc::Global;
use std::marker::Model;
use two_trip_rides::{NEVER, board_first};

/// For each route and each of its calls the least row that was boarded there or before as the first ride.
#[derive(Drop)]
pub struct FirstRows {
    rows: Vec<Vec<u32>>,
}

impl Model for FirstRows {
    ghost use Rattle.std.specs.Prelude.{List, ℕ, map};

    ghost Value = { List (List ℕ) };

    ghost view = { λ r. map (λ v. v.items) r.rows.items };
}

// Lets nothing be held in a row.
fn fill_row(row: &mut Vec<u32>)
    ensures { row.new.items ≡ replicate (length row.old.items) NEVER }
{
    row.as_mut_slice().fill(NEVER);
}

// Boards a route whose held rows are lent.
fn board_in(
    rows: &RouteRows,
    call: u32,
    wanted: u64,
    foot: &[u32],
    second: u32,
    held: &mut Vec<u32>,
    first: &mut [u32],
)
    requires call { call < length rows.now.places }
    requires held { vec_len held.old ≡ length rows.now.places }
    requires foot { length foot.now ≡ length first.old }
    requires whole { IsRoute (length first.old) rows.now }
    ensures { BoardsAt rows.now call wanted foot.now second held.old.items held.new.items first.old first.new }
{
    board_first(rows, call, wanted, foot, second, held.as_mut_slice(), first);
}

// A row of so many calls, in which nothing is held.
fn no_row(alloc: Global, calls: u32) -> Result<Vec<u32>, NoMemory>
    ensures { IfOk result (λ row. row.items ≡ replicate calls NEVER) }
{
    let row: Vec<u32> = vec![in alloc; NEVER; calls as usize]?;
    Ok(row)
}

// A row for each route, in which nothing is held.
fn no_rows(alloc: Global, routes: &[RouteRows]) -> Result<Vec<Vec<u32>>, NoMemory>
    ensures { IfOk result (λ rows. AreNoFirst routes.now (map (λ row. row.items) rows.items)) }
{
    let mut rows = Vec::with_capacity(alloc, routes.len())?;
    for route in routes {
        let row = no_row(alloc, route.calls())?;
        rows.push_reserved(row);
    }
    Ok(rows)
}

impl FirstRows {
    /// Rows for some routes, in which nothing is held.
    pub fn new(alloc: Global, routes: &[RouteRows]) -> Result<FirstRows, NoMemory>
        ensures { IfOk result (AreNoFirst routes.now) }
    {
        let rows = no_rows(alloc, routes)?;
        Ok(FirstRows { rows })
    }

    // How many routes there are.
    fn count(&self) -> usize
        ensures { result ≡ length self.now }
    {
        self.rows.len()
    }

    // Lets nothing be held on a route.
    fn clear_row(&mut self, route: usize)
        requires { route < length self.old }
        ensures many { length self.new ≡ length self.old }
        ensures others { (r : ℕ) → r ≢ route → row_at self.new r ≡ row_at self.old r }
        ensures cleared { row_at self.new route ≡ replicate (length (row_at self.old route)) NEVER }
    {
        fill_row(&mut self.rows[route]);
    }

    /// Lets nothing be held on any route.
    pub fn clear(&mut self)
        ensures { (routes : List Route) → RowsFit routes self.old → AreNoFirst routes self.new }
    {
        for route in 0..self.count() {
            self.clear_row(route);
        }
    }

    /// Boards a route at a call in the first row that departs at or after a second, if there is one.
    pub fn board(
        &mut self,
        rows: &RouteRows,
        route: u32,
        call: u32,
        wanted: u64,
        foot: &[u32],
        second: u32,
        first: &mut [u32],
    )
        requires route { route < length self.old }
        requires call { call < length rows.now.places }
        requires held { length (row_at self.old route) ≡ length rows.now.places }
        requires foot { length foot.now ≡ length first.old }
        requires whole { IsRoute (length first.old) rows.now }
        ensures many { length self.new ≡ length self.old }
        ensures others { (r : ℕ) → r ≢ route → row_at self.new r ≡ row_at self.old r }
        ensures boards { BoardsAt rows.now call wanted foot.now second (row_at self.old route) (row_at self.new route) first.old first.new }
    {
        board_in(
            rows,
            call,
            wanted,
            foot,
            second,
            &mut self.rows[route as usize],
            first,
        );
    }
}
