// The routes that a group of departures has opened.
ghost use Rattle.std.specs.Prelude.{◌≡◌, ◌<◌, ◌≤◌, ◌+◌, ◌*◌, ℕ, length, slice_get, IfOk, Some};
ghost use Rattle.route_split.specs.Route.{Route, IsRoute};
ghost use Rattle.range_lanes.specs.Lent.{IsLentBy, HoldsRoute, lent_count};

use move_model::NoMemory;
use route_split::{RoundMarks, RouteRows, Timetable};
use std::alloc::Global;
use std::sync::ledger::Ledger;
use steps::Steps;

/// The rows of the routes that were opened since the last `close`. They are lent by the table, and stay open for all
/// departures of a group.
#[derive(Drop)]
pub struct LentRows<'a> {
    pub rows: Vec<Option<RouteRows<'a>>>,
    pub marks: RoundMarks,
}

impl<'a> LentRows<'a> {
    /// No route is open.
    pub fn new(alloc: Global, table: &'a Timetable) -> Result<LentRows<'a>, NoMemory>
        ensures { IfOk result (λ rows. IsLentBy table.now rows) }
    {
        let count = table.routes();
        let mut rows: Vec<Option<RouteRows<'a>>> = Vec::with_capacity(alloc, count as usize)?;
        while rows.len() < count as usize {
            rows.push(None)?;
        }
        let marks = RoundMarks::new(alloc, table)?;
        Ok(LentRows { rows, marks })
    }

    /// Closes all routes.
    pub fn close(&mut self, table: &'a Timetable)
        requires { IsLentBy table.now self.old }
        ensures held { IsLentBy table.now self.new }
        ensures none { lent_count self.new ≡ 0 }
    {
        let _routes = table.routes();
        self.marks.clear();
    }

    /// Opens a route, unless it is open.
    pub fn lend<L: Ledger>(&mut self, table: &'a Timetable, route: u32, opens: &mut Steps<L>)
        requires held { IsLentBy table.now self.old }
        requires exists { route < length table.now.routes }
        ensures held { IsLentBy table.now self.new }
        ensures holds { HoldsRoute table.now self.new route }
        ensures counted { opens.new + lent_count self.old ≡ opens.old + lent_count self.new }
    {
        if self.marks.marked(route) {
            return;
        }
        let rows = table.open_route(route, &mut self.marks, opens);
        self.rows[route as usize] = Some(rows);
    }
}
