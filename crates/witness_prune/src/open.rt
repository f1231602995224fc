// The rows of all routes, lent by a table.
ghost use Rattle.std.specs.Prelude.{◌≡◌, ◌<◌, All, IfOk};
ghost use Rattle.route_split.specs.Route.{IsRoute};

use move_model::NoMemory;
use route_split::{RoundMarks, RouteRows, Timetable};
use std::alloc::Global;
use std::marker::Brand;
use std::sync::ledger::{Blank, Ledger};
use steps::Steps;

// Opens all routes, and counts that.
fn open_counted<'a, L: Ledger>(
    alloc: Global,
    table: &'a Timetable,
    blank: Blank,
) -> Result<Vec<RouteRows<'a>>, NoMemory>
    requires name { blank.name ≡ L.name }
    requires parts { blank.parts ≡ L.parts }
    requires some { 0 < blank.parts }
    ensures routes { IfOk result (λ routes. routes.items ≡ table.now.routes) }
    ensures whole { IfOk result (λ routes. All (IsRoute table.now.stops) routes.items) }
{
    let mut opens = Steps::<L>::new(blank);
    let mut marks = RoundMarks::new(alloc, table)?;
    let count = table.routes();
    let mut routes = Vec::with_capacity(alloc, count as usize)?;
    for route in 0..count {
        let rows = table.open_route(route, &mut marks, &mut opens);
        routes.push_reserved(rows);
    }
    Ok(routes)
}

/// Opens all routes on a counter of its own.
pub fn open_all(alloc: Global, table: &Timetable) -> Result<Vec<RouteRows>, NoMemory>
    ensures routes { IfOk result (λ routes. routes.items ≡ table.now.routes) }
    ensures whole { IfOk result (λ routes. All (IsRoute table.now.stops) routes.items) }
{
    open_counted::<Brand>(alloc, table, Blank::new(1))
}
