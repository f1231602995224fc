// From which call on each route is ridden in a round.
ghost use Rattle.std.specs.Prelude.{◌≡◌, ◌<◌, ◌≤◌, ◌-◌, ◌^◌, ℕ, true, false, length, slice_index, slice_index_or, All, Contains};
ghost use Rattle.route_split.specs.declared.place.RouteCall.{RouteCall};
ghost use Rattle.route_split.specs.Table.{CallsAt};

use crate::sparse_row::SparseRow;
use crate::sparse_set::SparseSet;
use move_model::StopNo;
use route_split::{RouteCall, Timetable};

/// Lowers the first marked call of each route that calls here.
pub fn lower_starts(calls: &[RouteCall], starts: &mut SparseRow)
    requires { All (λ c. c.route < length starts.old) calls.now }
    ensures each { (r k : ℕ) → Contains calls.now (record { route = r; call = k }) → slice_index starts.new r ≤ k }
    ensures falls { (r : ℕ) → slice_index starts.new r ≤ slice_index starts.old r }
    ensures length { length starts.new ≡ length starts.old }
{
    for c in calls {
        if c.call < starts.get(c.route) {
            starts.set(c.route, c.call);
        }
    }
}

/// The first call of each route at a marked stop.
pub fn first_calls(table: &Timetable, better: &SparseSet, starts: &mut SparseRow)
    requires stops { length better.now ≡ table.now.stops }
    requires routes { length starts.old ≡ length table.now.routes }
    ensures known { (x r k : ℕ) → slice_index_or better.now x false ≡ true → CallsAt table.now.routes x r k → slice_index starts.new r ≤ k }
    ensures length { length starts.new ≡ length starts.old }
{
    starts.clear();
    let stops = better.as_slice();
    for stop in stops {
        lower_starts(table.at_stop(StopNo(*stop)), starts);
    }
}
