// Walks between vertices and stops, compared with plain distances.
ghost use Rattle.std.specs.Prelude.{◌≡◌, ◌≤◌, All, length, IfOk, IsTrue};
ghost use Rattle.walk_hierarchy.specs.Hierarchy.{IsNode};

use crate::difference::Difference;
use crate::plain::Distances;
use bucket_walks::Buckets;
use move_model::{NoMemory, NodeNo, Stop, StopNo, Stops, WalkRow};
use std::alloc::Global;
use std::sync::ledger::Ledger;
use steps::Steps;
use walk_order::{Hierarchy, Work};

// Whether each stop stands at a vertex of the hierarchy.
fn stand(hierarchy: &Hierarchy, stops: &[Stop]) -> bool
    ensures { IsTrue result → All (λ stop. IsNode hierarchy.now stop.node) stops.now }
{
    for i in 0..stops.len() {
        let node = stops[i].node;
        if node.0 < 1 {
            return false;
        }
        if hierarchy.nodes() < node.0 {
            return false;
        }
    }
    true
}

// The first stop at which a row has other seconds than the plain distance from or to a vertex.
fn row_difference(
    plain: &Distances,
    stops: &[Stop],
    at: NodeNo,
    row: &WalkRow,
    is_first: bool,
) -> Option<Difference>
    requires one_each { length row.now ≡ length stops.now }
    requires few { length stops.now ≤ 100 }
{
    for i in 0..stops.len() {
        let node = stops[i].node;
        let number = i as u32;
        let want = if is_first {
            plain.get(at, node)
        } else {
            plain.get(node, at)
        };
        if row.get(StopNo(number)) != want {
            let found = if is_first {
                Difference::First(at, StopNo(number))
            } else {
                Difference::Last(StopNo(number), at)
            };
            return Some(found);
        }
    }
    None
}

// The first walk between a vertex and a stop that differs, written to a row that is lent.
fn vertex_difference<L: Ledger>(
    hierarchy: &Hierarchy,
    buckets: &Buckets,
    stops: &[Stop],
    plain: &Distances,
    at: NodeNo,
    row: &mut WalkRow,
    work: &mut Work,
    searches: &mut Steps<L>,
) -> Option<Difference>
    requires at { IsNode hierarchy.now at }
    requires nodes { buckets.now.nodes ≡ length hierarchy.now.ranks }
    requires stops { buckets.now.stops ≡ length stops.now }
    requires few { length stops.now ≤ 100 }
    requires fits { work.old.nodes ≡ length hierarchy.now.ranks }
    requires row { length row.old ≡ length stops.now }
    ensures nodes { work.new.nodes ≡ work.old.nodes }
    ensures row { length row.new ≡ length row.old }
{
    buckets.first_walks(hierarchy, at, row, work, searches);
    let found = row_difference(plain, stops, at, row, true);
    if found.is_some() {
        return found;
    }
    buckets.last_walks(hierarchy, at, row, work, searches);
    row_difference(plain, stops, at, row, false)
}

fn vertices_difference<L: Ledger>(
    hierarchy: &Hierarchy,
    buckets: &Buckets,
    stops: &[Stop],
    plain: &Distances,
    row: &mut WalkRow,
    work: &mut Work,
    searches: &mut Steps<L>,
) -> Option<Difference>
    requires nodes { buckets.now.nodes ≡ length hierarchy.now.ranks }
    requires stops { buckets.now.stops ≡ length stops.now }
    requires few { length stops.now ≤ 100 }
    requires fits { work.old.nodes ≡ length hierarchy.now.ranks }
    requires row { length row.old ≡ length stops.now }
{
    for place in 0..hierarchy.nodes() {
        let at = NodeNo(place + 1);
        let found = vertex_difference(hierarchy, buckets, stops, plain, at, row, work, searches);
        if found.is_some() {
            return found;
        }
    }
    None
}

fn bucket_difference<L: Ledger>(
    alloc: Global,
    hierarchy: &Hierarchy,
    buckets: &Buckets,
    stops: &[Stop],
    plain: &Distances,
    searches: &mut Steps<L>,
) -> Result<Option<Difference>, NoMemory>
    requires nodes { buckets.now.nodes ≡ length hierarchy.now.ranks }
    requires stops { buckets.now.stops ≡ length stops.now }
    requires few { length stops.now ≤ 100 }
{
    let mut work = Work::new(alloc, hierarchy)?;
    let mut row = WalkRow::new(alloc, stops.len() as u32)?;
    Ok(vertices_difference(
        hierarchy, buckets, stops, plain, &mut row, &mut work, searches,
    ))
}

/// The first walk between a vertex and a stop that differs.
pub fn stop_difference<L: Ledger>(
    alloc: Global,
    hierarchy: &Hierarchy,
    stops: &Stops,
    plain: &Distances,
    searches: &mut Steps<L>,
) -> Result<Option<Difference>, NoMemory> {
    let places = stops.as_slice();
    if places.len() > 100 || !stand(hierarchy, places) {
        return Ok(Some(Difference::Stops));
    }
    let buckets = Buckets::new(alloc, hierarchy, stops)?;
    bucket_difference(alloc, hierarchy, &buckets, places, plain, searches)
}
