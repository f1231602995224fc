// Ways to vertices, and rows of them.
ghost use Rattle.std.specs.Prelude.{◌≡◌, ◌+◌, ◌<◌, ◌≤◌, [], ◌∷◌, ◌++◌, length, replicate, IfOk, IfSome, IfNone, None};
ghost use Rattle.std.specs.Bool.{OnTrue, OnFalse};
ghost use Rattle.plain_search.specs.declared.way.Way.{Way as WayValue};
ghost use Rattle.plain_search.specs.Row.{IsWayTo, HasWayBy};

use move_model::{List, NoMemory, NodeNo, Ride, Walk};
use std::alloc::Global;

/// A way to a vertex: the second of arrival, the walk to the vertex from where the last ride was left, and that ride.
/// Where there is no ride, the walk is from the source.
#[derive(Debug, Drop)]
pub struct Way {
    pub second: u64,
    pub walk: Walk,
    pub ride: Option<Ride>,
}

/// The best known way to each vertex, by its number, if there is one.
pub type Row = List<Option<Way>>;

/// The way to a vertex.
pub fn way_to(row: &[Option<Way>], node: NodeNo) -> Option<&Way>
    ensures some { IfSome result (λ way. IsWayTo row.now node way.now) }
    ensures none { IfNone result ((way : WayValue) → IsWayTo row.now node way → ⊥) }
{
    match row.get(node.0 as usize) {
        Some(Some(way)) => Some(way),
        _ => None,
    }
}

/// Whether a way that arrives at this second would be the best to a vertex.
pub fn is_better(row: &[Option<Way>], node: NodeNo, second: u64) -> bool
    ensures better { OnTrue result
        ((node.0 < length row.now) × (HasWayBy row.now node second → ⊥)) }
    ensures held { OnFalse result (node.0 < length row.now → HasWayBy row.now node second) }
{
    match row.get(node.0 as usize) {
        Some(Some(way)) => second < way.second,
        Some(None) => true,
        None => false,
    }
}

/// The walk with one vertex more at its end.
pub fn longer(alloc: Global, walk: &Walk, node: NodeNo) -> Result<Walk, NoMemory>
    ensures { IfOk result (λ longer. longer ≡ walk.now ++ node ∷ []) }
{
    let mut walk = List::from_slice(alloc, walk.as_slice())?;
    walk.push(node)?;
    Ok(walk)
}

/// A copy of a way.
fn copy_way(alloc: Global, way: &Way) -> Result<Way, NoMemory>
    ensures { IfOk result (λ copy. copy ≡ way.now) }
{
    let walk = List::from_slice(alloc, way.walk.as_slice())?;
    Ok(Way {
        second: way.second,
        walk,
        ride: way.ride,
    })
}

/// A copy of a row.
pub fn copy_row(alloc: Global, row: &[Option<Way>]) -> Result<Vec<Option<Way>>, NoMemory>
    ensures { IfOk result (λ copy. copy.items ≡ row.now) }
{
    let mut copy = Vec::new(alloc);
    for way in row {
        match way {
            Some(way) => copy.push(Some(copy_way(alloc, way)?))?,
            None => copy.push(None)?,
        }
    }
    Ok(copy)
}

/// A row with no way.
pub fn empty_row(alloc: Global, nodes: u32) -> Result<Vec<Option<Way>>, NoMemory>
    ensures none { IfOk result (λ row. row.items ≡ replicate (nodes + 1) None) }
    ensures few { IfOk result (λ _. nodes + 1 ≤ 4294967296) }
{
    let mut row = Vec::new(alloc);
    for _node in 0..nodes as usize + 1 {
        row.push(None)?;
    }
    Ok(row)
}
