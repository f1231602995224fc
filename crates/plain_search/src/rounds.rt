// Distances, and earliest arrivals by the number of rides.
ghost use Rattle.std.specs.Prelude.{◌≡◌, ℕ, ◌+◌, [], length, map, IfOk};
ghost use Rattle.move_model.specs.declared.network.NodeNo.{NodeNo as NodeNoValue};
ghost use Rattle.move_model.specs.Network.{IsNetwork, IsNumbered};
ghost use Rattle.plain_search.specs.Row.{Ways, IsWhole, second_of};
ghost use Rattle.plain_search.specs.Levels.{IsSourceRow, IsLevel, IsTable};
ghost use Rattle.plain_search.specs.Answer.{HoldsDistances, HoldsEarliest};

use crate::rides::ride_on;
use crate::walks::walk_on;
use crate::way::{Row, Way, copy_row, empty_row};
use move_model::{List, Network, NoMemory, NodeNo};
use std::alloc::Global;

/// A second, or the seconds of a walk, for each vertex by its number. There is none at 0.
pub type ArrivalRow = List<Option<u64>>;

/// A row for each number of rides from 0.
pub type ArrivalRows = List<ArrivalRow>;

/// The row of the one way that is to be at a vertex at a second.
fn source_row(
    alloc: Global,
    network: &Network,
    from: NodeNo,
    depart: u32,
) -> Result<Vec<Option<Way>>, NoMemory>
    ensures whole { IfOk result (λ row. IsWhole row.items) }
    ensures source { IfOk result (λ row. IsSourceRow network.now from depart row.items) }
{
    let mut row = empty_row(alloc, network.nodes)?;
    if from.0 < 1 || network.nodes < from.0 {
        return Ok(row);
    }
    let walk = List::from_slice(alloc, &[from])?;
    row[from.0 as usize] = Some(Way {
        second: u64::from(depart),
        walk,
        ride: None,
    });
    Ok(row)
}

/// The best ways from a vertex at a second on foot.
fn first_row(alloc: Global, network: &Network, from: NodeNo, depart: u32) -> Result<Row, NoMemory>
    ensures whole { IfOk result IsWhole }
    ensures level { IfOk result (λ row. IsNetwork network.now → IsLevel network.now from depart [] row) }
{
    let mut row = source_row(alloc, network, from, depart)?;
    walk_on(alloc, row.as_mut_slice(), network.arcs.as_slice())?;
    Ok(List::from_vec(row))
}

/// The best ways with at most one ride more.
fn next_row(alloc: Global, network: &Network, before: &Row) -> Result<Row, NoMemory>
    requires { IsWhole before.now }
    ensures whole { IfOk result IsWhole }
    ensures level { IfOk result (λ row. IsNetwork network.now → IsNumbered network.now
        → (from : NodeNoValue) (depart : ℕ) (earlier : Ways) → IsLevel network.now from depart earlier before.now
        → IsLevel network.now from depart before.now row) }
{
    let mut row = copy_row(alloc, before.as_slice())?;
    ride_on(alloc, network, before.as_slice(), row.as_mut_slice())?;
    walk_on(alloc, row.as_mut_slice(), network.arcs.as_slice())?;
    Ok(List::from_vec(row))
}

/// The best ways from a vertex at a second, for each number of rides up to a limit.
pub fn rows_from(
    alloc: Global,
    network: &Network,
    from: NodeNo,
    depart: u32,
    limit: u8,
) -> Result<List<Row>, NoMemory>
    ensures count { IfOk result (λ rows. length rows ≡ limit + 1) }
    ensures table { IfOk result (λ rows. IsNetwork network.now → IsNumbered network.now
        → IsTable network.now from depart rows) }
{
    let mut rows = Vec::new(alloc);
    rows.push(first_row(alloc, network, from, depart)?)?;
    for k in 0..usize::from(limit) {
        let row = next_row(alloc, network, &rows[k])?;
        rows.push(row)?;
    }
    Ok(List::from_vec(rows))
}

/// The seconds of a row.
fn seconds_of(alloc: Global, row: &Row) -> Result<ArrivalRow, NoMemory>
    ensures { IfOk result (λ seconds. seconds ≡ map second_of row.now) }
{
    let mut seconds = List::new(alloc);
    for way in row.as_slice() {
        match way {
            Some(way) => seconds.push(Some(way.second))?,
            None => seconds.push(None)?,
        }
    }
    Ok(seconds)
}

/// The distances, in seconds of walking, from a vertex to each vertex, or None where there is no walk.
pub fn distances(alloc: Global, network: &Network, from: NodeNo) -> Result<ArrivalRow, NoMemory>
    ensures { IfOk result (λ row. IsNetwork network.now → HoldsDistances network.now from row) }
{
    let row = first_row(alloc, network, from, 0)?;
    seconds_of(alloc, &row)
}

/// For each number of rides from 0 to a limit, and for each vertex, the earliest arrival with at most so many rides
/// from a vertex at a second, or None where there is no journey.
pub fn earliest(
    alloc: Global,
    network: &Network,
    from: NodeNo,
    depart: u32,
    limit: u8,
) -> Result<ArrivalRows, NoMemory>
    ensures { IfOk result (λ rows. IsNetwork network.now → IsNumbered network.now
        → HoldsEarliest network.now from depart limit rows) }
{
    let rows = rows_from(alloc, network, from, depart, limit)?;
    let mut all = List::new(alloc);
    for row in rows.as_slice() {
        all.push(seconds_of(alloc, row)?)?;
    }
    Ok(all)
}
