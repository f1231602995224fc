// Walks between all vertices, by the plain search.
ghost use Rattle.std.specs.Prelude.{◌≡◌, ◌<◌, length, All, IfOk, IfSome};
ghost use Rattle.raptor_rounds.specs.Answers.{IsEntryWithin, HasSeconds};

use move_model::{Network, NoMemory, NodeNo, Shortcut, Shortcuts, StopNo, WalkRow};
use plain_search::{ArrivalRow, ArrivalRows, distances};
use std::alloc::Global;

/// What a run is lent: the seconds on foot to each stop and from each stop, and the list of transfers.
#[derive(Drop)]
pub struct Walks {
    pub first: WalkRow,
    pub last: WalkRow,
    pub list: Shortcuts,
}

/// The vertex of a stop.
pub fn node_of(n: &Network, stop: StopNo) -> NodeNo {
    match n.stops.get(stop.0 as usize) {
        Some(stop) => stop.node,
        None => NodeNo(0),
    }
}

/// For each vertex the distances to all.
pub fn all_distances(alloc: Global, n: &Network) -> Result<ArrivalRows, NoMemory> {
    let mut rows = ArrivalRows::new(alloc);
    for node in 0..n.nodes {
        rows.push(distances(alloc, n, NodeNo(node))?)?;
    }
    rows.push(distances(alloc, n, NodeNo(n.nodes))?)?;
    Ok(rows)
}

/// The same rows turned round: for each vertex the distances from all.
pub fn turned(alloc: Global, rows: &ArrivalRows) -> Result<ArrivalRows, NoMemory> {
    let mut turned = ArrivalRows::new(alloc);
    for to in 0..rows.len() {
        let mut row = ArrivalRow::new(alloc);
        for from in rows.as_slice() {
            row.push(entry_of(from, to))?;
        }
        turned.push(row)?;
    }
    Ok(turned)
}

/// An entry of a row, or None where it is absent or past 9,000,000,000,000,000,000.
pub fn entry_of(row: &ArrivalRow, place: usize) -> Option<u64>
    ensures { HasSeconds result }
{
    match row.get(place) {
        Some(Some(seconds)) => {
            if *seconds > 9_000_000_000_000_000_000 {
                return None;
            }
            Some(*seconds)
        }
        _ => None,
    }
}

/// The entry of two vertices, if there is one.
pub fn seconds_of(rows: &ArrivalRows, from: NodeNo, to: NodeNo) -> Option<u64>
    ensures { HasSeconds result }
{
    match rows.get(from.0 as usize) {
        Some(row) => entry_of(row, to.0 as usize),
        None => None,
    }
}

/// The entries of a vertex and each stop.
pub fn row_of(
    alloc: Global,
    n: &Network,
    rows: &ArrivalRows,
    node: NodeNo,
    stops: u32,
) -> Result<WalkRow, NoMemory>
    ensures length { IfOk result (λ row. length row ≡ stops) }
    ensures bound { IfOk result (λ row. All HasSeconds row) }
{
    let mut row = WalkRow::new(alloc, stops)?;
    for x in 0..stops {
        let seconds = seconds_of(rows, node, node_of(n, StopNo(x)));
        row.set(StopNo(x), seconds);
    }
    Ok(row)
}

/// The seconds of a stop in a row, or None where they or the stop are absent.
pub fn seconds_at(row: &WalkRow, stops: u32, stop: StopNo) -> Option<u64>
    requires { length row.now ≡ stops }
{
    if stop.0 < stops { row.get(stop) } else { None }
}

// The entry of the pair of stops that a code stands for, if they are two and there is a walk.
fn pair_of(n: &Network, rows: &ArrivalRows, stops: u32, code: u32) -> Option<Shortcut>
    ensures { IfSome result (IsEntryWithin stops) }
{
    if stops == 0 {
        return None;
    }
    let (from, to) = (StopNo(code / stops), StopNo(code % stops));
    if from.0 >= stops || from.0 == to.0 {
        return None;
    }
    match seconds_of(rows, node_of(n, from), node_of(n, to)) {
        Some(seconds) => Some(Shortcut { from, to, seconds }),
        None => None,
    }
}

/// The walks between all pairs of different stops, of which there are at most ten, in an order that the step gives.
pub fn all_pairs(
    alloc: Global,
    n: &Network,
    rows: &ArrivalRows,
    stops: u32,
    step: u32,
) -> Result<Shortcuts, NoMemory>
    ensures { IfOk result (λ list. All (IsEntryWithin stops) list) }
{
    let mut list = Shortcuts::new(alloc);
    for i in 0..101u32 {
        let code = i.wrapping_mul(step) % 101;
        if let Some(pair) = pair_of(n, rows, stops, code) {
            list.push(pair)?;
        }
    }
    Ok(list)
}
