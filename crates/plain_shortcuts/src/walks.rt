// Walks between stops.
ghost use Rattle.std.specs.Prelude.{◌≡◌, ◌↔◌, ℕ, ◌+◌, ◌<◌, ◌≤◌, IfOk, IsTrue, MatchOption, None, length, slice_index_or};
ghost use Rattle.move_model.specs.Network.{IsNetwork, node_of as node_of_lem};
ghost use Rattle.plain_shortcuts.specs.Walks.{HoldsWalks, walk_between, IsCaughtBy};

use move_model::{Call, Network, NoMemory, NodeNo, StopNo};
use plain_search::{ArrivalRow, distances};
use std::alloc::Global;

/// The distances from the vertex of each stop.
pub(crate) fn walks_of(alloc: Global, network: &Network) -> Result<Vec<ArrivalRow>, NoMemory>
    requires { IsNetwork network.now }
    ensures { IfOk result (λ walks. HoldsWalks network.now walks.items) }
{
    let mut walks = Vec::new(alloc);
    for stop in network.stops.as_slice() {
        walks.push(distances(alloc, network, stop.node)?)?;
    }
    Ok(walks)
}

/// The vertex of a stop.
pub(crate) fn node_of(network: &Network, stop: StopNo) -> NodeNo
    ensures { result ≡ node_of_lem network.now stop }
{
    match network.stops.get(stop.0 as usize) {
        Some(stop) => stop.node,
        None => NodeNo(0),
    }
}

/// The seconds of a row at a vertex.
pub(crate) fn seconds_at(row: &ArrivalRow, node: NodeNo) -> Option<u64>
    ensures { result ≡ slice_index_or row.now node.0 None }
{
    match row.get(node.0 as usize) {
        Some(seconds) => *seconds,
        None => None,
    }
}

/// The distance between two stops.
pub(crate) fn walk(network: &Network, walks: &[ArrivalRow], from: StopNo, to: StopNo) -> Option<u64>
    ensures { result ≡ walk_between network.now walks.now from to }
{
    match walks.get(from.0 as usize) {
        Some(row) => seconds_at(row, node_of(network, to)),
        None => None,
    }
}

// Whether a walk and the buffer leave time for a departure.
fn is_in_time(second: u32, walk: u64, buffer: u32, departs: u32) -> bool
    ensures { IsTrue result ↔ (second + walk + buffer ≤ departs) }
{
    u128::from(second) + u128::from(walk) + u128::from(buffer) <= u128::from(departs)
}

/// The seconds of a walk from a stop that is left at a second to a call that is caught so, or None where it is not.
pub(crate) fn caught(
    network: &Network,
    walks: &[ArrivalRow],
    from: StopNo,
    second: u32,
    on: Call,
) -> Option<u32>
    requires walks { HoldsWalks network.now walks.now }
    requires exists { from.0 < length network.now.stops }
    ensures { MatchOption result ((m : ℕ) → IsCaughtBy network.now from second on m → ⊥) (IsCaughtBy network.now from second on) }
{
    match walk(network, walks, from, on.stop) {
        Some(seconds) => {
            if is_in_time(second, seconds, network.buffer, on.dep) {
                Some(seconds as u32)
            } else {
                None
            }
        }
        None => None,
    }
}
