// The pairs of a point query, each with a journey.
ghost use Rattle.std.specs.Prelude.{◌≡◌, ◌<◌, ◌≤◌, [], length, slice_index_or, MatchBool, IfOk};
ghost use Rattle.move_model.specs.declared.network.NodeNo.{NodeNo as NodeNoValue};
ghost use Rattle.move_model.specs.declared.network.Call.{Call as CallValue};
ghost use Rattle.move_model.specs.Network.{IsNetwork, IsNumbered, node_of as node_of_lem};
ghost use Rattle.move_model.specs.Journey.{HasCall};
ghost use Rattle.move_model.specs.Found.{IsPointAnswer};
ghost use Rattle.plain_search.specs.declared.way.Way.{Way as WayValue};
ghost use Rattle.plain_search.specs.Row.{IsWayTo, HasWayBy};
ghost use Rattle.plain_search.specs.Levels.{before_of, IsTable};
ghost use Rattle.plain_search.specs.Answer.{IsLed};

use crate::rides::node_of;
use crate::rounds::rows_from;
use crate::way::{Row, is_better, way_to};
use move_model::{Finding, Findings, Journey, List, Network, NoMemory, NodeNo, Pair, Ride};
use std::alloc::Global;

/// The vertex at which a ride is boarded.
fn boarded_at(network: &Network, ride: Ride) -> NodeNo
    ensures { (call : CallValue) → HasCall network.now ride.trip ride.board call
        → result ≡ node_of_lem network.now call.stop }
{
    let Some(trip) = network.trips.get(ride.trip.0 as usize) else {
        return NodeNo(0);
    };
    match trip.calls.get(ride.board as usize) {
        Some(call) => node_of(network, call.stop),
        None => NodeNo(0),
    }
}

/// The journey of the best way to a vertex with at most k rides, put together from its end.
fn journey_to(
    alloc: Global,
    network: &Network,
    rows: &[Row],
    k: usize,
    depart: u32,
    to: NodeNo,
) -> Result<Journey, NoMemory>
    requires { k < length rows.now }
    ensures { IfOk result (λ journey. IsNetwork network.now
        → (from : NodeNoValue) (way : WayValue) → IsTable network.now from depart rows.now
        → IsWayTo (slice_index_or rows.now k []) to way → IsLed network.now from depart to k way.second journey) }
{
    let mut walks = Vec::new(alloc);
    let mut rides = Vec::new(alloc);
    let mut node = to;
    for level in (0..k + 1).rev() {
        let Some(way) = way_to(rows[level].as_slice(), node) else {
            break;
        };
        walks.insert(0, List::from_slice(alloc, way.walk.as_slice())?)?;
        let Some(ride) = way.ride else {
            break;
        };
        rides.insert(0, ride)?;
        node = boarded_at(network, ride);
    }
    Ok(Journey {
        depart,
        walks: List::from_vec(walks),
        rides: List::from_vec(rides),
    })
}

/// Whether no way with fewer than k rides arrives at a vertex by this second.
fn is_gain(rows: &[Row], k: usize, to: NodeNo, second: u64) -> bool
    requires { k ≤ length rows.now }
    ensures { MatchBool result
        (HasWayBy (before_of rows.now k) to second → ⊥)
        ((0 < k) × (to.0 < length (before_of rows.now k) → HasWayBy (before_of rows.now k) to second)) }
{
    k == 0 || is_better(rows[k - 1].as_slice(), to, second)
}

/// The Pareto set of the arrival seconds and numbers of rides of all journeys with at most `limit` rides, from a vertex
/// at a second to a vertex, by rising number of rides. Each pair stands with a journey that attains it, whose walks are
/// least walks that come to no vertex twice.
pub fn point_findings(
    alloc: Global,
    network: &Network,
    from: NodeNo,
    to: NodeNo,
    depart: u32,
    limit: u8,
) -> Result<Findings, NoMemory>
    ensures { IfOk result (λ found. IsNetwork network.now → IsNumbered network.now
        → IsPointAnswer network.now from depart to limit found) }
{
    let rows = rows_from(alloc, network, from, depart, limit)?;
    let rows = rows.as_slice();
    let mut found = List::new(alloc);
    for k in 0..rows.len() {
        let Some(way) = way_to(rows[k].as_slice(), to) else {
            continue;
        };
        if !is_gain(rows, k, to, way.second) {
            continue;
        }
        let journey = journey_to(alloc, network, rows, k, depart, to)?;
        let pair = Pair {
            arrive: way.second,
            trips: k as u8,
        };
        found.push(Finding { pair, journey })?;
    }
    Ok(found)
}
