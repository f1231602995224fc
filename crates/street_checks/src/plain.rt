// Distances and walks by plain code.
use move_model::{Arc, Network, NoMemory, NodeNo};
use plain_search::{ArrivalRow, distances};
use std::alloc::Global;
use walk_order::Settled;

/// The distances between all vertices, by the vertex where a walk begins.
#[derive(Drop)]
pub struct Distances {
    rows: Vec<ArrivalRow>,
}

impl Distances {
    pub fn new(alloc: Global, network: &Network) -> Result<Distances, NoMemory> {
        let mut rows = Vec::new(alloc);
        for place in 0..network.nodes {
            rows.push(distances(alloc, network, NodeNo(place.saturating_add(1)))?)?;
        }
        Ok(Distances { rows })
    }

    /// The distance from one vertex to another, or None where there is no walk.
    pub fn get(&self, a: NodeNo, b: NodeNo) -> Option<u64> {
        let row = self.rows.get(a.0.wrapping_sub(1) as usize)?;
        *row.get(b.0 as usize)?
    }
}

// The seconds of the least arc between two vertices.
fn least_arc(arcs: &[Arc], from: NodeNo, to: NodeNo) -> Option<u64> {
    let mut least = None;
    for arc in arcs {
        if arc.from == from && arc.to == to {
            let seconds = u64::from(arc.seconds);
            least = Some(match least {
                Some(held) if held <= seconds => held,
                _ => seconds,
            });
        }
    }
    least
}

/// The seconds of a walk along least arcs from one vertex to another, or None where the vertices are no such walk or
/// where one stands twice next to itself.
pub fn walk_seconds(arcs: &[Arc], walk: &[NodeNo], a: NodeNo, b: NodeNo) -> Option<u64> {
    let mut at = *walk.first()?;
    if at != a {
        return None;
    }
    let mut seconds = 0u64;
    for next in &walk[1..] {
        if *next == at {
            return None;
        }
        seconds = seconds.saturating_add(least_arc(arcs, at, *next)?);
        at = *next;
    }
    if at == b { Some(seconds) } else { None }
}

/// The seconds of each vertex, from vertex 1, or None where a vertex that doesn't exist is settled or one is twice.
pub fn by_vertex(
    alloc: Global,
    nodes: u32,
    settled: &[Settled],
) -> Result<Option<Vec<Option<u64>>>, NoMemory> {
    let mut all = vec![in alloc; None; nodes as usize]?;
    for entry in settled {
        match all.get_mut(entry.node.0.wrapping_sub(1) as usize) {
            Some(place) if place.is_none() => *place = Some(entry.seconds),
            _ => return Ok(None),
        }
    }
    Ok(Some(all))
}

/// The least seconds by way of a vertex that is in both rows.
pub fn least_meeting(up: &[Option<u64>], down: &[Option<u64>]) -> Option<u64> {
    let mut least = None;
    for (there, back) in up.iter().zip(down.iter()) {
        if let (Some(there), Some(back)) = (*there, *back) {
            let seconds = there.saturating_add(back);
            least = Some(match least {
                Some(held) if held <= seconds => held,
                _ => seconds,
            });
        }
    }
    least
}

/// Whether a walk comes to a vertex twice.
pub fn comes_twice(walk: &[NodeNo]) -> bool {
    for place in 0..walk.len() {
        for other in place + 1..walk.len() {
            if walk[place] == walk[other] {
                return true;
            }
        }
    }
    false
}
