// Walks along arcs of the street graph.
ghost use Rattle.std.specs.Prelude.{◌↔◌, ◌<◌, ◌^◌, IsTrue, IfSome};
ghost use Rattle.move_model.specs.Streets.{HasLeastArc, HasWalkSeconds};
ghost use Rattle.move_model.specs.Network.{streets};
ghost use Rattle.pareto_laws.specs.Leg.{LeadsOn};

use move_model::{Arc, Network, NodeNo};

// The seconds of the least arc from one vertex to another.
fn least_arc(arcs: &[Arc], from: NodeNo, to: NodeNo) -> Option<u32>
    ensures { HasLeastArc arcs.now from to result }
{
    let mut least: Option<u32> = None;
    for arc in arcs {
        if arc.from.0 == from.0 && arc.to.0 == to.0 {
            least = match least {
                Some(seconds) => Some(seconds.min(arc.seconds)),
                None => Some(arc.seconds),
            };
        }
    }
    least
}

/// The seconds of the vertices as a walk between two vertices, or None where they are no such walk.
pub fn walk_seconds(network: &Network, from: NodeNo, walk: &[NodeNo], to: NodeNo) -> Option<u128>
    ensures seconds { HasWalkSeconds (streets network.now) from walk.now to result }
    ensures small { IfSome result (λ seconds. seconds < 2 ^ 100) }
{
    if walk.is_empty() {
        return None;
    }
    let mut at = walk.len() - 1;
    if walk[at].0 != to.0 || to.0 == 0 || to.0 > network.nodes {
        return None;
    }
    let mut sum: u128 = 0;
    while at > 0 {
        match least_arc(network.arcs.as_slice(), walk[at - 1], walk[at]) {
            Some(seconds) => {
                sum += u128::from(seconds);
                at -= 1;
            }
            None => return None,
        }
    }
    if walk[0].0 == from.0 { Some(sum) } else { None }
}

/// Whether the vertices are a walk from a vertex to somewhere.
pub fn leads_on(network: &Network, from: NodeNo, walk: &[NodeNo]) -> bool
    ensures { IsTrue result ↔ LeadsOn network.now from walk.now }
{
    match walk.last() {
        Some(to) => walk_seconds(network, from, walk, *to).is_some(),
        None => false,
    }
}
