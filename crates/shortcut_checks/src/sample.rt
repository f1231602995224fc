// Small networks without trips.
ghost use Rattle.std.specs.Prelude.{All, IfOk, IfSome, IsTrue};
ghost use Rattle.move_model.specs.Streets.{IsVertex};
ghost use Rattle.move_model.specs.Network.{streets};
ghost use Rattle.move_model.specs.Check.{KeepsRules};
ghost use Rattle.walk_core.specs.Core.{Holds, IsContraction};

use move_model::{Arc, List, Network, NoMemory, NodeNo, Stop};
use std::alloc::Global;
use street_graph::Graph;
use walk_core::{Core, contract};

/// A network of these vertices and arcs, with stops at these vertices.
pub fn network_of(
    alloc: Global,
    nodes: u32,
    arcs: &[(u32, u32, u32)],
    stops: &[u32],
) -> Result<Network, NoMemory> {
    let mut network = Network {
        nodes,
        arcs: List::new(alloc),
        stops: List::new(alloc),
        trips: List::new(alloc),
        buffer: 0,
    };
    for arc in arcs {
        network.arcs.push(Arc {
            from: NodeNo(arc.0),
            to: NodeNo(arc.1),
            seconds: arc.2,
        })?;
    }
    for node in stops {
        network.stops.push(Stop {
            node: NodeNo(*node),
            name: List::new(alloc),
        })?;
    }
    Ok(network)
}

// The vertices of stops.
fn vertices(alloc: Global, network: &Network) -> Result<Vec<NodeNo>, NoMemory>
    requires { All (λ stop. IsVertex (streets network.now) stop.node) network.now.stops }
    ensures { IfOk result (λ list. All (IsVertex (streets network.now)) list.items) }
{
    let mut list = Vec::new(alloc);
    for stop in network.stops.as_slice() {
        list.push(stop.node)?;
    }
    Ok(list)
}

// Whether the core holds the vertex of each stop.
fn holds_stops(core: &Core, stops: &[Stop]) -> bool
    ensures { IsTrue result → All (λ stop. Holds core.now stop.node) stops.now }
{
    for i in 0..stops.len() {
        if !core.holds(stops[i].node) {
            return false;
        }
    }
    true
}

/// The core of a network that keeps its rules, with the vertices of its stops.
pub fn core_of(alloc: Global, network: &Network) -> Result<Option<Core>, NoMemory>
    requires { KeepsRules network.now }
    ensures contraction { IfOk result (λ core. IfSome core (λ core. IsContraction (streets network.now) core)) }
    ensures kept { IfOk result (λ core. IfSome core (λ core. All (λ stop. Holds core stop.node) network.now.stops)) }
{
    if network.arcs.len() > 100 {
        return Ok(None);
    }
    let graph = Graph::new(alloc, network.nodes, &network.arcs)?;
    let keep = vertices(alloc, network)?;
    let core = contract(alloc, &graph, keep.as_slice())?;
    if !holds_stops(&core, network.stops.as_slice()) {
        return Ok(None);
    }
    Ok(Some(core))
}
