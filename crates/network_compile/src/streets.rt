// The streets of a network, contracted.
ghost use Rattle.std.specs.Prelude.{◌≡◌, All, IfOk, map};
ghost use Rattle.move_model.specs.Check.{KeepsRules};
ghost use Rattle.move_model.specs.Network.{streets};
ghost use Rattle.walk_core.specs.Core.{Holds, IsContraction};
ghost use Rattle.network_compile.specs.Limits.{IsWithin};

use move_model::{Network, NoMemory, NodeNo, Stop};
use std::alloc::Global;
use street_graph::Graph;
use walk_core::{Core, contract};

// The vertices of stops.
fn nodes_of(alloc: Global, stops: &[Stop]) -> Result<Vec<NodeNo>, NoMemory>
    ensures { IfOk result (λ nodes. nodes.items ≡ map (λ stop. stop.node) stops.now) }
{
    stops.iter().map(|stop| stop.node).collect(alloc)
}

// A core that holds the vertices of the stops.
pub(crate) fn core_of(alloc: Global, network: &Network) -> Result<Core, NoMemory>
    requires rules { KeepsRules network.now }
    requires within { IsWithin network.now }
    ensures contraction { IfOk result (IsContraction (streets network.now)) }
    ensures kept { IfOk result (λ core. All (λ stop. Holds core stop.node) network.now.stops) }
{
    let graph = Graph::new(alloc, network.nodes, &network.arcs)?;
    let keep = nodes_of(alloc, network.stops.as_slice())?;
    let core = contract(alloc, &graph, keep.as_slice())?;
    Ok(core)
}
