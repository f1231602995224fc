// Small hierarchies that were worked by hand.
ghost use Rattle.std.specs.Prelude.{◌≡◌, ◌-◌, ◌<◌, ◌^◌, IfOk, length};
ghost use Rattle.move_model.specs.Network.{streets};
ghost use Rattle.walk_hierarchy.specs.Hierarchy.{IsHierarchy, IsOver};
ghost use Rattle.walk_checks.specs.Samples.{pairs, pairs_streets, line, line_streets};

use move_model::{Arc, Arcs, Network, NoMemory, NodeNo, Stops, Trips};
use std::alloc::Global;
use walk_hierarchy::{Hierarchy, Ranks, UpDown, UpDowns, from_parts};

pub fn street(from: u32, to: u32, seconds: u32) -> Arc
    ensures { result ≡ record { from = record { 0 = from }; to = record { 0 = to }; seconds = seconds } }
{
    Arc {
        from: NodeNo(from),
        to: NodeNo(to),
        seconds,
    }
}

fn arc(from: u32, to: u32, seconds: u64, middle: u32) -> UpDown
    ensures { result ≡ record { from = record { 0 = from }; to = record { 0 = to }; seconds = seconds; middle = record { 0 = middle } } }
{
    UpDown {
        from: NodeNo(from),
        to: NodeNo(to),
        seconds,
        middle: NodeNo(middle),
    }
}

// Streets without stops and trips.
fn network_of(alloc: Global, nodes: u32, arcs: &[Arc]) -> Result<Network, NoMemory>
    ensures nodes { IfOk result (λ network. network.nodes ≡ nodes) }
    ensures arcs { IfOk result (λ network. network.arcs ≡ arcs.now) }
{
    Ok(Network {
        nodes,
        arcs: Arcs::from_slice(alloc, arcs)?,
        stops: Stops::new(alloc),
        trips: Trips::new(alloc),
        buffer: 0,
    })
}

fn hierarchy_of(
    alloc: Global,
    network: &Network,
    ranks: &[u32],
    up: &[UpDown],
    down: &[UpDown],
) -> Result<Hierarchy, NoMemory>
    requires rules { IsHierarchy (record { ranks = ranks.now; up = up.now; down = down.now }) }
    requires over { IsOver (streets network.now) (record { ranks = ranks.now; up = up.now; down = down.now }) }
    requires few_up { length up.now < 2 ^ 32 - 1 }
    requires few_down { length down.now < 2 ^ 32 - 1 }
    ensures { IfOk result (λ hierarchy. hierarchy ≡ record { ranks = ranks.now; up = up.now; down = down.now }) }
{
    let ranks = Ranks::from_slice(alloc, ranks)?;
    let up = UpDowns::from_slice(alloc, up)?;
    let down = UpDowns::from_slice(alloc, down)?;
    from_parts(alloc, network, ranks, up, down)
}

/// The hierarchy of the pairs, in which each vertex has its number less one for a rank.
pub fn pairs_over(alloc: Global, network: &Network) -> Result<Hierarchy, NoMemory>
    requires { streets network.now ≡ pairs_streets }
    ensures { IfOk result (λ hierarchy. hierarchy ≡ pairs) }
{
    let up = [arc(1, 4, 7200, 0), arc(2, 3, 240, 0)];
    let down = [arc(3, 2, 240, 0), arc(4, 1, 7200, 0)];
    hierarchy_of(alloc, network, &[0, 1, 2, 3], &up, &down)
}

/// Streets of 240 seconds between 2 and 3, and of 7200 between 1 and 4.
pub fn pairs_of(alloc: Global) -> Result<Hierarchy, NoMemory>
    ensures { IfOk result (λ hierarchy. hierarchy ≡ pairs) }
{
    let streets = [
        street(2, 3, 240),
        street(3, 2, 240),
        street(1, 4, 7200),
        street(4, 1, 7200),
    ];
    let network = network_of(alloc, 4, &streets)?;
    pairs_over(alloc, &network)
}

/// Streets of 100 seconds from 1 to 2, of 140 between 2 and 3, and of 500 from 1 to 3, with an arc up from 1 to 3 of these
/// seconds and this middle.
pub fn line_of(alloc: Global, seconds: u64, middle: u32) -> Result<Hierarchy, NoMemory>
    requires rules { IsHierarchy (line seconds middle) }
    requires over { IsOver line_streets (line seconds middle) }
    ensures { IfOk result (λ hierarchy. hierarchy ≡ line seconds middle) }
{
    let streets = [
        street(1, 2, 100),
        street(2, 3, 140),
        street(3, 2, 140),
        street(1, 3, 500),
    ];
    let up = [arc(1, 3, seconds, middle), arc(2, 3, 140, 0)];
    let down = [arc(1, 2, 100, 0), arc(3, 2, 140, 0)];
    let network = network_of(alloc, 3, &streets)?;
    hierarchy_of(alloc, &network, &[1, 0, 2], &up, &down)
}
