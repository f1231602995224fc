// Generated graphs: the hierarchy of each answers as plain search.
ghost use Rattle.std.specs.Prelude.{◌≡◌, ◌<◌};

use crate::compare::{search_difference, walk_difference};
use crate::difference::Difference;
use crate::generate::{graph_of, kept_of, network_of};
use crate::plain::Distances;
use crate::stops::stop_difference;
use move_model::{Network, NoMemory};
use std::alloc::Global;
use std::marker::Brand;
use std::sync::ledger::{Blank, Ledger};
use std::test::Fail;
use steps::Steps;
use street_graph::Graph;
use walk_core::contract;
use walk_order::{Hierarchy, order};

// How large the graph of a seed is: its vertices, and its pairs of ends.
fn size_of(seed: u64) -> (u32, u32) {
    let nodes = (seed % 37) as u32 + 1;
    let pairs = match seed % 3 {
        0 => nodes,
        1 => nodes.saturating_mul(2),
        _ => nodes.saturating_mul(4),
    };
    (nodes, pairs)
}

fn hierarchy_of(alloc: Global, graph: &Graph, seed: u64) -> Result<Hierarchy, NoMemory> {
    let kept = kept_of(alloc, graph, seed)?;
    let core = contract(alloc, graph, kept.as_slice())?;
    order(alloc, core)
}

// What a hierarchy answers otherwise than plain search, or None.
fn found_difference<L: Ledger>(
    alloc: Global,
    network: &Network,
    hierarchy: &Hierarchy,
    plain: &Distances,
    blank: Blank,
) -> Result<Option<Difference>, NoMemory>
    requires name { blank.name ≡ L.name }
    requires parts { blank.parts ≡ L.parts }
    requires some { 0 < blank.parts }
{
    let mut searches = Steps::<L>::new(blank);
    let arcs = network.arcs.as_slice();
    let walks = walk_difference(alloc, arcs, hierarchy, plain, &mut searches)?;
    if walks.is_some() {
        return Ok(walks);
    }
    let sums = search_difference(alloc, hierarchy, plain, &mut searches)?;
    if sums.is_some() {
        return Ok(sums);
    }
    stop_difference(alloc, hierarchy, &network.stops, plain, &mut searches)
}

fn plain_difference(
    alloc: Global,
    network: &Network,
    hierarchy: &Hierarchy,
) -> Result<Option<Difference>, NoMemory> {
    let plain = Distances::new(alloc, network)?;
    found_difference::<Brand>(alloc, network, hierarchy, &plain, Blank::new(1))
}

fn graph_difference(
    alloc: Global,
    graph: &Graph,
    seed: u64,
) -> Result<Option<Difference>, NoMemory> {
    let network = network_of(alloc, graph, seed)?;
    let hierarchy = hierarchy_of(alloc, graph, seed)?;
    plain_difference(alloc, &network, &hierarchy)
}

// The difference at the graph of a seed.
fn difference_of(alloc: Global, seed: u64) -> Result<Option<Difference>, NoMemory> {
    let (nodes, pairs) = size_of(seed);
    let Some(graph) = graph_of(alloc, seed, nodes, pairs)? else {
        return Ok(Some(Difference::Graph));
    };
    graph_difference(alloc, &graph, seed)
}

#[test]
fn answers_as_plain_search(rt: HostRuntime) -> Result<(), Fail> {
    for seed in 0..400u64 {
        let found = difference_of(rt.alloc(), seed)?;
        assert_eq!(rt; found, None, "with the seed {seed}");
    }
    Ok(())
}
