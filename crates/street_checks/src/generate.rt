// Street graphs that look like chance, always the same for a seed.
ghost use Rattle.std.specs.Prelude.{◌≡◌, All, IfOk, OnOk};
ghost use Rattle.move_model.specs.Streets.{IsVertex};

use move_model::{Arcs, List, Network, NoMemory, NodeNo, Stop, Stops, Trips};
use std::alloc::Global;
use street_graph::{Graph, read_gr};

// Numbers of a linear congruential generator.
#[derive(Drop)]
pub struct Numbers {
    state: u64,
}

impl Numbers {
    pub fn new(seed: u64) -> Numbers {
        Numbers { state: seed }
    }

    fn next(&mut self) -> u32 {
        self.state = self
            .state
            .wrapping_mul(6_364_136_223_846_793_005)
            .wrapping_add(1_442_695_040_888_963_407);
        (self.state >> 33) as u32
    }

    // A number below a count, or 0 where the count is 0.
    pub fn below(&mut self, count: u32) -> u32 {
        let number = self.next();
        if count == 0 { 0 } else { number % count }
    }
}

// How the arcs of a graph lie.
#[derive(Clone, Copy, Debug)]
enum Layout {
    // Arcs one way between any two vertices.
    OneWay,
    // Arcs both ways between vertices of either half, so that no walk joins the halves.
    Halves,
    // A line both ways, with few arcs across it.
    Line,
    // A grid of five columns both ways, with parallel arcs.
    Grid,
}

fn layout_of(seed: u64) -> Layout {
    match seed % 4 {
        0 => Layout::OneWay,
        1 => Layout::Halves,
        2 => Layout::Line,
        _ => Layout::Grid,
    }
}

// The ends of an arc, from 1.
fn ends(numbers: &mut Numbers, layout: Layout, nodes: u32) -> (u32, u32) {
    let a = numbers.below(nodes);
    let b = match layout {
        Layout::OneWay => numbers.below(nodes),
        Layout::Halves => {
            let half = nodes / 2;
            let other = numbers.below(half);
            if a < half {
                other
            } else {
                other.saturating_add(half)
            }
        }
        Layout::Line => match numbers.below(8) {
            0 => numbers.below(nodes),
            _ => a.saturating_add(1),
        },
        Layout::Grid => match numbers.below(2) {
            0 => a.saturating_add(1),
            _ => a.saturating_add(5),
        },
    };
    let last = nodes.saturating_sub(1);
    (a.saturating_add(1), b.min(last).saturating_add(1))
}

// Mostly few seconds, so that many walks tie; sometimes none, and sometimes the most that an arc may have.
fn seconds(numbers: &mut Numbers) -> u32 {
    match numbers.below(16) {
        0 | 1 => 0,
        2 => 1_000_000,
        3 => numbers.below(1000),
        _ => numbers.below(9),
    }
}

fn is_both_ways(layout: Layout, numbers: &mut Numbers) -> bool {
    match layout {
        Layout::OneWay => numbers.below(4) == 0,
        _ => numbers.below(8) > 0,
    }
}

fn push_arc(lines: &mut String, from: u32, to: u32, seconds: u32) -> Result<(), NoMemory> {
    writeln!(lines, "a {from} {to} {seconds}")
}

// Puts an arc last, or one each way, and gives their number.
fn push_arcs(
    lines: &mut String,
    numbers: &mut Numbers,
    layout: Layout,
    nodes: u32,
) -> Result<u32, NoMemory> {
    let (from, to) = ends(numbers, layout, nodes);
    let there = seconds(numbers);
    push_arc(lines, from, to, there)?;
    if !is_both_ways(layout, numbers) {
        return Ok(1);
    }
    let back = match numbers.below(4) {
        0 => seconds(numbers),
        _ => there,
    };
    push_arc(lines, to, from, back)?;
    Ok(2)
}

// The lines of the arcs between so many pairs of vertices, and their number.
fn arcs_of(alloc: Global, seed: u64, nodes: u32, pairs: u32) -> Result<(String, u32), NoMemory> {
    let mut numbers = Numbers::new(seed);
    let mut lines = String::new(alloc);
    let mut count = 0u32;
    for _ in 0..pairs {
        let pushed = push_arcs(&mut lines, &mut numbers, layout_of(seed), nodes)?;
        count = count.saturating_add(pushed);
    }
    Ok((lines, count))
}

// The text of a graph with so many vertices, in the form of `.gr`.
fn text_of(alloc: Global, seed: u64, nodes: u32, pairs: u32) -> Result<String, NoMemory> {
    let (lines, count) = arcs_of(alloc, seed, nodes, pairs)?;
    format!(in alloc; "p sp {nodes} {count}\n{lines}")
}

/// The graph of a seed, or None where its text is refused.
pub fn graph_of(
    alloc: Global,
    seed: u64,
    nodes: u32,
    pairs: u32,
) -> Result<Option<Graph>, NoMemory> {
    let text = text_of(alloc, seed, nodes, pairs)?;
    let bytes = text.as_str().as_bytes();
    if bytes.len() > 100_000 {
        return Ok(None);
    }
    Ok(read_gr(alloc, bytes).ok())
}

// Puts the number last, if it is that of a vertex.
fn push_vertex(graph: &Graph, list: &mut Vec<NodeNo>, number: u32) -> Result<(), NoMemory>
    ensures { OnOk result (All (λ v. IsVertex graph.now v) list.old.items
        → All (λ v. IsVertex graph.now v) list.new.items) }
{
    if number < 1 || graph.nodes() < number {
        return Ok(());
    }
    list.push(NodeNo(number))?;
    Ok(())
}

/// Some vertices of a graph, to be kept in its core: all of them for a seed that 5 divides.
pub fn kept_of(alloc: Global, graph: &Graph, seed: u64) -> Result<Vec<NodeNo>, NoMemory>
    ensures { IfOk result (λ kept. All (λ v. IsVertex graph.now v) kept.items) }
{
    let mut numbers = Numbers::new(seed);
    let mut kept = Vec::new(alloc);
    for place in 0..graph.nodes() {
        if numbers.below(4) == 0 || seed % 5 == 0 {
            push_vertex(graph, &mut kept, place.saturating_add(1))?;
        }
    }
    Ok(kept)
}

// Stops at vertices of the graph, of which the first three stand at one vertex.
fn stops_of(alloc: Global, graph: &Graph, seed: u64) -> Result<Stops, NoMemory> {
    let mut numbers = Numbers::new(seed);
    let mut stops = Stops::new(alloc);
    let shared = numbers.below(graph.nodes()).saturating_add(1);
    for place in 0..9 {
        let own = numbers.below(graph.nodes()).saturating_add(1);
        stops.push(Stop {
            node: NodeNo(if place < 3 { shared } else { own }),
            name: List::new(alloc),
        })?;
    }
    Ok(stops)
}

/// The network of a graph, with stops and without trips.
pub fn network_of(alloc: Global, graph: &Graph, seed: u64) -> Result<Network, NoMemory> {
    let stops = stops_of(alloc, graph, seed)?;
    Ok(Network {
        nodes: graph.nodes(),
        arcs: Arcs::from_slice(alloc, graph.arcs())?,
        stops,
        trips: Trips::new(alloc),
        buffer: 0,
    })
}
