// The places of stops: the vertices at which they stand.
ghost use Rattle.std.specs.Prelude.{◌≡◌, ◌+◌, ◌-◌, ◌<◌, ◌≤◌, ◌^◌, ℕ, All, IfOk, List, [], map, length, slice_index, slice_index_or};
ghost use Rattle.move_model.specs.declared.network.Stop.{Stop};
ghost use Rattle.move_model.specs.declared.network.Network.{Network};
ghost use Rattle.walk_core.specs.Core.{Contraction, Holds};
ghost use Rattle.stop_rows.specs.Rows.{ArePlaces};
ghost use Rattle.stop_rows.specs.Stored.{rows_of};
ghost use Rattle.stop_rows.specs.Places.{AreMarks, AreNumbers, AreAt, AreStopsAt};

use move_model::{NoMemory, NodeNo, Stop, StopNo};
use std::alloc::Global;

// Marks the vertices at which stops stand, from vertex 0 to the last.
fn marks_of(alloc: Global, last: u32, stops: &[Stop]) -> Result<Vec<bool>, NoMemory>
    requires { All (λ stop. stop.node.0 ≤ last) stops.now }
    ensures marks { IfOk result (λ marks. AreMarks stops.now marks.items) }
    ensures many { IfOk result (λ marks. length marks.items ≡ last + 1) }
{
    let mut marks = vec![in alloc; false; last as usize + 1]?;
    for stop in stops {
        marks[stop.node.0 as usize] = true;
    }
    Ok(marks)
}

// The vertices that have a place, and the place of each vertex that has one.
#[derive(Drop)]
struct Numbers {
    nodes: Vec<NodeNo>,
    at: Vec<u32>,
}

// Numbers the vertices that have a mark, by rising vertex.
fn number(alloc: Global, marks: &[bool]) -> Result<Numbers, NoMemory>
    requires { length marks.now ≤ 2 ^ 32 - 1 }
    ensures numbers { IfOk result (λ n. AreNumbers marks.now n.nodes.items n.at.items) }
    ensures few { IfOk result (λ n. length n.nodes.items ≤ length marks.now) }
    ensures many { IfOk result (λ n. length n.at.items ≡ length marks.now) }
{
    let mut nodes = Vec::new(alloc);
    let mut at = vec![in alloc; 0; marks.len()]?;
    for v in 0..marks.len() {
        if marks[v] {
            at[v] = nodes.len() as u32;
            nodes.push(NodeNo(v as u32))?;
        }
    }
    Ok(Numbers { nodes, at })
}

// The place of each stop, where `at` has the place of each vertex.
fn places_of(alloc: Global, stops: &[Stop], at: &[u32]) -> Result<Vec<u32>, NoMemory>
    requires { All (λ stop. stop.node.0 < length at.now) stops.now }
    ensures { IfOk result (λ places. AreAt stops.now at.now places.items) }
{
    let mut places = Vec::with_capacity(alloc, stops.len())?;
    for stop in stops {
        places.push_reserved(at[stop.node.0 as usize]);
    }
    Ok(places)
}

// The vertices at which stops stand, and the place of each stop among them.
#[derive(Drop)]
pub(crate) struct Sites {
    pub(crate) nodes: Vec<NodeNo>,
    pub(crate) places: Vec<u32>,
}

// The places of stops that stand at vertices up to the last.
pub(crate) fn sites_of(alloc: Global, last: u32, stops: &[Stop]) -> Result<Sites, NoMemory>
    requires ends { All (λ stop. stop.node.0 ≤ last) stops.now }
    requires few { last < 2 ^ 32 - 1 }
    ensures places { IfOk result (λ sites. (n : Network) (rows : List (List ℕ)) → stops.now ≡ n.stops → ArePlaces n (rows_of sites.nodes.items sites.places.items rows)) }
    ensures within { IfOk result (λ sites. All (λ p. p < length sites.nodes.items) sites.places.items) }
    ensures hold { IfOk result (λ sites. (core : Contraction) → All (λ stop. Holds core stop.node) stops.now → All (Holds core) sites.nodes.items) }
    ensures few { IfOk result (λ sites. length sites.nodes.items ≤ last + 1) }
    ensures one_each { IfOk result (λ sites. length sites.places.items ≡ length stops.now) }
{
    let marks = marks_of(alloc, last, stops)?;
    let Numbers { nodes, at } = number(alloc, marks.as_slice())?;
    let places = places_of(alloc, stops, at.as_slice())?;
    Ok(Sites { nodes, places })
}

// The stops of a place.
fn stops_of(alloc: Global, places: &[u32], place: u32) -> Result<Vec<StopNo>, NoMemory>
    requires { length places.now < 2 ^ 32 }
    ensures { IfOk result (λ row. AreStopsAt places.now place row.items) }
{
    let mut row = Vec::new(alloc);
    for x in 0..places.len() {
        if places[x] == place {
            row.push(StopNo(x as u32))?;
        }
    }
    Ok(row)
}

// The stops of each place. It looks at each stop for each place, as the rows of seconds take more than that.
pub(crate) fn all_stops(
    alloc: Global,
    places: &[u32],
    many: u32,
) -> Result<Vec<Vec<StopNo>>, NoMemory>
    requires { length places.now < 2 ^ 32 }
    ensures many { IfOk result (λ rows. length rows.items ≡ many) }
    ensures stops { IfOk result (λ rows. (p : ℕ) → p < many → AreStopsAt places.now p (slice_index_or (map (λ row. row.items) rows.items) p [])) }
{
    let mut rows = Vec::new(alloc);
    for place in 0..many {
        let row = stops_of(alloc, places, place)?;
        rows.push(row)?;
    }
    Ok(rows)
}
