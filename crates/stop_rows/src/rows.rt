// The table.
ghost use Rattle.std.specs.Prelude.{◌≡◌, ◌↔◌, ◌<◌, ◌-◌, ◌^◌, ℕ, [], map, All, Contains, IfOk, Some, length, slice_get, slice_index, slice_index_or};
ghost use Rattle.std.specs.List.{AllAdjacentBelow};
ghost use Rattle.move_model.specs.Check.{KeepsRules};
ghost use Rattle.move_model.specs.Network.{streets};
ghost use Rattle.move_model.specs.Streets.{Streets};
ghost use Rattle.move_model.specs.declared.network.NodeNo.{NodeNo};
ghost use Rattle.move_model.specs.declared.network.StopNo.{StopNo};
ghost use Rattle.walk_core.specs.Core.{Holds, IsContraction};
ghost use Rattle.stop_rows.specs.Rows.{HoldsRow, HoldsRows, entry, place_at};

use crate::places::{Sites, all_stops, sites_of};
use crate::row::row_from;
use core_search::{Labels, SpreadWork};
use move_model::{Network, NoMemory, NodeNo, StopNo};
use std::alloc::Global;
use std::marker::Model;
use walk_core::Core;

/// The places of a network, which are the vertices at which stops stand, by rising vertex, and the seconds from each place
/// to each.
#[derive(Drop)]
pub struct StopRows {
    nodes: Vec<NodeNo>,
    places: Vec<u32>,
    // The stops of each place.
    stops: Vec<Vec<StopNo>>,
    // A row for each place.
    seconds: Vec<Vec<u32>>,
}

impl Model for StopRows {
    ghost use Rattle.std.specs.Prelude.{map};
    ghost use Rattle.stop_rows.specs.Rows.{Rows};
    ghost use Rattle.stop_rows.specs.Stored.{rows_of, IsStored};

    ghost Value = { Rows };

    ghost view = { λ rows. rows_of rows.nodes.items rows.places.items (map (λ row. row.items) rows.seconds.items) };

    ghost invariant = { λ rows. IsStored rows.nodes.items rows.places.items (map (λ row. row.items) rows.stops.items) (map (λ row. row.items) rows.seconds.items) };
}

// The rows of all places.
fn all_rows(alloc: Global, core: &Core, nodes: &[NodeNo]) -> Result<Vec<Vec<u32>>, NoMemory>
    requires { All (Holds core.now) nodes.now }
    ensures many { IfOk result (λ rows. length rows.items ≡ length nodes.now) }
    ensures wide { IfOk result (λ rows. All (λ row. length row.items ≡ length nodes.now) rows.items) }
    ensures rows { (graph : Streets) → IsContraction graph core.now → IfOk result (λ rows. (p : ℕ) (a : NodeNo) → slice_get nodes.now p ≡ Some a
        → HoldsRow graph a nodes.now (slice_index_or (map (λ row. row.items) rows.items) p [])) }
{
    let mut labels = Labels::new(alloc, core.nodes())?;
    let mut work = SpreadWork::new(alloc, core.nodes())?;
    let mut rows = Vec::with_capacity(alloc, nodes.len())?;
    for node in nodes {
        let row = row_from(alloc, core, *node, nodes, &mut labels, &mut work)?;
        rows.push_reserved(row);
    }
    Ok(rows)
}

impl StopRows {
    /// The table of a network, by one search over its core from each place.
    pub fn new(alloc: Global, network: &Network, core: &Core) -> Result<StopRows, NoMemory>
        requires rules { KeepsRules network.now }
        requires few { length network.now.stops < 2 ^ 32 - 1 }
        requires contraction { IsContraction (streets network.now) core.now }
        requires kept { All (λ stop. Holds core.now stop.node) network.now.stops }
        ensures { IfOk result (HoldsRows network.now) }
    {
        let sites = sites_of(alloc, network.nodes, network.stops.as_slice())?;
        let Sites { nodes, places } = sites;
        let stops = all_stops(alloc, places.as_slice(), nodes.len() as u32)?;
        let seconds = all_rows(alloc, core, nodes.as_slice())?;
        Ok(StopRows {
            nodes,
            places,
            stops,
            seconds,
        })
    }

    /// How many places there are.
    pub fn places(&self) -> u32
        ensures { result ≡ length self.now.nodes }
    {
        self.nodes.len() as u32
    }

    /// How many stops there are.
    pub fn stops(&self) -> u32
        ensures { result ≡ length self.now.places }
    {
        self.places.len() as u32
    }

    /// The vertex of a place.
    #[inline]
    pub fn node(&self, place: u32) -> NodeNo
        requires { place < length self.now.nodes }
        ensures { slice_get self.now.nodes place ≡ Some result }
    {
        self.nodes[place as usize]
    }

    /// The place of a stop.
    #[inline]
    pub fn place(&self, stop: StopNo) -> u32
        requires { stop.0 < length self.now.places }
        ensures value { result ≡ place_at self.now stop }
        ensures exists { result < length self.now.nodes }
    {
        self.places[stop.0 as usize]
    }

    /// The stops of a place, by rising number.
    #[inline]
    pub fn stops_at(&self, place: u32) -> &[StopNo]
        requires { place < length self.now.nodes }
        ensures exact { (x : StopNo) → Contains result.now x ↔ ((x.0 < length self.now.places) × (place_at self.now x ≡ place)) }
        ensures rising { AllAdjacentBelow (λ x y. x.0 < y.0) result.now (length result.now) }
    {
        self.stops[place as usize].as_slice()
    }

    /// The seconds from a place to each place.
    #[inline]
    pub fn row(&self, place: u32) -> &[u32]
        requires { place < length self.now.nodes }
        ensures one_each { length result.now ≡ length self.now.nodes }
        ensures entries { (q : ℕ) → q < length self.now.nodes → slice_index result.now q ≡ entry self.now place q }
    {
        self.seconds[place as usize].as_slice()
    }
}
