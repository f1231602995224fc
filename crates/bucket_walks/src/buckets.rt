// Buckets.
ghost use Rattle.std.specs.Prelude.{◌≡◌, ◌+◌, ◌≤◌, ◌<◌, ◌^◌, All, IfOk, List, length};
ghost use Rattle.move_model.specs.declared.network.Stop.{Stop};
ghost use Rattle.move_model.specs.Streets.{Streets};
ghost use Rattle.walk_laws.specs.Sums.{IsShort};
ghost use Rattle.walk_hierarchy.specs.Hierarchy.{IsNode, IsUpSum, IsDownSum, AreSettled, GivesDistances};
ghost use Rattle.bucket_walks.specs.Buckets.{IsBuckets, AreBucketsOf, HoldsFirst, HoldsLast, HoldsDistancesFrom, HoldsDistancesTo};

use crate::bucket::{Bucket, BucketList};
use crate::gather::gathered;
use crate::index::Index;
use crate::scan::clear;
use move_model::{NoMemory, NodeNo, Stops, WalkRow};
use std::alloc::Global;
use std::marker::Model;
use std::sync::ledger::Ledger;
use steps::Steps;
use walk_hierarchy::{Hierarchy, Work, search_down, search_up};

/// Entries between the vertices of a hierarchy and stops.
#[derive(Debug, Drop)]
pub struct Buckets {
    to: BucketList,
    from: BucketList,
    // The entries laid out for a search.
    to_index: Index,
    from_index: Index,
    nodes: u32,
    stops: u32,
}

impl Model for Buckets {
    ghost use Rattle.bucket_walks.specs.Buckets.{Parts};
    ghost use Rattle.bucket_walks.specs.Stored.{IsStored};

    ghost Value = { Parts };

    ghost view = { λ buckets. record { nodes = buckets.nodes; stops = buckets.stops; to = buckets.to; from = buckets.from } };

    ghost invariant = { λ buckets. IsStored (record { nodes = buckets.nodes; stops = buckets.stops; to = buckets.to; from = buckets.from })
        buckets.to_index buckets.from_index };
}

impl Buckets {
    /// The buckets of a hierarchy: for each stop, one entry at each vertex from which arcs down lead there, and one at each
    /// to which arcs up lead from there, with the least sum of seconds. Left out are entries that no least walk needs: those
    /// with more seconds than the longest, and those of vertices from which it is shorter by an arc up, or to which it is
    /// shorter by an arc down, and so by the entry of another vertex.
    pub fn new(alloc: Global, hierarchy: &Hierarchy, stops: &Stops) -> Result<Buckets, NoMemory>
        requires stand { All (λ stop. IsNode hierarchy.now stop.node) stops.now }
        requires few { length stops.now ≤ 200000 }
        ensures entries { IfOk result (AreBucketsOf hierarchy.now stops.now) }
        ensures rules { IfOk result IsBuckets }
    {
        let (to, from) = gathered(alloc, hierarchy, stops.as_slice())?;
        Buckets::from_parts(alloc, hierarchy.nodes(), stops.len() as u32, to, from)
    }

    /// The buckets of two lists of entries, to stops and from stops, whatever hierarchy they belong to.
    pub fn from_parts(
        alloc: Global,
        nodes: u32,
        stops: u32,
        to: BucketList,
        from: BucketList,
    ) -> Result<Buckets, NoMemory>
        requires rules { IsBuckets (record { nodes = nodes; stops = stops; to = to; from = from }) }
        ensures { IfOk result (λ buckets. buckets ≡ record { nodes = nodes; stops = stops; to = to; from = from }) }
    {
        let to_index = Index::new(alloc, nodes, stops, to.as_slice())?;
        let from_index = Index::new(alloc, nodes, stops, from.as_slice())?;
        Ok(Buckets {
            to,
            from,
            to_index,
            from_index,
            nodes,
            stops,
        })
    }

    /// The number of vertices for which the buckets were made.
    pub fn nodes(&self) -> u32
        ensures value { result ≡ self.now.nodes }
        ensures rules { IsBuckets self.now }
    {
        self.nodes
    }

    /// The number of stops for which the buckets were made.
    pub fn stops(&self) -> u32
        ensures value { result ≡ self.now.stops }
        ensures rules { IsBuckets self.now }
    {
        self.stops
    }

    /// The entries to stops, by vertex and then by stop.
    pub fn to_stops(&self) -> &[Bucket]
        ensures value { result.now ≡ self.now.to }
        ensures rules { IsBuckets self.now }
    {
        self.to.as_slice()
    }

    /// The entries from stops, by vertex and then by stop.
    pub fn from_stops(&self) -> &[Bucket]
        ensures value { result.now ≡ self.now.from }
        ensures rules { IsBuckets self.now }
    {
        self.from.as_slice()
    }

    /// Leaves in the row, for each stop, the least sum of arcs up from a vertex and of an entry to the stop, or None where
    /// there is none. For buckets of this hierarchy, and streets whose distances it keeps, this is the distance. What the
    /// row held before is gone. The work has what the search up left.
    pub fn first_walks<L: Ledger>(
        &self,
        hierarchy: &Hierarchy,
        from: NodeNo,
        row: &mut WalkRow,
        work: &mut Work,
        searches: &mut Steps<L>,
    )
        requires exists { IsNode hierarchy.now from }
        requires same_nodes { self.now.nodes ≡ length hierarchy.now.ranks }
        requires one_each { length row.old ≡ self.now.stops }
        requires fits { work.old.nodes ≡ length hierarchy.now.ranks }
        ensures sums { HoldsFirst hierarchy.now self.now from row.new }
        ensures distances { (graph : Streets) (stops : List Stop) → AreBucketsOf hierarchy.now stops self.now
            → GivesDistances graph hierarchy.now → IsShort graph → HoldsDistancesFrom graph from stops row.new }
        ensures settled { AreSettled (IsUpSum hierarchy.now from.0) work.new.settled }
        ensures nodes { work.new.nodes ≡ work.old.nodes }
        ensures ticks { searches.new ≡ searches.old + 1 }
    {
        // The search goes by the rules of the hierarchy, which bound its sums.
        let _ = hierarchy.nodes();
        search_up(hierarchy, from, work, searches);
        clear(row, self.stops);
        self.to_index.scan(self.to.as_slice(), work.settled(), row);
    }

    /// Leaves in the row, for each stop, the least sum of an entry from the stop and of arcs down to a vertex, or None where
    /// there is none. For buckets of this hierarchy, and streets whose distances it keeps, this is the distance. What the
    /// row held before is gone. The work has what the search down left.
    pub fn last_walks<L: Ledger>(
        &self,
        hierarchy: &Hierarchy,
        to: NodeNo,
        row: &mut WalkRow,
        work: &mut Work,
        searches: &mut Steps<L>,
    )
        requires exists { IsNode hierarchy.now to }
        requires same_nodes { self.now.nodes ≡ length hierarchy.now.ranks }
        requires one_each { length row.old ≡ self.now.stops }
        requires fits { work.old.nodes ≡ length hierarchy.now.ranks }
        ensures sums { HoldsLast hierarchy.now self.now to row.new }
        ensures distances { (graph : Streets) (stops : List Stop) → AreBucketsOf hierarchy.now stops self.now
            → GivesDistances graph hierarchy.now → IsShort graph → HoldsDistancesTo graph stops to row.new }
        ensures settled { AreSettled (λ v m. IsDownSum hierarchy.now v to.0 m) work.new.settled }
        ensures nodes { work.new.nodes ≡ work.old.nodes }
        ensures ticks { searches.new ≡ searches.old + 1 }
    {
        let _ = hierarchy.nodes();
        search_down(hierarchy, to, work, searches);
        clear(row, self.stops);
        self.from_index
            .scan(self.from.as_slice(), work.settled(), row);
    }
}
