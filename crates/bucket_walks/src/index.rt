// Lists of entries laid out for a search.
ghost use Rattle.std.specs.Prelude.{◌≡◌, ◌+◌, ◌<◌, ◌≤◌, All, IfOk, None, ℕ, length, slice_index_or};
ghost use Rattle.std.specs.List.Sorted.{IsNonDecreasing};
ghost use Rattle.walk_laws.specs.Sums.{longest};
ghost use Rattle.bucket_walks.specs.Starts.{AreStarts, nodes_of};
ghost use Rattle.bucket_walks.specs.Slim.{AreSmall};
ghost use Rattle.bucket_walks.specs.Scan.{Lowers, IsOver};
ghost use Rattle.bucket_walks.specs.Buckets.{AreBuckets};
ghost use Rattle.bucket_walks.specs.Index.{IsSlim, IsIndex, starts_in};

use crate::bucket::Bucket;
use crate::scan::{copy_twins, scan, scan_slim};
use crate::slim::{Slim, are_small, slims};
use crate::starts::starts;
use crate::twins::{kept, twins};
use move_model::{NoMemory, WalkRow};
use std::alloc::Global;
use walk_hierarchy::Settled;

// The entries of the stops that are their own twins, in half the room.
#[derive(Debug, Drop)]
pub(crate) struct SlimIndex {
    // Where the entries of each vertex begin.
    starts: Vec<u32>,
    entries: Vec<Slim>,
    twins: Vec<u32>,
}

#[derive(Debug, Drop)]
pub(crate) enum Index {
    Slim(SlimIndex),
    // Where the entries of each vertex begin, for a list with more seconds than half the room has.
    Wide(Vec<u32>),
}

// The vertices of entries.
fn vertices(alloc: Global, list: &[Bucket]) -> Result<Vec<u32>, NoMemory>
    ensures { IfOk result (λ vertices. vertices.items ≡ nodes_of list.now) }
{
    list.iter().map(|entry| entry.node.0).collect(alloc)
}

// Where the entries of each vertex begin.
fn starts_of(alloc: Global, nodes: u32, list: &[Bucket]) -> Result<Vec<u32>, NoMemory>
    requires rise { IsNonDecreasing (nodes_of list.now) }
    requires few { nodes ≤ 2000000 }
    ensures many { IfOk result (λ starts. length starts.items ≡ nodes + 2) }
    ensures first { IfOk result (λ starts. AreStarts starts.items (nodes_of list.now)) }
{
    if list.len() > u32::MAX as usize {
        return Err(NoMemory);
    }
    let vertices = vertices(alloc, list)?;
    starts(alloc, nodes, &vertices)
}

impl SlimIndex {
    fn new(alloc: Global, nodes: u32, stops: u32, list: &[Bucket]) -> Result<SlimIndex, NoMemory>
        requires rules { AreBuckets nodes stops list.now }
        requires small { AreSmall list.now }
        requires few_nodes { nodes ≤ 2000000 }
        requires few_stops { stops ≤ 200000 }
        ensures slim { IfOk result (IsSlim list.now stops) }
        ensures many { IfOk result (λ slim. length slim.starts.items ≡ nodes + 2) }
    {
        let twins = twins(alloc, stops, list)?;
        let kept = kept(alloc, list, &twins)?;
        let starts = starts_of(alloc, nodes, &kept)?;
        let entries = slims(alloc, &kept)?;
        Ok(SlimIndex {
            starts,
            entries,
            twins,
        })
    }
}

impl Index {
    pub(crate) fn new(
        alloc: Global,
        nodes: u32,
        stops: u32,
        list: &[Bucket],
    ) -> Result<Index, NoMemory>
        requires rules { AreBuckets nodes stops list.now }
        requires few_nodes { nodes ≤ 2000000 }
        requires few_stops { stops ≤ 200000 }
        ensures index { IfOk result (IsIndex list.now stops) }
        ensures many { IfOk result (λ index. length (starts_in index) ≡ nodes + 2) }
    {
        if are_small(list) {
            Ok(Index::Slim(SlimIndex::new(alloc, nodes, stops, list)?))
        } else {
            Ok(Index::Wide(starts_of(alloc, nodes, list)?))
        }
    }

    // Goes on by the entries of each vertex to which a search came.
    pub(crate) fn scan(&self, list: &[Bucket], settled: &[Settled], walks: &mut WalkRow)
        requires index { IsIndex list.now (length walks.old) self.now }
        requires stops { All (λ entry. entry.stop.0 < length walks.old) list.now }
        requires short { All (λ entry. entry.seconds ≤ longest) list.now }
        requires few_stops { length walks.old ≤ 200000 }
        requires exist { All (λ there. there.node.0 + 1 < length (starts_in self.now)) settled.now }
        requires few { All (λ there. there.seconds ≤ 4000000000000000000) settled.now }
        requires none { (p : ℕ) → slice_index_or walks.old p None ≡ None }
        ensures { Lowers walks.old walks.new (IsOver settled.now list.now) }
    {
        match self {
            Index::Slim(slim) => {
                scan_slim(&slim.entries, &slim.starts, settled, walks);
                copy_twins(&slim.twins, walks);
            }
            Index::Wide(starts) => scan(list, starts, settled, walks),
        }
    }
}
