// Stops whose entries are equal but for the stop, as those of stops at one vertex are.
ghost use Rattle.std.specs.Prelude.{◌≡◌, ◌↔◌, ◌+◌, ◌<◌, ◌≤◌, All, Contains, IfOk, IsTrue, length};
ghost use Rattle.std.specs.List.Sorted.{IsNonDecreasingBy, IsPermutation};
ghost use Rattle.bucket_walks.specs.declared.bucket.Bucket.{Bucket};
ghost use Rattle.bucket_walks.specs.Starts.{AreStarts};
ghost use Rattle.bucket_walks.specs.Twins.{IsTwin, AreTwins, IsSame, AreSame, AreByStop, stops_of, kept_of};

use crate::bucket::Bucket;
use crate::starts::{row, starts};
use move_model::NoMemory;
use std::alloc::Global;
use std::collections::BTreeMap;

// Entries by stop, and where those of each stop begin.
#[derive(Debug, Drop)]
pub(crate) struct ByStop {
    starts: Vec<u32>,
    entries: Vec<Bucket>,
}

// The entries by stop, those of each stop in the order that they had.
fn sorted(alloc: Global, list: &[Bucket]) -> Result<Vec<Bucket>, NoMemory>
    ensures same { IfOk result (λ sorted. IsPermutation list.now sorted.items) }
    ensures rise { IfOk result (λ sorted. IsNonDecreasingBy (λ entry. entry.stop.0) sorted.items) }
{
    let mut sorted = Vec::from_slice(alloc, list)?;
    sorted.sort_by_key(|entry| entry.stop.0)?;
    Ok(sorted)
}

// The stops of entries.
fn stop_numbers(alloc: Global, entries: &[Bucket]) -> Result<Vec<u32>, NoMemory>
    ensures { IfOk result (λ numbers. numbers.items ≡ stops_of entries.now) }
{
    entries.iter().map(|entry| entry.stop.0).collect(alloc)
}

fn is_same(entry: &Bucket, other: &Bucket) -> bool
    ensures { IsTrue result → IsSame entry.now other.now }
{
    entry.node == other.node && entry.seconds == other.seconds
}

// Whether entries are equal one by one but for the stop.
fn are_same(entries: &[Bucket], others: &[Bucket]) -> bool
    ensures { IsTrue result → AreSame entries.now others.now }
{
    if entries.len() != others.len() {
        return false;
    }
    for place in 0..entries.len() {
        if !is_same(&entries[place], &others[place]) {
            return false;
        }
    }
    true
}

// A number that entries have in common where they are equal but for the stop, and others hardly ever.
fn signature(entries: &[Bucket]) -> u64 {
    let mut signature = 0u64;
    for entry in entries {
        signature = signature
            .wrapping_add(u64::from(entry.node.0))
            .wrapping_mul(6_364_136_223_846_793_005)
            .wrapping_add(entry.seconds)
            .wrapping_mul(6_364_136_223_846_793_005);
    }
    signature
}

impl ByStop {
    fn new(alloc: Global, stops: u32, list: &[Bucket]) -> Result<ByStop, NoMemory>
        requires few { stops ≤ 200000 }
        ensures { IfOk result (AreByStop list.now stops) }
    {
        let entries = sorted(alloc, list)?;
        if entries.len() > u32::MAX as usize {
            return Err(NoMemory);
        }
        let keys = stop_numbers(alloc, &entries)?;
        let starts = starts(alloc, stops, &keys)?;
        Ok(ByStop { starts, entries })
    }

    // The entries of a stop.
    fn row(&self, stop: u32) -> &[Bucket]
        requires starts { AreStarts self.now.starts.items (stops_of self.now.entries.items) }
        requires exists { stop + 1 < length self.now.starts.items }
        ensures { (entry : Bucket) → Contains result.now entry ↔ (Contains self.now.entries.items entry × (entry.stop.0 ≡ stop)) }
    {
        row(&self.entries, &self.starts, stop)
    }

    // Whether an earlier stop has the entries of a stop.
    fn is_twin(&self, stop: u32, earlier: u32) -> bool
        requires starts { AreStarts self.now.starts.items (stops_of self.now.entries.items) }
        requires exists { stop + 1 < length self.now.starts.items }
        ensures { IsTrue result → IsTwin self.now.entries.items stop earlier }
    {
        earlier < stop && are_same(self.row(stop), self.row(earlier))
    }

    // A stop with the entries of a stop: an earlier one where it has them, else the stop itself.
    fn twin(&self, stop: u32, earlier: Option<u32>) -> u32
        requires starts { AreStarts self.now.starts.items (stops_of self.now.entries.items) }
        requires exists { stop + 1 < length self.now.starts.items }
        ensures { IsTwin self.now.entries.items stop result }
    {
        match earlier {
            Some(earlier) => {
                if self.is_twin(stop, earlier) {
                    earlier
                } else {
                    stop
                }
            }
            None => stop,
        }
    }
}

// The twin of each stop: the last one before it that has its entries, or else the stop itself.
pub(crate) fn twins(alloc: Global, stops: u32, list: &[Bucket]) -> Result<Vec<u32>, NoMemory>
    requires few { stops ≤ 200000 }
    ensures { IfOk result (λ twins. AreTwins list.now stops twins.items) }
{
    let by_stop = ByStop::new(alloc, stops, list)?;
    let mut last = BTreeMap::new(alloc);
    let mut twins = Vec::with_capacity(alloc, stops as usize)?;
    for stop in 0..stops {
        let earlier = last.insert(signature(by_stop.row(stop)), stop)?;
        twins.push(by_stop.twin(stop, earlier))?;
    }
    Ok(twins)
}

// The entries of the stops that are their own twins, in their order.
pub(crate) fn kept(alloc: Global, list: &[Bucket], twins: &[u32]) -> Result<Vec<Bucket>, NoMemory>
    requires stops { All (λ entry. entry.stop.0 < length twins.now) list.now }
    ensures { IfOk result (λ kept. kept.items ≡ kept_of twins.now list.now) }
{
    let mut kept = Vec::new(alloc);
    for entry in list {
        if twins[entry.stop.0 as usize] == entry.stop.0 {
            kept.push(*entry)?;
        }
    }
    Ok(kept)
}
