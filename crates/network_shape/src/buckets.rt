// The rules of entries of buckets.
ghost use Rattle.std.specs.Prelude.{◌↔◌, IsTrue, All, length};
ghost use Rattle.std.specs.List.{AllAdjacentBelow};
ghost use Rattle.bucket_walks.specs.Buckets.{IsBucket, IsBefore, AreBuckets};

use bucket_walks::Bucket;

// No walk is longer.
const LONGEST: u64 = 2_000_000_000_000;

// Whether the entry is one of so many vertices and stops.
fn is_bucket(nodes: u32, stops: u32, entry: Bucket) -> bool
    ensures { IsTrue result ↔ IsBucket nodes stops entry }
{
    1 <= entry.node.0 && entry.node.0 <= nodes && entry.stop.0 < stops && entry.seconds <= LONGEST
}

// Whether one entry stands before another one.
fn is_before(entry: Bucket, other: Bucket) -> bool
    ensures { IsTrue result ↔ IsBefore entry other }
{
    entry.node.0 < other.node.0 || (entry.node.0 == other.node.0 && entry.stop.0 < other.stop.0)
}

// Whether each entry is one of so many vertices and stops.
fn each_is_bucket(nodes: u32, stops: u32, entries: &[Bucket]) -> bool
    ensures { IsTrue result ↔ All (IsBucket nodes stops) entries.now }
{
    for i in 0..entries.len() {
        if !is_bucket(nodes, stops, entries[i]) {
            return false;
        }
    }
    true
}

// Whether the entries stand in their order.
fn are_in_order(entries: &[Bucket]) -> bool
    ensures { IsTrue result ↔ AllAdjacentBelow IsBefore entries.now (length entries.now) }
{
    for i in 1..entries.len() {
        if !is_before(entries[i - 1], entries[i]) {
            return false;
        }
    }
    true
}

/// Whether entries keep the rules of buckets between so many vertices and stops.
pub fn are_buckets(nodes: u32, stops: u32, entries: &[Bucket]) -> bool
    ensures { IsTrue result ↔ AreBuckets nodes stops entries.now }
{
    each_is_bucket(nodes, stops, entries) && are_in_order(entries)
}
