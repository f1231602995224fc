// Least sums of a search and of bucket entries, for each stop.
ghost use Rattle.std.specs.Prelude.{◌≡◌, ◌↔◌, ◌+◌, ◌<◌, ◌≤◌, ℕ, All, Contains, List, None, length, map, slice_index, slice_index_or, slice_set};
ghost use Rattle.walk_laws.specs.Sums.{longest};
ghost use Rattle.bucket_walks.specs.declared.bucket.Bucket.{Bucket};
ghost use Rattle.bucket_walks.specs.Slim.{slim_of};
ghost use Rattle.bucket_walks.specs.Scan.{Lowers, HasSmall, lesser_of, IsAt, IsBy, IsOver};
ghost use Rattle.bucket_walks.specs.Starts.{AreStarts, AreRows, nodes_of};
ghost use Rattle.bucket_walks.specs.Twins.{AreCopied};

use crate::bucket::Bucket;
use crate::slim::Slim;
use crate::starts::row;
use move_model::{NodeNo, StopNo, WalkRow};
use walk_hierarchy::Settled;

// Leaves no seconds.
pub(crate) fn clear(walks: &mut WalkRow, stops: u32)
    requires { stops ≡ length walks.old }
    ensures many { length walks.new ≡ length walks.old }
    ensures none { (p : ℕ) → slice_index_or walks.new p None ≡ None }
{
    for stop in 0..stops {
        walks.set(StopNo(stop), None);
    }
}

fn lesser(held: Option<u64>, seconds: u64) -> u64
    ensures { result ≡ lesser_of held seconds }
{
    match held {
        Some(held) => held.min(seconds),
        None => seconds,
    }
}

// Writes the seconds of a stop where it has more, or none.
#[inline]
fn lower(walks: &mut WalkRow, stop: StopNo, seconds: u64)
    requires exists { stop.0 < length walks.old }
    requires few { seconds ≤ 9000000000000000000 }
    ensures { Lowers walks.old walks.new (IsAt stop.0 seconds) }
{
    let least = lesser(walks.get(stop), seconds);
    walks.set(stop, Some(least));
}

// Goes on by the entries of a vertex that is some seconds away.
#[inline]
fn lower_by(entries: &[Bucket], seconds: u64, walks: &mut WalkRow)
    requires stops { All (λ entry. entry.stop.0 < length walks.old) entries.now }
    requires short { All (λ entry. entry.seconds ≤ longest) entries.now }
    requires few { seconds ≤ 4000000000000000000 }
    ensures { Lowers walks.old walks.new (IsBy entries.now seconds) }
{
    for entry in entries {
        lower(walks, entry.stop, seconds + entry.seconds);
    }
}

// The entries of a vertex.
#[inline]
fn entries_at<'a>(list: &'a [Bucket], starts: &[u32], node: NodeNo) -> &'a [Bucket]
    requires starts { AreStarts starts.now (nodes_of list.now) }
    requires exists { node.0 + 1 < length starts.now }
    ensures { (entry : Bucket) → Contains result.now entry ↔ (Contains list.now entry × (entry.node ≡ node)) }
{
    row(list, starts, node.0)
}

// Goes on by the entries of a vertex that is some seconds away, in half the room.
#[inline]
fn lower_by_slim(slims: &[Slim], seconds: u64, walks: &mut WalkRow)
    requires stops { All (λ slim. slim.stop.0 < length walks.old) slims.now }
    requires few { seconds ≤ 4000000000000000000 }
    ensures many { length walks.new ≡ length walks.old }
    ensures lowers { (entries : List Bucket) → slims.now ≡ map slim_of entries → Lowers walks.old walks.new (IsBy entries seconds) }
{
    for slim in slims {
        lower(walks, slim.stop, seconds + u64::from(slim.seconds));
    }
}

// Goes on by the entries of each vertex to which a search came.
pub(crate) fn scan(list: &[Bucket], starts: &[u32], settled: &[Settled], walks: &mut WalkRow)
    requires starts { AreStarts starts.now (nodes_of list.now) }
    requires stops { All (λ entry. entry.stop.0 < length walks.old) list.now }
    requires short { All (λ entry. entry.seconds ≤ longest) list.now }
    requires exist { All (λ there. there.node.0 + 1 < length starts.now) settled.now }
    requires few { All (λ there. there.seconds ≤ 4000000000000000000) settled.now }
    ensures { Lowers walks.old walks.new (IsOver settled.now list.now) }
{
    for there in settled {
        lower_by(entries_at(list, starts, there.node), there.seconds, walks);
    }
}

// Goes on by the entries of each vertex to which a search came, in half the room.
pub(crate) fn scan_slim(slims: &[Slim], starts: &[u32], settled: &[Settled], walks: &mut WalkRow)
    requires rows { AreRows starts.now (length slims.now) }
    requires stops { All (λ slim. slim.stop.0 < length walks.old) slims.now }
    requires exist { All (λ there. there.node.0 + 1 < length starts.now) settled.now }
    requires few { All (λ there. there.seconds ≤ 4000000000000000000) settled.now }
    ensures many { length walks.new ≡ length walks.old }
    ensures lowers { (list : List Bucket) → slims.now ≡ map slim_of list → AreStarts starts.now (nodes_of list)
        → Lowers walks.old walks.new (IsOver settled.now list) }
{
    for there in settled {
        lower_by_slim(row(slims, starts, there.node.0), there.seconds, walks);
    }
}

// Writes the seconds of one stop for another.
#[inline]
fn copy(walks: &mut WalkRow, from: u32, to: u32)
    requires from { from < length walks.old }
    requires to { to < length walks.old }
    requires small { HasSmall walks.old }
    ensures { walks.new ≡ slice_set walks.old to (slice_index_or walks.old from None) }
{
    let seconds = walks.get(StopNo(from));
    walks.set(StopNo(to), seconds);
}

// Writes the seconds of its twin for each stop.
pub(crate) fn copy_twins(twins: &[u32], walks: &mut WalkRow)
    requires one_each { length twins.now ≡ length walks.old }
    requires few { length twins.now ≤ 200000 }
    requires no_later { (q : ℕ) → q < length walks.old → slice_index twins.now q ≤ q }
    requires small { HasSmall walks.old }
    ensures { AreCopied twins.now walks.old walks.new }
{
    for stop in 0..twins.len() as u32 {
        copy(walks, twins[stop as usize], stop);
    }
}
