// The entries of all stops.
ghost use Rattle.std.specs.Prelude.{◌≡◌, ◌≢◌, ◌↔◌, ◌⊎◌, ◌+◌, ◌<◌, ◌≤◌, ◌*◌, ℕ, All, AllPairs, Contains, IfOk, IsTrue, OnOk, length};
ghost use Rattle.std.specs.List.Sorted.{IsNonDecreasingBy, IsPermutation};
ghost use Rattle.walk_laws.specs.Sums.{longest};
ghost use Rattle.walk_hierarchy.specs.Hierarchy.{IsNode, AreSettled};
ghost use Rattle.bucket_walks.specs.declared.bucket.Bucket.{Bucket};
ghost use Rattle.bucket_walks.specs.declared.bypasses.Side.TheVariants.{To, From};
ghost use Rattle.bucket_walks.specs.Starts.{AreStarts};
ghost use Rattle.bucket_walks.specs.Buckets.{AreBuckets};
ghost use Rattle.bucket_walks.specs.Gathered.{sums, heads_of, AreBypasses, IsUnmarked, AreMarked, HasOneEach, HasFew, IsShortBy, HasNoShort, IsDirect, IsKept, AreApart, IsEntryOf, AreEntries, key_of};

use crate::bucket::{Bucket, BucketList};
use crate::bypasses::{Bypass, Bypasses, Side};
use move_model::{List, NoMemory, NodeNo, Stop, StopNo};
use std::alloc::Global;
use std::marker::Brand;
use std::sync::ledger::{Blank, Ledger};
use steps::Steps;
use walk_hierarchy::{Hierarchy, Settled, Work, search_down, search_up};

// No entry has more seconds, and no distance.
const LONGEST: u64 = 2_000_000_000_000;

// Leaves the sums of arcs down to a vertex, or of arcs up from it.
fn search<L: Ledger>(
    side: Side,
    hierarchy: &Hierarchy,
    node: NodeNo,
    work: &mut Work,
    searches: &mut Steps<L>,
)
    requires exists { IsNode hierarchy.now node }
    requires fits { work.old.nodes ≡ length hierarchy.now.ranks }
    ensures settled { AreSettled (sums side hierarchy.now node.0) work.new.settled }
    ensures nodes { work.new.nodes ≡ work.old.nodes }
{
    match side {
        Side::To => search_down(hierarchy, node, work, searches),
        Side::From => search_up(hierarchy, node, work, searches),
    }
}

// Writes the seconds of each vertex to which a search came.
fn mark(settled: &[Settled], marks: &mut [Option<u64>])
    requires exist { All (λ there. there.node.0 < length marks.old) settled.now }
    requires one_each { HasOneEach settled.now }
    requires none { IsUnmarked marks.old }
    ensures { AreMarked settled.now marks.new }
{
    for there in settled {
        marks[there.node.0 as usize] = Some(there.seconds);
    }
}

// Leaves no seconds.
fn unmark(settled: &[Settled], marks: &mut [Option<u64>])
    requires exist { All (λ there. there.node.0 < length marks.old) settled.now }
    requires marked { AreMarked settled.now marks.old }
    ensures { IsUnmarked marks.new }
{
    for there in settled {
        marks[there.node.0 as usize] = None;
    }
}

// Whether by an arc it is fewer seconds.
fn is_short_by(arc: &Bypass, marks: &[Option<u64>], seconds: u64) -> bool
    requires exists { arc.now.over.0 < length marks.now }
    requires short { arc.now.seconds ≤ longest }
    requires few { HasFew marks.now }
    ensures { IsTrue result ↔ IsShortBy marks.now seconds arc.now }
{
    match marks[arc.over.0 as usize] {
        Some(there) => arc.seconds + there < seconds,
        None => false,
    }
}

// Whether by none of the arcs it is fewer seconds.
fn has_no_short(arcs: &[Bypass], marks: &[Option<u64>], seconds: u64) -> bool
    requires exist { All (λ arc. arc.over.0 < length marks.now) arcs.now }
    requires short { All (λ arc. arc.seconds ≤ longest) arcs.now }
    requires few { HasFew marks.now }
    ensures { IsTrue result ↔ HasNoShort arcs.now marks.now seconds }
{
    for arc in arcs {
        if is_short_by(arc, marks, seconds) {
            return false;
        }
    }
    true
}

// Whether a least walk may need the seconds of a vertex to which a search came.
fn is_direct(there: &Settled, bypasses: &Bypasses, marks: &[Option<u64>]) -> bool
    requires starts { AreStarts bypasses.now.starts.items (heads_of bypasses.now.arcs.items) }
    requires exists { there.now.node.0 + 1 < length bypasses.now.starts.items }
    requires over { All (λ arc. arc.over.0 < length marks.now) bypasses.now.arcs.items }
    requires short { All (λ arc. arc.seconds ≤ longest) bypasses.now.arcs.items }
    requires few { HasFew marks.now }
    ensures { IsTrue result ↔ IsDirect bypasses.now.arcs.items marks.now there.now }
{
    there.seconds <= LONGEST && has_no_short(bypasses.row(there.node), marks, there.seconds)
}

// Puts the entries of a stop last: those of the vertices to which its search came that no arc past them makes needless.
fn add_entries(
    stop: StopNo,
    settled: &[Settled],
    bypasses: &Bypasses,
    marks: &[Option<u64>],
    list: &mut Vec<Bucket>,
) -> Result<(), NoMemory>
    requires once { AllPairs (λ there other. there.node ≢ other.node) settled.now }
    requires starts { AreStarts bypasses.now.starts.items (heads_of bypasses.now.arcs.items) }
    requires exist { All (λ there. there.node.0 + 1 < length bypasses.now.starts.items) settled.now }
    requires over { All (λ arc. arc.over.0 < length marks.now) bypasses.now.arcs.items }
    requires short { All (λ arc. arc.seconds ≤ longest) bypasses.now.arcs.items }
    requires few { HasFew marks.now }
    requires apart { AreApart list.old.items }
    requires earlier { All (λ entry. entry.stop.0 < stop.0) list.old.items }
    ensures entries { OnOk result ((entry : Bucket) → Contains list.new.items entry
        ↔ (Contains list.old.items entry ⊎ IsKept stop settled.now bypasses.now.arcs.items marks.now entry)) }
    ensures apart { OnOk result (AreApart list.new.items) }
{
    for there in settled {
        if is_direct(there, bypasses, marks) {
            list.push(Bucket {
                node: there.node,
                stop,
                seconds: there.seconds,
            })?;
        }
    }
    Ok(())
}

// Searches from a stop, and puts its entries last.
fn add_stop<L: Ledger>(
    side: Side,
    hierarchy: &Hierarchy,
    bypasses: &Bypasses,
    stop: StopNo,
    node: NodeNo,
    work: &mut Work,
    searches: &mut Steps<L>,
    marks: &mut [Option<u64>],
    list: &mut Vec<Bucket>,
) -> Result<(), NoMemory>
    requires exists { IsNode hierarchy.now node }
    requires fits { work.old.nodes ≡ length hierarchy.now.ranks }
    requires bypasses { AreBypasses side hierarchy.now bypasses.now }
    requires places { length marks.old ≡ length hierarchy.now.ranks + 1 }
    requires none { IsUnmarked marks.old }
    requires apart { AreApart list.old.items }
    requires earlier { All (λ entry. entry.stop.0 < stop.0) list.old.items }
    ensures entries { OnOk result ((entry : Bucket) → Contains list.new.items entry
        ↔ (Contains list.old.items entry ⊎ IsEntryOf side hierarchy.now stop node.0 entry)) }
    ensures apart { OnOk result (AreApart list.new.items) }
    ensures none { OnOk result (IsUnmarked marks.new) }
    ensures nodes { work.new.nodes ≡ work.old.nodes }
{
    let _ = hierarchy.nodes();
    search(side, hierarchy, node, work, searches);
    mark(work.settled(), marks);
    add_entries(stop, work.settled(), bypasses, marks, list)?;
    unmark(work.settled(), marks);
    Ok(())
}

// The entries of all stops, by stop.
fn by_stop<L: Ledger>(
    alloc: Global,
    side: Side,
    hierarchy: &Hierarchy,
    stops: &[Stop],
    work: &mut Work,
    searches: &mut Steps<L>,
) -> Result<Vec<Bucket>, NoMemory>
    requires stand { All (λ stop. IsNode hierarchy.now stop.node) stops.now }
    requires few { length stops.now ≤ 200000 }
    requires fits { work.old.nodes ≡ length hierarchy.now.ranks }
    ensures entries { IfOk result (λ list. AreEntries side hierarchy.now stops.now list.items) }
    ensures apart { IfOk result (λ list. AreApart list.items) }
    ensures nodes { work.new.nodes ≡ work.old.nodes }
{
    let bypasses = Bypasses::new(alloc, side, hierarchy)?;
    let mut seconds = vec![in alloc; None; hierarchy.nodes() as usize + 1]?;
    let marks = seconds.as_mut_slice();
    let mut list = Vec::new(alloc);
    for (number, stop) in stops.iter().enumerate() {
        add_stop(
            side,
            hierarchy,
            &bypasses,
            StopNo(number as u32),
            stop.node,
            work,
            searches,
            marks,
            &mut list,
        )?;
    }
    Ok(list)
}

// Rises by vertex, and then by stop.
fn order_key(node: NodeNo, stop: StopNo) -> u64
    ensures { result ≡ node.0 * 4294967296 + stop.0 }
{
    u64::from(node.0) * 4_294_967_296 + u64::from(stop.0)
}

// Puts entries in the order of their vertices, and then of their stops.
fn sort_entries(list: &mut Vec<Bucket>)
    ensures same { IsPermutation list.old.items list.new.items }
    ensures rise { IsNonDecreasingBy key_of list.new.items }
{
    list.sort_unstable_by_key(|entry| order_key(entry.node, entry.stop));
}

// The entries of all stops, by vertex and then by stop.
fn entries<L: Ledger>(
    alloc: Global,
    side: Side,
    hierarchy: &Hierarchy,
    stops: &[Stop],
    work: &mut Work,
    searches: &mut Steps<L>,
) -> Result<BucketList, NoMemory>
    requires stand { All (λ stop. IsNode hierarchy.now stop.node) stops.now }
    requires few { length stops.now ≤ 200000 }
    requires fits { work.old.nodes ≡ length hierarchy.now.ranks }
    ensures entries { IfOk result (AreEntries side hierarchy.now stops.now) }
    ensures rules { IfOk result (AreBuckets (length hierarchy.now.ranks) (length stops.now)) }
    ensures nodes { work.new.nodes ≡ work.old.nodes }
{
    let _ = hierarchy.nodes();
    let mut list = by_stop(alloc, side, hierarchy, stops, work, searches)?;
    sort_entries(&mut list);
    list.shrink_to_fit();
    Ok(List::from_vec(list))
}

// The entries to stops and the entries from stops.
fn counted<L: Ledger>(
    alloc: Global,
    blank: Blank,
    hierarchy: &Hierarchy,
    stops: &[Stop],
) -> Result<(BucketList, BucketList), NoMemory>
    requires name { blank.name ≡ L.name }
    requires parts { blank.parts ≡ L.parts }
    requires some { 0 < blank.parts }
    requires stand { All (λ stop. IsNode hierarchy.now stop.node) stops.now }
    requires few { length stops.now ≤ 200000 }
    ensures to { IfOk result (λ lists. AreEntries To hierarchy.now stops.now lists.0) }
    ensures to_rules { IfOk result (λ lists. AreBuckets (length hierarchy.now.ranks) (length stops.now) lists.0) }
    ensures from { IfOk result (λ lists. AreEntries From hierarchy.now stops.now lists.1) }
    ensures from_rules { IfOk result (λ lists. AreBuckets (length hierarchy.now.ranks) (length stops.now) lists.1) }
{
    let mut searches = Steps::<L>::new(blank);
    let mut work = Work::new(alloc, hierarchy)?;
    let to = entries(alloc, Side::To, hierarchy, stops, &mut work, &mut searches)?;
    let from = entries(
        alloc,
        Side::From,
        hierarchy,
        stops,
        &mut work,
        &mut searches,
    )?;
    Ok((to, from))
}

// The entries to stops and the entries from stops, each by vertex and then by stop.
pub(crate) fn gathered(
    alloc: Global,
    hierarchy: &Hierarchy,
    stops: &[Stop],
) -> Result<(BucketList, BucketList), NoMemory>
    requires stand { All (λ stop. IsNode hierarchy.now stop.node) stops.now }
    requires few { length stops.now ≤ 200000 }
    ensures to { IfOk result (λ lists. AreEntries To hierarchy.now stops.now lists.0) }
    ensures to_rules { IfOk result (λ lists. AreBuckets (length hierarchy.now.ranks) (length stops.now) lists.0) }
    ensures from { IfOk result (λ lists. AreEntries From hierarchy.now stops.now lists.1) }
    ensures from_rules { IfOk result (λ lists. AreBuckets (length hierarchy.now.ranks) (length stops.now) lists.1) }
{
    counted::<Brand>(alloc, Blank::new(1), hierarchy, stops)
}
