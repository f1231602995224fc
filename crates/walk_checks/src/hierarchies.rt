// Least sums, walks and settled vertices of small hierarchies, by hand.
ghost use Rattle.std.specs.Prelude.{◌≡◌, ◌<◌, length};
ghost use Rattle.walk_hierarchy.specs.Hierarchy.{IsNode};

use crate::samples::{line_of, pairs_of};
use move_model::{NoMemory, NodeNo};
use std::alloc::Global;
use std::marker::Brand;
use std::sync::ledger::{Blank, Ledger};
use std::test::Fail;
use steps::Steps;
use walk_hierarchy::{Hierarchy, Settled, Work, distance, search_down, search_up, timed_path};

#[derive(Clone, Copy, Debug)]
enum Sample {
    // Streets of 240 seconds between 2 and 3, and of 7200 between 1 and 4.
    Pairs,
    // Streets of 100 seconds from 1 to 2, of 140 between 2 and 3, and of 500 from 1 to 3, with an added arc from 1 to 3.
    Added,
    // The same streets without the added arc, so that the distance from 1 to 3 is lost.
    Long,
}

fn hierarchy_of(alloc: Global, sample: Sample) -> Result<Hierarchy, NoMemory> {
    match sample {
        Sample::Pairs => pairs_of(alloc),
        Sample::Added => line_of(alloc, 240, 2),
        Sample::Long => line_of(alloc, 500, 0),
    }
}

// A sample, two vertices, the least sum between them, and the vertices of a walk; no vertices stand for no walk.
type WalkRow = (Sample, u32, u32, Option<u64>, &'static [NodeNo]);

// A sample, a vertex, and the least sums up from it and down to it by vertex.
type SumsRow = (Sample, u32, &'static [Option<u64>], &'static [Option<u64>]);

const WALKS: [WalkRow; 8] = [
    (Sample::Pairs, 2, 3, Some(240), &[NodeNo(2), NodeNo(3)]),
    (Sample::Pairs, 1, 2, None, &[]),
    (Sample::Pairs, 1, 4, Some(7200), &[NodeNo(1), NodeNo(4)]),
    (Sample::Pairs, 4, 4, Some(0), &[NodeNo(4)]),
    (
        Sample::Added,
        1,
        3,
        Some(240),
        &[NodeNo(1), NodeNo(2), NodeNo(3)],
    ),
    (Sample::Added, 3, 1, None, &[]),
    (Sample::Long, 1, 3, Some(500), &[NodeNo(1), NodeNo(3)]),
    (Sample::Long, 1, 2, Some(100), &[NodeNo(1), NodeNo(2)]),
];

const SUMS: [SumsRow; 3] = [
    (
        Sample::Pairs,
        2,
        &[None, Some(0), Some(240), None],
        &[None, Some(0), Some(240), None],
    ),
    (
        Sample::Added,
        1,
        &[Some(0), None, Some(240)],
        &[Some(0), None, None],
    ),
    (
        Sample::Added,
        2,
        &[None, Some(0), Some(140)],
        &[Some(100), Some(0), Some(140)],
    ),
];

// The seconds of a vertex, or None where it isn't settled.
fn seconds_of(settled: &[Settled], node: u32) -> Option<u64> {
    for entry in settled {
        if entry.node.0 == node {
            return Some(entry.seconds);
        }
    }
    None
}

// Whether the settled vertices have these seconds, from vertex 1.
fn are_sums(settled: &[Settled], sums: &[Option<u64>]) -> bool {
    let mut node = 0u32;
    for sum in sums {
        node = node.saturating_add(1);
        if seconds_of(settled, node) != *sum {
            return false;
        }
    }
    true
}

fn has_sums<L: Ledger>(
    hierarchy: &Hierarchy,
    at: NodeNo,
    up: &[Option<u64>],
    down: &[Option<u64>],
    work: &mut Work,
    blank: Blank,
) -> bool
    requires name { blank.name ≡ L.name }
    requires parts { blank.parts ≡ L.parts }
    requires some { 0 < blank.parts }
    requires exists { IsNode hierarchy.now at }
    requires fits { work.old.nodes ≡ length hierarchy.now.ranks }
{
    let mut searches = Steps::<L>::new(blank);
    search_up(hierarchy, at, work, &mut searches);
    let rises = are_sums(work.settled(), up);
    search_down(hierarchy, at, work, &mut searches);
    rises && are_sums(work.settled(), down)
}

fn sums_in(alloc: Global, hierarchy: &Hierarchy, row: SumsRow) -> Result<bool, NoMemory> {
    let (_, at, up, down) = row;
    if at < 1 || hierarchy.nodes() < at {
        return Ok(false);
    }
    let mut work = Work::new(alloc, hierarchy)?;
    let right = has_sums::<Brand>(hierarchy, NodeNo(at), up, down, &mut work, Blank::new(1));
    Ok(right)
}

fn gives_sums(alloc: Global, row: SumsRow) -> Result<bool, NoMemory> {
    let hierarchy = hierarchy_of(alloc, row.0)?;
    sums_in(alloc, &hierarchy, row)
}

#[test]
fn settles_vertices(rt: HostRuntime) -> Result<(), Fail> {
    for row in SUMS {
        assert!(rt; gives_sums(rt.alloc(), row)?, "{row:?}");
    }
    Ok(())
}

// Whether these are the least sum and the walk, asked for behind another search, and whether they leave nothing settled.
fn has_walk<L: Ledger>(
    alloc: Global,
    hierarchy: &Hierarchy,
    row: WalkRow,
    work: &mut Work,
    blank: Blank,
) -> Result<bool, NoMemory>
    requires name { blank.name ≡ L.name }
    requires parts { blank.parts ≡ L.parts }
    requires some { 0 < blank.parts }
    requires from { IsNode hierarchy.now (record { 0 = row.1 }) }
    requires to { IsNode hierarchy.now (record { 0 = row.2 }) }
    requires fits { work.old.nodes ≡ length hierarchy.now.ranks }
{
    let (_, from, to, seconds, walk) = row;
    let (a, b) = (NodeNo(from), NodeNo(to));
    let mut searches = Steps::<L>::new(blank);
    search_up(hierarchy, a, work, &mut searches);
    let least = distance(hierarchy, a, b, work, &mut searches);
    let left = work.settled().len();
    let same = match timed_path(alloc, hierarchy, a, b, work, &mut searches)? {
        Some(found) => found.walk.as_slice() == walk && seconds == Some(found.seconds),
        None => walk.is_empty() && seconds.is_none(),
    };
    Ok(same && least == seconds && left == 0 && work.settled().is_empty())
}

fn walk_in(alloc: Global, hierarchy: &Hierarchy, row: WalkRow) -> Result<bool, NoMemory> {
    let nodes = hierarchy.nodes();
    if row.1 < 1 || nodes < row.1 || row.2 < 1 || nodes < row.2 {
        return Ok(false);
    }
    let mut work = Work::new(alloc, hierarchy)?;
    has_walk::<Brand>(alloc, hierarchy, row, &mut work, Blank::new(1))
}

fn gives_walk(alloc: Global, row: WalkRow) -> Result<bool, NoMemory> {
    let hierarchy = hierarchy_of(alloc, row.0)?;
    walk_in(alloc, &hierarchy, row)
}

#[test]
fn finds_walks(rt: HostRuntime) -> Result<(), Fail> {
    for row in WALKS {
        assert!(rt; gives_walk(rt.alloc(), row)?, "{row:?}");
    }
    Ok(())
}
