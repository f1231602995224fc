// What a hierarchy answers, compared with plain distances.
ghost use Rattle.std.specs.Prelude.{◌≡◌, ◌<◌, ◌≤◌, length};
ghost use Rattle.walk_hierarchy.specs.Hierarchy.{IsNode};

use crate::difference::Difference;
use crate::plain::{Distances, by_vertex, comes_twice, least_meeting, walk_seconds};
use move_model::{Arc, NoMemory, NodeNo};
use std::alloc::Global;
use std::sync::ledger::Ledger;
use steps::Steps;
use walk_order::{Hierarchy, Work, distance, path, search_down, search_up};

// What is wrong about the vertices of a walk, or about no walk.
fn path_difference(
    arcs: &[Arc],
    walk: Option<&[NodeNo]>,
    a: NodeNo,
    b: NodeNo,
    want: Option<u64>,
) -> Option<Difference> {
    let Some(walk) = walk else {
        return match want {
            Some(_) => Some(Difference::Path(a, b)),
            None => None,
        };
    };
    let seconds = walk_seconds(arcs, walk, a, b);
    if seconds.is_none() || seconds != want {
        return Some(Difference::Path(a, b));
    }
    if comes_twice(walk) {
        return Some(Difference::Circle(a, b));
    }
    None
}

// Compares the distance and the walk between two vertices.
fn pair_difference<L: Ledger>(
    alloc: Global,
    arcs: &[Arc],
    hierarchy: &Hierarchy,
    plain: &Distances,
    a: NodeNo,
    b: NodeNo,
    work: &mut Work,
    searches: &mut Steps<L>,
) -> Result<Option<Difference>, NoMemory>
    requires a { IsNode hierarchy.now a }
    requires b { IsNode hierarchy.now b }
    requires fits { work.old.nodes ≡ length hierarchy.now.ranks }
    ensures { work.new.nodes ≡ work.old.nodes }
{
    let want = plain.get(a, b);
    if distance(hierarchy, a, b, work, searches) != want {
        return Ok(Some(Difference::Distance(a, b)));
    }
    let walk = path(alloc, hierarchy, a, b, work, searches)?;
    let found = match &walk {
        Some(walk) => path_difference(arcs, Some(walk.as_slice()), a, b, want),
        None => path_difference(arcs, None, a, b, want),
    };
    Ok(found)
}

// Compares the distances and the walks from a vertex.
fn row_difference<L: Ledger>(
    alloc: Global,
    arcs: &[Arc],
    hierarchy: &Hierarchy,
    plain: &Distances,
    a: NodeNo,
    work: &mut Work,
    searches: &mut Steps<L>,
) -> Result<Option<Difference>, NoMemory>
    requires a { IsNode hierarchy.now a }
    requires fits { work.old.nodes ≡ length hierarchy.now.ranks }
    ensures { work.new.nodes ≡ work.old.nodes }
{
    for place in 0..hierarchy.nodes() {
        let b = NodeNo(place + 1);
        let found = pair_difference(alloc, arcs, hierarchy, plain, a, b, work, searches)?;
        if found.is_some() {
            return Ok(found);
        }
    }
    Ok(None)
}

fn rows_difference<L: Ledger>(
    alloc: Global,
    arcs: &[Arc],
    hierarchy: &Hierarchy,
    plain: &Distances,
    work: &mut Work,
    searches: &mut Steps<L>,
) -> Result<Option<Difference>, NoMemory>
    requires { work.old.nodes ≡ length hierarchy.now.ranks }
{
    for place in 0..hierarchy.nodes() {
        let a = NodeNo(place + 1);
        let found = row_difference(alloc, arcs, hierarchy, plain, a, work, searches)?;
        if found.is_some() {
            return Ok(found);
        }
    }
    Ok(None)
}

/// The first two vertices between which the distance or the walk differs.
pub fn walk_difference<L: Ledger>(
    alloc: Global,
    arcs: &[Arc],
    hierarchy: &Hierarchy,
    plain: &Distances,
    searches: &mut Steps<L>,
) -> Result<Option<Difference>, NoMemory> {
    let mut work = Work::new(alloc, hierarchy)?;
    rows_difference(alloc, arcs, hierarchy, plain, &mut work, searches)
}

// The sums of all searches one way, by vertex.
type Sums = Vec<Vec<Option<u64>>>;

// The rank of a vertex.
fn rank(hierarchy: &Hierarchy, node: u32) -> Option<u32> {
    hierarchy
        .ranks()
        .get(node.wrapping_sub(1) as usize)
        .copied()
}

// Whether the sums begin with 0 at a vertex, and go to greater ranks in at least the seconds of the distances.
fn are_sums(
    hierarchy: &Hierarchy,
    plain: &Distances,
    at: NodeNo,
    sums: &[Option<u64>],
    is_up: bool,
) -> bool {
    let mut node = 0u32;
    for sum in sums {
        node = node.saturating_add(1);
        let Some(sum) = *sum else {
            if node == at.0 {
                return false;
            }
            continue;
        };
        let (from, to) = if is_up {
            (at, NodeNo(node))
        } else {
            (NodeNo(node), at)
        };
        let least = plain.get(from, to);
        let rises = node == at.0 || rank(hierarchy, at.0) < rank(hierarchy, node);
        let Some(least) = least else {
            return false;
        };
        if sum < least || !rises || (node == at.0 && sum != 0) {
            return false;
        }
    }
    true
}

// The vertex at which the sums one way are wrong.
fn wrong(at: NodeNo, is_up: bool) -> Difference {
    if is_up {
        Difference::Up(at)
    } else {
        Difference::Down(at)
    }
}

// The sums up from a vertex or down to it, or None where they are wrong.
fn sums_at<L: Ledger>(
    alloc: Global,
    hierarchy: &Hierarchy,
    plain: &Distances,
    at: NodeNo,
    is_up: bool,
    work: &mut Work,
    searches: &mut Steps<L>,
) -> Result<Option<Vec<Option<u64>>>, NoMemory>
    requires at { IsNode hierarchy.now at }
    requires fits { work.old.nodes ≡ length hierarchy.now.ranks }
    ensures { work.new.nodes ≡ work.old.nodes }
{
    if is_up {
        search_up(hierarchy, at, work, searches);
    } else {
        search_down(hierarchy, at, work, searches);
    }
    let sums = by_vertex(alloc, hierarchy.nodes(), work.settled())?;
    Ok(sums.filter(|sums| are_sums(hierarchy, plain, at, sums.as_slice(), is_up)))
}

// The sums up from each vertex or down to each, or the first vertex at which they are wrong.
fn all_sums<L: Ledger>(
    alloc: Global,
    hierarchy: &Hierarchy,
    plain: &Distances,
    is_up: bool,
    work: &mut Work,
    searches: &mut Steps<L>,
) -> Result<Result<Sums, Difference>, NoMemory>
    requires { work.old.nodes ≡ length hierarchy.now.ranks }
    ensures { work.new.nodes ≡ work.old.nodes }
{
    let mut all = Vec::new(alloc);
    for place in 0..hierarchy.nodes() {
        let at = NodeNo(place + 1);
        match sums_at(alloc, hierarchy, plain, at, is_up, work, searches)? {
            Some(sums) => all.push(sums)?,
            None => return Ok(Err(wrong(at, is_up))),
        }
    }
    Ok(Ok(all))
}

// The first two vertices between which the least meeting isn't the distance.
fn meeting_difference(plain: &Distances, up: &Sums, down: &Sums) -> Option<Difference> {
    let mut a = 0u32;
    for there in up {
        a = a.saturating_add(1);
        let mut b = 0u32;
        for back in down {
            b = b.saturating_add(1);
            let least = least_meeting(there.as_slice(), back.as_slice());
            if least != plain.get(NodeNo(a), NodeNo(b)) {
                return Some(Difference::Meeting(NodeNo(a), NodeNo(b)));
            }
        }
    }
    None
}

// The first place at which the searches down differ, or those up and down together.
fn down_difference<L: Ledger>(
    alloc: Global,
    hierarchy: &Hierarchy,
    plain: &Distances,
    up: &Sums,
    work: &mut Work,
    searches: &mut Steps<L>,
) -> Result<Option<Difference>, NoMemory>
    requires { work.old.nodes ≡ length hierarchy.now.ranks }
{
    Ok(
        match all_sums(alloc, hierarchy, plain, false, work, searches)? {
            Ok(down) => meeting_difference(plain, up, &down),
            Err(found) => Some(found),
        },
    )
}

// The first place at which the searches up and down differ.
fn sums_difference<L: Ledger>(
    alloc: Global,
    hierarchy: &Hierarchy,
    plain: &Distances,
    work: &mut Work,
    searches: &mut Steps<L>,
) -> Result<Option<Difference>, NoMemory>
    requires { work.old.nodes ≡ length hierarchy.now.ranks }
{
    match all_sums(alloc, hierarchy, plain, true, work, searches)? {
        Ok(up) => down_difference(alloc, hierarchy, plain, &up, work, searches),
        Err(found) => Ok(Some(found)),
    }
}

/// The first place at which the searches up and down differ.
pub fn search_difference<L: Ledger>(
    alloc: Global,
    hierarchy: &Hierarchy,
    plain: &Distances,
    searches: &mut Steps<L>,
) -> Result<Option<Difference>, NoMemory> {
    let mut work = Work::new(alloc, hierarchy)?;
    sums_difference(alloc, hierarchy, plain, &mut work, searches)
}
