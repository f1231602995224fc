// Hierarchies of small texts, with distances and walks that were worked by hand.
ghost use Rattle.std.specs.Prelude.{◌≡◌, ◌<◌, length};

use crate::graphs::core_of;
use move_model::{NoMemory, NodeNo};
use std::alloc::Global;
use std::marker::Brand;
use std::sync::ledger::{Blank, Ledger};
use std::test::Fail;
use steps::Steps;
use walk_order::{Hierarchy, Work, distance, order, path};

// Two vertices, the distance between them, and the vertices of a shortest walk; no vertices stand for no walk.
type WalkRow = (u32, u32, Option<u64>, &'static [NodeNo]);

#[derive(Clone, Copy)]
struct Case {
    text: &'static [u8],
    keep: &'static [u32],
    nodes: u32,
    // The hierarchy has more arcs.
    streets: usize,
    walks: &'static [WalkRow],
}

const CASES: [Case; 2] = [
    // two islands
    Case {
        text: b"p sp 4 4\na 2 3 240\na 3 2 240\na 1 4 7200\na 4 1 7200\n",
        keep: &[1, 2, 3, 4],
        nodes: 4,
        streets: 3,
        walks: &[
            (2, 3, Some(240), &[NodeNo(2), NodeNo(3)]),
            (1, 2, None, &[]),
            (1, 4, Some(7200), &[NodeNo(1), NodeNo(4)]),
            (3, 3, Some(0), &[NodeNo(3)]),
        ],
    },
    // a circle, in which arcs are added
    Case {
        text: b"p sp 6 8\na 1 2 1\na 2 3 2\na 3 4 3\na 4 5 4\na 5 6 5\na 6 1 6\na 1 6 90\na 2 2 0\n",
        keep: &[1, 6],
        nodes: 6,
        streets: 6,
        walks: &[
            (
                1,
                6,
                Some(15),
                &[
                    NodeNo(1),
                    NodeNo(2),
                    NodeNo(3),
                    NodeNo(4),
                    NodeNo(5),
                    NodeNo(6),
                ],
            ),
            (6, 3, Some(9), &[NodeNo(6), NodeNo(1), NodeNo(2), NodeNo(3)]),
        ],
    },
];

fn hierarchy_of(alloc: Global, case: &Case) -> Option<Hierarchy> {
    let core = core_of(alloc, case.text, case.keep)?;
    order(alloc, core).ok()
}

fn walks<L: Ledger>(
    alloc: Global,
    hierarchy: &Hierarchy,
    row: WalkRow,
    work: &mut Work,
    blank: Blank,
) -> Result<bool, NoMemory>
    requires name { blank.name ≡ L.name }
    requires parts { blank.parts ≡ L.parts }
    requires some { 0 < blank.parts }
    requires fits { work.old.nodes ≡ length hierarchy.now.ranks }
    ensures { work.new.nodes ≡ work.old.nodes }
{
    let (from, to, seconds, walk) = row;
    let nodes = hierarchy.nodes();
    if from < 1 || nodes < from || to < 1 || nodes < to {
        return Ok(false);
    }
    let (a, b) = (NodeNo(from), NodeNo(to));
    let mut searches = Steps::<L>::new(blank);
    let least = distance(hierarchy, a, b, work, &mut searches);
    let same = match path(alloc, hierarchy, a, b, work, &mut searches)? {
        Some(nodes) => nodes.as_slice() == walk,
        None => walk.is_empty(),
    };
    Ok(least == seconds && same)
}

// How many of the walks the hierarchy gives.
fn count_given(alloc: Global, hierarchy: &Hierarchy, rows: &[WalkRow]) -> Result<usize, NoMemory> {
    let mut work = Work::new(alloc, hierarchy)?;
    let mut count = 0usize;
    for row in rows {
        if walks::<Brand>(alloc, hierarchy, *row, &mut work, Blank::new(1))? {
            count = count.saturating_add(1);
        }
    }
    Ok(count)
}

// How many of the walks of a case its hierarchy gives, or None where it has other vertices or too few arcs.
fn count_walks(alloc: Global, case: &Case) -> Result<Option<usize>, NoMemory> {
    let Some(hierarchy) = hierarchy_of(alloc, case) else {
        return Ok(None);
    };
    let arcs = hierarchy
        .up_arcs()
        .len()
        .saturating_add(hierarchy.down_arcs().len());
    if hierarchy.nodes() != case.nodes || arcs <= case.streets {
        return Ok(None);
    }
    Ok(Some(count_given(alloc, &hierarchy, case.walks)?))
}

#[test]
fn keeps_distances_and_unfolds_added_arcs(rt: HostRuntime) -> Result<(), Fail> {
    for (i, case) in CASES.iter().enumerate() {
        let count = count_walks(rt.alloc(), case)?;
        assert_eq!(rt; count, Some(case.walks.len()), "case {i}");
    }
    Ok(())
}
