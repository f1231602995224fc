// Cores of small texts, by hand.
use crate::graphs::core_of;
use move_model::NodeNo;
use std::alloc::Global;
use std::test::Fail;
use walk_core::{Core, CoreArc};

#[derive(Clone, Copy)]
enum Side {
    Out,
    Up,
    Down,
}

// A vertex and the arcs on one side of it: their other ends, their seconds and their middles.
type ArcsRow = (Side, u32, &'static [(u32, u64, u32)]);

#[derive(Clone, Copy)]
struct Case {
    text: &'static [u8],
    keep: &'static [u32],
    nodes: u32,
    contracted: &'static [NodeNo],
    held: &'static [u32],
    others: &'static [u32],
    arcs: &'static [ArcsRow],
}

const CASES: [Case; 3] = [
    // all vertices are kept
    Case {
        text: b"p sp 4 4\na 2 3 240\na 3 2 240\na 1 4 7200\na 4 1 7200\n",
        keep: &[1, 2, 3, 4],
        nodes: 4,
        contracted: &[],
        held: &[1, 4],
        others: &[5, 0],
        arcs: &[
            (Side::Out, 2, &[(3, 240, 0)]),
            (Side::Out, 4, &[(1, 7200, 0)]),
            (Side::Out, 9, &[]),
            (Side::Up, 2, &[]),
        ],
    },
    // a vertex is contracted, of which the least of parallel arcs and no loop count
    Case {
        text: b"p sp 3 6\na 1 2 5\na 1 2 3\na 2 3 4\na 2 2 0\na 3 2 6\na 2 1 9\n",
        keep: &[1, 3],
        nodes: 3,
        contracted: &[NodeNo(2)],
        held: &[1, 3],
        others: &[2],
        arcs: &[
            (Side::Out, 1, &[(3, 7, 2)]),
            (Side::Out, 3, &[(1, 15, 2)]),
            (Side::Out, 2, &[]),
            (Side::Up, 2, &[(3, 4, 0), (1, 9, 0)]),
            (Side::Down, 2, &[(1, 3, 0), (3, 6, 0)]),
        ],
    },
    // no arc is added beside a shorter way
    Case {
        text: b"p sp 4 4\na 1 2 5\na 2 3 5\na 1 4 4\na 4 3 6\n",
        keep: &[1, 3, 4],
        nodes: 4,
        contracted: &[NodeNo(2)],
        held: &[1, 3, 4],
        others: &[2],
        arcs: &[(Side::Out, 1, &[(4, 4, 0)])],
    },
];

fn side_of(core: &Core, side: Side, node: NodeNo) -> &[CoreArc] {
    match side {
        Side::Out => core.out(node),
        Side::Up => core.up(node),
        Side::Down => core.down(node),
    }
}

fn are_arcs(arcs: &[CoreArc], want: &[(u32, u64, u32)]) -> bool {
    for (arc, (to, seconds, middle)) in arcs.iter().zip(want) {
        if arc.to.0 != *to || arc.seconds != *seconds || arc.middle.0 != *middle {
            return false;
        }
    }
    arcs.len() == want.len()
}

fn has_arcs(core: &Core, rows: &[ArcsRow]) -> bool {
    for (side, node, want) in rows {
        if !are_arcs(side_of(core, *side, NodeNo(*node)), want) {
            return false;
        }
    }
    true
}

// How many of the vertices are in the core.
fn count_held(core: &Core, nodes: &[u32]) -> usize {
    let mut count = 0usize;
    for node in nodes {
        if core.holds(NodeNo(*node)) {
            count = count.saturating_add(1);
        }
    }
    count
}

fn is_core(core: &Core, case: &Case) -> bool {
    core.nodes() == case.nodes
        && core.contracted() == case.contracted
        && count_held(core, case.held) == case.held.len()
        && count_held(core, case.others) == 0
        && has_arcs(core, case.arcs)
}

// Whether the text has the core of the case, or None where there is no core.
fn gives(alloc: Global, case: &Case) -> Option<bool> {
    let core = core_of(alloc, case.text, case.keep)?;
    Some(is_core(&core, case))
}

#[test]
fn contracts_what_is_not_kept(rt: HostRuntime) -> Result<(), Fail> {
    for (i, case) in CASES.iter().enumerate() {
        assert_eq!(rt; gives(rt.alloc(), case), Some(true), "case {i}");
    }
    Ok(())
}
