// One row of the table.
ghost use Rattle.std.specs.Prelude.{◌≡◌, ◌+◌, ◌≤◌, All, IfOk, Option, length, slice_get};
ghost use Rattle.move_model.specs.Streets.{Streets};
ghost use Rattle.walk_core.specs.Core.{Holds, IsContraction};
ghost use Rattle.core_search.specs.Waiting.{HasNone};
ghost use Rattle.stop_rows.specs.Rows.{HoldsRow};
ghost use Rattle.stop_rows.specs.Row.{entry_of, start};

use core_search::{Label, Labels, Rest, SpreadWork, spread};
use move_model::{NoMemory, NodeNo};
use std::alloc::Global;
use walk_core::Core;

/// Stands for no distance, or for one of more than 3,599,999 seconds: no ride departs later, so no walk that is longer
/// leads to one.
pub const NEVER: u32 = u32::MAX;

// The last second at which a ride can depart.
const LAST_SECOND: u64 = 3_599_999;

// The entry of a label.
#[inline]
fn entry_from(label: Option<Label>) -> u32
    ensures { result ≡ entry_of label }
{
    match label {
        Some(label) => {
            if label.seconds <= LAST_SECOND {
                label.seconds as u32
            } else {
                NEVER
            }
        }
        None => NEVER,
    }
}

// The label of the vertex where a search begins.
fn first() -> Label
    ensures { result ≡ start }
{
    let rest = Rest {
        a: 0,
        b: 0,
        trip: 0,
        ready: 0,
        y: 0,
        a1: 0,
        c: 0,
    };
    Label { seconds: 0, rest }
}

// The seconds from a vertex to the vertices of all places.
pub(crate) fn row_from(
    alloc: Global,
    core: &Core,
    from: NodeNo,
    nodes: &[NodeNo],
    labels: &mut Labels,
    work: &mut SpreadWork,
) -> Result<Vec<u32>, NoMemory>
    requires from { Holds core.now from }
    requires held { All (Holds core.now) nodes.now }
    requires none { HasNone labels.old }
    requires fits { length labels.old ≡ core.now.nodes + 1 }
    requires work_fits { work.old ≡ core.now.nodes }
    ensures many { IfOk result (λ row. length row.items ≡ length nodes.now) }
    ensures row { (graph : Streets) → IsContraction graph core.now → IfOk result (λ row. HoldsRow graph from nodes.now row.items) }
    ensures none { HasNone labels.new }
    ensures fits { length labels.new ≡ length labels.old }
    ensures work { work.new ≡ work.old }
{
    let mut row = Vec::with_capacity(alloc, nodes.len())?;
    labels.set(from, Some(first()));
    spread(core, labels, work);
    for node in nodes {
        row.push_reserved(entry_from(labels.get(*node)));
    }
    labels.clear();
    Ok(row)
}
