// The contraction of one vertex.
ghost use Rattle.std.specs.Prelude.{◌≡◌, ◌≢◌, ℕ, ◌+◌, ◌<◌, ◌≤◌, List, length, vec_len, All, OnOk, slice_set};
ghost use Rattle.move_model.specs.Streets.{Streets};
ghost use Rattle.walk_laws.specs.Sums.{longest, last_rank, Keeps};
ghost use Rattle.walk_core.specs.Middles.{Ruled};
ghost use Rattle.walk_core.specs.Row.{is_last};
ghost use Rattle.walk_core.specs.Bridge.{view_of, IsBuilt, Spans, PairDone, RowDone, AllDone, AreOthers, IsCounted};
ghost use Rattle.walk_core.specs.State.{Rises};

use crate::rows::Rows;
use crate::search::Search;
use move_model::NodeNo;
use std::alloc::AllocError;
use walk_laws::CoreArc;

/// No arc is longer, since no least walk is.
pub const LONGEST: u64 = 2_000_000_000_000;

/// The greatest number of seconds of an arc.
pub fn greatest(arcs: &[CoreArc]) -> u64 {
    let mut most = 0;
    for arc in arcs {
        if arc.seconds > most {
            most = arc.seconds;
        }
    }
    most
}

// Bridges an arc in and an arc out, unless a witness was found.
fn bridge_pair(
    out: &mut Rows,
    into: &mut Rows,
    rank: &[u32],
    m: u32,
    x: CoreArc,
    y: CoreArc,
    found: u64,
) -> Result<(), AllocError>
    requires built { IsBuilt (view_of out.old into.old rank.now) }
    requires x_left { is_last rank.now x.to.0 }
    requires y_left { is_last rank.now y.to.0 }
    requires x_other { x.to.0 ≢ m }
    requires y_other { y.to.0 ≢ m }
    requires x_one { 1 ≤ x.to.0 }
    requires y_one { 1 ≤ y.to.0 }
    requires x_low { x.to.0 < length rank.now }
    requires y_low { y.to.0 < length rank.now }
    requires x_short { x.seconds ≤ longest }
    requires y_short { y.seconds ≤ longest }
    requires found { found ≤ longest → Spans (view_of out.old into.old rank.now) m x.to.0 y.to.0 found }
    ensures { OnOk result (PairDone m x y (view_of out.old into.old rank.now) (view_of out.new into.new rank.now)) }
{
    let seconds = x.seconds + y.seconds;
    if x.to.0 == y.to.0 || seconds > LONGEST || found <= seconds {
        return Ok(());
    }
    out.put(
        x.to.0 as usize,
        CoreArc {
            seconds,
            to: y.to,
            middle: NodeNo(m),
        },
    )?;
    into.put(
        y.to.0 as usize,
        CoreArc {
            seconds,
            to: x.to,
            middle: NodeNo(m),
        },
    )?;
    Ok(())
}

// Bridges an arc in and all arcs out.
fn bridge_row(
    out: &mut Rows,
    into: &mut Rows,
    rank: &[u32],
    m: u32,
    x: CoreArc,
    outs: &[CoreArc],
    search: &mut Search,
    settle: u32,
) -> Result<(), AllocError>
    requires built { IsBuilt (view_of out.old into.old rank.now) }
    requires x_left { is_last rank.now x.to.0 }
    requires x_other { x.to.0 ≢ m }
    requires x_one { 1 ≤ x.to.0 }
    requires x_low { x.to.0 < length rank.now }
    requires x_short { x.seconds ≤ longest }
    requires others { AreOthers rank.now m outs.now }
    requires labels { vec_len search.old.labels ≡ length rank.now }
    ensures done { OnOk result (RowDone m x outs.now (length outs.now) (view_of out.old into.old rank.now) (view_of out.new into.new rank.now)) }
    ensures labels { vec_len search.new.labels ≡ vec_len search.old.labels }
{
    let limit = x.seconds.saturating_add(greatest(outs)).min(LONGEST);
    search.search(out, rank, m, x.to.0, outs, limit, settle);
    for y in outs {
        let found = search.seconds_at(y.to.0);
        bridge_pair(out, into, rank, m, x, *y, found)?;
    }
    Ok(())
}

// Bridges all arcs in and all arcs out.
fn bridge_all(
    out: &mut Rows,
    into: &mut Rows,
    rank: &[u32],
    m: u32,
    ins: &[CoreArc],
    outs: &[CoreArc],
    search: &mut Search,
    settle: u32,
) -> Result<(), AllocError>
    requires built { IsBuilt (view_of out.old into.old rank.now) }
    requires ins { AreOthers rank.now m ins.now }
    requires outs { AreOthers rank.now m outs.now }
    requires labels { vec_len search.old.labels ≡ length rank.now }
    ensures done { OnOk result (AllDone m ins.now outs.now (length ins.now) (view_of out.old into.old rank.now) (view_of out.new into.new rank.now)) }
    ensures labels { vec_len search.new.labels ≡ vec_len search.old.labels }
{
    for x in ins {
        bridge_row(out, into, rank, m, *x, outs, search, settle)?;
    }
    Ok(())
}

// Makes the list a copy of the row.
fn copy_row(copy: &mut Vec<CoreArc>, row: &[CoreArc]) -> Result<(), AllocError>
    ensures { OnOk result (copy.new.items ≡ row.now) }
{
    copy.clear();
    copy.extend_from_slice(row)?;
    Ok(())
}

/// Lists that one contraction after another uses.
#[derive(Drop)]
pub struct Scratch {
    pub ins: Vec<CoreArc>,
    pub outs: Vec<CoreArc>,
    pub search: Search,
}

/// Contracts a vertex: each way over it gets an arc of its own, unless another way is no longer.
pub fn contract_vertex(
    out: &mut Rows,
    into: &mut Rows,
    rank: &mut [u32],
    count: u32,
    m: u32,
    scratch: &mut Scratch,
    settle: u32,
) -> Result<(), AllocError>
    requires built { IsBuilt (view_of out.old into.old rank.old) }
    requires counted { IsCounted rank.old count }
    requires room { count < last_rank }
    requires m { m < length rank.old }
    requires left { is_last rank.old m }
    requires labels { vec_len scratch.old.search.labels ≡ length rank.old }
    ensures built { OnOk result (IsBuilt (view_of out.new into.new rank.new)) }
    ensures rank { OnOk result (rank.new ≡ slice_set rank.old m count) }
    ensures keeps { OnOk result ((graph : Streets) → Keeps graph (view_of out.old into.old rank.old) → Keeps graph (view_of out.new into.new rank.new)) }
    ensures ruled { OnOk result ((graph : Streets) → Keeps graph (view_of out.old into.old rank.old) → Ruled graph (view_of out.old into.old rank.old) → Ruled graph (view_of out.new into.new rank.new)) }
    ensures rises { OnOk result (Rises (view_of out.old into.old rank.old) → Rises (view_of out.new into.new rank.new)) }
    ensures labels { vec_len scratch.new.search.labels ≡ vec_len scratch.old.search.labels }
{
    out.clean(m as usize, rank);
    into.clean(m as usize, rank);
    copy_row(&mut scratch.ins, into.row(NodeNo(m)))?;
    copy_row(&mut scratch.outs, out.row(NodeNo(m)))?;
    bridge_all(
        out,
        into,
        rank,
        m,
        scratch.ins.as_slice(),
        scratch.outs.as_slice(),
        &mut scratch.search,
        settle,
    )?;
    rank[m as usize] = count;
    Ok(())
}
