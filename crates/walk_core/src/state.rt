// What holds from one contraction to the next.
ghost use Rattle.std.specs.Prelude.{◌≡◌, ℕ, ◌<◌, ◌≤◌, ◌^◌, List, All, OnOk, length, slice_set, vec_len};
ghost use Rattle.walk_laws.specs.declared.CoreArc.{CoreArc};
ghost use Rattle.move_model.specs.Streets.{Streets};
ghost use Rattle.walk_laws.specs.Sums.{HasArc};
ghost use Rattle.walk_core.specs.Row.{is_last};
ghost use Rattle.walk_core.specs.Bridge.{view_of};
ghost use Rattle.walk_core.specs.State.{CleansLeft, IsRight, IsSound};

use crate::contraction::{Scratch, contract_vertex};
use crate::rows::{Rows, is_left};
use move_model::NodeNo;
use std::alloc::AllocError;
use walk_laws::CoreArc;

// Leaves in the row of a vertex, if it is not contracted, the arcs to such vertices.
fn clean_if_left(rows: &mut Rows, rank: &[u32], node: NodeNo)
    requires { node.0 < length rows.old }
    ensures cleans { (first : List (List CoreArc)) → CleansLeft rank.now first rows.old → CleansLeft rank.now first rows.new }
    ensures clean { (q l : ℕ) → is_last rank.now node.0 → HasArc rows.new node.0 q l → is_last rank.now q }
    ensures others { (v q l : ℕ) → HasArc rows.new v q l → HasArc rows.old v q l }
{
    if is_left(rank, node) {
        rows.clean(node.0 as usize, rank);
    }
}

// Leaves in the rows of the other ends of these arcs the arcs to vertices that are not contracted.
fn clean_ends(rows: &mut Rows, rank: &[u32], arcs: &[CoreArc])
    requires { All (λ arc. arc.to.0 < length rows.old) arcs.now }
    ensures { CleansLeft rank.now rows.old rows.new }
{
    for arc in arcs {
        clean_if_left(rows, rank, arc.to);
    }
}

/// Leaves in the rows of all vertices that are not contracted the arcs to such vertices.
pub fn clean_all(rows: &mut Rows, rank: &[u32])
    requires many { length rows.old ≡ length rank.now }
    requires few { length rank.now < 2 ^ 32 }
    ensures cleans { CleansLeft rank.now rows.old rows.new }
    ensures clean { (v q l : ℕ) → v < length rank.now → is_last rank.now v → HasArc rows.new v q l → is_last rank.now q }
{
    for at in 0..rank.len() as u32 {
        clean_if_left(rows, rank, NodeNo(at));
    }
}

// Contracts a vertex as the next one. Its neighbours keep their arcs to it and from it.
fn put_next(
    out: &mut Rows,
    into: &mut Rows,
    rank: &mut [u32],
    contracted: &mut Vec<NodeNo>,
    m: u32,
    scratch: &mut Scratch,
    settle: u32,
) -> Result<(), AllocError>
    requires sound { IsSound (view_of out.old into.old rank.old) contracted.old.items }
    requires one { 1 ≤ m }
    requires m { m < length rank.old }
    requires left { is_last rank.old m }
    requires room { length contracted.old.items < length rank.old }
    requires labels { vec_len scratch.old.search.labels ≡ length rank.old }
    ensures sound { OnOk result (IsSound (view_of out.new into.new rank.new) contracted.new.items) }
    ensures right { OnOk result ((graph : Streets) → IsRight graph (view_of out.old into.old rank.old) → IsRight graph (view_of out.new into.new rank.new)) }
    ensures rank { OnOk result (rank.new ≡ slice_set rank.old m (length contracted.old.items)) }
    ensures labels { vec_len scratch.new.search.labels ≡ vec_len scratch.old.search.labels }
{
    let count = contracted.len() as u32;
    contract_vertex(out, into, rank, count, m, scratch, settle)?;
    contracted.push(NodeNo(m))?;
    Ok(())
}

// Takes the arcs to a contracted vertex and from it out of the rows of its neighbours.
fn clean_around(out: &mut Rows, into: &mut Rows, rank: &[u32], contracted: &[NodeNo], m: u32)
    requires sound { IsSound (view_of out.old into.old rank.now) contracted.now }
    ensures sound { IsSound (view_of out.new into.new rank.now) contracted.now }
    ensures right { (graph : Streets) → IsRight graph (view_of out.old into.old rank.now) → IsRight graph (view_of out.new into.new rank.now) }
{
    clean_ends(out, rank, into.row(NodeNo(m)));
    clean_ends(into, rank, out.row(NodeNo(m)));
}

/// Contracts a vertex as the next one.
pub fn contract_next(
    out: &mut Rows,
    into: &mut Rows,
    rank: &mut [u32],
    contracted: &mut Vec<NodeNo>,
    m: u32,
    scratch: &mut Scratch,
    settle: u32,
) -> Result<(), AllocError>
    requires sound { IsSound (view_of out.old into.old rank.old) contracted.old.items }
    requires one { 1 ≤ m }
    requires m { m < length rank.old }
    requires left { is_last rank.old m }
    requires room { length contracted.old.items < length rank.old }
    requires labels { vec_len scratch.old.search.labels ≡ length rank.old }
    ensures sound { OnOk result (IsSound (view_of out.new into.new rank.new) contracted.new.items) }
    ensures right { OnOk result ((graph : Streets) → IsRight graph (view_of out.old into.old rank.old) → IsRight graph (view_of out.new into.new rank.new)) }
    ensures rank { OnOk result (rank.new ≡ slice_set rank.old m (length contracted.old.items)) }
    ensures labels { vec_len scratch.new.search.labels ≡ vec_len scratch.old.search.labels }
{
    put_next(out, into, rank, contracted, m, scratch, settle)?;
    clean_around(out, into, rank, contracted.as_slice(), m);
    Ok(())
}
