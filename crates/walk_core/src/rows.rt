// The arcs of each vertex, in lists that can grow.
ghost use Rattle.std.specs.Prelude.{◌≡◌, ℕ, ◌<◌, ◌≤◌, [], length, replicate, filter, slice_index_or, IfOk, OnOk};
ghost use Rattle.walk_laws.specs.declared.CoreArc.{CoreArc};
ghost use Rattle.walk_core.specs.Core.{HasDifferentEnds};
ghost use Rattle.walk_core.specs.Row.{IsPlace, PutsIn, left_by};

use move_model::NodeNo;
use std::alloc::{AllocError, Global};
use std::marker::Model;
use walk_laws::CoreArc;

/// What stands for the place of a vertex that is not contracted.
pub const LEFT: u32 = u32::MAX;

/// Whether the vertex is not contracted, by the places of the contracted ones.
#[inline]
pub fn is_left(rank: &[u32], node: NodeNo) -> bool
    ensures { result ≡ left_by rank.now node.0 }
{
    match rank.get(node.0 as usize) {
        Some(place) => *place == LEFT,
        None => true,
    }
}

/// For each vertex a list of arcs.
#[derive(Debug, Drop)]
pub struct Rows {
    rows: Vec<Vec<CoreArc>>,
}

impl Model for Rows {
    ghost use Rattle.std.specs.Prelude.{List, map};
    ghost use Rattle.walk_laws.specs.declared.CoreArc.{CoreArc};

    ghost Value = { List (List CoreArc) };

    ghost view = { λ a. map (λ v. v.items) a.rows.items };
}

// The place of the arc with this other end, or how many arcs there are.
fn place_of(row: &[CoreArc], to: NodeNo) -> usize
    ensures { IsPlace row.now to.0 result }
{
    for (i, arc) in row.iter().enumerate() {
        if arc.to.0 == to.0 {
            return i;
        }
    }
    row.len()
}

// Puts the arc into the row, in the place of a longer one with the same other end.
fn put_in(row: &mut Vec<CoreArc>, arc: CoreArc) -> Result<(), AllocError>
    ensures puts { OnOk result (PutsIn row.old.items row.new.items arc) }
    ensures ends { OnOk result (HasDifferentEnds row.old.items → HasDifferentEnds row.new.items) }
{
    let i = place_of(row.as_slice(), arc.to);
    if i < row.len() {
        if arc.seconds < row[i].seconds {
            row[i] = arc;
        }
        return Ok(());
    }
    row.push(arc)?;
    Ok(())
}

// Leaves the arcs to vertices that are left.
fn clean_in(row: &mut Vec<CoreArc>, rank: &[u32])
    ensures { row.new.items ≡ filter (λ arc. left_by rank.now arc.to.0) row.old.items }
{
    row.retain(|arc| is_left(rank, arc.to));
}

impl Rows {
    ghost use Rattle.walk_core.specs.Rows.{Puts, Cleans};

    /// Rows with no arcs.
    pub fn new(alloc: Global, count: usize) -> Result<Rows, AllocError>
        ensures { IfOk result (λ rows. rows ≡ replicate count []) }
    {
        let mut rows = Vec::with_capacity(alloc, count)?;
        for _i in 0..count {
            rows.push(Vec::new(alloc))?;
        }
        Ok(Rows { rows })
    }

    /// The arcs of a vertex.
    #[inline]
    pub fn row(&self, node: NodeNo) -> &[CoreArc]
        ensures { result.now ≡ slice_index_or self.now node.0 [] }
    {
        match self.rows.get(node.0 as usize) {
            Some(row) => row.as_slice(),
            None => &[],
        }
    }

    /// Puts an arc into the row of a vertex, in the place of a longer one with the same other end.
    pub fn put(&mut self, at: usize, arc: CoreArc) -> Result<(), AllocError>
        requires { at < length self.old }
        ensures { OnOk result (Puts self.old self.new at arc) }
    {
        put_in(&mut self.rows[at], arc)
    }

    /// Leaves in the row of a vertex the arcs to vertices that are left.
    pub fn clean(&mut self, at: usize, rank: &[u32])
        requires { at < length self.old }
        ensures { Cleans self.old self.new at rank.now }
    {
        clean_in(&mut self.rows[at], rank)
    }
}
