// The grid over the points of a street graph.
ghost use Rattle.std.specs.Prelude.{◌≡◌, ◌≤◌, ◌<◌, ◌+◌, ◌-◌, ◌*◌, ◌^◌, ◌⊎◌, ℕ, IfOk, length};
ghost use Rattle.stop_match.specs.Nearest.{IsNearest};
ghost use Rattle.stop_match.specs.Levels.{AreLevelsOf};
ghost use Rattle.stop_match.specs.Cell.{IsNoLater, AreLevels, cell, cells, cell_at, key_of};

use crate::cell::Cell;
use crate::level::{Level, levels};
use crate::order::Order;
use crate::target::{Key, Target};
use move_model::{List, NoMemory, NodeNo};
use std::alloc::{AllocError, Global};
use std::marker::Model;
use street_graph::Points;

// The greatest number of a vertex.
const MAX_VERTICES: usize = 4_294_967_295;

/// A grid over the points of the vertices from 1.
#[derive(Debug, Drop)]
pub struct Grid {
    points: Points,
    squares: List<Level>,
    strips: List<Level>,
}

impl Model for Grid {
    ghost use Rattle.std.specs.Prelude.{List as Items};
    ghost use Rattle.street_graph.specs.declared.point.Point.{Point};
    ghost use Rattle.stop_match.specs.Levels.{AreLevelsOf};

    ghost Value = { Items Point };

    ghost view = { λ grid. grid.points };

    ghost invariant = { λ grid. AreLevelsOf grid.squares grid.points × AreLevelsOf grid.strips grid.points };
}

impl Grid {
    /// The grid over these points, of which there is at least one. Vertices have numbers below 2^32: for more points
    /// memory is wanting too.
    pub fn new(alloc: Global, points: &Points) -> Result<Grid, NoMemory>
        requires { 0 < length points.now }
        ensures { IfOk result (λ grid. grid ≡ points.now) }
    {
        if points.len() > MAX_VERTICES {
            return Err(AllocError);
        }
        let squares = levels(alloc, points.as_slice(), Order::Squares)?;
        let strips = levels(alloc, points.as_slice(), Order::Strips)?;
        let points = Points::from_slice(alloc, points.as_slice())?;
        Ok(Grid {
            points,
            squares,
            strips,
        })
    }

    // The grids to look in: where longitudes count nothing, a strip holds fewer near points than a square does.
    fn levels(&self, scale: u32) -> &[Level]
        ensures { AreLevelsOf result.now self.now }
    {
        if scale == 0 {
            self.strips.as_slice()
        } else {
            self.squares.as_slice()
        }
    }
}

// Of the cells that a cell of the next coarser grid holds, that whose middle is nearest: where points stand along a line,
// the nearest bounds may be far from the nearest point.
fn least_child(fine: &[Cell], index: usize, target: &Target) -> usize
    requires some { index * 8 < length fine.now }
    requires scale { target.now.scale ≤ 1000 }
    ensures { result < length fine.now }
{
    let begin = index * 8;
    let mut least = begin;
    let mut square = target.middle_square(&fine[begin]);
    for child in begin..fine.len().min(begin + 8) {
        let other = target.middle_square(&fine[child]);
        if other < square {
            least = child;
            square = other;
        }
    }
    least
}

// The key of some point that may well be near.
fn first_guess(levels: &[Level], target: &Target) -> Key
    requires levels { AreLevels levels.now }
    requires some { 0 < length levels.now }
    requires coarsest { length (cells levels.now (length levels.now - 1)) ≡ 1 }
    requires scale { target.now.scale ≤ 1000 }
    ensures { (p : ℕ) × (p < length (cells levels.now 0)) × (result ≡ key_of target.now (cell levels.now 0 p)) }
{
    let mut index = 0;
    let mut depth = levels.len() - 1;
    while depth > 0 {
        depth -= 1;
        index = least_child(levels[depth].as_slice(), index, target);
    }
    target.key(&levels[0].as_slice()[index])
}

// The least of a key and those of the points below a cell.
fn search(levels: &[Level], depth: usize, index: usize, target: &Target, best: Key) -> Key
    requires levels { AreLevels levels.now }
    requires depth { depth < length levels.now }
    requires index { index < length (cells levels.now depth) }
    requires scale { target.now.scale ≤ 1000 }
    ensures keeps { IsNoLater result best }
    ensures done { (p : ℕ) → p < length (cells levels.now 0) → cell_at depth p ≡ index
        → IsNoLater result (key_of target.now (cell levels.now 0 p)) }
    ensures real { (result ≡ best) ⊎ ((p : ℕ) × (p < length (cells levels.now 0)) × (result ≡ key_of target.now (cell levels.now 0 p))) }
{
    let key = target.key(&levels[depth].as_slice()[index]);
    if !key.is_before(&best) {
        return best;
    }
    if depth == 0 {
        return key;
    }
    let begin = index * 8;
    let fine = levels[depth - 1].as_slice();
    let end = fine.len().min(begin + 8);
    let mut least = best;
    for child in begin..end {
        // Most cells are passed over: to test them here spares their calls.
        if target.key(&fine[child]).is_before(&least) {
            least = search(levels, depth - 1, child, target, least);
        }
    }
    least
}

/// The vertex that is nearest to a place: of the least `(1000 * dlat)^2 + (scale * dlon)^2`, in millionths of a degree,
/// and of several as near the one with the least number. It takes no memory.
pub fn nearest(grid: &Grid, lat: i32, lon: i32, scale: u32) -> NodeNo
    requires { scale ≤ 1000 }
    ensures { IsNearest grid.now lat lon scale result }
{
    let target = Target { lat, lon, scale };
    let levels = grid.levels(scale);
    let guess = first_guess(levels, &target);
    let best = search(levels, levels.len() - 1, 0, &target, guess);
    NodeNo(best.number)
}
