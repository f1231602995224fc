// The grids, from the finest, with a cell for each point, to the coarsest, with one cell.
ghost use Rattle.std.specs.Prelude.{◌≡◌, ◌≤◌, ◌<◌, ◌+◌, ◌-◌, ◌*◌, ◌/◌, ◌^◌, ℕ, All, IfOk, length, slice_index_or};
ghost use Rattle.street_graph.specs.declared.point.Point.{Point};
ghost use Rattle.stop_match.specs.declared.cell.Cell.{Cell};
ghost use Rattle.stop_match.specs.Cell.{Within, AreParents};
ghost use Rattle.stop_match.specs.Place.{IsPlace, AreAllPlaces, AreCellsOf, ArePointCells};
ghost use Rattle.stop_match.specs.Levels.{AreLevelsOf};

use crate::cell::Cell;
use crate::order::{Order, Place, arrange};
use move_model::List;
use std::alloc::{AllocError, Global};
use street_graph::Point;

// The cells of a grid.
pub(crate) type Level = List<Cell>;

// The places of all vertices, by number.
fn places(alloc: Global, points: &[Point]) -> Result<Vec<Place>, AllocError>
    requires { length points.now < 2 ^ 32 }
    ensures { IfOk result (λ places. AreAllPlaces places.items (length points.now)) }
{
    let mut places = Vec::with_capacity(alloc, points.len())?;
    let mut number = 0u32;
    for point in points {
        number += 1;
        places.push(Place {
            lat: point.lat,
            lon: point.lon,
            number,
        })?;
    }
    Ok(places)
}

// The cells of the points, in the order of the places.
fn point_cells(alloc: Global, points: &[Point], places: &[Place]) -> Result<Level, AllocError>
    requires { All (λ place. IsPlace place (length points.now)) places.now }
    ensures { IfOk result (λ cells. AreCellsOf cells places.now points.now) }
{
    let mut cells = Vec::with_capacity(alloc, places.len())?;
    for place in places {
        let point = points[place.number as usize - 1];
        cells.push(Cell::of(point, place.number))?;
    }
    Ok(List::from_vec(cells))
}

// The finest grid: a cell for each point, in this order.
fn finest(alloc: Global, points: &[Point], order: Order) -> Result<Level, AllocError>
    requires { length points.now < 2 ^ 32 }
    ensures { IfOk result (λ cells. ArePointCells cells points.now) }
{
    let mut places = places(alloc, points)?;
    arrange(order, places.as_mut_slice());
    point_cells(alloc, points, places.as_slice())
}

// The cell of the next coarser grid that holds eight cells, or as many as are left.
fn joined_at(fine: &[Cell], index: usize) -> Cell
    requires { index * 8 < length fine.now }
    ensures { (c : ℕ) (d : Cell) → c < length fine.now → c / 8 ≡ index → Within (slice_index_or fine.now c d) result }
{
    let begin = index * 8;
    let mut whole = fine[begin];
    for c in begin..fine.len().min(begin + 8) {
        whole = whole.joined(&fine[c]);
    }
    whole
}

// The next coarser grid.
fn parents(alloc: Global, fine: &[Cell]) -> Result<Level, AllocError>
    requires { 0 < length fine.now }
    ensures parents { IfOk result (AreParents fine.now) }
    ensures fewer { IfOk result (λ coarse. length coarse ≡ (length fine.now - 1) / 8 + 1) }
{
    let count = (fine.len() - 1) / 8 + 1;
    let mut coarse = Vec::with_capacity(alloc, count)?;
    for index in 0..count {
        coarse.push(joined_at(fine, index))?;
    }
    Ok(List::from_vec(coarse))
}

// All grids of some points, from the finest, which has them in this order.
pub(crate) fn levels(
    alloc: Global,
    points: &[Point],
    order: Order,
) -> Result<List<Level>, AllocError>
    requires some { 0 < length points.now }
    requires few { length points.now < 2 ^ 32 }
    ensures { IfOk result (λ levels. AreLevelsOf levels points.now) }
{
    let mut last = finest(alloc, points, order)?;
    let mut levels = List::new(alloc);
    while last.len() > 1 {
        let next = parents(alloc, last.as_slice())?;
        levels.push(last)?;
        last = next;
    }
    levels.push(last)?;
    Ok(levels)
}
