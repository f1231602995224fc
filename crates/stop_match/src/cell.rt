// Cells: the bounds of points, and the least number of their vertices.
ghost use Rattle.std.specs.Prelude.{◌≡◌, ◌+◌, ◌<◌, ◌^◌};
ghost use Rattle.stop_match.specs.Cell.{Within, cell_of};

use street_graph::Point;

// The bounds of the points of a cell, in millionths of a degree, and the least number of their vertices.
#[derive(Clone, Copy, Debug)]
pub(crate) struct Cell {
    pub(crate) lat_low: i32,
    pub(crate) lat_high: i32,
    pub(crate) lon_low: i32,
    pub(crate) lon_high: i32,
    pub(crate) least: u32,
}

impl Cell {
    // The cell of the one point of a vertex.
    pub(crate) fn of(point: Point, number: u32) -> Cell
        ensures { result ≡ cell_of point number }
    {
        Cell {
            lat_low: point.lat,
            lat_high: point.lat,
            lon_low: point.lon,
            lon_high: point.lon,
            least: number,
        }
    }

    // The cell of the points of two cells.
    pub(crate) fn joined(&self, other: &Cell) -> Cell
        ensures first { Within self.now result }
        ensures second { Within other.now result }
    {
        Cell {
            lat_low: self.lat_low.min(other.lat_low),
            lat_high: self.lat_high.max(other.lat_high),
            lon_low: self.lon_low.min(other.lon_low),
            lon_high: self.lon_high.max(other.lon_high),
            least: self.least.min(other.least),
        }
    }
}
