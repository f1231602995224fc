// Places that look for a vertex.
ghost use Rattle.std.specs.Prelude.{◌≡◌, ◌<◌, ◌≤◌, ◌*◌, ◌+◌, ◌^◌, ◌↔◌, IsTrue};
ghost use Rattle.stop_match.specs.Cell.{gap, square_of, key_of, IsBefore};

use crate::cell::Cell;

// A place, and the weight of a degree of longitude, where one of latitude weighs 1000.
#[derive(Clone, Copy, Debug)]
pub(crate) struct Target {
    pub(crate) lat: i32,
    pub(crate) lon: i32,
    pub(crate) scale: u32,
}

// The square of a distance, and the number of a vertex that has it.
#[derive(Clone, Copy, Debug)]
pub(crate) struct Key {
    pub(crate) square: u128,
    pub(crate) number: u32,
}

impl Key {
    // Whether this key comes before another: a nearer vertex, or one as near of a lesser number.
    pub(crate) fn is_before(&self, other: &Key) -> bool
        ensures { IsTrue result ↔ IsBefore self.now other.now }
    {
        self.square < other.square || (self.square == other.square && self.number < other.number)
    }
}

// How far a coordinate is from a range.
fn distance(at: i32, low: i32, high: i32) -> u32
    ensures { result ≡ gap at low high }
{
    if at < low {
        at.abs_diff(low)
    } else if high < at {
        at.abs_diff(high)
    } else {
        0
    }
}

// About the middle of a range.
fn middle(low: i32, high: i32) -> i32 {
    low / 2 + high / 2
}

// The square of a weighted distance.
fn square(weight: u32, distance: u32) -> u128
    requires { weight ≤ 1000 }
    ensures value { result ≡ square_of weight distance }
    ensures small { result < 2 ^ 100 }
{
    let size = u64::from(weight) * u64::from(distance);
    u128::from(size) * u128::from(size)
}

impl Target {
    // The least key that a point in a cell may have; that of its point, where the cell holds one point.
    pub(crate) fn key(&self, cell: &Cell) -> Key
        requires { self.now.scale ≤ 1000 }
        ensures { result ≡ key_of self.now cell.now }
    {
        let lat = distance(self.lat, cell.lat_low, cell.lat_high);
        let lon = distance(self.lon, cell.lon_low, cell.lon_high);
        Key {
            square: square(1000, lat) + square(self.scale, lon),
            number: cell.least,
        }
    }

    // The square of the distance to about the middle of a cell.
    pub(crate) fn middle_square(&self, cell: &Cell) -> u128
        requires { self.now.scale ≤ 1000 }
    {
        let lat = self.lat.abs_diff(middle(cell.lat_low, cell.lat_high));
        let lon = self.lon.abs_diff(middle(cell.lon_low, cell.lon_high));
        square(1000, lat) + square(self.scale, lon)
    }
}
