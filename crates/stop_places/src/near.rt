// The vertex nearest to a stop.
ghost use Rattle.std.specs.Prelude.{◌≤◌, IfSome};
ghost use Rattle.stop_places.specs.Places.{IsNearPlace};

use move_model::NodeNo;
use stop_match::{Grid, nearest};

/// The points of a street graph's vertices, with the weight of a longitude in thousandths of that of a latitude.
#[derive(Clone, Copy, Debug)]
pub struct Near<'a> {
    pub grid: &'a Grid,
    pub scale: u32,
}

/// The vertex nearest to a place, or None where the vertices have no points or the place no coordinates.
pub(crate) fn near_place(near: &Option<Near>, lat: Option<i32>, lon: Option<i32>) -> Option<NodeNo>
    requires { IfSome near.now (λ near. near.scale ≤ 1000) }
    ensures { IsNearPlace near.now lat lon result }
{
    let Some(near) = near else {
        return None;
    };
    let Some(lat) = lat else {
        return None;
    };
    let Some(lon) = lon else {
        return None;
    };
    Some(nearest(near.grid, lat, lon, near.scale))
}
