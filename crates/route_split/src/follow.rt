// Which trip can stand behind another one in a route.
ghost use Rattle.std.specs.Prelude.{◌≡◌, ◌<◌, ◌≤◌, ◌↔◌, length, IsTrue, true, false};
ghost use Rattle.route_split.specs.Routes.{place_of};
ghost use Rattle.route_split.specs.Split.{CanFollow, CanStand, CannotStand};

use move_model::{Call, Trip};

/// Whether a call may stand before another in a route.
fn call_follows(c: &Call, d: &Call) -> bool
    ensures { IsTrue result ↔ ((place_of c.now ≡ place_of d.now) × (c.now.arr ≤ d.now.arr) × (c.now.dep ≤ d.now.dep)) }
{
    c.stop.0 == d.stop.0
        && c.board == d.board
        && c.alight == d.alight
        && c.arr <= d.arr
        && c.dep <= d.dep
}

/// Whether a trip may stand before another in a route.
fn can_follow(cs: &[Call], ds: &[Call]) -> bool
    ensures yes { IsTrue result → CanFollow cs.now ds.now }
    ensures no { CanFollow cs.now ds.now → IsTrue result }
{
    if cs.len() != ds.len() {
        return false;
    }
    for k in 0..cs.len() {
        if !call_follows(&cs[k], &ds[k]) {
            return false;
        }
    }
    true
}

/// Whether the trip u can stand behind the trip t in a route.
pub fn fits(trips: &[Trip], t: usize, u: usize) -> bool
    requires t { t < length trips.now }
    requires u { u < length trips.now }
    ensures yes { result ≡ true → CanStand trips.now t u }
    ensures no { result ≡ false → CannotStand trips.now t u }
{
    let a = &trips[t];
    let b = &trips[u];
    can_follow(a.calls.as_slice(), b.calls.as_slice())
}
