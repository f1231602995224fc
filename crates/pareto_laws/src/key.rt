// The order of keys.
ghost use Rattle.std.specs.Prelude.{◌↔◌, IsTrue};
ghost use Rattle.move_model.specs.Shortcut.{IsKeyLess};

use move_model::Key;

/// Whether one key stands before another: arrival, second at which the second ride is left, where
/// it is left, its trip, ready second, boarding stop, second at which the first ride is left, and
/// where that is left, compared in this order. It takes no memory.
pub fn key_less(a: &Key, b: &Key) -> bool
    ensures { IsTrue result ↔ IsKeyLess a.now b.now }
{
    if a.arrive != b.arrive {
        return a.arrive < b.arrive;
    }
    if a.a2 != b.a2 {
        return a.a2 < b.a2;
    }
    if a.e != b.e {
        return a.e < b.e;
    }
    if a.trip != b.trip {
        return a.trip < b.trip;
    }
    if a.ready != b.ready {
        return a.ready < b.ready;
    }
    if a.y != b.y {
        return a.y < b.y;
    }
    if a.a1 != b.a1 {
        return a.a1 < b.a1;
    }
    a.c < b.c
}
