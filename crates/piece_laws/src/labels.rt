// Labels and their order.
ghost use Rattle.std.specs.Prelude.{◌↔◌, IsTrue};
ghost use Rattle.move_model.specs.Shortcut.{IsLess};
ghost use Rattle.piece_laws.specs.Pieces.{ready_entries, second_entries, held_entries};

/// When a passenger is ready for a second ride, when the first one was left, and where: 0 at the stop where the second
/// is boarded, otherwise 1 more than the stop.
#[derive(Clone, Copy, Debug, PartialEq, Eq)]
pub struct Ready {
    pub ready: u32,
    pub a1: u32,
    pub c: u32,
}

/// When a second ride is left, its trip, the stop where it was boarded, and the label that it was boarded with.
#[derive(Clone, Copy, Debug, PartialEq, Eq)]
pub struct Second {
    pub a2: u32,
    pub trip: u32,
    pub y: u32,
    pub label: Ready,
}

/// A row of a route, the stop where it was boarded, and the label that it was boarded with.
#[derive(Clone, Copy, Debug, PartialEq, Eq)]
pub struct Held {
    pub row: u32,
    pub y: u32,
    pub label: Ready,
}

/// Whether one label is less than another: the second of readiness, the second at which the first ride was left, and
/// where, compared in this order.
pub fn ready_less(a: Ready, b: Ready) -> bool
    ensures { IsTrue result ↔ IsLess (ready_entries a) (ready_entries b) }
{
    if a.ready != b.ready {
        return a.ready < b.ready;
    }
    if a.a1 != b.a1 {
        return a.a1 < b.a1;
    }
    a.c < b.c
}

/// Whether one boarded row is less than another: row, second of readiness, boarding stop, second at which the first ride
/// was left, and where.
pub fn held_less(a: Held, b: Held) -> bool
    ensures { IsTrue result ↔ IsLess (held_entries a) (held_entries b) }
{
    if a.row != b.row {
        return a.row < b.row;
    }
    if a.label.ready != b.label.ready {
        return a.label.ready < b.label.ready;
    }
    if a.y != b.y {
        return a.y < b.y;
    }
    if a.label.a1 != b.label.a1 {
        return a.label.a1 < b.label.a1;
    }
    a.label.c < b.label.c
}

/// Whether one second ride is less than another, in the order of keys: the second at which it is left, its trip, second
/// of readiness, boarding stop, second at which the first ride was left, and where.
pub fn second_less(a: Second, b: Second) -> bool
    ensures { IsTrue result ↔ IsLess (second_entries a) (second_entries b) }
{
    if a.a2 != b.a2 {
        return a.a2 < b.a2;
    }
    if a.trip != b.trip {
        return a.trip < b.trip;
    }
    if a.label.ready != b.label.ready {
        return a.label.ready < b.label.ready;
    }
    if a.y != b.y {
        return a.y < b.y;
    }
    if a.label.a1 != b.label.a1 {
        return a.label.a1 < b.label.a1;
    }
    a.label.c < b.label.c
}
