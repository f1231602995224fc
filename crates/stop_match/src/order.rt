// In which order the points of a grid stand. Any order serves: a good one makes cells small.
ghost use Rattle.std.specs.Prelude.{IsPermutation};

// How points follow one another.
#[derive(Clone, Copy, Debug)]
pub(crate) enum Order {
    // Cell by cell, each cut in halves along its longer side, and each half again.
    Squares,
    // From south to north, and points of one latitude by number.
    Strips,
}

// The number of a vertex, with its point.
#[derive(Clone, Copy, Debug)]
pub(crate) struct Place {
    pub(crate) lat: i32,
    pub(crate) lon: i32,
    pub(crate) number: u32,
}

impl Place {
    // A number that grows with the latitude, and then with the number.
    fn strip(&self) -> u64 {
        (u64::from(self.lat.cast_unsigned() ^ 0x8000_0000) << 32) | u64::from(self.number)
    }
}

// Whether the bounds of some places are longer from south to north than from west to east.
fn is_tall(places: &[Place]) -> bool {
    let mut south = i32::MAX;
    let mut north = i32::MIN;
    let mut west = i32::MAX;
    let mut east = i32::MIN;
    for place in places {
        south = south.min(place.lat);
        north = north.max(place.lat);
        west = west.min(place.lon);
        east = east.max(place.lon);
    }
    north.abs_diff(south) > east.abs_diff(west)
}

// Sorts the places along the longer side of their bounds.
fn sort_along(places: &mut [Place])
    ensures { IsPermutation places.old places.new }
{
    if is_tall(places) {
        places.sort_unstable_by_key(|place| place.lat);
    } else {
        places.sort_unstable_by_key(|place| place.lon);
    }
}

// Cuts the places in two, the first part of a power of two, since the cells of each grid hold so many, and each part
// again, down to the cells of eight.
fn arrange_squares(places: &mut [Place])
    ensures { IsPermutation places.old places.new }
{
    if places.len() <= 8 {
        return;
    }
    sort_along(places);
    let half = places.len().next_power_of_two() / 2;
    let (front, back) = places.split_at_mut(half);
    arrange_squares(front);
    arrange_squares(back);
}

// Puts the places in this order.
pub(crate) fn arrange(order: Order, places: &mut [Place])
    ensures { IsPermutation places.old places.new }
{
    match order {
        Order::Squares => arrange_squares(places),
        Order::Strips => places.sort_unstable_by_key(|place| place.strip()),
    }
}
