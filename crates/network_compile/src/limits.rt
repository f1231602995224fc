// Whether a network can be compiled.
ghost use Rattle.std.specs.Prelude.{◌<◌, ◌-◌, ◌^◌, IsTrue, All, length};
ghost use Rattle.network_compile.specs.Limits.{IsWithin};

use move_model::{Network, Trip};

fn have_few_calls(trips: &[Trip]) -> bool
    ensures { IsTrue result → All (λ trip. length trip.calls < 2 ^ 32 - 1) trips.now }
{
    for trip in trips {
        if trip.calls.len() >= u32::MAX as usize {
            return false;
        }
    }
    true
}

// Whether arcs, stops, trips and calls are within the limits.
pub(crate) fn is_within(network: &Network) -> bool
    ensures { IsTrue result → IsWithin network.now }
{
    network.arcs.len() <= 8_000_000
        && network.stops.len() <= 200_000
        && network.trips.len() < u32::MAX as usize
        && have_few_calls(network.trips.as_slice())
}
