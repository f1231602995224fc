// The timetable of a network.
ghost use Rattle.std.specs.Prelude.{◌≡◌, ◌<◌, ◌-◌, ◌^◌, map, length, All, IfOk, IsTrue};
ghost use Rattle.move_model.specs.Check.{KeepsRules};
ghost use Rattle.route_split.specs.Calls.{IsTableOf};
ghost use Rattle.route_split.specs.Routes.{AreRoutes};

use move_model::{Network, NoMemory, Trip};
use route_split::Timetable;
use std::alloc::Global;

// Whether each trip has few calls.
fn have_few_calls(trips: &[Trip]) -> bool
    ensures { IsTrue result → All (λ trip. length trip.calls < 2 ^ 32 - 1) trips.now }
{
    for i in 0..trips.len() {
        if trips[i].calls.len() >= 4_294_967_295 {
            return false;
        }
    }
    true
}

/// Whether a network is small and keeps the rules.
pub fn is_small(network: &Network) -> bool
    ensures rules { IsTrue result → KeepsRules network.now }
    ensures stops { IsTrue result → length network.now.stops < 1000 }
    ensures trips { IsTrue result → length network.now.trips < 1000 }
    ensures calls { IsTrue result → All (λ trip. length trip.calls < 2 ^ 32 - 1) network.now.trips }
{
    if network.arcs.len() >= 1000 || network.stops.len() >= 1000 || network.trips.len() >= 1000 {
        return false;
    }
    if !have_few_calls(network.trips.as_slice()) {
        return false;
    }
    match network.check() {
        Ok(()) => true,
        Err(_) => false,
    }
}

/// The timetable of a small network.
pub fn table_of(alloc: Global, network: &Network) -> Result<Timetable, NoMemory>
    requires rules { KeepsRules network.now }
    requires few { length network.now.trips < 1000 }
    requires few_stops { length network.now.stops < 1000 }
    requires few_calls { All (λ trip. length trip.calls < 2 ^ 32 - 1) network.now.trips }
    ensures table { IfOk result (IsTableOf network.now) }
    ensures routes { IfOk result (λ table. AreRoutes network.now.trips (map (λ route. route.trips) table.routes)) }
{
    let stops = network.stops.len() as u32;
    let table = Timetable::with_buffer(alloc, &network.trips, stops, network.buffer)?;
    Ok(table)
}
