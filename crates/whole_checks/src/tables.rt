// Timetables of networks that keep the rules.
ghost use Rattle.std.specs.Prelude.{◌≡◌, ◌<◌, ◌-◌, ◌^◌, length, All, IfOk, IfSome, IsTrue};

use move_model::{Network, NoMemory, Trip};
use route_split::Timetable;
use std::alloc::Global;

// Whether each trip has few calls.
fn have_few_calls(trips: &[Trip]) -> bool
    ensures { IsTrue result → All (λ trip. length trip.calls < 2 ^ 32 - 1) trips.now }
{
    for i in 0..trips.len() {
        if trips[i].calls.len() >= 4_294_967_295 {
            return false;
        }
    }
    true
}

/// The timetable of a network, or None where it breaks a rule.
pub fn table_of(alloc: Global, n: &Network) -> Result<Option<Timetable>, NoMemory>
    ensures { IfOk result (λ made. IfSome made (λ table. All (λ trip. All (λ call. call.stop.0 < table.stops) trip.calls) n.now.trips)) }
{
    let few = n.trips.len() < 1000 && n.stops.len() < 1000 && n.arcs.len() < 1000;
    if !few || !have_few_calls(n.trips.as_slice()) {
        return Ok(None);
    }
    if n.check().is_err() {
        return Ok(None);
    }
    let stops = n.stops.len() as u32;
    let table = Timetable::with_buffer(alloc, &n.trips, stops, n.buffer)?;
    Ok(Some(table))
}
