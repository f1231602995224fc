// Departures in the order of their seconds, copied.
ghost use Rattle.std.specs.Prelude.{◌≡◌, ◌≤◌, ◌<◌, ◌^◌, ◌-◌, map, All, IfOk, length};
ghost use Rattle.service_day.specs.Order.{IsNumbered};
ghost use Rattle.service_day.specs.DayTrips.{call_count, most_trips, IsTimed};
ghost use Rattle.service_day.specs.Shift.{shifted_call};
ghost use Rattle.service_day.specs.Departure.{trip_of};

use crate::departure::Departure;
use move_model::{List, NoMemory, Trips};
use std::alloc::Global;

/// How many calls departures have.
pub(crate) fn count_calls(departures: &[Departure]) -> u64
    requires few { length departures.now ≤ most_trips }
    requires calls { All (λ departure. length departure.calls.now < 2 ^ 32) departures.now }
    ensures { result ≡ call_count (map trip_of departures.now) }
{
    let mut count = 0;
    for departure in departures {
        count += departure.calls() as u64;
    }
    count
}

fn copied(alloc: Global, departures: &[Departure]) -> Result<Trips, NoMemory>
    requires { All (λ departure. All (λ call. IsTimed (shifted_call departure.shift call)) departure.calls.now) departures.now }
    ensures { IfOk result (λ trips. trips ≡ map trip_of departures.now) }
{
    let mut trips = Vec::with_capacity(alloc, departures.len())?;
    for departure in departures {
        trips.push_reserved(departure.to_trip(alloc)?);
    }
    Ok(List::from_vec(trips))
}

/// The trips of departures, numbered.
pub(crate) fn numbered(alloc: Global, mut departures: Vec<Departure>) -> Result<Trips, NoMemory>
    requires { All (λ departure. All (λ call. IsTimed (shifted_call departure.shift call)) departure.calls.now) departures.items }
    ensures { IfOk result (IsNumbered (map trip_of departures.entry.items)) }
{
    departures.sort_by(|departure, other| departure.compare(other))?;
    copied(alloc, departures.as_slice())
}
