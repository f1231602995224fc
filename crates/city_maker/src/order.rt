// The numbers of trips.
ghost use Rattle.std.specs.Prelude.{◌≡◌, IfOk};
ghost use Rattle.city_maker.specs.Order as spec;
ghost use Rattle.city_maker.specs.Order.{IsNumbered};

use move_model::{Call, List, NoMemory, Trip, Trips};
use std::cmp::Ordering;

// How the seconds of two calls stand to each other.
fn compare_calls(call: Call, other: Call) -> Ordering
    ensures { result ≡ spec.call_cmp call other }
{
    let arrivals = call.arr.cmp(&other.arr);
    if arrivals != Ordering::Equal {
        return arrivals;
    }
    call.dep.cmp(&other.dep)
}

// How the seconds of two trips stand to each other in lexicographic order, call by call.
fn compare(trip: &Trip, other: &Trip) -> Ordering
    ensures { result ≡ spec.trip_cmp trip.now other.now }
{
    let (calls, others) = (trip.calls.as_slice(), other.calls.as_slice());
    for i in 0..calls.len().min(others.len()) {
        let order = compare_calls(calls[i], others[i]);
        if order != Ordering::Equal {
            return order;
        }
    }
    calls.len().cmp(&others.len())
}

/// The trips in the order of their numbers.
pub(crate) fn numbered(mut trips: Vec<Trip>) -> Result<Trips, NoMemory>
    ensures { IfOk result (IsNumbered trips.items) }
{
    trips.sort_by(|trip, other| compare(trip, other))?;
    Ok(List::from_vec(trips))
}
