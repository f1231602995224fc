// Trips of a day whose calls still stand in the feed.
ghost use Rattle.std.specs.Prelude.{◌≡◌, ◌<◌, [], ◌∷◌, map, All, IfOk, length, option_to_list};
ghost use Rattle.std.specs.Option.{option_map};
ghost use Rattle.std.specs.List.Sorted.{IsNonDecreasingBy};
ghost use Rattle.service_day.specs.Shift.{shifted_call, first_arrival};
ghost use Rattle.service_day.specs.Order.{call_cmp, trip_cmp};
ghost use Rattle.service_day.specs.DayTrips.{IsTimed, itself, copy_at, night_trips};

use crate::shift::Shift;
use gtfs_feed::FeedTrip;
use move_model::{Call, Calls, List, Name, NoMemory, Trip};
use std::alloc::Global;
use std::cmp::Ordering;

/// The seconds of a day.
pub(crate) const MIDNIGHT: u32 = 86_400;

/// Some calls of a trip of the feed, with what moves their seconds. The first arrival is kept, since
/// most departures are told apart by it.
#[derive(Clone, Copy)]
pub(crate) struct Departure<'a> {
    name: &'a Name,
    calls: &'a [Call],
    arrival: u64,
    shift: Shift,
    ghost first: { arrival ≡ first_arrival shift calls.now },
}

impl<'a> Departure<'a> {
    ghost use Rattle.service_day.specs.Departure.{trip_of};

    fn new(name: &'a Name, calls: &'a [Call], shift: Shift) -> Departure<'a>
        ensures name { result.name.now ≡ name.now }
        ensures calls { result.calls.now ≡ calls.now }
        ensures shift { result.shift ≡ shift }
    {
        let arrival = shift.first_arrival(calls);
        Departure {
            name,
            calls,
            arrival,
            shift,
        }
    }

    // The trip as the feed has it.
    pub(crate) fn of_trip(trip: &'a FeedTrip) -> Departure<'a>
        ensures same { trip_of result ≡ itself trip.now }
        ensures calls { result.calls.now ≡ trip.now.calls }
        ensures uncut { result.shift.cut ≡ 0 }
    {
        let shift = Shift {
            first: 0,
            start: 0,
            cut: 0,
        };
        Departure::new(&trip.name, trip.calls.as_slice(), shift)
    }

    // A copy of the trip that leaves its first stop at a second.
    pub(crate) fn of_copy(trip: &'a FeedTrip, start: u32) -> Departure<'a>
        requires { 0 < length trip.now.calls }
        ensures same { trip_of result ≡ copy_at trip.now start }
        ensures calls { result.calls.now ≡ trip.now.calls }
        ensures uncut { result.shift.cut ≡ 0 }
    {
        let calls = trip.calls.as_slice();
        let shift = Shift {
            first: calls[0].dep,
            start,
            cut: 0,
        };
        Departure::new(&trip.name, calls, shift)
    }

    // What is left of a trip of the day before: the calls from midnight on, if they are two or more.
    pub(crate) fn after_midnight(&self) -> Option<Departure<'a>>
        requires rising { IsNonDecreasingBy (λ call. call.dep) self.now.calls.now }
        requires uncut { self.now.shift.cut ≡ 0 }
        ensures { option_to_list (option_map trip_of result) ≡ night_trips (trip_of self.now ∷ []) }
    {
        let (calls, shift) = (self.calls, self.shift);
        let early = calls.partition_point(|call| shift.second(call.dep) < u64::from(MIDNIGHT));
        if calls.len() - early < 2 {
            return None;
        }
        let cut = Shift {
            cut: MIDNIGHT,
            ..shift
        };
        Some(Departure::new(self.name, &calls[early..], cut))
    }

    // How many calls there are.
    pub(crate) fn calls(&self) -> usize
        ensures { result ≡ length self.now.calls.now }
    {
        self.calls.len()
    }

    // How the seconds of two calls stand to each other.
    fn compare_calls(&self, call: Call, other: &Departure, next: Call) -> Ordering
        ensures { result ≡ call_cmp (shifted_call self.now.shift call) (shifted_call other.now.shift next) }
    {
        let (shift, others) = (self.shift, other.shift);
        let arrivals = shift.second(call.arr).cmp(&others.second(next.arr));
        if arrivals != Ordering::Equal {
            return arrivals;
        }
        shift.second(call.dep).cmp(&others.second(next.dep))
    }

    // How the seconds of two departures stand to each other in lexicographic order, call by call.
    fn compare_all(&self, other: &Departure) -> Ordering
        ensures { result ≡ trip_cmp (trip_of self.now) (trip_of other.now) }
    {
        let (calls, others) = (self.calls, other.calls);
        for i in 0..calls.len().min(others.len()) {
            let order = self.compare_calls(calls[i], other, others[i]);
            if order != Ordering::Equal {
                return order;
            }
        }
        calls.len().cmp(&others.len())
    }

    // The same, by the first arrivals where they differ.
    pub(crate) fn compare(&self, other: &Departure) -> Ordering
        ensures { result ≡ trip_cmp (trip_of self.now) (trip_of other.now) }
    {
        if self.arrival != other.arrival {
            return self.arrival.cmp(&other.arrival);
        }
        self.compare_all(other)
    }

    // The calls, copied.
    fn copied_calls(&self, alloc: Global) -> Result<Calls, NoMemory>
        requires { All (λ call. IsTimed (shifted_call self.now.shift call)) self.now.calls.now }
        ensures { IfOk result (λ calls. calls ≡ (trip_of self.now).calls) }
    {
        let (lent, shift) = (self.calls, self.shift);
        let mut calls = Vec::with_capacity(alloc, lent.len())?;
        for call in lent {
            calls.push_reserved(shift.call(*call));
        }
        Ok(List::from_vec(calls))
    }

    pub(crate) fn to_trip(&self, alloc: Global) -> Result<Trip, NoMemory>
        requires { All (λ call. IsTimed (shifted_call self.now.shift call)) self.now.calls.now }
        ensures { IfOk result (λ trip. trip ≡ trip_of self.now) }
    {
        let name = List::from_slice(alloc, self.name.as_slice())?;
        let calls = self.copied_calls(alloc)?;
        Ok(Trip { name, calls })
    }
}
