// The flat vectors of a timetable.
ghost use Rattle.std.specs.Prelude.{◌≡◌, ◌<◌, ◌≤◌, ◌^◌, ◌-◌, ◌∷◌, ◌++◌, [], ℕ, length, map, All, IfOk, OnOk};
ghost use Rattle.route_split.specs.Table.{route_of, HeadFits};
ghost use Rattle.route_split.specs.Routes.{place_of};
ghost use Rattle.route_split.specs.Fill.{trip_at, first_calls, arrivals_at, departures_at, block, built, head_after, IsGroup};

use crate::Place;
use crate::place::Head;
use move_model::{Call, List, NoMemory, Trip, TripNo};
use std::alloc::Global;

/// The parts of all routes behind one another.
#[derive(Drop)]
pub struct Flat {
    pub seconds: Vec<u32>,
    pub places: Vec<Place>,
    pub trips: Vec<TripNo>,
    pub heads: Vec<Head>,
}

// The arrivals of a group's trips at one call.
fn push_arrivals(
    seconds: &mut Vec<u32>,
    trips: &[Trip],
    group: &[TripNo],
    k: usize,
) -> Result<(), NoMemory>
    requires exist { All (λ t. t.0 < length trips.now) group.now }
    requires calls { All (λ t. k < length (trip_at trips.now t.0).calls) group.now }
    ensures { OnOk result (seconds.new.items ≡ seconds.old.items ++ arrivals_at trips.now group.now k) }
{
    for t in group {
        let calls = trips[t.0 as usize].calls.as_slice();
        seconds.push(calls[k].arr)?;
    }
    Ok(())
}

// The departures of a group's trips at one call.
fn push_departures(
    seconds: &mut Vec<u32>,
    trips: &[Trip],
    group: &[TripNo],
    k: usize,
) -> Result<(), NoMemory>
    requires exist { All (λ t. t.0 < length trips.now) group.now }
    requires calls { All (λ t. k < length (trip_at trips.now t.0).calls) group.now }
    ensures { OnOk result (seconds.new.items ≡ seconds.old.items ++ departures_at trips.now group.now k) }
{
    for t in group {
        let calls = trips[t.0 as usize].calls.as_slice();
        seconds.push(calls[k].dep)?;
    }
    Ok(())
}

// The seconds of a group's trips at so many calls.
fn push_seconds(
    seconds: &mut Vec<u32>,
    trips: &[Trip],
    group: &[TripNo],
    calls: usize,
) -> Result<(), NoMemory>
    requires exist { All (λ t. t.0 < length trips.now) group.now }
    requires calls { All (λ t. calls ≤ length (trip_at trips.now t.0).calls) group.now }
    ensures { OnOk result (seconds.new.items ≡ seconds.old.items ++ block trips.now group.now calls) }
{
    for k in 0..calls {
        push_arrivals(seconds, trips, group, k)?;
        push_departures(seconds, trips, group, k)?;
    }
    Ok(())
}

// The places of calls.
fn push_places(places: &mut Vec<Place>, calls: &[Call]) -> Result<(), NoMemory>
    ensures { OnOk result (places.new.items ≡ places.old.items ++ map place_of calls.now) }
{
    for call in calls {
        places.push(Place {
            stop: call.stop,
            board: call.board,
            alight: call.alight,
        })?;
    }
    Ok(())
}

// The calls of a group's first trip.
fn first_of<'a>(trips: &'a [Trip], group: &[TripNo]) -> &'a [Call]
    requires some { 0 < length group.now }
    requires exist { All (λ t. t.0 < length trips.now) group.now }
    ensures { result.now ≡ first_calls trips.now group.now }
{
    let first = group[0];
    trips[first.0 as usize].calls.as_slice()
}

// The parts of a group's route behind those of the others.
fn push_parts(flat: &mut Flat, trips: &[Trip], group: &[TripNo]) -> Result<(), NoMemory>
    requires some { 0 < length group.now }
    requires few { length group.now < 2 ^ 32 }
    requires exist { All (λ t. t.0 < length trips.now) group.now }
    requires few_calls { length (first_calls trips.now group.now) < 2 ^ 32 }
    requires calls { All (λ t. length (first_calls trips.now group.now) ≤ length (trip_at trips.now t.0).calls) group.now }
    ensures seconds { OnOk result (flat.new.seconds.items ≡ flat.old.seconds.items ++ block trips.now group.now (length (first_calls trips.now group.now))) }
    ensures places { OnOk result (flat.new.places.items ≡ flat.old.places.items ++ map place_of (first_calls trips.now group.now)) }
    ensures trips { OnOk result (flat.new.trips.items ≡ flat.old.trips.items ++ group.now) }
    ensures heads { OnOk result (flat.new.heads.items
        ≡ flat.old.heads.items ++ head_after flat.old.seconds.items flat.old.places.items flat.old.trips.items trips.now group.now ∷ []) }
{
    let calls = first_of(trips, group);
    let head = Head {
        second: flat.seconds.len(),
        place: flat.places.len(),
        trip: flat.trips.len(),
        calls: calls.len() as u32,
        trips: group.len() as u32,
    };
    push_seconds(&mut flat.seconds, trips, group, calls.len())?;
    push_places(&mut flat.places, calls)?;
    flat.trips.extend_from_slice(group)?;
    flat.heads.push(head)?;
    Ok(())
}

// The route of a group behind the others.
fn push_route(flat: &mut Flat, trips: &[Trip], group: &[TripNo]) -> Result<(), NoMemory>
    requires group { IsGroup trips.now group.now }
    requires few_calls { All (λ trip. length trip.calls < 2 ^ 32 - 1) trips.now }
    ensures heads { OnOk result (All (HeadFits flat.old.seconds.items flat.old.places.items flat.old.trips.items) flat.old.heads.items
        → All (HeadFits flat.new.seconds.items flat.new.places.items flat.new.trips.items) flat.new.heads.items) }
    ensures routes { OnOk result (All (HeadFits flat.old.seconds.items flat.old.places.items flat.old.trips.items) flat.old.heads.items
        → map (route_of flat.new.seconds.items flat.new.places.items flat.new.trips.items) flat.new.heads.items
        ≡ map (route_of flat.old.seconds.items flat.old.places.items flat.old.trips.items) flat.old.heads.items ++ built trips.now group.now ∷ []) }
{
    push_parts(flat, trips, group)?;
    Ok(())
}

/// The routes of groups of trips.
pub fn filled(alloc: Global, trips: &[Trip], groups: &[List<TripNo>]) -> Result<Flat, NoMemory>
    requires groups { All (IsGroup trips.now) groups.now }
    requires few_calls { All (λ trip. length trip.calls < 2 ^ 32 - 1) trips.now }
    ensures heads { IfOk result (λ flat. All (HeadFits flat.seconds.items flat.places.items flat.trips.items) flat.heads.items) }
    ensures routes { IfOk result (λ flat. map (route_of flat.seconds.items flat.places.items flat.trips.items) flat.heads.items ≡ map (built trips.now) groups.now) }
{
    let mut flat = Flat {
        seconds: Vec::new(alloc),
        places: Vec::new(alloc),
        trips: Vec::new(alloc),
        heads: Vec::new(alloc),
    };
    for i in 0..groups.len() {
        push_route(&mut flat, trips, groups[i].as_slice())?;
    }
    Ok(flat)
}
