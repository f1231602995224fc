// Sums over all parts of a city, in which the place of each part counts.
use city_maker::Generated;
use move_model::{Arc, Call, Query, Stop, Trip};

// A sum of so many numbers, each times its place from 1.
#[derive(Drop)]
struct Sum {
    place: u64,
    total: u64,
}

impl Sum {
    fn new() -> Sum {
        Sum { place: 0, total: 0 }
    }

    fn add(&mut self, number: u64) {
        self.place = self.place.wrapping_add(1);
        self.total = self.total.wrapping_add(self.place.wrapping_mul(number));
    }
}

// The first, twice the second and three times the third.
fn weighed(first: u32, second: u32, third: u32) -> u64 {
    let twice = u64::from(second).wrapping_mul(2);
    let thrice = u64::from(third).wrapping_mul(3);
    u64::from(first).wrapping_add(twice).wrapping_add(thrice)
}

fn sum_arcs(arcs: &[Arc]) -> u64 {
    let mut sum = Sum::new();
    for arc in arcs {
        sum.add(weighed(arc.from.0, arc.to.0, arc.seconds));
    }
    sum.total
}

fn sum_stops(stops: &[Stop]) -> u64 {
    let mut sum = Sum::new();
    for stop in stops {
        sum.add(u64::from(stop.node.0));
    }
    sum.total
}

fn sum_calls(calls: &[Call]) -> u64 {
    let mut sum = Sum::new();
    for call in calls {
        sum.add(weighed(call.stop.0, call.arr, call.dep));
    }
    sum.total
}

fn sum_trips(trips: &[Trip]) -> u64 {
    let mut sum = Sum::new();
    for trip in trips {
        sum.add(sum_calls(trip.calls.as_slice()));
    }
    sum.total
}

fn sum_query(query: &Query) -> u64 {
    match query {
        Query::At {
            from,
            to,
            depart,
            ..
        } => weighed(from.node.0, to.node.0, *depart),
        Query::Range {
            from,
            to,
            first,
            last,
            ..
        } => weighed(from.node.0, to.node.0, *first).wrapping_add(u64::from(*last)),
    }
}

fn sum_queries(queries: &[Query]) -> u64 {
    let mut sum = Sum::new();
    for query in queries {
        sum.add(sum_query(query));
    }
    sum.total
}

/// The sums over the arcs, the stops, the trips and the queries.
pub fn sums(city: &Generated) -> [u64; 4] {
    let network = &city.network;
    [
        sum_arcs(network.arcs.as_slice()),
        sum_stops(network.stops.as_slice()),
        sum_trips(network.trips.as_slice()),
        sum_queries(city.queries.as_slice()),
    ]
}
