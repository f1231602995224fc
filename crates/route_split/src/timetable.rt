// The routes of a day.
ghost use Rattle.std.specs.Prelude.{◌≡◌, ◌<◌, ◌≤◌, ◌+◌, ◌-◌, ◌*◌, ◌^◌, ℕ, map, Bool, true, false, length, slice_get, slice_set, IfOk, All};
ghost use Rattle.std.specs.List.{AllAdjacentBelow};
ghost use Rattle.move_model.specs.Check.{Stays};
ghost use Rattle.move_model.specs.Network.{IsAtOrBefore};
ghost use Rattle.route_split.specs.Route.{IsRoute};
ghost use Rattle.route_split.specs.Calls.{HoldsTrips};
ghost use Rattle.route_split.specs.Routes.{AreRoutes};
ghost use Rattle.route_split.specs.Table.{LendsCalls, RiseByRoute};

use crate::day::day_routes;
use crate::fill::Flat;
use crate::index::{Index, index_of};
use crate::place::Head;
use crate::{Place, RoundMarks, RouteCall, RouteRows};
use move_model::{NoMemory, StopNo, TripNo, Trips};
use std::alloc::Global;
use std::marker::Model;
use std::sync::ledger::Ledger;
use steps::Steps;

/// The trips of a day by routes. The seconds of a route lie call by call, arrivals before departures, and in each row
/// trip by trip; the routes lie behind one another in flat vectors.
#[derive(Drop)]
pub struct Timetable {
    seconds: Vec<u32>,
    places: Vec<Place>,
    trips: Vec<TripNo>,
    heads: Vec<Head>,
    firsts: Vec<usize>,
    calls: Vec<RouteCall>,
    stops: u32,
    buffer: u32,
}

impl Model for Timetable {
    ghost use Rattle.std.specs.Prelude.{map, ◌<◌, ◌^◌, All, length};
    ghost use Rattle.route_split.specs.Route.{IsRoute};
    ghost use Rattle.route_split.specs.Table.{Table, route_of, HeadFits, IsIndex};

    ghost Value = { Table };

    ghost view = { λ t. record { stops = t.stops; buffer = t.buffer; routes = map (route_of t.seconds.items t.places.items t.trips.items) t.heads.items } };

    ghost invariant = { λ t. All (HeadFits t.seconds.items t.places.items t.trips.items) t.heads.items
        × (length t.heads.items < 2 ^ 32)
        × All (IsRoute t.stops) (map (route_of t.seconds.items t.places.items t.trips.items) t.heads.items)
        × IsIndex (map (route_of t.seconds.items t.places.items t.trips.items) t.heads.items) t.stops t.firsts.items t.calls.items };
}

impl Timetable {
    /// The routes of trips that stand in their order and call at so many stops, with no seconds to board.
    pub fn new(alloc: Global, trips: &Trips, stops: u32) -> Result<Timetable, NoMemory>
        requires few { length trips.now < 2 ^ 32 - 1 }
        requires few_calls { All (λ trip. length trip.calls < 2 ^ 32 - 1) trips.now }
        requires timed { All (λ trip. All Stays trip.calls) trips.now }
        requires at_stops { All (λ trip. All (λ call. call.stop.0 < stops) trip.calls) trips.now }
        requires in_order { AllAdjacentBelow (λ trip next. IsAtOrBefore trip.calls next.calls) trips.now (length trips.now) }
        ensures stops { IfOk result (λ table. table.stops ≡ stops) }
        ensures buffer { IfOk result (λ table. table.buffer ≡ 0) }
        ensures routes { IfOk result (λ table. AreRoutes trips.now (map (λ route. route.trips) table.routes)) }
        ensures rows { IfOk result (λ table. HoldsTrips trips.now table.routes) }
    {
        Timetable::with_buffer(alloc, trips, stops, 0)
    }

    /// What `new` gives, with the seconds that a passenger needs to board.
    pub fn with_buffer(
        alloc: Global,
        trips: &Trips,
        stops: u32,
        buffer: u32,
    ) -> Result<Timetable, NoMemory>
        requires few { length trips.now < 2 ^ 32 - 1 }
        requires few_calls { All (λ trip. length trip.calls < 2 ^ 32 - 1) trips.now }
        requires timed { All (λ trip. All Stays trip.calls) trips.now }
        requires at_stops { All (λ trip. All (λ call. call.stop.0 < stops) trip.calls) trips.now }
        requires in_order { AllAdjacentBelow (λ trip next. IsAtOrBefore trip.calls next.calls) trips.now (length trips.now) }
        ensures stops { IfOk result (λ table. table.stops ≡ stops) }
        ensures buffer { IfOk result (λ table. table.buffer ≡ buffer) }
        ensures routes { IfOk result (λ table. AreRoutes trips.now (map (λ route. route.trips) table.routes)) }
        ensures rows { IfOk result (λ table. HoldsTrips trips.now table.routes) }
    {
        let flat = day_routes(alloc, trips.as_slice(), stops)?;
        let index = index_of(alloc, &flat, stops)?;
        let Flat {
            seconds,
            places,
            trips,
            heads,
        } = flat;
        let Index { firsts, calls } = index;
        Ok(Timetable {
            seconds,
            places,
            trips,
            heads,
            firsts,
            calls,
            stops,
            buffer,
        })
    }

    /// The number of routes.
    pub fn routes(&self) -> u32
        ensures count { result ≡ length self.now.routes }
        ensures whole { All (IsRoute self.now.stops) self.now.routes }
    {
        self.heads.len() as u32
    }

    /// For how many stops the table was made.
    pub fn stops(&self) -> u32
        ensures { result ≡ self.now.stops }
    {
        self.stops
    }

    /// The seconds that a passenger needs to board.
    pub fn buffer(&self) -> u32
        ensures { result ≡ self.now.buffer }
    {
        self.buffer
    }

    /// Lends the calls at a stop, by route and in a route by call. They tell no times.
    pub fn at_stop(&self, stop: StopNo) -> &[RouteCall]
        requires { stop.0 < self.now.stops }
        ensures calls { LendsCalls self.now.routes stop.0 result.now }
        ensures rise { RiseByRoute result.now }
    {
        let from = self.firsts[stop.0 as usize];
        let to = self.firsts[stop.0 as usize + 1];
        &self.calls[from..to]
    }

    // The rows of a route.
    fn rows_of<'a>(&'a self, route: u32) -> RouteRows<'a>
        requires { route < length self.now.routes }
        ensures { slice_get self.now.routes route ≡ Some result }
    {
        let head = self.heads[route as usize];
        RouteRows {
            seconds: &self.seconds[head.second..head.second
                + 2 * head.calls as usize * head.trips as usize],
            places: &self.places[head.place..head.place + head.calls as usize],
            trips: &self.trips[head.trip..head.trip + head.trips as usize],
        }
    }

    /// Marks a route that is not marked, counts one step, and lends the route's rows.
    pub fn open_route<'a, L: Ledger>(
        &'a self,
        route: u32,
        marks: &mut RoundMarks,
        opens: &mut Steps<L>,
    ) -> RouteRows<'a>
        requires exists { route < length self.now.routes }
        requires unmarked { slice_get marks.old route ≡ Some false }
        ensures rows { slice_get self.now.routes route ≡ Some result }
        ensures whole { IsRoute self.now.stops result }
        ensures marked { marks.new ≡ slice_set marks.old route true }
        ensures counted { opens.new ≡ opens.old + 1 }
    {
        let _heads = &self.heads;
        marks.mark(route);
        opens.tick();
        self.rows_of(route)
    }
}
