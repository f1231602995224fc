// The rows of a route.
ghost use Rattle.std.specs.Prelude.{◌≡◌, ◌+◌, ◌-◌, ◌<◌, ◌≤◌, ◌^◌, ℕ, length, slice_get, slice_index, MatchOption, IfSome};
ghost use Rattle.route_split.specs.Route.{arrivals_of, departures_of, NeverFalls};

use crate::Place;
use move_model::{StopNo, TripNo};
use std::marker::Model;

/// The rows of a route, lent by its table.
#[derive(Drop)]
pub struct RouteRows<'a> {
    pub(crate) seconds: &'a [u32],
    pub(crate) places: &'a [Place],
    pub(crate) trips: &'a [TripNo],
}

impl<'a> Model for RouteRows<'a> {
    ghost use Rattle.std.specs.Prelude.{◌≡◌, ◌<◌, ◌*◌, ◌^◌, length};
    ghost use Rattle.route_split.specs.Route.{Route};

    ghost Value = { Route };

    ghost view = { λ rows. record { places = rows.places.now; trips = rows.trips.now; seconds = rows.seconds.now } };

    ghost invariant = { λ rows. (length rows.seconds.now ≡ 2 * length rows.places.now * length rows.trips.now)
        × (length rows.places.now < 2 ^ 32)
        × (length rows.trips.now < 2 ^ 32) };
}

impl<'a> RouteRows<'a> {
    /// The number of calls of each trip.
    pub fn calls(&self) -> u32
        ensures { result ≡ length self.now.places }
    {
        self.places.len() as u32
    }

    /// When the trips depart from a call, in seconds, trip by trip.
    pub fn departs(&self, call: u32) -> &'a [u32]
        requires { call < length self.now.places }
        ensures departs { result.now ≡ departures_of self.now call }
        ensures one_each { length result.now ≡ length self.now.trips }
    {
        let count = self.trips.len();
        let at = (2 * call as usize + 1) * count;
        &self.seconds[at..at + count]
    }

    /// When the trips arrive at a call, in seconds, trip by trip.
    pub fn arrives(&self, call: u32) -> &'a [u32]
        requires { call < length self.now.places }
        ensures arrives { result.now ≡ arrivals_of self.now call }
        ensures one_each { length result.now ≡ length self.now.trips }
    {
        let count = self.trips.len();
        let at = 2 * call as usize * count;
        &self.seconds[at..at + count]
    }

    /// The stop and the flags of a call.
    pub fn place(&self, call: u32) -> Place
        requires { call < length self.now.places }
        ensures { slice_get self.now.places call ≡ Some result }
    {
        self.places[call as usize]
    }

    /// The stop of a call.
    pub fn stop(&self, call: u32) -> StopNo
        requires { call < length self.now.places }
        ensures { IfSome (slice_get self.now.places call) (λ place. result ≡ place.stop) }
    {
        self.place(call).stop
    }

    /// Whether a trip may be boarded at a call.
    pub fn board(&self, call: u32) -> bool
        requires { call < length self.now.places }
        ensures { IfSome (slice_get self.now.places call) (λ place. result ≡ place.board) }
    {
        self.place(call).board
    }

    /// Whether a trip may be left at a call.
    pub fn alight(&self, call: u32) -> bool
        requires { call < length self.now.places }
        ensures { IfSome (slice_get self.now.places call) (λ place. result ≡ place.alight) }
    {
        self.place(call).alight
    }

    /// The trip of a row, by its place in the route.
    pub fn trip(&self, row: usize) -> TripNo
        requires { row < length self.now.trips }
        ensures { slice_get self.now.trips row ≡ Some result }
    {
        let trips = self.trips;
        trips[row]
    }
}

// Rows up to this length are counted through: the compiler takes several entries at once.
const SHORT: usize = 64;

// The first place from `low` to `high` whose entry is at least `ready`.
fn first_from(row: &[u32], low: usize, high: usize, ready: u32) -> usize
    requires falls { NeverFalls row.now }
    requires order { low ≤ high }
    requires within { high ≤ length row.now }
    requires short { high - low < 2 ^ 32 }
    ensures within { result ≤ high }
    ensures before { (k : ℕ) → low ≤ k → k < result → slice_index row.now k < ready }
    ensures there { (k : ℕ) → result ≤ k → k < high → ready ≤ slice_index row.now k }
{
    let mut missed = 0u32;
    for k in low..high {
        missed = missed.wrapping_add(u32::from(row[k] < ready));
    }
    low + missed as usize
}

/// The least place in a row whose entry is at least `ready`, or None where all entries are less.
pub fn catch(row: &[u32], ready: u64) -> Option<usize>
    requires { NeverFalls row.now }
    ensures none { MatchOption result ((k : ℕ) → k < length row.now → slice_index row.now k < ready) (λ p. p < length row.now) }
    ensures caught { IfSome result (λ p. ready ≤ slice_index row.now p) }
    ensures first { IfSome result (λ p. (k : ℕ) → k < p → slice_index row.now k < ready) }
{
    if ready > u32::MAX as u64 {
        return None;
    }
    let ready = ready as u32;
    let mut low = 0;
    let mut high = row.len();
    while high - low > SHORT {
        let middle = low + (high - low) / 2;
        if row[middle] < ready {
            low = middle + 1;
        } else {
            high = middle;
        }
    }
    let place = first_from(row, low, high, ready);
    if place < row.len() { Some(place) } else { None }
}
