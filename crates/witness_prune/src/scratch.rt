// The scratch memory of a search.
ghost use Rattle.std.specs.Prelude.{◌≡◌, ◌<◌, ◌≤◌, ◌+◌, ◌^◌, ◌⊎◌, ◌↔◌, ℕ, List, All, Contains, IfOk, OnOk, OnErr, Some, length, replicate, slice_get, slice_index, vec_len, vec_capacity};
ghost use Rattle.move_model.specs.declared.network.Network.{Network};
ghost use Rattle.move_model.specs.declared.network.NodeNo.{NodeNo};
ghost use Rattle.move_model.specs.declared.network.StopNo.{StopNo};
ghost use Rattle.move_model.specs.Network.{node_of};
ghost use Rattle.route_split.specs.Route.{Route, IsRoute};
ghost use Rattle.route_split.specs.Calls.{HoldsTrips};
ghost use Rattle.stop_rows.specs.Rows.{Rows, entry, place_at};
ghost use Rattle.piece_laws.specs.Tables.{OwnStands};
ghost use Rattle.two_trip_passes.specs.Own.{own_at};
ghost use Rattle.two_trip_passes.specs.Read.{IsFound, IsReadUntil, HasRead};
ghost use Rattle.witness_prune.specs.Needed.{Pair};
ghost use Rattle.witness_prune.specs.Labels.{kept_of, Fits, IsNone};
ghost use Rattle.witness_prune.specs.Scratch.{IsFootFrom, FitsScratch, IsAt, IsBoarded, AddsNeeded};
ghost use Rattle.witness_prune.specs.Search.{AreParts};

use crate::Needed;
use crate::labels::{Labels, clear_seconds, no_seconds};
use move_model::{NoMemory, StopNo};
use route_split::{RouteRows, Timetable};
use std::alloc::Global;
use stop_rows::StopRows;
use two_trip_passes::{own_all, read_all, read_until};
use two_trip_rides::NEVER;

/// The place of each stop, the seconds on foot to each, what is kept, the cuts of a pass of walks, the least arrivals of the
/// rides of a start, and the pairs that a step reads.
#[derive(Drop)]
pub struct Scratch {
    pub places: Vec<u32>,
    pub foot: Vec<u32>,
    pub labels: Labels,
    pub cuts: Vec<u32>,
    pub own: Vec<u32>,
    pub pairs: Vec<(StopNo, StopNo)>,
}

// The place of each stop.
fn places_of(alloc: Global, rows: &StopRows) -> Result<Vec<u32>, NoMemory>
    ensures places { IfOk result (λ places. places.items ≡ rows.now.places) }
    ensures within { IfOk result (λ places. All (λ p. p < length rows.now.nodes) places.items) }
{
    let count = rows.stops();
    let mut places: Vec<u32> = Vec::with_capacity(alloc, count as usize)?;
    for stop in 0..count {
        places.push_reserved(rows.place(StopNo(stop)));
    }
    Ok(places)
}

// Puts down the seconds from a place to each stop.
fn put_foot(row: &[u32], places: &[u32], foot: &mut [u32])
    requires many { length foot.old ≡ length places.now }
    requires within { All (λ p. p < length row.now) places.now }
    ensures many { length foot.new ≡ length foot.old }
    ensures each { (x : ℕ) → x < length places.now → slice_index foot.new x ≡ slice_index row.now (slice_index places.now x) }
{
    for stop in 0..places.len() {
        foot[stop] = row[places[stop] as usize];
    }
}

// Puts down the least arrivals of the rides from some stops at a second and the buffer, where none are known. None departs
// past the last second that fits.
fn own_rides(
    table: &Timetable,
    routes: &[RouteRows],
    stops: &[StopNo],
    second: u32,
    own: &mut [u32],
)
    requires routes { routes.now ≡ table.now.routes }
    requires whole { All (IsRoute (length own.old)) routes.now }
    requires exist { All (λ stop. stop.0 < table.now.stops) stops.now }
    requires none { own.old ≡ replicate (length own.old) NEVER }
    ensures many { length own.new ≡ length own.old }
    ensures stands { (n : Network) → n.buffer ≡ table.now.buffer → HoldsTrips n.trips routes.now → OwnStands n stops.now second (own_at own.new) }
{
    match second.checked_add(table.buffer()) {
        Some(departs) => own_all(table, routes, stops, departs, own),
        None => {}
    }
}

// Forgets the arrivals of the last start, and puts down those of this one.
fn put_own(
    table: &Timetable,
    routes: &[RouteRows],
    stops: &[StopNo],
    second: u32,
    own: &mut Vec<u32>,
)
    requires routes { routes.now ≡ table.now.routes }
    requires whole { All (IsRoute (length own.old.items)) routes.now }
    requires exist { All (λ stop. stop.0 < table.now.stops) stops.now }
    ensures many { length own.new.items ≡ length own.old.items }
    ensures stands { (n : Network) → n.buffer ≡ table.now.buffer → HoldsTrips n.trips routes.now → OwnStands n stops.now second (own_at own.new.items) }
{
    clear_seconds(own);
    own_rides(table, routes, stops, second, own.as_mut_slice());
}

// The second after the last one at which a second ride is left of which the labels say that a walk is needed, and one that
// isn't known; or 0, where there is none.
fn until_known(
    rows: &StopRows,
    second: u32,
    foot: &[u32],
    own: &[u32],
    labels: &Labels,
    known: &[(StopNo, StopNo)],
) -> u64
    requires foot { length foot.now ≡ length rows.now.places }
    requires boarded { length labels.now.boarded.items ≡ length rows.now.places }
    requires best { length labels.now.best.items ≡ length rows.now.places }
    ensures { (v : StopNo) → v.0 < length rows.now.places
        → IsReadUntil rows.now foot.now second own.now labels.now.boarded.items labels.now.best.items known.now v result }
{
    let boarded = labels.boarded.as_slice();
    let best = labels.best.as_slice();
    read_until(rows, second, foot, own, boarded, best, known)
}

// Reads the pairs of second rides that are left before a second off the labels, but for some that are known.
fn read_pairs(
    rows: &StopRows,
    second: u32,
    before: u64,
    foot: &[u32],
    own: &[u32],
    labels: &Labels,
    known: &[(StopNo, StopNo)],
    pairs: &mut Vec<(StopNo, StopNo)>,
)
    requires foot { length foot.now ≡ length rows.now.places }
    requires boarded { length labels.now.boarded.items ≡ length rows.now.places }
    requires best { length labels.now.best.items ≡ length rows.now.places }
    requires room { length rows.now.places ≤ vec_capacity pairs.old }
    ensures pairs { (q : Pair) → IsFound known.now pairs.new.items q
        ↔ (Contains known.now q ⊎ HasRead rows.now foot.now second before own.now labels.now.boarded.items labels.now.best.items (length rows.now.places) q.0 q.1) }
    ensures room { length rows.now.places ≤ vec_capacity pairs.new }
{
    pairs.clear();
    let boarded = labels.boarded.as_slice();
    let best = labels.best.as_slice();
    read_all(rows, second, before, foot, own, boarded, best, known, pairs);
}

impl Scratch {
    /// Memory in which nothing is kept.
    pub fn new(alloc: Global, routes: &[RouteRows], rows: &StopRows) -> Result<Scratch, NoMemory>
        ensures { IfOk result (FitsScratch routes.now rows.now) }
    {
        let places = places_of(alloc, rows)?;
        let labels = Labels::new(alloc, routes, rows)?;
        let stops = rows.stops();
        let foot = no_seconds(alloc, stops as usize)?;
        let cuts = no_seconds(alloc, rows.places() as usize)?;
        let own = no_seconds(alloc, stops as usize)?;
        let pairs = Vec::with_capacity(alloc, stops as usize)?;
        Ok(Scratch {
            places,
            foot,
            labels,
            cuts,
            own,
            pairs,
        })
    }

    /// Begins at a place, where nothing is kept.
    pub fn begin(&mut self, rows: &StopRows, place: u32)
        requires place { place < length rows.now.nodes }
        requires many { length self.old.foot.items ≡ length self.old.places.items }
        requires within { All (λ p. p < length rows.now.nodes) self.old.places.items }
        ensures fits { (routes : List Route) → FitsScratch routes rows.now self.old → FitsScratch routes rows.now self.new }
        ensures foot { (routes : List Route) → FitsScratch routes rows.now self.old → IsFootFrom rows.now place self.new.foot.items }
        ensures none { (routes : List Route) → FitsScratch routes rows.now self.old → IsNone routes rows.now (kept_of self.new.labels) }
    {
        let row = rows.row(place);
        let places = self.places.as_slice();
        let foot = self.foot.as_mut_slice();
        put_foot(row, places, foot);
        self.labels.clear();
    }

    // Goes on to a second that isn't later, and boards first rides at stops that are walked to before another second.
    fn go_on(
        &mut self,
        table: &Timetable,
        routes: &[RouteRows],
        rows: &StopRows,
        place: u32,
        second: u32,
        before: u64,
    )
        requires routes { routes.now ≡ table.now.routes }
        requires whole { All (IsRoute (length rows.now.places)) routes.now }
        requires many { table.now.stops ≡ length rows.now.places }
        requires fits { FitsScratch routes.now rows.now self.old }
        requires place { place < length rows.now.nodes }
        ensures fits { FitsScratch routes.now rows.now self.new }
        ensures foot { self.new.foot ≡ self.old.foot }
        ensures own { self.new.own ≡ self.old.own }
        ensures boarded { (n : Network) (z : ℕ) → AreParts n rows.now table.now → second ≤ z → IsAt n rows.now routes.now place z self.old
            → IsBoarded n rows.now routes.now place second before self.new }
    {
        let row = rows.row(place);
        let places = self.places.as_slice();
        let foot = self.foot.as_slice();
        let cuts = &mut self.cuts;
        self.labels.advance(table, routes, rows, places, foot, row, second, before, cuts);
    }

    // The second up to which stops are to be boarded, so that the labels tell all needed walks that aren't known, or 0, where
    // they are known.
    fn sought_until(&self, rows: &StopRows, second: u32, known: &[(StopNo, StopNo)]) -> u64
        requires foot { length self.now.foot.items ≡ length rows.now.places }
        requires boarded { length self.now.labels.boarded.items ≡ length rows.now.places }
        requires best { length self.now.labels.best.items ≡ length rows.now.places }
        ensures { (v : StopNo) → v.0 < length rows.now.places
            → IsReadUntil rows.now self.now.foot.items second self.now.own.items self.now.labels.boarded.items self.now.labels.best.items known.now v result }
    {
        let foot = self.foot.as_slice();
        let own = self.own.as_slice();
        until_known(rows, second, foot, own, &self.labels, known)
    }

    // Reads the pairs of second rides that are left before a second, but for those that are known, and adds them.
    fn add_pairs(
        &mut self,
        rows: &StopRows,
        second: u32,
        before: u64,
        needed: &mut Needed,
    ) -> Result<(), NoMemory>
        requires foot { length self.old.foot.items ≡ length rows.now.places }
        requires boarded { length self.old.labels.boarded.items ≡ length rows.now.places }
        requires best { length self.old.labels.best.items ≡ length rows.now.places }
        requires room { length rows.now.places ≤ vec_capacity self.old.pairs }
        ensures places { self.new.places ≡ self.old.places }
        ensures foot { self.new.foot ≡ self.old.foot }
        ensures labels { self.new.labels ≡ self.old.labels }
        ensures cuts { self.new.cuts ≡ self.old.cuts }
        ensures own { self.new.own ≡ self.old.own }
        ensures room { length rows.now.places ≤ vec_capacity self.new.pairs }
        ensures ok { OnOk result ((q : Pair) → Contains needed.new q ↔ (Contains needed.old q
            ⊎ HasRead rows.now self.old.foot.items second before self.old.own.items self.old.labels.boarded.items self.old.labels.best.items (length rows.now.places) q.0 q.1)) }
        ensures err { OnErr result (needed.new ≡ needed.old) }
    {
        let foot = self.foot.as_slice();
        let own = self.own.as_slice();
        let known = needed.as_slice();
        read_pairs(
            rows,
            second,
            before,
            foot,
            own,
            &self.labels,
            known,
            &mut self.pairs,
        );
        let pairs = self.pairs.as_slice();
        needed.insert_all(pairs)
    }

    /// Goes on to an earlier second, and adds the needed walks of the candidates from some stops of the place. What the rides
    /// from the place itself change comes first; the other stops are boarded only where a walk that isn't known may be needed,
    /// and only those that are walked to before the last such candidate's arrival.
    pub fn step(
        &mut self,
        table: &Timetable,
        routes: &[RouteRows],
        rows: &StopRows,
        place: u32,
        stops: &[StopNo],
        second: u32,
        needed: &mut Needed,
    ) -> Result<(), NoMemory>
        requires routes { routes.now ≡ table.now.routes }
        requires whole { All (IsRoute (length rows.now.places)) routes.now }
        requires many { table.now.stops ≡ length rows.now.places }
        requires fits { FitsScratch routes.now rows.now self.old }
        requires place { place < length rows.now.nodes }
        requires exist { All (λ stop. stop.0 < table.now.stops) stops.now }
        ensures fits { FitsScratch routes.now rows.now self.new }
        ensures at { (n : Network) (z : ℕ) → AreParts n rows.now table.now → second ≤ z → IsAt n rows.now routes.now place z self.old → IsAt n rows.now routes.now place second self.new }
        ensures ok { (n : Network) (z : ℕ) → AreParts n rows.now table.now → second ≤ z → IsAt n rows.now routes.now place z self.old
            → ((u : StopNo) → Contains stops.now u → place_at rows.now u ≡ place)
            → OnOk result (AddsNeeded n stops.now second needed.old needed.new) }
        ensures err { OnErr result (needed.new ≡ needed.old) }
    {
        let near = second as u64 + 1;
        self.go_on(table, routes, rows, place, second, near);
        put_own(table, routes, stops, second, &mut self.own);
        let until = self.sought_until(rows, second, needed.as_slice());
        if until == 0 {
            return Ok(());
        }
        let before = until.max(near);
        self.go_on(table, routes, rows, place, second, before);
        self.add_pairs(rows, second, before, needed)
    }
}
