// The answer to a range.
ghost use Rattle.std.specs.Prelude.{◌≡◌, ◌<◌, ◌≤◌, ◌+◌, ◌-◌, ◌*◌, ◌/◌, ◌^◌, ℕ, List, length, All, IfOk, vec_len};
ghost use Rattle.move_model.specs.declared.network.Network.{Network};
ghost use Rattle.move_model.specs.Range.{IsListedRange, IsListedBest, IsRangeOf, CarriesRides, AreDepartures};
ghost use Rattle.route_split.specs.Calls.{IsTableOf};
ghost use Rattle.raptor_rounds.specs.Answers.{HasSeconds, IsEntryWithin};
ghost use Rattle.range_lanes.specs.Levels.{Fits};
ghost use Rattle.range_lanes.specs.Lent.{IsLentBy};
ghost use Rattle.range_profile.specs.Profile.{FitsWork, most_rides};

use crate::seeds::seeds_of;
use crate::window::search_window;
use move_model::{NoMemory, Profile, Shortcuts, Span, Spans, Trips, WalkRow};
use range_lanes::{LentRows, Level, new_levels};
use range_spans::{OpenSpan, finish_spans};
use raptor_rounds::{EntrySpans, SparseSet, new_spans, span_list};
use route_split::Timetable;
use std::alloc::Global;
use std::sync::ledger::Ledger;
use steps::Steps;

/// What ranges over a table need, for queries with at most so many rides. It is made once, and lent to [`profile_with`].
#[derive(Drop)]
pub struct ProfileWork<'a> {
    pub held: LentRows<'a>,
    pub entries: EntrySpans,
    pub levels: Vec<Level>,
    pub better: SparseSet,
    pub fresh: SparseSet,
    pub leads: Vec<Option<u64>>,
    pub pending: Vec<Option<OpenSpan>>,
}

/// So many levels at which no span is open.
fn none_open(alloc: Global, count: usize) -> Result<Vec<Option<OpenSpan>>, NoMemory>
    ensures { IfOk result (λ pending. vec_len pending ≡ count) }
{
    let mut pending: Vec<Option<OpenSpan>> = Vec::with_capacity(alloc, count)?;
    for _k in 0..count {
        pending.push(None)?;
    }
    Ok(pending)
}

impl<'a> ProfileWork<'a> {
    /// Takes the memory for ranges over the table with at most `limit` rides.
    pub fn new(alloc: Global, table: &'a Timetable, limit: u8) -> Result<ProfileWork<'a>, NoMemory>
        ensures fits { IfOk result (FitsWork table.now) }
        ensures most { IfOk result (λ work. most_rides work ≡ limit) }
    {
        let stops = table.stops();
        let held = LentRows::new(alloc, table)?;
        let entries = new_spans(alloc, stops)?;
        let levels = new_levels(alloc, stops, u32::from(limit))?;
        let better = SparseSet::new(alloc, stops)?;
        let fresh = SparseSet::new(alloc, stops)?;
        let leads: Vec<Option<u64>> = vec![in alloc; None; limit as usize]?;
        let pending = none_open(alloc, limit as usize)?;
        Ok(ProfileWork {
            held,
            entries,
            levels,
            better,
            fresh,
            leads,
            pending,
        })
    }
}

/// Forgets spans that are open.
fn forget_open(pending: &mut [Option<OpenSpan>])
    ensures many { length pending.new ≡ length pending.old }
    ensures none { All (λ span. span ≡ None) pending.new }
{
    for k in 0..pending.len() {
        pending[k] = None;
    }
}

/// The answer, in memory that is lent part by part.
fn profile_in<'a, L: Ledger>(
    alloc: Global,
    table: &'a Timetable,
    trips: &Trips,
    shortcuts: &Shortcuts,
    first_row: &WalkRow,
    last_row: &WalkRow,
    foot: Option<u64>,
    first: u32,
    last: u32,
    held: &mut LentRows<'a>,
    entries: &mut EntrySpans,
    levels: &mut [Level],
    better: &mut SparseSet,
    fresh: &mut SparseSet,
    leads: &mut [Option<u64>],
    pending: &mut [Option<OpenSpan>],
    opens: &mut Steps<L>,
) -> Result<Spans, NoMemory>
    requires window { first ≤ last }
    requires short { last < 2 ^ 32 - 1 }
    requires at_stops { All (λ trip. All (λ call. call.stop.0 < table.now.stops) trip.calls) trips.now }
    requires first_row { length first_row.now ≡ table.now.stops }
    requires first_seconds { All HasSeconds first_row.now }
    requires last_row { length last_row.now ≡ table.now.stops }
    requires last_seconds { All HasSeconds last_row.now }
    requires foot { HasSeconds foot }
    requires list { All (IsEntryWithin table.now.stops) shortcuts.now }
    requires held { IsLentBy table.now held.old }
    requires firsts { length entries.old.firsts ≡ table.now.stops }
    requires ends { vec_len entries.old.ends ≡ table.now.stops }
    requires fits { All (Fits table.now.stops) levels.old }
    requires few { length levels.old < 256 }
    requires better { length better.old ≡ table.now.stops }
    requires fresh { length fresh.old ≡ table.now.stops }
    requires leads { length leads.old ≡ length levels.old }
    requires pending { length pending.old ≡ length levels.old }
    ensures range { IfOk result (λ spans. (n : Network) → IsTableOf n table.now → n.trips ≡ trips.now
        → IsRangeOf (λ d pair. IsListedBest n first_row.now last_row.now shortcuts.now foot d (length levels.old) pair) first last foot spans) }
    ensures rides { IfOk result (λ spans. (n : Network) → IsTableOf n table.now → n.trips ≡ trips.now
        → All (CarriesRides n first_row.now last_row.now shortcuts.now) spans) }
    ensures counted { (n : Network) (ds : List ℕ) → n.trips ≡ trips.now → n.buffer ≡ table.now.buffer → AreDepartures n first_row.now first last ds
        → opens.new ≤ opens.old + length table.now.routes * ((length ds + 7) / 8) }
    ensures held { IsLentBy table.now held.new }
    ensures firsts { length entries.new.firsts ≡ table.now.stops }
    ensures ends { vec_len entries.new.ends ≡ table.now.stops }
    ensures fits { All (Fits table.now.stops) levels.new }
    ensures many { length levels.new ≡ length levels.old }
    ensures better { length better.new ≡ table.now.stops }
    ensures fresh { length fresh.new ≡ table.now.stops }
    ensures leads { length leads.new ≡ length levels.old }
    ensures pending { length pending.new ≡ length levels.old }
{
    let list = shortcuts.as_slice();
    span_list(list, entries);
    let seeds = seeds_of(alloc, table, trips, first_row, first, last)?;
    let departures = seeds.departures.as_slice();
    let stops = seeds.stops.as_slice();
    forget_open(pending);
    let mut closed: Vec<Span> = Vec::new(alloc);
    search_window(
        alloc,
        table,
        held,
        departures,
        stops,
        list,
        entries,
        first_row,
        last_row,
        foot,
        first,
        last,
        levels,
        better,
        fresh,
        leads,
        pending,
        &mut closed,
        opens,
    )?;
    finish_spans(pending, leads, first, closed)
}

/// The answer with at most `limit` rides, of which the memory may have room for more.
fn profile_within<'a, L: Ledger>(
    alloc: Global,
    table: &'a Timetable,
    trips: &Trips,
    shortcuts: &Shortcuts,
    first_row: &WalkRow,
    last_row: &WalkRow,
    foot: Option<u64>,
    first: u32,
    last: u32,
    held: &mut LentRows<'a>,
    entries: &mut EntrySpans,
    limit: u8,
    levels: &mut [Level],
    better: &mut SparseSet,
    fresh: &mut SparseSet,
    leads: &mut [Option<u64>],
    pending: &mut [Option<OpenSpan>],
    opens: &mut Steps<L>,
) -> Result<Spans, NoMemory>
    requires window { first ≤ last }
    requires short { last < 2 ^ 32 - 1 }
    requires at_stops { All (λ trip. All (λ call. call.stop.0 < table.now.stops) trip.calls) trips.now }
    requires first_row { length first_row.now ≡ table.now.stops }
    requires first_seconds { All HasSeconds first_row.now }
    requires last_row { length last_row.now ≡ table.now.stops }
    requires last_seconds { All HasSeconds last_row.now }
    requires foot { HasSeconds foot }
    requires list { All (IsEntryWithin table.now.stops) shortcuts.now }
    requires held { IsLentBy table.now held.old }
    requires firsts { length entries.old.firsts ≡ table.now.stops }
    requires ends { vec_len entries.old.ends ≡ table.now.stops }
    requires fits { All (Fits table.now.stops) levels.old }
    requires limit { limit ≤ length levels.old }
    requires few { length levels.old < 256 }
    requires better { length better.old ≡ table.now.stops }
    requires fresh { length fresh.old ≡ table.now.stops }
    requires leads { length leads.old ≡ length levels.old }
    requires pending { length pending.old ≡ length levels.old }
    ensures range { IfOk result (λ spans. (n : Network) → IsTableOf n table.now → n.trips ≡ trips.now
        → IsRangeOf (λ d pair. IsListedBest n first_row.now last_row.now shortcuts.now foot d limit pair) first last foot spans) }
    ensures rides { IfOk result (λ spans. (n : Network) → IsTableOf n table.now → n.trips ≡ trips.now
        → All (CarriesRides n first_row.now last_row.now shortcuts.now) spans) }
    ensures counted { (n : Network) (ds : List ℕ) → n.trips ≡ trips.now → n.buffer ≡ table.now.buffer → AreDepartures n first_row.now first last ds
        → opens.new ≤ opens.old + length table.now.routes * ((length ds + 7) / 8) }
    ensures held { IsLentBy table.now held.new }
    ensures firsts { length entries.new.firsts ≡ table.now.stops }
    ensures ends { vec_len entries.new.ends ≡ table.now.stops }
    ensures fits { All (Fits table.now.stops) levels.new }
    ensures many { length levels.new ≡ length levels.old }
    ensures better { length better.new ≡ table.now.stops }
    ensures fresh { length fresh.new ≡ table.now.stops }
    ensures leads { length leads.new ≡ length levels.old }
    ensures pending { length pending.new ≡ length levels.old }
{
    let count = usize::from(limit);
    let (low_levels, _) = levels.split_at_mut(count);
    let (low_leads, _) = leads.split_at_mut(count);
    let (low_pending, _) = pending.split_at_mut(count);
    profile_in(
        alloc,
        table,
        trips,
        shortcuts,
        first_row,
        last_row,
        foot,
        first,
        last,
        held,
        entries,
        low_levels,
        better,
        fresh,
        low_leads,
        low_pending,
        opens,
    )
}

/// For every second from `first` to `last` the pairs of arrival and number of rides that are best of who leaves then, on
/// foot or by a listed journey with at most `limit` rides: the seconds on foot, and spans by their first second and then
/// their trips, each with the rides of a journey that leaves at its last second. Seconds are of the service day. Routes are
/// opened at most once for eight departures.
pub fn profile_with<'a, L: Ledger>(
    work: &mut ProfileWork<'a>,
    alloc: Global,
    table: &'a Timetable,
    trips: &Trips,
    shortcuts: &Shortcuts,
    first_row: &WalkRow,
    last_row: &WalkRow,
    foot: Option<u64>,
    first: u32,
    last: u32,
    limit: u8,
    opens: &mut Steps<L>,
) -> Result<Profile, NoMemory>
    requires work { FitsWork table.now work.old }
    requires limit { limit ≤ most_rides work.old }
    requires window { first ≤ last }
    requires short { last < 2 ^ 32 - 1 }
    requires at_stops { All (λ trip. All (λ call. call.stop.0 < table.now.stops) trip.calls) trips.now }
    requires first_row { length first_row.now ≡ table.now.stops }
    requires first_seconds { All HasSeconds first_row.now }
    requires last_row { length last_row.now ≡ table.now.stops }
    requires last_seconds { All HasSeconds last_row.now }
    requires foot { HasSeconds foot }
    requires list { All (IsEntryWithin table.now.stops) shortcuts.now }
    ensures range { IfOk result (λ profile. (n : Network) → IsTableOf n table.now → n.trips ≡ trips.now
        → IsListedRange n first_row.now last_row.now shortcuts.now foot limit first last profile) }
    ensures rides { IfOk result (λ profile. (n : Network) → IsTableOf n table.now → n.trips ≡ trips.now
        → All (CarriesRides n first_row.now last_row.now shortcuts.now) profile.spans) }
    ensures counted { (n : Network) (ds : List ℕ) → n.trips ≡ trips.now → n.buffer ≡ table.now.buffer → AreDepartures n first_row.now first last ds
        → opens.new ≤ opens.old + limit * length table.now.routes * ((length ds + 7) / 8) }
    ensures work { FitsWork table.now work.new }
    ensures most { most_rides work.new ≡ most_rides work.old }
{
    if limit == 0 {
        return Ok(Profile {
            foot,
            spans: Spans::new(alloc),
        });
    }
    let spans = profile_within(
        alloc,
        table,
        trips,
        shortcuts,
        first_row,
        last_row,
        foot,
        first,
        last,
        &mut work.held,
        &mut work.entries,
        limit,
        work.levels.as_mut_slice(),
        &mut work.better,
        &mut work.fresh,
        work.leads.as_mut_slice(),
        work.pending.as_mut_slice(),
        opens,
    )?;
    Ok(Profile { foot, spans })
}

/// [`profile_with`] with memory of its own.
pub fn profile<L: Ledger>(
    alloc: Global,
    table: &Timetable,
    trips: &Trips,
    shortcuts: &Shortcuts,
    first_row: &WalkRow,
    last_row: &WalkRow,
    foot: Option<u64>,
    first: u32,
    last: u32,
    limit: u8,
    opens: &mut Steps<L>,
) -> Result<Profile, NoMemory>
    requires window { first ≤ last }
    requires short { last < 2 ^ 32 - 1 }
    requires at_stops { All (λ trip. All (λ call. call.stop.0 < table.now.stops) trip.calls) trips.now }
    requires first_row { length first_row.now ≡ table.now.stops }
    requires first_seconds { All HasSeconds first_row.now }
    requires last_row { length last_row.now ≡ table.now.stops }
    requires last_seconds { All HasSeconds last_row.now }
    requires foot { HasSeconds foot }
    requires list { All (IsEntryWithin table.now.stops) shortcuts.now }
    ensures range { IfOk result (λ profile. (n : Network) → IsTableOf n table.now → n.trips ≡ trips.now
        → IsListedRange n first_row.now last_row.now shortcuts.now foot limit first last profile) }
    ensures rides { IfOk result (λ profile. (n : Network) → IsTableOf n table.now → n.trips ≡ trips.now
        → All (CarriesRides n first_row.now last_row.now shortcuts.now) profile.spans) }
    ensures counted { (n : Network) (ds : List ℕ) → n.trips ≡ trips.now → n.buffer ≡ table.now.buffer → AreDepartures n first_row.now first last ds
        → opens.new ≤ opens.old + limit * length table.now.routes * ((length ds + 7) / 8) }
{
    let mut work = ProfileWork::new(alloc, table, limit)?;
    profile_with(
        &mut work, alloc, table, trips, shortcuts, first_row, last_row, foot, first, last, limit,
        opens,
    )
}
