// All seconds of a window, from the last to the first.
ghost use Rattle.std.specs.Prelude.{◌≡◌, ◌<◌, ◌≤◌, ◌+◌, ◌-◌, ◌*◌, ◌/◌, ◌^◌, [], ℕ, List, length, reverse, All, None, Some, OnOk, slice_get, vec_len};
ghost use Rattle.std.specs.List.{AllAdjacentBelow};
ghost use Rattle.move_model.specs.declared.network.Network.{Network};
ghost use Rattle.route_split.specs.Calls.{IsTableOf};
ghost use Rattle.raptor_rounds.specs.Answers.{HasSeconds, IsEntryWithin};
ghost use Rattle.raptor_rounds.specs.Labels.{AreSpans};
ghost use Rattle.range_spans.specs.Open.{Stands, BeginLater};
ghost use Rattle.range_lanes.specs.Levels.{Fits};
ghost use Rattle.range_lanes.specs.Lent.{IsLentBy};
ghost use Rattle.range_profile.specs.Seeds.{AreWithin};
ghost use Rattle.range_profile.specs.Window.{SeedsWindow, asked};

use move_model::{NoMemory, Shortcut, Span, StopNo, WalkRow};
use range_lanes::{LentRows, Level};
use range_search::{search_last, search_second, turn_spans};
use range_spans::OpenSpan;
use raptor_rounds::{EntrySpans, SparseSet};
use route_split::Timetable;
use std::alloc::Global;
use std::sync::ledger::Ledger;
use steps::Steps;

/// Searches from the last second of the window to its first, and leaves its spans, but for those that are still open then.
pub fn search_window<'a, L: Ledger>(
    alloc: Global,
    table: &'a Timetable,
    held: &mut LentRows<'a>,
    departures: &[u32],
    seeds: &[Vec<StopNo>],
    list: &[Shortcut],
    entries: &EntrySpans,
    first_row: &WalkRow,
    last_row: &WalkRow,
    foot: Option<u64>,
    first: u32,
    last: u32,
    levels: &mut [Level],
    better: &mut SparseSet,
    fresh: &mut SparseSet,
    leads: &mut [Option<u64>],
    pending: &mut [Option<OpenSpan>],
    closed: &mut Vec<Span>,
    opens: &mut Steps<L>,
) -> Result<(), NoMemory>
    requires window { first ≤ last }
    requires short { last < 2 ^ 32 - 1 }
    requires falling { AllAdjacentBelow (λ a b. b < a) departures.now (length departures.now) }
    requires starts { slice_get departures.now 0 ≡ Some last }
    requires seeds { last - first ≤ length seeds.now }
    requires at_stops { AreWithin (length last_row.now) seeds.now }
    requires stops { table.now.stops ≡ length last_row.now }
    requires list { All (IsEntryWithin (length last_row.now)) list.now }
    requires firsts { length entries.now.firsts ≡ length last_row.now }
    requires ends { vec_len entries.now.ends ≡ length last_row.now }
    requires entries { AreSpans list.now (length list.now) entries.now }
    requires better { length better.old ≡ length last_row.now }
    requires first_row { length first_row.now ≡ length last_row.now }
    requires first_seconds { All HasSeconds first_row.now }
    requires last_seconds { All HasSeconds last_row.now }
    requires foot { HasSeconds foot }
    requires held { IsLentBy table.now held.old }
    requires fits { All (Fits (length last_row.now)) levels.old }
    requires few { length levels.old < 256 }
    requires fresh { length fresh.old ≡ length last_row.now }
    requires leads { length leads.old ≡ length levels.old }
    requires pending { length pending.old ≡ length levels.old }
    requires none_open { All (λ span. span ≡ None) pending.old }
    requires none_closed { closed.old.items ≡ [] }
    ensures stands { OnOk result ((n : Network) → IsTableOf n table.now → SeedsWindow table.now first_row.now first last seeds.now departures.now
        → Stands (asked n first_row.now last_row.now list.now foot (length levels.old)) first last pending.new (reverse closed.new.items)) }
    ensures later { OnOk result (BeginLater first (reverse closed.new.items)) }
    ensures fits { All (Fits (length last_row.now)) levels.new }
    ensures many { length levels.new ≡ length levels.old }
    ensures held { IsLentBy table.now held.new }
    ensures better { length better.new ≡ length last_row.now }
    ensures fresh { length fresh.new ≡ length last_row.now }
    ensures leads { length leads.new ≡ length levels.old }
    ensures pending { length pending.new ≡ length levels.old }
    ensures counted { opens.new ≤ opens.old + length table.now.routes * ((length departures.now + 7) / 8) }
{
    let _routes = table.routes();
    search_last(
        table, held, list, entries, first_row, last, levels, last_row, better, fresh, opens,
    );
    turn_spans(alloc, levels, foot, last, leads, pending, closed)?;
    let mut next = 1usize;
    for i in 0..last - first {
        let depart = last - 1 - i;
        let at = (depart - first) as usize;
        let stops = seeds[at].as_slice();
        next = search_second(
            table, held, departures, next, stops, list, entries, first_row, depart, levels,
            last_row, better, fresh, opens,
        );
        turn_spans(alloc, levels, foot, depart, leads, pending, closed)?;
    }
    Ok(())
}
