// Spans that are opened at a second.
ghost use Rattle.std.specs.Prelude.{◌≡◌, ◌<◌, ◌≤◌, ◌+◌, ◌-◌, ◌^◌, ℕ, length, slice_get, reverse, Option, Some, OnOk};
ghost use Rattle.route_split.specs.Table.{Table};
ghost use Rattle.range_spans.specs.declared.pending.OpenSpan.{OpenSpan};
ghost use Rattle.raptor_rounds.specs.Answers.{HasSeconds};
ghost use Rattle.range_spans.specs.Open.{RangeQuery, BeginLater, Stands};
ghost use Rattle.range_search.specs.Leads.{IsOpeningOf, Right};

use crate::leads::{find_leads, foot_bound};
use crate::rides::push_rides;
use move_model::{NoMemory, RideList, Span};
use range_lanes::Level;
use range_spans::{OpenSpan, close_spans};
use std::alloc::Global;

/// Opens a span for a lead, unless one is open.
fn open_span(
    alloc: Global,
    levels: &[Level],
    k: usize,
    lead: Option<u64>,
    depart: u32,
    pending: &mut Option<OpenSpan>,
) -> Result<(), NoMemory>
    requires { k < length levels.now }
    ensures { OnOk result (IsOpeningOf levels.now k lead depart pending.old pending.new) }
{
    let Some(arrive) = lead else {
        return Ok(());
    };
    if pending.is_some() {
        return Ok(());
    }
    let mut rides = RideList::new(alloc);
    push_rides(levels, k, levels[k].best_stop, &mut rides)?;
    *pending = Some(OpenSpan {
        last: depart,
        arrive,
        rides,
    });
    Ok(())
}

/// Opens a span for each lead that has none.
fn open_spans(
    alloc: Global,
    levels: &[Level],
    leads: &[Option<u64>],
    depart: u32,
    pending: &mut [Option<OpenSpan>],
) -> Result<(), NoMemory>
    requires leads { length leads.now ≡ length levels.now }
    requires pending { length pending.old ≡ length levels.now }
    ensures many { length pending.new ≡ length pending.old }
    ensures opens { OnOk result ((k : ℕ) (lead : Option ℕ) (old new : Option OpenSpan) → slice_get leads.now k ≡ Some lead → slice_get pending.old k ≡ Some old
        → slice_get pending.new k ≡ Some new → IsOpeningOf levels.now k lead depart old new) }
{
    for k in 0..levels.len() {
        open_span(alloc, levels, k, leads[k], depart, &mut pending[k])?;
    }
    Ok(())
}

/// Closes and opens spans at a second at which the levels are right.
pub fn turn_spans(
    alloc: Global,
    levels: &[Level],
    foot: Option<u64>,
    depart: u32,
    leads: &mut [Option<u64>],
    pending: &mut [Option<OpenSpan>],
    closed: &mut Vec<Span>,
) -> Result<(), NoMemory>
    requires foot { HasSeconds foot }
    requires early { depart < 2 ^ 32 - 1 }
    requires few { length levels.now < 256 }
    requires leads { length leads.old ≡ length levels.now }
    requires pending { length pending.old ≡ length levels.now }
    ensures leads { length leads.new ≡ length levels.now }
    ensures pending { length pending.new ≡ length levels.now }
    ensures stands { OnOk result ((q : RangeQuery) (table : Table) (last : ℕ) → q.foot ≡ foot → Right q table depart levels.now → depart ≤ last
        → Stands q (depart + 1) last pending.old (reverse closed.old.items) → BeginLater (depart + 1) (reverse closed.old.items)
        → Stands q depart last pending.new (reverse closed.new.items)) }
    ensures later { OnOk result (BeginLater (depart + 1) (reverse closed.old.items) → BeginLater depart (reverse closed.new.items)) }
{
    find_leads(levels, foot_bound(foot, depart), leads);
    close_spans(pending, leads, depart + 1, closed)?;
    open_spans(alloc, levels, leads, depart, pending)?;
    Ok(())
}
