// Spans whose first second is not yet known, and those that are closed.
ghost use Rattle.std.specs.Prelude.{◌≡◌, ◌+◌, ◌<◌, ◌≤◌, ◌⊎◌, ◌^◌, ℕ, List, length, All, Contains, true, false, Option, Some, None, OnOk, IfOk, slice_get, reverse, [], ◌∷◌, ◌++◌};
ghost use Rattle.move_model.specs.declared.journey.Span.{Span};
ghost use Rattle.move_model.specs.Range.{IsRangeOf, IsListedBest, CarriesRides, pair_of};
ghost use Rattle.range_spans.specs.declared.pending.OpenSpan.{OpenSpan};
ghost use Rattle.range_spans.specs.Open.{RangeQuery, IsLead, Closing, Stands, BeginLater};

use move_model::{NoMemory, RideList, Span, Spans};

/// A span whose first second is not yet known: its pair is best from `last` back to the second that was looked at last.
#[derive(Drop)]
pub struct OpenSpan {
    pub last: u32,
    pub arrive: u64,
    pub rides: RideList,
}

/// Whether the span's pair is still best.
fn is_led(pending: &Option<OpenSpan>, lead: Option<u64>) -> bool
    ensures led { result ≡ true → (s : OpenSpan) → pending.now ≡ Some s → lead ≡ Some s.arrive }
    ensures ended { result ≡ false → (s : OpenSpan) → pending.now ≡ Some s → lead ≡ Some s.arrive → ⊥ }
{
    match (pending, lead) {
        (Some(span), Some(arrive)) => span.arrive == arrive,
        _ => false,
    }
}

/// Closes the span, where its pair is best no more.
fn close_ended(
    pending: &mut Option<OpenSpan>,
    lead: Option<u64>,
    trips: u8,
    first: u32,
    closed: &mut Vec<Span>,
) -> Result<(), NoMemory>
    ensures { OnOk result (Closing lead trips first pending.old pending.new closed.old.items closed.new.items) }
{
    if is_led(pending, lead) {
        return Ok(());
    }
    match pending.take() {
        Some(span) => {
            closed.push(Span {
                first,
                last: span.last,
                trips,
                arrive: span.arrive,
                rides: span.rides,
            })?;
            Ok(())
        }
        None => Ok(()),
    }
}

/// Closes each span whose pair is best no more at the second before `first`, the one with most trips first.
pub fn close_spans(
    pending: &mut [Option<OpenSpan>],
    leads: &[Option<u64>],
    first: u32,
    closed: &mut Vec<Span>,
) -> Result<(), NoMemory>
    requires many { length leads.now ≡ length pending.old }
    requires few { length pending.old < 256 }
    ensures many { length pending.new ≡ length pending.old }
    ensures kept { OnOk result ((k : ℕ) (s : OpenSpan) → slice_get pending.new k ≡ Some (Some s) → slice_get leads.now k ≡ Some (Some s.arrive)) }
    ensures closed { OnOk result ((s : Span) → Contains (reverse closed.new.items) s
        → Contains (reverse closed.old.items) s ⊎ ((s.first ≡ first) × (IsLead leads.now (pair_of s) → ⊥))) }
    ensures stands { OnOk result ((q : RangeQuery) (last : ℕ) → Stands q first last pending.old (reverse closed.old.items) → BeginLater first (reverse closed.old.items)
        → Stands q first last pending.new (reverse closed.new.items)) }
{
    let count = pending.len();
    for i in 0..count {
        let k = count - 1 - i;
        close_ended(&mut pending[k], leads[k], k as u8 + 1, first, closed)?;
    }
    Ok(())
}

/// Leaves no lead.
fn no_leads(leads: &mut [Option<u64>])
    ensures many { length leads.new ≡ length leads.old }
    ensures none { All (λ lead. lead ≡ None) leads.new }
{
    for k in 0..leads.len() {
        leads[k] = None;
    }
}

/// Closes all spans at the first second of the window, and gives them in order.
pub fn finish_spans(
    pending: &mut [Option<OpenSpan>],
    leads: &mut [Option<u64>],
    first: u32,
    closed: Vec<Span>,
) -> Result<Spans, NoMemory>
    requires many { length leads.old ≡ length pending.old }
    requires few { length pending.old < 256 }
    ensures range { IfOk result (λ spans. (q : RangeQuery) (last : ℕ) → Stands q first last pending.old (reverse closed.items) → BeginLater first (reverse closed.items)
        → IsRangeOf (λ d pair. IsListedBest q.network q.first_row q.last_row q.list q.foot d q.limit pair) first last q.foot spans) }
    ensures rides { IfOk result (λ spans. (q : RangeQuery) (last : ℕ) → Stands q first last pending.old (reverse closed.items) → BeginLater first (reverse closed.items)
        → All (CarriesRides q.network q.first_row q.last_row q.list) spans) }
    ensures leads { length leads.new ≡ length leads.old }
    ensures many { length pending.new ≡ length pending.old }
{
    let mut closed = closed;
    no_leads(leads);
    close_spans(pending, leads, first, &mut closed)?;
    closed.as_mut_slice().reverse();
    Ok(Spans::from_vec(closed))
}
