// Where the entries of a stop stand in the list of transfers.
ghost use Rattle.std.specs.Prelude.{◌≡◌, ◌<◌, ◌≤◌, ◌-◌, ◌^◌, ℕ, length, slice_get, slice_index, All, Contains, Some, vec_len, OnOk, IfOk};
ghost use Rattle.move_model.specs.declared.journey.Shortcut.{Shortcut};
ghost use Rattle.raptor_rounds.specs.Answers.{IsEntryWithin};
ghost use Rattle.raptor_rounds.specs.Labels.{AreSpans};

use crate::sparse_row::{NEVER, SparseRow};
use move_model::{NoMemory, Shortcut, StopNo};
use std::alloc::Global;

/// For each stop the place of its first entry, or one before it, and the place behind its last.
///
/// In a list that rises by stop these are exactly its entries.
#[derive(Drop)]
pub struct Spans {
    pub firsts: SparseRow,
    pub ends: Vec<usize>,
}

/// Room for so many stops.
pub fn new_spans(alloc: Global, stops: u32) -> Result<Spans, NoMemory>
    ensures firsts { IfOk result (λ spans. length spans.firsts ≡ stops) }
    ensures ends { IfOk result (λ spans. vec_len spans.ends ≡ stops) }
{
    let firsts = SparseRow::new(alloc, stops)?;
    let ends: Vec<usize> = vec![in alloc; 0; stops as usize]?;
    Ok(Spans { firsts, ends })
}

// A place of an entry as a number of 32 bits, or one before it.
fn place_no(place: usize) -> u32
    ensures low { result < 2 ^ 32 - 1 }
    ensures no_later { result ≤ place }
{
    if place < NEVER as usize {
        place as u32
    } else {
        NEVER - 1
    }
}

/// Finds where the entries of each stop stand.
pub fn span_list(list: &[Shortcut], spans: &mut Spans)
    requires list { All (IsEntryWithin (length spans.old.firsts)) list.now }
    requires ends { vec_len spans.old.ends ≡ length spans.old.firsts }
    ensures firsts { length spans.new.firsts ≡ length spans.old.firsts }
    ensures ends { vec_len spans.new.ends ≡ length spans.old.firsts }
    ensures spans { AreSpans list.now (length list.now) spans.new }
{
    spans.firsts.clear();
    for i in 0..list.len() {
        let at = list[i].from.0;
        if spans.firsts.get(at) == NEVER {
            spans.firsts.set(at, place_no(i));
        }
        spans.ends[at as usize] = i + 1;
    }
}

/// Lends the part of the list in which all entries of a stop stand.
pub fn entries_of<'a>(list: &'a [Shortcut], spans: &Spans, from: StopNo) -> &'a [Shortcut]
    requires from { from.0 < length spans.now.firsts }
    requires ends { vec_len spans.now.ends ≡ length spans.now.firsts }
    requires spans { AreSpans list.now (length list.now) spans.now }
    ensures within { (e : Shortcut) → Contains result.now e → Contains list.now e }
    ensures all { (e : Shortcut) → Contains list.now e → e.from ≡ from → Contains result.now e }
{
    let first = spans.firsts.get(from.0) as usize;
    let end = spans.ends[from.0 as usize];
    if first < end && end <= list.len() {
        &list[first..end]
    } else {
        &list[..0]
    }
}
