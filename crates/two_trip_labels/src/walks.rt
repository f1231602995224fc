// Walks on from first rides.
ghost use Rattle.std.specs.Prelude.{◌≡◌, ◌<◌, ◌≤◌, ◌+◌, ◌^◌, ◌⊎◌, ℕ, false, length, slice_index};
ghost use Rattle.move_model.specs.Shortcut.{IsLess};
ghost use Rattle.piece_laws.specs.Pieces.{ready_entries};
ghost use Rattle.two_trip_rides.specs.Second.{ready_at};
ghost use Rattle.two_trip_labels.specs.Walks.{ReadyFall, AreCuts, IsWalkLabel, IsWalkedTo};

use piece_laws::{Ready, ready_less};
use two_trip_rides::NEVER;

// How many places are looked at together.
const BLOCK: usize = 32;

// Puts a label down at a place, where it is less.
fn lower_ready(place: usize, label: Ready, ready: &mut [Ready])
    requires { place < length ready.old }
    ensures known { IsLess (ready_entries label) (ready_entries (ready_at ready.new place)) → ⊥ }
    ensures falls { ReadyFall ready.old ready.new }
    ensures changed { (p : ℕ) → (ready_at ready.new p ≡ ready_at ready.old p) ⊎ ((p ≡ place) × (ready_at ready.new p ≡ label)) }
{
    if ready_less(label, ready[place]) {
        ready[place] = label;
    }
}

// Walks to a place by the row of the place where a ride was left, unless walking from the start is no later.
fn walk_to(
    row: &[u32],
    place: usize,
    foot: &[u32],
    second: u32,
    a1: u32,
    c: u32,
    ready: &mut [Ready],
)
    requires place { place < length row.now }
    requires foot { length foot.now ≡ length row.now }
    requires ready { length ready.old ≡ length row.now }
    ensures known { IsWalkedTo row.now foot.now second a1 c ready.new place }
    ensures falls { ReadyFall ready.old ready.new }
    ensures changed { (p : ℕ) → (ready_at ready.new p ≡ ready_at ready.old p) ⊎ IsWalkLabel row.now a1 c p (ready_at ready.new p) }
{
    let at = a1 as u64 + row[place] as u64;
    if at < NEVER as u64 && at < second as u64 + foot[place] as u64 {
        let label = Ready {
            ready: at as u32,
            a1,
            c,
        };
        lower_ready(place, label, ready);
    }
}

// A second after which being ready at a place is of no use: walking from the start is no later then, or the place has an
// earlier label.
fn cut_of(ready: u32, foot: u32, second: u32) -> u32
    ensures { (a : ℕ) → result < a → (second + foot ≤ a) ⊎ (ready < a) }
{
    let walked = second as u64 + foot as u64;
    if walked < ready as u64 {
        walked as u32
    } else {
        ready
    }
}

/// Puts down for each place a second after which being ready there is of no use.
pub fn put_cuts(foot: &[u32], second: u32, ready: &[Ready], cuts: &mut [u32])
    requires foot { length foot.now ≡ length ready.now }
    requires many { length cuts.old ≡ length ready.now }
    ensures { AreCuts foot.now second ready.now cuts.new }
{
    for place in 0..ready.len() {
        cuts[place] = cut_of(ready[place].ready, foot[place], second);
    }
}

// Whether a walk may be of use at one of some places that follow each other. It looks at all of them: so the loop takes
// several at once.
fn is_of_use(row: &[u32], from: usize, to: usize, a1: u32, cuts: &[u32]) -> bool
    requires row { to ≤ length row.now }
    requires cuts { to ≤ length cuts.now }
    ensures { result ≡ false → (p : ℕ) → from ≤ p → p < to → slice_index cuts.now p < a1 + slice_index row.now p }
{
    let mut useful = false;
    for place in from..to {
        if row[place] <= cuts[place].saturating_sub(a1) {
            useful = true;
        }
    }
    useful
}

// Walks to some places that follow each other.
fn walk_each(
    row: &[u32],
    from: usize,
    to: usize,
    foot: &[u32],
    second: u32,
    a1: u32,
    c: u32,
    ready: &mut [Ready],
)
    requires to { to ≤ length row.now }
    requires foot { length foot.now ≡ length row.now }
    requires ready { length ready.old ≡ length row.now }
    ensures known { (p : ℕ) → from ≤ p → p < to → IsWalkedTo row.now foot.now second a1 c ready.new p }
    ensures falls { ReadyFall ready.old ready.new }
    ensures changed { (p : ℕ) → (ready_at ready.new p ≡ ready_at ready.old p) ⊎ IsWalkLabel row.now a1 c p (ready_at ready.new p) }
{
    for place in from..to {
        walk_to(row, place, foot, second, a1, c, ready);
    }
}

// The same, unless that is of no use at any of them.
fn walk_block(
    row: &[u32],
    from: usize,
    to: usize,
    foot: &[u32],
    second: u32,
    a1: u32,
    c: u32,
    cuts: &[u32],
    ready: &mut [Ready],
)
    requires to { to ≤ length row.now }
    requires foot { length foot.now ≡ length row.now }
    requires ready { length ready.old ≡ length row.now }
    requires cuts { AreCuts foot.now second ready.old cuts.now }
    ensures known { (p : ℕ) → from ≤ p → p < to → IsWalkedTo row.now foot.now second a1 c ready.new p }
    ensures falls { ReadyFall ready.old ready.new }
    ensures changed { (p : ℕ) → (ready_at ready.new p ≡ ready_at ready.old p) ⊎ IsWalkLabel row.now a1 c p (ready_at ready.new p) }
{
    if is_of_use(row, from, to, a1, cuts) {
        walk_each(row, from, to, foot, second, a1, c, ready);
    }
}

/// Walks to all places by the row of the place where a ride was left, but to those where that is of no use.
pub fn walk_from(
    row: &[u32],
    foot: &[u32],
    second: u32,
    a1: u32,
    c: u32,
    cuts: &[u32],
    ready: &mut [Ready],
)
    requires foot { length foot.now ≡ length row.now }
    requires ready { length ready.old ≡ length row.now }
    requires cuts { AreCuts foot.now second ready.old cuts.now }
    ensures known { (p : ℕ) → p < length row.now → IsWalkedTo row.now foot.now second a1 c ready.new p }
    ensures falls { ReadyFall ready.old ready.new }
    ensures changed { (p : ℕ) → (ready_at ready.new p ≡ ready_at ready.old p) ⊎ IsWalkLabel row.now a1 c p (ready_at ready.new p) }
{
    let many = row.len();
    let mut from = 0;
    while from < many {
        let to = if many - from > BLOCK {
            from + BLOCK
        } else {
            many
        };
        walk_block(row, from, to, foot, second, a1, c, cuts, ready);
        from = to;
    }
}
