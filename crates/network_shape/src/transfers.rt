// The rules of walks between stops.
ghost use Rattle.std.specs.Prelude.{◌↔◌, IsTrue, All, length};
ghost use Rattle.std.specs.List.{AllAdjacentBelow};
ghost use Rattle.network_file.specs.Compiled.{IsTransfer, AreTransfers};
ghost use Rattle.network_shape.specs.Pairs.{IsPairBefore};

use move_model::Shortcut;

// No walk is longer.
const LONGEST: u64 = 2_000_000_000_000;

// Whether the entry joins two of so many stops.
fn is_transfer(stops: u32, entry: Shortcut) -> bool
    ensures { IsTrue result ↔ IsTransfer stops entry }
{
    entry.from.0 < stops
        && entry.to.0 < stops
        && entry.from.0 != entry.to.0
        && entry.seconds <= LONGEST
}

// Whether one entry stands before another one.
fn is_before(entry: Shortcut, other: Shortcut) -> bool
    ensures { IsTrue result ↔ IsPairBefore entry other }
{
    entry.from.0 < other.from.0 || (entry.from.0 == other.from.0 && entry.to.0 < other.to.0)
}

// Whether each entry joins two of so many stops.
fn each_is_transfer(stops: u32, list: &[Shortcut]) -> bool
    ensures { IsTrue result ↔ All (IsTransfer stops) list.now }
{
    for i in 0..list.len() {
        if !is_transfer(stops, list[i]) {
            return false;
        }
    }
    true
}

// Whether the entries stand in their order.
fn are_in_order(list: &[Shortcut]) -> bool
    ensures { IsTrue result ↔ AllAdjacentBelow IsPairBefore list.now (length list.now) }
{
    for i in 1..list.len() {
        if !is_before(list[i - 1], list[i]) {
            return false;
        }
    }
    true
}

/// Whether entries keep the rules of walks between so many stops.
pub fn are_transfers(stops: u32, list: &[Shortcut]) -> bool
    ensures { IsTrue result ↔ AreTransfers stops list.now }
{
    each_is_transfer(stops, list) && are_in_order(list)
}
