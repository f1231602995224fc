// The order of changes.
ghost use Rattle.std.specs.Prelude.{◌≡◌, ◌⊎◌, ◌↔◌, ℕ, ◌-◌, ◌<◌, ◌^◌, All, Contains, IsTrue, MatchOption, length};
ghost use Rattle.move_model.specs.Check.{KeepsRules};
ghost use Rattle.move_model.specs.Network.{IsStopDistance};
ghost use Rattle.move_model.specs.Shortcut.{entry_of as entry_of_lem, key_of};
ghost use Rattle.plain_shortcuts.specs.Walks.{HoldsWalks};
ghost use Rattle.plain_shortcuts.specs.Changes.{StandsAtStops, piece_of, IsLessTo, HasLess};

use crate::changes::Change;
use crate::walks::walk;
use move_model::{Key, Network, StopNo};
use pareto_laws::key_less;
use plain_search::ArrivalRow;

// 0 where the two stops are one, and otherwise 1 more than the first.
fn entry_of(from: StopNo, to: StopNo) -> u32
    requires { from.0 < 2 ^ 32 - 1 }
    ensures { result ≡ entry_of_lem from to }
{
    if from.0 == to.0 { 0 } else { 1 + from.0 }
}

/// The place of a change in the order of the pieces to a stop, or None where no walk leads there.
pub(crate) fn key_to(
    network: &Network,
    walks: &[ArrivalRow],
    change: &Change,
    to: StopNo,
) -> Option<Key>
    requires rules { KeepsRules network.now }
    requires few { length network.now.stops < 2 ^ 32 }
    requires walks { HoldsWalks network.now walks.now }
    requires stands { StandsAtStops network.now change.now }
    ensures { MatchOption result
        ((m : ℕ) → IsStopDistance network.now change.now.second.off.stop to m → ⊥)
        (λ key. (m : ℕ) × IsStopDistance network.now change.now.second.off.stop to m × (key ≡ key_of to (piece_of change.now m))) }
{
    let Some(to_end) = walk(network, walks, change.second.off.stop, to) else {
        return None;
    };
    Some(Key {
        arrive: u64::from(change.second.off.arr) + to_end,
        a2: change.second.off.arr,
        e: entry_of(change.second.off.stop, to),
        trip: change.second.ride.trip.0,
        ready: u64::from(change.ready),
        y: change.second.on.stop.0,
        a1: change.first.off.arr,
        c: entry_of(change.first.off.stop, change.second.on.stop),
    })
}

// Whether a change, with the walk on to a stop, comes before a key.
fn is_less(network: &Network, walks: &[ArrivalRow], change: &Change, to: StopNo, key: &Key) -> bool
    requires rules { KeepsRules network.now }
    requires few { length network.now.stops < 2 ^ 32 }
    requires walks { HoldsWalks network.now walks.now }
    requires stands { StandsAtStops network.now change.now }
    ensures { IsTrue result ↔ IsLessTo network.now change.now to key.now }
{
    match key_to(network, walks, change, to) {
        Some(own) => key_less(&own, key),
        None => false,
    }
}

/// Whether one of the changes, with the walk on to a stop, comes before a key.
pub(crate) fn has_less(
    network: &Network,
    walks: &[ArrivalRow],
    changes: &[Change],
    to: StopNo,
    key: &Key,
) -> bool
    requires rules { KeepsRules network.now }
    requires few { length network.now.stops < 2 ^ 32 }
    requires walks { HoldsWalks network.now walks.now }
    requires stand { All (StandsAtStops network.now) changes.now }
    ensures { IsTrue result ↔ HasLess network.now changes.now to key.now }
{
    for k in 0..changes.len() {
        if is_less(network, walks, &changes[k], to, key) {
            return true;
        }
    }
    false
}
