// The pairs that are needed.
ghost use Rattle.std.specs.Prelude.{◌≡◌, ◌≢◌, ◌⊎◌, ◌↔◌, ℕ, ◌+◌, ◌<◌, ◌≤◌, ◌^◌, [], ◌∷◌, All, Contains, IfOk, OnOk, IsTrue, length};
ghost use Rattle.move_model.specs.declared.network.NodeNo.{NodeNo};
ghost use Rattle.move_model.specs.declared.network.StopNo.{StopNo as StopNoValue};
ghost use Rattle.move_model.specs.Check.{KeepsRules};
ghost use Rattle.move_model.specs.Network.{IsNumbered, node_of as node_of_lem};
ghost use Rattle.move_model.specs.Shortcut.{IsBettered};
ghost use Rattle.piece_laws.specs.Pieces.{IsNeeded};
ghost use Rattle.shortcut_laws.specs.Pairs.{AreNeededPairs};
ghost use Rattle.plain_shortcuts.specs.Rides.{AreRides};
ghost use Rattle.plain_shortcuts.specs.Walks.{HoldsWalks};
ghost use Rattle.plain_shortcuts.specs.Changes.{IsChange, StandsAtStops, IsNeededChange, piece_of};
ghost use Rattle.plain_shortcuts.specs.Needed.{HasArrivals, ArrivesBy, AreChanges};

use crate::changes::{Change, changes_from};
use crate::keys::{has_less, key_to};
use crate::rides::{RideCalls, rides_of};
use crate::walks::{node_of, seconds_at};
use move_model::{Network, NoMemory, StopNo};
use plain_search::{ArrivalRow, earliest};
use std::alloc::Global;

// Whether an arrival is by a second.
fn is_by(arrival: u64, second: u32) -> bool
    ensures { IsTrue result ↔ (arrival ≤ second) }
{
    arrival <= u64::from(second)
}

// Whether a journey with at most one ride arrives at a stop by a second.
fn arrives_by(network: &Network, arrivals: &ArrivalRow, to: StopNo, second: u32) -> bool
    ensures { (s : NodeNo) (z : ℕ) → HasArrivals network.now s z arrivals.now
        → IsTrue result ↔ ArrivesBy network.now s z (node_of_lem network.now to) second }
{
    match seconds_at(arrivals, node_of(network, to)) {
        Some(arrival) => is_by(arrival, second),
        None => false,
    }
}

// Whether a change departs from a stop at a second, with no walk ahead of it, and walks between two stops.
fn is_candidate(change: &Change, stop: StopNo, departs: u32) -> bool
    ensures { IsTrue result ↔ ((change.now.first.on.stop ≡ stop) × (change.now.first.on.dep ≡ departs)
        × (change.now.first.off.stop ≢ change.now.second.on.stop)) }
{
    let first = change.first;
    first.on.stop.0 == stop.0
        && first.on.dep == departs
        && first.off.stop.0 != change.second.on.stop.0
}

// Whether a lesser change or a journey with at most one ride serves as well as a change.
fn is_bettered(
    network: &Network,
    walks: &[ArrivalRow],
    changes: &[Change],
    arrivals: &ArrivalRow,
    change: &Change,
) -> bool
    requires rules { KeepsRules network.now }
    requires few { length network.now.stops < 2 ^ 32 }
    requires walks { HoldsWalks network.now walks.now }
    requires stand { All (StandsAtStops network.now) changes.now }
    requires stands { StandsAtStops network.now change.now }
    ensures { (u : StopNoValue) (z : ℕ) → AreChanges network.now u z changes.now
        → HasArrivals network.now (node_of_lem network.now u) z arrivals.now
        → IsTrue result ↔ IsBettered network.now u z change.now.second.off.stop (piece_of change.now 0) }
{
    let to = change.second.off.stop;
    if arrives_by(network, arrivals, to, change.second.off.arr) {
        return true;
    }
    match key_to(network, walks, change, to) {
        Some(key) => has_less(network, walks, changes, to, &key),
        None => false,
    }
}

// Whether a change is a candidate that nothing betters.
fn is_needed(
    network: &Network,
    walks: &[ArrivalRow],
    changes: &[Change],
    arrivals: &ArrivalRow,
    stop: StopNo,
    departs: u32,
    change: &Change,
) -> bool
    requires rules { KeepsRules network.now }
    requires few { length network.now.stops < 2 ^ 32 }
    requires walks { HoldsWalks network.now walks.now }
    requires stand { All (StandsAtStops network.now) changes.now }
    requires stands { StandsAtStops network.now change.now }
    ensures { (z : ℕ) → departs ≡ z + network.now.buffer → AreChanges network.now stop z changes.now
        → HasArrivals network.now (node_of_lem network.now stop) z arrivals.now → IsChange network.now stop z change.now
        → IsTrue result ↔ IsNeededChange network.now stop z change.now }
{
    if !is_candidate(change, stop, departs) {
        return false;
    }
    !is_bettered(network, walks, changes, arrivals, change)
}

// Puts the pairs of the changes that are needed last.
fn note_needed(
    network: &Network,
    walks: &[ArrivalRow],
    changes: &[Change],
    arrivals: &ArrivalRow,
    stop: StopNo,
    departs: u32,
    pairs: &mut Vec<(StopNo, StopNo)>,
) -> Result<(), NoMemory>
    requires rules { KeepsRules network.now }
    requires few { length network.now.stops < 2 ^ 32 }
    requires walks { HoldsWalks network.now walks.now }
    requires stand { All (StandsAtStops network.now) changes.now }
    ensures { OnOk result ((z : ℕ) → departs ≡ z + network.now.buffer → AreChanges network.now stop z changes.now
        → HasArrivals network.now (node_of_lem network.now stop) z arrivals.now
        → (x y : StopNoValue) → Contains pairs.new.items (x, y) ↔ (Contains pairs.old.items (x, y) ⊎ IsNeeded network.now (stop ∷ []) z x y)) }
{
    for k in 0..changes.len() {
        let change = changes[k];
        if is_needed(network, walks, changes, arrivals, stop, departs, &change) {
            pairs.push((change.first.off.stop, change.second.on.stop))?;
        }
    }
    Ok(())
}

// Puts the pairs that are needed from a stop at a second last.
fn needed_from(
    alloc: Global,
    network: &Network,
    walks: &[ArrivalRow],
    rides: &[RideCalls],
    stop: StopNo,
    departs: u32,
    pairs: &mut Vec<(StopNo, StopNo)>,
) -> Result<(), NoMemory>
    requires rules { KeepsRules network.now }
    requires numbered { IsNumbered network.now }
    requires few { length network.now.stops < 2 ^ 32 }
    requires walks { HoldsWalks network.now walks.now }
    requires rides { AreRides network.now rides.now }
    requires stop { stop.0 < length network.now.stops }
    ensures { OnOk result ((x y : StopNoValue) → Contains pairs.new.items (x, y)
        ↔ (Contains pairs.old.items (x, y) ⊎ ((z : ℕ) × (departs ≡ z + network.now.buffer) × IsNeeded network.now (stop ∷ []) z x y))) }
{
    if departs < network.buffer {
        return Ok(());
    }
    let second = departs - network.buffer;
    let changes = changes_from(alloc, network, walks, rides, stop, second)?;
    let rows = earliest(alloc, network, node_of(network, stop), second, 1)?;
    match rows.get(1) {
        Some(arrivals) => {
            note_needed(
                network,
                walks,
                changes.as_slice(),
                arrivals,
                stop,
                departs,
                pairs,
            )?;
            Ok(())
        }
        None => Ok(()),
    }
}

/// All pairs that are needed from some start.
pub(crate) fn needed_pairs(
    alloc: Global,
    network: &Network,
    walks: &[ArrivalRow],
) -> Result<Vec<(StopNo, StopNo)>, NoMemory>
    requires rules { KeepsRules network.now }
    requires numbered { IsNumbered network.now }
    requires few { length network.now.stops < 2 ^ 32 }
    requires walks { HoldsWalks network.now walks.now }
    ensures { IfOk result (λ pairs. AreNeededPairs network.now pairs.items) }
{
    let rides = rides_of(alloc, network)?;
    let rides = rides.as_slice();
    let mut pairs = Vec::new(alloc);
    for k in 0..rides.len() {
        let on = rides[k].on;
        needed_from(alloc, network, walks, rides, on.stop, on.dep, &mut pairs)?;
    }
    Ok(pairs)
}
