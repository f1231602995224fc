// Two rides with a walk between them.
ghost use Rattle.std.specs.Prelude.{◌≡◌, ◌⊎◌, ◌↔◌, ℕ, ◌<◌, Contains, MatchOption, IfOk, OnOk, length};
ghost use Rattle.move_model.specs.Network.{IsNetwork};
ghost use Rattle.plain_shortcuts.specs.declared.changes.Change.{Change as ChangeValue};
ghost use Rattle.plain_shortcuts.specs.Rides.{IsRideOf, AreRides};
ghost use Rattle.plain_shortcuts.specs.Walks.{HoldsWalks};
ghost use Rattle.plain_shortcuts.specs.Changes.{IsChange};

use crate::rides::RideCalls;
use crate::walks::caught;
use move_model::{Network, NoMemory, StopNo};
use plain_search::ArrivalRow;
use std::alloc::Global;

/// Two rides, and the second at which the passenger is ready for the second one.
#[derive(Clone, Copy, Debug)]
pub struct Change {
    pub first: RideCalls,
    pub second: RideCalls,
    pub ready: u32,
}

// The change between two rides, or None where one of them can't be caught.
fn change_of(
    network: &Network,
    walks: &[ArrivalRow],
    stop: StopNo,
    second: u32,
    first: RideCalls,
    next: RideCalls,
) -> Option<Change>
    requires rules { IsNetwork network.now }
    requires walks { HoldsWalks network.now walks.now }
    requires stop { stop.0 < length network.now.stops }
    requires first { IsRideOf network.now first }
    requires next { IsRideOf network.now next }
    ensures { MatchOption result
        ((c : ChangeValue) → IsChange network.now stop second c → c.first ≡ first → c.second ≡ next → ⊥)
        (λ c. IsChange network.now stop second c × (c.first ≡ first) × (c.second ≡ next)) }
{
    match caught(network, walks, stop, second, first.on) {
        Some(_) => match caught(network, walks, first.off.stop, first.off.arr, next.on) {
            Some(between) => Some(Change {
                first,
                second: next,
                ready: first.off.arr + between,
            }),
            None => None,
        },
        None => None,
    }
}

// Puts the changes from a first ride last.
fn note_changes(
    network: &Network,
    walks: &[ArrivalRow],
    rides: &[RideCalls],
    stop: StopNo,
    second: u32,
    first: RideCalls,
    changes: &mut Vec<Change>,
) -> Result<(), NoMemory>
    requires rules { IsNetwork network.now }
    requires walks { HoldsWalks network.now walks.now }
    requires rides { AreRides network.now rides.now }
    requires stop { stop.0 < length network.now.stops }
    requires first { IsRideOf network.now first }
    ensures { OnOk result ((c : ChangeValue) → Contains changes.new.items c
        ↔ (Contains changes.old.items c ⊎ (IsChange network.now stop second c × (c.first ≡ first)))) }
{
    for k in 0..rides.len() {
        match change_of(network, walks, stop, second, first, rides[k]) {
            Some(change) => changes.push(change)?,
            None => {}
        }
    }
    Ok(())
}

/// All changes from a stop at a second.
pub(crate) fn changes_from(
    alloc: Global,
    network: &Network,
    walks: &[ArrivalRow],
    rides: &[RideCalls],
    stop: StopNo,
    second: u32,
) -> Result<Vec<Change>, NoMemory>
    requires rules { IsNetwork network.now }
    requires walks { HoldsWalks network.now walks.now }
    requires rides { AreRides network.now rides.now }
    requires stop { stop.0 < length network.now.stops }
    ensures { IfOk result (λ changes. (c : ChangeValue) → Contains changes.items c ↔ IsChange network.now stop second c) }
{
    let mut changes = Vec::new(alloc);
    for k in 0..rides.len() {
        note_changes(network, walks, rides, stop, second, rides[k], &mut changes)?;
    }
    Ok(changes)
}
