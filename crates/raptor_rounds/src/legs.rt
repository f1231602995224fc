// The rides that steps lead back to.
ghost use Rattle.std.specs.Prelude.{◌≡◌, ℕ, suc, [], ◌∷◌, IfOk, IfSome, IfNone};
ghost use Rattle.raptor_rounds.specs.Answers.{before, turned_onto};

use crate::labels::Step;
use move_model::{NoMemory, Ride, RideList};
use std::alloc::Global;

// The step that a slot holds, if there is one.
fn slot_at(slots: &[Step], by: u32) -> Option<Step>
    ensures none { IfNone result ((fuel : ℕ) → before slots.now fuel by ≡ []) }
    ensures some { IfSome result (λ step. (fuel : ℕ) → before slots.now (suc fuel) by ≡ step.ride ∷ before slots.now fuel step.by) }
{
    if by == 0 || slots.len() < by as usize {
        return None;
    }
    Some(slots[by as usize - 1])
}

// The rides that the slots have from one on, the last first.
fn back_rides(alloc: Global, slots: &[Step], by: u32) -> Result<Vec<Ride>, NoMemory>
    ensures { IfOk result (λ back. back.items ≡ before slots.now 255 by) }
{
    let mut back: Vec<Ride> = Vec::new(alloc);
    let mut next = by;
    for turn in 0..255u8 {
        match slot_at(slots, next) {
            Some(step) => {
                back.push(step.ride)?;
                next = step.by;
            }
            None => return Ok(back),
        }
    }
    Ok(back)
}

/// The rides up to a step, in order.
pub fn rides_of(alloc: Global, slots: &[Step], step: Step) -> Result<RideList, NoMemory>
    ensures { IfOk result (λ l. l ≡ turned_onto (before slots.now 255 step.by) (step.ride ∷ [])) }
{
    let back = back_rides(alloc, slots, step.by)?;
    let mut rides = RideList::new(alloc);
    let mut at = back.len();
    while at > 0 {
        at -= 1;
        rides.push(back[at])?;
    }
    rides.push(step.ride)?;
    Ok(rides)
}
