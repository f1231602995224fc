// Ids and numbers of rows.
ghost use Rattle.std.specs.Prelude.{◌≤◌, IfOk};
ghost use Rattle.refusals.specs.Refusal.{Tests};
ghost use Rattle.tables.specs.Values.{number_broken, number_in};
ghost use Rattle.gtfs_feed.specs.Ids as spec;

use move_model::Cause;
use tables::{Names, read_number};

/// Tests that no earlier row has an id.
#[tactic(auto, unfolding(crate::specs::Ids::repeated_broken))]
pub(crate) fn check_new(names: &Names, id: &[u8]) -> Result<(), Cause>
    ensures { Tests result (spec.repeated_broken names.now id.now) tt }
{
    if names.place(id).is_some() {
        Err(Cause::Repeated)
    } else {
        Ok(())
    }
}

/// Reads a whole number from `low` to the greatest of its type; any other text is Number.
#[tactic(auto, unfolding(tables::specs::Values::number_broken))]
pub(crate) fn read_u32(text: &[u8], low: u32) -> Result<u32, Cause>
    ensures value { Tests result (number_broken low 4294967295 text.now) (number_in text.now) }
    ensures low { IfOk result (λ number. low ≤ number) }
{
    match read_number(text) {
        Some(number) if u64::from(low) <= number && number <= u64::from(u32::MAX) => {
            Ok(number as u32)
        }
        _ => Err(Cause::Number),
    }
}
