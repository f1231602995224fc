// The order of starts.
ghost use Rattle.std.specs.Prelude.{◌↔◌, ◌<◌, length, Contains};
ghost use Rattle.std.specs.List.{AllAdjacentBelow};
ghost use Rattle.start_seconds.specs.declared.start.Start.{Start};
ghost use Rattle.start_seconds.specs.Starts.{IsLater};

use crate::start::Start;

// Leaves each start once, those at greater places first, and at one place those at later seconds.
pub(crate) fn put_in_order(starts: &mut Vec<Start>)
    ensures same { (start : Start) → Contains starts.new.items start ↔ Contains starts.old.items start }
    ensures falling { AllAdjacentBelow IsLater starts.new.items (length starts.new.items) }
{
    starts.sort_unstable();
    starts.dedup();
    starts.reverse();
}
