// The order of a trip's calls.
ghost use Rattle.std.specs.Prelude.{OnOk, OnErr, ◌≡◌};
ghost use Rattle.trip_calls.specs.Order.{IsTripOrder};

use crate::KeptCall;
use std::alloc::AllocError;

/// Sorts the calls of a trip by their stop sequences. Calls with one sequence keep their order. Nothing changes where
/// memory is wanting.
pub fn sort_calls(calls: &mut Vec<KeptCall>) -> Result<(), AllocError>
    ensures ok { OnOk result (IsTripOrder calls.old.items calls.new.items) }
    ensures err { OnErr result (calls.new.items ≡ calls.old.items) }
{
    calls.sort_by_key(|call| call.sequence)
}
