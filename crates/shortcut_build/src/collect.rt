// The search from all starts.
ghost use Rattle.std.specs.Prelude.{◌≡◌, ◌⊎◌, ◌↔◌, ◌-◌, ◌+◌, ◌<◌, All, Contains, IsTrue, OnOk, Some, length, slice_get};
ghost use Rattle.std.specs.List.{AllAdjacentBelow};
ghost use Rattle.move_model.specs.declared.network.StopNo.{StopNo};
ghost use Rattle.start_seconds.specs.Starts.{IsLater};
ghost use Rattle.shortcut_build.specs.Collected.{GoesOn, IsAfter, IsReady, HasNeeded};

use move_model::NoMemory;
use start_seconds::Start;
use witness_prune::{Needed, Search};

// Whether the k-th start is at the place of the one before it.
fn goes_on(starts: &[Start], k: usize) -> bool
    requires { k < length starts.now }
    ensures { IsTrue result ↔ GoesOn starts.now k }
{
    if k == 0 {
        return false;
    }
    starts[k - 1].place == starts[k].place
}

// Goes to the place of the k-th start, where the search is at another one.
fn set_out(search: &mut Search, starts: &[Start], k: usize, place: u32, second: u32)
    requires exists { k < length starts.now }
    requires start { slice_get starts.now k ≡ Some (record { place = place; second = second }) }
    requires places { All (λ start. start.place < length search.old.rows.nodes) starts.now }
    requires later { AllAdjacentBelow IsLater starts.now (length starts.now) }
    requires after { IsAfter search.old.place search.old.below starts.now k }
    ensures network { search.new.network ≡ search.old.network }
    ensures rows { search.new.rows ≡ search.old.rows }
    ensures ready { IsReady search.new.place search.new.below starts.now k }
{
    if !goes_on(starts, k) {
        search.begin(place);
    }
}

/// Searches from each start, and adds the pairs that are needed from it.
pub(crate) fn collect(
    search: &mut Search,
    starts: &[Start],
    needed: &mut Needed,
) -> Result<(), NoMemory>
    requires places { All (λ start. start.place < length search.old.rows.nodes) starts.now }
    requires later { AllAdjacentBelow IsLater starts.now (length starts.now) }
    ensures { OnOk result ((x y : StopNo) → Contains needed.new (x, y)
        ↔ (Contains needed.old (x, y) ⊎ HasNeeded search.old.network search.old.rows starts.now (length starts.now) x y)) }
{
    for k in 0..starts.len() {
        let Start { place, second } = starts[k];
        set_out(search, starts, k, place, second);
        search.step(second, needed)?;
    }
    Ok(())
}
