// The rules of ranks.
ghost use Rattle.std.specs.Prelude.{◌↔◌, IsTrue, IfOk};
ghost use Rattle.walk_hierarchy.specs.Hierarchy.{AreRanks};

use move_model::NoMemory;
use std::alloc::Global;

/// Whether each number below the number of ranks is a rank once.
pub fn are_ranks(alloc: Global, ranks: &[u32]) -> Result<bool, NoMemory>
    ensures { IfOk result (λ are. IsTrue are ↔ AreRanks ranks.now) }
{
    let mut seen = vec![in alloc; false; ranks.len()]?;
    for i in 0..ranks.len() {
        let rank = ranks[i] as usize;
        if rank >= seen.len() || seen[rank] {
            return Ok(false);
        }
        seen[rank] = true;
    }
    Ok(true)
}
