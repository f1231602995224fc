// Both lists of a network: by trying every pair of rides, and by the search.
ghost use Rattle.std.specs.Prelude.{◌<◌, length};

use crate::pieces::{ROWS, sample_of};
use crate::sample::core_of;
use crate::tables::{is_small, table_of};
use move_model::{Network, NoMemory, Shortcut, Shortcuts};
use plain_shortcuts::plain_shortcuts;
use shortcut_build::shortcuts;
use std::alloc::Global;
use std::test::Fail;

/// The list of shortcuts by trying every pair of rides, and the one that the search gives.
#[derive(Drop)]
pub struct Lists {
    pub plain: Shortcuts,
    pub built: Shortcuts,
}

/// Both lists of a network, or None where it is large or breaks a rule.
pub fn lists_of(alloc: Global, network: &Network) -> Result<Option<Lists>, NoMemory> {
    if !is_small(network) {
        return Ok(None);
    }
    let Some(core) = core_of(alloc, network)? else {
        return Ok(None);
    };
    let table = table_of(alloc, network)?;
    let plain = plain_shortcuts(alloc, network)?;
    let built = shortcuts(alloc, network, &core, &table)?;
    Ok(Some(Lists { plain, built }))
}

// Whether a list has these entries.
fn is_list(list: &[Shortcut], want: &[(u32, u32, u64)]) -> bool {
    if list.len() != want.len() {
        return false;
    }
    for i in 0..list.len().min(want.len()) {
        let entry = (list[i].from.0, list[i].to.0, list[i].seconds);
        if entry != want[i] {
            return false;
        }
    }
    true
}

#[test]
fn lists_the_shortcuts_of_worked_rows(rt: HostRuntime) -> Result<(), Fail> {
    for row in &ROWS {
        let network = sample_of(rt.alloc(), row)?;
        let lists = lists_of(rt.alloc(), &network)?.ok_or("no lists")?;
        assert!(rt; is_list(lists.plain.as_slice(), row.list));
        assert!(rt; is_list(lists.built.as_slice(), row.list));
    }
    Ok(())
}
