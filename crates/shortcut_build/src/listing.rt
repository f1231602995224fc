// The list of pairs with their distances.
ghost use Rattle.std.specs.Prelude.{◌≡◌, ◌<◌, All, IfOk, length, map};
ghost use Rattle.shortcut_laws.specs.Pairs.{shortcut_of};
ghost use Rattle.shortcut_build.specs.Collected.{seconds_by};

use move_model::{List, NoMemory, Shortcut, Shortcuts, StopNo};
use std::alloc::Global;
use stop_rows::StopRows;

// The walk between the stops of a pair, with the seconds of the rows.
fn shortcut_at(rows: &StopRows, from: StopNo, to: StopNo) -> Shortcut
    requires from { from.0 < length rows.now.places }
    requires to { to.0 < length rows.now.places }
    ensures { result ≡ shortcut_of (seconds_by rows.now) (from, to) }
{
    let row = rows.row(rows.place(from));
    let seconds = row[rows.place(to) as usize];
    Shortcut {
        from,
        to,
        seconds: u64::from(seconds),
    }
}

/// The walks between the stops of each pair, with the seconds of the rows.
pub(crate) fn list_of(
    alloc: Global,
    rows: &StopRows,
    pairs: &[(StopNo, StopNo)],
) -> Result<Shortcuts, NoMemory>
    requires { All (λ pair. (pair.0.0 < length rows.now.places) × (pair.1.0 < length rows.now.places)) pairs.now }
    ensures { IfOk result (λ list. list ≡ map (shortcut_of (seconds_by rows.now)) pairs.now) }
{
    let mut list = List::new(alloc);
    for pair in pairs {
        list.push(shortcut_at(rows, pair.0, pair.1))?;
    }
    Ok(list)
}
