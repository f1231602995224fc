// The list of shortcuts.
ghost use Rattle.std.specs.Prelude.{◌-◌, ◌<◌, ◌^◌, All, IfOk, length, map};
ghost use Rattle.move_model.specs.Check.{KeepsRules};
ghost use Rattle.move_model.specs.Network.{streets};
ghost use Rattle.move_model.specs.Shortcut.{IsShortcutList};
ghost use Rattle.route_split.specs.Calls.{IsTableOf};
ghost use Rattle.route_split.specs.Routes.{AreRoutes};
ghost use Rattle.walk_core.specs.Core.{Holds, IsContraction};

use crate::collect::collect;
use crate::listing::list_of;
use move_model::{Network, NoMemory, Shortcuts};
use route_split::Timetable;
use start_seconds::starts;
use std::alloc::Global;
use stop_rows::StopRows;
use walk_core::Core;
use witness_prune::{Needed, Search};

/// Exactly the list of shortcuts of a network, in rising order of their stops, each once and with the seconds of its walk.
/// The core is one of the network's streets and holds the vertex of each stop, and the table was made from the network's
/// trips.
///
/// It searches from each place, from the latest start to the earliest, and keeps what it learned from start to start.
pub fn shortcuts(
    alloc: Global,
    network: &Network,
    core: &Core,
    table: &Timetable,
) -> Result<Shortcuts, NoMemory>
    requires rules { KeepsRules network.now }
    requires few { length network.now.stops < 2 ^ 32 - 1 }
    requires contraction { IsContraction (streets network.now) core.now }
    requires kept { All (λ stop. Holds core.now stop.node) network.now.stops }
    requires table { IsTableOf network.now table.now }
    requires routes { AreRoutes network.now.trips (map (λ route. route.trips) table.now.routes) }
    ensures { IfOk result (IsShortcutList network.now) }
{
    let rows = StopRows::new(alloc, network, core)?;
    let starts = starts(alloc, network, &rows)?;
    let mut search = Search::new(alloc, network, &rows, table)?;
    let mut needed = Needed::new(alloc);
    collect(&mut search, starts.as_slice(), &mut needed)?;
    let list = list_of(alloc, &rows, needed.as_slice())?;
    Ok(list)
}
