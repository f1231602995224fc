// A network with all that its answers need.
ghost use Rattle.std.specs.Prelude.{◌≡◌, IfOk};
ghost use Rattle.move_model.specs.Check.{KeepsRules};
ghost use Rattle.network_file.specs.Compiled.{IsRight, IsTimetableOf};
ghost use Rattle.network_compile.specs.Limits.{IsWithin};

use crate::limits::is_within;
use crate::streets::core_of;
use bucket_walks::Buckets;
use move_model::{Network, NoMemory};
use network_file::Compiled;
use route_split::Timetable;
use shortcut_build::shortcuts;
use std::alloc::Global;
use walk_order::order;

// The trips of a network by routes.
fn table_of(alloc: Global, network: &Network) -> Result<Timetable, NoMemory>
    requires rules { KeepsRules network.now }
    requires within { IsWithin network.now }
    ensures { IfOk result (IsTimetableOf network.now) }
{
    Timetable::with_buffer(
        alloc,
        &network.trips,
        network.stops.len() as u32,
        network.buffer,
    )
}

// The value of a network within the limits.
fn compiled_of(alloc: Global, network: Network) -> Result<Compiled, NoMemory>
    requires rules { KeepsRules network }
    requires within { IsWithin network }
    ensures network { IfOk result (λ compiled. compiled.network ≡ network) }
    ensures right { IfOk result IsRight }
{
    let table = table_of(alloc, &network)?;
    let core = core_of(alloc, &network)?;
    let shortcuts = shortcuts(alloc, &network, &core, &table)?;
    let hierarchy = order(alloc, core)?;
    let buckets = Buckets::new(alloc, &hierarchy, &network.stops)?;
    // The hierarchy goes by its rules.
    let _ = hierarchy.nodes();
    Ok(Compiled {
        network,
        table,
        hierarchy,
        buckets,
        shortcuts,
    })
}

/// Compiles a network that keeps the rules, to a value that is right for it. A network with more than 8,000,000 arcs or
/// 200,000 stops, or with 2^32 - 1 trips or calls of a trip, is past the limits of this program: NoMemory comes for it. At
/// want of memory the network is given up.
pub fn compile(alloc: Global, network: Network) -> Result<Compiled, NoMemory>
    requires { KeepsRules network }
    ensures network { IfOk result (λ compiled. compiled.network ≡ network) }
    ensures right { IfOk result IsRight }
{
    if !is_within(&network) {
        return Err(NoMemory);
    }
    compiled_of(alloc, network)
}
