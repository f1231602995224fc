// The value of the parts that were read.
ghost use Rattle.std.specs.Prelude.{◌≡◌, IfOk};
ghost use Rattle.walk_hierarchy.specs.Hierarchy.{IsHierarchy};
ghost use Rattle.network_file.specs.Compiled.{IsTimetableOf, FitTogether};
ghost use Rattle.network_codec.specs.Rules.{AreStops, AreTrips, IsWritable};
ghost use Rattle.network_codec.specs.declared.version.Version.{Version};
ghost use Rattle.network_decode.specs.Value.{HaveSameParts};
ghost use Rattle.network_decode.specs.Sections.{parts_of, value_of};

use crate::sections::{Arcs, Sections};
use bucket_walks::Buckets;
use move_model::{Network, NoMemory};
use network_file::Compiled;
use route_split::Timetable;
use std::alloc::{AllocError, Global};
use walk_hierarchy::Hierarchy;

// No list of arcs is numbered that has more.
const MOST_ARCS: usize = 4_294_967_294;

// The routes of a network.
#[tactic(auto, using(crate::proofs::PartLemmas::calls_few))]
fn timetable(alloc: Global, network: &Network) -> Result<Timetable, NoMemory>
    requires stops { AreStops network.now }
    requires trips { AreTrips network.now }
    ensures { IfOk result (IsTimetableOf network.now) }
{
    let stops = network.stops.len() as u32;
    Timetable::with_buffer(alloc, &network.trips, stops, network.buffer)
}

// The hierarchy of ranks and arcs. Longer lists than can be numbered count as want of memory.
fn hierarchy(alloc: Global, arcs: Arcs) -> Result<Hierarchy, NoMemory>
    requires { IsHierarchy (parts_of arcs) }
    ensures { IfOk result (λ hierarchy. hierarchy ≡ parts_of arcs) }
{
    if arcs.up.len() > MOST_ARCS || arcs.down.len() > MOST_ARCS {
        return Err(AllocError);
    }
    Hierarchy::of(alloc, arcs.ranks, arcs.up, arcs.down)
}

/// The value of the parts that keep the rules of their sections.
pub(crate) fn compiled(alloc: Global, sections: Sections) -> Result<Compiled, NoMemory>
    requires { (version : Version) × IsWritable version (value_of sections) }
    ensures same { IfOk result (HaveSameParts (value_of sections)) }
    ensures fits { IfOk result FitTogether }
{
    let Sections {
        network,
        arcs,
        to,
        from,
        shortcuts,
    } = sections;
    let table = timetable(alloc, &network)?;
    let hierarchy = hierarchy(alloc, arcs)?;
    let stops = network.stops.len() as u32;
    let buckets = Buckets::from_parts(alloc, network.nodes, stops, to, from)?;
    Ok(Compiled {
        network,
        table,
        hierarchy,
        buckets,
        shortcuts,
    })
}
