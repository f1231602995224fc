// The rules that a compiled network keeps.
ghost use Rattle.std.specs.Prelude.{◌≡◌, IfOk};
ghost use Rattle.network_file.specs.Compiled.{IsRight};
ghost use Rattle.network_codec.specs.Rules.{AreStreets, AreStops, AreTrips, IsWritable};
ghost use Rattle.network_codec.specs.declared.version.Version.TheVariants as version;
ghost use Rattle.file_compile.specs.Storable.{IsStorable};

use move_model::{Network, NoMemory};
use network_compile::compile;
use network_file::Compiled;
use std::alloc::Global;

// A right value keeps the rules of all sections, where its network keeps those of the first three.
fn keeps_rules(compiled: &Compiled)
    requires right { IsRight compiled.now }
    requires streets { AreStreets version.Two compiled.now.network }
    requires stops { AreStops compiled.now.network }
    requires trips { AreTrips compiled.now.network }
    ensures { IsWritable version.Two compiled.now }
{
    // Lists that stand in memory have lengths of 64 bits.
    let _up = compiled.hierarchy.up_arcs().len();
    let _down = compiled.hierarchy.down_arcs().len();
    let _to = compiled.buckets.to_stops().len();
    let _from = compiled.buckets.from_stops().len();
    let _shortcuts = compiled.shortcuts.len();
}

/// A right value of a network, which has a file.
pub(crate) fn writable(alloc: Global, network: Network) -> Result<Compiled, NoMemory>
    requires { IsStorable network }
    ensures network { IfOk result (λ compiled. compiled.network ≡ network) }
    ensures right { IfOk result IsRight }
    ensures writable { IfOk result (IsWritable version.Two) }
{
    let compiled = compile(alloc, network)?;
    keeps_rules(&compiled);
    Ok(compiled)
}
