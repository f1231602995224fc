// Networks, compiled into files.
ghost use Rattle.std.specs.Prelude.{◌≡◌, ◌≤◌, OnOk, OnErr, IsErrOf, IsSomeAnd};
ghost use Rattle.move_files.specs.Outside.{Rose, ChangesOnly};
ghost use Rattle.file_compile.specs.Compiled.{IsCompiledFile, HoldsPartCompiled};
ghost use Rattle.file_compile.specs.Storable.{IsStorable};

use crate::rules::writable;
use move_files::Files;
use move_model::Network;
use network_codec::{EncodeStop, encode};
use std::alloc::Global;

/// Compiles a network, and leaves the file of version 2 of its value under a name. The network is within the limits of a file:
/// at most 8,000,000 arcs, 200,000 stops, 2,000,000 trips and 20,000,000 calls, each stop and trip named by 1 to 255 bytes of
/// UTF-8, and no two stops alike.
///
/// Nothing is written before the network is compiled. After a fault of a write, or want of memory, the name holds what it held,
/// or the first bytes of such a file. Every other name stays as it was, and no file is read.
pub fn compile_file<F: Files>(
    alloc: Global,
    network: Network,
    files: &mut F,
    name: &str,
) -> Result<(), EncodeStop>
    requires { IsStorable network }

    ensures ok { F.tells → OnOk result (IsSomeAnd (F.holds files.new name.now) (IsCompiledFile network)) }

    ensures err { F.tells → OnErr result (HoldsPartCompiled network (F.holds files.old name.now) (F.holds files.new name.now)) }
    ensures fault { IsErrOf result EncodeStop.WriteFault → Rose (F.write_faults files.old) (F.write_faults files.new) }

    ensures others { ChangesOnly name.now (F.holds files.old) (F.holds files.new) }
    ensures write_counts { F.write_faults files.old ≤ F.write_faults files.new }
    ensures read_counts { (F.read_faults files.new ≡ F.read_faults files.old) × (F.misses files.new ≡ F.misses files.old) }
{
    let compiled = writable(alloc, network)?;
    encode(alloc, &compiled, files, name)
}
