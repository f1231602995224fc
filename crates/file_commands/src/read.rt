// Network files, read.
ghost use Rattle.std.specs.Prelude.{◌≡◌, IfOk, IfErr, IsErrOf, IsSomeAnd};
ghost use Rattle.move_files.specs.Outside.{Rose, NeverFalls};
ghost use Rattle.network_file.specs.Compiled.{FitTogether};
ghost use Rattle.network_codec.specs.Rules.{IsWritable};
ghost use Rattle.network_codec.specs.declared.version.Version.TheVariants as version;
ghost use Rattle.file_commands.specs.Held.{IsOnlyFileOf};
ghost use Rattle.file_commands.specs.Stop.{FitsStop};

use crate::FileStop;
use move_files::{Files, read_whole};
use network_decode::decode;
use network_file::Compiled;
use std::alloc::Global;

// The most bytes of a network file.
const MOST_BYTES: u64 = 1_125_899_906_842_624;

/// The value whose file, of version 1 or of version 2, a name holds. The file is read whole, and no file changes. What is
/// taken of memory is bounded by the bytes of the file, whatever numbers they tell.
///
/// Damaged tells the first kind of damage, and comes exactly where the name holds the file of no value.
pub fn read_network_file<F: Files>(
    alloc: Global,
    files: &mut F,
    name: &str,
) -> Result<Compiled, FileStop>
    ensures value { F.tells → IfOk result (λ compiled. IsSomeAnd (F.holds files.old name.now) (IsOnlyFileOf compiled)) }
    ensures fits { IfOk result FitTogether }
    ensures writable { IfOk result (IsWritable version.Two) }

    ensures told { F.tells → IfErr result (FitsStop (F.holds files.old name.now)) }
    ensures missing { IsErrOf result FileStop.Missing → Rose (F.misses files.old name.now) (F.misses files.new name.now) }
    ensures fault { IsErrOf result FileStop.ReadFault → Rose (F.read_faults files.old name.now) (F.read_faults files.new name.now) }

    ensures contents { F.holds files.new ≡ F.holds files.old }
    ensures read_counts { NeverFalls (F.read_faults files.old) (F.read_faults files.new) × NeverFalls (F.misses files.old) (F.misses files.new) }
    ensures write_counts { F.write_faults files.new ≡ F.write_faults files.old }
{
    let bytes = read_whole(alloc, files, name, MOST_BYTES)?;
    let compiled = decode(alloc, &bytes)?;
    Ok(compiled)
}
