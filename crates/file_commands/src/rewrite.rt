// Network files, rewritten.
ghost use Rattle.std.specs.Prelude.{◌≡◌, ◌≤◌, OnOk, IfErr, IsErrOf};
ghost use Rattle.move_files.specs.Outside.{Rose, NeverFalls, ChangesOnly};
ghost use Rattle.network_codec.specs.declared.damage.EncodeStop.{EncodeStop};
ghost use Rattle.file_commands.specs.declared.stop.FileStop.{FileStop};
ghost use Rattle.file_commands.specs.Held.{HoldsMigrated, HoldsPartMigrated};
ghost use Rattle.file_commands.specs.Stop.{FitsStop, OnUnread, OnUnwritten};

use crate::{MigrateStop, read_network_file};
use move_files::Files;
use network_codec::encode;
use std::alloc::Global;

/// Leaves the file of version 2 under a name, of the value whose file, of version 1 or of version 2, a name holds. The two
/// names may be one. The old file is read whole before the new one is begun: where it is not read, no file changes. After a
/// fault of a write, or want of memory, the new name holds what it held, or the first bytes of the new file. Every other name
/// stays as it was.
pub fn migrate<F: Files>(
    alloc: Global,
    files: &mut F,
    from: &str,
    to: &str,
) -> Result<(), MigrateStop>
    ensures ok { F.tells → OnOk result (HoldsMigrated (F.holds files.old from.now) (F.holds files.new to.now)) }

    ensures told { F.tells → IfErr result (OnUnread (FitsStop (F.holds files.old from.now))) }
    ensures missing { IsErrOf result (MigrateStop.Unread FileStop.Missing) → Rose (F.misses files.old from.now) (F.misses files.new from.now) }
    ensures read_fault { IsErrOf result (MigrateStop.Unread FileStop.ReadFault) → Rose (F.read_faults files.old from.now) (F.read_faults files.new from.now) }
    ensures unread { IfErr result (OnUnread (λ _. F.holds files.new ≡ F.holds files.old)) }

    ensures unwritten { F.tells → IfErr result (OnUnwritten (λ _. HoldsPartMigrated (F.holds files.old from.now) (F.holds files.old to.now) (F.holds files.new to.now))) }
    ensures write_fault { IsErrOf result (MigrateStop.Unwritten EncodeStop.WriteFault) → Rose (F.write_faults files.old) (F.write_faults files.new) }

    ensures others { ChangesOnly to.now (F.holds files.old) (F.holds files.new) }
    ensures read_counts { NeverFalls (F.read_faults files.old) (F.read_faults files.new) × NeverFalls (F.misses files.old) (F.misses files.new) }
    ensures write_counts { F.write_faults files.old ≤ F.write_faults files.new }
{
    let compiled = read_network_file(alloc, files, from)?;
    encode(alloc, &compiled, files, to)?;
    Ok(())
}
