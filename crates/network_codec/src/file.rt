// Files of compiled networks.
ghost use Rattle.std.specs.Prelude.{◌≡◌, ◌≤◌, ◌++◌, Some, OnOk, OnErr, IsErrOf};
ghost use Rattle.move_files.specs.Outside.{Rose, ChangesOnly};
ghost use Rattle.network_codec.specs.Form.{file};
ghost use Rattle.network_codec.specs.Part.{HoldsPartOf};
ghost use Rattle.network_codec.specs.Rules.{IsWritable};
ghost use Rattle.network_codec.specs.declared.version.Version.TheVariants as version;

use crate::writing::{body_bytes, head_bytes};
use crate::{EncodeStop, Version};
use move_files::Files;
use network_file::Compiled;
use std::alloc::Global;

// Leaves two parts under a name, one behind the other.
fn write_parts<F: Files>(
    files: &mut F,
    name: &str,
    head: &[u8],
    body: &[u8],
) -> Result<(), EncodeStop>
    ensures ok { F.tells → OnOk result (F.holds files.new name.now ≡ Some (head.now ++ body.now)) }

    ensures err { F.tells → OnErr result (HoldsPartOf (F.holds files.old name.now) (head.now ++ body.now) (F.holds files.new name.now)) }
    ensures fault { IsErrOf result EncodeStop.WriteFault → Rose (F.write_faults files.old) (F.write_faults files.new) }

    ensures others { ChangesOnly name.now (F.holds files.old) (F.holds files.new) }
    ensures write_counts { F.write_faults files.old ≤ F.write_faults files.new }
    ensures read_counts { (F.read_faults files.new ≡ F.read_faults files.old) × (F.misses files.new ≡ F.misses files.old) }
{
    files.begin(name)?;
    files.append(name, head)?;
    files.append(name, body)?;
    Ok(())
}

// Leaves the file of a version under a name.
fn write<F: Files>(
    alloc: Global,
    version: Version,
    compiled: &Compiled,
    files: &mut F,
    name: &str,
) -> Result<(), EncodeStop>
    requires { IsWritable version compiled.now }

    ensures ok { F.tells → OnOk result (F.holds files.new name.now ≡ Some (file version compiled.now)) }

    ensures err { F.tells → OnErr result (HoldsPartOf (F.holds files.old name.now) (file version compiled.now) (F.holds files.new name.now)) }
    ensures fault { IsErrOf result EncodeStop.WriteFault → Rose (F.write_faults files.old) (F.write_faults files.new) }

    ensures others { ChangesOnly name.now (F.holds files.old) (F.holds files.new) }
    ensures write_counts { F.write_faults files.old ≤ F.write_faults files.new }
    ensures read_counts { (F.read_faults files.new ≡ F.read_faults files.old) × (F.misses files.new ≡ F.misses files.old) }
{
    let body = body_bytes(alloc, version, compiled)?;
    let head = head_bytes(alloc, version, &body)?;
    write_parts(files, name, &head, &body)
}

/// Leaves the file of version 2 under a name. After a fault, or want of memory, the name holds what it held, or the first
/// bytes of the file. Every other name stays as it was.
pub fn encode<F: Files>(
    alloc: Global,
    compiled: &Compiled,
    files: &mut F,
    name: &str,
) -> Result<(), EncodeStop>
    requires { IsWritable version.Two compiled.now }

    ensures ok { F.tells → OnOk result (F.holds files.new name.now ≡ Some (file version.Two compiled.now)) }

    ensures err { F.tells → OnErr result (HoldsPartOf (F.holds files.old name.now) (file version.Two compiled.now) (F.holds files.new name.now)) }
    ensures fault { IsErrOf result EncodeStop.WriteFault → Rose (F.write_faults files.old) (F.write_faults files.new) }

    ensures others { ChangesOnly name.now (F.holds files.old) (F.holds files.new) }
    ensures write_counts { F.write_faults files.old ≤ F.write_faults files.new }
    ensures read_counts { (F.read_faults files.new ≡ F.read_faults files.old) × (F.misses files.new ≡ F.misses files.old) }
{
    write(alloc, Version::Two, compiled, files, name)
}

/// Leaves the file of version 1 under a name, for a network whose buffer is 0, with the answers and leftovers of [`encode`].
pub fn encode_one<F: Files>(
    alloc: Global,
    compiled: &Compiled,
    files: &mut F,
    name: &str,
) -> Result<(), EncodeStop>
    requires { IsWritable version.One compiled.now }

    ensures ok { F.tells → OnOk result (F.holds files.new name.now ≡ Some (file version.One compiled.now)) }

    ensures err { F.tells → OnErr result (HoldsPartOf (F.holds files.old name.now) (file version.One compiled.now) (F.holds files.new name.now)) }
    ensures fault { IsErrOf result EncodeStop.WriteFault → Rose (F.write_faults files.old) (F.write_faults files.new) }

    ensures others { ChangesOnly name.now (F.holds files.old) (F.holds files.new) }
    ensures write_counts { F.write_faults files.old ≤ F.write_faults files.new }
    ensures read_counts { (F.read_faults files.new ≡ F.read_faults files.old) × (F.misses files.new ≡ F.misses files.old) }
{
    write(alloc, Version::One, compiled, files, name)
}
