// Files of compiled networks, read.
ghost use Rattle.std.specs.Prelude.{IfOk, IfErr};
ghost use Rattle.network_file.specs.Compiled.{FitTogether};
ghost use Rattle.network_file.specs.declared.compiled.Compiled.{Compiled as Value};
ghost use Rattle.network_codec.specs.File.{IsFileOf, IsDamaged};
ghost use Rattle.network_codec.specs.Rules.{IsWritable};
ghost use Rattle.network_codec.specs.declared.version.Version.TheVariants as version;
ghost use Rattle.network_decode.specs.Stop.{OnDamage};
ghost use Rattle.network_decode.specs.Value.{HaveSameParts};

use crate::parts::compiled;
use crate::sections::sections_in;
use network_codec::{Damage, DecodeStop, headed};
use network_file::Compiled;
use std::alloc::Global;

// The bytes of a head.
const HEAD: usize = 52;

/// The value whose file, of version 1 or of version 2, the bytes are. The file fixes all of it but the routes, which are made
/// of its trips and its buffer. It has a file of version 2, whichever was read.
///
/// Damaged tells the first kind of damage, and comes exactly where the bytes are no value's file. More than 4,294,967,294
/// arcs up, or as many arcs down, count as want of memory.
pub fn decode(alloc: Global, bytes: &[u8]) -> Result<Compiled, DecodeStop>
    ensures value { IfOk result (λ compiled. IsFileOf compiled bytes.now) }
    ensures only { IfOk result (λ compiled. (other : Value) → IsFileOf other bytes.now → HaveSameParts compiled other) }
    ensures fits { IfOk result FitTogether }
    ensures writable { IfOk result (IsWritable version.Two) }

    ensures damaged { IfErr result (OnDamage (IsDamaged bytes.now)) }
    ensures none { IfErr result (OnDamage (λ _. (value : Value) → ¬ (IsFileOf value bytes.now))) }
{
    let length = bytes.len();
    let (version, body) = match headed(bytes) {
        Ok(found) => found,
        Err(damage) => return Err(DecodeStop::Damaged(damage)),
    };
    let (sections, rest) = sections_in(alloc, version, body)?;
    if !rest.is_empty() || length > HEAD + body.len() {
        return Err(DecodeStop::Damaged(Damage::Section(10)));
    }
    match compiled(alloc, sections) {
        Ok(compiled) => Ok(compiled),
        Err(_) => Err(DecodeStop::NoMemory),
    }
}
