// Names.
ghost use Rattle.std.specs.Prelude.{◌≡◌, ◌<◌, ◌++◌, length, OnOk};
ghost use Rattle.network_bytes.specs.Bytes.{name_form};
ghost use Rattle.network_bytes.specs.Front.{Gives, name_at};

use crate::ReadStop;
use crate::numbers::byte;
use move_model::{List, Name, NoMemory};
use std::alloc::Global;

// The name at the front, and the bytes behind it.
#[tactic(auto, unfolding(crate::specs::Front::name_at))]
pub(crate) fn name(alloc: Global, bytes: &[u8]) -> Result<(Name, &[u8]), ReadStop>
    ensures { Gives (λ x. (x.0, x.1.now)) result (name_at bytes.now) }
{
    let (length, rest) = byte(bytes)?;
    let length = length as usize;
    if rest.len() < length {
        return Err(ReadStop::Broken);
    }
    let (text, rest) = rest.split_at(length);
    Ok((List::from_slice(alloc, text)?, rest))
}

// Puts a name behind the bytes.
pub(crate) fn put_name(out: &mut Vec<u8>, name: &Name) -> Result<(), NoMemory>
    requires { length name.now < 256 }
    ensures { OnOk result (out.new.items ≡ out.old.items ++ name_form name.now) }
{
    out.push(name.len() as u8)?;
    out.extend_from_slice(name.as_slice())
}
