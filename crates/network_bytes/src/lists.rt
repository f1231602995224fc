// Lists behind their number of items.
ghost use Rattle.std.specs.Prelude.{◌≡◌, ◌<◌, ◌^◌, ◌++◌, length, All, OnOk};
ghost use Rattle.network_bytes.specs.Bytes.{short_list, long_list};
ghost use Rattle.network_bytes.specs.Front.{Gives, word_at, long_at, counted};

use crate::ReadStop;
use crate::entry::{Entry, entries, put_entries};
use crate::numbers::{long, put_long, put_word, word};
use move_model::{List, NoMemory};
use std::alloc::Global;

/// The list at the front, behind a number in four bytes, and the bytes behind it.
pub fn short_list<T: Entry>(alloc: Global, bytes: &[u8]) -> Result<(List<T>, &[u8]), ReadStop>
    ensures { Gives (λ x. (x.0, x.1.now)) result (counted word_at T.front bytes.now) }
{
    let (count, rest) = word(bytes)?;
    entries(alloc, count as u64, rest)
}

/// The list at the front, behind a number in eight bytes, and the bytes behind it.
pub fn long_list<T: Entry>(alloc: Global, bytes: &[u8]) -> Result<(List<T>, &[u8]), ReadStop>
    ensures { Gives (λ x. (x.0, x.1.now)) result (counted long_at T.front bytes.now) }
{
    let (count, rest) = long(bytes)?;
    entries(alloc, count, rest)
}

/// Puts a list behind the bytes, with its number of items in four bytes.
pub fn put_short_list<T: Entry>(out: &mut Vec<u8>, list: &[T]) -> Result<(), NoMemory>
    requires few { length list.now < 2 ^ 32 }
    requires fit { All T.fits list.now }
    ensures { OnOk result (out.new.items ≡ out.old.items ++ short_list T.form list.now) }
{
    put_word(out, list.len() as u32)?;
    put_entries(out, list)
}

/// Puts a list behind the bytes, with its number of items in eight bytes.
pub fn put_long_list<T: Entry>(out: &mut Vec<u8>, list: &[T]) -> Result<(), NoMemory>
    requires { All T.fits list.now }
    ensures { OnOk result (out.new.items ≡ out.old.items ++ long_list T.form list.now) }
{
    put_long(out, list.len() as u64)?;
    put_entries(out, list)
}
