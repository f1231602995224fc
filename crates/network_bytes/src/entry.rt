// Items of lists.
ghost use Rattle.std.specs.Prelude.{◌≡◌, ◌++◌, ℕ, List, Option, All, OnOk};
ghost use Rattle.std.specs.List.{flat_map};
ghost use Rattle.network_bytes.specs.Front.{Gives, items_at};

use crate::ReadStop;
use move_model::{List, NoMemory};
use std::alloc::Global;

/// What can be an item of a list in a file.
pub trait Entry: Drop {
    /// The bytes of an item.
    ghost form: { Self → List ℕ };

    /// The item at the front of bytes, and the bytes behind it; None where there is none.
    ghost front: { List ℕ → Option (Self × List ℕ) };

    /// Whether the lengths within the item can be written.
    ghost fits: { Self → Type 0 };

    /// The item at the front, and the bytes behind it.
    fn read(alloc: Global, bytes: &[u8]) -> Result<(Self, &[u8]), ReadStop>
        ensures { Gives (λ x. (x.0, x.1.now)) result (front bytes.now) };

    /// Puts the item behind the bytes.
    fn put(&self, out: &mut Vec<u8>) -> Result<(), NoMemory>
        requires { fits self.now }
        ensures { OnOk result (out.new.items ≡ out.old.items ++ form self.now) };
}

/// So many items, one behind the other, and the bytes behind them. The number is not trusted: no more memory is taken than
/// for the items that are there.
pub fn entries<T: Entry>(
    alloc: Global,
    count: u64,
    bytes: &[u8],
) -> Result<(List<T>, &[u8]), ReadStop>
    ensures { Gives (λ x. (x.0, x.1.now)) result (items_at T.front count bytes.now) }
{
    let mut items = Vec::new(alloc);
    let mut rest = bytes;
    for _ in 0..count {
        let (item, after) = T::read(alloc, rest)?;
        items.push(item)?;
        rest = after;
    }
    Ok((List::from_vec(items), rest))
}

/// Puts the items behind the bytes, one behind the other.
pub fn put_entries<T: Entry>(out: &mut Vec<u8>, entries: &[T]) -> Result<(), NoMemory>
    requires { All T.fits entries.now }
    ensures { OnOk result (out.new.items ≡ out.old.items ++ flat_map T.form entries.now) }
{
    for entry in entries {
        entry.put(out)?;
    }
    Ok(())
}
