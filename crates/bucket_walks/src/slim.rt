// Entries in half the room.
ghost use Rattle.std.specs.Prelude.{◌≡◌, IfOk, IsTrue, map};
ghost use Rattle.bucket_walks.specs.Slim.{AreSmall, slim_of};

use crate::bucket::Bucket;
use move_model::{NoMemory, StopNo};
use std::alloc::Global;

// An entry of which the vertex is known, with seconds that need no more than 32 bits.
#[derive(Clone, Copy, Debug)]
pub(crate) struct Slim {
    pub(crate) stop: StopNo,
    pub(crate) seconds: u32,
}

// Whether no entry has too many seconds for half the room.
pub(crate) fn are_small(list: &[Bucket]) -> bool
    ensures { IsTrue result → AreSmall list.now }
{
    for entry in list {
        if entry.seconds > u64::from(u32::MAX) {
            return false;
        }
    }
    true
}

// The entries in half the room, in their order.
pub(crate) fn slims(alloc: Global, list: &[Bucket]) -> Result<Vec<Slim>, NoMemory>
    requires small { AreSmall list.now }
    ensures { IfOk result (λ slims. slims.items ≡ map slim_of list.now) }
{
    let mut slims = Vec::with_capacity(alloc, list.len())?;
    for entry in list {
        slims.push(Slim {
            stop: entry.stop,
            seconds: entry.seconds as u32,
        })?;
    }
    Ok(slims)
}
