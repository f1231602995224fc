// A sink in memory that never fails.
ghost use Rattle.std.specs.Prelude.{◌≡◌, ◌<◌, []};

use crate::{Sink, WriteFail};
use std::alloc::Global;

/// A sink in memory that never fails. It keeps the allocator that it was made with.
#[derive(Drop)]
pub struct SafeSink {
    taken: Vec<u8>,
    most: usize,
    wants: u64,
    ghost some: { 0 < most },
}

impl SafeSink {
    ghost use Rattle.move_files.specs.SafeSink.{most_of, taken_bytes, wants_of};

    /// Nothing taken. It takes no memory.
    pub fn new(alloc: Global) -> Self
        ensures nothing { taken_bytes result ≡ [] }
        ensures wants { wants_of result ≡ 0 }
    {
        SafeSink {
            taken: Vec::new(alloc),
            most: usize::MAX,
            wants: 0,
        }
    }

    /// Sets the most bytes that a write takes.
    pub fn piece(&mut self, most: usize)
        requires { 0 < most }
        ensures most { most_of self.new ≡ most }
        ensures taken { taken_bytes self.new ≡ taken_bytes self.old }
        ensures wants { wants_of self.new ≡ wants_of self.old }
    {
        self.most = most;
    }

    /// Lends the bytes that were taken.
    pub fn taken(&self) -> &[u8]
        ensures { result.now ≡ taken_bytes self.now }
    {
        &self.taken
    }
}

impl Sink for SafeSink {
    ghost use Rattle.std.specs.Prelude.{◌≤◌, ◌++◌, length, min, take, IfOk, OnErr, IsErrOf};
    ghost use Rattle.move_files.specs.Outside.{Rose};
    ghost use Rattle.move_files.specs.SafeSink.{most_of, taken_bytes, wants_of};

    ghost tells = { Unit {0} };

    ghost sent = { taken_bytes };

    ghost faults = { λ _. 0 };

    ghost wants = { wants_of };

    // It takes as many bytes as are allowed, and never fails but for want of memory.
    fn write(&mut self, bytes: &[u8]) -> Result<usize, WriteFail>
        requires { 0 < length bytes.now }

        ensures bound { IfOk result (λ n. (0 < n) × (n ≤ length bytes.now)) }
        ensures count { IfOk result (λ n. n ≡ min (length bytes.now) (most_of self.old)) }
        ensures took { IfOk result (λ n. taken_bytes self.new ≡ taken_bytes self.old ++ take n bytes.now) }

        ensures err { OnErr result (taken_bytes self.new ≡ taken_bytes self.old) }
        ensures failed { ¬ IsErrOf result WriteFail.Failed }
        ensures no_memory { IsErrOf result WriteFail.NoMemory → Rose (wants_of self.old) (wants_of self.new) }

        ensures most { most_of self.new ≡ most_of self.old }
        ensures counts { wants_of self.old ≤ wants_of self.new }
    {
        let count = bytes.len().min(self.most);
        match self.taken.extend_from_slice(&bytes[..count]) {
            Ok(()) => Ok(count),
            Err(_) => {
                self.wants = self.wants.saturating_add(1);
                Err(WriteFail::NoMemory)
            }
        }
    }
}
