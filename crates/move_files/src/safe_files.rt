// Files in memory that never fail.
ghost use Rattle.std.specs.Prelude.{◌≡◌, ◌≢◌, ◌<◌, ◌≤◌, ◌-◌, min, Some, OnOk, OnErr, IsSome, IsTrue, ◌↔◌, length};
ghost use Rattle.move_files.specs.Outside.{GivesAt, ChangesOnly, behind};
ghost use Rattle.move_files.specs.Held.{held_in};

use crate::{Files, NoMemory, ReadFail, WriteFail};
use std::alloc::Global;
use std::collections::BTreeMap;

/// Files in memory that never fail. They keep the allocator that they were made with.
#[derive(Drop)]
pub struct SafeFiles {
    alloc: Global,
    held: BTreeMap<String, Vec<u8>>,
    most: usize,
    misses: u64,
    ghost some: { 0 < most },
}

impl SafeFiles {
    ghost use Rattle.std.specs.Prelude.{None};
    ghost use Rattle.move_files.specs.SafeFiles.{held_bytes, misses_of, most_of};

    /// No files. It takes no memory.
    pub fn new(alloc: Global) -> Self
        ensures empty { (name : _) → held_bytes result name ≡ None }
        ensures misses { misses_of result ≡ 0 }
    {
        SafeFiles {
            alloc,
            held: BTreeMap::new(alloc),
            most: usize::MAX,
            misses: 0,
        }
    }

    /// Puts these bytes under a name, in place of what it held. Nothing changes where memory is wanting.
    pub fn put(&mut self, name: &str, bytes: &[u8]) -> Result<(), NoMemory>
        ensures ok { OnOk result (held_bytes self.new name.now ≡ Some bytes.now) }
        ensures err { OnErr result (held_bytes self.new name.now ≡ held_bytes self.old name.now) }
        ensures others { ChangesOnly name.now (held_bytes self.old) (held_bytes self.new) }
        ensures most { most_of self.new ≡ most_of self.old }
        ensures misses { misses_of self.new ≡ misses_of self.old }
    {
        put_in(self.alloc, &mut self.held, name, bytes)
    }

    /// Sets the most bytes that a read gives.
    pub fn piece(&mut self, most: usize)
        requires { 0 < most }
        ensures most { most_of self.new ≡ most }
        ensures contents { held_bytes self.new ≡ held_bytes self.old }
        ensures misses { misses_of self.new ≡ misses_of self.old }
    {
        self.most = most;
    }

    // Whether a name is held.
    pub(crate) fn is_held(&self, name: &str) -> bool
        ensures { IsTrue result ↔ IsSome (held_bytes self.now name.now) }
    {
        self.held.contains_key(name)
    }
}

impl Files for SafeFiles {
    ghost use Rattle.std.specs.Prelude.{[], ◌+◌, ◌^◌, IfOk, IsErrOf, IsNone};
    ghost use Rattle.move_files.specs.Outside.{Rose};
    ghost use Rattle.move_files.specs.SafeFiles.{held_bytes, misses_of, most_of};

    ghost tells = { Unit {0} };

    ghost holds = { held_bytes };

    ghost read_faults = { λ _ _. 0 };

    ghost misses = { λ files _. misses_of files };

    ghost write_faults = { λ _. 0 };

    // It gives as many bytes as there are, as fit and as are allowed, and never fails.
    fn read_at(&mut self, name: &str, at: u64, buf: &mut [u8]) -> Result<usize, ReadFail>
        requires { 0 < length buf.old }

        ensures bound { IfOk result (λ n. n ≤ length buf.old) }
        ensures gives { IfOk result (λ n. GivesAt (held_bytes self.old name.now) at n buf.new) }
        ensures count { (bytes : _) → held_bytes self.old name.now ≡ Some bytes → IfOk result (λ n. n ≡ min (min (length bytes - at) (length buf.old)) (most_of self.old)) }

        ensures missing { IsErrOf result ReadFail.Missing → Rose (misses_of self.old) (misses_of self.new) }
        ensures missing_told { IsErrOf result ReadFail.Missing ↔ IsNone (held_bytes self.old name.now) }
        ensures failed { ¬ IsErrOf result ReadFail.Failed }

        ensures contents { held_bytes self.new ≡ held_bytes self.old }
        ensures most { most_of self.new ≡ most_of self.old }
        ensures read_counts { misses_of self.old ≤ misses_of self.new }
    {
        match self.held.get(name) {
            Some(held) => Ok(copy_at(held, at, self.most, buf)),
            None => {
                self.misses = self.misses.saturating_add(1);
                Err(ReadFail::Missing)
            }
        }
    }

    // It never fails but for want of memory, and then changes nothing.
    fn begin(&mut self, name: &str) -> Result<(), WriteFail>
        ensures ok { OnOk result (held_bytes self.new name.now ≡ Some []) }

        ensures err { OnErr result (held_bytes self.new name.now ≡ held_bytes self.old name.now) }
        ensures failed { ¬ IsErrOf result WriteFail.Failed }

        ensures others { ChangesOnly name.now (held_bytes self.old) (held_bytes self.new) }
        ensures most { most_of self.new ≡ most_of self.old }
        ensures read_counts { misses_of self.new ≡ misses_of self.old }
    {
        match put_in(self.alloc, &mut self.held, name, &[]) {
            Ok(()) => Ok(()),
            Err(_) => Err(WriteFail::NoMemory),
        }
    }

    // It never fails but for want of memory, and then changes nothing.
    fn append(&mut self, name: &str, bytes: &[u8]) -> Result<(), WriteFail>
        ensures ok { OnOk result (held_bytes self.new name.now ≡ Some (behind (held_bytes self.old name.now) bytes.now)) }

        ensures err { OnErr result (held_bytes self.new name.now ≡ held_bytes self.old name.now) }
        ensures failed { ¬ IsErrOf result WriteFail.Failed }

        ensures others { ChangesOnly name.now (held_bytes self.old) (held_bytes self.new) }
        ensures most { most_of self.new ≡ most_of self.old }
        ensures read_counts { misses_of self.new ≡ misses_of self.old }
    {
        match append_in(self.alloc, &mut self.held, name, bytes) {
            Ok(()) => Ok(()),
            Err(_) => Err(WriteFail::NoMemory),
        }
    }
}

// Copies bytes that stand at a place, as many as there are, as fit and as are allowed.
fn copy_at(held: &[u8], at: u64, most: usize, buf: &mut [u8]) -> usize
    requires room { 0 < length buf.old }
    requires some { 0 < most }
    ensures count { result ≡ min (min (length held.now - at) (length buf.old)) most }
    ensures gives { GivesAt (Some held.now) at result buf.new }
{
    if at >= held.len() as u64 {
        return 0;
    }
    let left = &held[at as usize..];
    let count = left.len().min(buf.len()).min(most);
    buf[..count].copy_from_slice(&left[..count]);
    count
}

// Puts these bytes under a name, in place of what it held.
fn put_in(
    alloc: Global,
    files: &mut BTreeMap<String, Vec<u8>>,
    name: &str,
    bytes: &[u8],
) -> Result<(), NoMemory>
    ensures ok { OnOk result (held_in files.new name.now ≡ Some bytes.now) }
    ensures err { OnErr result (held_in files.new name.now ≡ held_in files.old name.now) }
    ensures others { ChangesOnly name.now (held_in files.old) (held_in files.new) }
{
    let contents = Vec::from_slice(alloc, bytes)?;
    let key = String::from_str(alloc, name)?;
    files.insert(key, contents)?;
    Ok(())
}

// Puts these bytes behind those that a name holds.
fn append_in(
    alloc: Global,
    files: &mut BTreeMap<String, Vec<u8>>,
    name: &str,
    bytes: &[u8],
) -> Result<(), NoMemory>
    ensures ok { OnOk result (held_in files.new name.now ≡ Some (behind (held_in files.old name.now) bytes.now)) }
    ensures err { OnErr result (held_in files.new name.now ≡ held_in files.old name.now) }
    ensures others { ChangesOnly name.now (held_in files.old) (held_in files.new) }
{
    match files.get_mut(name) {
        Some(held) => held.extend_from_slice(bytes),
        None => put_in(alloc, files, name, bytes),
    }
}
