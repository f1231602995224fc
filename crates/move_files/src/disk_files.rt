// Files of the system.
ghost use Rattle.std.specs.Prelude.{◌≡◌, ◌≤◌, IsErrOf};
ghost use Rattle.std.specs.Io.{ReadsAtMost};
ghost use Rattle.move_files.specs.Outside.{ChangesOnly, Rose};

use crate::{Files, ReadFail, WriteFail};
use std::io::{ErrorKind, Read, Seek, SeekFrom, Write};
use std::{fs, io, rt};

/// Files of the system. It tells nothing of what they hold.
///
/// A name that a read does not find counts as a miss, and every other error as a fault of its kind. One number of read
/// faults and one of misses stand for every name.
#[derive(Drop)]
pub struct DiskFiles<R: rt::Files> {
    system: R,
    read_faults: u64,
    misses: u64,
    write_faults: u64,
}

impl<R: rt::Files> DiskFiles<R> {
    /// The files of this system, with no fault and no miss so far.
    pub fn new(system: R) -> Self
        ensures read_counts { (name : _) → (⟦<DiskFiles<R> as Files>⟧.read_faults result name ≡ 0) × (⟦<DiskFiles<R> as Files>⟧.misses result name ≡ 0) }
        ensures write_counts { ⟦<DiskFiles<R> as Files>⟧.write_faults result ≡ 0 }
    {
        DiskFiles {
            system,
            read_faults: 0,
            misses: 0,
            write_faults: 0,
        }
    }
}

impl<R: rt::Files> Files for DiskFiles<R> {
    ghost use Rattle.std.specs.Prelude.{None};

    ghost tells = { ⊥ };

    ghost holds = { λ _ _. None };

    ghost read_faults = { λ files _. files.read_faults };

    ghost misses = { λ files _. files.misses };

    ghost write_faults = { λ files. files.write_faults };

    fn read_at(&mut self, name: &str, at: u64, buf: &mut [u8]) -> Result<usize, ReadFail> {
        match read_from(&self.system, name, at, buf) {
            Ok(count) => Ok(count),
            Err(e) if e.kind() == ErrorKind::NotFound => {
                self.misses = self.misses.saturating_add(1);
                Err(ReadFail::Missing)
            }
            Err(_) => {
                self.read_faults = self.read_faults.saturating_add(1);
                Err(ReadFail::Failed)
            }
        }
    }

    // The trait's clauses, and that memory is never wanting.
    fn begin(&mut self, name: &str) -> Result<(), WriteFail>
        ensures failed { IsErrOf result WriteFail.Failed → Rose (⟦<DiskFiles<R> as Files>⟧.write_faults self.old) (⟦<DiskFiles<R> as Files>⟧.write_faults self.new) }
        ensures no_memory { ¬ IsErrOf result WriteFail.NoMemory }

        ensures others { ChangesOnly name.now (⟦<DiskFiles<R> as Files>⟧.holds self.old) (⟦<DiskFiles<R> as Files>⟧.holds self.new) }
        ensures write_counts { ⟦<DiskFiles<R> as Files>⟧.write_faults self.old ≤ ⟦<DiskFiles<R> as Files>⟧.write_faults self.new }
        ensures read_counts { (⟦<DiskFiles<R> as Files>⟧.read_faults self.new ≡ ⟦<DiskFiles<R> as Files>⟧.read_faults self.old) × (⟦<DiskFiles<R> as Files>⟧.misses self.new ≡ ⟦<DiskFiles<R> as Files>⟧.misses self.old) }
    {
        match fs::create(&self.system, name) {
            Ok(_) => Ok(()),
            Err(_) => {
                self.write_faults = self.write_faults.saturating_add(1);
                Err(WriteFail::Failed)
            }
        }
    }

    // The trait's clauses, and that memory is never wanting.
    fn append(&mut self, name: &str, bytes: &[u8]) -> Result<(), WriteFail>
        ensures failed { IsErrOf result WriteFail.Failed → Rose (⟦<DiskFiles<R> as Files>⟧.write_faults self.old) (⟦<DiskFiles<R> as Files>⟧.write_faults self.new) }
        ensures no_memory { ¬ IsErrOf result WriteFail.NoMemory }

        ensures others { ChangesOnly name.now (⟦<DiskFiles<R> as Files>⟧.holds self.old) (⟦<DiskFiles<R> as Files>⟧.holds self.new) }
        ensures write_counts { ⟦<DiskFiles<R> as Files>⟧.write_faults self.old ≤ ⟦<DiskFiles<R> as Files>⟧.write_faults self.new }
        ensures read_counts { (⟦<DiskFiles<R> as Files>⟧.read_faults self.new ≡ ⟦<DiskFiles<R> as Files>⟧.read_faults self.old) × (⟦<DiskFiles<R> as Files>⟧.misses self.new ≡ ⟦<DiskFiles<R> as Files>⟧.misses self.old) }
    {
        match append_to(&self.system, name, bytes) {
            Ok(()) => Ok(()),
            Err(_) => {
                self.write_faults = self.write_faults.saturating_add(1);
                Err(WriteFail::Failed)
            }
        }
    }
}

fn read_from<R: rt::Files>(system: &R, name: &str, at: u64, buf: &mut [u8]) -> io::Result<usize>
    ensures bound { ReadsAtMost result buf.new }
{
    let mut file = fs::open(system, name)?;
    file.seek(SeekFrom::Start(at))?;
    file.read(buf)
}

fn append_to<R: rt::Files>(system: &R, name: &str, bytes: &[u8]) -> io::Result<()> {
    let mut file = fs::OpenOptions::new()
        .append(true)
        .create(true)
        .open(system, name)?;
    file.write_all(bytes)
}
