// A sink in memory that can be made to fail.
ghost use Rattle.std.specs.Prelude.{◌≡◌, ◌<◌, [], IsOk};

use crate::{NoMemory, SafeSink, Sink, WriteFail};
use std::alloc::Global;

/// A sink in memory whose writes can be made to fail. A failing write takes nothing.
#[derive(Drop)]
pub struct MemSink {
    sink: SafeSink,
    left: u64,
    faults: u64,
}

impl MemSink {
    ghost use Rattle.move_files.specs.MemSink.{faults_of, most_of, taken_bytes, wants_of, writes_left};

    /// Nothing taken, and no write that is to fail. It takes no memory.
    pub fn new(alloc: Global) -> Self
        ensures nothing { taken_bytes result ≡ [] }
        ensures plan { writes_left result ≡ 0 }
        ensures counts { (faults_of result ≡ 0) × (wants_of result ≡ 0) }
    {
        MemSink {
            sink: SafeSink::new(alloc),
            left: 0,
            faults: 0,
        }
    }

    /// Sets the most bytes that a write takes.
    pub fn piece(&mut self, most: usize)
        requires { 0 < most }
        ensures most { most_of self.new ≡ most }
        ensures taken { taken_bytes self.new ≡ taken_bytes self.old }
        ensures plan { writes_left self.new ≡ writes_left self.old }
        ensures counts { (faults_of self.new ≡ faults_of self.old) × (wants_of self.new ≡ wants_of self.old) }
    {
        self.sink.piece(most);
    }

    /// Lets the nth write from now fail, counted from 1. A later plan takes the place of an earlier one. It takes no
    /// memory.
    pub fn fail_write(&mut self, nth: u64) -> Result<(), NoMemory>
        ensures ok { IsOk result }
        ensures plan { writes_left self.new ≡ nth }
        ensures most { most_of self.new ≡ most_of self.old }
        ensures taken { taken_bytes self.new ≡ taken_bytes self.old }
        ensures counts { (faults_of self.new ≡ faults_of self.old) × (wants_of self.new ≡ wants_of self.old) }
    {
        self.left = nth;
        Ok(())
    }

    /// Lends the bytes that were taken.
    pub fn taken(&self) -> &[u8]
        ensures { result.now ≡ taken_bytes self.now }
    {
        self.sink.taken()
    }
}

impl Sink for MemSink {
    ghost use Rattle.std.specs.Prelude.{◌≤◌, ◌-◌, ◌++◌, ◌↔◌, length, min, take, IfOk, OnErr, IsErrOf};
    ghost use Rattle.move_files.specs.Outside.{Rose};
    ghost use Rattle.move_files.specs.MemSink.{faults_of, most_of, taken_bytes, wants_of, writes_left};

    ghost tells = { Unit {0} };

    ghost sent = { taken_bytes };

    ghost faults = { faults_of };

    ghost wants = { wants_of };

    // It takes as many bytes as are allowed, and fails exactly as planned.
    fn write(&mut self, bytes: &[u8]) -> Result<usize, WriteFail>
        requires { 0 < length bytes.now }

        ensures bound { IfOk result (λ n. (0 < n) × (n ≤ length bytes.now)) }
        ensures count { IfOk result (λ n. n ≡ min (length bytes.now) (most_of self.old)) }
        ensures took { IfOk result (λ n. taken_bytes self.new ≡ taken_bytes self.old ++ take n bytes.now) }

        ensures err { OnErr result (taken_bytes self.new ≡ taken_bytes self.old) }
        ensures planned { IsErrOf result WriteFail.Failed ↔ (writes_left self.old ≡ 1) }
        ensures failed { IsErrOf result WriteFail.Failed → Rose (faults_of self.old) (faults_of self.new) }
        ensures no_memory { IsErrOf result WriteFail.NoMemory → Rose (wants_of self.old) (wants_of self.new) }

        ensures counted { writes_left self.new ≡ writes_left self.old - 1 }
        ensures most { most_of self.new ≡ most_of self.old }
        ensures counts { (faults_of self.old ≤ faults_of self.new) × (wants_of self.old ≤ wants_of self.new) }
    {
        let fails = self.left == 1;
        self.left = self.left.saturating_sub(1);
        if fails {
            self.faults = self.faults.saturating_add(1);
            return Err(WriteFail::Failed);
        }
        self.sink.write(bytes)
    }
}
