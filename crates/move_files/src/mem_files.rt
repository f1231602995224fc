// Files in memory that can be made to fail.
ghost use Rattle.std.specs.Prelude.{◌≡◌, ◌+◌, ◌-◌, ◌^◌, min, OnOk, OnErr, IsTrue, ◌↔◌, if◌then◌else◌};
ghost use Rattle.move_files.specs.Outside.{NeverFalls};
ghost use Rattle.move_files.specs.Plans.{calls_left, faults_in, StaysElsewhere};

use crate::{Files, NoMemory, ReadFail, SafeFiles, WriteFail};
use std::alloc::Global;
use std::collections::BTreeMap;

/// When a call for a name fails, and how often such calls have failed.
#[derive(Clone, Copy)]
struct Plan {
    left: u64,
    faults: u64,
}

/// Files in memory whose reads, begins and appends can be made to fail.
///
/// A failing call changes no file. The calls are counted for each name, from the call that plans the failure; a later
/// plan for the same name and kind takes the place of the earlier one.
#[derive(Drop)]
pub struct MemFiles {
    alloc: Global,
    files: SafeFiles,
    reads: BTreeMap<String, Plan>,
    begins: BTreeMap<String, Plan>,
    appends: BTreeMap<String, Plan>,
    write_faults: u64,
}

impl MemFiles {
    ghost use Rattle.std.specs.Prelude.{◌<◌, None, Some};
    ghost use Rattle.move_files.specs.Outside.{ChangesOnly};
    ghost use Rattle.move_files.specs.MemFiles.{appends_left, begins_left, held_bytes, misses_of, most_of, read_faults_of, reads_left, write_faults_of};

    /// No files, and no call that is to fail. It takes no memory.
    pub fn new(alloc: Global) -> Self
        ensures empty { (name : _) → held_bytes result name ≡ None }
        ensures plans { (name : _) → (reads_left result name ≡ 0) × (begins_left result name ≡ 0) × (appends_left result name ≡ 0) }
        ensures read_counts { (name : _) → (read_faults_of result name ≡ 0) × (misses_of result ≡ 0) }
        ensures write_counts { write_faults_of result ≡ 0 }
    {
        MemFiles {
            alloc,
            files: SafeFiles::new(alloc),
            reads: BTreeMap::new(alloc),
            begins: BTreeMap::new(alloc),
            appends: BTreeMap::new(alloc),
            write_faults: 0,
        }
    }

    /// Puts these bytes under a name, in place of what it held. Nothing changes where memory is wanting.
    pub fn put(&mut self, name: &str, bytes: &[u8]) -> Result<(), NoMemory>
        ensures ok { OnOk result (held_bytes self.new name.now ≡ Some bytes.now) }
        ensures err { OnErr result (held_bytes self.new name.now ≡ held_bytes self.old name.now) }
        ensures others { ChangesOnly name.now (held_bytes self.old) (held_bytes self.new) }
        ensures most { most_of self.new ≡ most_of self.old }
        ensures plans { (reads_left self.new ≡ reads_left self.old) × (begins_left self.new ≡ begins_left self.old) × (appends_left self.new ≡ appends_left self.old) }
        ensures read_counts { (read_faults_of self.new ≡ read_faults_of self.old) × (misses_of self.new ≡ misses_of self.old) }
        ensures write_counts { write_faults_of self.new ≡ write_faults_of self.old }
    {
        self.files.put(name, bytes)
    }

    /// Sets the most bytes that a read gives.
    pub fn piece(&mut self, most: usize)
        requires { 0 < most }
        ensures most { most_of self.new ≡ most }
        ensures contents { held_bytes self.new ≡ held_bytes self.old }
        ensures plans { (reads_left self.new ≡ reads_left self.old) × (begins_left self.new ≡ begins_left self.old) × (appends_left self.new ≡ appends_left self.old) }
        ensures read_counts { (read_faults_of self.new ≡ read_faults_of self.old) × (misses_of self.new ≡ misses_of self.old) }
        ensures write_counts { write_faults_of self.new ≡ write_faults_of self.old }
    {
        self.files.piece(most);
    }

    /// Lets the nth read of a name from now fail, counted from 1. A read of a name that is not held is not counted.
    /// Nothing changes where memory is wanting.
    pub fn fail_read(&mut self, name: &str, nth: u64) -> Result<(), NoMemory>
        ensures ok { OnOk result (reads_left self.new name.now ≡ nth) }
        ensures err { OnErr result (reads_left self.new name.now ≡ reads_left self.old name.now) }
        ensures others { StaysElsewhere name.now (reads_left self.old) (reads_left self.new) }
        ensures plans { (begins_left self.new ≡ begins_left self.old) × (appends_left self.new ≡ appends_left self.old) }
        ensures contents { held_bytes self.new ≡ held_bytes self.old }
        ensures most { most_of self.new ≡ most_of self.old }
        ensures read_counts { (n : _) → (read_faults_of self.new n ≡ read_faults_of self.old n) × (misses_of self.new ≡ misses_of self.old) }
        ensures write_counts { write_faults_of self.new ≡ write_faults_of self.old }
    {
        plan_in(self.alloc, &mut self.reads, name, nth)
    }

    /// Lets the nth begin of a name from now fail, counted from 1. Nothing changes where memory is wanting.
    pub fn fail_begin(&mut self, name: &str, nth: u64) -> Result<(), NoMemory>
        ensures ok { OnOk result (begins_left self.new name.now ≡ nth) }
        ensures err { OnErr result (begins_left self.new name.now ≡ begins_left self.old name.now) }
        ensures others { StaysElsewhere name.now (begins_left self.old) (begins_left self.new) }
        ensures plans { (reads_left self.new ≡ reads_left self.old) × (appends_left self.new ≡ appends_left self.old) }
        ensures contents { held_bytes self.new ≡ held_bytes self.old }
        ensures most { most_of self.new ≡ most_of self.old }
        ensures read_counts { (read_faults_of self.new ≡ read_faults_of self.old) × (misses_of self.new ≡ misses_of self.old) }
        ensures write_counts { write_faults_of self.new ≡ write_faults_of self.old }
    {
        plan_in(self.alloc, &mut self.begins, name, nth)
    }

    /// Lets the nth append to a name from now fail, counted from 1. Nothing changes where memory is wanting.
    pub fn fail_append(&mut self, name: &str, nth: u64) -> Result<(), NoMemory>
        ensures ok { OnOk result (appends_left self.new name.now ≡ nth) }
        ensures err { OnErr result (appends_left self.new name.now ≡ appends_left self.old name.now) }
        ensures others { StaysElsewhere name.now (appends_left self.old) (appends_left self.new) }
        ensures plans { (reads_left self.new ≡ reads_left self.old) × (begins_left self.new ≡ begins_left self.old) }
        ensures contents { held_bytes self.new ≡ held_bytes self.old }
        ensures most { most_of self.new ≡ most_of self.old }
        ensures read_counts { (read_faults_of self.new ≡ read_faults_of self.old) × (misses_of self.new ≡ misses_of self.old) }
        ensures write_counts { write_faults_of self.new ≡ write_faults_of self.old }
    {
        plan_in(self.alloc, &mut self.appends, name, nth)
    }
}

impl Files for MemFiles {
    ghost use Rattle.std.specs.Prelude.{◌<◌, ◌≤◌, [], Some, IfOk, IsErrOf, IsNone, IsSome, length};
    ghost use Rattle.move_files.specs.Outside.{behind, ChangesOnly, GivesAt, Rose};
    ghost use Rattle.move_files.specs.Plans.{CountsDown};
    ghost use Rattle.move_files.specs.MemFiles.{appends_left, begins_left, held_bytes, misses_of, most_of, read_faults_of, reads_left, write_faults_of};

    ghost tells = { Unit {0} };

    ghost holds = { held_bytes };

    ghost read_faults = { read_faults_of };

    ghost misses = { λ files _. misses_of files };

    ghost write_faults = { write_faults_of };

    // It gives as many bytes as there are, as fit and as are allowed, and fails exactly as planned.
    fn read_at(&mut self, name: &str, at: u64, buf: &mut [u8]) -> Result<usize, ReadFail>
        requires { 0 < length buf.old }

        ensures bound { IfOk result (λ n. n ≤ length buf.old) }
        ensures gives { IfOk result (λ n. GivesAt (held_bytes self.old name.now) at n buf.new) }
        ensures count { (bytes : _) → held_bytes self.old name.now ≡ Some bytes → IfOk result (λ n. n ≡ min (min (length bytes - at) (length buf.old)) (most_of self.old)) }

        ensures missing { IsErrOf result ReadFail.Missing → Rose (misses_of self.old) (misses_of self.new) }
        ensures missing_told { IsErrOf result ReadFail.Missing ↔ IsNone (held_bytes self.old name.now) }
        ensures planned { IsErrOf result ReadFail.Failed ↔ (IsSome (held_bytes self.old name.now) × (reads_left self.old name.now ≡ 1)) }
        ensures failed { IsErrOf result ReadFail.Failed → Rose (read_faults_of self.old name.now) (read_faults_of self.new name.now) }

        ensures contents { held_bytes self.new ≡ held_bytes self.old }
        ensures counted { IsSome (held_bytes self.old name.now) → CountsDown name.now (reads_left self.old) (reads_left self.new) }
        ensures uncounted { IsNone (held_bytes self.old name.now) → reads_left self.new ≡ reads_left self.old }
        ensures plans { (begins_left self.new ≡ begins_left self.old) × (appends_left self.new ≡ appends_left self.old) }
        ensures most { most_of self.new ≡ most_of self.old }
        ensures read_counts { NeverFalls (read_faults_of self.old) (read_faults_of self.new) × (misses_of self.old ≤ misses_of self.new) }
        ensures write_counts { write_faults_of self.new ≡ write_faults_of self.old }
    {
        if !self.files.is_held(name) {
            return self.files.read_at(name, at, buf);
        }
        if fails(&mut self.reads, name) {
            return Err(ReadFail::Failed);
        }
        self.files.read_at(name, at, buf)
    }

    // It fails exactly as planned, and changes nothing on the way.
    fn begin(&mut self, name: &str) -> Result<(), WriteFail>
        ensures ok { OnOk result (held_bytes self.new name.now ≡ Some []) }

        ensures err { OnErr result (held_bytes self.new name.now ≡ held_bytes self.old name.now) }
        ensures planned { IsErrOf result WriteFail.Failed ↔ (begins_left self.old name.now ≡ 1) }
        ensures failed { IsErrOf result WriteFail.Failed → Rose (write_faults_of self.old) (write_faults_of self.new) }

        ensures others { ChangesOnly name.now (held_bytes self.old) (held_bytes self.new) }
        ensures counted { CountsDown name.now (begins_left self.old) (begins_left self.new) }
        ensures plans { (reads_left self.new ≡ reads_left self.old) × (appends_left self.new ≡ appends_left self.old) }
        ensures most { most_of self.new ≡ most_of self.old }
        ensures write_counts { write_faults_of self.old ≤ write_faults_of self.new }
        ensures read_counts { (read_faults_of self.new ≡ read_faults_of self.old) × (misses_of self.new ≡ misses_of self.old) }
    {
        if fails(&mut self.begins, name) {
            self.write_faults = self.write_faults.saturating_add(1);
            return Err(WriteFail::Failed);
        }
        self.files.begin(name)
    }

    // It fails exactly as planned, and changes nothing on the way.
    fn append(&mut self, name: &str, bytes: &[u8]) -> Result<(), WriteFail>
        ensures ok { OnOk result (held_bytes self.new name.now ≡ Some (behind (held_bytes self.old name.now) bytes.now)) }

        ensures err { OnErr result (held_bytes self.new name.now ≡ held_bytes self.old name.now) }
        ensures planned { IsErrOf result WriteFail.Failed ↔ (appends_left self.old name.now ≡ 1) }
        ensures failed { IsErrOf result WriteFail.Failed → Rose (write_faults_of self.old) (write_faults_of self.new) }

        ensures others { ChangesOnly name.now (held_bytes self.old) (held_bytes self.new) }
        ensures counted { CountsDown name.now (appends_left self.old) (appends_left self.new) }
        ensures plans { (reads_left self.new ≡ reads_left self.old) × (begins_left self.new ≡ begins_left self.old) }
        ensures most { most_of self.new ≡ most_of self.old }
        ensures write_counts { write_faults_of self.old ≤ write_faults_of self.new }
        ensures read_counts { (read_faults_of self.new ≡ read_faults_of self.old) × (misses_of self.new ≡ misses_of self.old) }
    {
        if fails(&mut self.appends, name) {
            self.write_faults = self.write_faults.saturating_add(1);
            return Err(WriteFail::Failed);
        }
        self.files.append(name, bytes)
    }
}

// Counts a call for a name, and answers whether it fails.
fn fails(plans: &mut BTreeMap<String, Plan>, name: &str) -> bool
    ensures planned { IsTrue result ↔ (calls_left plans.old name.now ≡ 1) }
    ensures left { calls_left plans.new name.now ≡ calls_left plans.old name.now - 1 }
    ensures faults { faults_in plans.new name.now ≡ (if result then min (faults_in plans.old name.now + 1) (2 ^ 64 - 1) else faults_in plans.old name.now) }
    ensures others { StaysElsewhere name.now (calls_left plans.old) (calls_left plans.new) }
    ensures other_faults { StaysElsewhere name.now (faults_in plans.old) (faults_in plans.new) }
    ensures never_falls { NeverFalls (faults_in plans.old) (faults_in plans.new) }
{
    match plans.get_mut(name) {
        None => false,
        Some(plan) => {
            let fails = plan.left == 1;
            plan.left = plan.left.saturating_sub(1);
            if fails {
                plan.faults = plan.faults.saturating_add(1);
            }
            fails
        }
    }
}

// Lets the nth call for a name fail.
fn plan_in(
    alloc: Global,
    plans: &mut BTreeMap<String, Plan>,
    name: &str,
    nth: u64,
) -> Result<(), NoMemory>
    ensures ok { OnOk result (calls_left plans.new name.now ≡ nth) }
    ensures err { OnErr result (calls_left plans.new name.now ≡ calls_left plans.old name.now) }
    ensures others { StaysElsewhere name.now (calls_left plans.old) (calls_left plans.new) }
    ensures faults { (n : _) → faults_in plans.new n ≡ faults_in plans.old n }
{
    if let Some(plan) = plans.get_mut(name) {
        plan.left = nth;
        return Ok(());
    }
    let key = String::from_str(alloc, name)?;
    let plan = Plan {
        left: nth,
        faults: 0,
    };
    plans.insert(key, plan)?;
    Ok(())
}
