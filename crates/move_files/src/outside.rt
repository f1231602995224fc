// The two traits of the outside. Each contract stands in three parts: what Ok gives, when each error comes and what it
// leaves, and what the counts do.
ghost use Rattle.std.specs.Prelude.{◌≡◌, ◌⊎◌, ◌<◌, ◌≤◌, ◌++◌, List, [], ℕ, Option, length, take, IsNone, IfOk, OnOk, OnErr, IsErrOf, ◌↔◌};
ghost use Rattle.move_files.specs.Outside.{Rose, NeverFalls, GivesAt, ChangesOnly, behind, HoldsPrefix};

/// Why a read gave nothing.
#[derive(Clone, Copy, Debug, PartialEq, Eq)]
pub enum ReadFail {
    /// The name is not held.
    Missing,
    /// The read failed.
    Failed,
}

/// Why a write took nothing, or not all.
#[derive(Clone, Copy, Debug, PartialEq, Eq)]
pub enum WriteFail {
    /// The write failed.
    Failed,
    /// Memory was wanting.
    NoMemory,
}

/// Files by their names.
pub trait Files {
    /// Whether the object tells what it holds.
    ghost tells: { Type 0 };

    /// The bytes under a name, where the name is held. It means something only where contents are told.
    ghost holds: { Self → List ℕ → Option (List ℕ) };

    /// How often a read of a name has failed.
    ghost read_faults: { Self → List ℕ → ℕ };

    /// How often a name was not found.
    ghost misses: { Self → List ℕ → ℕ };

    /// How often a write has failed.
    ghost write_faults: { Self → ℕ };

    /// Reads bytes that stand at a place, counted from 0. It gives how many; none only at the file's end.
    fn read_at(&mut self, name: &str, at: u64, buf: &mut [u8]) -> Result<usize, ReadFail>
        requires { 0 < length buf.old }

        ensures bound { IfOk result (λ n. n ≤ length buf.old) }
        ensures gives { tells → IfOk result (λ n. GivesAt (holds self.old name.now) at n buf.new) }

        ensures missing { IsErrOf result ReadFail.Missing → Rose (misses self.old name.now) (misses self.new name.now) }
        ensures missing_told { tells → (IsErrOf result ReadFail.Missing ↔ IsNone (holds self.old name.now)) }
        ensures failed { IsErrOf result ReadFail.Failed → Rose (read_faults self.old name.now) (read_faults self.new name.now) }

        ensures contents { holds self.new ≡ holds self.old }
        ensures read_counts { NeverFalls (read_faults self.old) (read_faults self.new) × NeverFalls (misses self.old) (misses self.new) }
        ensures write_counts { write_faults self.new ≡ write_faults self.old };

    /// Leaves a name held with no bytes.
    fn begin(&mut self, name: &str) -> Result<(), WriteFail>
        ensures ok { tells → OnOk result (holds self.new name.now ≡ Some []) }

        ensures err { tells → OnErr result ((holds self.new name.now ≡ holds self.old name.now) ⊎ (holds self.new name.now ≡ Some [])) }
        ensures failed { IsErrOf result WriteFail.Failed → Rose (write_faults self.old) (write_faults self.new) }

        ensures others { ChangesOnly name.now (holds self.old) (holds self.new) }
        ensures write_counts { write_faults self.old ≤ write_faults self.new }
        ensures read_counts { (read_faults self.new ≡ read_faults self.old) × (misses self.new ≡ misses self.old) };

    /// Puts bytes behind those that a name holds. A name that is not held counts as one with no bytes.
    fn append(&mut self, name: &str, bytes: &[u8]) -> Result<(), WriteFail>
        ensures ok { tells → OnOk result (holds self.new name.now ≡ Some (behind (holds self.old name.now) bytes.now)) }

        ensures err { tells → OnErr result (HoldsPrefix (holds self.old name.now) bytes.now (holds self.new name.now)) }
        ensures failed { IsErrOf result WriteFail.Failed → Rose (write_faults self.old) (write_faults self.new) }

        ensures others { ChangesOnly name.now (holds self.old) (holds self.new) }
        ensures write_counts { write_faults self.old ≤ write_faults self.new }
        ensures read_counts { (read_faults self.new ≡ read_faults self.old) × (misses self.new ≡ misses self.old) };
}

/// What takes bytes.
pub trait Sink {
    /// Whether the object tells what it has taken.
    ghost tells: { Type 0 };

    /// The bytes that were taken so far. It means something only where they are told.
    ghost sent: { Self → List ℕ };

    /// How often a write has failed.
    ghost faults: { Self → ℕ };

    /// How often memory was wanting.
    ghost wants: { Self → ℕ };

    /// Takes some first bytes, and gives how many: at least one.
    fn write(&mut self, bytes: &[u8]) -> Result<usize, WriteFail>
        requires { 0 < length bytes.now }

        ensures bound { IfOk result (λ n. (0 < n) × (n ≤ length bytes.now)) }
        ensures took { tells → IfOk result (λ n. sent self.new ≡ sent self.old ++ take n bytes.now) }

        ensures err { tells → OnErr result (sent self.new ≡ sent self.old) }
        ensures failed { IsErrOf result WriteFail.Failed → Rose (faults self.old) (faults self.new) }
        ensures no_memory { IsErrOf result WriteFail.NoMemory → Rose (wants self.old) (wants self.new) }

        ensures counts { (faults self.old ≤ faults self.new) × (wants self.old ≤ wants self.new) };
}
