// Rows of numbers that are cleared at the cost of what was written.
ghost use Rattle.std.specs.Prelude.{◌≡◌, ◌≢◌, ◌<◌, ◌≤◌, ◌-◌, ◌^◌, ℕ, length, slice_get, slice_index, slice_set, replicate, Contains, IfOk};

use crate::sparse_set::SparseSet;
use move_model::NoMemory;
use std::alloc::Global;
use std::marker::Model;

/// No number.
pub const NEVER: u32 = u32::MAX;

/// A row of numbers that are NEVER but where they were written. To clear it costs as much as was written.
#[derive(Drop)]
pub struct SparseRow {
    values: Vec<u32>,
    written: SparseSet,
}

impl Model for SparseRow {
    ghost use Rattle.std.specs.Prelude.{◌≡◌, ◌-◌, ◌^◌, List, ℕ, false, length, slice_index, slice_index_or, ◌<◌};
    ghost use Rattle.raptor_rounds.specs.Sparse.{IsElsewhereNever};

    ghost Value = { List ℕ };

    ghost view = { λ row. row.values.items };

    ghost invariant = { λ row. IsElsewhereNever row.values.items row.written × (length row.values.items < 2 ^ 32) };
}

// Puts NEVER at each of the places.
fn unwrite(values: &mut Vec<u32>, places: &[u32])
    requires { (i : ℕ) → i < length places.now → slice_index places.now i < length values.old.items }
    ensures length { length values.new.items ≡ length values.old.items }
    ensures there { (x : ℕ) → Contains places.now x → slice_index values.new.items x ≡ 2 ^ 32 - 1 }
    ensures elsewhere { (x : ℕ) → slice_index values.old.items x ≡ 2 ^ 32 - 1 → x < length values.old.items → slice_index values.new.items x ≡ 2 ^ 32 - 1 }
{
    for place in places {
        values[*place as usize] = NEVER;
    }
}

impl SparseRow {
    /// A row of so many places with NEVER.
    pub fn new(alloc: Global, length: u32) -> Result<SparseRow, NoMemory>
        ensures { IfOk result (λ row. row ≡ replicate length (2 ^ 32 - 1)) }
    {
        let values: Vec<u32> = vec![in alloc; NEVER; length as usize]?;
        let written = SparseSet::new(alloc, length)?;
        Ok(SparseRow { values, written })
    }

    /// Leaves NEVER everywhere.
    pub fn clear(&mut self)
        ensures length { length self.new ≡ length self.old }
        ensures never { (x : ℕ) → x < length self.old → slice_index self.new x ≡ 2 ^ 32 - 1 }
    {
        unwrite(&mut self.values, self.written.as_slice());
        self.written.clear();
    }

    /// The number at a place.
    pub fn get(&self, place: u32) -> u32
        requires { place < length self.now }
        ensures { result ≡ slice_index self.now place }
    {
        self.values[place as usize]
    }

    /// Writes a number.
    pub fn set(&mut self, place: u32, value: u32)
        requires { place < length self.old }
        ensures { self.new ≡ slice_set self.old place value }
    {
        self.values[place as usize] = value;
        self.written.insert(place);
    }

    /// Lends the places that were written, each once.
    pub fn written(&self) -> &[u32]
        ensures within { (i : ℕ) → i < length result.now → slice_index result.now i < length self.now }
        ensures all { (x : ℕ) → x < length self.now → slice_index self.now x < 2 ^ 32 - 1 → Contains result.now x }
        ensures once { (i j : ℕ) → i < j → j < length result.now → slice_index result.now i ≢ slice_index result.now j }
        ensures few { length result.now ≤ length self.now }
    {
        self.written.as_slice()
    }
}
