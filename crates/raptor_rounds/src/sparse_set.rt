// Sets of numbers below a bound, in the manner of Briggs and Torczon (1993).
ghost use Rattle.std.specs.Prelude.{◌≡◌, ◌≢◌, ◌↔◌, ◌<◌, ◌≤◌, ◌^◌, ℕ, true, false, length, slice_get, slice_index, slice_index_or, slice_set, replicate, Contains, IfOk};

use move_model::NoMemory;
use std::alloc::Global;
use std::marker::Model;

/// A set of numbers below a bound. To clear it takes no time, and its numbers are lent without a look at the others.
///
/// `items` has each number below the bound once, those of the set first, and `places` where each stands.
#[derive(Drop)]
pub struct SparseSet {
    items: Vec<u32>,
    places: Vec<u32>,
    count: u32,
}

impl Model for SparseSet {
    ghost use Rattle.std.specs.Prelude.{List, Bool, map, nat_lt, ◌<◌, ◌≤◌, ◌^◌, length};
    ghost use Rattle.raptor_rounds.specs.Sparse.{IsArranged};

    ghost Value = { List Bool };

    ghost view = { λ set. map (λ place. nat_lt place set.count) set.places.items };

    ghost invariant = { λ set. IsArranged set.items.items set.places.items
        × (set.count ≤ length set.places.items)
        × (length set.places.items < 2 ^ 32) };
}

// The numbers below a bound.
fn numbers(alloc: Global, bound: u32) -> Result<Vec<u32>, NoMemory>
    ensures as_many { IfOk result (λ xs. length xs.items ≡ bound) }
    ensures each { IfOk result (λ xs. (x : ℕ) → x < bound → slice_index xs.items x ≡ x) }
{
    let mut xs: Vec<u32> = Vec::with_capacity(alloc, bound as usize)?;
    for x in 0..bound {
        xs.push(x)?;
    }
    Ok(xs)
}

impl SparseSet {
    /// The empty set of numbers below a bound.
    pub fn new(alloc: Global, bound: u32) -> Result<SparseSet, NoMemory>
        ensures { IfOk result (λ set. set ≡ replicate bound false) }
    {
        let items = numbers(alloc, bound)?;
        let places = numbers(alloc, bound)?;
        Ok(SparseSet {
            items,
            places,
            count: 0,
        })
    }

    /// Leaves no number.
    pub fn clear(&mut self)
        ensures { self.new ≡ replicate (length self.old) false }
    {
        self.count = 0;
    }

    /// Puts a number in.
    pub fn insert(&mut self, x: u32)
        requires { x < length self.old }
        ensures { self.new ≡ slice_set self.old x true }
    {
        let place = self.places[x as usize];
        let count = self.count;
        if place < count {
            return;
        }
        let other = self.items[count as usize];
        self.items[count as usize] = x;
        self.items[place as usize] = other;
        self.places[x as usize] = count;
        self.places[other as usize] = place;
        self.count = count + 1;
    }

    /// Lends the numbers, each once.
    pub fn as_slice(&self) -> &[u32]
        ensures numbers { (x : ℕ) → Contains result.now x ↔ (slice_index_or self.now x false ≡ true) }
        ensures once { (i j : ℕ) → i < j → j < length result.now → slice_index result.now i ≢ slice_index result.now j }
        ensures within { (i : ℕ) → i < length result.now → slice_index result.now i < length self.now }
        ensures few { length result.now ≤ length self.now }
    {
        &self.items[..self.count as usize]
    }
}
