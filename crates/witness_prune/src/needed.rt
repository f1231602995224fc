// The pairs of stops that were found.
ghost use Rattle.std.specs.Prelude.{◌≡◌, ◌<◌, ◌≤◌, ◌+◌, ◌^◌, ◌⊎◌, ◌↔◌, ℕ, [], ◌∷◌, length, insert, Contains, IsTrue, IfOk, OnOk, OnErr, slice_index, vec_len, vec_capacity};
ghost use Rattle.move_model.specs.declared.network.StopNo.{StopNo};
ghost use Rattle.witness_prune.specs.Needed.{Pair, pair_at, IsBefore, IsRising};

use move_model::{List, NoMemory, StopNo, StopPairs};
use std::alloc::Global;
use std::marker::Model;

/// Pairs of stops between which a walk is needed, in rising order, each once.
#[derive(Debug, Drop)]
pub struct Needed {
    pairs: Vec<(StopNo, StopNo)>,
}

impl Model for Needed {
    ghost use Rattle.std.specs.Prelude.{List};
    ghost use Rattle.witness_prune.specs.Needed.{Pair, IsRising};

    ghost Value = { List Pair };

    ghost view = { λ needed. needed.pairs.items };

    ghost invariant = { λ needed. IsRising needed.pairs.items };
}

// Whether one pair stands before another.
fn is_before(a: (StopNo, StopNo), b: (StopNo, StopNo)) -> bool
    ensures { IsTrue result ↔ IsBefore a b }
{
    if a.0.0 != b.0.0 {
        return a.0.0 < b.0.0;
    }
    a.1.0 < b.1.0
}

// Whether the pair at a place stands before another.
fn stands_before(pairs: &[(StopNo, StopNo)], place: usize, pair: (StopNo, StopNo)) -> bool
    requires { place < length pairs.now }
    ensures { IsTrue result ↔ IsBefore (pair_at pairs.now place) pair }
{
    is_before(pairs[place], pair)
}

// How many pairs of a rising list stand before a pair.
fn place_of(pairs: &[(StopNo, StopNo)], pair: (StopNo, StopNo)) -> usize
    requires { IsRising pairs.now }
    ensures within { result ≤ length pairs.now }
    ensures before { (k : ℕ) → k < result → IsBefore (pair_at pairs.now k) pair }
    ensures behind { (k : ℕ) → result ≤ k → k < length pairs.now → IsBefore (pair_at pairs.now k) pair → ⊥ }
{
    let mut low = 0;
    let mut high = pairs.len();
    while low < high {
        let middle = low + (high - low) / 2;
        if stands_before(pairs, middle, pair) {
            low = middle + 1;
        } else {
            high = middle;
        }
    }
    low
}

// Whether the pair stands at a place.
fn stands_at(pairs: &[(StopNo, StopNo)], place: usize, pair: (StopNo, StopNo)) -> bool
    ensures { IsTrue result ↔ ((place < length pairs.now) × (pair_at pairs.now place ≡ pair)) }
{
    place < pairs.len() && pairs[place].0.0 == pair.0.0 && pairs[place].1.0 == pair.1.0
}

// Puts a pair at a place; there is room for it.
fn put_at(pairs: &mut Vec<(StopNo, StopNo)>, place: usize, pair: (StopNo, StopNo))
    requires place { place ≤ vec_len pairs.old }
    requires room { vec_len pairs.old < vec_capacity pairs.old }
    ensures items { pairs.new.items ≡ insert pairs.old.items place pair }
    ensures capacity { vec_capacity pairs.old ≤ vec_capacity pairs.new }
{
    let _ = pairs.insert(place, pair);
}

// Puts a pair where it belongs, where it isn't there; there is room for it.
fn put(pairs: &mut Vec<(StopNo, StopNo)>, pair: (StopNo, StopNo))
    requires rising { IsRising pairs.old.items }
    requires room { vec_len pairs.old < vec_capacity pairs.old }
    ensures rising { IsRising pairs.new.items }
    ensures pairs { (q : Pair) → Contains pairs.new.items q ↔ (Contains pairs.old.items q ⊎ (q ≡ pair)) }
    ensures capacity { vec_capacity pairs.old ≤ vec_capacity pairs.new }
    ensures len { vec_len pairs.new ≤ vec_len pairs.old + 1 }
{
    let items = pairs.as_slice();
    let place = place_of(items, pair);
    if stands_at(items, place, pair) {
        return;
    }
    put_at(pairs, place, pair);
}

// Puts pairs where they belong; there is room for them.
fn put_all(pairs: &mut Vec<(StopNo, StopNo)>, more: &[(StopNo, StopNo)])
    requires rising { IsRising pairs.old.items }
    requires room { vec_len pairs.old + length more.now ≤ vec_capacity pairs.old }
    ensures rising { IsRising pairs.new.items }
    ensures pairs { (q : Pair) → Contains pairs.new.items q ↔ (Contains pairs.old.items q ⊎ Contains more.now q) }
{
    for pair in more {
        put(pairs, *pair);
    }
}

impl Needed {
    /// No pair. It keeps the allocator, and takes no memory.
    pub fn new(alloc: Global) -> Needed
        ensures { result ≡ [] }
    {
        Needed {
            pairs: Vec::new(alloc),
        }
    }

    /// Lends the pairs, in rising order.
    pub fn as_slice(&self) -> &[(StopNo, StopNo)]
        ensures pairs { result.now ≡ self.now }
        ensures rising { IsRising result.now }
    {
        self.pairs.as_slice()
    }

    /// Adds pairs. Nothing changes where memory is wanting.
    pub fn insert_all(&mut self, pairs: &[(StopNo, StopNo)]) -> Result<(), NoMemory>
        ensures ok { OnOk result ((q : Pair) → Contains self.new q ↔ (Contains self.old q ⊎ Contains pairs.now q)) }
        ensures err { OnErr result (self.new ≡ self.old) }
    {
        self.pairs.reserve(pairs.len())?;
        put_all(&mut self.pairs, pairs);
        Ok(())
    }

    /// The pairs in rising order. On NoMemory they are given up.
    pub fn into_pairs(self) -> Result<StopPairs, NoMemory>
        ensures pairs { IfOk result (λ pairs. pairs ≡ self) }
        ensures rising { IfOk result IsRising }
    {
        Ok(List::from_vec(self.pairs))
    }
}
