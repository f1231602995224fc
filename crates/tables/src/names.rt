// Names that were seen.
ghost use Rattle.std.specs.Prelude.{◌≡◌, [], ◌∷◌, ◌++◌, ℕ, List, map, IfOk, OnOk, OnErr, is_some, is_none, option_map, if◌then◌else◌};
ghost use Rattle.tables.specs.Names.{place_of};

use indexmap::IndexSet;
use std::alloc::{AllocError, Global};
use std::marker::Model;

/// Names, each once, seen as their list in the order in which they came.
#[derive(Drop)]
pub struct Names {
    set: IndexSet<Vec<u8>>,
}

impl Model for Names {
    ghost use Rattle.std.specs.Prelude.{ℕ, List, map};
    ghost use Rattle.std.proofs.Common.{Vec, Global};

    ghost Value = { List (List ℕ) };

    ghost view = { λ names. map (λ (v : Vec ℕ Global). v.items) names.set.keys };
}

impl Names {
    /// No names. It takes no memory.
    pub fn new(alloc: Global) -> Names
        ensures { result ≡ [] }
    {
        Names {
            set: IndexSet::new(alloc),
        }
    }

    /// The place of a name, or None where it was not seen.
    pub fn place(&self, name: &[u8]) -> Option<usize>
        ensures { result ≡ place_of name.now self.now }
    {
        self.set.get_index_of(name)
    }

    /// Puts a name last, where it was not seen before, and answers whether it was new.
    pub fn insert(&mut self, alloc: Global, name: &[u8]) -> Result<bool, AllocError>
        ensures added { IfOk result (λ added. added ≡ is_none (place_of name.now self.old)) }
        ensures names { IfOk result (λ added. self.new ≡ (if added then self.old ++ name.now ∷ [] else self.old)) }
        ensures failed { OnErr result (self.new ≡ self.old) }
    {
        let name = Vec::from_slice(alloc, name)?;
        let Ok(added) = self.set.insert(name) else {
            return Err(AllocError);
        };
        Ok(added)
    }
}
