// The vertices that rows of the table give to stops.
ghost use Rattle.std.specs.Prelude.{◌≡◌, [], ◌∷◌, ◌++◌, None, OnOk};
ghost use Rattle.tables.specs.Names.{place_of};
ghost use Rattle.stop_places.specs.Given.{vertex_in};

use move_model::{List, NoMemory, NodeNo};
use std::alloc::Global;
use tables::Names;

/// The ids of rows, each once, and the vertex that each row gives.
#[derive(Drop)]
pub(crate) struct Given {
    pub(crate) names: Names,
    pub(crate) nodes: List<u32>,
}

impl Given {
    /// No rows. It takes no memory.
    pub(crate) fn new(alloc: Global) -> Given
        ensures names { result.names ≡ [] }
        ensures nodes { result.nodes ≡ [] }
    {
        Given {
            names: Names::new(alloc),
            nodes: List::new(alloc),
        }
    }

    /// The vertex that is given to an id, or None where no row has it.
    pub(crate) fn vertex(&self, id: &[u8]) -> Option<NodeNo>
        ensures { result ≡ vertex_in self.now id.now }
    {
        let Some(place) = self.names.place(id) else {
            return None;
        };
        match self.nodes.get(place) {
            None => None,
            Some(node) => Some(NodeNo(*node)),
        }
    }

    /// Puts the vertex of a new id last.
    pub(crate) fn push(&mut self, alloc: Global, id: &[u8], node: u32) -> Result<(), NoMemory>
        requires { place_of id.now self.old.names ≡ None }
        ensures names { OnOk result (self.new.names ≡ self.old.names ++ id.now ∷ []) }
        ensures nodes { OnOk result (self.new.nodes ≡ self.old.nodes ++ node ∷ []) }
    {
        self.names.insert(alloc, id)?;
        self.nodes.push(node)?;
        Ok(())
    }
}
