// Walks that grow, and come to no vertex twice at one second.
ghost use Rattle.std.specs.Prelude.{◌≡◌, ◌≢◌, ◌+◌, ◌<◌, ◌≤◌, ℕ, [], ◌∷◌, length, slice_index_or, OnOk, IfOk, IfSome, IsNone};
ghost use Rattle.move_model.specs.declared.network.NodeNo.{NodeNo as Node};
ghost use Rattle.move_model.specs.Streets.{Streets, IsVertex, IsLeastArc};
ghost use Rattle.walk_hierarchy.specs.Way.{IsWay};

use move_model::{NoMemory, NodeNo, Walk};
use std::alloc::Global;

/// A walk so far.
#[derive(Drop)]
pub struct Way {
    pub places: Vec<NodeNo>,
    // The first place that was reached at the second of the last.
    pub since: usize,
}

// The first place from a place on at which a vertex stands.
fn place_from(places: &[NodeNo], since: usize, node: NodeNo) -> Option<usize>
    ensures some { IfSome result (λ at. (since ≤ at) × (at < length places.now) × (slice_index_or places.now at node ≡ node)) }
    ensures none { IsNone result → (k : ℕ) → since ≤ k → k < length places.now → slice_index_or places.now k node ≢ node }
{
    let mut at = since;
    'places: while at < places.len() {
        if places[at].0 == node.0 {
            return Some(at);
        }
        at += 1;
    }
    None
}

impl Way {
    // A walk that stays at a vertex.
    pub fn new(alloc: Global, node: NodeNo) -> Result<Way, NoMemory>
        ensures places { IfOk result (λ way. way.places.items ≡ node ∷ []) }
        ensures since { IfOk result (λ way. way.since ≡ 0) }
    {
        let mut places = Vec::new(alloc);
        places.push(node)?;
        Ok(Way { places, since: 0 })
    }

    // Goes on along a street. Where that leads back in 0 seconds to a vertex that the walk came to, the circle is cut.
    pub fn go_on(&mut self, node: NodeNo, seconds: u64) -> Result<(), NoMemory>
        ensures { OnOk result ((graph : Streets) (a b : Node) (total : ℕ) → IsVertex graph node → b ≢ node → IsLeastArc graph.arcs b node seconds
            → IsWay graph a b total self.old.places.items self.old.since → IsWay graph a node (total + seconds) self.new.places.items self.new.since) }
    {
        if seconds > 0 {
            self.since = self.places.len();
            self.places.push(node)?;
            return Ok(());
        }
        match place_from(&self.places, self.since, node) {
            Some(at) => self.places.truncate(at + 1),
            None => self.places.push(node)?,
        }
        Ok(())
    }

    // The whole walk.
    pub fn into_walk(self) -> Walk
        ensures { result ≡ self.places.items }
    {
        Walk::from_vec(self.places)
    }
}
