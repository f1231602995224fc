// The scratch memory of searches.
ghost use Rattle.std.specs.Prelude.{◌≡◌, length, [], IfOk};

use crate::hierarchy::Hierarchy;
use crate::labels::Labels;
use crate::settled::Settled;
use move_model::NoMemory;
use std::alloc::Global;
use std::marker::Model;
use walk_queue::MinQueue;

/// What the searches of a hierarchy write. One is made once, and lent to each search.
#[derive(Drop)]
pub struct Work {
    pub(crate) up: Labels,
    pub(crate) down: Labels,
    pub(crate) up_queue: MinQueue<u64>,
    pub(crate) down_queue: MinQueue<u64>,
    pub(crate) sweep_queue: MinQueue<()>,
    pub(crate) settled: Vec<Settled>,
}

impl Model for Work {
    ghost use Rattle.std.specs.Prelude.{◌-◌, length, vec_capacity};
    ghost use Rattle.walk_hierarchy.specs.Working.{Working};
    ghost use Rattle.walk_hierarchy.specs.Idle.{IsIdle};

    ghost Value = { Working };

    ghost view = { λ work. record { nodes = length work.up_queue - 1; settled = work.settled.items } };

    ghost invariant = { λ work. IsIdle work.up work.down work.up_queue work.down_queue work.sweep_queue (vec_capacity work.settled) };
}

impl Work {
    /// The memory of all later searches of hierarchies with as many vertices.
    pub fn new(alloc: Global, hierarchy: &Hierarchy) -> Result<Work, NoMemory>
        ensures { IfOk result (λ work. work ≡ record { nodes = length hierarchy.now.ranks; settled = [] }) }
    {
        let places = hierarchy.nodes() + 1;
        Ok(Work {
            up: Labels::new(alloc, places)?,
            down: Labels::new(alloc, places)?,
            up_queue: MinQueue::new(alloc, places)?,
            down_queue: MinQueue::new(alloc, places)?,
            sweep_queue: MinQueue::new(alloc, places)?,
            settled: Vec::with_capacity(alloc, places as usize)?,
        })
    }

    /// What the last search up or down left: the vertices to which it came, each once, with their least seconds.
    pub fn settled(&self) -> &[Settled]
        ensures { result.now ≡ self.now.settled }
    {
        self.settled.as_slice()
    }
}
