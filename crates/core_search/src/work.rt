// The public call.
ghost use Rattle.std.specs.Prelude.{◌≡◌, ◌+◌, ◌≤◌, length, IfOk};
ghost use Rattle.move_model.specs.Streets.{Streets};
ghost use Rattle.walk_core.specs.Core.{IsContraction};
ghost use Rattle.core_search.specs.Spread.{StandInCore, AreShort, IsSpread, IsSpreadOver};

use crate::labels::Labels;
use crate::settle::settle;
use crate::waiting::Waiting;
use move_model::NoMemory;
use std::alloc::Global;
use std::marker::Model;
use walk_core::Core;

/// The memory of a search. Contracts see for how many vertices it was made. Nothing waits in it between two searches.
#[derive(Drop)]
pub struct SpreadWork {
    nodes: u32,
    waiting: Waiting,
}

impl Model for SpreadWork {
    ghost use Rattle.std.specs.Prelude.{◌≡◌, ℕ, ◌+◌, length};
    ghost use Rattle.core_search.specs.Waiting.{HasNone};

    ghost Value = { ℕ };

    ghost view = { λ work. work.nodes };

    ghost invariant = { λ work. (length work.waiting ≡ work.nodes + 1) × HasNone work.waiting };
}

impl SpreadWork {
    /// The memory of all searches over so many vertices.
    pub fn new(alloc: Global, nodes: u32) -> Result<SpreadWork, NoMemory>
        ensures { IfOk result (λ work. work ≡ nodes) }
    {
        let waiting = Waiting::new(alloc, nodes)?;
        Ok(SpreadWork { nodes, waiting })
    }
}

/// Leaves at each vertex of the core the least label that comes to it, or None where none comes: the labels that stood at
/// vertices come to each vertex with the seconds of walks over the core added, which for the core of a graph are its
/// distances. Takes no memory.
pub fn spread(core: &Core, labels: &mut Labels, work: &mut SpreadWork)
    requires fits { length labels.old ≡ core.now.nodes + 1 }
    requires work_fits { work.old ≡ core.now.nodes }
    requires in_core { StandInCore core.now labels.old }
    requires short { AreShort labels.old }
    ensures over_core { IsSpread core.now labels.old labels.new }
    ensures over_graph { (graph : Streets) → IsContraction graph core.now → IsSpreadOver graph core.now labels.old labels.new }
    ensures many { length labels.new ≡ length labels.old }
    ensures work { work.new ≡ work.old }
{
    labels.move_to(&mut work.waiting);
    settle(core, labels, &mut work.waiting);
}
