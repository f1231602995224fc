// Arcs in the order of their ends, in which the least arc between two vertices is found without a search through all.
ghost use Rattle.std.specs.Prelude.{◌≡◌, ◌+◌, ◌<◌, ◌^◌, Contains, IfOk};
ghost use Rattle.std.specs.List.Sorted.{IsNonDecreasingBy};
ghost use Rattle.move_model.specs.declared.network.Arc.{Arc};
ghost use Rattle.move_model.specs.Streets.{HasLeastArc};
ghost use Rattle.journey_print.specs.Arcs.{ends_key, key_of, TellsLeastArcs};
ghost use Rattle.journey_print.specs.Legs.{least_seconds};

use crate::arcs::least_arc;
use move_model::{Arc, NoMemory, NodeNo};
use std::alloc::Global;
use std::marker::Model;

/// An index of least arcs by their ends, seen as a list of arcs.
#[derive(Debug, Drop)]
pub struct LeastArcs {
    by_ends: Vec<Arc>,
}

impl Model for LeastArcs {
    ghost use Rattle.std.specs.Prelude.{List};
    ghost use Rattle.std.specs.List.Sorted.{IsNonDecreasingBy};
    ghost use Rattle.move_model.specs.declared.network.Arc.{Arc};
    ghost use Rattle.journey_print.specs.Arcs.{key_of};

    ghost Value = { List Arc };

    ghost view = { λ index. index.by_ends.items };

    ghost invariant = { λ index. IsNonDecreasingBy key_of index.by_ends.items };
}

// Both ends as one number.
fn ends(from: NodeNo, to: NodeNo) -> u64
    ensures { result ≡ ends_key from to }
{
    u64::from(from.0) * 4_294_967_296 + u64::from(to.0)
}

// What arcs are ordered by.
fn key(arc: &Arc) -> u64
    ensures { result ≡ key_of arc.now }
{
    ends(arc.from, arc.to)
}

// The arcs with a key, in arcs that are ordered by it.
fn arcs_with(arcs: &[Arc], wanted: u64) -> &[Arc]
    requires { IsNonDecreasingBy key_of arcs.now }
    ensures some { (arc : Arc) → Contains result.now arc → Contains arcs.now arc }
    ensures all { (arc : Arc) → key_of arc ≡ wanted → Contains arcs.now arc → Contains result.now arc }
{
    let first = arcs.partition_point(|arc| key(arc) < wanted);
    let rest = &arcs[first..];
    let count = rest.partition_point(|arc| key(arc) <= wanted);
    &rest[..count]
}

impl LeastArcs {
    /// The index of these arcs.
    pub fn new(alloc: Global, arcs: &[Arc]) -> Result<LeastArcs, NoMemory>
        ensures { IfOk result (λ index. TellsLeastArcs index arcs.now) }
    {
        let mut by_ends = Vec::from_slice(alloc, arcs)?;
        by_ends.sort_unstable_by_key(key);
        Ok(LeastArcs { by_ends })
    }

    /// The seconds of the least arc from one vertex to another, or None where no arc has these ends.
    pub fn seconds(&self, from: NodeNo, to: NodeNo) -> Option<u32>
        ensures { HasLeastArc self.now from to result }
    {
        least_arc(arcs_with(&self.by_ends, ends(from, to)), from, to)
    }

    /// The second at which the least arc between two vertices ends, if 64 bits hold it.
    pub fn end(&self, from: NodeNo, to: NodeNo, begins: u64) -> u64
        ensures { begins + least_seconds self.now from to < 2 ^ 64 → result ≡ begins + least_seconds self.now from to }
    {
        let seconds = self.seconds(from, to).unwrap_or(0);
        begins.saturating_add(u64::from(seconds))
    }
}
