// The search.
ghost use Rattle.std.specs.Prelude.{◌≡◌, ◌+◌, ◌<◌, ◌≤◌, ℕ, length, replicate, None, List, Option};
ghost use Rattle.core_search.specs.declared.label.Label.{Label};
ghost use Rattle.core_search.specs.Spread.{IsSpread, StandInCore, AreShort};
ghost use Rattle.core_search.specs.Waiting.{HasNone};
ghost use Rattle.core_search.specs.Settle.{IsSearch, IsLeaving, IsOffered};

use crate::label::{Label, later};
use crate::labels::Labels;
use crate::waiting::Waiting;
use move_model::NodeNo;
use walk_core::Core;

// Lets a label wait at a vertex that is not settled.
#[inline]
fn offer(labels: &Labels, waiting: &mut Waiting, to: NodeNo, label: Label)
    requires from_one { 1 ≤ to.0 }
    requires exists { to.0 < length labels.now }
    requires same { length waiting.old ≡ length labels.now }
    ensures { IsOffered labels.now waiting.old waiting.new to.0 label }
{
    if labels.get(to).is_none() {
        waiting.put(to, label);
    }
}

// Goes along the arcs of a vertex that is settled.
fn leave(core: &Core, at: NodeNo, label: Label, labels: &Labels, waiting: &mut Waiting)
    requires { (old : List (Option Label)) × IsLeaving core.now old labels.now waiting.old at.0 label 0 }
    ensures { (old : List (Option Label)) → IsLeaving core.now old labels.now waiting.old at.0 label 0
        → IsSearch core.now old labels.now waiting.new }
{
    let _ = core.nodes();
    for arc in core.out(at) {
        offer(labels, waiting, arc.to, later(label, arc.seconds));
    }
}

// Settles the labels that wait, one after another.
pub(crate) fn settle(core: &Core, labels: &mut Labels, waiting: &mut Waiting)
    requires none { HasNone labels.old }
    requires many { length labels.old ≡ core.now.nodes + 1 }
    requires many_wait { length waiting.old ≡ core.now.nodes + 1 }
    requires in_core { StandInCore core.now waiting.old }
    requires short { AreShort waiting.old }
    ensures spread { IsSpread core.now waiting.old labels.new }
    ensures many { length labels.new ≡ length labels.old }
    ensures waiting { HasNone waiting.new }
    ensures many_wait { length waiting.new ≡ length waiting.old }
{
    'vertices: while let Some((at, label)) = waiting.take() {
        labels.set(at, Some(label));
        leave(core, at, label, labels, waiting);
    }
}
