// Least sums of seconds from one place, along rows that lead to greater places. The waiting places are taken in their
// order, so a label is final when its place is taken, and each place waits once.
ghost use Rattle.std.specs.Prelude.{◌≡◌, ◌+◌, ◌≤◌, ◌<◌, ◌-◌, ◌^◌, ℕ, length, replicate, None};
ghost use Rattle.walk_hierarchy.specs.declared.labels.Label.{Label};
ghost use Rattle.walk_hierarchy.specs.declared.rows.Rows.{Rows};
ghost use Rattle.walk_hierarchy.specs.Labels.{IsLeastFrom};
ghost use Rattle.walk_hierarchy.specs.Search.{HasHalf, Climbs, work_left, labels_with};
ghost use Rattle.walk_hierarchy.specs.Sweep.{IsSweep, IsSweeping, waiting_with};

use crate::labels::{Label, Labels};
use crate::rows::Rows;
use move_model::NodeNo;
use walk_queue::MinQueue;

// Writes a label that is less than the place has, and lets the place wait.
#[inline]
fn mark(labels: &mut Labels, waiting: &mut MinQueue<()>, at: NodeNo, label: Label)
    requires exists { at.0 < length labels.old }
    requires room { length waiting.old ≡ length labels.old }
    requires short { label.seconds < 2 ^ 64 - 1 }
    ensures labels { labels.new ≡ labels_with labels.old at.0 label }
    ensures waiting { waiting.new ≡ waiting_with labels.old waiting.old at.0 label }
{
    if labels.lower(at, label) {
        waiting.put_or_lower(at.0, ());
    }
}

// Goes along the arcs of a place that no longer waits.
#[inline]
fn leave(rows: &Rows, at: NodeNo, seconds: u64, labels: &mut Labels, waiting: &mut MinQueue<()>)
    requires climbs { Climbs rows.now (length labels.old) }
    requires sweeping { (from : ℕ) × IsSweeping rows.now from at.0 seconds 0 labels.old waiting.old }
    ensures sweep { (from : ℕ) → IsSweeping rows.now from at.0 seconds 0 labels.old waiting.old → IsSweep rows.now from labels.new waiting.new }
    ensures less { work_left labels.new waiting.new ≤ work_left labels.old waiting.old }
    ensures many { length labels.new ≡ length labels.old }
{
    for half in rows.row(at) {
        let label = Label {
            seconds: seconds + half.seconds,
            parent: at,
        };
        mark(labels, waiting, half.to, label);
    }
}

// Labels each place to which the rows lead with its least seconds.
pub(crate) fn sweep(rows: &Rows, from: NodeNo, labels: &mut Labels, waiting: &mut MinQueue<()>)
    requires climbs { Climbs rows.now (length labels.old) }
    requires from { from.0 < length labels.old }
    requires labels { labels.old ≡ replicate (length labels.old) None }
    requires waiting { waiting.old ≡ replicate (length labels.old) None }
    ensures least { IsLeastFrom (HasHalf rows.now) from.0 labels.new }
    ensures waiting { waiting.new ≡ waiting.old }
    ensures many { length labels.new ≡ length labels.old }
{
    let start = Label {
        seconds: 0,
        parent: from,
    };
    mark(labels, waiting, from, start);
    'places: while let Some((at, _)) = waiting.take_least() {
        let seconds = labels.label(NodeNo(at)).seconds;
        leave(rows, NodeNo(at), seconds, labels, waiting);
    }
}
