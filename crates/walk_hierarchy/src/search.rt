// Least sums of seconds from one vertex, along rows that lead to greater ranks.
ghost use Rattle.std.specs.Prelude.{◌≡◌, ◌+◌, ◌≤◌, ◌<◌, ◌-◌, ◌^◌, ℕ, length, replicate, None};
ghost use Rattle.walk_queue.specs.Keys.{key_at};
ghost use Rattle.walk_hierarchy.specs.declared.labels.Label.{Label};
ghost use Rattle.walk_hierarchy.specs.Labels.{HasLabel};
ghost use Rattle.walk_hierarchy.specs.declared.rows.Rows.{Rows};
ghost use Rattle.walk_hierarchy.specs.Search.{Climbs, Waits, IsGoing, IsSearch, IsOnward, work_left, labels_with, queue_with, row_of};

use crate::labels::{Label, Labels};
use crate::rows::Rows;
use move_model::NodeNo;
use walk_queue::MinQueue;

// Writes a label that is less than the vertex has, and lets the vertex wait.
#[inline]
fn mark(labels: &mut Labels, queue: &mut MinQueue<u64>, at: NodeNo, label: Label)
    requires exists { at.0 < length labels.old }
    requires room { length queue.old ≡ length labels.old }
    requires short { label.seconds < 2 ^ 64 - 1 }
    requires waits { (s : ℕ) → Waits queue.old at.0 s → (x : Label) × (HasLabel labels.old at.0 x × (x.seconds ≡ s)) }
    ensures labels { labels.new ≡ labels_with labels.old at.0 label }
    ensures queue { queue.new ≡ queue_with labels.old queue.old at.0 label }
{
    if labels.lower(at, label) {
        queue.put_or_lower(at.0, label.seconds);
    }
}

// Goes along the arcs of a vertex that no longer waits.
#[inline]
pub(crate) fn leave(
    rows: &Rows,
    at: NodeNo,
    seconds: u64,
    labels: &mut Labels,
    queue: &mut MinQueue<u64>,
)
    requires climbs { Climbs rows.now (length labels.old) }
    requires going { (from : ℕ) × ((bound : ℕ) × IsGoing rows.now from bound at.0 seconds 0 labels.old queue.old) }
    ensures search { (from bound : ℕ) → IsGoing rows.now from bound at.0 seconds 0 labels.old queue.old → IsSearch rows.now from bound labels.new queue.new }
    ensures onward { IsOnward labels.old queue.old labels.new queue.new }
    ensures less { work_left labels.new queue.new ≤ work_left labels.old queue.old }
    ensures many { length labels.new ≡ length labels.old }
{
    for half in rows.row(at) {
        let label = Label {
            seconds: seconds + half.seconds,
            parent: at,
        };
        mark(labels, queue, half.to, label);
    }
}

// Lets the first vertex wait, with no seconds.
pub(crate) fn begin(from: NodeNo, labels: &mut Labels, queue: &mut MinQueue<u64>)
    requires from { from.0 < length labels.old }
    requires labels { labels.old ≡ replicate (length labels.old) None }
    requires queue { queue.old ≡ replicate (length labels.old) None }
    ensures search { (rows : Rows) (bound : ℕ) → IsSearch rows from.0 bound labels.new queue.new }
    ensures waits { (v : ℕ) (x : Label) → HasLabel labels.new v x → Waits queue.new v x.seconds }
    ensures many { length labels.new ≡ length labels.old }
{
    let start = Label {
        seconds: 0,
        parent: from,
    };
    mark(labels, queue, from, start);
}
