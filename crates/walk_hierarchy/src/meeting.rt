// The least sum of arcs up and arcs down between two vertices.
ghost use Rattle.std.specs.Prelude.{◌≡◌, ◌+◌, ◌-◌, ◌<◌, ◌≤◌, ◌⊎◌, ◌↔◌, ℕ, List, Option, None, length, replicate, [], IsTrue, IfSome};
ghost use Rattle.std.specs.Option.{option_map};
ghost use Rattle.move_model.specs.Streets.{Streets, HasDistance};
ghost use Rattle.walk_laws.specs.Sums.{HasLeast};
ghost use Rattle.walk_queue.specs.Keys.{IsEmpty};
ghost use Rattle.walk_hierarchy.specs.declared.labels.Label.{Label};
ghost use Rattle.walk_hierarchy.specs.declared.rows.Rows.{Rows};
ghost use Rattle.walk_hierarchy.specs.Labels.{HasLabel, AreSums};
ghost use Rattle.walk_hierarchy.specs.Hierarchy.{IsNode, IsHierarchy, HasArc, IsUpDownSum, GivesDistances};
ghost use Rattle.walk_hierarchy.specs.Search.{HasHalf, Climbs, work_left};
ghost use Rattle.walk_hierarchy.specs.Meeting.{IsArcBack, HasBest, IsBoth, IsBetter, bound_of};
ghost use Rattle.walk_hierarchy.specs.Places.{AreNames, by_vertex, meeting_name};

use crate::hierarchy::Hierarchy;
use crate::labels::Labels;
use crate::rows::Rows;
use crate::search::{begin, leave};
use crate::work::Work;
use move_model::NodeNo;
use std::sync::ledger::Ledger;
use steps::Steps;
use walk_queue::MinQueue;

// A vertex at which a search up and a search down meet, and the seconds of both together.
#[derive(Clone, Copy, Debug)]
pub(crate) struct Meeting {
    pub(crate) seconds: u64,
    pub(crate) node: NodeNo,
}

// The seconds that a better meeting has to be below.
#[inline]
fn bound(best: Option<Meeting>) -> u64
    ensures { result ≡ bound_of best }
{
    match best {
        Some(meeting) => meeting.seconds,
        None => u64::MAX,
    }
}

// The best so far, or at this vertex, which one search came to in so many seconds.
#[inline]
fn better(best: Option<Meeting>, others: &Labels, node: NodeNo, seconds: u64) -> Option<Meeting>
    requires exists { node.0 < length others.now }
    requires few { seconds ≤ 4000000000000000000 }
    requires others_few { (v : ℕ) (x : Label) → HasLabel others.now v x → x.seconds ≤ 4000000000000000000 }
    ensures { IsBetter others.now node.0 seconds best result }
{
    let Some(there) = others.get(node) else {
        return best;
    };
    let total = seconds + there.seconds;
    if bound(best) <= total {
        return best;
    }
    Some(Meeting {
        seconds: total,
        node,
    })
}

// Goes on along the arcs of the vertex that waits with the least seconds. Where those are no fewer than the best
// meeting's, no vertex needs to wait any longer, since seconds only grow along arcs.
fn step(
    rows: &Rows,
    labels: &mut Labels,
    queue: &mut MinQueue<u64>,
    others: &Labels,
    best: Option<Meeting>,
) -> Option<Meeting>
    requires climbs { Climbs rows.now (length labels.old) }
    requires same { length others.now ≡ length labels.old }
    requires both { (other : Rows) × ((from : ℕ) × ((to : ℕ) × ((waiting : List (Option ℕ)) ×
        IsBoth rows.now other from to best labels.old queue.old others.now waiting))) }
    requires others_few { (v : ℕ) (x : Label) → HasLabel others.now v x → x.seconds ≤ 4000000000000000000 }
    ensures both { (other : Rows) (from to : ℕ) (waiting : List (Option ℕ)) → IsBoth rows.now other from to best labels.old queue.old others.now waiting
        → IsBoth rows.now other from to result labels.new queue.new others.now waiting }
    ensures work { work_left labels.new queue.new ≤ work_left labels.old queue.old }
    ensures less { IsEmpty queue.old ⊎ (work_left labels.new queue.new < work_left labels.old queue.old) }
    ensures many { length labels.new ≡ length labels.old }
{
    let Some((at, seconds)) = queue.take_least() else {
        return best;
    };
    if bound(best) <= seconds {
        queue.clear();
        return best;
    }
    let best = better(best, others, NodeNo(at), seconds);
    leave(rows, NodeNo(at), seconds, labels, queue);
    best
}

fn none_wait(queue: &MinQueue<u64>, other: &MinQueue<u64>) -> bool
    ensures { IsTrue result ↔ (IsEmpty queue.now × IsEmpty other.now) }
{
    queue.is_empty() && other.is_empty()
}

// Searches along rows from one vertex and along others from another, by turns, and finds where they meet with the fewest
// seconds together.
fn meet_between(
    rows: &Rows,
    other: &Rows,
    from: NodeNo,
    to: NodeNo,
    labels: &mut Labels,
    queue: &mut MinQueue<u64>,
    others: &mut Labels,
    waiting: &mut MinQueue<u64>,
) -> Option<Meeting>
    requires climbs { Climbs rows.now (length labels.old) }
    requires other_climbs { Climbs other.now (length labels.old) }
    requires from { from.0 < length labels.old }
    requires to { to.0 < length labels.old }
    requires same { length others.old ≡ length labels.old }
    requires labels { labels.old ≡ replicate (length labels.old) None }
    requires queue { queue.old ≡ replicate (length labels.old) None }
    requires others { others.old ≡ replicate (length labels.old) None }
    requires waiting { waiting.old ≡ replicate (length labels.old) None }
    ensures labels { AreSums (HasHalf rows.now) from.0 labels.new }
    ensures others { AreSums (HasHalf other.now) to.0 others.new }
    ensures best { HasBest (HasHalf rows.now) (HasHalf other.now) from.0 to.0 labels.new others.new result }
    ensures queue { queue.new ≡ queue.old }
    ensures waiting { waiting.new ≡ waiting.old }
    ensures many { length labels.new ≡ length labels.old }
    ensures others_many { length others.new ≡ length labels.old }
{
    begin(from, labels, queue);
    begin(to, others, waiting);
    let mut best = None;
    'both: while !none_wait(queue, waiting) {
        best = step(rows, labels, queue, others, best);
        best = step(other, others, waiting, labels, best);
    }
    best
}

// The meeting with the vertex of its place.
fn with_name(meeting: Option<Meeting>, names: &[u32]) -> Option<Meeting>
    requires { IfSome meeting (λ m. m.node.0 < length names.now) }
    ensures { result ≡ option_map (meeting_name names.now) meeting }
{
    match meeting {
        Some(meeting) => Some(Meeting {
            seconds: meeting.seconds,
            node: NodeNo(names[meeting.node.0 as usize]),
        }),
        None => None,
    }
}

// Searches up from one vertex and down to the other, and finds where they meet. It leaves labels by place.
pub(crate) fn meet(
    hierarchy: &Hierarchy,
    names: &[u32],
    a: NodeNo,
    b: NodeNo,
    up: &mut Labels,
    up_queue: &mut MinQueue<u64>,
    down: &mut Labels,
    down_queue: &mut MinQueue<u64>,
) -> Option<Meeting>
    requires a { IsNode hierarchy.now a }
    requires b { IsNode hierarchy.now b }
    requires names { AreNames hierarchy.now.ranks names.now }
    requires places { length up_queue.old ≡ length hierarchy.now.ranks + 1 }
    requires up_none { up.old ≡ replicate (length up_queue.old) None }
    requires down_none { down.old ≡ replicate (length up_queue.old) None }
    requires none_waits { up_queue.old ≡ replicate (length up_queue.old) None }
    requires none_waits_back { down_queue.old ≡ replicate (length up_queue.old) None }
    ensures up { AreSums (HasArc hierarchy.now.up) a.0 (by_vertex hierarchy.now.ranks names.now up.new) }
    ensures down { AreSums (IsArcBack hierarchy.now.down) b.0 (by_vertex hierarchy.now.ranks names.now down.new) }
    ensures best { HasBest (HasArc hierarchy.now.up) (IsArcBack hierarchy.now.down) a.0 b.0
        (by_vertex hierarchy.now.ranks names.now up.new) (by_vertex hierarchy.now.ranks names.now down.new) result }
    ensures up_places { length up.new ≡ length up_queue.old }
    ensures down_places { length down.new ≡ length up_queue.old }
    ensures up_queue { up_queue.new ≡ up_queue.old }
    ensures down_queue { down_queue.new ≡ down_queue.old }
    ensures rules { IsHierarchy hierarchy.now }
{
    let ascents = hierarchy.ascents();
    let descents = hierarchy.descents();
    let from = hierarchy.place(a);
    let to = hierarchy.place(b);
    let best = meet_between(ascents, descents, from, to, up, up_queue, down, down_queue);
    with_name(best, names)
}

fn seconds_of(meeting: Option<Meeting>) -> Option<u64>
    ensures { result ≡ option_map (λ m. m.seconds) meeting }
{
    match meeting {
        Some(meeting) => Some(meeting.seconds),
        None => None,
    }
}

/// The least seconds of arcs up from one vertex and then arcs down to the other, or None where no such arcs lead there.
/// For a hierarchy that keeps the distances of its streets, this is the distance.
pub fn distance<L: Ledger>(
    hierarchy: &Hierarchy,
    a: NodeNo,
    b: NodeNo,
    work: &mut Work,
    searches: &mut Steps<L>,
) -> Option<u64>
    requires a_exists { IsNode hierarchy.now a }
    requires b_exists { IsNode hierarchy.now b }
    requires fits { work.old.nodes ≡ length hierarchy.now.ranks }
    ensures least { HasLeast (IsUpDownSum hierarchy.now a b) result }
    ensures distance { (graph : Streets) → GivesDistances graph hierarchy.now → HasDistance graph a b result }
    ensures work { work.new ≡ record { nodes = work.old.nodes; settled = [] } }
    ensures ticks { searches.new ≡ searches.old + 1 }
{
    searches.tick();
    let meeting = meet(
        hierarchy,
        hierarchy.names(),
        a,
        b,
        &mut work.up,
        &mut work.up_queue,
        &mut work.down,
        &mut work.down_queue,
    );
    work.up.clear();
    work.down.clear();
    work.settled.clear();
    seconds_of(meeting)
}
