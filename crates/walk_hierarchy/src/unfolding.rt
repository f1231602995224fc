// Walks along the streets that the arcs of a hierarchy stand for.
ghost use Rattle.std.specs.Prelude.{◌≡◌, ◌≢◌, ◌+◌, ◌-◌, ◌<◌, ◌≤◌, ◌↔◌, ◌⊎◌, ℕ, [], ◌∷◌, length, Contains, All, OnOk, IfOk, IfSome, IsNone, Option};
ghost use Rattle.move_model.specs.Streets.{Streets};
ghost use Rattle.walk_laws.specs.Sums.{IsLeast};
ghost use Rattle.walk_hierarchy.specs.declared.labels.Label.{Label};
ghost use Rattle.walk_hierarchy.specs.Labels.{HasLabel, AreSums, HasLeastLabel};
ghost use Rattle.walk_hierarchy.specs.Hierarchy.{IsNode, HasArc, IsHierarchy, IsOver, IsUpDownSum, GivesDistances, IsWayOver, IsShortestWalk};
ghost use Rattle.walk_hierarchy.specs.Meeting.{IsArcBack, HasBest};
ghost use Rattle.walk_hierarchy.specs.Places.{AreNames, by_vertex};
ghost use Rattle.walk_hierarchy.specs.Unfolding.{IsArcOf, IsStack, IsUnfolding};

use crate::arcs::UpDown;
use crate::hierarchy::Hierarchy;
use crate::labels::{Label, Labels};
use crate::meeting::{Meeting, meet};
use crate::way::Way;
use crate::work::Work;
use move_model::{NoMemory, NodeNo, Walk};
use std::alloc::Global;
use std::sync::ledger::Ledger;
use steps::Steps;

/// A walk and its seconds.
#[derive(Debug, Drop)]
pub struct TimedWalk {
    pub walk: Walk,
    pub seconds: u64,
}

// The two arcs that an added arc stands for.
fn parts(hierarchy: &Hierarchy, arc: UpDown) -> (UpDown, UpDown)
    requires rules { IsHierarchy hierarchy.now }
    requires arc { IsArcOf hierarchy.now arc }
    requires added { arc.middle.0 ≢ 0 }
    ensures first { Contains hierarchy.now.down result.0 }
    ensures second { Contains hierarchy.now.up result.1 }
    ensures from { result.0.from ≡ arc.from }
    ensures first_to { result.0.to ≡ arc.middle }
    ensures second_from { result.1.from ≡ arc.middle }
    ensures to { result.1.to ≡ arc.to }
    ensures total { result.0.seconds + result.1.seconds ≡ arc.seconds }
{
    (
        hierarchy.arc_down(arc.from, arc.middle),
        hierarchy.arc_up(arc.middle, arc.to),
    )
}

// Goes on along the streets of the arcs of a stack, from the last arc to the first.
fn unfold(hierarchy: &Hierarchy, stack: &mut Vec<UpDown>, way: &mut Way) -> Result<(), NoMemory>
    requires rules { IsHierarchy hierarchy.now }
    requires arcs { All (IsArcOf hierarchy.now) stack.old.items }
    ensures walks { OnOk result ((graph : Streets) (a b : NodeNo) (total : ℕ) → IsOver graph hierarchy.now
        → IsUnfolding graph a b total stack.old.items way.old → IsUnfolding graph a b total [] way.new) }
    ensures empty { OnOk result (stack.new.items ≡ []) }
{
    'arcs: while let Some(arc) = stack.pop() {
        if arc.middle.0 == 0 {
            way.go_on(arc.to, arc.seconds)?;
        } else {
            let (first, second) = parts(hierarchy, arc);
            stack.push(second)?;
            stack.push(first)?;
        }
    }
    Ok(())
}

// The label of a vertex that has one, with the vertex from which it came.
fn label_at(hierarchy: &Hierarchy, names: &[u32], labels: &Labels, at: NodeNo) -> Label
    requires names { AreNames hierarchy.now.ranks names.now }
    requires label { (x : Label) × (HasLabel (by_vertex hierarchy.now.ranks names.now labels.now) at.0 x × (1 ≤ x.parent.0)) }
    ensures { HasLabel (by_vertex hierarchy.now.ranks names.now labels.now) at.0 result }
{
    let label = labels.label(hierarchy.place(at));
    Label {
        seconds: label.seconds,
        parent: NodeNo(names[label.parent.0 as usize]),
    }
}

// Stacks the arcs up that lead to a vertex, the first of them last.
fn climb(
    hierarchy: &Hierarchy,
    from: NodeNo,
    top: NodeNo,
    names: &[u32],
    labels: &Labels,
    stack: &mut Vec<UpDown>,
) -> Result<(), NoMemory>
    requires rules { IsHierarchy hierarchy.now }
    requires names { AreNames hierarchy.now.ranks names.now }
    requires labels { AreSums (HasArc hierarchy.now.up) from.0 (by_vertex hierarchy.now.ranks names.now labels.now) }
    requires top { HasLeastLabel (HasArc hierarchy.now.up) from.0 (by_vertex hierarchy.now.ranks names.now labels.now) top.0 }
    requires empty { stack.old.items ≡ [] }
    ensures arcs { OnOk result (All (IsArcOf hierarchy.now) stack.new.items) }
    ensures stacked { OnOk result ((x : Label) → HasLabel (by_vertex hierarchy.now.ranks names.now labels.now) top.0 x → IsStack stack.new.items from top x.seconds) }
{
    let mut at = top;
    'back: while at.0 != from.0 {
        let parent = label_at(hierarchy, names, labels, at).parent;
        stack.push(hierarchy.arc_up(parent, at))?;
        at = parent;
    }
    Ok(())
}

// Goes on along the streets of the arcs down that lead from a vertex.
fn fall(
    hierarchy: &Hierarchy,
    top: NodeNo,
    to: NodeNo,
    names: &[u32],
    labels: &Labels,
    stack: &mut Vec<UpDown>,
    way: &mut Way,
) -> Result<(), NoMemory>
    requires rules { IsHierarchy hierarchy.now }
    requires names { AreNames hierarchy.now.ranks names.now }
    requires labels { AreSums (IsArcBack hierarchy.now.down) to.0 (by_vertex hierarchy.now.ranks names.now labels.now) }
    requires top { HasLeastLabel (IsArcBack hierarchy.now.down) to.0 (by_vertex hierarchy.now.ranks names.now labels.now) top.0 }
    requires empty { stack.old.items ≡ [] }
    ensures walks { OnOk result ((graph : Streets) (a : NodeNo) (m : ℕ) (x : Label) → IsOver graph hierarchy.now → HasLabel (by_vertex hierarchy.now.ranks names.now labels.now) top.0 x
        → IsUnfolding graph a top m [] way.old → IsUnfolding graph a to (m + x.seconds) [] way.new) }
{
    let mut at = top;
    'on: while at.0 != to.0 {
        let parent = label_at(hierarchy, names, labels, at).parent;
        stack.push(hierarchy.arc_down(at, parent))?;
        unfold(hierarchy, stack, way)?;
        at = parent;
    }
    Ok(())
}

// The walk by way of a vertex at which both searches met.
fn walk_by(
    alloc: Global,
    hierarchy: &Hierarchy,
    a: NodeNo,
    b: NodeNo,
    top: NodeNo,
    names: &[u32],
    up: &Labels,
    down: &Labels,
) -> Result<Way, NoMemory>
    requires rules { IsHierarchy hierarchy.now }
    requires names { AreNames hierarchy.now.ranks names.now }
    requires a { IsNode hierarchy.now a }
    requires up { AreSums (HasArc hierarchy.now.up) a.0 (by_vertex hierarchy.now.ranks names.now up.now) }
    requires down { AreSums (IsArcBack hierarchy.now.down) b.0 (by_vertex hierarchy.now.ranks names.now down.now) }
    requires there { HasLeastLabel (HasArc hierarchy.now.up) a.0 (by_vertex hierarchy.now.ranks names.now up.now) top.0 }
    requires back { HasLeastLabel (IsArcBack hierarchy.now.down) b.0 (by_vertex hierarchy.now.ranks names.now down.now) top.0 }
    ensures { IfOk result (λ way. (graph : Streets) (x y : Label) → IsOver graph hierarchy.now → HasLabel (by_vertex hierarchy.now.ranks names.now up.now) top.0 x → HasLabel (by_vertex hierarchy.now.ranks names.now down.now) top.0 y
        → IsUnfolding graph a b (x.seconds + y.seconds) [] way) }
{
    let mut way = Way::new(alloc, a)?;
    let mut stack = Vec::new(alloc);
    climb(hierarchy, a, top, names, up, &mut stack)?;
    unfold(hierarchy, &mut stack, &mut way)?;
    fall(hierarchy, top, b, names, down, &mut stack, &mut way)?;
    Ok(way)
}

// The walk by way of the vertex where the searches met, if they did.
fn walk_of(
    alloc: Global,
    hierarchy: &Hierarchy,
    a: NodeNo,
    b: NodeNo,
    meeting: Option<Meeting>,
    names: &[u32],
    up: &Labels,
    down: &Labels,
) -> Result<Option<TimedWalk>, NoMemory>
    requires rules { IsHierarchy hierarchy.now }
    requires names { AreNames hierarchy.now.ranks names.now }
    requires a { IsNode hierarchy.now a }
    requires b { IsNode hierarchy.now b }
    requires up { AreSums (HasArc hierarchy.now.up) a.0 (by_vertex hierarchy.now.ranks names.now up.now) }
    requires down { AreSums (IsArcBack hierarchy.now.down) b.0 (by_vertex hierarchy.now.ranks names.now down.now) }
    requires best { HasBest (HasArc hierarchy.now.up) (IsArcBack hierarchy.now.down) a.0 b.0 (by_vertex hierarchy.now.ranks names.now up.now) (by_vertex hierarchy.now.ranks names.now down.now) meeting }
    ensures none { IfOk result (λ found. IsNone found ↔ ((m : ℕ) → IsUpDownSum hierarchy.now a b m → ⊥)) }
    ensures seconds { IfOk result (λ found. IfSome found (λ timed. IsLeast (IsUpDownSum hierarchy.now a b) timed.seconds)) }
    ensures walks { IfOk result (λ found. IfSome found (λ timed. (graph : Streets) → IsOver graph hierarchy.now → IsWayOver graph hierarchy.now a b timed.walk)) }
    ensures shortest { IfOk result (λ found. IfSome found (λ timed. (graph : Streets) → IsOver graph hierarchy.now → GivesDistances graph hierarchy.now → IsShortestWalk graph a b timed.walk)) }
{
    let Some(meeting) = meeting else {
        return Ok(None);
    };
    let way = walk_by(alloc, hierarchy, a, b, meeting.node, names, up, down)?;
    Ok(Some(TimedWalk {
        walk: way.into_walk(),
        seconds: meeting.seconds,
    }))
}

/// A walk along streets that has the least seconds of arcs up from one vertex and then arcs down to the other, with these
/// seconds, or None where no such arcs lead there. It comes to no vertex twice at one second. For a hierarchy that keeps the
/// distances of its streets, it has the seconds of the distance, and comes to no vertex twice.
pub fn timed_path<L: Ledger>(
    alloc: Global,
    hierarchy: &Hierarchy,
    a: NodeNo,
    b: NodeNo,
    work: &mut Work,
    searches: &mut Steps<L>,
) -> Result<Option<TimedWalk>, NoMemory>
    requires a_exists { IsNode hierarchy.now a }
    requires b_exists { IsNode hierarchy.now b }
    requires fits { work.old.nodes ≡ length hierarchy.now.ranks }
    ensures none { IfOk result (λ found. IsNone found ↔ ((m : ℕ) → IsUpDownSum hierarchy.now a b m → ⊥)) }
    ensures seconds { IfOk result (λ found. IfSome found (λ timed. IsLeast (IsUpDownSum hierarchy.now a b) timed.seconds)) }
    ensures walks { IfOk result (λ found. IfSome found (λ timed. (graph : Streets) → IsOver graph hierarchy.now → IsWayOver graph hierarchy.now a b timed.walk)) }
    ensures shortest { IfOk result (λ found. IfSome found (λ timed. (graph : Streets) → IsOver graph hierarchy.now → GivesDistances graph hierarchy.now → IsShortestWalk graph a b timed.walk)) }
    ensures work { work.new ≡ record { nodes = work.old.nodes; settled = [] } }
    ensures ticks { searches.new ≡ searches.old + 1 }
{
    searches.tick();
    let names = hierarchy.names();
    let meeting = meet(
        hierarchy,
        names,
        a,
        b,
        &mut work.up,
        &mut work.up_queue,
        &mut work.down,
        &mut work.down_queue,
    );
    let found = walk_of(alloc, hierarchy, a, b, meeting, names, &work.up, &work.down);
    work.up.clear();
    work.down.clear();
    work.settled.clear();
    found
}

/// A walk along streets that has the least seconds of arcs up from one vertex and then arcs down to the other, or None
/// where no such arcs lead there. It comes to no vertex twice at one second. For a hierarchy that keeps the distances of its
/// streets, it has the seconds of the distance, and comes to no vertex twice.
pub fn path<L: Ledger>(
    alloc: Global,
    hierarchy: &Hierarchy,
    a: NodeNo,
    b: NodeNo,
    work: &mut Work,
    searches: &mut Steps<L>,
) -> Result<Option<Walk>, NoMemory>
    requires a_exists { IsNode hierarchy.now a }
    requires b_exists { IsNode hierarchy.now b }
    requires fits { work.old.nodes ≡ length hierarchy.now.ranks }
    ensures none { IfOk result (λ walk. IsNone walk ↔ ((m : ℕ) → IsUpDownSum hierarchy.now a b m → ⊥)) }
    ensures walks { IfOk result (λ found. IfSome found (λ walk. (graph : Streets) → IsOver graph hierarchy.now → IsWayOver graph hierarchy.now a b walk)) }
    ensures shortest { IfOk result (λ found. IfSome found (λ walk. (graph : Streets) → IsOver graph hierarchy.now → GivesDistances graph hierarchy.now → IsShortestWalk graph a b walk)) }
    ensures work { work.new ≡ record { nodes = work.old.nodes; settled = [] } }
    ensures ticks { searches.new ≡ searches.old + 1 }
{
    match timed_path(alloc, hierarchy, a, b, work, searches)? {
        Some(timed) => Ok(Some(timed.walk)),
        None => Ok(None),
    }
}
