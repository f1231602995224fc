// Searches up and down.
ghost use Rattle.std.specs.Prelude.{◌≡◌, ◌+◌, length};
ghost use Rattle.walk_hierarchy.specs.Hierarchy.{IsNode, IsUpSum, IsDownSum, AreSettled};

use crate::hierarchy::Hierarchy;
use crate::sweep::sweep;
use crate::work::Work;
use move_model::NodeNo;
use std::sync::ledger::Ledger;
use steps::Steps;

/// Searches along arcs up from a vertex, and leaves in `work` each vertex to which they lead with the least sum of
/// seconds, for [`Work::settled`] to lend.
pub fn search_up<L: Ledger>(
    hierarchy: &Hierarchy,
    from: NodeNo,
    work: &mut Work,
    searches: &mut Steps<L>,
)
    requires exists { IsNode hierarchy.now from }
    requires fits { work.old.nodes ≡ length hierarchy.now.ranks }
    ensures settled { AreSettled (IsUpSum hierarchy.now from.0) work.new.settled }
    ensures nodes { work.new.nodes ≡ work.old.nodes }
    ensures ticks { searches.new ≡ searches.old + 1 }
{
    searches.tick();
    work.settled.clear();
    sweep(
        hierarchy.ascents(),
        hierarchy.place(from),
        &mut work.up,
        &mut work.sweep_queue,
    );
    work.up.list(hierarchy.names(), &mut work.settled);
    work.up.clear();
}

/// Searches along arcs down to a vertex, against their direction, and leaves in `work` each vertex from which they lead
/// there with the least sum of seconds, for [`Work::settled`] to lend.
pub fn search_down<L: Ledger>(
    hierarchy: &Hierarchy,
    to: NodeNo,
    work: &mut Work,
    searches: &mut Steps<L>,
)
    requires exists { IsNode hierarchy.now to }
    requires fits { work.old.nodes ≡ length hierarchy.now.ranks }
    ensures settled { AreSettled (λ v m. IsDownSum hierarchy.now v to.0 m) work.new.settled }
    ensures nodes { work.new.nodes ≡ work.old.nodes }
    ensures ticks { searches.new ≡ searches.old + 1 }
{
    searches.tick();
    work.settled.clear();
    sweep(
        hierarchy.descents(),
        hierarchy.place(to),
        &mut work.down,
        &mut work.sweep_queue,
    );
    work.down.list(hierarchy.names(), &mut work.settled);
    work.down.clear();
}
