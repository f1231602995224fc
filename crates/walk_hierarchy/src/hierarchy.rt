// Hierarchies.
ghost use Rattle.std.specs.Prelude.{◌≡◌, ◌-◌, ◌<◌, ◌^◌, ℕ, length, Contains, IfOk};
ghost use Rattle.move_model.specs.Network.{streets};
ghost use Rattle.walk_hierarchy.specs.Hierarchy.{IsNode, HasArc, IsHierarchy, IsOver};
ghost use Rattle.walk_hierarchy.specs.Places.{place_of, AreNames};
ghost use Rattle.walk_hierarchy.specs.Stored.{AreAscents, AreDescents};

use crate::arcs::{Ranks, UpDown, UpDowns};
use crate::places::{names, place, placed};
use crate::rows::{Rows, Side, find};
use move_model::{Network, NoMemory, NodeNo};
use std::alloc::Global;
use std::marker::Model;

/// The vertices of a street graph by rank, with arcs up and arcs down.
#[derive(Debug, Drop)]
pub struct Hierarchy {
    ranks: Ranks,
    up: UpDowns,
    down: UpDowns,
    // The arcs up by where they begin, and the arcs down by where they end, both by places.
    ascents: Rows,
    descents: Rows,
    // The vertices by place.
    names: Vec<u32>,
}

impl Model for Hierarchy {
    ghost use Rattle.walk_hierarchy.specs.Hierarchy.{Parts};
    ghost use Rattle.walk_hierarchy.specs.Stored.{IsStored};

    ghost Value = { Parts };

    ghost view = { λ hierarchy. record { ranks = hierarchy.ranks; up = hierarchy.up; down = hierarchy.down } };

    ghost invariant = { λ hierarchy. IsStored (record { ranks = hierarchy.ranks; up = hierarchy.up; down = hierarchy.down }) hierarchy.ascents hierarchy.descents hierarchy.names.items };
}

impl Hierarchy {
    /// The hierarchy of these ranks and arcs, whatever streets they stand for.
    pub fn of(
        alloc: Global,
        ranks: Ranks,
        up: UpDowns,
        down: UpDowns,
    ) -> Result<Hierarchy, NoMemory>
        requires rules { IsHierarchy (record { ranks = ranks; up = up; down = down }) }
        requires few_up { length up < 2 ^ 32 - 1 }
        requires few_down { length down < 2 ^ 32 - 1 }
        ensures { IfOk result (λ hierarchy. hierarchy ≡ record { ranks = ranks; up = up; down = down }) }
    {
        let nodes = ranks.len() as u32;
        let names = names(alloc, ranks.as_slice())?;
        let placed_up = placed(alloc, ranks.as_slice(), up.as_slice())?;
        let ascents = Rows::new(alloc, nodes, placed_up.as_slice(), Side::Out)?;
        let placed_down = placed(alloc, ranks.as_slice(), down.as_slice())?;
        let descents = Rows::new(alloc, nodes, placed_down.as_slice(), Side::Into)?;
        Ok(Hierarchy {
            ranks,
            up,
            down,
            ascents,
            descents,
            names,
        })
    }

    /// The number of vertices.
    pub fn nodes(&self) -> u32
        ensures value { result ≡ length self.now.ranks }
        ensures rules { IsHierarchy self.now }
    {
        self.ranks.len() as u32
    }

    /// The ranks of the vertices, from vertex 1.
    pub fn ranks(&self) -> &[u32]
        ensures value { result.now ≡ self.now.ranks }
        ensures rules { IsHierarchy self.now }
    {
        self.ranks.as_slice()
    }

    /// The arcs to greater ranks, by the vertex where they begin and then by that at their end.
    pub fn up_arcs(&self) -> &[UpDown]
        ensures value { result.now ≡ self.now.up }
        ensures rules { IsHierarchy self.now }
    {
        self.up.as_slice()
    }

    /// The arcs to lesser ranks, by the vertex where they begin and then by that at their end.
    pub fn down_arcs(&self) -> &[UpDown]
        ensures value { result.now ≡ self.now.down }
        ensures rules { IsHierarchy self.now }
    {
        self.down.as_slice()
    }

    // The arcs up by the place where they begin.
    pub(crate) fn ascents(&self) -> &Rows
        ensures rows { AreAscents self.now result.now }
        ensures rules { IsHierarchy self.now }
    {
        &self.ascents
    }

    // The arcs down by the place where they end.
    pub(crate) fn descents(&self) -> &Rows
        ensures rows { AreDescents self.now result.now }
        ensures rules { IsHierarchy self.now }
    {
        &self.descents
    }

    // The vertices by place.
    pub(crate) fn names(&self) -> &[u32]
        ensures { AreNames self.now.ranks result.now }
    {
        self.names.as_slice()
    }

    // The place of a vertex.
    pub(crate) fn place(&self, v: NodeNo) -> NodeNo
        requires { IsNode self.now v }
        ensures { result ≡ record { 0 = place_of self.now.ranks v.0 } }
    {
        place(self.ranks.as_slice(), v)
    }

    // The arc up between two vertices.
    pub(crate) fn arc_up(&self, from: NodeNo, to: NodeNo) -> UpDown
        requires { (l : ℕ) × HasArc self.now.up from.0 to.0 l }
        ensures stands { Contains self.now.up result }
        ensures from { result.from ≡ from }
        ensures to { result.to ≡ to }
    {
        let half = find(self.ascents.row(self.place(from)), self.place(to));
        UpDown {
            from,
            to,
            seconds: half.seconds,
            middle: half.middle,
        }
    }

    // The arc down between two vertices.
    pub(crate) fn arc_down(&self, from: NodeNo, to: NodeNo) -> UpDown
        requires { (l : ℕ) × HasArc self.now.down from.0 to.0 l }
        ensures stands { Contains self.now.down result }
        ensures from { result.from ≡ from }
        ensures to { result.to ≡ to }
    {
        let half = find(self.descents.row(self.place(to)), self.place(from));
        UpDown {
            from,
            to,
            seconds: half.seconds,
            middle: half.middle,
        }
    }
}

/// The hierarchy of these ranks and arcs, for the streets of the network: the ranks are those of its vertices, and an
/// arc that isn't added has the seconds of the least street between its ends.
pub fn from_parts(
    alloc: Global,
    network: &Network,
    ranks: Ranks,
    up: UpDowns,
    down: UpDowns,
) -> Result<Hierarchy, NoMemory>
    requires rules { IsHierarchy (record { ranks = ranks; up = up; down = down }) }
    requires streets { IsOver (streets network.now) (record { ranks = ranks; up = up; down = down }) }
    requires few_up { length up < 2 ^ 32 - 1 }
    requires few_down { length down < 2 ^ 32 - 1 }
    ensures { IfOk result (λ hierarchy. hierarchy ≡ record { ranks = ranks; up = up; down = down }) }
{
    let _ = network;
    Hierarchy::of(alloc, ranks, up, down)
}
