//! What a contraction keeps, over definitions alone.
#![tactic(auto)]

ghost use Rattle.std.specs.Prelude.{ℕ, Option, ◌↔◌};
ghost use Rattle.walk_laws.specs.Sums.{IsContracted, Keeps, View, IsComplete, HasLeast, UpDown, Mixed, IsShort};
ghost use Rattle.move_model.specs.Streets.{Streets, IsStreets, IsVertex, HasDistance};
ghost use Rattle.move_model.specs.declared.network.NodeNo.{NodeNo};

use move_model::NodeNo;

/// An arc out of a vertex or into it. The middle is 0 for a street.
#[derive(Clone, Copy, Debug, PartialEq, Eq)]
pub struct CoreArc {
    pub seconds: u64,
    pub to: NodeNo,
    pub middle: NodeNo,
}

/// A vertex contracted in the right way keeps every distance.
pub fn one_contracted()
    ensures { (graph : Streets) (old new : View) (m : ℕ) → Keeps graph old → IsContracted graph old new m → Keeps graph new }
{}

/// The least sum of arcs up, over what is left and down is the distance.
pub fn partial_distance()
    ensures { (graph : Streets) (w : View) (a b : NodeNo) (r : Option ℕ) → IsStreets graph → IsShort graph → IsVertex graph a → Keeps graph w
        → HasLeast (Mixed w a.0 b.0) r ↔ HasDistance graph a b r }
{}

/// Where every vertex is contracted, the least sum of arcs up and down is the distance.
pub fn full_distance()
    ensures { (graph : Streets) (w : View) (a b : NodeNo) (r : Option ℕ) → IsStreets graph → IsShort graph → IsVertex graph a → Keeps graph w → IsComplete w
        → HasLeast (UpDown w a.0 b.0) r ↔ HasDistance graph a b r }
{}
