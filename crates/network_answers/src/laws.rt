// Laws over the definitions, each the contract of a function that does nothing.
ghost use Rattle.std.specs.Prelude.{ℕ, List};
ghost use Rattle.move_model.specs.declared.network.NodeNo.{NodeNo};
ghost use Rattle.move_model.specs.declared.journey.Pair.{Pair};
ghost use Rattle.move_model.specs.Streets.{IsVertex};
ghost use Rattle.move_model.specs.Network.{streets};
ghost use Rattle.move_model.specs.Journey.{IsParetoList};
ghost use Rattle.network_file.specs.declared.compiled.Compiled.{Compiled};
ghost use Rattle.network_file.specs.Compiled.{IsRight};
ghost use Rattle.network_answers.specs.Point.{AreListedPairs};

/// The listed pairs of a right value are the Pareto set over all journeys of its network. So beside three searches a point
/// query makes at most one for each walk of the journeys that it gives.
pub fn exact_pairs()
    ensures { (c : Compiled) (s : NodeNo) (d : ℕ) (t : NodeNo) (limit : ℕ) (pairs : List Pair) → IsRight c
        → IsVertex (streets c.network) s → IsVertex (streets c.network) t
        → AreListedPairs c s d t limit pairs → IsParetoList c.network s d t limit pairs }
{}
