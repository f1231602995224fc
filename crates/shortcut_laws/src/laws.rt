// Laws over the definitions, each the contract of a function that does nothing.
ghost use Rattle.std.specs.Prelude.{◌<◌, ◌≤◌, ℕ, List, map, length};
ghost use Rattle.move_model.specs.declared.network.Network.{Network};
ghost use Rattle.move_model.specs.declared.network.StopNo.{StopNo};
ghost use Rattle.move_model.specs.Check.{KeepsRules};
ghost use Rattle.move_model.specs.Network.{IsNetwork, IsStopDistance};
ghost use Rattle.move_model.specs.Shortcut.{IsShortcutList};
ghost use Rattle.shortcut_laws.specs.Pairs.{Pair, IsPairNeeded, AreNeededPairs, ArePairsRising, shortcut_of};

/// The walks of exactly the needed pairs, in rising order and each with the distance of its stops, are the list of
/// shortcuts. The stops of a needed pair are stops of the network, and no needed walk is longer than the last second of a
/// day.
pub fn listed_pairs()
    ensures list { (n : Network) (seconds : StopNo → StopNo → ℕ) (pairs : List Pair) → ArePairsRising pairs → AreNeededPairs n pairs
        → ((x y : StopNo) → IsPairNeeded n x y → IsStopDistance n x y (seconds x y))
        → IsShortcutList n (map (shortcut_of seconds) pairs) }
    ensures stops { (n : Network) (x y : StopNo) → IsNetwork n → IsPairNeeded n x y
        → (x.0 < length n.stops) × (y.0 < length n.stops) }
    ensures within_day { (n : Network) (x y : StopNo) → KeepsRules n → IsPairNeeded n x y
        → (m : ℕ) × (m ≤ 3599999) × IsStopDistance n x y m }
{}
