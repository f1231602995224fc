// Laws over the definitions, each the contract of a function that does nothing.
ghost use Rattle.std.specs.Prelude.{◌≡◌, ◌<◌, ◌≤◌, ◌+◌, ◌*◌, ◌↔◌, ℕ, List, Option, All};
ghost use Rattle.move_model.specs.declared.network.Network.{Network};
ghost use Rattle.move_model.specs.declared.network.NodeNo.{NodeNo};
ghost use Rattle.move_model.specs.declared.journey.Pair.{Pair};
ghost use Rattle.move_model.specs.declared.journey.Profile.{Profile};
ghost use Rattle.move_model.specs.declared.journey.Shortcut.{Shortcut};
ghost use Rattle.move_model.specs.Streets.{Streets, IsStreets, IsDistance, HasDistance};
ghost use Rattle.move_model.specs.Network.{IsNetwork, streets};
ghost use Rattle.move_model.specs.Journey.{IsBest, IsParetoList, IsStep, HasEarliest};
ghost use Rattle.move_model.specs.Shortcut.{IsShortcutList, Suffices};
ghost use Rattle.move_model.specs.Listed.{HoldsFirst, HoldsLast, ListedSuffice, HasBest, earlier};
ghost use Rattle.move_model.specs.Range.{IsRange, IsListedRange, outline};
ghost use Rattle.pareto_laws.specs.TransferList.{HoldsDistances, IsAllPairs};

/// The list of all shortcuts of a network suffices: for every journey there is one between the
/// same places that leaves at the same second, arrives no later, has no more rides, and whose
/// every transfer stays at a stop or is a shortcut. Each shortcut has the distance of its stops.
pub fn sufficiency()
    ensures suffices { (n : Network) (list : List Shortcut)
        → IsNetwork n → IsShortcutList n list → Suffices n list }
    ensures distances { (n : Network) (list : List Shortcut)
        → IsShortcutList n list → HoldsDistances n list }
{}

/// The list of all pairs of different stops with their distances suffices too.
pub fn all_pairs_sufficiency()
    ensures suffices { (n : Network) (list : List Shortcut)
        → IsNetwork n → IsAllPairs n list → Suffices n list }
    ensures distances { (n : Network) (list : List Shortcut)
        → IsAllPairs n list → HoldsDistances n list }
{}

/// Over rows that hold the distances and a list of distances that suffices, each listed journey
/// is one of the network with the same rides and arrival, and its every transfer stays at a stop
/// or is in the list; and for every journey the walk on foot or a listed journey is as good.
pub fn listed_sufficiency()
    ensures { (n : Network) (list : List Shortcut) (s t : NodeNo) (first last : List (Option ℕ))
        → IsNetwork n → Suffices n list → HoldsDistances n list
        → HoldsFirst n s first → HoldsLast n t last
        → ListedSuffice n s t first last list }
{}

/// Over such rows and such a list, the earlier of the walk on foot and of the best listed journey
/// with at most k rides is the least arrival of all journeys with at most k rides; where there is
/// neither, there is no such journey.
pub fn earliest_by_listed()
    ensures { (n : Network) (list : List Shortcut) (s t : NodeNo) (first last : List (Option ℕ))
        (d k : ℕ) (foot best : Option ℕ)
        → IsNetwork n → Suffices n list → HoldsDistances n list
        → HoldsFirst n s first → HoldsLast n t last
        → HasDistance (streets n) s t foot → HasBest n first last list d k best
        → HasEarliest n s d t k (earlier d foot best) }
{}

/// Over such rows and such a list, and with the distance on foot, the answer to a range that is made
/// of listed journeys is the answer of all journeys.
pub fn range_by_listed()
    ensures { (n : Network) (list : List Shortcut) (s t : NodeNo) (first_row last_row : List (Option ℕ))
        (foot : Option ℕ) (limit first last : ℕ) (profile : Profile)
        → IsNetwork n → Suffices n list → HoldsDistances n list
        → HoldsFirst n s first_row → HoldsLast n t last_row → HasDistance (streets n) s t foot
        → IsListedRange n first_row last_row list foot limit first last profile
        → IsRange n s t limit first last profile }
{}

/// The pairs of the Pareto set are the least arrivals that no fewer rides give.
pub fn pareto_by_rides()
    ensures { (n : Network) (s : NodeNo) (d : ℕ) (t : NodeNo) (limit : ℕ) (pair : Pair)
        → IsBest n s d t limit pair ↔ IsStep n s d t limit pair }
{}

/// A least walk comes to no vertex twice, so a distance has at most the seconds of the greatest
/// arc for each vertex but one. With at most 2,000,000 vertices and arcs of at most 1,000,000
/// seconds it is below 2,000,000,000,000 seconds.
pub fn distance_bound()
    ensures by_greatest_arc { (g : Streets) (most : ℕ)
        → IsStreets g → All (λ arc. arc.seconds ≤ most) g.arcs
        → (a b : NodeNo) (m : ℕ) → IsDistance g a b m → m + most ≤ g.nodes * most }
    ensures within_limits { (g : Streets)
        → IsStreets g → g.nodes ≤ 2000000 → All (λ arc. arc.seconds ≤ 1000000) g.arcs
        → (a b : NodeNo) (m : ℕ) → IsDistance g a b m → m < 2000000000000 }
{}

/// A network has one list of shortcuts at most; a source, departure second, target and limit have
/// one list of Pareto pairs at most; and a range has one answer at most, but for the rides.
pub fn uniqueness()
    ensures shortcuts { (n : Network) (xs ys : List Shortcut)
        → IsShortcutList n xs → IsShortcutList n ys → xs ≡ ys }
    ensures pairs { (n : Network) (s : NodeNo) (d : ℕ) (t : NodeNo) (limit : ℕ) (xs ys : List Pair)
        → IsParetoList n s d t limit xs → IsParetoList n s d t limit ys → xs ≡ ys }
    ensures ranges { (n : Network) (s t : NodeNo) (limit first last : ℕ) (p q : Profile)
        → IsRange n s t limit first last p → IsRange n s t limit first last q → outline p ≡ outline q }
    ensures listed_ranges { (n : Network) (list : List Shortcut) (first_row last_row : List (Option ℕ))
        (foot : Option ℕ) (limit first last : ℕ) (p q : Profile)
        → IsListedRange n first_row last_row list foot limit first last p
        → IsListedRange n first_row last_row list foot limit first last q → outline p ≡ outline q }
{}
