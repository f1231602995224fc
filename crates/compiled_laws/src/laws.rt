// Laws over the definitions, each the contract of a function that does nothing.
ghost use Rattle.std.specs.Prelude.{ℕ, List, Option, All};
ghost use Rattle.move_model.specs.declared.network.NodeNo.{NodeNo};
ghost use Rattle.move_model.specs.declared.journey.Ride.{Ride};
ghost use Rattle.move_model.specs.declared.journey.Journey.{Journey};
ghost use Rattle.move_model.specs.declared.journey.Finding.{Finding};
ghost use Rattle.move_model.specs.declared.journey.SpanFinding.{SpanFinding};
ghost use Rattle.move_model.specs.Streets.{IsVertex};
ghost use Rattle.move_model.specs.Network.{streets};
ghost use Rattle.move_model.specs.Found.{IsPointAnswer, IsRangeAnswer};
ghost use Rattle.move_model.specs.Shortcut.{TransfersListed};
ghost use Rattle.route_split.specs.Calls.{IsTableOf};
ghost use Rattle.journey_build.specs.Built.{IsBroken};
ghost use Rattle.network_file.specs.declared.compiled.Compiled.{Compiled};
ghost use Rattle.network_file.specs.Compiled.{FitTogether, IsRight};
ghost use Rattle.network_file.specs.Answers.{GoesBySums, IsListedPoint, IsListedSpans};

/// The listed answers of a right value are exact: the pairs of a point query are the Pareto set over all journeys of the
/// whole network, and the spans of a range are the Pareto sets of all its seconds, each with a journey that attains it by
/// shortest walks, which come to no vertex twice. So nothing is left out.
pub fn exact_answers()
    ensures point { (c : Compiled) (s t : NodeNo) (d limit : ℕ) (found : List Finding)
        → IsRight c → IsVertex (streets c.network) s → IsVertex (streets c.network) t
        → IsListedPoint c s d t limit found → IsPointAnswer c.network s d t limit found }
    ensures range { (c : Compiled) (s t : NodeNo) (limit first last : ℕ) (foot : Option Finding) (spans : List SpanFinding)
        → IsRight c → IsVertex (streets c.network) s → IsVertex (streets c.network) t
        → IsListedSpans c s t limit first last foot spans → IsRangeAnswer c.network s t limit first last foot spans }
{}

/// Between two rides of what any value finds the passenger stays at the stop or goes by a pair of its list.
pub fn listed_transfers()
    ensures point { (c : Compiled) (s t : NodeNo) (d limit : ℕ) (found : List Finding)
        → IsListedPoint c s d t limit found
        → All (λ finding. TransfersListed c.network c.shortcuts finding.journey.rides) found }
    ensures range { (c : Compiled) (s t : NodeNo) (limit first last : ℕ) (foot : Option Finding) (spans : List SpanFinding)
        → IsListedSpans c s t limit first last foot spans
        → All (λ found. TransfersListed c.network c.shortcuts found.finding.journey.rides) spans }
{}

/// The table of a value whose parts fit together holds the trips of its network, and no ride goes back in time.
pub fn fitting_table()
    ensures { (c : Compiled) → FitTogether c → IsTableOf c.network c.table }
{}

/// Where a ride is missed by least sums, no journey whose walks have the least sums has the rides.
pub fn broken_rides()
    ensures { (c : Compiled) (s : NodeNo) (d : ℕ) (rides : List Ride) (t : NodeNo)
        → IsBroken c.network c.hierarchy s d rides t
        → (journey : Journey) → GoesBySums c s d rides t journey → ⊥ }
{}
