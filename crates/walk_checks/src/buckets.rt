// Walks between the vertices of the pairs and four stops, by hand.
ghost use Rattle.std.specs.Prelude.{◌≡◌, ◌<◌, All, IfOk, length};
ghost use Rattle.walk_hierarchy.specs.Hierarchy.{IsNode};
ghost use Rattle.walk_checks.specs.Samples.{pairs};

use crate::samples::pairs_of;
use bucket_walks::Buckets;
use move_model::{List, NoMemory, NodeNo, Stop, StopNo, Stops, WalkRow};
use std::alloc::Global;
use std::marker::Brand;
use std::sync::ledger::{Blank, Ledger};
use std::test::Fail;
use steps::Steps;
use walk_hierarchy::{Hierarchy, Work};

// A stop at each vertex from 1 to 4.
fn stops(alloc: Global) -> Result<Stops, NoMemory>
    ensures many { IfOk result (λ stops. length stops ≡ 4) }
    ensures stand { IfOk result (λ stops. All (λ stop. IsNode pairs stop.node) stops) }
{
    let mut stops = Stops::new(alloc);
    for node in 1..5 {
        stops.push(Stop {
            node: NodeNo(node),
            name: List::new(alloc),
        })?;
    }
    Ok(stops)
}

fn buckets_of(alloc: Global, hierarchy: &Hierarchy) -> Result<Buckets, NoMemory>
    requires { hierarchy.now ≡ pairs }
    ensures nodes { IfOk result (λ buckets. buckets.nodes ≡ 4) }
    ensures stops { IfOk result (λ buckets. buckets.stops ≡ 4) }
{
    let stops = stops(alloc)?;
    Buckets::new(alloc, hierarchy, &stops)
}

fn is_row(row: &WalkRow, seconds: [Option<u64>; 4]) -> bool
    requires { length row.now ≡ 4 }
{
    row.get(StopNo(0)) == seconds[0]
        && row.get(StopNo(1)) == seconds[1]
        && row.get(StopNo(2)) == seconds[2]
        && row.get(StopNo(3)) == seconds[3]
}

// The walks from 2, in a row that held those from 1, and then those to 3.
fn are_walks<L: Ledger>(
    alloc: Global,
    hierarchy: &Hierarchy,
    buckets: &Buckets,
    work: &mut Work,
    blank: Blank,
) -> Result<bool, NoMemory>
    requires name { blank.name ≡ L.name }
    requires parts { blank.parts ≡ L.parts }
    requires some { 0 < blank.parts }
    requires four { length hierarchy.now.ranks ≡ 4 }
    requires nodes { buckets.now.nodes ≡ 4 }
    requires stops { buckets.now.stops ≡ 4 }
    requires fits { work.old.nodes ≡ 4 }
{
    let mut searches = Steps::<L>::new(blank);
    let mut row = WalkRow::new(alloc, 4)?;
    buckets.first_walks(hierarchy, NodeNo(1), &mut row, work, &mut searches);
    buckets.first_walks(hierarchy, NodeNo(2), &mut row, work, &mut searches);
    let first = is_row(&row, [None, Some(0), Some(240), None]);
    buckets.last_walks(hierarchy, NodeNo(3), &mut row, work, &mut searches);
    Ok(first && is_row(&row, [None, Some(240), Some(0), None]))
}

fn give_walks(alloc: Global, hierarchy: &Hierarchy, buckets: &Buckets) -> Result<bool, NoMemory>
    requires four { length hierarchy.now.ranks ≡ 4 }
    requires nodes { buckets.now.nodes ≡ 4 }
    requires stops { buckets.now.stops ≡ 4 }
{
    let mut work = Work::new(alloc, hierarchy)?;
    are_walks::<Brand>(alloc, hierarchy, buckets, &mut work, Blank::new(1))
}

// Whether the walks are right, and the number of entries to stops.
fn asked(alloc: Global, hierarchy: &Hierarchy) -> Result<(bool, usize), NoMemory>
    requires { hierarchy.now ≡ pairs }
{
    let buckets = buckets_of(alloc, hierarchy)?;
    let right = give_walks(alloc, hierarchy, &buckets)?;
    Ok((right, buckets.to_stops().len()))
}

fn of_pairs(alloc: Global) -> Result<(bool, usize), NoMemory> {
    let hierarchy = pairs_of(alloc)?;
    asked(alloc, &hierarchy)
}

#[test]
fn walks_to_and_from_each_stop(rt: HostRuntime) -> Result<(), Fail> {
    assert_eq!(rt; of_pairs(rt.alloc())?, (true, 6));
    Ok(())
}
