// The streets.
ghost use Rattle.std.specs.Prelude.{◌≡◌, ◌++◌, ◌+◌, ◌*◌, ◌<◌, ◌≤◌, IfOk, OnOk, length};
ghost use Rattle.std.specs.List.{flat_map, enumerate_from};
ghost use Rattle.city_maker.specs.Streets as spec;

use crate::draws::Draws;
use move_model::{Arc, Arcs, List, NoMemory, NodeNo};
use std::alloc::Global;

// Puts the arc between two vertices and the arc back last, with the seconds of the next draw.
fn put_street(draws: &mut Draws, from: u32, to: u32, arcs: &mut Vec<Arc>) -> Result<(), NoMemory>
    requires { draws.old.made < 100000 }
    ensures arcs { OnOk result (arcs.new.items ≡ arcs.old.items ++ spec.both_ways draws.old.number (draws.old.made, record { from = from; to = to })) }
    ensures number { draws.new.number ≡ draws.old.number }
    ensures made { draws.new.made ≡ draws.old.made + 1 }
{
    let seconds = 60 + draws.below(61);
    let (from, to) = (NodeNo(from), NodeNo(to));
    arcs.push(Arc { from, to, seconds })?;
    arcs.push(Arc {
        from: to,
        to: from,
        seconds,
    })?;
    Ok(())
}

// Puts the streets from a vertex to its neighbours on the right and below last.
fn put_streets(draws: &mut Draws, side: u32, v: u32, arcs: &mut Vec<Arc>) -> Result<(), NoMemory>
    requires side { 0 < side }
    requires few { side ≤ 200 }
    requires vertex { 1 ≤ v }
    requires within { v ≤ 40000 }
    requires made { draws.old.made < 90000 }
    ensures arcs { OnOk result (arcs.new.items ≡ arcs.old.items ++ flat_map (spec.both_ways draws.old.number) (enumerate_from draws.old.made (spec.streets_from side v))) }
    ensures number { OnOk result (draws.new.number ≡ draws.old.number) }
    ensures made { OnOk result (draws.new.made ≡ draws.old.made + length (spec.streets_from side v)) }
{
    let (row, column) = ((v - 1) / side, (v - 1) % side);
    if column + 1 < side {
        put_street(draws, v, v + 1, arcs)?;
    }
    if row + 1 < side {
        put_street(draws, v, v + side, arcs)?;
    }
    Ok(())
}

/// The arcs of a city.
pub(crate) fn city_arcs(alloc: Global, draws: &mut Draws, side: u32) -> Result<Arcs, NoMemory>
    requires side { 0 < side }
    requires few { side ≤ 200 }
    requires made { draws.old.made ≤ 600 }
    ensures arcs { IfOk result (λ arcs. arcs ≡ spec.city_arcs side draws.old.number draws.old.made) }
    ensures number { OnOk result (draws.new.number ≡ draws.old.number) }
    ensures made { OnOk result (draws.new.made ≡ draws.old.made + length (spec.city_streets side)) }
    ensures bound { OnOk result (draws.new.made ≤ 90000) }
{
    let mut arcs = Vec::new(alloc);
    for v in 1..side * side + 1 {
        put_streets(draws, side, v, &mut arcs)?;
    }
    Ok(List::from_vec(arcs))
}
