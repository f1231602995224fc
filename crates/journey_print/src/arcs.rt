// The seconds of arcs.
ghost use Rattle.std.specs.Prelude.{◌≡◌};
ghost use Rattle.move_model.specs.Streets.{HasLeastArc};
ghost use Rattle.journey_print.specs.Legs as spec;

use move_model::{Arc, NodeNo};

// The seconds of an arc with these ends.
#[tactic(auto, unfolding(crate::specs::Legs::seconds_between))]
fn seconds_between(arc: &Arc, from: NodeNo, to: NodeNo) -> Option<u32>
    ensures { result ≡ spec.seconds_between arc.now from to }
{
    if arc.from.0 == from.0 && arc.to.0 == to.0 {
        Some(arc.seconds)
    } else {
        None
    }
}

// The lesser of two optional seconds. None counts as more than any.
fn lesser(left: Option<u32>, right: Option<u32>) -> Option<u32>
    ensures { result ≡ spec.lesser left right }
{
    match left {
        None => right,
        Some(seconds) => match right {
            None => Some(seconds),
            Some(others) => Some(seconds.min(others)),
        },
    }
}

// The seconds of the least arc from one vertex to another.
pub(crate) fn least_arc(arcs: &[Arc], from: NodeNo, to: NodeNo) -> Option<u32>
    ensures value { result ≡ spec.least_arc arcs.now from to }
    ensures least { HasLeastArc arcs.now from to result }
{
    let mut least: Option<u32> = None;
    for arc in arcs {
        least = lesser(least, seconds_between(arc, from, to));
    }
    least
}
