// The label with which a stop is boarded.
ghost use Rattle.std.specs.Prelude.{◌<◌, length};
ghost use Rattle.two_trip_rides.specs.Second.{ready_at};
ghost use Rattle.two_trip_labels.specs.Closed.{IsLabel};

use move_model::StopNo;
use piece_laws::{Ready, ready_less};

/// The lesser of the label of a stop's place and of the label of a ride that is left at the stop itself.
pub fn label_at(stop: StopNo, place: u32, first: &[u32], ready: &[Ready]) -> Ready
    requires stop { stop.0 < length first.now }
    requires place { place < length ready.now }
    ensures { IsLabel first.now (ready_at ready.now place) stop result }
{
    let arrive = first[stop.0 as usize];
    let own = Ready {
        ready: arrive,
        a1: arrive,
        c: 0,
    };
    let there = ready[place as usize];
    if ready_less(there, own) { there } else { own }
}
