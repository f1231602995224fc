// The stops of a network by their ids.
ghost use Rattle.std.specs.Prelude.{◌≡◌, [], IfOk};
ghost use Rattle.std.specs.Option.{option_copied};
ghost use Rattle.query_table.specs.Places.{stop_named};

use indexmap::IndexMap;
use move_model::Stop;
use std::alloc::{AllocError, Global};
use std::marker::Model;

/// Stops that are found by their ids, seen as their list.
#[derive(Drop)]
pub struct StopIds<'a> {
    stops: &'a [Stop],
    numbers: IndexMap<&'a [u8], usize>,
}

impl<'a> Model for StopIds<'a> {
    ghost use Rattle.std.specs.Prelude.{List};
    ghost use Rattle.move_model.specs.declared.network.Stop.{Stop};
    ghost use Rattle.query_table.specs.Numbered.{IsNumbered};

    ghost Value = { List Stop };

    ghost view = { λ ids. ids.stops.now };

    ghost invariant = { λ ids. IsNumbered ids.numbers.entries ids.stops.now };
}

impl StopIds<'_> {
    /// The stop with an id; of two with one id, the first.
    pub fn find(&self, id: &[u8]) -> Option<&Stop>
        ensures { option_copied result ≡ stop_named id.now self.now }
    {
        let Some(number) = self.numbers.get(id) else {
            return None;
        };
        let number = *number;
        Some(&self.stops[number])
    }
}

/// Numbers stops by their ids.
pub fn number_stops(alloc: Global, stops: &[Stop]) -> Result<StopIds, AllocError>
    ensures { IfOk result (λ ids. ids ≡ stops.now) }
{
    let mut numbers = IndexMap::new(alloc);
    for (number, stop) in stops.iter().enumerate() {
        let id = stop.name.as_slice();
        if let Some(_) = numbers.get(id) {
            continue;
        }
        let Ok(_) = numbers.insert(id, number) else {
            return Err(AllocError);
        };
    }
    Ok(StopIds { stops, numbers })
}
