// Copies of places.
ghost use Rattle.std.specs.Prelude.{◌≡◌, IfOk};

use move_model::{List, NoMemory, Place};
use std::alloc::Global;

fn copy_of(alloc: Global, place: &Place) -> Result<Place, NoMemory>
    ensures { IfOk result (λ copy. copy ≡ place.now) }
{
    let word = List::from_slice(alloc, place.word.as_slice())?;
    Ok(Place {
        node: place.node,
        word,
    })
}

// Copies of a source and a target.
pub(crate) fn places_of(alloc: Global, from: &Place, to: &Place) -> Result<(Place, Place), NoMemory>
    ensures { IfOk result (λ places. (places.0 ≡ from.now) × (places.1 ≡ to.now)) }
{
    let from = copy_of(alloc, from)?;
    let to = copy_of(alloc, to)?;
    Ok((from, to))
}
