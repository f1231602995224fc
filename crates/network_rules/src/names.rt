// The rules of names.
ghost use Rattle.std.specs.Prelude.{◌↔◌, IsTrue, IfOk, All};
ghost use Rattle.network_rules.specs.Rules.{IsId, Differ};

use move_model::{NoMemory, Stop, Trip};
use std::alloc::Global;
use tables::Names;

// Whether a name has 1 to 255 bytes of UTF-8.
fn is_id(name: &[u8]) -> bool
    ensures { IsTrue result ↔ IsId name.now }
{
    if name.is_empty() || name.len() > 255 {
        return false;
    }
    match str::from_utf8(name) {
        Ok(_) => true,
        Err(_) => false,
    }
}

/// Whether the name of each stop is an id.
pub fn stops_have_ids(stops: &[Stop]) -> bool
    ensures { IsTrue result ↔ All (λ stop. IsId stop.name) stops.now }
{
    for i in 0..stops.len() {
        if !is_id(stops[i].name.as_slice()) {
            return false;
        }
    }
    true
}

/// Whether the name of each trip is an id.
pub fn trips_have_ids(trips: &[Trip]) -> bool
    ensures { IsTrue result ↔ All (λ trip. IsId trip.name) trips.now }
{
    for i in 0..trips.len() {
        if !is_id(trips[i].name.as_slice()) {
            return false;
        }
    }
    true
}

/// Whether no two stops have one name.
pub fn differ(alloc: Global, stops: &[Stop]) -> Result<bool, NoMemory>
    ensures { IfOk result (λ differ. IsTrue differ ↔ Differ stops.now) }
{
    let mut names = Names::new(alloc);
    for i in 0..stops.len() {
        if !names.insert(alloc, stops[i].name.as_slice())? {
            return Ok(false);
        }
    }
    Ok(true)
}
