// Tests of the rules of a network, section by section.
ghost use Rattle.std.specs.Prelude.{◌≡◌, ◌≤◌, ◌↔◌, IsTrue, IfOk, length};
ghost use Rattle.network_codec.specs.Rules.{HasBuffer, streets_alone, stops_alone, AreStreets, AreStops, AreTrips};

use move_model::{Network, NoMemory};
use network_codec::Version;
use network_rules::{differ, have_few_calls, keeps, stops_have_ids, trips_have_ids};
use std::alloc::Global;

const MOST_ARCS: usize = 8_000_000;

const MOST_STOPS: usize = 200_000;

const MOST_TRIPS: usize = 2_000_000;

const LONGEST_BUFFER: u32 = 3_600;

// Whether a file of this version can have the buffer.
fn has_buffer(version: Version, seconds: u32) -> bool
    ensures { IsTrue result ↔ HasBuffer version seconds }
{
    match version {
        Version::One => seconds == 0,
        Version::Two => seconds <= LONGEST_BUFFER,
    }
}

// Whether the streets of a network without stops and trips keep the rules.
pub(crate) fn are_streets(version: Version, network: &Network) -> bool
    requires { network.now ≡ streets_alone network.now }
    ensures { IsTrue result ↔ AreStreets version network.now }
{
    if !has_buffer(version, network.buffer) {
        return false;
    }
    if network.arcs.len() > MOST_ARCS {
        return false;
    }
    keeps(network)
}

// Whether the stops of a network without trips keep the rules.
pub(crate) fn are_stops(alloc: Global, network: &Network) -> Result<bool, NoMemory>
    requires alone { network.now ≡ stops_alone network.now }
    requires arcs { length network.now.arcs ≤ 8000000 }
    ensures { IfOk result (λ right. IsTrue right ↔ AreStops network.now) }
{
    let stops = network.stops.as_slice();
    if stops.len() > MOST_STOPS {
        return Ok(false);
    }
    if !stops_have_ids(stops) {
        return Ok(false);
    }
    let differ = differ(alloc, stops)?;
    if !differ {
        return Ok(false);
    }
    Ok(keeps(network))
}

// Whether the trips of a network keep the rules.
#[tactic(auto, using(crate::proofs::NetworkCodecs::calls_few))]
pub(crate) fn are_trips(network: &Network) -> bool
    requires arcs { length network.now.arcs ≤ 8000000 }
    requires stops { length network.now.stops ≤ 200000 }
    ensures { IsTrue result ↔ AreTrips network.now }
{
    let trips = network.trips.as_slice();
    if trips.len() > MOST_TRIPS {
        return false;
    }
    if !have_few_calls(trips) {
        return false;
    }
    if !trips_have_ids(trips) {
        return false;
    }
    keeps(network)
}
