// Sections 1 to 3: a network.
ghost use Rattle.std.specs.Prelude.{◌≡◌, ◌≤◌, length, IfOk, IsErrOf};
ghost use Rattle.network_bytes.specs.Bytes.{short_list};
ghost use Rattle.network_bytes.specs.Front.{Gives};
ghost use Rattle.network_bytes.specs.Forms.{stop_form, trip_form};
ghost use Rattle.network_bytes.specs.declared.stop.ReadStop.TheVariants as stop;
ghost use Rattle.network_codec.specs.Form.{streets_form};
ghost use Rattle.network_codec.specs.Rules.{streets_alone, AreStreets, AreStops, AreTrips};
ghost use Rattle.network_sections.specs.Front.{IsInFront, HasNoneInFront};
ghost use Rattle.network_sections.specs.Network.{with_stops, with_trips, buffer_at, streets_at};

use crate::rules::{are_stops, are_streets, are_trips};
use move_model::{List, Network};
use network_bytes::{ReadStop, short_list, word};
use network_codec::Version;
use std::alloc::Global;

// The buffer, where the version tells it, and the bytes behind it.
fn buffer(version: Version, bytes: &[u8]) -> Result<(u32, &[u8]), ReadStop>
    ensures { Gives (λ x. (x.0, x.1.now)) result (buffer_at version bytes.now) }
{
    match version {
        Version::One => Ok((0, bytes)),
        Version::Two => word(bytes),
    }
}

// The network of the streets in front, whatever rules they keep, and the bytes behind them.
#[tactic(auto, unfolding(crate::specs::Network::streets_at))]
fn streets_in(alloc: Global, version: Version, bytes: &[u8]) -> Result<(Network, &[u8]), ReadStop>
    ensures { Gives (λ x. (x.0, x.1.now)) result (streets_at version bytes.now) }
{
    let (buffer, rest) = buffer(version, bytes)?;
    let (nodes, rest) = word(rest)?;
    let (arcs, rest) = short_list(alloc, rest)?;
    let network = Network {
        nodes,
        arcs,
        stops: List::new(alloc),
        trips: List::new(alloc),
        buffer,
    };
    Ok((network, rest))
}

/// Section 1: the streets, as a network without stops and trips.
pub fn streets(alloc: Global, version: Version, bytes: &[u8]) -> Result<(Network, &[u8]), ReadStop>
    ensures found { IfOk result (λ x. IsInFront (streets_form version) (AreStreets version) bytes.now x.0 x.1.now) }
    ensures alone { IfOk result (λ x. x.0 ≡ streets_alone x.0) }
    ensures broken { IsErrOf result stop.Broken → HasNoneInFront (streets_form version) (AreStreets version) bytes.now }
{
    let (network, rest) = streets_in(alloc, version, bytes)?;
    if !are_streets(version, &network) {
        return Err(ReadStop::Broken);
    }
    Ok((network, rest))
}

/// Section 2: the stops, put into a network that has none.
pub fn stops(
    alloc: Global,
    mut network: Network,
    bytes: &[u8],
) -> Result<(Network, &[u8]), ReadStop>
    requires alone { network ≡ streets_alone network }
    requires arcs { length network.arcs ≤ 8000000 }
    ensures found { IfOk result (λ x. IsInFront (short_list stop_form) (λ stops. AreStops (with_stops network stops)) bytes.now x.0.stops x.1.now) }
    ensures network { IfOk result (λ x. x.0 ≡ with_stops network x.0.stops) }
    ensures broken { IsErrOf result stop.Broken → HasNoneInFront (short_list stop_form) (λ stops. AreStops (with_stops network stops)) bytes.now }
{
    let (stops, rest) = short_list(alloc, bytes)?;
    network.stops = stops;
    let right = are_stops(alloc, &network)?;
    if !right {
        return Err(ReadStop::Broken);
    }
    Ok((network, rest))
}

/// Section 3: the trips, put into a network that has none.
pub fn trips(
    alloc: Global,
    mut network: Network,
    bytes: &[u8],
) -> Result<(Network, &[u8]), ReadStop>
    requires arcs { length network.arcs ≤ 8000000 }
    requires stops { length network.stops ≤ 200000 }
    ensures found { IfOk result (λ x. IsInFront (short_list trip_form) (λ trips. AreTrips (with_trips network trips)) bytes.now x.0.trips x.1.now) }
    ensures network { IfOk result (λ x. x.0 ≡ with_trips network x.0.trips) }
    ensures broken { IsErrOf result stop.Broken → HasNoneInFront (short_list trip_form) (λ trips. AreTrips (with_trips network trips)) bytes.now }
{
    let (trips, rest) = short_list(alloc, bytes)?;
    network.trips = trips;
    if !are_trips(&network) {
        return Err(ReadStop::Broken);
    }
    Ok((network, rest))
}
