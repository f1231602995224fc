// The nine sections of a body, one after the other.
ghost use Rattle.std.specs.Prelude.{◌≡◌, IfOk, IfErr};
ghost use Rattle.network_codec.specs.File.{Begins};
ghost use Rattle.network_decode.specs.Stop.{stop_of, IsBrokenIn};
ghost use Rattle.network_decode.specs.Value.{network_alone, streets_alone_of};
ghost use Rattle.network_decode.specs.Sections.{parts_of, value_of};

use bucket_walks::BucketList;
use move_model::{Network, Shortcuts};
use network_bytes::ReadStop;
use network_codec::{Damage, DecodeStop, Version};
use network_sections::{arcs_down, arcs_up, buckets, ranks, shortcuts, stops, streets, trips};
use std::alloc::Global;
use walk_hierarchy::{Ranks, UpDowns};

/// The ranks and the arcs of a hierarchy, as sections tell them.
#[derive(Drop)]
pub(crate) struct Arcs {
    pub ranks: Ranks,
    pub up: UpDowns,
    pub down: UpDowns,
}

/// The parts of a value, as sections tell them.
#[derive(Drop)]
pub(crate) struct Sections {
    pub network: Network,
    pub arcs: Arcs,
    pub to: BucketList,
    pub from: BucketList,
    pub shortcuts: Shortcuts,
}

// What a stop in a section is answered by.
fn stop_in(section: u32, stop: ReadStop) -> DecodeStop
    ensures { result ≡ stop_of section stop }
{
    match stop {
        ReadStop::Broken => DecodeStop::Damaged(Damage::Section(section)),
        ReadStop::NoMemory => DecodeStop::NoMemory,
    }
}

// The network of the first three sections, and the bytes behind them.
fn network_in(alloc: Global, version: Version, body: &[u8]) -> Result<(Network, &[u8]), DecodeStop>
    ensures found { IfOk result (λ x. Begins 3 version (network_alone x.0) body.now x.1.now) }
    ensures broken { IfErr result (IsBrokenIn version body.now) }
{
    let (streets_alone, rest) = match streets(alloc, version, body) {
        Ok(found) => found,
        Err(stop) => return Err(stop_in(1, stop)),
    };
    let (with_stops, rest) = match stops(alloc, streets_alone, rest) {
        Ok(found) => found,
        Err(stop) => return Err(stop_in(2, stop)),
    };
    match trips(alloc, with_stops, rest) {
        Ok(found) => Ok(found),
        Err(stop) => Err(stop_in(3, stop)),
    }
}

// The network and the hierarchy of the first six sections, and the bytes behind them.
fn hierarchy_in(
    alloc: Global,
    version: Version,
    body: &[u8],
) -> Result<(Network, Arcs, &[u8]), DecodeStop>
    ensures found { IfOk result (λ x. Begins 6 version (streets_alone_of x.0 (parts_of x.1)) body.now x.2.now) }
    ensures broken { IfErr result (IsBrokenIn version body.now) }
{
    let (network, rest) = network_in(alloc, version, body)?;
    let (ranks, rest) = match ranks(alloc, network.nodes, rest) {
        Ok(found) => found,
        Err(stop) => return Err(stop_in(4, stop)),
    };
    let (up, rest) = match arcs_up(alloc, ranks.as_slice(), rest) {
        Ok(found) => found,
        Err(stop) => return Err(stop_in(5, stop)),
    };
    let (down, rest) = match arcs_down(alloc, &network, ranks.as_slice(), up.as_slice(), rest) {
        Ok(found) => found,
        Err(stop) => return Err(stop_in(6, stop)),
    };
    Ok((network, Arcs { ranks, up, down }, rest))
}

/// The parts of the nine sections of a body, and the bytes behind them.
pub(crate) fn sections_in(
    alloc: Global,
    version: Version,
    body: &[u8],
) -> Result<(Sections, &[u8]), DecodeStop>
    ensures found { IfOk result (λ x. Begins 9 version (value_of x.0) body.now x.1.now) }
    ensures broken { IfErr result (IsBrokenIn version body.now) }
{
    let (network, arcs, rest) = hierarchy_in(alloc, version, body)?;
    let nodes = network.nodes;
    let many = network.stops.len() as u32;
    let (to, rest) = match buckets(alloc, nodes, many, rest) {
        Ok(found) => found,
        Err(stop) => return Err(stop_in(7, stop)),
    };
    let (from, rest) = match buckets(alloc, nodes, many, rest) {
        Ok(found) => found,
        Err(stop) => return Err(stop_in(8, stop)),
    };
    let (shortcuts, rest) = match shortcuts(alloc, many, rest) {
        Ok(found) => found,
        Err(stop) => return Err(stop_in(9, stop)),
    };
    let sections = Sections {
        network,
        arcs,
        to,
        from,
        shortcuts,
    };
    Ok((sections, rest))
}
