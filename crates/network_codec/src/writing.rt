// The bytes of a file.
ghost use Rattle.std.specs.Prelude.{◌≡◌, ◌<◌, ◌^◌, ◌++◌, length, IfOk, OnOk};
ghost use Rattle.std.specs.List.{flat_map};
ghost use Rattle.network_bytes.specs.Bytes.{word, short_list, long_list};
ghost use Rattle.network_bytes.specs.Forms.{stop_form, trip_form, up_down_form, bucket_form};
ghost use Rattle.network_codec.specs.Form.{number_of, buffer_form, streets_form, body, head};
ghost use Rattle.network_codec.specs.Rules.{AreStreets, AreStops, AreTrips, IsWritable};

use crate::Version;
use bucket_walks::Buckets;
use move_model::{Network, NoMemory};
use network_bytes::{put_entries, put_long, put_long_list, put_short_list, put_word};
use network_file::Compiled;
use sha2::{Digest, Sha256};
use std::alloc::Global;
use walk_hierarchy::Hierarchy;

// The bytes of a head.
const HEAD: usize = 52;

// Puts the buffer behind the bytes, where the version tells it.
fn put_buffer(out: &mut Vec<u8>, version: Version, seconds: u32) -> Result<(), NoMemory>
    ensures { OnOk result (out.new.items ≡ out.old.items ++ buffer_form version seconds) }
{
    match version {
        Version::One => Ok(()),
        Version::Two => put_word(out, seconds),
    }
}

// Puts the streets behind the bytes.
fn put_streets(out: &mut Vec<u8>, version: Version, network: &Network) -> Result<(), NoMemory>
    requires { AreStreets version network.now }
    ensures { OnOk result (out.new.items ≡ out.old.items ++ streets_form version network.now) }
{
    put_buffer(out, version, network.buffer)?;
    put_word(out, network.nodes)?;
    put_short_list(out, network.arcs.as_slice())
}

// Puts the stops behind the bytes, and then the trips.
#[tactic(auto, using(crate::proofs::WriteLemmas::stops_fit, crate::proofs::WriteLemmas::trips_fit))]
fn put_timetable(out: &mut Vec<u8>, network: &Network) -> Result<(), NoMemory>
    requires stops { AreStops network.now }
    requires trips { AreTrips network.now }
    ensures { OnOk result (out.new.items ≡ out.old.items ++ (short_list stop_form network.now.stops ++ short_list trip_form network.now.trips)) }
{
    put_short_list(out, network.stops.as_slice())?;
    put_short_list(out, network.trips.as_slice())
}

// Puts the ranks behind the bytes, and then the arcs up and the arcs down.
fn put_hierarchy(out: &mut Vec<u8>, hierarchy: &Hierarchy) -> Result<(), NoMemory>
    ensures { OnOk result (out.new.items ≡ out.old.items
        ++ (flat_map word hierarchy.now.ranks ++ (long_list up_down_form hierarchy.now.up ++ long_list up_down_form hierarchy.now.down))) }
{
    put_entries(out, hierarchy.ranks())?;
    put_long_list(out, hierarchy.up_arcs())?;
    put_long_list(out, hierarchy.down_arcs())
}

// Puts the buckets to stops behind the bytes, and then those from stops.
fn put_buckets(out: &mut Vec<u8>, buckets: &Buckets) -> Result<(), NoMemory>
    ensures { OnOk result (out.new.items ≡ out.old.items ++ (long_list bucket_form buckets.now.to ++ long_list bucket_form buckets.now.from)) }
{
    put_long_list(out, buckets.to_stops())?;
    put_long_list(out, buckets.from_stops())
}

// The body of a file.
pub(crate) fn body_bytes(
    alloc: Global,
    version: Version,
    compiled: &Compiled,
) -> Result<Vec<u8>, NoMemory>
    requires { IsWritable version compiled.now }
    ensures { IfOk result (λ bytes. bytes.items ≡ body version compiled.now) }
{
    let mut out = Vec::new(alloc);
    put_streets(&mut out, version, &compiled.network)?;
    put_timetable(&mut out, &compiled.network)?;
    put_hierarchy(&mut out, &compiled.hierarchy)?;
    put_buckets(&mut out, &compiled.buckets)?;
    put_long_list(&mut out, compiled.shortcuts.as_slice())?;
    Ok(out)
}

fn number(version: Version) -> u32
    ensures { result ≡ number_of version }
{
    match version {
        Version::One => 1,
        Version::Two => 2,
    }
}

// The head of a file with this body.
pub(crate) fn head_bytes(alloc: Global, version: Version, body: &[u8]) -> Result<Vec<u8>, NoMemory>
    ensures { IfOk result (λ bytes. bytes.items ≡ head version body.now) }
{
    let mut out = Vec::with_capacity(alloc, HEAD)?;
    out.extend_from_slice(b"ULTRANET")?;
    put_word(&mut out, number(version))?;
    put_long(&mut out, body.len() as u64)?;
    out.extend_from_slice(&Sha256::digest(body))?;
    Ok(out)
}
