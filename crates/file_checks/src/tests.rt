// What is read and written, and what altered files are answered by.
ghost use Rattle.network_codec.specs.Rules.{IsWritable};
ghost use Rattle.network_codec.specs.declared.version.Version.TheVariants as version;

use crate::altered::{altered, with_digest};
use crate::files::{ROW, SMALLEST_ONE, SMALLEST_TWO};
use move_files::{SafeFiles, read_whole};
use network_codec::{Damage, DecodeStop, encode, encode_one};
use network_decode::decode;
use network_file::Compiled;
use std::alloc::Global;
use std::process::Abort;
use std::test::Fail;

// The file of version 2.
fn written(alloc: Global, compiled: &Compiled) -> Result<Vec<u8>, Fail>
    requires { IsWritable version.Two compiled.now }
{
    let mut files = SafeFiles::new(alloc);
    encode(alloc, compiled, &mut files, "NET")?;
    Ok(read_whole(alloc, &mut files, "NET", 1_000)?)
}

// The file of version 1.
fn written_one(alloc: Global, compiled: &Compiled) -> Result<Vec<u8>, Fail>
    requires { IsWritable version.One compiled.now }
{
    let mut files = SafeFiles::new(alloc);
    encode_one(alloc, compiled, &mut files, "NET")?;
    Ok(read_whole(alloc, &mut files, "NET", 1_000)?)
}

// The file of version 2 of the value that a file holds.
fn two_of(alloc: Global, file: &[u8]) -> Result<Vec<u8>, Fail> {
    let compiled = decode(alloc, file)?;
    written(alloc, &compiled)
}

// The file of version 1 of the value that a file holds; none where it has a buffer.
fn one_of(alloc: Global, file: &[u8]) -> Result<Vec<u8>, Fail> {
    let compiled = decode(alloc, file)?;
    if compiled.network.buffer != 0 {
        return Ok(Vec::new(alloc));
    }
    written_one(alloc, &compiled)
}

// How many vertices, arcs, stops, trips, ranks, arcs up and down, entries to and from stops, and walks a value has.
fn sizes(compiled: &Compiled) -> [usize; 10] {
    [
        compiled.network.nodes as usize,
        compiled.network.arcs.len(),
        compiled.network.stops.len(),
        compiled.network.trips.len(),
        compiled.hierarchy.ranks().len(),
        compiled.hierarchy.up_arcs().len(),
        compiled.hierarchy.down_arcs().len(),
        compiled.buckets.to_stops().len(),
        compiled.buckets.from_stops().len(),
        compiled.shortcuts.len(),
    ]
}

// The sizes of the value that a file holds.
fn sizes_in(alloc: Global, file: &[u8]) -> Result<[usize; 10], Fail> {
    let compiled = decode(alloc, file)?;
    Ok(sizes(&compiled))
}

#[test]
fn files_are_read_and_written(rt: HostRuntime) -> Result<(), Fail> {
    let alloc = rt.alloc();
    let two = two_of(alloc, &SMALLEST_ONE)?;
    assert_eq!(rt; two.as_slice(), SMALLEST_TWO.as_slice());
    let one = one_of(alloc, &two)?;
    assert_eq!(rt; one.as_slice(), SMALLEST_ONE.as_slice());
    let row = two_of(alloc, &ROW)?;
    assert_eq!(rt; row.len(), 332);
    let again = one_of(alloc, &row)?;
    assert_eq!(rt; again.as_slice(), ROW.as_slice());
    Ok(())
}

#[test]
fn values_have_their_parts(rt: HostRuntime) -> Result<(), Fail> {
    let alloc = rt.alloc();
    assert_eq!(rt;
        sizes_in(alloc, &SMALLEST_TWO)?,
        [1, 0, 0, 0, 1, 0, 0, 0, 0, 0]
    );
    assert_eq!(rt; sizes_in(alloc, &ROW)?, [3, 2, 2, 1, 3, 2, 1, 2, 2, 1]);
    Ok(())
}

// Why a file is not decoded.
fn stop_of(alloc: Global, file: &[u8]) -> Option<DecodeStop> {
    decode(alloc, file).err()
}

fn is_damaged(rt: &impl Abort, alloc: Global, file: &[u8], damage: Damage) {
    assert_eq!(rt; stop_of(alloc, file), Some(DecodeStop::Damaged(damage)));
}

#[test]
fn heads_are_tested_in_order(rt: HostRuntime) -> Result<(), Fail> {
    let alloc = rt.alloc();
    is_damaged(&rt, alloc, b"", Damage::TooShort);
    is_damaged(&rt, alloc, &ROW[..51], Damage::TooShort);
    is_damaged(&rt, alloc, &ROW[..327], Damage::TooShort);
    for (place, byte, damage) in [
        (0, 0, Damage::Magic),
        (7, 0, Damage::Magic),
        (8, 1, Damage::Version),
        (11, 3, Damage::Version),
        (19, 21, Damage::TooShort),
        (19, 19, Damage::Digest),
        (20, 0, Damage::Digest),
        (52, 1, Damage::Digest),
        (327, 0, Damage::Digest),
    ] {
        let bytes = altered(alloc, &ROW, place, byte)?;
        is_damaged(&rt, alloc, &bytes, damage);
    }
    let mut longer = Vec::from_slice(alloc, &ROW)?;
    longer.push(0)?;
    is_damaged(&rt, alloc, &longer, Damage::Section(10));
    Ok(())
}

#[test]
fn sections_are_tested_in_order(rt: HostRuntime) -> Result<(), Fail> {
    let alloc = rt.alloc();
    for (place, byte, section) in [
        (79, 4, 1), // an arc to no vertex
        (97, 4, 2), // a stop at no vertex
        (99, 65, 2), // two stops of one name
        (122, 4, 3), // flags above 3
        (130, 99, 3), // seconds that fall
        (139, 0, 4), // a rank that stands twice
        (147, 3, 4), // a rank above the last
        (159, 2, 5), // an arc up that stands twice
        (171, 121, 6), // a sum at a middle that is one second off
        (191, 61, 6), // an arc up with other seconds than its street
        (191, 59, 6), // and with fewer
        (223, 3, 6), // a middle above the ends
        (219, 61, 6), // an arc down with other seconds than its street
        (235, 4, 7), // an entry at no vertex
        (295, 2, 8), // an entry of no stop
        (311, 2, 9), // more walks than bytes
        (319, 0, 9), // a walk from a stop to itself
        (311, 0, 10), // bytes behind the last section
    ] {
        let bytes = altered(alloc, &ROW, place, byte)?;
        if bytes.len() >= 52 {
            is_damaged(
                &rt,
                alloc,
                &with_digest(alloc, &bytes)?,
                Damage::Section(section),
            );
        }
    }
    Ok(())
}
