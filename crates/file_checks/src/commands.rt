// What is read, rewritten and compiled under names, and what stands there where a read or a write fails.
ghost use Rattle.std.specs.Prelude.{IfOk};
ghost use Rattle.file_compile.specs.Storable.{IsStorable};

use crate::altered::{altered, with_digest};
use crate::files::{ROW, ROW_TWO, SMALLEST_ONE, SMALLEST_TWO};
use file_commands::{FileStop, MigrateStop, migrate, read_network_file};
use file_compile::compile_file;
use move_files::{Files, MemFiles, ReadStop, SafeFiles, read_whole};
use move_model::Network;
use network_codec::{Damage, DecodeStop, EncodeStop};
use network_decode::decode;
use std::alloc::{AllocError, Global};
use std::process::Abort;
use std::test::Fail;

// Files of which OLD holds these bytes.
fn holding(alloc: Global, bytes: &[u8]) -> Result<SafeFiles, AllocError> {
    let mut files = SafeFiles::new(alloc);
    files.put("OLD", bytes)?;
    Ok(files)
}

// What a name holds when the file of OLD was rewritten there.
fn migrated(alloc: Global, old: &[u8], to: &str) -> Result<Vec<u8>, Fail> {
    let mut files = holding(alloc, old)?;
    migrate(alloc, &mut files, "OLD", to)?;
    Ok(read_whole(alloc, &mut files, to, 1_000)?)
}

#[test]
fn both_versions_are_migrated(rt: HostRuntime) -> Result<(), Fail> {
    let alloc = rt.alloc();
    for to in ["NEW", "OLD"] {
        assert_eq!(rt;
            migrated(alloc, &SMALLEST_ONE, to)?.as_slice(),
            SMALLEST_TWO.as_slice()
        );
        assert_eq!(rt;
            migrated(alloc, &SMALLEST_TWO, to)?.as_slice(),
            SMALLEST_TWO.as_slice()
        );
        assert_eq!(rt; migrated(alloc, &ROW, to)?.as_slice(), ROW_TWO.as_slice());
    }
    Ok(())
}

// The file of version 2 of the smallest network, with a buffer of 3,584 seconds and these.
fn with_buffer(alloc: Global, seconds: u8) -> Result<Vec<u8>, AllocError> {
    let high = altered(alloc, &SMALLEST_TWO, 54, 14)?;
    let whole = altered(alloc, &high, 55, seconds)?;
    if whole.len() < 52 {
        return Ok(whole);
    }
    with_digest(alloc, &whole)
}

#[test]
fn the_buffer_is_kept(rt: HostRuntime) -> Result<(), Fail> {
    let alloc = rt.alloc();
    let hour = with_buffer(alloc, 16)?;
    let again = migrated(alloc, &hour, "NEW")?;
    assert_eq!(rt; again.as_slice(), hour.as_slice());
    Ok(())
}

// Neither a read of OLD nor its rewriting goes past the damage, and NEW is not begun.
fn is_refused(rt: &impl Abort, alloc: Global, old: &[u8], damage: Damage) -> Result<(), Fail> {
    let mut files = holding(alloc, old)?;
    let stop = FileStop::Damaged(damage);
    assert_eq!(rt;
        read_network_file(alloc, &mut files, "OLD").err(),
        Some(stop)
    );
    assert_eq!(rt;
        migrate(alloc, &mut files, "OLD", "NEW"),
        Err(MigrateStop::Unread(stop))
    );
    assert_eq!(rt;
        read_whole(alloc, &mut files, "NEW", 1_000).err(),
        Some(ReadStop::Missing)
    );
    Ok(())
}

#[test]
fn damaged_files_are_refused(rt: HostRuntime) -> Result<(), Fail> {
    let alloc = rt.alloc();
    is_refused(&rt, alloc, &ROW[..327], Damage::TooShort)?;
    is_refused(&rt, alloc, &altered(alloc, &ROW, 0, 0)?, Damage::Magic)?;
    is_refused(&rt, alloc, &altered(alloc, &ROW, 11, 3)?, Damage::Version)?;
    is_refused(&rt, alloc, &altered(alloc, &ROW, 52, 1)?, Damage::Digest)?;
    is_refused(&rt, alloc, &with_buffer(alloc, 17)?, Damage::Section(1))?;
    let mut longer = Vec::from_slice(alloc, &ROW)?;
    longer.push(0)?;
    is_refused(&rt, alloc, &longer, Damage::Section(10))
}

#[test]
fn missing_files_are_told(rt: HostRuntime) -> Result<(), Fail> {
    let alloc = rt.alloc();
    let mut files = holding(alloc, &ROW)?;
    assert_eq!(rt;
        read_network_file(alloc, &mut files, "NEW").err(),
        Some(FileStop::Missing)
    );
    assert_eq!(rt;
        migrate(alloc, &mut files, "NEW", "OLD"),
        Err(MigrateStop::Unread(FileStop::Missing))
    );
    assert_eq!(rt;
        read_whole(alloc, &mut files, "OLD", 1_000)?.as_slice(),
        ROW.as_slice()
    );
    Ok(())
}

// How many bytes a name holds, if it is held.
fn held(alloc: Global, files: &mut MemFiles, name: &str) -> Option<usize> {
    match read_whole(alloc, files, name, 1_000) {
        Ok(bytes) => Some(bytes.len()),
        Err(_) => None,
    }
}

// Files in memory of which OLD holds the second file. They give it in pieces of 100 bytes, and these calls fail, counted
// from 1; none where a number is 0.
fn failing(alloc: Global, read: u64, begin: u64, append: u64) -> Result<MemFiles, AllocError> {
    let mut files = MemFiles::new(alloc);
    files.put("OLD", &ROW)?;
    files.piece(100);
    files.fail_read("OLD", read)?;
    files.fail_begin("NEW", begin)?;
    files.fail_append("NEW", append)?;
    Ok(files)
}

#[test]
fn faults_leave_a_part(rt: HostRuntime) -> Result<(), Fail> {
    let alloc = rt.alloc();
    let unread = Err(MigrateStop::Unread(FileStop::ReadFault));
    let unwritten = Err(MigrateStop::Unwritten(EncodeStop::WriteFault));
    for (read, begin, append, result, left) in [
        (1, 0, 0, unread, None),
        (2, 0, 0, unread, None),
        (4, 0, 0, unread, None),
        (5, 0, 0, unread, None),
        (6, 0, 0, Ok(()), Some(332)),
        (0, 1, 0, unwritten, None),
        (0, 0, 1, unwritten, Some(0)),
        (0, 0, 2, unwritten, Some(52)),
        (0, 0, 3, Ok(()), Some(332)),
    ] {
        let mut files = failing(alloc, read, begin, append)?;
        assert_eq!(rt; migrate(alloc, &mut files, "OLD", "NEW"), result);
        assert_eq!(rt; held(alloc, &mut files, "NEW"), left);
    }
    Ok(())
}

// The network of a file, which a file can hold again.
fn network_of(alloc: Global, file: &[u8]) -> Result<Network, DecodeStop>
    ensures { IfOk result IsStorable }
{
    let value = decode(alloc, file)?;
    Ok(value.network)
}

// Compiles the network of a file into NEW.
fn compiled<F: Files>(alloc: Global, file: &[u8], files: &mut F) -> Result<(), Fail> {
    let network = network_of(alloc, file)?;
    compile_file(alloc, network, files, "NEW")?;
    Ok(())
}

#[test]
fn faults_leave_a_part_of_a_compiled_file(rt: HostRuntime) -> Result<(), Fail> {
    let alloc = rt.alloc();
    let network = network_of(alloc, &ROW)?;
    let mut files = MemFiles::new(alloc);
    files.fail_append("NEW", 2)?;
    assert_eq!(rt;
        compile_file(alloc, network, &mut files, "NEW"),
        Err(EncodeStop::WriteFault)
    );
    assert_eq!(rt; held(alloc, &mut files, "NEW"), Some(52));
    Ok(())
}

#[test]
fn networks_are_compiled(rt: HostRuntime) -> Result<(), Fail> {
    let alloc = rt.alloc();
    let mut files = SafeFiles::new(alloc);
    compiled(alloc, &SMALLEST_ONE, &mut files)?;
    assert_eq!(rt;
        read_whole(alloc, &mut files, "NEW", 1_000)?.as_slice(),
        SMALLEST_TWO.as_slice()
    );
    compiled(alloc, &ROW, &mut files)?;
    let value = read_network_file(alloc, &mut files, "NEW")?;
    assert_eq!(rt; (value.network.nodes, value.network.arcs.len()), (3, 2));
    assert_eq!(rt;
        (value.network.stops.len(), value.network.trips.len()),
        (2, 1)
    );
    // There is no change of trips.
    assert_eq!(rt; value.shortcuts.len(), 0);
    Ok(())
}
