// The command of a generated city.
use crate::sample::{USAGE, run_words, sample};
use move_files::MemSink;
use std::alloc::Global;
use std::process::Abort;
use std::test::Fail;
use top_call::Status;

const SMALL: &[u8] =
    b"vertices 25\narcs 80\nstops 0\ntrips 0\nshortcuts 0\nqueries 20\npairs 16\nspans 0\narrivals 437241\n";

const WORKED: &[u8] =
    b"vertices 1600\narcs 6240\nstops 120\ntrips 560\nshortcuts 161\nqueries 20\npairs 31\nspans 38\narrivals 2052186\n";

// Words, how their run ends, what it sends and the line that it tells. A city has 5 to 200 rows, 0 to 200 lines, and a number
// below 2^64.
const CITIES: [(&str, Status, &[u8], &[u8]); 8] = [
    ("city 5 0 1", Status::Done, SMALL, b""),
    ("city 40 12 7", Status::Done, WORKED, b""),
    ("city 4 0 1", Status::Usage, b"", USAGE),
    ("city 5 201 1", Status::Usage, b"", USAGE),
    ("city 5 0", Status::Usage, b"", USAGE),
    ("city 5 0 1 1", Status::Usage, b"", USAGE),
    ("city 201 0 1", Status::Usage, b"", USAGE),
    ("city 5 0 18446744073709551616", Status::Usage, b"", USAGE),
];

// Sees how a run with these words ends.
fn expect(
    rt: &impl Abort,
    alloc: Global,
    words: &str,
    ends: Status,
    lines: &[u8],
    line: &[u8],
) -> Result<(), Fail> {
    let mut files = sample(alloc)?;
    let mut out = MemSink::new(alloc);
    let mut err = MemSink::new(alloc);
    let status = run_words(alloc, words, &mut files, &mut out, &mut err)?;
    assert_eq!(rt; status, ends);
    assert_eq!(rt; out.taken(), lines);
    assert_eq!(rt; err.taken(), line);
    Ok(())
}

#[test]
fn sends_the_lines_of_a_city(rt: HostRuntime) -> Result<(), Fail> {
    for (words, ends, lines, line) in CITIES {
        expect(&rt, rt.alloc(), words, ends, lines, line)?;
    }
    Ok(())
}

#[test]
fn a_failed_write_ends_a_city(rt: HostRuntime) -> Result<(), Fail> {
    let alloc = rt.alloc();
    let mut files = sample(alloc)?;
    let mut out = MemSink::new(alloc);
    out.piece(10);
    out.fail_write(2)?;
    let mut err = MemSink::new(alloc);
    let status = run_words(alloc, "city 5 0 1", &mut files, &mut out, &mut err)?;
    assert_eq!(rt; status, Status::WriteFault);
    assert_eq!(rt; out.taken(), b"vertices 2".as_slice());
    assert_eq!(rt; err.taken(), b"write fault\n".as_slice());
    Ok(())
}
