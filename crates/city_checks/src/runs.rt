// The lines that runs of cities send.
ghost use Rattle.std.specs.Prelude.{◌≡◌, ◌<◌, ◌≤◌};

use city_run::{CityStop, CityWords, city_words, run_city};
use move_files::{MemSink, Sink};
use std::alloc::Global;
use std::marker::Brand;
use std::process::Abort;
use std::sync::ledger::{Blank, Ledger};
use std::test::Fail;
use steps::Steps;

const SMALL: &[u8] =
    b"vertices 25\narcs 80\nstops 0\ntrips 0\nshortcuts 0\nqueries 20\npairs 16\nspans 0\narrivals 437241\n";

const WITH_LINES: &[u8] =
    b"vertices 144\narcs 528\nstops 18\ntrips 298\nshortcuts 18\nqueries 20\npairs 20\nspans 26\narrivals 1364310\n";

const WORKED: &[u8] =
    b"vertices 1600\narcs 6240\nstops 120\ntrips 560\nshortcuts 161\nqueries 20\npairs 31\nspans 38\narrivals 2052186\n";

fn run_counted<O: Sink, L: Ledger, M: Ledger>(
    alloc: Global,
    words: CityWords,
    out: &mut O,
    searches: Blank,
    opens: Blank,
) -> Result<(), CityStop>
    requires least { 5 ≤ words.side }
    requires most { words.side ≤ 200 }
    requires few { words.lines ≤ 200 }
    requires searches_name { searches.name ≡ L.name }
    requires searches_parts { searches.parts ≡ L.parts }
    requires searches_some { 0 < searches.parts }
    requires opens_name { opens.name ≡ M.name }
    requires opens_parts { opens.parts ≡ M.parts }
    requires opens_some { 0 < opens.parts }
{
    let mut searches = Steps::<L>::new(searches);
    let mut opens = Steps::<M>::new(opens);
    run_city(
        alloc,
        words.side,
        words.lines,
        words.number,
        out,
        &mut searches,
        &mut opens,
    )
}

// Runs the city that words name, with counters that nobody reads.
fn run_words(
    rt: &impl Abort,
    alloc: Global,
    words: [&str; 3],
    out: &mut MemSink,
) -> Result<(), CityStop> {
    let [side, lines, number] = words;
    let words = city_words(side, lines, number).expect(rt, "numbers of a city");
    run_counted::<MemSink, Brand, Brand>(alloc, words, out, Blank::new(1), Blank::new(1))
}

// Sees what the run of a city sends.
fn expect_lines(
    rt: &impl Abort,
    alloc: Global,
    words: [&str; 3],
    lines: &[u8],
) -> Result<(), Fail> {
    let mut out = MemSink::new(alloc);
    assert_eq!(rt; run_words(rt, alloc, words, &mut out), Ok(()));
    assert_eq!(rt; out.taken(), lines);
    Ok(())
}

#[test]
fn sends_the_lines_of_a_city_without_lines(rt: HostRuntime) -> Result<(), Fail> {
    expect_lines(&rt, rt.alloc(), ["5", "0", "1"], SMALL)
}

#[test]
fn sends_the_lines_of_a_city_with_lines(rt: HostRuntime) -> Result<(), Fail> {
    expect_lines(&rt, rt.alloc(), ["12", "6", "3"], WITH_LINES)
}

#[test]
fn sends_the_lines_of_a_city_of_1600_vertices(rt: HostRuntime) -> Result<(), Fail> {
    expect_lines(&rt, rt.alloc(), ["40", "12", "7"], WORKED)
}

#[test]
fn tells_a_failed_write(rt: HostRuntime) -> Result<(), Fail> {
    let alloc = rt.alloc();
    let mut out = MemSink::new(alloc);
    out.piece(10);
    out.fail_write(2)?;
    let ends = run_words(&rt, alloc, ["5", "0", "1"], &mut out);
    assert_eq!(rt; ends, Err(CityStop::WriteFault));
    assert_eq!(rt; out.taken(), b"vertices 2".as_slice());
    Ok(())
}
