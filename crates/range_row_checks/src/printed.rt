// The text of the rows of a range.
use crate::sample::{answer, network};
use journey_print::{LeastArcs, PrintStop};
use move_files::MemSink;
use range_print::{RangeAnswer, write_range, write_range_with};
use std::alloc::Global;
use std::process::Abort;
use std::test::Fail;

const WALK_AND_SPAN: &[u8] = b"\
1,1,foot,7200,node:1,1,node:4,4,07:00:00,09:00:00,
1,1,walk,,,1,,4,07:00:00,09:00:00,
1,2,span,2,node:1,1,node:4,4,07:00:00,08:00:00,08:30:00
1,2,ride,t1,A,1,B,2,08:00:00,08:10:00,
1,2,walk,,,2,,3,08:10:00,08:14:00,
1,2,ride,t2,C,3,D,4,08:15:00,08:30:00,
";

const SPAN: &[u8] = b"\
1,1,span,2,node:1,1,node:4,4,07:00:00,08:00:00,08:30:00
1,1,ride,t1,A,1,B,2,08:00:00,08:10:00,
1,1,walk,,,2,,3,08:10:00,08:14:00,
1,1,ride,t2,C,3,D,4,08:15:00,08:30:00,
";

const WALK: &[u8] = b"\
1,1,foot,7200,node:1,1,node:4,4,07:00:00,09:00:00,
1,1,walk,,,1,,4,07:00:00,09:00:00,
";

const NOTHING: &[u8] = b"1,0,none,,node:1,1,node:4,4,07:00:00,09:00:00,\n";

// Whether there is a walk, whether there are rides, and the rows.
const CASES: [(bool, bool, &[u8]); 4] = [
    (true, true, WALK_AND_SPAN),
    (false, true, SPAN),
    (true, false, WALK),
    (false, false, NOTHING),
];

fn expect_rows(
    rt: &impl Abort,
    alloc: Global,
    answer: &RangeAnswer,
    rows: &[u8],
) -> Result<(), Fail> {
    let network = network(alloc)?;
    let mut out = MemSink::new(alloc);
    let sent = write_range(alloc, &network, 1, answer, &mut out);
    assert_eq!(rt; sent, Ok(()));
    assert_eq!(rt; out.taken(), rows);
    Ok(())
}

#[test]
fn rows(rt: HostRuntime) -> Result<(), Fail> {
    let alloc = rt.alloc();
    for (walks, rides, rows) in CASES {
        let answer = answer(alloc, walks, rides)?;
        expect_rows(&rt, alloc, &answer, rows)?;
    }
    Ok(())
}

// What is sent where the second write of ten bytes fails.
fn expect_part(rt: &impl Abort, alloc: Global, answer: &RangeAnswer) -> Result<(), Fail> {
    let network = network(alloc)?;
    let arcs = LeastArcs::new(alloc, network.arcs.as_slice())?;
    let mut out = MemSink::new(alloc);
    out.piece(10);
    out.fail_write(2)?;
    let sent = write_range_with(alloc, &network, &arcs, 1, answer, &mut out);
    assert_eq!(rt; sent, Err(PrintStop::WriteFault));
    assert_eq!(rt; out.taken(), b"1,0,none,,".as_slice());
    Ok(())
}

#[test]
fn failing_write(rt: HostRuntime) -> Result<(), Fail> {
    let alloc = rt.alloc();
    let nothing = answer(alloc, false, false)?;
    expect_part(&rt, alloc, &nothing)
}
