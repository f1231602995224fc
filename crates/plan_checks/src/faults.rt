// Reads and writes that fail, one after another, and what the output holds then.
use crate::sample::{FILES, PLAN, ROWS, run_words, sample, sample_without};
use move_files::{MemSink, Sink};
use move_model::{Cause, FileKind, Refusal};
use std::alloc::Global;
use std::process::Abort;
use std::test::Fail;
use top_call::Status;

const KINDS: [FileKind; 7] = [
    FileKind::Stops,
    FileKind::CalendarDates,
    FileKind::Trips,
    FileKind::StopTimes,
    FileKind::Gr,
    FileKind::StopNodes,
    FileKind::Queries,
];

// The status of the sample where the nth read of a file fails. Unless all is done, nothing is sent.
fn run_failing_read(rt: &impl Abort, alloc: Global, name: &str, nth: u64) -> Result<Status, Fail> {
    let mut files = sample(alloc)?;
    files.fail_read(name, nth)?;
    let mut out = MemSink::new(alloc);
    let mut err = MemSink::new(alloc);
    let status = run_words(alloc, PLAN, &mut files, &mut out, &mut err)?;
    assert!(rt; status == Status::Done || out.taken().is_empty());
    Ok(status)
}

#[test]
fn each_failing_read_is_a_fault_of_its_file(rt: HostRuntime) -> Result<(), Fail> {
    let alloc = rt.alloc();
    for i in 0..7 {
        let mut done = false;
        for nth in 1..99 {
            let status = run_failing_read(&rt, alloc, FILES[i].0, nth)?;
            if status == Status::Done {
                done = nth > 2;
                break;
            }
            assert_eq!(rt; status, Status::ReadFault(KINDS[i]));
        }
        assert!(rt; done);
    }
    Ok(())
}

// The status of the sample where the nth write of ten bytes fails. What is sent is a prefix of its rows.
fn run_failing_write(rt: &impl Abort, alloc: Global, nth: u64) -> Result<Status, Fail> {
    let mut files = sample(alloc)?;
    let mut out = MemSink::new(alloc);
    out.piece(10);
    out.fail_write(nth)?;
    let mut err = MemSink::new(alloc);
    let status = run_words(alloc, PLAN, &mut files, &mut out, &mut err)?;
    assert!(rt; ROWS.starts_with(out.taken()));
    assert!(rt; out.taken().len() as u64 / 10 < nth);
    if status != Status::Done {
        assert_eq!(rt; err.taken(), b"write fault\n".as_slice());
    }
    Ok(status)
}

#[test]
fn each_failing_write_leaves_a_prefix(rt: HostRuntime) -> Result<(), Fail> {
    let alloc = rt.alloc();
    let mut done = false;
    for nth in 1..99 {
        let status = run_failing_write(&rt, alloc, nth)?;
        if status == Status::Done {
            done = nth > 30;
            break;
        }
        assert_eq!(rt; status, Status::WriteFault);
    }
    assert!(rt; done);
    Ok(())
}

// The line of a refused run where the nth write of five bytes to the error stream fails.
fn run_failing_line(rt: &impl Abort, alloc: Global, nth: u64) -> Result<MemSink, Fail> {
    let mut files = sample(alloc)?;
    files.put("base.gr", b"p sp 4 5\n")?;
    let mut out = MemSink::new(alloc);
    let mut err = MemSink::new(alloc);
    err.piece(5);
    err.fail_write(nth)?;
    let status = run_words(alloc, PLAN, &mut files, &mut out, &mut err)?;
    let refusal = Refusal {
        file: FileKind::Gr,
        row: 1,
        cause: Cause::Count(0),
    };
    assert_eq!(rt; status, Status::Refused(refusal));
    assert_eq!(rt; out.taken(), b"".as_slice());
    Ok(err)
}

const REFUSED: &[u8] = b"refused: GR row 1: count 0\n";

#[test]
fn a_failing_write_of_the_line_changes_no_status(rt: HostRuntime) -> Result<(), Fail> {
    let alloc = rt.alloc();
    let mut whole = false;
    for nth in 1..9 {
        let err = run_failing_line(&rt, alloc, nth)?;
        assert!(rt; REFUSED.starts_with(err.taken()));
        if err.taken() == REFUSED {
            whole = nth > 5;
            break;
        }
    }
    assert!(rt; whole);
    Ok(())
}

#[test]
fn a_file_of_trips_that_fails_or_is_missing(rt: HostRuntime) -> Result<(), Fail> {
    let alloc = rt.alloc();
    let mut files = sample(alloc)?;
    files.fail_read("base/trips.txt", 2)?;
    let mut out = MemSink::new(alloc);
    let mut err = MemSink::new(alloc);
    let status = run_words(alloc, PLAN, &mut files, &mut out, &mut err)?;
    assert_eq!(rt; status, Status::ReadFault(FileKind::Trips));
    assert_eq!(rt; err.taken(), b"read fault: trips.txt\n".as_slice());
    let mut files = sample_without(alloc, "base/trips.txt")?;
    let mut err = MemSink::new(alloc);
    let status = run_words(alloc, PLAN, &mut files, &mut out, &mut err)?;
    assert_eq!(rt; status, Status::NoFile(FileKind::Trips));
    assert_eq!(rt; err.taken(), b"no file: trips.txt\n".as_slice());
    assert_eq!(rt; out.taken(), b"".as_slice());
    Ok(())
}

#[test]
fn old_bytes_of_the_output_stay(rt: HostRuntime) -> Result<(), Fail> {
    let alloc = rt.alloc();
    let mut files = sample(alloc)?;
    let mut out = MemSink::new(alloc);
    let mut err = MemSink::new(alloc);
    assert_eq!(rt; out.write(b"old\n"), Ok(4));
    assert_eq!(rt;
        run_words(alloc, "plan", &mut files, &mut out, &mut err)?,
        Status::Usage
    );
    assert_eq!(rt; out.taken(), b"old\n".as_slice());
    assert_eq!(rt;
        run_words(alloc, PLAN, &mut files, &mut out, &mut err)?,
        Status::Done
    );
    assert!(rt; out.taken().starts_with(b"old\nquery,"));
    assert!(rt; out.taken().ends_with(ROWS));
    assert_eq!(rt; out.taken().len(), 4 + ROWS.len());
    Ok(())
}
