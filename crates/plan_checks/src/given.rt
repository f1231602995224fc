// The words that the system gives, and the exit numbers.
ghost use Rattle.std.specs.Prelude.{◌≡◌, ◌<◌};

use crate::sample::{ROWS, USAGE, sample};
use move_files::{Files, MemSink, Sink};
use move_model::{Cause, FileKind, Refusal};
use std::alloc::Global;
use std::env::FillError;
use std::marker::Brand;
use std::process::Abort;
use std::rt::Env;
use std::sync::ledger::{Blank, Ledger};
use std::test::Fail;
use steps::Steps;
use top_call::{Status, exit_number, run_program};

// The words of a system, with the program's name before them.
#[derive(Drop)]
struct Given(&'static [&'static [u8]]);

impl Env for Given {
    fn arg(&self, i: usize, buf: &mut [u8]) -> Result<usize, FillError> {
        if i >= self.0.len() {
            return Err(FillError::NotPresent);
        }
        let word = self.0[i];
        if word.len() > buf.len() {
            return Err(FillError::TooLong);
        }
        buf[..word.len()].copy_from_slice(word);
        Ok(word.len())
    }

    fn var(&self, _name: &str, _buf: &mut [u8]) -> Result<usize, FillError> {
        Err(FillError::NotPresent)
    }

    fn var_at(&self, _i: usize, _buf: &mut [u8]) -> Result<usize, FillError> {
        Err(FillError::NotPresent)
    }
}

fn run_counted<F: Files, O: Sink, E: Sink, L: Ledger, M: Ledger>(
    given: &(Given, Global),
    files: &mut F,
    out: &mut O,
    err: &mut E,
    searches: Blank,
    opens: Blank,
) -> Status
    requires searches_name { searches.name ≡ L.name }
    requires searches_parts { searches.parts ≡ L.parts }
    requires searches_some { 0 < searches.parts }
    requires opens_name { opens.name ≡ M.name }
    requires opens_parts { opens.parts ≡ M.parts }
    requires opens_some { 0 < opens.parts }
{
    let mut searches = Steps::<L>::new(searches);
    let mut opens = Steps::<M>::new(opens);
    run_program(given, files, out, err, &mut searches, &mut opens)
}

// Sees how a run over the sample ends, with these words.
fn expect(
    rt: &impl Abort,
    alloc: Global,
    words: &'static [&'static [u8]],
    ends: Status,
    rows: &[u8],
    line: &[u8],
) -> Result<(), Fail> {
    let mut files = sample(alloc)?;
    let mut out = MemSink::new(alloc);
    let mut err = MemSink::new(alloc);
    let status = run_counted::<_, _, _, Brand, Brand>(
        &(Given(words), alloc),
        &mut files,
        &mut out,
        &mut err,
        Blank::new(1),
        Blank::new(1),
    );
    assert_eq!(rt; status, ends);
    assert_eq!(rt; out.taken(), rows);
    assert_eq!(rt; err.taken(), line);
    Ok(())
}

const WORDS: &[&[u8]] = &[
    b"planner",
    b"plan",
    b"base",
    b"base.gr",
    b"-",
    b"20250303",
    b"1000",
    b"q.csv",
];

const NOT_TEXT: &[&[u8]] = &[
    b"planner",
    b"plan",
    b"base",
    b"base.gr",
    b"-",
    b"20250303",
    b"1000",
    b"q\xFF.csv",
];

#[test]
fn runs_the_words_of_the_system(rt: HostRuntime) -> Result<(), Fail> {
    let alloc = rt.alloc();
    expect(&rt, alloc, WORDS, Status::Done, ROWS, b"")?;
    expect(&rt, alloc, NOT_TEXT, Status::Usage, b"", USAGE)?;
    expect(&rt, alloc, &[], Status::Usage, b"", USAGE)
}

const REFUSAL: Refusal = Refusal {
    file: FileKind::Gr,
    row: 1,
    cause: Cause::Line,
};

const EXITS: [(Status, u8); 7] = [
    (Status::Done, 0),
    (Status::Usage, 2),
    (Status::Refused(REFUSAL), 3),
    (Status::NoFile(FileKind::Gr), 4),
    (Status::ReadFault(FileKind::Gr), 5),
    (Status::WriteFault, 6),
    (Status::NoMemory, 7),
];

#[test]
fn each_status_has_its_exit_number(rt: HostRuntime) -> Result<(), Fail> {
    for (status, number) in EXITS {
        assert_eq!(rt; exit_number(status), number);
    }
    Ok(())
}
