// What is told of words and files that are wrong.
use crate::sample::{PLAN, USAGE, run_words, sample};
use move_files::MemSink;
use std::alloc::Global;
use std::process::Abort;
use std::test::Fail;
use top_call::Status;

/// Words, a file in place of the sample's, and the line.
type Wrong = (&'static str, &'static str, &'static [u8], &'static [u8]);

const WRONG: [Wrong; 22] = [
    ("plan base", "", b"", USAGE),
    ("plan base base.gr - 20250230 1000 q.csv", "", b"", USAGE),
    (
        "plan gone base.gr - 20250303 1000 q.csv",
        "",
        b"",
        b"no file: stops.txt\n",
    ),
    (
        "plan base base.gr base.co 20250303 1000 q.csv",
        "",
        b"",
        b"no file: CO\n",
    ),
    (
        "plan base base.gr base.co 20250303 1000 q.csv",
        "base.co",
        b"p aux sp co 3\n",
        b"refused: CO row 1: count 3\n",
    ),
    (
        "plan base base.gr base.co 20250303 1000 q.csv",
        "base.gr",
        b"p sp 4 5\n",
        b"refused: GR row 1: count 0\n",
    ),
    (
        PLAN,
        "base.gr",
        b"p sp 4 5\na 2 3 240\na 3 2 240\na 1 4 7200\na 4 1 7200\n",
        b"refused: GR row 1: count 4\n",
    ),
    (
        PLAN,
        "base.gr",
        b"p sp 4 4\na 0 3 240\na 3 2 240\na 1 4 7200\na 4 1 7200\n",
        b"refused: GR row 2: vertex 0\n",
    ),
    (
        PLAN,
        "base.gr",
        b"p sp 4 4\na 2 3 1000001\na 3 2 240\na 1 4 7200\na 4 1 7200\n",
        b"refused: GR row 2: weight 1000001\n",
    ),
    (
        PLAN,
        "base/calendar.txt",
        b"service_id,monday,tuesday,wednesday,thursday,friday,saturday,sunday,start_date,end_date\nw,1,0,0,0,0,0,0,20250230,20251231\n",
        b"refused: calendar.txt row 1: date\n",
    ),
    (
        "plan base gone.gr - 20250303 1000 q.csv",
        "base/trips.txt",
        b"trip_id\n",
        b"refused: trips.txt row 0: no column service_id\n",
    ),
    (
        "plan base gone.gr - 20250303 1000 gone.csv",
        "",
        b"",
        b"no file: GR\n",
    ),
    (
        PLAN,
        "base/stop_nodes.txt",
        b"stop_id,node\nA,1\nB,2\nC,3\n",
        b"refused: stops.txt row 4: no place\n",
    ),
    (
        PLAN,
        "base/trips.txt",
        b"trip_id\n",
        b"refused: trips.txt row 0: no column service_id\n",
    ),
    (
        PLAN,
        "q.csv",
        b"kind,from,to,first,last,trips\nat,node:1,node:4,07:55:00,,2\nat,node:1,node:4,07:55:00,,2\nat,stop:X,node:4,07:55:00,,2\nat,node:1,node:4,07:55:00,,2\nat,node:1,node:4,07:55:00,,2\n",
        b"refused: QUERIES row 3: unknown stop\n",
    ),
    (
        PLAN,
        "q.csv",
        b"kind,from,to,first,last,trips\nrange,node:1,node:4,00:00:00,24:00:00,2\n",
        b"refused: QUERIES row 1: window 86401\n",
    ),
    (
        PLAN,
        "q.csv",
        b"kind,from,to,first,last,trips\nrange,node:1,node:4,08:00:00,07:59:59,2\n",
        b"refused: QUERIES row 1: window 0\n",
    ),
    (
        PLAN,
        "q.csv",
        b"kind,from,to,first,last,trips\nby,node:1,node:4,08:00:00,,2\n",
        b"refused: QUERIES row 1: unbuilt\n",
    ),
    (
        "plan base base.gr - 20250303 1000 q.csv 3601",
        "",
        b"",
        USAGE,
    ),
    (
        PLAN,
        "base/stop_times.txt",
        b"trip_id,arrival_time,departure_time,stop_id,stop_sequence\nt1,08:00:00,08:00:00,A,1\nt1,08:10:00,08:10:00,B,2\nt2,08:15:00,08:15:00,C,1\nt2,08:30:00,",
        b"refused: stop_times.txt row 4: number\n",
    ),
    (
        PLAN,
        "base/stop_times.txt",
        b"trip_id,arrival_time,departure_time,stop_id,stop_sequence\nt1,08:00:00,08:00:00,A,1\nt1,08:10:00,08:10:00,B,2\nt2,08:15:00,08:15:00,C,1\nt",
        b"refused: stop_times.txt row 4: unknown trip\n",
    ),
    (
        PLAN,
        "base/stop_times.txt",
        b"",
        b"refused: stop_times.txt row 0: no column trip_id\n",
    ),
];

// Sees that the line is told, and that nothing is sent.
fn expect_line(rt: &impl Abort, alloc: Global, wrong: &Wrong) -> Result<(), Fail> {
    let (words, name, bytes, line) = *wrong;
    let mut files = sample(alloc)?;
    if !name.is_empty() {
        files.put(name, bytes)?;
    }
    let mut out = MemSink::new(alloc);
    let mut err = MemSink::new(alloc);
    let status = run_words(alloc, words, &mut files, &mut out, &mut err)?;
    assert_ne!(rt; status, Status::Done);
    assert_eq!(rt; out.taken(), b"".as_slice());
    assert_eq!(rt; err.taken(), line);
    Ok(())
}

#[test]
fn tells_what_is_wrong(rt: HostRuntime) -> Result<(), Fail> {
    for wrong in &WRONG {
        expect_line(&rt, rt.alloc(), wrong)?;
    }
    Ok(())
}

// The commands that are not built.
const UNBUILT: [&str; 4] = [
    "compile base base.gr - 20250303 1000 base.net",
    "answer base.net q.csv",
    "migrate base.net new.net",
    "audit base.net",
];

#[test]
fn tells_the_usage_of_commands_that_are_not_built(rt: HostRuntime) -> Result<(), Fail> {
    for words in UNBUILT {
        expect_line(&rt, rt.alloc(), &(words, "", b"", USAGE))?;
    }
    Ok(())
}
