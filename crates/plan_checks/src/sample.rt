// The sample: four stops, two trips, four vertices and four arcs.
ghost use Rattle.std.specs.Prelude.{◌≡◌, ◌<◌};

use move_files::{Files, MemFiles, Sink};
use std::alloc::Global;
use std::marker::Brand;
use std::sync::ledger::{Blank, Ledger};
use std::test::Fail;
use steps::Steps;
use top_call::{Status, run};

/// A file: its name and its bytes.
pub type File = (&'static str, &'static [u8]);

/// The words of a plan over the sample.
pub const PLAN: &str = "plan base base.gr - 20250303 1000 q.csv";

/// The sample's files, in the order in which they are read.
pub const FILES: [File; 7] = [
    ("base/stops.txt", b"stop_id\nA\nB\nC\nD\n"),
    (
        "base/calendar_dates.txt",
        b"service_id,date,exception_type\nw,20250303,1\n",
    ),
    ("base/trips.txt", b"service_id,trip_id\nw,t1\nw,t2\n"),
    (
        "base/stop_times.txt",
        b"trip_id,arrival_time,departure_time,stop_id,stop_sequence\nt1,08:00:00,08:00:00,A,1\nt1,08:10:00,08:10:00,B,2\nt2,08:15:00,08:15:00,C,1\nt2,08:30:00,08:30:00,D,2\n",
    ),
    (
        "base.gr",
        b"p sp 4 4\na 2 3 240\na 3 2 240\na 1 4 7200\na 4 1 7200\n",
    ),
    ("base/stop_nodes.txt", b"stop_id,node\nA,1\nB,2\nC,3\nD,4\n"),
    (
        "q.csv",
        b"kind,from,to,first,last,trips\nat,node:1,node:4,07:55:00,,2\n",
    ),
];

/// The rows of the sample, with their header.
pub const ROWS: &[u8] =
    b"query,journey,kind,id,from,from_at,to,to_at,start,end,arrive\n1,1,pair,0,node:1,1,node:4,4,07:55:00,,09:55:00\n1,1,walk,,,1,,4,07:55:00,09:55:00,\n1,2,pair,2,node:1,1,node:4,4,07:55:00,,08:30:00\n1,2,ride,t1,A,1,B,2,08:00:00,08:10:00,\n1,2,walk,,,2,,3,08:10:00,08:14:00,\n1,2,ride,t2,C,3,D,4,08:15:00,08:30:00,\n";

/// The line of words that are no command.
pub const USAGE: &[u8] =
    b"usage: planner plan FEED GR CO DATE SCALE QUERIES [BUFFER] | compile FEED GR CO DATE SCALE NET [BUFFER] | answer NET QUERIES | migrate OLD NEW | audit NET | city SIDE LINES NUMBER\n";

/// The sample's files, but for one of them, read in pieces of ten bytes at most.
pub fn sample_without(alloc: Global, missing: &str) -> Result<MemFiles, Fail> {
    let mut files = MemFiles::new(alloc);
    files.piece(10);
    for (name, bytes) in FILES {
        if name != missing {
            files.put(name, bytes)?;
        }
    }
    Ok(files)
}

/// The sample's files, read in pieces of ten bytes at most.
pub fn sample(alloc: Global) -> Result<MemFiles, Fail> {
    sample_without(alloc, "")
}

fn run_counted<F: Files, O: Sink, E: Sink, L: Ledger, M: Ledger>(
    alloc: Global,
    words: &[String],
    files: &mut F,
    out: &mut O,
    err: &mut E,
    searches: Blank,
    opens: Blank,
) -> Status
    requires searches_name { searches.name ≡ L.name }
    requires searches_parts { searches.parts ≡ L.parts }
    requires searches_some { 0 < searches.parts }
    requires opens_name { opens.name ≡ M.name }
    requires opens_parts { opens.parts ≡ M.parts }
    requires opens_some { 0 < opens.parts }
{
    let mut searches = Steps::<L>::new(searches);
    let mut opens = Steps::<M>::new(opens);
    run(alloc, words, files, out, err, &mut searches, &mut opens)
}

// A word, behind the folder of the test where it is the name of a file or a feed.
fn word_in(alloc: Global, root: &str, word: &str) -> Result<String, Fail> {
    let named = word.starts_with("base") || word.starts_with("hel") || word == "q.csv";
    let mut text = String::from_str(alloc, if named { root } else { "" })?;
    text.push_str(word)?;
    Ok(text)
}

/// Runs words over files in a folder, with counters that nobody reads.
pub fn run_in<F: Files, O: Sink, E: Sink>(
    alloc: Global,
    root: &str,
    words: &str,
    files: &mut F,
    out: &mut O,
    err: &mut E,
) -> Result<Status, Fail> {
    let mut list = Vec::new(alloc);
    for word in words.split(' ') {
        list.push(word_in(alloc, root, word)?)?;
    }
    Ok(run_counted::<F, O, E, Brand, Brand>(
        alloc,
        &list,
        files,
        out,
        err,
        Blank::new(1),
        Blank::new(1),
    ))
}

/// Runs words over files.
pub fn run_words<F: Files, O: Sink, E: Sink>(
    alloc: Global,
    words: &str,
    files: &mut F,
    out: &mut O,
    err: &mut E,
) -> Result<Status, Fail> {
    run_in(alloc, "", words, files, out, err)
}
