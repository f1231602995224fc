// The answers to one query over the sample with other files in place of some of its own.
use crate::cases::{AGENCY, BUFFERS, Case, FEEDS, STREETS};
use crate::sample::{FILES, File, PLAN, run_in};
use move_files::{DiskFiles, Files, MemFiles, MemSink};
use std::alloc::Global;
use std::fs;
use std::process::Abort;
use std::rt::Files as SystemFiles;
use std::test::Fail;
use top_call::Status;

const HEADER: &[u8] = b"query,journey,kind,id,from,from_at,to,to_at,start,end,arrive\n";

fn put<F: Files>(
    alloc: Global,
    root: &str,
    held: &mut F,
    name: &str,
    bytes: &[u8],
) -> Result<(), Fail> {
    let mut path = String::from_str(alloc, root)?;
    path.push_str(name)?;
    held.begin(path.as_str())?;
    held.append(path.as_str(), bytes)?;
    Ok(())
}

// Puts the sample with other files in place of some of its own, and a query.
fn put_all<F: Files>(
    alloc: Global,
    root: &str,
    held: &mut F,
    files: &[(&str, &[u8])],
    query: &[u8],
) -> Result<(), Fail> {
    for (name, bytes) in FILES {
        put(alloc, root, held, name, bytes)?;
    }
    for (name, bytes) in files {
        put(alloc, root, held, name, bytes)?;
    }
    let mut text = b"kind,from,to,first,last,trips\n".to_vec(alloc)?;
    text.extend_from_slice(query)?;
    put(alloc, root, held, "q.csv", text.as_slice())
}

// Sees that a plan gives these rows behind the header.
fn expect_plan<F: Files, R: Abort>(
    rt: &R,
    alloc: Global,
    root: &str,
    words: &str,
    held: &mut F,
    rows: &[u8],
) -> Result<(), Fail> {
    let mut out = MemSink::new(alloc);
    let mut err = MemSink::new(alloc);
    let status = run_in(alloc, root, words, held, &mut out, &mut err)?;
    assert_eq!(rt; err.taken(), b"".as_slice());
    assert_eq!(rt; status, Status::Done);
    assert!(rt; out.taken().starts_with(HEADER));
    assert!(rt; out.taken().ends_with(rows));
    assert_eq!(rt; out.taken().len(), HEADER.len() + rows.len());
    Ok(())
}

fn make_folder<R: SystemFiles>(
    rt: &R,
    alloc: Global,
    root: &str,
    folder: &str,
) -> Result<(), Fail> {
    let mut path = String::from_str(alloc, root)?;
    path.push_str(folder)?;
    fs::create_dir_all(rt, path.as_str())?;
    Ok(())
}

// Sees that a case gives its rows over files on the disk, in a folder that is made for it.
fn expect_on_disk<R: Abort + Alloc + SystemFiles>(
    rt: &R,
    alloc: Global,
    root: &str,
    case: &Case,
) -> Result<(), Fail> {
    let (words, files, query, rows) = *case;
    let _ = fs::remove_dir_all(rt, root);
    make_folder(rt, alloc, root, "base")?;
    make_folder(rt, alloc, root, "hel")?;
    let mut held = DiskFiles::new(rt);
    put_all(alloc, root, &mut held, files, query)?;
    expect_plan(rt, alloc, root, words, &mut held, rows)?;
    fs::remove_dir_all(rt, root)?;
    Ok(())
}

/// Sees that a case gives its rows over files in memory.
pub fn expect_in_memory<R: Abort>(rt: &R, alloc: Global, case: &Case) -> Result<(), Fail> {
    let (words, files, query, rows) = *case;
    let mut held = MemFiles::new(alloc);
    put_all(alloc, "", &mut held, files, query)?;
    expect_plan(rt, alloc, "", words, &mut held, rows)
}

#[test]
fn answers_over_streets_and_trips(rt: HostRuntime) -> Result<(), Fail> {
    for case in &STREETS {
        expect_in_memory(&rt, rt.alloc(), case)?;
    }
    expect_on_disk(&rt, rt.alloc(), "checked_streets/", &STREETS[0])
}

#[test]
fn answers_over_feeds(rt: HostRuntime) -> Result<(), Fail> {
    for case in &FEEDS {
        expect_in_memory(&rt, rt.alloc(), case)?;
        expect_on_disk(&rt, rt.alloc(), "checked_feeds/", case)?;
    }
    Ok(())
}

#[test]
fn keeps_the_buffer(rt: HostRuntime) -> Result<(), Fail> {
    for case in &BUFFERS {
        expect_in_memory(&rt, rt.alloc(), case)?;
    }
    Ok(())
}

#[test]
fn answers_over_a_feed_of_an_agency(rt: HostRuntime) -> Result<(), Fail> {
    for case in &AGENCY {
        expect_in_memory(&rt, rt.alloc(), case)?;
        expect_on_disk(&rt, rt.alloc(), "checked_agency/", case)?;
    }
    Ok(())
}

#[test]
fn numbers_the_queries_from_one(rt: HostRuntime) -> Result<(), Fail> {
    let alloc = rt.alloc();
    let mut held = MemFiles::new(alloc);
    put_all(
        alloc,
        "",
        &mut held,
        &[],
        b"at,stop:B,stop:A,08:12:00,,2\nat,node:1,node:4,08:00:01,,2\n",
    )?;
    expect_plan(
        &rt,
        alloc,
        "",
        PLAN,
        &mut held,
        b"1,0,none,,stop:B,2,stop:A,1,08:12:00,,\n2,1,pair,0,node:1,1,node:4,4,08:00:01,,10:00:01\n2,1,walk,,,1,,4,08:00:01,10:00:01,\n",
    )
}

// The first trip calls at E and at B, and both transfers reach C at the same second. The one that leaves the trip earlier is
// the shortcut.
const TWO_TRANSFERS: [File; 4] = [
    ("base/stops.txt", b"stop_id\nA\nB\nC\nD\nE\n"),
    (
        "base/stop_times.txt",
        b"trip_id,arrival_time,departure_time,stop_id,stop_sequence\nt1,08:00:00,08:00:00,A,1\nt1,08:08:00,08:08:00,E,2\nt1,08:10:00,08:10:00,B,3\nt2,08:15:00,08:15:00,C,1\nt2,08:30:00,08:30:00,D,2\n",
    ),
    (
        "base.gr",
        b"p sp 5 5\na 2 3 240\na 3 2 240\na 1 4 7200\na 4 1 7200\na 5 3 360\n",
    ),
    (
        "base/stop_nodes.txt",
        b"stop_id,node\nA,1\nB,2\nC,3\nD,4\nE,5\n",
    ),
];

const BY_THE_EARLIER_STOP: &[u8] =
    b"1,1,pair,0,node:1,1,node:4,4,07:55:00,,09:55:00\n1,1,walk,,,1,,4,07:55:00,09:55:00,\n1,2,pair,2,node:1,1,node:4,4,07:55:00,,08:30:00\n1,2,ride,t1,A,1,E,5,08:00:00,08:08:00,\n1,2,walk,,,5,,3,08:08:00,08:14:00,\n1,2,ride,t2,C,3,D,4,08:15:00,08:30:00,\n";

#[test]
fn goes_by_the_shortcut_of_two_equal_transfers(rt: HostRuntime) -> Result<(), Fail> {
    let alloc = rt.alloc();
    let mut held = MemFiles::new(alloc);
    put_all(
        alloc,
        "",
        &mut held,
        &TWO_TRANSFERS,
        b"at,node:1,node:4,07:55:00,,2",
    )?;
    expect_plan(&rt, alloc, "", PLAN, &mut held, BY_THE_EARLIER_STOP)
}
