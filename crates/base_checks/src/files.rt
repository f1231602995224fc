// What no clause says: that calls succeed, in which call a planned failure comes, and what is left behind it.
ghost use Rattle.std.specs.Prelude.{◌^◌, ◌≤◌};

use move_files::{
    DiskFiles, Files, MemFiles, MemSink, ReadFail, ReadStop, SafeFiles, SafeSink, Sink, StdSink,
    WriteFail, read_whole, write_whole,
};
use std::alloc::Global;
use std::io;
use std::io::Write;
use std::process::Abort;
use std::test::Fail;

// A writer that takes nothing.
#[derive(Drop)]
struct Full;

impl Write for Full {
    fn write(&mut self, _buf: &[u8]) -> io::Result<usize> {
        Ok(0)
    }

    fn flush(&mut self) -> io::Result<()> {
        Ok(())
    }
}

fn reads<F: Files>(
    rt: &impl Abort,
    alloc: Global,
    files: &mut F,
    name: &str,
    limit: u64,
    want: Result<&[u8], ReadStop>,
)
    requires { limit ≤ 2 ^ 50 }
{
    match (read_whole(alloc, files, name, limit), want) {
        (Ok(bytes), Ok(held)) => assert_eq!(rt; bytes.as_slice(), held, "at {limit}"),
        (Err(stop), Err(wanted)) => assert_eq!(rt; stop, wanted, "at {limit}"),
        _ => assert!(rt; false, "at {limit}"),
    }
}

#[test]
fn whole_files(rt: HostRuntime) -> Result<(), Fail> {
    let alloc = rt.alloc();
    let text = b"twenty-five bytes of text";
    let mut files = SafeFiles::new(alloc);
    files.put("five", b"12345")?;
    files.put("text", text)?;
    files.put("empty", b"")?;
    files.piece(10);
    reads(&rt, alloc, &mut files, "text", 25, Ok(text));
    reads(&rt, alloc, &mut files, "five", 5, Ok(b"12345"));
    reads(&rt, alloc, &mut files, "empty", 0, Ok(b""));
    for (name, limit, stop) in [
        ("five", 3, ReadStop::TooLong(4)),
        ("text", 24, ReadStop::TooLong(25)),
        ("none", 24, ReadStop::Missing),
    ] {
        reads(&rt, alloc, &mut files, name, limit, Err(stop));
    }
    Ok(())
}

#[test]
fn failing_reads(rt: HostRuntime) -> Result<(), Fail> {
    let alloc = rt.alloc();
    let mut files = MemFiles::new(alloc);
    files.put("a", b"12345")?;
    files.put("b", b"1")?;
    files.piece(2);
    files.fail_read("a", 3)?;
    files.fail_read("none", 1)?;
    reads(&rt, alloc, &mut files, "none", 9, Err(ReadStop::Missing));
    reads(&rt, alloc, &mut files, "b", 9, Ok(b"1"));
    reads(&rt, alloc, &mut files, "a", 9, Err(ReadStop::ReadFault));
    reads(&rt, alloc, &mut files, "a", 9, Ok(b"12345"));
    Ok(())
}

#[test]
fn failing_begins_and_appends(rt: HostRuntime) -> Result<(), Fail> {
    let alloc = rt.alloc();
    let mut files = MemFiles::new(alloc);
    files.fail_append("a", 2)?;
    files.fail_begin("a", 2)?;
    assert_eq!(rt; files.append("a", b"12"), Ok(()));
    assert_eq!(rt; files.append("b", b"9"), Ok(()));
    assert_eq!(rt; files.append("a", b"34"), Err(WriteFail::Failed));
    assert_eq!(rt; files.append("a", b"56"), Ok(()));
    reads(&rt, alloc, &mut files, "a", 9, Ok(b"1256"));
    assert_eq!(rt; files.begin("a"), Ok(()));
    reads(&rt, alloc, &mut files, "a", 9, Ok(b""));
    assert_eq!(rt; files.append("a", b"7"), Ok(()));
    assert_eq!(rt; files.begin("a"), Err(WriteFail::Failed));
    reads(&rt, alloc, &mut files, "a", 9, Ok(b"7"));
    reads(&rt, alloc, &mut files, "b", 9, Ok(b"9"));
    Ok(())
}

#[test]
fn whole_texts(rt: HostRuntime) -> Result<(), Fail> {
    let alloc = rt.alloc();
    let mut safe = SafeSink::new(alloc);
    safe.piece(2);
    assert_eq!(rt; write_whole(&mut safe, b"12345"), Ok(()));
    assert_eq!(rt; safe.taken(), b"12345".as_slice());
    let mut sink = MemSink::new(alloc);
    sink.piece(2);
    sink.fail_write(3)?;
    assert_eq!(rt; write_whole(&mut sink, b"12345"), Err(WriteFail::Failed));
    assert_eq!(rt; sink.taken(), b"1234".as_slice());
    assert_eq!(rt; write_whole(&mut sink, b"5"), Ok(()));
    assert_eq!(rt; sink.taken(), b"12345".as_slice());
    let mut full = StdSink::new(Full);
    assert_eq!(rt; write_whole(&mut full, b"1"), Err(WriteFail::Failed));
    Ok(())
}

#[test]
fn disk(rt: HostRuntime) -> Result<(), Fail> {
    let alloc = rt.alloc();
    let mut files = DiskFiles::new(rt.clone()?);
    reads(
        &rt,
        alloc,
        &mut files,
        "no-such-folder/file",
        9,
        Err(ReadStop::Missing),
    );
    reads(&rt, alloc, &mut files, ".", 9, Err(ReadStop::ReadFault));
    assert_eq!(rt; files.begin("no-such-folder/file"), Err(WriteFail::Failed));
    assert_eq!(rt;
        files.append("no-such-folder/file", b"1"),
        Err(WriteFail::Failed)
    );
    let mut buf = [0; 4];
    let read = files.read_at("no-such-folder/file", 0, &mut buf);
    assert_eq!(rt; read, Err(ReadFail::Missing));
    Ok(())
}
