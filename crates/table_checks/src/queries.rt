// Tables of files and of what is read from them, by the worked rows of the format.
use move_model::{
    Arcs, Cause, FileKind, Name, Network, NoMemory, NodeNo, Query, Stop, Stopped, Stops, Trips,
};
use query_table::read_queries;
use std::alloc::Global;
use std::process::Abort;
use std::test::Fail;

// Four vertices, and a stop at each: A, B, C and D.
fn network(alloc: Global) -> Result<Network, NoMemory> {
    let mut stops = Stops::new(alloc);
    for (node, id) in [(1, b"A"), (2, b"B"), (3, b"C"), (4, b"D")] {
        let name = Name::from_slice(alloc, id)?;
        stops.push(Stop {
            node: NodeNo(node),
            name,
        })?;
    }
    Ok(Network {
        nodes: 4,
        arcs: Arcs::new(alloc),
        stops,
        trips: Trips::new(alloc),
        buffer: 0,
    })
}

// Asserts that a file gives so many queries, or is refused at this row for this cause.
fn assert_read<R: Abort>(
    rt: &R,
    alloc: Global,
    text: &[u8],
    wanted: Result<usize, (u32, Cause)>,
) -> Result<(), NoMemory> {
    let network = network(alloc)?;
    assert!(rt; text.len() < 2_000_000);
    let outcome = match read_queries(alloc, text, &network) {
        Ok(queries) => Ok(queries.len()),
        Err(Stopped::Refused(refusal)) => {
            assert_eq!(rt; refusal.file, FileKind::Queries);
            Err((refusal.row, refusal.cause))
        }
        Err(Stopped::NoMemory) => return Err(NoMemory),
    };
    assert_eq!(rt; outcome, wanted, "in {text:?}");
    Ok(())
}

#[test]
fn accepts(rt: HostRuntime) -> Result<(), Fail> {
    let accepted = [
        (b"kind,from,to,first,last,trips".as_slice(), 0),
        (b"kind,from,to,first,last,trips\n", 0),
        (
            b"kind,from,to,first,last,trips\nat,stop:A,stop:D,08:00:00,,3",
            1,
        ),
        // The first and the last accepted value of each field.
        (
            b"kind,from,to,first,last,trips\nat,node:1,node:4,0:00:00,,0\nat,node:04,node:0001,999:59:59,,16\n",
            2,
        ),
        (
            b"kind,from,to,first,last,trips\nat,stop:A,stop:A,00:00:00,,00000000000000000016\n",
            1,
        ),
        // Marks, ends of lines, quotes, empty lines.
        (
            b"\xEF\xBB\xBFkind,from,to,first,last,trips\r\nat,stop:A,stop:D,08:00:00,,3\r\n",
            1,
        ),
        (
            b"\xEF\xBB\xBF\xEF\xBB\xBFkind,from,to,first,last,trips\nat,stop:A,stop:D,08:00:00,,3\n",
            1,
        ),
        (
            b"\"kind\",\"from\",to,first,last,trips\n\"at\",\"stop:A\",\"stop:D\",\"08:00:00\",\"\",\"3\"\n",
            1,
        ),
        (
            b"kind,from,to,first,last,trips\n\nat,stop:A,stop:D,08:00:00,,3\n\n\nat,stop:B,stop:D,08:00:00,,3\n",
            2,
        ),
        // Columns in another order, a short record, more columns, more fields, blanks, a name that stands twice.
        (
            b"trips,kind,from,to,first,last\n3,at,stop:A,node:4,08:00:00\n",
            1,
        ),
        (
            b"note,kind,from,to,first,last,trips\nx,at,stop:A,node:4,08:00:00,,3,more,fields\n",
            1,
        ),
        (
            b" kind\t,from ,\tto,first,last,trips\nat\t, stop:A ,stop:D\t,\t08:00:00, ,3 \t\n",
            1,
        ),
        (
            b"kind,from,to,first,last,trips,kind,trips\nat,stop:A,stop:D,08:00:00,,3,walk,17\n",
            1,
        ),
        // A window of one second, and the longest.
        (
            b"kind,from,to,first,last,trips\nrange,stop:A,stop:D,08:00:00,08:00:00,3\nrange,stop:A,stop:D,08:00:00,31:59:59,3\n",
            2,
        ),
        // The last second of a query at one second is not read.
        (
            b"kind,from,to,first,last,trips\nat,stop:A,stop:D,08:00:00,never,3\n",
            1,
        ),
    ];
    for (text, count) in accepted.iter() {
        assert_read(&rt, rt.alloc(), text, Ok(*count))?;
    }
    Ok(())
}

#[test]
fn refuses(rt: HostRuntime) -> Result<(), Fail> {
    let refused = [
        (b"".as_slice(), 0, Cause::NoColumn(0)),
        (b"\xEF\xBB\xBF\n\n", 0, Cause::NoColumn(0)),
        (b"from,to,first,last,trips\n", 0, Cause::NoColumn(0)),
        (
            b"kind,source,to,first,last,trips\nwalk\n",
            0,
            Cause::NoColumn(1),
        ),
        (b"kind,from,first,last,trips\n", 0, Cause::NoColumn(2)),
        (b"kind,from,to,last,trips\n", 0, Cause::NoColumn(3)),
        (b"kind,from,to,first,trips\n", 0, Cause::NoColumn(4)),
        (b"kind,from,to,first,last,Trips\n", 0, Cause::NoColumn(5)),
        (
            b"kind,from,to,first,last,trips\nwalk,stop:A,stop:D,08:00:00,,3\n",
            1,
            Cause::Kind,
        ),
        (b"kind,from,to,first,last,trips\n,,,,,\n", 1, Cause::Kind),
        (
            b"kind,from,to,first,last,trips\nby,stop:A,stop:D,08:00:00,,3\n",
            1,
            Cause::Unbuilt,
        ),
        (
            b"kind,from,to,first,last,trips\nreach,stop:A,stop:D,08:00:00,,3\n",
            1,
            Cause::Unbuilt,
        ),
        (
            b"kind,from,to,first,last,trips\nat,A,stop:E,08:00:00,,3\n",
            1,
            Cause::Place,
        ),
        (
            b"kind,from,to,first,last,trips\nat,node:,stop:E,08:00:00,,3\n",
            1,
            Cause::Place,
        ),
        (
            b"kind,from,to,first,last,trips\nat,node:18446744073709551616,stop:E,08:00:00,,3\n",
            1,
            Cause::Place,
        ),
        (
            b"kind,from,to,first,last,trips\nat,stop:A,Stop:D,08:00:00,,3\n",
            1,
            Cause::Place,
        ),
        (
            b"kind,from,to,first,last,trips\nat,node:0,A,08:00:00,,3\n",
            1,
            Cause::Vertex(0),
        ),
        (
            b"kind,from,to,first,last,trips\nat,stop:A,node:5,,,3\n",
            1,
            Cause::Vertex(5),
        ),
        (
            b"kind,from,to,first,last,trips\nat,node:18446744073709551615,A,,,\n",
            1,
            Cause::Vertex(18446744073709551615),
        ),
        (
            b"kind,from,to,first,last,trips\nat,stop:E,A,08:00:00,,3\n",
            1,
            Cause::UnknownStop,
        ),
        (
            b"kind,from,to,first,last,trips\nat,stop:A,stop:,08:00:00,,3\n",
            1,
            Cause::UnknownStop,
        ),
        (
            b"kind,from,to,first,last,trips\nat,stop:A,stop:D,1000:00:00,,17\n",
            1,
            Cause::Time,
        ),
        (
            b"kind,from,to,first,last,trips\nat,stop:A,stop:D,08:60:00,,3\n",
            1,
            Cause::Time,
        ),
        (
            b"kind,from,to,first,last,trips\nat,stop:A,stop:D,8:00,,3\n",
            1,
            Cause::Time,
        ),
        (
            b"kind,from,to,first,last,trips\nat,stop:A,stop:D,08:00:00,,17\n",
            1,
            Cause::Number,
        ),
        (
            b"kind,from,to,first,last,trips\nat,stop:A,stop:D,08:00:00\n",
            1,
            Cause::Number,
        ),
        (
            b"kind,from,to,first,last,trips\nat,stop:A,stop:D,08:00:00,,000000000000000000016\n",
            1,
            Cause::Number,
        ),
        // A window that ends before it begins, one that is too long, and one without an end.
        (
            b"kind,from,to,first,last,trips\nrange,stop:A,stop:D,08:00:00,07:59:59,3\n",
            1,
            Cause::Window(0),
        ),
        (
            b"kind,from,to,first,last,trips\nrange,stop:A,stop:D,08:00:00,32:00:00,17\n",
            1,
            Cause::Window(86_401),
        ),
        (
            b"kind,from,to,first,last,trips\nrange,stop:A,stop:D,08:00:00,,3\n",
            1,
            Cause::Time,
        ),
        (
            b"kind,from,to,first,last,trips\nrange,stop:A,stop:E,08:00:00,07:00:00,3\n",
            1,
            Cause::UnknownStop,
        ),
        // Of two rows with faults the first is named, and of two columns with one name the first counts.
        (
            b"kind,from,to,first,last,trips\r\n\r\nat,stop:A,stop:D,08:00:00,,3\r\nat,stop:A,stop:D,08:00:00,,x\r\nwalk,,,,,\r\n",
            2,
            Cause::Number,
        ),
        (
            b"kind,from,to,first,last,trips,kind\nwalk,stop:A,stop:D,08:00:00,,3,at\n",
            1,
            Cause::Kind,
        ),
        // Five queries, of which the third names an unknown stop.
        (
            b"kind,from,to,first,last,trips\nat,stop:A,stop:D,08:00:00,,3\nat,stop:A,stop:C,08:00:00,,3\nat,stop:A,stop:X,08:00:00,,3\nat,stop:A,stop:B,08:00:00,,3\nat,stop:B,stop:D,08:00:00,,3\n",
            3,
            Cause::UnknownStop,
        ),
    ];
    for (text, row, cause) in refused.iter() {
        assert_read(&rt, rt.alloc(), text, Err((*row, *cause)))?;
    }
    Ok(())
}

#[test]
fn counts_rows(rt: HostRuntime) -> Result<(), Fail> {
    let mut text = b"kind,from,to,first,last,trips\n".to_vec(rt.alloc())?;
    for _ in 0..100_000 {
        text.extend_from_slice(b"x\n")?;
    }
    assert_read(&rt, rt.alloc(), text.as_slice(), Err((1, Cause::Kind)))?;
    text.extend_from_slice(b"x")?;
    assert_read(
        &rt,
        rt.alloc(),
        text.as_slice(),
        Err((0, Cause::Limit(100_001))),
    )?;
    Ok(())
}

#[test]
fn keeps_values(rt: HostRuntime) -> Result<(), Fail> {
    let network = network(rt.alloc())?;
    let text = b"kind,from,to,first,last,trips\nat,stop:C , node:02,01:02:03,,5\n";
    let queries = match read_queries(rt.alloc(), text, &network) {
        Ok(queries) => queries,
        Err(stopped) => {
            assert_eq!(rt; stopped, Stopped::NoMemory);
            return Ok(());
        }
    };
    let Some(
        Query::At {
            from,
            to,
            depart,
            limit,
        },
    ) = queries.get(0)
    else {
        assert!(rt; false, "a query at one second");
        return Ok(());
    };
    assert_eq!(rt; from.node, NodeNo(3));
    assert_eq!(rt; from.word.as_slice(), b"stop:C".as_slice());
    assert_eq!(rt; to.node, NodeNo(2));
    assert_eq!(rt; to.word.as_slice(), b"node:02".as_slice());
    assert_eq!(rt; *depart, 3723);
    assert_eq!(rt; *limit, 5);
    Ok(())
}
