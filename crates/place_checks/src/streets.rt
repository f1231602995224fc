use move_model::{Arc, Arcs, Cause, FileKind, NoMemory, NodeNo, Refusal, Stopped};
use std::alloc::Global;
use std::test::Fail;
use street_graph::{Graph, Half, Point, read_co, read_gr};

// The refusal of a text of `.gr`, if it is refused.
fn gr_refusal(alloc: Global, text: &[u8]) -> Option<Refusal> {
    if text.len() > 1000 {
        return None;
    }
    match read_gr(alloc, text) {
        Err(Stopped::Refused(refusal)) => Some(refusal),
        _ => None,
    }
}

// The refusal of a text of `.co`, if it is refused.
fn co_refusal(alloc: Global, text: &[u8], nodes: u32) -> Option<Refusal> {
    if text.len() > 1000 {
        return None;
    }
    match read_co(alloc, text, nodes) {
        Err(Stopped::Refused(refusal)) => Some(refusal),
        _ => None,
    }
}

fn refused(file: FileKind, row: u32, cause: Cause) -> Option<Refusal> {
    Some(Refusal { file, row, cause })
}

// A text of `.gr`, and the row and the cause of its refusal.
type GrRow = (&'static [u8], u32, Cause);

const GR_REFUSED: [GrRow; 25] = [
    (
        b"p sp 4 5\na 2 3 240\na 3 2 240\na 1 4 7200\na 4 1 7200\n",
        1,
        Cause::Count(4),
    ),
    (
        b"p sp 4 4\na 0 3 240\na 3 2 240\na 1 4 7200\na 4 1 7200\n",
        2,
        Cause::Vertex(0),
    ),
    (
        b"p sp 4 4\na 2 3 1000001\na 3 2 240\na 1 4 7200\n",
        2,
        Cause::Weight(1_000_001),
    ),
    (
        b"p sp 4 3\na 2 3 240\na 3 2 240\na 1 4 7200\na 4 1 7200\n",
        1,
        Cause::Count(4),
    ),
    (b"p sp 4 4\na 2 5 240\n", 2, Cause::Vertex(5)),
    (b"p sp 4 4\na 9 0 1000001\n", 2, Cause::Vertex(9)),
    (b"", 0, Cause::Line),
    (b"c no graph\n\n", 0, Cause::Line),
    (b"c\n\n \t\np sp 1 0\np sp 0 9\n", 5, Cause::Line),
    (b"a 1 1 1\np sp 1 1\n", 1, Cause::Line),
    (b"p sp 0 0\n", 1, Cause::Limit(0)),
    (b"p sp 2000001 8000001\n", 1, Cause::Limit(2_000_001)),
    (b"p sp 2000000 8000001\n", 1, Cause::Limit(8_000_001)),
    (b"p sp 2000000 8000000\n", 1, Cause::Count(0)),
    (b"p sp 1 0\r", 1, Cause::Line),
    (b"p sp 1 0\n\r", 2, Cause::Line),
    (b"p sp 1 0\r\r\n", 1, Cause::Line),
    (b"p sp 1\n", 1, Cause::Line),
    (b"p sp 1 0 0\n", 1, Cause::Line),
    (b"p co 1 0\n", 1, Cause::Line),
    (b"p sp 1 -1\n", 1, Cause::Line),
    (b"p sp 18446744073709551615 0\n", 1, Cause::Limit(u64::MAX)),
    (b"p sp 18446744073709551616 0\n", 1, Cause::Line),
    (b"p sp 000000000000000000001 0\n", 1, Cause::Line),
    (b"p sp 1 1\nA 1 1 1\n", 2, Cause::Line),
];

#[test]
fn refuses_graphs(rt: HostRuntime) {
    for (i, (text, row, cause)) in GR_REFUSED.iter().enumerate() {
        let want = refused(FileKind::Gr, *row, *cause);
        assert_eq!(rt; gr_refusal(rt.alloc(), text), want, "row {i}");
    }
}

// The two ends of an arc and its seconds.
type ArcRow = (u32, u32, u32);

fn are_arcs(arcs: &[Arc], rows: &[ArcRow]) -> bool {
    for (arc, (from, to, seconds)) in arcs.iter().zip(rows) {
        if arc.from.0 != *from || arc.to.0 != *to || arc.seconds != *seconds {
            return false;
        }
    }
    arcs.len() == rows.len()
}

fn are_halves(halves: &[Half], rows: &[(u32, u32)]) -> bool {
    for (half, (to, seconds)) in halves.iter().zip(rows) {
        if half.to.0 != *to || half.seconds != *seconds {
            return false;
        }
    }
    halves.len() == rows.len()
}

fn is_base(graph: &Graph) -> bool {
    graph.nodes() == 2
        && are_arcs(graph.arcs(), &[(2, 1, 1_000_000), (1, 1, 0), (1, 2, 7)])
        && are_halves(graph.out(NodeNo(1)), &[(1, 0), (2, 7)])
}

fn reads_base(alloc: Global) -> Option<bool> {
    let text =
        b"c base\r\n\tp  sp 00000000000000000002 3 \r\n\na 2\t1 1000000\n c\na 1 1 0\na 1 2 07";
    let graph = read_gr(alloc, text).ok()?;
    Some(is_base(&graph))
}

#[test]
fn reads_graphs(rt: HostRuntime) {
    assert_eq!(rt; reads_base(rt.alloc()), Some(true));
}

fn nodes_of_one(alloc: Global) -> Result<u32, NoMemory> {
    let none = Arcs::new(alloc);
    let single = Graph::new(alloc, 1, &none)?;
    Ok(single.nodes())
}

#[test]
fn makes_a_graph_without_arcs(rt: HostRuntime) -> Result<(), Fail> {
    assert_eq!(rt; nodes_of_one(rt.alloc())?, 1);
    Ok(())
}

// A text of `.co`, the number of vertices, and the row and the cause of its refusal.
type CoRow = (&'static [u8], u32, u32, Cause);

const CO_REFUSED: [CoRow; 37] = [
    (b"", 3, 0, Cause::Line),
    (b"c no places\n\n \t\n", 3, 0, Cause::Line),
    (b"v 1 0 0\np aux sp co 1\n", 1, 1, Cause::Line),
    (b"p aux sp co 1\np aux sp co 9\n", 1, 2, Cause::Line),
    (b"p sp co 1\n", 1, 1, Cause::Line),
    (b"p aux co 1\n", 1, 1, Cause::Line),
    (b"p aux sp gr 1\n", 1, 1, Cause::Line),
    (b"p aux sp co\n", 1, 1, Cause::Line),
    (b"p aux sp co 1 1\n", 1, 1, Cause::Line),
    (b"p aux sp co -1\n", 1, 1, Cause::Line),
    (b"p aux sp co 1\r", 1, 1, Cause::Line),
    (b"p aux sp co 18446744073709551616\n", 1, 1, Cause::Line),
    (
        b"p aux sp co 18446744073709551615\n",
        1,
        1,
        Cause::Count(u64::MAX),
    ),
    (
        b"p aux sp co 4294967297\n",
        1,
        1,
        Cause::Count(4_294_967_297),
    ),
    (b"p aux sp co 3\n", 2, 1, Cause::Count(3)),
    (b"\nc\np aux sp co 2\nv 2 0 0\n", 2, 3, Cause::Count(1)),
    (b"p aux sp co 1\n", 1, 1, Cause::Count(0)),
    (b"p aux sp co 1\nV 1 0 0\n", 1, 2, Cause::Line),
    (b"p aux sp co 1\nv 1 0\n", 1, 2, Cause::Line),
    (b"p aux sp co 1\nv 1 0 0 0\n", 1, 2, Cause::Line),
    (b"p aux sp co 1\nv -1 0 0\n", 1, 2, Cause::Line),
    (b"p aux sp co 1\nv 1 +1 0\n", 1, 2, Cause::Line),
    (b"p aux sp co 1\nv 1 - 0\n", 1, 2, Cause::Line),
    (b"p aux sp co 1\nv 1 --1 0\n", 1, 2, Cause::Line),
    (b"p aux sp co 1\nv 1 0 1.5\n", 1, 2, Cause::Line),
    (
        b"p aux sp co 1\nv 1 -18446744073709551616 0\n",
        1,
        2,
        Cause::Line,
    ),
    (
        b"p aux sp co 1\nv 1 -18446744073709551615 0\n",
        1,
        2,
        Cause::Coordinate,
    ),
    (b"p aux sp co 1\nv 0 0 0\n", 1, 2, Cause::Vertex(0)),
    (b"p aux sp co 1\nv 2 180000001 0\n", 1, 2, Cause::Vertex(2)),
    (
        b"p aux sp co 2\nv 1 0 0\nv 1 180000001 0\n",
        2,
        3,
        Cause::Repeated,
    ),
    (
        b"p aux sp co 2\nv 1 0 0\nv 2 0 0\nv 1 0 0\n",
        2,
        4,
        Cause::Repeated,
    ),
    (b"p aux sp co 1\nv 1 180000001 0\n", 1, 2, Cause::Coordinate),
    (
        b"p aux sp co 1\nv 1 -180000001 0\n",
        1,
        2,
        Cause::Coordinate,
    ),
    (b"p aux sp co 1\nv 1 0 90000001\n", 1, 2, Cause::Coordinate),
    (b"p aux sp co 1\nv 1 0 -90000001\n", 1, 2, Cause::Coordinate),
    (
        b"p aux sp co 1\nv 1 60170000 100000000\n",
        1,
        2,
        Cause::Coordinate,
    ),
    (b"p aux sp co 0\nv 1 0 0\n", 0, 2, Cause::Vertex(1)),
];

#[test]
fn refuses_coordinates(rt: HostRuntime) {
    for (i, (text, nodes, row, cause)) in CO_REFUSED.iter().enumerate() {
        let want = refused(FileKind::Co, *row, *cause);
        assert_eq!(rt; co_refusal(rt.alloc(), text, *nodes), want, "row {i}");
    }
}

// A text of `.co` for three vertices, and the latitude and the longitude of each.
type PointsRow = (&'static [u8], [(i32, i32); 3]);

const READ: [PointsRow; 2] = [
    (
        b"p aux sp co 3\nv 1 24940000 60170000\nv 2 24955000 60160000\nv 3 24947000 60165000\n",
        [
            (60_170_000, 24_940_000),
            (60_160_000, 24_955_000),
            (60_165_000, 24_947_000),
        ],
    ),
    (
        b"c edges\r\n\tp  aux sp\tco 00000000000000000003 \r\n\nv 3 -0 00\nv 2 -180000000\t90000000\n c v 1\nv 01 180000000 -90000000",
        [
            (-90_000_000, 180_000_000),
            (90_000_000, -180_000_000),
            (0, 0),
        ],
    ),
];

fn are_points(points: &[Point], rows: &[(i32, i32)]) -> bool {
    for (point, (lat, lon)) in points.iter().zip(rows) {
        if point.lat != *lat || point.lon != *lon {
            return false;
        }
    }
    points.len() == rows.len()
}

fn reads(alloc: Global, text: &[u8], rows: &[(i32, i32)]) -> Option<bool> {
    if text.len() > 1000 {
        return None;
    }
    let points = read_co(alloc, text, 3).ok()?;
    Some(are_points(points.as_slice(), rows))
}

#[test]
fn reads_coordinates(rt: HostRuntime) {
    for (i, (text, rows)) in READ.iter().enumerate() {
        assert_eq!(rt; reads(rt.alloc(), text, rows), Some(true), "row {i}");
    }
}
