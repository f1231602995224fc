// Tables of files and of where the stops then stand.
ghost use Rattle.std.specs.Prelude.{◌≡◌, ◌≤◌, IfOk, length};

use gtfs_feed::{FeedStop, FeedStops};
use move_model::{Cause, FileKind, Name, NoMemory, Stop, Stopped, Stops};
use std::alloc::Global;
use std::test::Fail;
use stop_match::Grid;
use stop_places::{Near, place_stops};
use street_graph::{Point, Points};

// The vertices of three stops, or the file, the row and the cause of a refusal.
type Outcome = Result<(u32, u32, u32), (FileKind, u32, Cause)>;

// A of row 1 has no coordinates; B of row 2 and C of row 4 have some.
fn stops(alloc: Global) -> Result<FeedStops, NoMemory> {
    let mut stops = FeedStops::new(alloc);
    let rows = [
        (b"A", 1, None, None),
        (b"B", 2, Some(9), Some(0)),
        (b"C", 4, Some(2), Some(8)),
    ];
    for (id, row, lat, lon) in rows {
        let name = Name::from_slice(alloc, id)?;
        stops.push(FeedStop {
            name,
            lat,
            lon,
            row,
        })?;
    }
    Ok(stops)
}

fn point(lat: i32, lon: i32) -> Point {
    Point { lat, lon }
}

// The points of four vertices.
fn points(alloc: Global) -> Result<Points, NoMemory>
    ensures { IfOk result (λ points. length points ≡ 4) }
{
    Points::from_slice(
        alloc,
        &[point(0, 0), point(10, 0), point(0, 10), point(-50, -50)],
    )
}

fn grid(alloc: Global) -> Result<Grid, NoMemory>
    ensures { IfOk result (λ grid. length grid ≡ 4) }
{
    let points = points(alloc)?;
    Grid::new(alloc, &points)
}

// Places the stops among four vertices with points.
fn place_near(
    alloc: Global,
    stops: &[FeedStop],
    text: Option<&[u8]>,
    scale: u32,
) -> Result<Stops, Stopped>
    requires { scale ≤ 1000 }
{
    match grid(alloc) {
        Ok(grid) => place_stops(alloc, text, stops, 4, Some(Near { grid: &grid, scale })),
        Err(_) => Err(Stopped::NoMemory),
    }
}

// Places the stops among four vertices, which have points where there is a scale.
fn place(
    alloc: Global,
    stops: &[FeedStop],
    text: Option<&[u8]>,
    scale: Option<u16>,
) -> Result<Stops, Stopped> {
    match scale {
        Some(scale) => place_near(alloc, stops, text, u32::from(scale.min(1000))),
        None => place_stops(alloc, text, stops, 4, None),
    }
}

fn nodes_of(stops: &[Stop]) -> Option<(u32, u32, u32)> {
    match stops {
        [a, b, c] => Some((a.node.0, b.node.0, c.node.0)),
        _ => None,
    }
}

fn outcome_of(placed: Result<Stops, Stopped>) -> Option<Outcome> {
    match placed {
        Ok(stops) => Some(Ok(nodes_of(stops.as_slice())?)),
        Err(Stopped::Refused(refusal)) => Some(Err((refusal.file, refusal.row, refusal.cause))),
        Err(Stopped::NoMemory) => None,
    }
}

// A table or none, a scale or no points, and what comes of them.
type Row = (Option<&'static [u8]>, Option<u16>, Outcome);

fn outcome(alloc: Global, row: Row) -> Result<Option<Outcome>, NoMemory> {
    let stops = stops(alloc)?;
    Ok(outcome_of(place(alloc, stops.as_slice(), row.0, row.1)))
}

const PLACED: [Row; 7] = [
    // The nearest vertex; without longitudes the first and the third are as near to C.
    (Some(b"stop_id,node\nA,4\n"), Some(1000), Ok((4, 2, 3))),
    (Some(b"stop_id,node\nA,4\n"), Some(0), Ok((4, 2, 1))),
    // A stop that is named stands where the table says, whatever its coordinates.
    (
        Some(b"stop_id,node\nA,1\nB,4\nC,4\n"),
        Some(1000),
        Ok((1, 4, 4)),
    ),
    (Some(b"stop_id,node\nA,1\nB,4\nC,4\n"), None, Ok((1, 4, 4))),
    (Some(b"stop_id,node\nC,1\nA,4\n"), Some(1000), Ok((4, 2, 1))),
    // Marks, ends of lines, quotes, columns in another order, more columns, blanks, leading zeros.
    (
        Some(b"\xEF\xBB\xBFstop_id,node\r\n\"A\",\"4\"\r\n"),
        Some(1000),
        Ok((4, 2, 3)),
    ),
    (
        Some(b"note, node\t,stop_id,node\nx, 004 ,\tA,5,more\n"),
        Some(1000),
        Ok((4, 2, 3)),
    ),
];

#[test]
fn places(rt: HostRuntime) -> Result<(), Fail> {
    for (i, row) in PLACED.iter().enumerate() {
        assert_eq!(rt; outcome(rt.alloc(), *row)?, Some(row.2), "row {i}");
    }
    Ok(())
}

const REFUSED: [Row; 11] = [
    (
        Some(b""),
        None,
        Err((FileKind::StopNodes, 0, Cause::NoColumn(0))),
    ),
    (
        Some(b"node\n1\n"),
        None,
        Err((FileKind::StopNodes, 0, Cause::NoColumn(0))),
    ),
    (
        Some(b"stop_id\nD\n"),
        None,
        Err((FileKind::StopNodes, 0, Cause::NoColumn(1))),
    ),
    (
        Some(b"stop_id,node\n,1\n"),
        None,
        Err((FileKind::StopNodes, 1, Cause::IdEmpty)),
    ),
    (
        Some(b"stop_id,node\nA\xFF,1\n"),
        None,
        Err((FileKind::StopNodes, 1, Cause::NotUtf8)),
    ),
    (
        Some(b"stop_id,node\nA,1\nD,x\n"),
        None,
        Err((FileKind::StopNodes, 2, Cause::UnknownStop)),
    ),
    (
        Some(b"stop_id,node\nA,1\nB,1\nA,x\n"),
        None,
        Err((FileKind::StopNodes, 3, Cause::Repeated)),
    ),
    (
        Some(b"stop_id,node\nA\n"),
        None,
        Err((FileKind::StopNodes, 1, Cause::Number)),
    ),
    (
        Some(b"stop_id,node\nA,-1\n"),
        None,
        Err((FileKind::StopNodes, 1, Cause::Number)),
    ),
    (
        Some(b"stop_id,node\nA,0\n"),
        None,
        Err((FileKind::StopNodes, 1, Cause::Vertex(0))),
    ),
    (
        Some(b"stop_id,node\nA,4\nB,5\nB,4\n"),
        None,
        Err((FileKind::StopNodes, 2, Cause::Vertex(5))),
    ),
];

#[test]
fn refuses_tables(rt: HostRuntime) -> Result<(), Fail> {
    for (i, row) in REFUSED.iter().enumerate() {
        assert_eq!(rt; outcome(rt.alloc(), *row)?, Some(row.2), "row {i}");
    }
    Ok(())
}

const WITHOUT_PLACE: [Row; 5] = [
    // Neither a row nor coordinates, or a row but no points, or no table.
    (
        Some(b"stop_id,node\n"),
        Some(1000),
        Err((FileKind::Stops, 1, Cause::NoPlace)),
    ),
    (
        Some(b"stop_id,node\nB,1\nC,1\n"),
        Some(1000),
        Err((FileKind::Stops, 1, Cause::NoPlace)),
    ),
    (
        Some(b"stop_id,node\nA,1\n"),
        None,
        Err((FileKind::Stops, 2, Cause::NoPlace)),
    ),
    (
        Some(b"stop_id,node\nB,1\nA,1\n"),
        None,
        Err((FileKind::Stops, 4, Cause::NoPlace)),
    ),
    (None, Some(1000), Err((FileKind::Stops, 1, Cause::NoPlace))),
];

#[test]
fn refuses_stops_without_a_place(rt: HostRuntime) -> Result<(), Fail> {
    for (i, row) in WITHOUT_PLACE.iter().enumerate() {
        assert_eq!(rt; outcome(rt.alloc(), *row)?, Some(row.2), "row {i}");
    }
    Ok(())
}
