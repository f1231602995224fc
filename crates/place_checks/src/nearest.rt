use move_model::{NoMemory, NodeNo};
use std::alloc::Global;
use std::test::Fail;
use stop_match::*;
use street_graph::{Point, Points};

/// A point as (latitude, longitude).
type PointRow = (i32, i32);

fn points_of(alloc: Global, rows: &[PointRow]) -> Result<Points, NoMemory> {
    let mut points = Points::new(alloc);
    for (lat, lon) in rows {
        points.push(Point {
            lat: *lat,
            lon: *lon,
        })?;
    }
    Ok(points)
}

/// The number of the vertex nearest to a place, or 0 where there are no points.
fn number_at(alloc: Global, points: &Points, at: PointRow, scale: u16) -> Result<u32, NoMemory> {
    if points.is_empty() || scale > 1000 {
        return Ok(0);
    }
    let grid = Grid::new(alloc, points)?;
    let NodeNo(number) = nearest(&grid, at.0, at.1, u32::from(scale));
    Ok(number)
}

// Points, a place, a scale, and the number of the vertex nearest to the place.
type Row = (&'static [PointRow], PointRow, u16, u32);

const POLES: [PointRow; 2] = [(-90_000_000, -180_000_000), (90_000_000, 180_000_000)];

const ROWS: [Row; 9] = [
    (&[(10, 0), (-10, 0)], (0, 0), 1000, 1),
    (&[(0, 20), (11, 0)], (0, 0), 500, 1),
    (&[(5, 0), (4, 180_000_000)], (0, 0), 0, 2),
    // at the ends
    (&[(7, 7)], (-90_000_000, 180_000_000), 1000, 1),
    (&POLES, (0, 0), 1000, 1),
    (&POLES, (1, 0), 1000, 2),
    (&POLES, (0, 1), 1000, 2),
    (&POLES, (0, 1), 0, 1),
    (
        &[(i32::MIN, i32::MIN), (i32::MAX, i32::MAX)],
        (0, 0),
        1000,
        2,
    ),
];

fn near(alloc: Global, row: Row) -> Result<u32, NoMemory> {
    let points = points_of(alloc, row.0)?;
    number_at(alloc, &points, row.1, row.2)
}

#[test]
fn finds_the_nearest(rt: HostRuntime) -> Result<(), Fail> {
    for (i, row) in ROWS.iter().enumerate() {
        assert_eq!(rt; near(rt.alloc(), *row)?, row.3, "row {i}");
    }
    Ok(())
}

/// Numbers that look like chance.
#[derive(Drop)]
struct Numbers {
    state: u64,
}

impl Numbers {
    fn next(&mut self) -> u32 {
        self.state = self
            .state
            .wrapping_mul(6_364_136_223_846_793_005)
            .wrapping_add(1_442_695_040_888_963_407);
        (self.state >> 33) as u32
    }

    /// A place on a square of sixteen by sixteen.
    fn place(&mut self) -> PointRow {
        let lat = self.next() % 16;
        let lon = self.next() % 16;
        (lat as i32 - 8, lon as i32 - 8)
    }
}

fn square(weight: u16, a: i32, b: i32) -> u128 {
    let size = u64::from(weight).wrapping_mul(u64::from(a.abs_diff(b)));
    u128::from(size).wrapping_mul(u128::from(size))
}

/// The first of the points of the least square, by looking at each.
fn plain_number(points: &[Point], at: PointRow, scale: u16) -> u32 {
    let mut least = u128::MAX;
    let mut first = 0u32;
    let mut number = 0u32;
    for point in points {
        number = number.wrapping_add(1);
        let here = square(1000, at.0, point.lat).wrapping_add(square(scale, at.1, point.lon));
        if here < least {
            least = here;
            first = number;
        }
    }
    first
}

fn places(alloc: Global, numbers: &mut Numbers, count: u32) -> Result<Points, NoMemory> {
    let mut points = Points::new(alloc);
    for _ in 0..count {
        let (lat, lon) = numbers.place();
        points.push(Point { lat, lon })?;
    }
    Ok(points)
}

fn differences_at(
    alloc: Global,
    points: &Points,
    numbers: &mut Numbers,
    scale: u16,
) -> Result<u32, NoMemory> {
    let mut differences = 0u32;
    for _ in 0..30 {
        let at = numbers.place();
        if number_at(alloc, points, at, scale)? != plain_number(points.as_slice(), at, scale) {
            differences = differences.wrapping_add(1);
        }
    }
    Ok(differences)
}

/// How many of thirty places have another nearest vertex than the plain minimum, over so many points.
fn differences(alloc: Global, count: u32, scale: u16) -> Result<u32, NoMemory> {
    let mut numbers = Numbers {
        state: u64::from(count),
    };
    let points = places(alloc, &mut numbers, count)?;
    differences_at(alloc, &points, &mut numbers, scale)
}

// How many differ at each of three scales.
fn differences_over(alloc: Global, count: u32) -> Result<[u32; 3], NoMemory> {
    Ok([
        differences(alloc, count, 0)?,
        differences(alloc, count, 1)?,
        differences(alloc, count, 1000)?,
    ])
}

#[test]
fn agrees_with_the_plain_minimum(rt: HostRuntime) -> Result<(), Fail> {
    for count in [1u32, 7, 8, 9, 64, 65, 600] {
        assert_eq!(rt;
            differences_over(rt.alloc(), count)?,
            [0, 0, 0],
            "{count} points"
        );
    }
    Ok(())
}
