// Cities whose parts were worked out apart from the program.
use crate::sums::sums;
use city_maker::{Generated, city};
use std::test::Fail;

// A city of a table's row.
#[derive(Clone, Copy)]
struct Row {
    side: u32,
    lines: u32,
    number: u64,
    counts: [usize; 4],
    sums: [u64; 4],
}

const ROWS: [Row; 4] = [
    Row {
        side: 5,
        lines: 0,
        number: 1,
        counts: [80, 0, 0, 20],
        sums: [1_043_139, 0, 0, 18_543_124],
    },
    Row {
        side: 40,
        lines: 12,
        number: 7,
        counts: [6240, 120, 560, 20],
        sums: [67_416_953_019, 6_724_550, 1_385_437_269_425, 19_927_024],
    },
    Row {
        side: 7,
        lines: 3,
        number: 18_446_744_073_709_551_615,
        counts: [168, 6, 176, 20],
        sums: [5_363_292, 746, 7_309_137_832, 18_637_880],
    },
    Row {
        side: 200,
        lines: 200,
        number: 5,
        counts: [159_200, 10_000, 10_312, 20],
        sums: [
            1_016_598_021_466_140,
            962_437_892_550,
            12_453_494_468_892_795,
            31_287_698,
        ],
    },
];

// How many arcs, stops, trips and queries a city has.
fn counts(city: &Generated) -> [usize; 4] {
    let network = &city.network;
    [
        network.arcs.len(),
        network.stops.len(),
        network.trips.len(),
        city.queries.len(),
    ]
}

#[test]
fn makes_the_cities_of_the_table(rt: HostRuntime) -> Result<(), Fail> {
    for row in ROWS {
        assert!(rt; 5 <= row.side && row.side <= 200 && row.lines <= 200);
        let city = city(rt.alloc(), row.side, row.lines, row.number)?;
        assert_eq!(rt; city.network.nodes, row.side * row.side);
        assert_eq!(rt; counts(&city), row.counts);
        assert_eq!(rt; sums(&city), row.sums);
    }
    Ok(())
}

#[test]
fn names_stops_and_trips(rt: HostRuntime) -> Result<(), Fail> {
    let city = city(rt.alloc(), 40, 12, 7)?;
    let stops = [
        (0, b"L0_0".as_slice()),
        (1, b"L0_1"),
        (10, b"L1_0"),
        (119, b"L11_9"),
    ];
    for (place, name) in stops {
        let found = city
            .network
            .stops
            .get(place)
            .map(|stop| stop.name.as_slice());
        assert_eq!(rt; found, Some(name));
    }
    let trips = [(0, b"L6F0".as_slice()), (1, b"L6B0"), (559, b"L8B29")];
    for (place, name) in trips {
        let found = city
            .network
            .trips
            .get(place)
            .map(|trip| trip.name.as_slice());
        assert_eq!(rt; found, Some(name));
    }
    Ok(())
}
