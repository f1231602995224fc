// Feeds that are refused, and feeds that are read.
use gtfs_feed::{CopyRow, Feed, FeedBytes, FeedStop, Service, read_feed};
use move_model::{Cause, FileKind, NoMemory, Refusal, Stopped};
use std::alloc::Global;
use std::fmt::Write;
use std::test::Fail;

const LONG_ID: &[u8] =
    b"stop_id\naaaaaaaaaaaaaaaaaaaaaaaaaaaaaaaaaaaaaaaaaaaaaaaaaaaaaaaaaaaaaaaaaaaaaaaaaaaaaaaaaaaaaaaaaaaaaaaaaaaaaaaaaaaaaaaaaaaaaaaaaaaaaaaaaaaaaaaaaaaaaaaaaaaaaaaaaaaaaaaaaaaaaaaaaaaaaaaaaaaaaaaaaaaaaaaaaaaaaaaaaaaaaaaaaaaaaaaaaaaaaaaaaaaaaaaaaaaaaaaaaaaaaaaaaaaaaaaa\n";

// Four stops and a station, and two trips of two calls each.
fn base() -> FeedBytes<'static> {
    FeedBytes {
        stops: b"stop_id,location_type\nA,\nB,0\nS,1\nC,\nD,\n",
        calendar: None,
        dates: Some(b"service_id,date,exception_type\nw,20250303,1\n"),
        trips: b"service_id,trip_id\nw,t1\nw,t2\n",
        stop_times: b"trip_id,arrival_time,departure_time,stop_id,stop_sequence\nt1,08:00:00,08:00:00,A,1\nt1,08:10:00,08:10:00,B,2\nt2,08:15:00,08:15:00,C,1\nt2,08:30:00,08:30:00,D,2\n",
        frequencies: None,
    }
}

// The base with another text of one file.
fn changed(file: FileKind, text: &[u8]) -> FeedBytes<'_> {
    let base = base();
    FeedBytes {
        stops: if file == FileKind::Stops {
            text
        } else {
            base.stops
        },
        calendar: if file == FileKind::Calendar {
            Some(text)
        } else {
            base.calendar
        },
        dates: if file == FileKind::CalendarDates {
            Some(text)
        } else {
            base.dates
        },
        trips: if file == FileKind::Trips {
            text
        } else {
            base.trips
        },
        stop_times: if file == FileKind::StopTimes {
            text
        } else {
            base.stop_times
        },
        frequencies: if file == FileKind::Frequencies {
            Some(text)
        } else {
            base.frequencies
        },
    }
}

fn refusal(alloc: Global, bytes: &FeedBytes) -> Option<Refusal> {
    match read_feed(alloc, bytes) {
        Err(Stopped::Refused(refusal)) => Some(refusal),
        _ => None,
    }
}

// A text of a file that is refused, with the row and the cause.
#[derive(Clone, Copy)]
struct Refused {
    file: FileKind,
    text: &'static [u8],
    row: u32,
    cause: Cause,
}

const REFUSED: [Refused; 43] = [
    Refused {
        file: FileKind::Stops,
        text: b"",
        row: 0,
        cause: Cause::NoColumn(0),
    },
    Refused {
        file: FileKind::Stops,
        text: b"stop_name\nA\n",
        row: 0,
        cause: Cause::NoColumn(0),
    },
    Refused {
        file: FileKind::Stops,
        text: b"stop_id\n\" \"\n",
        row: 1,
        cause: Cause::IdEmpty,
    },
    Refused {
        file: FileKind::Stops,
        text: LONG_ID,
        row: 1,
        cause: Cause::IdLong(256),
    },
    Refused {
        file: FileKind::Stops,
        text: b"stop_id\nA\n\xFF\n",
        row: 2,
        cause: Cause::NotUtf8,
    },
    Refused {
        file: FileKind::Stops,
        text: b"stop_id\nA\nB\nA\n",
        row: 3,
        cause: Cause::Repeated,
    },
    Refused {
        file: FileKind::Stops,
        text: b"stop_id,location_type\nA,5\n",
        row: 1,
        cause: Cause::Number,
    },
    Refused {
        file: FileKind::Stops,
        text: b"stop_id,stop_lat,stop_lon\nA,90.0000009,180\nB,91,0\n",
        row: 2,
        cause: Cause::Coordinate,
    },
    Refused {
        file: FileKind::Stops,
        text: b"stop_id,stop_lat,stop_lon\nA,1,1.2.3\n",
        row: 1,
        cause: Cause::Coordinate,
    },
    Refused {
        file: FileKind::Calendar,
        text: b"service_id,monday,tuesday,wednesday,thursday,friday,saturday,sunday,start_date,end_date\n,0,0,0,0,0,0,1,20250101,20251231\n",
        row: 1,
        cause: Cause::IdEmpty,
    },
    Refused {
        file: FileKind::Calendar,
        text: b"service_id,monday\n",
        row: 0,
        cause: Cause::NoColumn(2),
    },
    Refused {
        file: FileKind::Calendar,
        text: b"service_id,monday,tuesday,wednesday,thursday,friday,saturday,sunday,start_date,end_date\nx,0,0,0,0,0,0,2,20250101,20251231\n",
        row: 1,
        cause: Cause::Number,
    },
    Refused {
        file: FileKind::Calendar,
        text: b"service_id,monday,tuesday,wednesday,thursday,friday,saturday,sunday,start_date,end_date\nx,0,0,0,0,0,0,1,20250230,20251231\n",
        row: 1,
        cause: Cause::Date,
    },
    Refused {
        file: FileKind::Calendar,
        text: b"service_id,monday,tuesday,wednesday,thursday,friday,saturday,sunday,start_date,end_date\nx,0,0,0,0,0,0,1,20250101,20251231\nx,0,0,0,0,0,0,1,20250101,20251231\n",
        row: 2,
        cause: Cause::Repeated,
    },
    Refused {
        file: FileKind::CalendarDates,
        text: b"service_id,date,exception_type\n,20250303,1\n",
        row: 1,
        cause: Cause::IdEmpty,
    },
    Refused {
        file: FileKind::CalendarDates,
        text: b"service_id,date\nw,20250303\n",
        row: 0,
        cause: Cause::NoColumn(2),
    },
    Refused {
        file: FileKind::CalendarDates,
        text: b"service_id,date,exception_type\nw,2025033,1\n",
        row: 1,
        cause: Cause::Date,
    },
    Refused {
        file: FileKind::CalendarDates,
        text: b"service_id,date,exception_type\nw,20250303,3\n",
        row: 1,
        cause: Cause::Number,
    },
    Refused {
        file: FileKind::CalendarDates,
        text: b"service_id,date,exception_type\nw,20250303,1\nv,20250303,1\nw,20250303,2\n",
        row: 3,
        cause: Cause::Repeated,
    },
    Refused {
        file: FileKind::Trips,
        text: b"trip_id\nt1\n",
        row: 0,
        cause: Cause::NoColumn(0),
    },
    Refused {
        file: FileKind::Trips,
        text: b"service_id,trip_id\nw,t1\n,t2\n",
        row: 2,
        cause: Cause::IdEmpty,
    },
    Refused {
        file: FileKind::Trips,
        text: b"service_id,trip_id\nw,t1\nw,t1\n",
        row: 2,
        cause: Cause::Repeated,
    },
    Refused {
        file: FileKind::StopTimes,
        text: b"trip_id,stop_id,stop_sequence\n,A,1\n",
        row: 1,
        cause: Cause::IdEmpty,
    },
    Refused {
        file: FileKind::StopTimes,
        text: b"trip_id,stop_id,stop_sequence,departure_time\nt1,A,1,8:00\n",
        row: 1,
        cause: Cause::Time,
    },
    Refused {
        file: FileKind::StopTimes,
        text: b"trip_id,stop_id\n",
        row: 0,
        cause: Cause::NoColumn(2),
    },
    Refused {
        file: FileKind::StopTimes,
        text: b"trip_id,stop_id,stop_sequence\nt3,A,1\n",
        row: 1,
        cause: Cause::UnknownTrip,
    },
    Refused {
        file: FileKind::StopTimes,
        text: b"trip_id,stop_id,stop_sequence\nt1,A,4294967296\n",
        row: 1,
        cause: Cause::Number,
    },
    Refused {
        file: FileKind::StopTimes,
        text: b"trip_id,stop_id,stop_sequence\nt1,,1\nt1,X,2\n",
        row: 2,
        cause: Cause::UnknownStop,
    },
    Refused {
        file: FileKind::StopTimes,
        text: b"trip_id,stop_id,stop_sequence\nt1,S,1\n",
        row: 1,
        cause: Cause::NotAStop,
    },
    Refused {
        file: FileKind::StopTimes,
        text: b"trip_id,stop_id,stop_sequence,arrival_time\nt1,A,1,8:60:00\n",
        row: 1,
        cause: Cause::Time,
    },
    Refused {
        file: FileKind::StopTimes,
        text: b"trip_id,stop_id,stop_sequence,drop_off_type\nt1,A,1,4\n",
        row: 1,
        cause: Cause::Number,
    },
    Refused {
        file: FileKind::StopTimes,
        text: b"trip_id,stop_id,stop_sequence,arrival_time\nt1,A,1,8:00:00\nt1,B,2,8:10:00\nt1,C,1,8:05:00\n",
        row: 3,
        cause: Cause::Repeated,
    },
    Refused {
        file: FileKind::StopTimes,
        text: b"trip_id,stop_id,stop_sequence,arrival_time\nt1,A,1,\nt1,B,2,8:10:00\n",
        row: 1,
        cause: Cause::NoTime,
    },
    Refused {
        file: FileKind::StopTimes,
        text: b"trip_id,stop_id,stop_sequence,arrival_time\nt2,B,5,7:59:59\nt1,A,1,8:00:00\nt1,B,2,7:59:59\nt2,A,4,8:00:00\n",
        row: 1,
        cause: Cause::TimeFalls,
    },
    Refused {
        file: FileKind::StopTimes,
        text: b"trip_id,stop_id,stop_sequence,arrival_time,departure_time\nt1,A,1,8:00:00,7:00:00\nt1,B,2,8:10:00,\n",
        row: 1,
        cause: Cause::TimeFalls,
    },
    Refused {
        file: FileKind::StopTimes,
        text: b"trip_id,arrival_time,departure_time,stop_id,stop_sequence\nt1,,,A,1\nt1,08:10:00,08:10:00,B,2\nt2,08:15:00,08:15:00,C,1\nt2,08:30:00,08:30:00,D,2\n",
        row: 1,
        cause: Cause::NoTime,
    },
    Refused {
        file: FileKind::StopTimes,
        text: b"trip_id,arrival_time,departure_time,stop_id,stop_sequence\nt1,08:00:00,08:00:00,A,1\nt1,07:59:59,07:59:59,B,2\nt2,08:15:00,08:15:00,C,1\nt2,08:30:00,08:30:00,D,2\n",
        row: 2,
        cause: Cause::TimeFalls,
    },
    Refused {
        file: FileKind::Frequencies,
        text: b"trip_id,start_time,end_time,headway_secs\n,8:00:00,9:00:00,60\n",
        row: 1,
        cause: Cause::IdEmpty,
    },
    Refused {
        file: FileKind::Frequencies,
        text: b"trip_id,start_time,end_time\n",
        row: 0,
        cause: Cause::NoColumn(3),
    },
    Refused {
        file: FileKind::Frequencies,
        text: b"trip_id,start_time,end_time,headway_secs\nt3,8:00:00,9:00:00,60\n",
        row: 1,
        cause: Cause::UnknownTrip,
    },
    Refused {
        file: FileKind::Frequencies,
        text: b"trip_id,start_time,end_time,headway_secs\nt1,8:00:00,,60\n",
        row: 1,
        cause: Cause::Time,
    },
    Refused {
        file: FileKind::Frequencies,
        text: b"trip_id,start_time,end_time,headway_secs\nt1,8:00:00,9:00:00,0\n",
        row: 1,
        cause: Cause::Number,
    },
    Refused {
        file: FileKind::Frequencies,
        text: b"trip_id,start_time,end_time,headway_secs\nt1,00:00:00,999:50:01,1\n",
        row: 1,
        cause: Cause::CopyLate(3_600_000),
    },
];

const REFUSED_IDS: [Refused; 12] = [
    Refused {
        file: FileKind::Calendar,
        text: b"service_id,monday,tuesday,wednesday,thursday,friday,saturday,sunday,start_date,end_date\n\xFF,0,0,0,0,0,0,1,20250101,20251231\n",
        row: 1,
        cause: Cause::NotUtf8,
    },
    Refused {
        file: FileKind::Calendar,
        text: b"service_id,monday,tuesday,wednesday,thursday,friday,saturday,sunday,start_date,end_date\naaaaaaaaaaaaaaaaaaaaaaaaaaaaaaaaaaaaaaaaaaaaaaaaaaaaaaaaaaaaaaaaaaaaaaaaaaaaaaaaaaaaaaaaaaaaaaaaaaaaaaaaaaaaaaaaaaaaaaaaaaaaaaaaaaaaaaaaaaaaaaaaaaaaaaaaaaaaaaaaaaaaaaaaaaaaaaaaaaaaaaaaaaaaaaaaaaaaaaaaaaaaaaaaaaaaaaaaaaaaaaaaaaaaaaaaaaaaaaaaaaaaaaaaaaaaaaaa,0,0,0,0,0,0,1,20250101,20251231\n",
        row: 1,
        cause: Cause::IdLong(256),
    },
    Refused {
        file: FileKind::CalendarDates,
        text: b"service_id,date,exception_type\n\xFF,20250303,1\n",
        row: 1,
        cause: Cause::NotUtf8,
    },
    Refused {
        file: FileKind::CalendarDates,
        text: b"service_id,date,exception_type\naaaaaaaaaaaaaaaaaaaaaaaaaaaaaaaaaaaaaaaaaaaaaaaaaaaaaaaaaaaaaaaaaaaaaaaaaaaaaaaaaaaaaaaaaaaaaaaaaaaaaaaaaaaaaaaaaaaaaaaaaaaaaaaaaaaaaaaaaaaaaaaaaaaaaaaaaaaaaaaaaaaaaaaaaaaaaaaaaaaaaaaaaaaaaaaaaaaaaaaaaaaaaaaaaaaaaaaaaaaaaaaaaaaaaaaaaaaaaaaaaaaaaaaaaaaaaaaa,20250303,1\n",
        row: 1,
        cause: Cause::IdLong(256),
    },
    Refused {
        file: FileKind::Trips,
        text: b"service_id,trip_id\nw,t1\nw,\xFF\n",
        row: 2,
        cause: Cause::NotUtf8,
    },
    Refused {
        file: FileKind::Trips,
        text: b"service_id,trip_id\nw,t1\nw,aaaaaaaaaaaaaaaaaaaaaaaaaaaaaaaaaaaaaaaaaaaaaaaaaaaaaaaaaaaaaaaaaaaaaaaaaaaaaaaaaaaaaaaaaaaaaaaaaaaaaaaaaaaaaaaaaaaaaaaaaaaaaaaaaaaaaaaaaaaaaaaaaaaaaaaaaaaaaaaaaaaaaaaaaaaaaaaaaaaaaaaaaaaaaaaaaaaaaaaaaaaaaaaaaaaaaaaaaaaaaaaaaaaaaaaaaaaaaaaaaaaaaaaaaaaaaaaa\n",
        row: 2,
        cause: Cause::IdLong(256),
    },
    Refused {
        file: FileKind::StopTimes,
        text: b"trip_id,stop_id,stop_sequence\n\xFF,A,1\n",
        row: 1,
        cause: Cause::NotUtf8,
    },
    Refused {
        file: FileKind::StopTimes,
        text: b"trip_id,stop_id,stop_sequence\naaaaaaaaaaaaaaaaaaaaaaaaaaaaaaaaaaaaaaaaaaaaaaaaaaaaaaaaaaaaaaaaaaaaaaaaaaaaaaaaaaaaaaaaaaaaaaaaaaaaaaaaaaaaaaaaaaaaaaaaaaaaaaaaaaaaaaaaaaaaaaaaaaaaaaaaaaaaaaaaaaaaaaaaaaaaaaaaaaaaaaaaaaaaaaaaaaaaaaaaaaaaaaaaaaaaaaaaaaaaaaaaaaaaaaaaaaaaaaaaaaaaaaaaaaaaaaaa,A,1\n",
        row: 1,
        cause: Cause::IdLong(256),
    },
    Refused {
        file: FileKind::StopTimes,
        text: b"trip_id,stop_id,stop_sequence\nt1,\xFF,1\n",
        row: 1,
        cause: Cause::NotUtf8,
    },
    Refused {
        file: FileKind::StopTimes,
        text: b"trip_id,stop_id,stop_sequence\nt1,aaaaaaaaaaaaaaaaaaaaaaaaaaaaaaaaaaaaaaaaaaaaaaaaaaaaaaaaaaaaaaaaaaaaaaaaaaaaaaaaaaaaaaaaaaaaaaaaaaaaaaaaaaaaaaaaaaaaaaaaaaaaaaaaaaaaaaaaaaaaaaaaaaaaaaaaaaaaaaaaaaaaaaaaaaaaaaaaaaaaaaaaaaaaaaaaaaaaaaaaaaaaaaaaaaaaaaaaaaaaaaaaaaaaaaaaaaaaaaaaaaaaaaaaaaaaaaaa,1\n",
        row: 1,
        cause: Cause::IdLong(256),
    },
    Refused {
        file: FileKind::Frequencies,
        text: b"trip_id,start_time,end_time,headway_secs\n\xFF,08:00:00,09:00:00,60\n",
        row: 1,
        cause: Cause::NotUtf8,
    },
    Refused {
        file: FileKind::Frequencies,
        text: b"trip_id,start_time,end_time,headway_secs\naaaaaaaaaaaaaaaaaaaaaaaaaaaaaaaaaaaaaaaaaaaaaaaaaaaaaaaaaaaaaaaaaaaaaaaaaaaaaaaaaaaaaaaaaaaaaaaaaaaaaaaaaaaaaaaaaaaaaaaaaaaaaaaaaaaaaaaaaaaaaaaaaaaaaaaaaaaaaaaaaaaaaaaaaaaaaaaaaaaaaaaaaaaaaaaaaaaaaaaaaaaaaaaaaaaaaaaaaaaaaaaaaaaaaaaaaaaaaaaaaaaaaaaaaaaaaaaa,08:00:00,09:00:00,60\n",
        row: 1,
        cause: Cause::IdLong(256),
    },
];

// The first case that isn't refused as it should be, and what is told of it.
fn wrong_case(alloc: Global, cases: &[Refused]) -> Option<(usize, Option<Refusal>)> {
    for (i, case) in cases.iter().enumerate() {
        let found = refusal(alloc, &changed(case.file, case.text));
        let want = Refusal {
            file: case.file,
            row: case.row,
            cause: case.cause,
        };
        if found != Some(want) {
            return Some((i, found));
        }
    }
    None
}

#[test]
fn refuses(rt: HostRuntime) {
    assert_eq!(rt; wrong_case(rt.alloc(), &REFUSED), None);
}

#[test]
fn refuses_ids_that_are_long_or_no_text(rt: HostRuntime) {
    assert_eq!(rt; wrong_case(rt.alloc(), &REFUSED_IDS), None);
}

#[test]
fn refuses_a_feed_without_days(rt: HostRuntime) {
    let bytes = FeedBytes {
        dates: None,
        ..base()
    };
    let none = Refusal {
        file: FileKind::Calendar,
        row: 0,
        cause: Cause::NoCalendar,
    };
    assert_eq!(rt; refusal(rt.alloc(), &bytes), Some(none));
}

fn limit(file: FileKind, count: u64) -> Option<Refusal> {
    Some(Refusal {
        file,
        row: 0,
        cause: Cause::Limit(count),
    })
}

fn many_stops(alloc: Global) -> Result<String, NoMemory> {
    let mut text = String::from_str(alloc, "stop_id\n")?;
    for number in 0..200_001u32 {
        writeln!(text, "{number}")?;
    }
    Ok(text)
}

fn refusal_of_many_stops(alloc: Global) -> Result<Option<Refusal>, NoMemory> {
    let text = many_stops(alloc)?;
    Ok(refusal(alloc, &changed(FileKind::Stops, text.as_bytes())))
}

#[test]
fn refuses_too_many_stops(rt: HostRuntime) -> Result<(), Fail> {
    let found = refusal_of_many_stops(rt.alloc())?;
    assert_eq!(rt; found, limit(FileKind::Stops, 200_001));
    Ok(())
}

fn push_copies(text: &mut String, lines: &str, count: u32) -> Result<(), NoMemory> {
    for _i in 0..count {
        text.push_str(lines)?;
    }
    Ok(())
}

// 50,000 lines of a letter.
fn lines(alloc: Global) -> Result<String, NoMemory> {
    let mut lines = String::new(alloc);
    push_copies(&mut lines, "a\n", 50_000)?;
    Ok(lines)
}

// A header and 50,000,001 rows.
fn many_rows(alloc: Global, header: &str, lines: &str) -> Result<String, NoMemory> {
    let mut text = String::from_str(alloc, header)?;
    push_copies(&mut text, lines, 1_000)?;
    text.push_str("a")?;
    Ok(text)
}

fn text_of_many_rows(alloc: Global, header: &str) -> Result<String, NoMemory> {
    let lines = lines(alloc)?;
    many_rows(alloc, header, lines.as_str())
}

// The refusal of a file of 50,000,001 rows.
fn refusal_of_many_rows(
    alloc: Global,
    file: FileKind,
    header: &str,
) -> Result<Option<Refusal>, NoMemory> {
    let text = text_of_many_rows(alloc, header)?;
    Ok(refusal(alloc, &changed(file, text.as_bytes())))
}

// The limit on the rows of a file is told before any rule on a row.
#[test]
fn refuses_too_many_rows_of_stops_and_days(rt: HostRuntime) -> Result<(), Fail> {
    let headers = [
        (FileKind::Stops, "stop_id\n"),
        (
            FileKind::Calendar,
            "service_id,monday,tuesday,wednesday,thursday,friday,saturday,sunday,start_date,end_date\n",
        ),
        (FileKind::CalendarDates, "service_id,date,exception_type\n"),
    ];
    for (file, header) in headers {
        let found = refusal_of_many_rows(rt.alloc(), file, header)?;
        assert_eq!(rt; found, limit(file, 50_000_001));
    }
    Ok(())
}

#[test]
fn refuses_too_many_rows_of_trips(rt: HostRuntime) -> Result<(), Fail> {
    let headers = [
        (FileKind::Trips, "service_id,trip_id\n"),
        (FileKind::StopTimes, "trip_id,stop_id,stop_sequence\n"),
        (
            FileKind::Frequencies,
            "trip_id,start_time,end_time,headway_secs\n",
        ),
    ];
    for (file, header) in headers {
        let found = refusal_of_many_rows(rt.alloc(), file, header)?;
        assert_eq!(rt; found, limit(file, 50_000_001));
    }
    Ok(())
}

// The seconds of a call of a trip.
fn times(feed: &Feed, trip: usize, call: usize) -> Option<(u32, u32)> {
    let trip = feed.trips.get(trip)?;
    let call = trip.calls.get(call)?;
    Some((call.arr, call.dep))
}

// How many stops, services, trips and copies a feed has.
fn counts(feed: &Feed) -> [usize; 4] {
    [
        feed.stops.len(),
        feed.services.len(),
        feed.trips.len(),
        feed.copies.len(),
    ]
}

fn stop_of(feed: &Feed, trip: usize, call: usize) -> Option<u32> {
    let trip = feed.trips.get(trip)?;
    let call = trip.calls.get(call)?;
    Some(call.stop.0)
}

fn is_base(feed: &Feed) -> bool {
    counts(feed) == [4, 1, 2, 0]
        && times(feed, 1, 1) == Some((30_600, 30_600))
        && stop_of(feed, 1, 0) == Some(2)
}

fn reads_base(alloc: Global) -> Option<bool> {
    let feed = read_feed(alloc, &base()).ok()?;
    Some(is_base(&feed))
}

#[test]
fn reads_the_base(rt: HostRuntime) {
    assert_eq!(rt; reads_base(rt.alloc()), Some(true));
}

// A byte order mark, quotes, and a trip in which times are missing.
fn marked() -> FeedBytes<'static> {
    FeedBytes {
        trips: b"service_id,trip_id\nw,t9\n",
        stop_times: b"\xEF\xBB\xBFstop_sequence,\"trip_id\",stop_id,departure_time,arrival_time\r\n10,\"t9\",A,24:50:00,\r\n20,t9,B,,\r\n30,t9,C,,\r\n40,t9,D,,25:10:00\r\n",
        ..base()
    }
}

fn is_filled(feed: &Feed) -> bool {
    times(feed, 0, 0) == Some((89_400, 89_400))
        && times(feed, 0, 1) == Some((89_800, 89_800))
        && times(feed, 0, 2) == Some((90_200, 90_200))
        && times(feed, 0, 3) == Some((90_600, 90_600))
}

fn reads_marked(alloc: Global) -> Option<bool> {
    let feed = read_feed(alloc, &marked()).ok()?;
    Some(is_filled(&feed))
}

#[test]
fn fills_times_of_a_feed_with_marks(rt: HostRuntime) {
    assert_eq!(rt; reads_marked(rt.alloc()), Some(true));
}

fn headers() -> FeedBytes<'static> {
    FeedBytes {
        stops: b"stop_id",
        calendar: None,
        dates: Some(b"service_id,date,exception_type\n"),
        trips: b"service_id,trip_id\n",
        stop_times: b"trip_id,arrival_time,departure_time,stop_id,stop_sequence\n",
        frequencies: None,
    }
}

fn counts_of_headers(alloc: Global) -> Option<[usize; 4]> {
    let feed = read_feed(alloc, &headers()).ok()?;
    Some(counts(&feed))
}

#[test]
fn reads_headers_alone(rt: HostRuntime) {
    assert_eq!(rt; counts_of_headers(rt.alloc()), Some([0, 0, 0, 0]));
}

fn agency() -> FeedBytes<'static> {
    FeedBytes {
        stops: b"stop_id,stop_code,stop_name,stop_lat,stop_lon,location_type,parent_station\nS1,,Central,60.170000,24.940000,1,\nP1,001,Central platform 1,60.170100,24.940200,0,S1\nP2,002,Harbour,60.160500,24.955000,,\n",
        calendar: Some(
            b"service_id,monday,tuesday,wednesday,thursday,friday,saturday,sunday,start_date,end_date\nWK,1,1,1,1,1,0,0,20250101,20251231\n",
        ),
        dates: Some(b"service_id,date,exception_type\n"),
        trips: b"route_id,service_id,trip_id,trip_headsign,direction_id\n10,WK,10_0700,Harbour,0\n10,WK,10_0715,Harbour,0\n",
        stop_times: b"trip_id,arrival_time,departure_time,stop_id,stop_sequence,pickup_type,drop_off_type\n10_0700,7:00:00,7:00:00,P1,1,0,1\n10_0700,7:06:00,7:06:00,P2,2,1,0\n10_0715,7:15:00,7:15:00,P1,1,0,1\n10_0715,7:21:00,7:21:00,P2,2,1,0\n",
        frequencies: Some(b"trip_id,start_time,end_time,headway_secs\n"),
    }
}

fn is_platform(stop: &FeedStop) -> bool {
    stop.lat == Some(60_170_100) && stop.lon == Some(24_940_200) && stop.row == 2
}

fn is_week(service: &Service) -> bool {
    service.days == [true, true, true, true, true, false, false]
        && service.first == 20_250_101
        && service.last == 20_251_231
}

// Whether a call may be boarded at, and left.
fn flags(feed: &Feed, trip: usize, call: usize) -> Option<(bool, bool)> {
    let trip = feed.trips.get(trip)?;
    let call = trip.calls.get(call)?;
    Some((call.board, call.alight))
}

fn is_agency(feed: &Feed) -> Option<bool> {
    let right = is_platform(feed.stops.get(0)?) && is_week(feed.services.get(0)?);
    Some(right && counts(feed) == [2, 1, 2, 0] && flags(feed, 1, 0) == Some((true, false)))
}

fn reads_agency(alloc: Global) -> Option<bool> {
    let feed = read_feed(alloc, &agency()).ok()?;
    is_agency(&feed)
}

#[test]
fn reads_an_agency_s_feed(rt: HostRuntime) {
    assert_eq!(rt; reads_agency(rt.alloc()), Some(true));
}

fn calendars() -> FeedBytes<'static> {
    FeedBytes {
        calendar: Some(
            b"service_id,monday,tuesday,wednesday,thursday,friday,saturday,sunday,start_date,end_date\nv,0,0,0,0,0,0,0,20250101,20251231\n",
        ),
        dates: Some(
            b"service_id,date,exception_type\nw,20250303,1\nw,20250304,2\nv,20250305,1\nw,20250306,1\n",
        ),
        frequencies: Some(b"trip_id,start_time,end_time,headway_secs\nt1,08:00:00,08:30:00,900\n"),
        ..base()
    }
}

fn is_copy(copy: &CopyRow) -> bool {
    copy.trip == 0 && copy.start == 28_800 && copy.end == 30_600 && copy.headway == 900
}

fn has_calendars(feed: &Feed) -> Option<bool> {
    let added = feed.services.get(1)?.added.as_slice();
    let right = added == [20_250_303, 20_250_306].as_slice() && is_copy(feed.copies.get(0)?);
    Some(right && counts(feed) == [4, 2, 2, 1] && feed.trips.get(0)?.service == Some(1))
}

fn reads_calendars(alloc: Global) -> Option<bool> {
    let feed = read_feed(alloc, &calendars()).ok()?;
    has_calendars(&feed)
}

#[test]
fn reads_calendars_and_copies(rt: HostRuntime) {
    assert_eq!(rt; reads_calendars(rt.alloc()), Some(true));
}
