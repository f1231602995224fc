// What a feed holds.
use move_model::{Calls, List, Name};

/// The bytes of a feed's files. A file that may be missing is an option.
#[derive(Clone, Copy, Debug)]
pub struct FeedBytes<'a> {
    /// The bytes of `stops.txt`.
    pub stops: &'a [u8],
    /// The bytes of `calendar.txt`.
    pub calendar: Option<&'a [u8]>,
    /// The bytes of `calendar_dates.txt`.
    pub dates: Option<&'a [u8]>,
    /// The bytes of `trips.txt`.
    pub trips: &'a [u8],
    /// The bytes of `stop_times.txt`.
    pub stop_times: &'a [u8],
    /// The bytes of `frequencies.txt`.
    pub frequencies: Option<&'a [u8]>,
}

/// A feed that was read: the stops at which trips may call, the services, the trips and the copies of trips.
#[derive(Debug, Drop)]
pub struct Feed {
    pub stops: FeedStops,
    pub services: Services,
    pub trips: FeedTrips,
    pub copies: CopyRows,
}

/// A stop or platform, which is a stop of location type 0, with its row in `stops.txt`, from 1.
/// Its coordinates are in millionths of a degree; it has both or neither.
#[derive(Debug, Drop)]
pub struct FeedStop {
    pub name: Name,
    pub lat: Option<i32>,
    pub lon: Option<i32>,
    pub row: u32,
}

/// A service: the weekdays from Monday to Sunday on which it runs from its first date to its last, and
/// the dates that are added to these or removed from them. A date is a number of the form YYYYMMDD.
#[derive(Debug, Drop)]
pub struct Service {
    pub name: Name,
    pub days: [bool; 7],
    pub first: u32,
    pub last: u32,
    pub added: Dates,
    pub removed: Dates,
}

/// A trip with its calls by rising stop sequence. Its service is a place in the feed's list of
/// services, or None where no calendar names it. A trip with no calls never runs.
#[derive(Debug, Drop)]
pub struct FeedTrip {
    pub name: Name,
    pub service: Option<u32>,
    pub calls: Calls,
}

/// A row of `frequencies.txt`: the trip, as a place in the feed's list of trips, leaves at start and
/// then every headway seconds before end. Start and end are seconds of the service day.
#[derive(Clone, Copy, Debug, PartialEq, Eq)]
pub struct CopyRow {
    pub trip: u32,
    pub start: u32,
    pub end: u32,
    pub headway: u32,
}

/// Stops in the order of `stops.txt`.
pub type FeedStops = List<FeedStop>;

/// Services in the order of their first rows, those of `calendar.txt` before those that
/// `calendar_dates.txt` alone names.
pub type Services = List<Service>;

/// Trips in the order of `trips.txt`.
pub type FeedTrips = List<FeedTrip>;

/// Rows in the order of `frequencies.txt`.
pub type CopyRows = List<CopyRow>;

/// Dates of the form YYYYMMDD.
pub type Dates = List<u32>;
