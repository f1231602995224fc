// Rides, journeys and what they attain.
use crate::{List, NodeNo, StopNo, TripNo};

/// A ride on a trip from one of its calls to a later one, by their places from 0.
#[derive(Clone, Copy, Debug, PartialEq, Eq)]
pub struct Ride {
    pub trip: TripNo,
    pub board: u32,
    pub alight: u32,
}

/// The vertices of a walk.
pub type Walk = List<NodeNo>;

/// The walks of a journey.
pub type Walks = List<Walk>;

/// The rides of a journey.
pub type RideList = List<Ride>;

/// Rides with a walk before each and one after the last, from the second of departure.
#[derive(Debug, Drop)]
pub struct Journey {
    pub depart: u32,
    pub walks: Walks,
    pub rides: RideList,
}

/// The arrival second and the number of rides of a journey.
#[derive(Clone, Copy, Debug, PartialEq, Eq)]
pub struct Pair {
    pub arrive: u64,
    pub trips: u8,
}

/// A pair with a journey that attains it.
#[derive(Debug, Drop)]
pub struct Finding {
    pub pair: Pair,
    pub journey: Journey,
}

/// The pairs of an answer, by rising number of trips.
pub type Findings = List<Finding>;

/// The place of a piece, two rides with their walks, in the order of the pieces to a stop.
#[derive(Clone, Copy, Debug, PartialEq, Eq)]
pub struct Key {
    pub arrive: u64,
    pub a2: u32,
    pub e: u32,
    pub trip: u32,
    pub ready: u64,
    pub y: u32,
    pub a1: u32,
    pub c: u32,
}

/// A walk between two rides that may be needed, with its seconds.
#[derive(Clone, Copy, Debug, PartialEq, Eq)]
pub struct Shortcut {
    pub from: StopNo,
    pub to: StopNo,
    pub seconds: u64,
}

/// A list of walks between stops.
pub type Shortcuts = List<Shortcut>;

/// A number of trips and an arrival that are best from every departure second from first to
/// last, with the rides of a journey that leaves at the last of them.
#[derive(Debug, Drop)]
pub struct Span {
    pub first: u32,
    pub last: u32,
    pub trips: u8,
    pub arrive: u64,
    pub rides: RideList,
}

/// The spans of a range, by rising first second and then trips.
pub type Spans = List<Span>;

/// The departure seconds from first to last at which the finding's pair is best, with a journey
/// that leaves at the last of them.
#[derive(Debug, Drop)]
pub struct SpanFinding {
    pub first: u32,
    pub last: u32,
    pub finding: Finding,
}

/// The spans of a range with their journeys, by rising first second and then trips.
pub type SpanFindings = List<SpanFinding>;

/// The answer to a range: the seconds on foot, where there is a walk, and the spans.
#[derive(Debug, Drop)]
pub struct Profile {
    pub foot: Option<u64>,
    pub spans: Spans,
}

/// A list of seconds.
pub type Seconds = List<u32>;
