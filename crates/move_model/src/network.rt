// Networks: streets, stops, trips.
use crate::List;

/// The number of a stop, from 0.
#[derive(Clone, Copy, Debug, PartialEq, Eq, PartialOrd, Ord, Hash)]
pub struct StopNo(pub u32);

/// The number of a vertex of the street graph, from 1.
#[derive(Clone, Copy, Debug, PartialEq, Eq, PartialOrd, Ord, Hash)]
pub struct NodeNo(pub u32);

/// The number of a trip, from 0.
#[derive(Clone, Copy, Debug, PartialEq, Eq, PartialOrd, Ord, Hash)]
pub struct TripNo(pub u32);

/// A directed street arc with the seconds that a passenger walks along it.
#[derive(Clone, Copy, Debug, PartialEq, Eq)]
pub struct Arc {
    pub from: NodeNo,
    pub to: NodeNo,
    pub seconds: u32,
}

/// The bytes of an id or of a word.
pub type Name = List<u8>;

/// A stop with the vertex at which it stands.
#[derive(Debug, Drop)]
pub struct Stop {
    pub node: NodeNo,
    pub name: Name,
}

/// A trip's call at a stop. Seconds count from the start of the service day.
#[derive(Clone, Copy, Debug, PartialEq, Eq)]
pub struct Call {
    pub stop: StopNo,
    pub arr: u32,
    pub dep: u32,
    pub board: bool,
    pub alight: bool,
}

/// A trip of the day: at least two calls, whose seconds never fall.
#[derive(Debug, Drop)]
pub struct Trip {
    pub name: Name,
    pub calls: Calls,
}

/// A timetable over a street graph. A passenger who is ready at a stop at second r boards a call
/// where r and the buffer, in seconds, are at most its departure.
#[derive(Debug, Drop)]
pub struct Network {
    pub nodes: u32,
    pub arcs: Arcs,
    pub stops: Stops,
    pub trips: Trips,
    pub buffer: u32,
}

/// The arcs of a street graph.
pub type Arcs = List<Arc>;

/// The stops of a network, by number.
pub type Stops = List<Stop>;

/// The calls of a trip.
pub type Calls = List<Call>;

/// The trips of a day, by number.
pub type Trips = List<Trip>;

/// Pairs of stops.
pub type StopPairs = List<(StopNo, StopNo)>;
