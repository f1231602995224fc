// Where routes call.
use move_model::StopNo;

/// A call of a route, both by their places from 0.
#[derive(Clone, Copy, Debug, PartialEq, Eq)]
pub struct RouteCall {
    pub route: u32,
    pub call: u32,
}

/// The stop of a route's call, and whether trips of the route may be boarded and left there.
#[derive(Clone, Copy, Debug, PartialEq, Eq)]
pub struct Place {
    pub stop: StopNo,
    pub board: bool,
    pub alight: bool,
}

/// Where a route's parts begin in the flat vectors, and how many calls and trips it has.
#[derive(Clone, Copy)]
pub struct Head {
    pub second: usize,
    pub place: usize,
    pub trip: usize,
    pub calls: u32,
    pub trips: u32,
}
