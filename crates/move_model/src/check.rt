// The test of a network.
ghost use Rattle.std.specs.Prelude.{◌<◌, ◌-◌, ◌^◌, ◌↔◌, length, All, IsTrue, IfSome, IfNone, IfOk, IfErr, OnOk, ◌≡◌};
ghost use Rattle.std.specs.List.{AllAdjacentBelow};
ghost use Rattle.move_model.specs.Streets.{IsVertex};
ghost use Rattle.move_model.specs.Network.{streets, IsAtOrBefore};
ghost use Rattle.move_model.specs.Check.{Joins, IsShort, Stands, IsLong, IsAtStop, Stays, GoesOn, AreTimed, Precedes, KeepsRules, IsFirstWithout, IsFirstUntimed, IsFirstUnordered, IsFirstCall, IsFirstFault};

use crate::{Arc, Call, Network, NodeNo, Trip};

/// The first broken rule of a network. Arcs, stops, trips and calls are named by their places from 0, a
/// call behind its trip; of two neighbours that break a rule together the later is named.
#[derive(Clone, Copy, Debug, PartialEq, Eq)]
pub enum NetFault {
    /// The number of vertices is not from 1 to 2,000,000.
    Nodes(u32),
    /// An end of the arc is no vertex.
    ArcEnd(u32),
    /// The arc has more than 1,000,000 seconds.
    ArcSeconds(u32),
    /// The stop stands at no vertex.
    StopNode(u32),
    /// The trip has fewer than two calls.
    TripShort(u32),
    /// The call is at no stop.
    CallStop(u32, u32),
    /// The call departs before it arrives, past 999:59:59, or the call before it departs later than it arrives.
    CallTimes(u32, u32),
    /// The seconds of the trip come before those of the trip ahead of it.
    TripOrder(u32),
    /// The buffer is above 3,600 seconds.
    Buffer(u32),
}

const MOST_NODES: u32 = 2_000_000;

const LONGEST_ARC: u32 = 1_000_000;

const LAST_SECOND: u32 = 3_599_999;

const LONGEST_BUFFER: u32 = 3_600;

// Whether the seconds of one list of calls are at or before those of another, in lexicographic order.
fn precedes(calls: &[Call], next: &[Call]) -> bool
    ensures { IsTrue result ↔ IsAtOrBefore calls.now next.now }
{
    for i in 0..calls.len() {
        if i >= next.len() {
            return false;
        }
        if calls[i].arr != next[i].arr {
            return calls[i].arr < next[i].arr;
        }
        if calls[i].dep != next[i].dep {
            return calls[i].dep < next[i].dep;
        }
    }
    true
}

// The first arc above the limit on seconds.
fn first_long_arc(arcs: &[Arc]) -> Option<u32>
    requires { length arcs.now < 2 ^ 32 }
    ensures found { IfSome result (IsFirstWithout IsShort arcs.now) }
    ensures none { IfNone result (All IsShort arcs.now) }
{
    for i in 0..arcs.len() {
        if arcs[i].seconds > LONGEST_ARC {
            return Some(i as u32);
        }
    }
    None
}

// The first trip with fewer than two calls.
fn first_short_trip(trips: &[Trip]) -> Option<u32>
    requires { length trips.now < 2 ^ 32 }
    ensures found { IfSome result (IsFirstWithout IsLong trips.now) }
    ensures none { IfNone result (All IsLong trips.now) }
{
    for i in 0..trips.len() {
        if trips[i].calls.len() < 2 {
            return Some(i as u32);
        }
    }
    None
}

// Whether a call departs when it arrives or later, and within the day.
fn stays(call: Call) -> bool
    ensures { IsTrue result ↔ Stays call }
{
    call.arr <= call.dep && call.dep <= LAST_SECOND
}

// The first call whose seconds fall or pass the day.
fn first_untimed_call(calls: &[Call]) -> Option<u32>
    requires { length calls.now < 2 ^ 32 }
    ensures found { IfSome result (IsFirstUntimed calls.now) }
    ensures none { IfNone result (AreTimed calls.now) }
{
    for i in 0..calls.len() {
        let call = calls[i];
        if !stays(call) {
            return Some(i as u32);
        }
        if i > 0 && calls[i - 1].dep > call.arr {
            return Some(i as u32);
        }
    }
    None
}

// The first trip with a call whose seconds fall, and that call.
fn first_untimed(trips: &[Trip]) -> Option<(u32, u32)>
    requires trips { length trips.now < 2 ^ 32 }
    requires calls { All (λ trip. length trip.calls < 2 ^ 32 - 1) trips.now }
    ensures found { IfSome result (λ place. IsFirstCall AreTimed IsFirstUntimed trips.now place.0 place.1) }
    ensures none { IfNone result (All (λ trip. AreTimed trip.calls) trips.now) }
{
    for i in 0..trips.len() {
        if let Some(j) = first_untimed_call(trips[i].calls.as_slice()) {
            return Some((i as u32, j));
        }
    }
    None
}

// The first trip that comes before the one ahead of it.
fn first_unordered(trips: &[Trip]) -> Option<u32>
    requires { length trips.now < 2 ^ 32 }
    ensures found { IfSome result (IsFirstUnordered trips.now) }
    ensures none { IfNone result (AllAdjacentBelow Precedes trips.now (length trips.now)) }
{
    for i in 1..trips.len() {
        if !precedes(trips[i - 1].calls.as_slice(), trips[i].calls.as_slice()) {
            return Some(i as u32);
        }
    }
    None
}

impl Network {
    fn has_vertex(&self, node: NodeNo) -> bool
        ensures { IsTrue result ↔ IsVertex (streets self.now) node }
    {
        1 <= node.0 && node.0 <= self.nodes
    }

    // The first arc with an end that is no vertex.
    fn first_loose_arc(&self) -> Option<u32>
        requires { length self.now.arcs < 2 ^ 32 }
        ensures found { IfSome result (IsFirstWithout (Joins self.now) self.now.arcs) }
        ensures none { IfNone result (All (Joins self.now) self.now.arcs) }
    {
        let arcs = self.arcs.as_slice();
        for i in 0..arcs.len() {
            if !self.has_vertex(arcs[i].from) || !self.has_vertex(arcs[i].to) {
                return Some(i as u32);
            }
        }
        None
    }

    // The first stop that stands at no vertex.
    fn first_lost_stop(&self) -> Option<u32>
        requires { length self.now.stops < 2 ^ 32 }
        ensures found { IfSome result (IsFirstWithout (Stands self.now) self.now.stops) }
        ensures none { IfNone result (All (Stands self.now) self.now.stops) }
    {
        let stops = self.stops.as_slice();
        for i in 0..stops.len() {
            if !self.has_vertex(stops[i].node) {
                return Some(i as u32);
            }
        }
        None
    }

    // The first call that is at no stop.
    fn first_stray_call(&self, calls: &[Call]) -> Option<u32>
        requires { length calls.now < 2 ^ 32 }
        ensures found { IfSome result (IsFirstWithout (IsAtStop self.now) calls.now) }
        ensures none { IfNone result (All (IsAtStop self.now) calls.now) }
    {
        let stops = self.stops.len();
        for i in 0..calls.len() {
            if calls[i].stop.0 as usize >= stops {
                return Some(i as u32);
            }
        }
        None
    }

    // The first trip with a call at no stop, and that call.
    fn first_stray(&self) -> Option<(u32, u32)>
        requires trips { length self.now.trips < 2 ^ 32 }
        requires calls { All (λ trip. length trip.calls < 2 ^ 32 - 1) self.now.trips }
        ensures found { IfSome result (λ place. IsFirstCall (All (IsAtStop self.now)) (IsFirstWithout (IsAtStop self.now)) self.now.trips place.0 place.1) }
        ensures none { IfNone result (All (λ trip. All (IsAtStop self.now) trip.calls) self.now.trips) }
    {
        let trips = self.trips.as_slice();
        for i in 0..trips.len() {
            if let Some(j) = self.first_stray_call(trips[i].calls.as_slice()) {
                return Some((i as u32, j));
            }
        }
        None
    }

    /// Whether the network keeps the rules and the limits on vertices, arcs, seconds and the buffer:
    /// otherwise the first broken rule, in the order of the variants, at the first place where it is
    /// broken. It takes no memory.
    #[tactic(auto, unfolding(crate::specs::Check::IsFirstFault))]
    pub fn check(&self) -> Result<(), NetFault>
        requires arcs { length self.now.arcs < 2 ^ 32 - 1 }
        requires stops { length self.now.stops < 2 ^ 32 - 1 }
        requires trips { length self.now.trips < 2 ^ 32 - 1 }
        requires calls { All (λ trip. length trip.calls < 2 ^ 32 - 1) self.now.trips }
        ensures ok { OnOk result (KeepsRules self.now) }
        ensures fault { IfErr result (IsFirstFault self.now) }
    {
        if self.nodes == 0 || self.nodes > MOST_NODES {
            return Err(NetFault::Nodes(self.nodes));
        }
        if let Some(i) = self.first_loose_arc() {
            return Err(NetFault::ArcEnd(i));
        }
        if let Some(i) = first_long_arc(self.arcs.as_slice()) {
            return Err(NetFault::ArcSeconds(i));
        }
        if let Some(i) = self.first_lost_stop() {
            return Err(NetFault::StopNode(i));
        }
        if let Some(i) = first_short_trip(self.trips.as_slice()) {
            return Err(NetFault::TripShort(i));
        }
        if let Some((i, j)) = self.first_stray() {
            return Err(NetFault::CallStop(i, j));
        }
        if let Some((i, j)) = first_untimed(self.trips.as_slice()) {
            return Err(NetFault::CallTimes(i, j));
        }
        if let Some(i) = first_unordered(self.trips.as_slice()) {
            return Err(NetFault::TripOrder(i));
        }
        if self.buffer > LONGEST_BUFFER {
            return Err(NetFault::Buffer(self.buffer));
        }
        Ok(())
    }
}
