//! The plain types of networks, journeys, queries and refusals, and the definitions that say what
//! they mean: walks and distances, rides and journeys, the Pareto set, shortcuts.
#![tactic(auto)]

mod check;
mod journey;
mod list;
mod network;
mod query;
mod refusal;
mod time;
mod walk_row;

pub use check::NetFault;
pub use journey::{
    Finding, Findings, Journey, Key, Pair, Profile, Ride, RideList, Seconds, Shortcut, Shortcuts,
    Span, SpanFinding, SpanFindings, Spans, Walk, Walks,
};
pub use list::List;
pub use network::{
    Arc, Arcs, Call, Calls, Name, Network, NodeNo, Stop, StopNo, StopPairs, Stops, Trip, TripNo,
    Trips,
};
pub use query::{Place, Queries, Query};
pub use refusal::{Cause, FileKind, Refusal, Stopped};
pub use time::{TimeText, read_time, write_time};
pub use walk_row::WalkRow;

/// Want of memory.
pub use std::alloc::AllocError as NoMemory;
