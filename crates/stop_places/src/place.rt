// The vertices of stops.
ghost use Rattle.std.specs.Prelude.{◌≡◌, ◌≤◌, length, All, IfOk, IfSome, OnOk, IsErrOf};
ghost use Rattle.std.specs.Option.{option_copied};
ghost use Rattle.move_model.specs.declared.refusal.Cause.{Cause};
ghost use Rattle.move_model.specs.declared.refusal.FileKind.{FileKind};
ghost use Rattle.move_model.specs.declared.refusal.Refusal.{Refusal};
ghost use Rattle.stop_places.specs.Given.{vertex_in};
ghost use Rattle.stop_places.specs.Places as spec;
ghost use Rattle.stop_places.specs.Table.{TableAccepted, table_vertex};

use crate::given::Given;
use crate::near::{Near, near_place};
use crate::table::read_given;
use gtfs_feed::FeedStop;
use move_model::{Cause, FileKind, Name, NodeNo, Refusal, Stop, Stopped, Stops};
use std::alloc::Global;

// The vertex of a stop, or None where it has no place.
fn vertex(given: &Given, near: &Option<Near>, stop: &FeedStop) -> Option<NodeNo>
    requires { IfSome near.now (λ near. near.scale ≤ 1000) }
    ensures { spec.IsPlace (vertex_in given.now) near.now stop.now result }
{
    match given.vertex(stop.name.as_slice()) {
        Some(node) => Some(node),
        None => near_place(near, stop.lat, stop.lon),
    }
}

// A stop of this row has no place.
fn no_place(row: u32) -> Stopped
    ensures { result ≡ Stopped.Refused (record { file = FileKind.Stops; row = row; cause = Cause.NoPlace }) }
{
    Stopped::Refused(Refusal {
        file: FileKind::Stops,
        row,
        cause: Cause::NoPlace,
    })
}

// The stop at its vertex.
fn place_stop(
    alloc: Global,
    given: &Given,
    near: &Option<Near>,
    stop: &FeedStop,
) -> Result<Stop, Stopped>
    requires { IfSome near.now (λ near. near.scale ≤ 1000) }
    ensures placed { IfOk result (spec.IsPlacedStop (vertex_in given.now) near.now stop.now) }
    ensures refused { (r : Refusal) → IsErrOf result (Stopped.Refused r)
        → (r ≡ record { file = FileKind.Stops; row = stop.now.row; cause = Cause.NoPlace }) × spec.IsPlace (vertex_in given.now) near.now stop.now None }
{
    let Some(node) = vertex(given, near, stop) else {
        return Err(no_place(stop.row));
    };
    let Ok(name) = Name::from_slice(alloc, stop.name.as_slice()) else {
        return Err(Stopped::NoMemory);
    };
    Ok(Stop { node, name })
}

// The stops at their vertices, or the first that has none.
fn stops_at(
    alloc: Global,
    given: &Given,
    near: &Option<Near>,
    stops: &[FeedStop],
) -> Result<Stops, Stopped>
    requires { IfSome near.now (λ near. near.scale ≤ 1000) }
    ensures placed { IfOk result (spec.ArePlaced (vertex_in given.now) near.now stops.now) }
    ensures refused { (r : Refusal) → IsErrOf result (Stopped.Refused r) → spec.IsNoPlaceRefusal (vertex_in given.now) near.now stops.now r }
{
    let mut placed = Stops::new(alloc);
    for stop in stops {
        let next = match place_stop(alloc, given, near, stop) {
            Ok(next) => next,
            Err(stopped) => return Err(stopped),
        };
        let Ok(()) = placed.push(next) else {
            return Err(Stopped::NoMemory);
        };
    }
    Ok(placed)
}

/// Places the stops of a feed in a street graph of so many vertices, by the bytes of `stop_nodes.txt`, where there is such
/// a file, and by the points of the vertices, where they have points. A stop that the file names stands at the vertex
/// given there, and any other stop at the vertex nearest to its coordinates. Refused is the first broken rule of the
/// file, and else the first stop that has no place, by its row in `stops.txt`.
pub fn place_stops(
    alloc: Global,
    bytes: Option<&[u8]>,
    stops: &[FeedStop],
    nodes: u32,
    near: Option<Near>,
) -> Result<Stops, Stopped>
    requires scale { IfSome near (λ near. near.scale ≤ 1000) }
    requires points { IfSome near (λ near. length near.grid.now ≡ nodes) }

    // Ok exactly where no rule is broken, and else the first broken rule; only want of memory may come in the place of either.
    ensures accepted { OnOk result (TableAccepted stops.now nodes (option_copied bytes.entry)) }
    ensures placed { IfOk result (spec.ArePlaced (table_vertex (option_copied bytes.entry)) near.entry stops.now) }
    ensures refused { (refusal : Refusal) → IsErrOf result (Stopped.Refused refusal) → spec.IsPlaceRefusal stops.now nodes (option_copied bytes.entry) near.entry refusal }

    // What the placed stops keep.
    ensures vertices { IfOk result (All (λ stop. (1 ≤ stop.node.0) × (stop.node.0 ≤ nodes))) }
    ensures as_many { IfOk result (λ placed. length placed ≡ length stops.now) }
{
    let given = match read_given(alloc, bytes, stops, nodes) {
        Ok(given) => given,
        Err(stopped) => return Err(stopped),
    };
    stops_at(alloc, &given, &near, stops)
}
