// The network and the queries of the files.
ghost use Rattle.std.specs.Prelude.{◌≡◌, ◌≤◌, ◌-◌, ◌<◌, ◌^◌, length, All, IfSome, IfOk, IfErr, OnOk};
ghost use Rattle.std.specs.Option.{ForSome};
ghost use Rattle.move_model.specs.Check.{KeepsRules};
ghost use Rattle.move_model.specs.Network.{IsNumbered, streets};
ghost use Rattle.move_model.specs.declared.refusal.FileKind.TheVariants as Kind;
ghost use Rattle.query_table.specs.Queries.{IsQuery};
ghost use Rattle.street_graph.specs.Graph.{IsWithinLimits};
ghost use Rattle.stop_places.specs.Places.{ArePlaced};
ghost use Rattle.stop_places.specs.Table.{TableAccepted, table_vertex};
ghost use Rattle.feed_values.specs.Date.{IsDay};
ghost use Rattle.top_call.specs.Words.{told};
ghost use Rattle.top_call.specs.Reading.{OnlyReads};
ghost use Rattle.top_call.specs.Input.{held, IsReadable, IsGraphIn, ArePointsIn, AreStopsIn, IsNetworkIn, IsInput};
ghost use Rattle.top_call.specs.Turns.{IsFile, IsPointsTurn, IsStopsTurn, IsTurn};
ghost use Rattle.top_call.specs.Rejected.{StopsBy, RejectsGraph, RejectsPoints, RejectsPlaces, RejectsStops, RejectsNetwork, RejectsInput};
ghost use Rattle.top_call.specs.Status.{HasCause};

use crate::feed::{day_trips, read_folder};
use crate::inputs::{read_file, read_optional, status_of};
use crate::status::Status;
use crate::words::PlanWords;
use gtfs_feed::Feed;
use move_files::Files;
use move_model::{FileKind, List, Network, Queries, Stops, Trips};
use plan_core::read_queries;
use std::alloc::Global;
use stop_match::Grid;
use stop_places::{Near, place_stops};
use street_graph::{Graph, read_co, read_gr};

// Reads the street graph.
#[tactic(auto, unfolding(crate::specs::Status::HasCause, crate::specs::Rejected::StopsBy))]
fn read_streets<F: Files>(alloc: Global, plan: &PlanWords, files: &mut F) -> Result<Graph, Status>
    ensures told { F.tells → IfOk result (IsGraphIn (held (told plan.now) (F.holds files.old))) }
    ensures rejected { F.tells → IfErr result (StopsBy (RejectsGraph (held (told plan.now) (F.holds files.old))) (IsFile Kind.Gr)) }
    ensures cause { IfErr result (HasCause (told plan.now) F.Files files.old files.new) }
    ensures reads { OnlyReads F.Files files.old files.new }
{
    let bytes = read_file(alloc, plan, files, FileKind::Gr)?;
    match read_gr(alloc, &bytes) {
        Ok(graph) => Ok(graph),
        Err(stopped) => Err(status_of(stopped)),
    }
}

// Reads the points of so many vertices, where CO names a file.
#[tactic(auto, unfolding(crate::specs::Status::HasCause, crate::specs::Rejected::StopsBy))]
fn read_points<F: Files>(
    alloc: Global,
    plan: &PlanWords,
    files: &mut F,
    nodes: u32,
) -> Result<Option<Grid>, Status>
    requires { 0 < nodes }
    ensures told { F.tells → IfOk result (ArePointsIn (told plan.now) (held (told plan.now) (F.holds files.old)) nodes) }
    ensures rejected { F.tells → IfErr result (StopsBy (RejectsPoints (told plan.now) (held (told plan.now) (F.holds files.old)) nodes) (IsPointsTurn (told plan.now))) }
    ensures one_each { IfOk result (λ points. ForSome points (λ points. length points ≡ nodes)) }
    ensures cause { IfErr result (HasCause (told plan.now) F.Files files.old files.new) }
    ensures reads { OnlyReads F.Files files.old files.new }
{
    if plan.co == "-" {
        return Ok(None);
    }
    let bytes = read_file(alloc, plan, files, FileKind::Co)?;
    let points = match read_co(alloc, &bytes, nodes) {
        Ok(points) => points,
        Err(stopped) => return Err(status_of(stopped)),
    };
    match Grid::new(alloc, &points) {
        Ok(grid) => Ok(Some(grid)),
        Err(_) => Err(Status::NoMemory),
    }
}

// Reads the vertices of the stops, and places the stops.
#[tactic(auto, unfolding(crate::specs::Status::HasCause, crate::specs::Rejected::StopsBy))]
fn read_places<F: Files>(
    alloc: Global,
    plan: &PlanWords,
    files: &mut F,
    feed: &Feed,
    nodes: u32,
    near: Option<Near>,
) -> Result<Stops, Status>
    requires scale { IfSome near (λ near. near.scale ≤ 1000) }
    requires points { IfSome near (λ near. length near.grid.now ≡ nodes) }
    ensures told { F.tells → IfOk result (ArePlaced (table_vertex (held (told plan.now) (F.holds files.old) Kind.StopNodes)) near.entry feed.now.stops) }
    ensures accepted { F.tells → OnOk result (TableAccepted feed.now.stops nodes (held (told plan.now) (F.holds files.old) Kind.StopNodes)) }
    ensures readable { F.tells → OnOk result (IsReadable (held (told plan.now) (F.holds files.old)) Kind.StopNodes) }
    ensures rejected { F.tells → IfErr result (StopsBy (RejectsPlaces (held (told plan.now) (F.holds files.old)) near.entry feed.now.stops nodes) (IsFile Kind.StopNodes)) }
    ensures vertices { IfOk result (All (λ stop. (1 ≤ stop.node.0) × (stop.node.0 ≤ nodes))) }
    ensures as_many { IfOk result (λ placed. length placed ≡ length feed.now.stops) }
    ensures cause { IfErr result (HasCause (told plan.now) F.Files files.old files.new) }
    ensures reads { OnlyReads F.Files files.old files.new }
{
    let bytes = read_optional(alloc, plan, files, FileKind::StopNodes)?;
    match place_stops(alloc, bytes.as_deref(), feed.stops.as_slice(), nodes, near) {
        Ok(stops) => Ok(stops),
        Err(stopped) => Err(status_of(stopped)),
    }
}

// Reads the stops of a feed at their vertices.
#[tactic(auto, unfolding(crate::specs::Status::HasCause, crate::specs::Rejected::StopsBy))]
fn read_stops<F: Files>(
    alloc: Global,
    plan: &PlanWords,
    files: &mut F,
    feed: &Feed,
    nodes: u32,
) -> Result<Stops, Status>
    requires scale { plan.now.scale ≤ 1000 }
    requires some { 0 < nodes }
    ensures told { F.tells → IfOk result (AreStopsIn (told plan.now) (held (told plan.now) (F.holds files.old)) feed.now nodes) }
    ensures rejected { F.tells → IfErr result (StopsBy (RejectsStops (told plan.now) (held (told plan.now) (F.holds files.old)) feed.now nodes) (IsStopsTurn (told plan.now) (held (told plan.now) (F.holds files.old)) nodes)) }
    ensures vertices { IfOk result (All (λ stop. (1 ≤ stop.node.0) × (stop.node.0 ≤ nodes))) }
    ensures as_many { IfOk result (λ placed. length placed ≡ length feed.now.stops) }
    ensures cause { IfErr result (HasCause (told plan.now) F.Files files.old files.new) }
    ensures reads { OnlyReads F.Files files.old files.new }
{
    match read_points(alloc, plan, files, nodes)? {
        None => read_places(alloc, plan, files, feed, nodes, None),
        Some(grid) => {
            let near = Near {
                grid: &grid,
                scale: plan.scale,
            };
            read_places(alloc, plan, files, feed, nodes, Some(near))
        }
    }
}

// The network of its parts.
fn network_of(
    alloc: Global,
    graph: &Graph,
    stops: Stops,
    trips: Trips,
    buffer: u32,
) -> Result<Network, Status>
    ensures parts { IfOk result (λ n. (streets n ≡ graph.now) × (n.stops ≡ stops) × (n.trips ≡ trips) × (n.buffer ≡ buffer)) }
    ensures within { OnOk result (IsWithinLimits graph.now) }
    ensures wants { IfErr result (λ status. status ≡ Status.NoMemory) }
{
    let Ok(arcs) = List::from_slice(alloc, graph.arcs()) else {
        return Err(Status::NoMemory);
    };
    Ok(Network {
        nodes: graph.nodes(),
        arcs,
        stops,
        trips,
        buffer,
    })
}

// Reads the network of the files.
fn read_network<F: Files>(alloc: Global, plan: &PlanWords, files: &mut F) -> Result<Network, Status>
    requires date { IsDay plan.now.date }
    requires scale { plan.now.scale ≤ 1000 }
    requires buffer { plan.now.buffer ≤ 3600 }
    ensures told { F.tells → IfOk result (IsNetworkIn (told plan.now) (held (told plan.now) (F.holds files.old))) }
    ensures rejected { F.tells → IfErr result (StopsBy (RejectsNetwork (told plan.now) (held (told plan.now) (F.holds files.old))) (IsTurn (told plan.now) (held (told plan.now) (F.holds files.old)))) }
    ensures rules { IfOk result KeepsRules }
    ensures numbered { IfOk result IsNumbered }
    ensures cause { IfErr result (HasCause (told plan.now) F.Files files.old files.new) }
    ensures reads { OnlyReads F.Files files.old files.new }
{
    let feed = read_folder(alloc, plan, files)?;
    let trips = day_trips(alloc, &feed, plan.date)?;
    let graph = read_streets(alloc, plan, files)?;
    let stops = read_stops(alloc, plan, files, &feed, graph.nodes())?;
    let network = network_of(alloc, &graph, stops, trips, plan.buffer)?;
    Ok(network)
}

/// Reads the network and the queries of the files.
#[tactic(auto, unfolding(crate::specs::Status::HasCause, crate::specs::Rejected::StopsBy))]
pub fn read_inputs<F: Files>(
    alloc: Global,
    plan: &PlanWords,
    files: &mut F,
) -> Result<(Network, Queries), Status>
    requires date { IsDay plan.now.date }
    requires scale { plan.now.scale ≤ 1000 }
    requires buffer { plan.now.buffer ≤ 3600 }
    ensures input { F.tells → IfOk result (λ inputs. IsInput (told plan.now) (held (told plan.now) (F.holds files.old)) inputs.0 inputs.1) }
    ensures rejected { F.tells → IfErr result (StopsBy (RejectsInput (told plan.now) (held (told plan.now) (F.holds files.old))) (IsTurn (told plan.now) (held (told plan.now) (F.holds files.old)))) }
    ensures rules { IfOk result (λ inputs. KeepsRules inputs.0 × IsNumbered inputs.0) }
    ensures queries { IfOk result (λ inputs. All (IsQuery inputs.0) inputs.1) }
    ensures few { IfOk result (λ inputs. length inputs.1 ≤ 100000) }
    ensures cause { IfErr result (HasCause (told plan.now) F.Files files.old files.new) }
    ensures reads { OnlyReads F.Files files.old files.new }
{
    let network = read_network(alloc, plan, files)?;
    let bytes = read_file(alloc, plan, files, FileKind::Queries)?;
    match read_queries(alloc, &bytes, &network) {
        Ok(queries) => Ok((network, queries)),
        Err(stopped) => Err(status_of(stopped)),
    }
}
