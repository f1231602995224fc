// The whole city.
ghost use Rattle.std.specs.Prelude.{◌≡◌, ◌*◌, ◌≤◌, All, IfOk};
ghost use Rattle.move_model.specs.Check.{KeepsRules};
ghost use Rattle.move_model.specs.Network.{IsNumbered};
ghost use Rattle.city_maker.specs.Asked.{IsAsked};
ghost use Rattle.city_maker.specs.City.{IsCity};

use crate::draws::Draws;
use crate::line::Line;
use crate::order::numbered;
use crate::queries::city_queries;
use crate::stops::city_stops;
use crate::streets::city_arcs;
use crate::trips::city_trips;
use move_model::{Network, NoMemory, Queries};
use std::alloc::Global;

/// A network, and queries over it.
#[derive(Debug, Drop)]
pub struct Generated {
    pub network: Network,
    pub queries: Queries,
}

/// The city of `side` rows and columns of vertices and of so many lines, by the draws that the number begins. It has
/// `side * side` vertices, streets between neighbours of one to two minutes, lines that run every five to fifteen minutes
/// from 06:00:00 to 10:00:00, no buffer, and twenty queries with at most four trips: sixteen at a second, and four over half
/// an hour.
pub fn city(alloc: Global, side: u32, lines: u32, number: u64) -> Result<Generated, NoMemory>
    requires least { 5 ≤ side }
    requires most { side ≤ 200 }
    requires few { lines ≤ 200 }
    ensures city { IfOk result (IsCity side lines number) }

    // It keeps the rules and limits of a network, and its queries fit it.
    ensures rules { IfOk result (λ city. KeepsRules city.network) }
    ensures numbered { IfOk result (λ city. IsNumbered city.network) }
    ensures asked { IfOk result (λ city. All (IsAsked city.network) city.queries) }
{
    let mut draws = Draws::new(number);
    let drawn = Line::draw_all(alloc, &mut draws, side, lines)?;
    let arcs = city_arcs(alloc, &mut draws, side)?;
    let queries = city_queries(alloc, &mut draws, side)?;
    let stops = city_stops(alloc, side, drawn.as_slice())?;
    let trips = numbered(city_trips(alloc, side, drawn.as_slice())?)?;
    let network = Network {
        nodes: side * side,
        arcs,
        stops,
        trips,
        buffer: 0,
    };
    Ok(Generated { network, queries })
}
