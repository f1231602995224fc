// The queries.
ghost use Rattle.std.specs.Prelude.{◌≡◌, ◌++◌, ◌+◌, ◌*◌, ◌<◌, ◌≤◌, IfOk, OnOk};
ghost use Rattle.city_maker.specs.Asked as spec;

use crate::draws::Draws;
use itoa::Buffer;
use move_model::{List, NoMemory, NodeNo, Place, Queries, Query};
use std::alloc::Global;

const QUERIES: u32 = 20;

// So many of them leave at a second, the others within a window.
const POINT_QUERIES: u32 = 16;

// The seconds from the first of a window to its last.
const WINDOW: u32 = 1_799;

// The greatest number of trips.
const LIMIT: u8 = 4;

// The vertex with a number, named by it.
fn place_of(alloc: Global, v: u32) -> Result<Place, NoMemory>
    ensures { IfOk result (λ place. place ≡ spec.place_of v) }
{
    let mut buffer = Buffer::new();
    let mut word = Vec::from_slice(alloc, b"node:")?;
    word.extend_from_slice(buffer.format(v).as_bytes())?;
    Ok(Place {
        node: NodeNo(v),
        word: List::from_vec(word),
    })
}

// A vertex by the next draw.
fn place_at(alloc: Global, draws: &mut Draws, side: u32) -> Result<Place, NoMemory>
    requires side { 0 < side }
    requires few { side ≤ 200 }
    requires made { draws.old.made < 100000 }
    ensures place { IfOk result (λ place. place ≡ spec.place_at side draws.old.number draws.old.made) }
    ensures number { draws.new.number ≡ draws.old.number }
    ensures made { draws.new.made ≡ draws.old.made + 1 }
{
    place_of(alloc, 1 + draws.below(side * side))
}

// A query by its number, from 0.
fn query_with(number: u32, from: Place, to: Place, second: u32) -> Query
    requires { second < 36000 }
    ensures { result ≡ spec.query_with number from to second }
{
    if number < POINT_QUERIES {
        Query::At {
            from,
            to,
            depart: second,
            limit: LIMIT,
        }
    } else {
        Query::Range {
            from,
            to,
            first: second,
            last: second + WINDOW,
            limit: LIMIT,
        }
    }
}

// The query of the next three draws.
fn draw_query(alloc: Global, draws: &mut Draws, side: u32, number: u32) -> Result<Query, NoMemory>
    requires side { 0 < side }
    requires few { side ≤ 200 }
    requires made { draws.old.made < 90000 + 3 * 20 }
    ensures query { IfOk result (λ query. query ≡ spec.query_with number (spec.place_at side draws.old.number draws.old.made)
        (spec.place_at side draws.old.number (draws.old.made + 1)) (spec.second_at draws.old.number (draws.old.made + 2))) }
    ensures number { OnOk result (draws.new.number ≡ draws.old.number) }
    ensures made { OnOk result (draws.new.made ≡ draws.old.made + 3) }
{
    let from = place_at(alloc, draws, side)?;
    let to = place_at(alloc, draws, side)?;
    let second = 23_400 + draws.below(7_200);
    Ok(query_with(number, from, to, second))
}

/// The queries over a city.
#[tactic(auto, using(crate::proofs::Ranges::map_range_more), unfolding(crate::specs::Asked::city_queries))]
pub(crate) fn city_queries(alloc: Global, draws: &mut Draws, side: u32) -> Result<Queries, NoMemory>
    requires side { 0 < side }
    requires few { side ≤ 200 }
    requires made { draws.old.made ≤ 90000 }
    ensures { IfOk result (λ queries. queries ≡ spec.city_queries side draws.old.number draws.old.made) }
{
    let mut queries = Vec::with_capacity(alloc, QUERIES as usize)?;
    for number in 0..QUERIES {
        queries.push_reserved(draw_query(alloc, draws, side, number)?);
    }
    Ok(List::from_vec(queries))
}
