// The stops of lines.
ghost use Rattle.std.specs.Prelude.{◌≡◌, ◌++◌, ◌+◌, ◌*◌, ◌<◌, ◌≤◌, All, IfOk, OnOk, codes, decimal};
ghost use Rattle.city_maker.specs.Lines as spec;
ghost use Rattle.city_maker.specs.Lines.{Fits};
ghost use Rattle.city_maker.specs.Streets as streets;

use crate::line::Line;
use itoa::Buffer;
use move_model::{List, Name, NoMemory, NodeNo, Stop, Stops};
use std::alloc::Global;

// The places from one stop of a line to the next.
const APART: u32 = 4;

/// How many stops a line has.
pub(crate) fn stops_along(side: u32) -> u32
    ensures { result ≡ spec.stops_along side }
{
    side.div_ceil(APART)
}

/// The name of a stop or a trip of a line.
pub(crate) fn name_at(
    alloc: Global,
    line: Line,
    letter: &[u8],
    number: u32,
) -> Result<Name, NoMemory>
    ensures { IfOk result (λ name. name ≡ spec.name_at line letter.now number) }
{
    let mut buffer = Buffer::new();
    let mut name = Vec::from_slice(alloc, b"L")?;
    name.extend_from_slice(buffer.format(line.number).as_bytes())?;
    name.extend_from_slice(letter)?;
    name.extend_from_slice(buffer.format(number).as_bytes())?;
    Ok(List::from_vec(name))
}

// The vertex in a row and a column.
fn vertex(side: u32, row: u32, column: u32) -> NodeNo
    requires side { side ≤ 200 }
    requires row { row < side }
    requires column { column < side }
    ensures { result ≡ streets.vertex side row column }
{
    NodeNo(row * side + column + 1)
}

// The vertex at which a stop of a line stands.
fn stop_node(side: u32, line: Line, i: u32) -> NodeNo
    requires side { side ≤ 200 }
    requires line { Fits side line }
    requires within { i < spec.stops_along side }
    ensures { result ≡ spec.stop_node side line i }
{
    let place = APART * i;
    if line.number % 2 == 0 {
        vertex(side, line.place, place)
    } else {
        vertex(side, place, line.place)
    }
}

// Puts the stops of a line last.
#[tactic(auto, using(crate::proofs::Ranges::map_range_more))]
fn put_stops(alloc: Global, side: u32, line: Line, stops: &mut Vec<Stop>) -> Result<(), NoMemory>
    requires side { side ≤ 200 }
    requires line { Fits side line }
    ensures { OnOk result (stops.new.items ≡ stops.old.items ++ spec.stops_of side line) }
{
    for i in 0..stops_along(side) {
        let name = name_at(alloc, line, b"_", i)?;
        let node = stop_node(side, line, i);
        stops.push(Stop { node, name })?;
    }
    Ok(())
}

/// The stops of a city.
pub(crate) fn city_stops(alloc: Global, side: u32, lines: &[Line]) -> Result<Stops, NoMemory>
    requires side { side ≤ 200 }
    requires lines { All (Fits side) lines.now }
    ensures { IfOk result (λ stops. stops ≡ spec.city_stops side lines.now) }
{
    let mut stops = Vec::new(alloc);
    for line in lines {
        put_stops(alloc, side, *line, &mut stops)?;
    }
    Ok(List::from_vec(stops))
}
