// The rules of a row.
ghost use Rattle.std.specs.Prelude.{◌≡◌, ◌≤◌, IfOk, if◌then◌else◌};
ghost use Rattle.csv.specs.Records.{fields_of};
ghost use Rattle.refusals.specs.Refusal.{Tests, first_cause};
ghost use Rattle.tables.specs.Table.{cell as cell_in};
ghost use Rattle.tables.specs.Values.{number_broken, number_in, time_in};
ghost use Rattle.query_table.specs.Row.{values_of, query_with};
ghost use Rattle.query_table.specs.Rules as spec;

use crate::columns::Columns;
use crate::place::place;
use crate::stops::StopIds;
use move_model::{Cause, List, Name, Network, NodeNo, Place, Query};
use std::alloc::{AllocError, Global};
use tables::{ByteRecord, cell, read_number_within, read_second};

// The seconds of the longest window, both ends included.
const LONGEST_WINDOW: u32 = 86_400;

/// The values of a row that breaks no rule. `last` is 0 where the row is of no range.
#[derive(Clone, Copy)]
pub struct Values {
    pub range: bool,
    pub from: NodeNo,
    pub to: NodeNo,
    pub first: u32,
    pub last: u32,
    pub limit: u8,
}

#[tactic(auto, unfolding(crate::specs::Rules::is_unbuilt))]
fn is_unbuilt(text: &[u8]) -> bool
    ensures { result ≡ spec.is_unbuilt text.now }
{
    text == b"by".as_slice() || text == b"reach".as_slice()
}

// Whether the kind is a range.
#[tactic(auto, unfolding(crate::specs::Rules::kind_broken, crate::specs::Rules::is_range))]
fn kind(text: &[u8]) -> Result<bool, Cause>
    ensures { Tests result (spec.kind_broken text.now) (spec.is_range text.now) }
{
    if text == b"at".as_slice() {
        Ok(false)
    } else if is_unbuilt(text) {
        Err(Cause::Unbuilt)
    } else if text == b"range".as_slice() {
        Ok(true)
    } else {
        Err(Cause::Kind)
    }
}

#[tactic(auto, unfolding(crate::specs::Rules::window_broken))]
fn window(first: u32, last: u32) -> Result<(), Cause>
    requires { last ≤ 3599999 }
    ensures { Tests result (spec.window_broken first last) tt }
{
    if last < first {
        return Err(Cause::Window(0));
    }
    let seconds = last - first + 1;
    if seconds <= LONGEST_WINDOW {
        Ok(())
    } else {
        Err(Cause::Window(u64::from(seconds)))
    }
}

// The last second of a range.
#[tactic(auto, unfolding(crate::specs::Rules::last_broken))]
fn last_second(range: bool, first: u32, text: &[u8]) -> Result<u32, Cause>
    ensures { Tests result (spec.last_broken range first text.now) (if range then time_in text.now else 0) }
{
    if !range {
        return Ok(0);
    }
    let last = read_second(text)?;
    window(first, last)?;
    Ok(last)
}

// The greatest number of trips of a journey.
fn limit(text: &[u8]) -> Result<u8, Cause>
    ensures { Tests result (number_broken 0 16 text.now) (number_in text.now) }
{
    match read_number_within(text, 0, 16) {
        Ok(number) => Ok(number as u8),
        Err(cause) => Err(cause),
    }
}

/// Tests the rules of a row, in their order.
#[tactic(auto, unfolding(crate::specs::Rules::query_rules))]
pub fn test_row(
    network: &Network,
    ids: &StopIds,
    columns: &Columns,
    row: &ByteRecord,
) -> Result<Values, Cause>
    requires { ids.now ≡ network.now.stops }
    ensures { Tests result (first_cause (spec.query_rules network.now columns.now) (fields_of row.now)) (values_of network.now columns.now (fields_of row.now)) }
{
    let range = kind(cell(row, columns.kind))?;
    let from = place(network, ids, cell(row, columns.from))?;
    let to = place(network, ids, cell(row, columns.to))?;
    let first = read_second(cell(row, columns.first))?;
    let last = last_second(range, first, cell(row, columns.last))?;
    let limit = limit(cell(row, columns.trips))?;
    Ok(Values {
        range,
        from,
        to,
        first,
        last,
        limit,
    })
}

fn place_at(alloc: Global, node: NodeNo, word: &[u8]) -> Result<Place, AllocError>
    ensures { IfOk result (λ place. place ≡ record { node = node; word = word.now }) }
{
    let word = Name::from_slice(alloc, word)?;
    Ok(Place { node, word })
}

/// The query of a row with these values.
#[tactic(auto, unfolding(crate::specs::Row::query_with))]
pub fn query(
    alloc: Global,
    columns: &Columns,
    row: &ByteRecord,
    values: Values,
) -> Result<Query, AllocError>
    ensures { IfOk result (λ query. query ≡ query_with values (cell_in columns.now.from (fields_of row.now)) (cell_in columns.now.to (fields_of row.now))) }
{
    let from = place_at(alloc, values.from, cell(row, columns.from))?;
    let to = place_at(alloc, values.to, cell(row, columns.to))?;
    Ok(if values.range {
        Query::Range {
            from,
            to,
            first: values.first,
            last: values.last,
            limit: values.limit,
        }
    } else {
        Query::At {
            from,
            to,
            depart: values.first,
            limit: values.limit,
        }
    })
}
