// The rules of a row.
ghost use Rattle.std.specs.Prelude.{◌≡◌, ◌≤◌, None, IfOk, OnOk};
ghost use Rattle.csv.specs.Records.{fields_of};
ghost use Rattle.refusals.specs.Refusal.{Tests, first_cause};
ghost use Rattle.tables.specs.Names.{place_of};
ghost use Rattle.tables.specs.Table.{cell as cell_in};
ghost use Rattle.tables.specs.Values.{number_in};
ghost use Rattle.stop_places.specs.Rules as spec;

use crate::columns::Columns;
use crate::given::Given;
use crate::ids::StopIds;
use move_model::Cause;
use tables::{ByteRecord, Names, cell, check_id, read_number};

#[tactic(auto, unfolding(crate::specs::Rules::unknown_broken))]
fn check_known(ids: &StopIds, id: &[u8]) -> Result<(), Cause>
    ensures { Tests result (spec.unknown_broken ids.now id.now) tt }
{
    if ids.has(id) {
        Ok(())
    } else {
        Err(Cause::UnknownStop)
    }
}

#[tactic(auto, unfolding(crate::specs::Rules::repeated_broken))]
fn check_new(earlier: &Names, id: &[u8]) -> Result<(), Cause>
    ensures test { Tests result (spec.repeated_broken earlier.now id.now) tt }
    ensures absent { OnOk result (place_of id.now earlier.now ≡ None) }
{
    match earlier.place(id) {
        Some(_) => Err(Cause::Repeated),
        None => Ok(()),
    }
}

// The number of a vertex.
#[tactic(auto, unfolding(crate::specs::Rules::node_broken))]
fn node(text: &[u8], nodes: u32) -> Result<u32, Cause>
    ensures value { Tests result (spec.node_broken nodes text.now) (number_in text.now) }
    ensures vertex { IfOk result (λ number. (1 ≤ number) × (number ≤ nodes)) }
{
    match read_number(text) {
        None => Err(Cause::Number),
        Some(number) => {
            if 1 <= number && number <= u64::from(nodes) {
                Ok(number as u32)
            } else {
                Err(Cause::Vertex(number))
            }
        }
    }
}

/// Tests the rules of a row behind those that gave vertices, in their order; the value is the vertex that it gives.
#[tactic(auto, unfolding(crate::specs::Rules::row_rules))]
pub(crate) fn test_row(
    ids: &StopIds,
    nodes: u32,
    given: &Given,
    columns: &Columns,
    row: &ByteRecord,
) -> Result<u32, Cause>
    ensures rules { Tests result (first_cause (spec.row_rules ids.now nodes columns.now) (record { earlier = given.now.names; row = fields_of row.now }))
        (number_in (cell_in columns.now.node (fields_of row.now))) }
    ensures absent { OnOk result (place_of (cell_in columns.now.stop_id (fields_of row.now)) given.now.names ≡ None) }
    ensures vertex { IfOk result (λ number. (1 ≤ number) × (number ≤ nodes)) }
{
    check_id(cell(row, columns.stop_id))?;
    check_known(ids, cell(row, columns.stop_id))?;
    check_new(&given.names, cell(row, columns.stop_id))?;
    let number = node(cell(row, columns.node), nodes)?;
    Ok(number)
}
