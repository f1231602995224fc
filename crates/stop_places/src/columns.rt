// The columns of the table of vertices.
ghost use Rattle.std.specs.Prelude.{◌≡◌};
ghost use Rattle.csv.specs.Records.{fields_of};
ghost use Rattle.refusals.specs.Refusal.{Tests, first_cause};
ghost use Rattle.stop_places.specs.Rules.{columns_of, column_rules};

use move_model::Cause;
use tables::{ByteRecord, find_column, require_column};

/// The place of each column in the header, or None where the header has no such name.
#[derive(Clone, Copy)]
pub(crate) struct Columns {
    pub(crate) stop_id: Option<usize>,
    pub(crate) node: Option<usize>,
}

/// Finds the columns in a header.
#[tactic(auto, unfolding(crate::specs::Rules::columns_of))]
pub(crate) fn find_columns(header: &ByteRecord) -> Columns
    ensures { result ≡ columns_of (fields_of header.now) }
{
    Columns {
        stop_id: find_column(header, b"stop_id"),
        node: find_column(header, b"node"),
    }
}

/// Tests that each column is there, in their order.
pub(crate) fn require_columns(columns: Columns) -> Result<(), Cause>
    ensures { Tests result (first_cause column_rules columns) tt }
{
    require_column(0, columns.stop_id)?;
    require_column(1, columns.node)?;
    Ok(())
}
