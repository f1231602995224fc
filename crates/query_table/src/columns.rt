// The columns of a table of queries.
ghost use Rattle.std.specs.Prelude.{◌≡◌};
ghost use Rattle.csv.specs.Records.{fields_of};
ghost use Rattle.refusals.specs.Refusal.{Tests, first_cause};
ghost use Rattle.query_table.specs.Rules.{columns_of, column_rules};

use move_model::Cause;
use tables::{ByteRecord, find_column, require_column};

/// The place of each column in the header, or None where the header has no such name.
#[derive(Clone, Copy)]
pub struct Columns {
    pub kind: Option<usize>,
    pub from: Option<usize>,
    pub to: Option<usize>,
    pub first: Option<usize>,
    pub last: Option<usize>,
    pub trips: Option<usize>,
}

/// Finds the columns in a header.
#[tactic(auto, unfolding(crate::specs::Rules::columns_of))]
pub fn find_columns(header: &ByteRecord) -> Columns
    ensures { result ≡ columns_of (fields_of header.now) }
{
    Columns {
        kind: find_column(header, b"kind"),
        from: find_column(header, b"from"),
        to: find_column(header, b"to"),
        first: find_column(header, b"first"),
        last: find_column(header, b"last"),
        trips: find_column(header, b"trips"),
    }
}

/// Tests that each column is there, in their order.
pub fn require_columns(columns: Columns) -> Result<(), Cause>
    ensures { Tests result (first_cause column_rules columns) tt }
{
    require_column(0, columns.kind)?;
    require_column(1, columns.from)?;
    require_column(2, columns.to)?;
    require_column(3, columns.first)?;
    require_column(4, columns.last)?;
    require_column(5, columns.trips)?;
    Ok(())
}
