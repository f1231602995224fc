// Columns and their values.
ghost use Rattle.std.specs.Prelude.{◌≡◌, [], ◌∷◌, slice_index_or, unwrap_or};
ghost use Rattle.csv.specs.Records.{fields_of};
ghost use Rattle.refusals.specs.Refusal.{Tests};
ghost use Rattle.tables.specs.Table as spec;

use csv::ByteRecord;
use move_model::Cause;

// The field at a place; past a record's end it is empty.
fn field(row: &ByteRecord, place: usize) -> &[u8]
    ensures { result.now ≡ slice_index_or (fields_of row.now) place [] }
{
    match row.get(place) {
        Some(text) => text,
        None => b"",
    }
}

fn is_blank(byte: u8) -> bool
    ensures { result ≡ spec.is_blank byte }
{
    byte == b' ' || byte == b'\t'
}

fn without_front(text: &[u8]) -> &[u8]
    ensures { result.now ≡ spec.cut_front text.now }
{
    let mut start = 0;
    while start < text.len() && is_blank(text[start]) {
        start += 1;
    }
    &text[start..]
}

fn without_back(text: &[u8]) -> &[u8]
    ensures { result.now ≡ spec.cut_back text.now }
{
    let mut end = text.len();
    while end > 0 && is_blank(text[end - 1]) {
        end -= 1;
    }
    &text[..end]
}

#[tactic(auto, unfolding(crate::specs::Table::trimmed))]
fn trimmed(text: &[u8]) -> &[u8]
    ensures { result.now ≡ spec.trimmed text.now }
{
    without_back(without_front(text))
}

/// The value at a place of a row: the field there without the spaces and tabs at its ends, empty past the row's fields.
pub fn cell_at(row: &ByteRecord, place: usize) -> &[u8]
    ensures { result.now ≡ spec.cell_at place (fields_of row.now) }
{
    trimmed(field(row, place))
}

/// The value of a column of a row, which is empty where the file has no such column.
pub fn cell(row: &ByteRecord, column: Option<usize>) -> &[u8]
    ensures { result.now ≡ spec.cell column (fields_of row.now) }
{
    match column {
        Some(place) => cell_at(row, place),
        None => b"",
    }
}

/// The place of the first column with a name, or None where the header has no such name.
pub fn find_column(header: &ByteRecord, name: &[u8]) -> Option<usize>
    ensures { result ≡ spec.column_of name.now (fields_of header.now) }
{
    for place in 0..header.len() {
        if cell_at(header, place) == name {
            return Some(place);
        }
    }
    None
}

/// Tests that a required column, the one at this place of its file's required columns, was found.
#[tactic(auto, unfolding(crate::specs::Table::missing_broken))]
pub fn require_column(place: u32, column: Option<usize>) -> Result<usize, Cause>
    ensures { Tests result (spec.missing_broken place column) (unwrap_or column 0) }
{
    match column {
        Some(found) => Ok(found),
        None => Err(Cause::NoColumn(place)),
    }
}
