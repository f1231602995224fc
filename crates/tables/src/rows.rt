// A table, one record at a time.
ghost use Rattle.std.specs.Prelude.{◌≡◌, [], ◌∷◌, length, count_by, nat_lt, if◌then◌else◌, IfOk, OnErr};
ghost use Rattle.std.specs.Bool.{MatchBool};
ghost use Rattle.csv.specs.Records.{fields_of};
ghost use Rattle.tables.specs.Table.{cut_marks, table_of, header_of, rows_of, is_line_end};

use csv::{ByteRecord, Reader, ReaderBuilder};
use std::alloc::{AllocError, Global};
use std::marker::Model;

// The byte order mark U+FEFF in UTF-8.
const MARK: [u8; 3] = [0xEF, 0xBB, 0xBF];

/// The records of a table that are not read yet, seen as their list. After a read that found no record, or no memory,
/// there is none.
#[derive(Drop)]
pub struct Rows<'a> {
    reader: Reader<&'a [u8]>,
    reading: bool,
}

impl<'a> Model for Rows<'a> {
    ghost use Rattle.std.specs.Prelude.{◌≡◌, ℕ, List, [], true, if◌then◌else◌};
    ghost use Rattle.tables.specs.Unread.{unread, ReadsTable};

    ghost Value = { List (List (List ℕ)) };

    ghost view = { λ rows. if rows.reading then unread rows.reader else [] };

    ghost invariant = { λ rows. rows.reading ≡ true → ReadsTable rows.reader };
}

impl Rows<'_> {
    /// Reads the next record into `row`, and answers whether there was one. Where there is none, `row` has no field.
    pub fn next_row(&mut self, row: &mut ByteRecord) -> Result<bool, AllocError>
        ensures reads { IfOk result (λ found. MatchBool found
            (self.old ≡ fields_of row.new ∷ self.new)
            ((self.old ≡ []) × (self.new ≡ []) × (fields_of row.new ≡ []))) }
        ensures failed { OnErr result (self.new ≡ []) }
    {
        if !self.reading {
            row.clear();
            return Ok(false);
        }
        let Ok(found) = self.reader.read_byte_record(row) else {
            self.reading = false;
            return Err(AllocError);
        };
        if !found {
            self.reading = false;
            row.clear();
            return Ok(false);
        }
        Ok(true)
    }
}

/// A table whose header is read.
#[derive(Drop)]
pub struct Table<'a> {
    pub header: ByteRecord,
    pub rows: Rows<'a>,
}

// The bytes without the marks at their start.
fn without_marks(bytes: &[u8]) -> &[u8]
    ensures { result.now ≡ cut_marks bytes.now }
{
    let mut rest = bytes;
    while let Some(after) = rest.strip_prefix(&MARK) {
        rest = after;
    }
    rest
}

// All records of the bytes.
fn all_records(alloc: Global, bytes: &[u8]) -> Rows
    ensures { result ≡ table_of bytes.now }
{
    Rows {
        reader: ReaderBuilder::new()
            .has_headers(false)
            .flexible(true)
            .from_reader(alloc, without_marks(bytes)),
        reading: true,
    }
}

/// Reads the header of a table, and lends its rows. A file without a record has a header without a field.
pub fn open_table(alloc: Global, bytes: &[u8]) -> Result<Table, AllocError>
    ensures header { IfOk result (λ table. fields_of table.header ≡ header_of bytes.now) }
    ensures rows { IfOk result (λ table. table.rows ≡ rows_of bytes.now) }
{
    let mut rows = all_records(alloc, bytes);
    let mut header = ByteRecord::new(alloc);
    match rows.next_row(&mut header) {
        Ok(_) => Ok(Table { header, rows }),
        Err(error) => Err(error),
    }
}

/// How many rows a table has behind its header.
pub fn count_rows(alloc: Global, bytes: &[u8]) -> Result<usize, AllocError>
    ensures { IfOk result (λ count. count ≡ length (rows_of bytes.now)) }
{
    let Table {
        header: mut row,
        mut rows,
    } = open_table(alloc, bytes)?;
    let mut count = 0;
    while rows.next_row(&mut row)? {
        count += 1;
    }
    Ok(count)
}

// How many bytes end a line, of which each record but the last has one at least.
fn count_line_ends(bytes: &[u8]) -> usize
    ensures { result ≡ count_by is_line_end bytes.now }
{
    bytes
        .iter()
        .filter(|byte| **byte == b'\n' || **byte == b'\r')
        .count()
}

/// The number of rows behind the header where it is above a limit, else None. A file of few lines is not parsed for it.
pub fn rows_above(alloc: Global, bytes: &[u8], limit: usize) -> Result<Option<usize>, AllocError>
    ensures { IfOk result (λ above. above ≡ (if nat_lt limit (length (rows_of bytes.now)) then Some (length (rows_of bytes.now)) else None)) }
{
    if count_line_ends(bytes) <= limit {
        return Ok(None);
    }
    let count = count_rows(alloc, bytes)?;
    if count > limit {
        Ok(Some(count))
    } else {
        Ok(None)
    }
}
