//! Tables: files of records of comma-separated fields, as GTFS has them.
//!
//! `specs/Table.antt` defines the table of a file's bytes. `open_table` reads its header and lends its rows, one at a
//! time, so that a long file is never held as a list of records; `find_column` and `cell` find a row's values. The
//! values that several files share are read by `read_number`, `read_number_within`, `check_id` and `read_second`, each a
//! test of a rule into an optional cause. `Names` holds names that were seen, each with its place.
#![tactic(auto)]

mod column;
mod names;
mod rows;
mod value;

pub use column::{cell, cell_at, find_column, require_column};
pub use csv::ByteRecord;
pub use names::Names;
pub use rows::{Rows, Table, count_rows, open_table, rows_above};
pub use value::{check_id, read_number, read_number_within, read_second};
