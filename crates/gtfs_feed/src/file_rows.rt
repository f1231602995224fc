// The rows of a file of the feed, one at a time.
ghost use Rattle.std.specs.Prelude.{◌≡◌, ◌<◌, length, IfOk, IfErr};
ghost use Rattle.std.specs.Bool.{OnTrue, OnFalse};
ghost use Rattle.move_model.specs.declared.refusal.Cause.TheVariants as cause;
ghost use Rattle.tables.specs.Table.{rows_of};
ghost use Rattle.gtfs_feed.specs.Table.{Refuses};
ghost use Rattle.gtfs_feed.specs.Reading.{IsReading, ReadsRow};
ghost use Rattle.gtfs_feed.specs.RowStops.{IsRowStop};

use crate::refuse::{MOST_ROWS, RowStop, refuse_row, refuse_rows};
use move_model::{FileKind, Stopped};
use std::alloc::Global;
use tables::{ByteRecord, Rows, Table, open_table};

/// A file whose rows are read one by one, with the last row that was read and its number, from 1.
#[derive(Drop)]
pub(crate) struct FileRows<'a> {
    pub(crate) file: FileKind,
    pub(crate) bytes: &'a [u8],
    pub(crate) header: ByteRecord,
    pub(crate) rows: Rows<'a>,
    pub(crate) row: ByteRecord,
    pub(crate) number: u32,
}

impl FileRows<'_> {
    pub(crate) fn open<'a>(
        alloc: Global,
        file: FileKind,
        bytes: &'a [u8],
    ) -> Result<FileRows<'a>, Stopped>
        ensures reads { IfOk result IsReading }
        ensures begins { IfOk result (λ rows. (rows.file ≡ file) × (rows.bytes.now ≡ bytes.now) × (rows.number ≡ 0)) }
        ensures wants { IfErr result (λ stop. stop ≡ Stopped.NoMemory) }
    {
        match open_table(alloc, bytes) {
            Err(_) => Err(Stopped::NoMemory),
            Ok(Table { header, rows }) => Ok(FileRows {
                file,
                bytes,
                header,
                rows,
                row: ByteRecord::new(alloc),
                number: 0,
            }),
        }
    }

    // Reads the next row, and answers whether there was one.
    pub(crate) fn advance(&mut self, alloc: Global) -> Result<bool, Stopped>
        requires { IsReading self.old }
        ensures row { IfOk result (λ found. OnTrue found (ReadsRow self.old self.new)) }
        ensures end { IfOk result (λ found. OnFalse found (length (rows_of self.old.bytes.now) ≡ self.old.number)) }
        ensures shorter { IfOk result (λ found. OnTrue found (length self.new.rows < length self.old.rows)) }
        ensures limit { IfErr result (λ stop. Refuses stop (λ file row because. (file ≡ self.old.file) × (row ≡ 0)
            × (because ≡ cause.Limit (length (rows_of self.old.bytes.now))) × (50000000 < length (rows_of self.old.bytes.now)))) }
    {
        match self.rows.next_row(&mut self.row) {
            Err(_) => Err(Stopped::NoMemory),
            Ok(false) => Ok(false),
            Ok(true) if self.number == MOST_ROWS => {
                Err(refuse_rows(alloc, self.file, self.bytes))
            }
            Ok(true) => {
                self.number += 1;
                Ok(true)
            }
        }
    }

    // The last row was not taken.
    pub(crate) fn refuse(&self, alloc: Global, stop: RowStop) -> Stopped
        ensures { Refuses result (IsRowStop self.now.file (length (rows_of self.now.bytes.now)) self.now.number stop) }
    {
        refuse_row(alloc, self.file, self.bytes, self.number, stop)
    }
}
