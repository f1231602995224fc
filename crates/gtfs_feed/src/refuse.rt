// Refusals of the feed's files.
ghost use Rattle.std.specs.Prelude.{◌≡◌, length};
ghost use Rattle.move_model.specs.declared.refusal.Cause.TheVariants as cause;
ghost use Rattle.tables.specs.Table.{rows_of};
ghost use Rattle.gtfs_feed.specs.Table.{Refuses};
ghost use Rattle.gtfs_feed.specs.RowStops.{IsRowStop};

use move_model::{Cause, FileKind, NoMemory, Refusal, Stopped};
use std::alloc::Global;
use tables::count_rows;

/// The greatest number of rows of a file.
pub(crate) const MOST_ROWS: u32 = 50_000_000;

/// Why a row was not taken: a rule is broken, or memory is wanting.
#[derive(Clone, Copy)]
pub(crate) enum RowStop {
    Broken(Cause),
    NoMemory,
}

impl From<Cause> for RowStop {
    ghost use Rattle.std.specs.Prelude.{◌≡◌};
    ghost use Rattle.gtfs_feed.specs.declared.refuse.RowStop.TheVariants as row_stop;

    ghost from_gives = { λ cause stop. stop ≡ row_stop.Broken cause };

    fn from(cause: Cause) -> RowStop {
        RowStop::Broken(cause)
    }
}

impl From<NoMemory> for RowStop {
    ghost use Rattle.std.specs.Prelude.{◌≡◌};
    ghost use Rattle.gtfs_feed.specs.declared.refuse.RowStop.TheVariants as row_stop;

    ghost from_gives = { λ _ stop. stop ≡ row_stop.NoMemory };

    fn from(_: NoMemory) -> RowStop {
        RowStop::NoMemory
    }
}

// A rule of the whole file is broken.
pub(crate) fn refuse_file(file: FileKind, cause: Cause) -> Stopped
    ensures { Refuses result (λ f row because. (f ≡ file) × (row ≡ 0) × (because ≡ cause)) }
{
    Stopped::Refused(Refusal {
        file,
        row: 0,
        cause,
    })
}

// A file has more rows than are read.
pub(crate) fn refuse_rows(alloc: Global, file: FileKind, bytes: &[u8]) -> Stopped
    ensures { Refuses result (λ f row because. (f ≡ file) × (row ≡ 0) × (because ≡ cause.Limit (length (rows_of bytes.now)))) }
{
    match count_rows(alloc, bytes) {
        Err(_) => Stopped::NoMemory,
        Ok(rows) => refuse_file(file, Cause::Limit(rows as u64)),
    }
}

// A row is the first that was not taken. A file with too many rows is refused for their number alone.
pub(crate) fn refuse_row(
    alloc: Global,
    file: FileKind,
    bytes: &[u8],
    row: u32,
    stop: RowStop,
) -> Stopped
    ensures { Refuses result (IsRowStop file (length (rows_of bytes.now)) row stop) }
{
    let RowStop::Broken(cause) = stop else {
        return Stopped::NoMemory;
    };
    match count_rows(alloc, bytes) {
        Err(_) => Stopped::NoMemory,
        Ok(rows) if rows > MOST_ROWS as usize => refuse_file(file, Cause::Limit(rows as u64)),
        Ok(_) => Stopped::Refused(Refusal { file, row, cause }),
    }
}
