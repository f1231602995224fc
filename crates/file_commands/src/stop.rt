// Why a file was not read, or not rewritten.
ghost use Rattle.std.specs.Prelude.{◌≡◌};
ghost use Rattle.file_commands.specs.Stop.{of_read, of_decode};
ghost use Rattle.file_commands.specs.declared.stop.MigrateStop.TheVariants as migration;

use move_files::ReadStop;
use network_codec::{Damage, DecodeStop, EncodeStop};

/// Why a network file was not read.
#[derive(Clone, Copy, Debug, PartialEq, Eq)]
pub enum FileStop {
    /// The name is not held.
    Missing,
    /// A read failed.
    ReadFault,
    /// The file has more than 1,125,899,906,842,624 bytes; the number is that limit and one.
    TooLong(u64),
    /// The bytes are the file of no value.
    Damaged(Damage),
    /// Memory was wanting, or a list of the file was too long for numbers of 32 bits.
    NoMemory,
}

/// Why a network file was not migrated.
#[derive(Clone, Copy, Debug, PartialEq, Eq)]
pub enum MigrateStop {
    /// The old file was not read, and nothing was written.
    Unread(FileStop),
    /// The new file was not written, or not all of it.
    Unwritten(EncodeStop),
}

impl From<ReadStop> for FileStop {
    ghost from_gives = { λ stop e. e ≡ of_read stop };

    fn from(stop: ReadStop) -> FileStop {
        match stop {
            ReadStop::Missing => FileStop::Missing,
            ReadStop::ReadFault => FileStop::ReadFault,
            ReadStop::TooLong(seen) => FileStop::TooLong(seen),
            ReadStop::NoMemory => FileStop::NoMemory,
        }
    }
}

impl From<DecodeStop> for FileStop {
    ghost from_gives = { λ stop e. e ≡ of_decode stop };

    fn from(stop: DecodeStop) -> FileStop {
        match stop {
            DecodeStop::Damaged(damage) => FileStop::Damaged(damage),
            DecodeStop::NoMemory => FileStop::NoMemory,
        }
    }
}

impl From<FileStop> for MigrateStop {
    ghost from_gives = { λ stop e. e ≡ migration.Unread stop };

    fn from(stop: FileStop) -> MigrateStop {
        MigrateStop::Unread(stop)
    }
}

impl From<EncodeStop> for MigrateStop {
    ghost from_gives = { λ stop e. e ≡ migration.Unwritten stop };

    fn from(stop: EncodeStop) -> MigrateStop {
        MigrateStop::Unwritten(stop)
    }
}
