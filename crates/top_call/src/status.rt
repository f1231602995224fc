// How a run ended.
ghost use Rattle.std.specs.Prelude.{◌≡◌};
ghost use Rattle.top_call.specs.Status.{exit_of};

use move_model::{FileKind, Refusal};

/// How a run ended.
#[derive(Clone, Copy, Debug, PartialEq, Eq)]
pub enum Status {
    /// All was done.
    Done,
    /// The words are no command.
    Usage,
    /// An input is not accepted.
    Refused(Refusal),
    /// A required file is missing.
    NoFile(FileKind),
    /// A read of the file failed.
    ReadFault(FileKind),
    /// A write failed.
    WriteFault,
    /// Memory was wanting.
    NoMemory,
}

/// The exit number of a status.
pub fn exit_number(status: Status) -> u8
    ensures { result ≡ exit_of status }
{
    match status {
        Status::Done => 0,
        Status::Usage => 2,
        Status::Refused(_) => 3,
        Status::NoFile(_) => 4,
        Status::ReadFault(_) => 5,
        Status::WriteFault => 6,
        Status::NoMemory => 7,
    }
}
