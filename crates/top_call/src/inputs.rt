// The files that a command reads.
ghost use Rattle.std.specs.Prelude.{◌≡◌, ◌<◌, ◌≤◌, ◌-◌, ◌^◌, length, true, false, Some, None, option_map, IfOk, OnOk, IfErr, IsNone};
ghost use Rattle.std.specs.Option.{ForSome};
ghost use Rattle.top_call.specs.Words.{told, name_in, limit_of, IsNamed};
ghost use Rattle.top_call.specs.Reading.{OnlyReads, MissedAt};
ghost use Rattle.top_call.specs.Input.{held, is_required, IsReadable};
ghost use Rattle.top_call.specs.Turns.{IsFile};
ghost use Rattle.top_call.specs.Rejected.{status_of, StopsBy, RejectsFile};
ghost use Rattle.top_call.specs.Status.{HasCause, ComesOfInput};

use crate::status::Status;
use crate::words::{PlanWords, name_in};
use move_files::{Files, ReadStop, read_whole};
use move_model::{Cause, FileKind, Refusal, Stopped};
use std::alloc::Global;

// The most bytes of a file.
fn limit_of(kind: FileKind) -> u64
    ensures value { result ≡ limit_of kind }
    ensures small { result ≤ 2 ^ 50 }
{
    match kind {
        FileKind::StopTimes | FileKind::Gr | FileKind::Co => 1_073_741_824,
        FileKind::Net => 1_125_899_906_842_624,
        FileKind::Stops
        | FileKind::Calendar
        | FileKind::CalendarDates
        | FileKind::Trips
        | FileKind::Frequencies
        | FileKind::StopNodes
        | FileKind::Queries => 134_217_728,
    }
}

/// The status of an input that was not read.
#[tactic(auto, unfolding(crate::specs::Status::ComesOfInput))]
pub fn status_of(stopped: Stopped) -> Status
    ensures value { result ≡ status_of stopped }
    ensures cause { ComesOfInput result }
{
    match stopped {
        Stopped::Refused(refusal) => Status::Refused(refusal),
        Stopped::NoMemory => Status::NoMemory,
    }
}

/// The contents of a file, or None where it is missing.
#[tactic(auto, unfolding(crate::specs::Status::HasCause, crate::specs::Rejected::StopsBy))]
pub fn read_optional<F: Files>(
    alloc: Global,
    plan: &PlanWords,
    files: &mut F,
    kind: FileKind,
) -> Result<Option<Vec<u8>>, Status>
    requires { IsNamed (told plan.now) kind }
    ensures told { F.tells → IfOk result (λ found. held (told plan.now) (F.holds files.old) kind ≡ option_map (λ bytes. bytes.items) found) }
    ensures missed { IfOk result (λ found. IsNone found → MissedAt F.Files (name_in (told plan.now) kind) files.old files.new) }
    ensures readable { F.tells → is_required kind ≡ false → OnOk result (IsReadable (held (told plan.now) (F.holds files.old)) kind) }
    ensures rejected { F.tells → IfErr result (StopsBy (RejectsFile (held (told plan.now) (F.holds files.old)) kind) (IsFile kind)) }
    ensures within { IfOk result (λ found. ForSome found (λ bytes. length bytes.items ≤ limit_of kind)) }
    ensures cause { IfErr result (HasCause (told plan.now) F.Files files.old files.new) }
    ensures reads { OnlyReads F.Files files.old files.new }
{
    let Ok(name) = name_in(alloc, plan, kind) else {
        return Err(Status::NoMemory);
    };
    match read_whole(alloc, files, name.as_str(), limit_of(kind)) {
        Ok(bytes) => Ok(Some(bytes)),
        Err(ReadStop::Missing) => Ok(None),
        Err(ReadStop::ReadFault) => Err(Status::ReadFault(kind)),
        Err(ReadStop::TooLong(seen)) => Err(Status::Refused(Refusal {
            file: kind,
            row: 0,
            cause: Cause::FileLong(seen),
        })),
        Err(ReadStop::NoMemory) => Err(Status::NoMemory),
    }
}

/// The contents of a required file.
#[tactic(auto, unfolding(crate::specs::Status::HasCause))]
pub fn read_file<F: Files>(
    alloc: Global,
    plan: &PlanWords,
    files: &mut F,
    kind: FileKind,
) -> Result<Vec<u8>, Status>
    requires named { IsNamed (told plan.now) kind }
    requires required { is_required kind ≡ true }
    ensures told { F.tells → IfOk result (λ bytes. held (told plan.now) (F.holds files.old) kind ≡ Some bytes.items) }
    ensures readable { F.tells → OnOk result (IsReadable (held (told plan.now) (F.holds files.old)) kind) }
    ensures rejected { F.tells → IfErr result (StopsBy (RejectsFile (held (told plan.now) (F.holds files.old)) kind) (IsFile kind)) }
    ensures within { IfOk result (λ bytes. length bytes.items ≤ limit_of kind) }
    ensures cause { IfErr result (HasCause (told plan.now) F.Files files.old files.new) }
    ensures reads { OnlyReads F.Files files.old files.new }
{
    match read_optional(alloc, plan, files, kind) {
        Ok(Some(bytes)) => Ok(bytes),
        Ok(None) => Err(Status::NoFile(kind)),
        Err(status) => Err(status),
    }
}
