// The words that the system gives.
ghost use Rattle.std.specs.Prelude.{◌≡◌, ◌⊎◌, ◌++◌, IfErr};
ghost use Rattle.move_files.specs.Outside.{Rose, SendsPrefix};
ghost use Rattle.top_call.specs.Reading.{OnlyReads, NeverFall};
ghost use Rattle.top_call.specs.Status.{ComesUnsent, SendsAny, line_of};

use crate::command::{run, tell};
use crate::status::Status;
use move_files::{Files, Sink};
use std::alloc::Global;
use std::env;
use std::io::ErrorKind;
use std::rt::Env;
use std::sync::ledger::Ledger;
use steps::Steps;

// The words behind the program's name, or the status of words that can't be had: a word that is not UTF-8 is no command.
fn given_words<R: Env + Alloc<A = Global>>(rt: &R) -> Result<Vec<String>, Status>
    ensures { IfErr result (λ status. (status ≡ Status.Usage) ⊎ (status ≡ Status.NoMemory)) }
{
    let words = match env::args(rt) {
        Ok(words) => words,
        Err(error) if error.kind() == ErrorKind::InvalidData => return Err(Status::Usage),
        Err(_) => return Err(Status::NoMemory),
    };
    let mut list = Vec::new(rt.alloc());
    for word in words.skip(1) {
        if list.push(word).is_err() {
            return Err(Status::NoMemory);
        }
    }
    Ok(list)
}

/// Runs the command that the words of the system name. A word that is not UTF-8 is no command.
pub fn run_program<R: Env + Alloc<A = Global>, F: Files, O: Sink, E: Sink, L: Ledger, M: Ledger>(
    rt: &R,
    files: &mut F,
    out: &mut O,
    err: &mut E,
    searches: &mut Steps<L>,
    opens: &mut Steps<M>,
) -> Status
    // Nothing is sent before all refusals are past, and then the rows of some queries over some network, or the lines of some
    // city.
    ensures sent { O.tells → SendsAny (O.sent out.old) (O.sent out.new) result }
    ensures unsent { ComesUnsent result → out.new ≡ out.old }
    ensures unread { result ≡ Status.Usage → files.new ≡ files.old }
    ensures write_fault { result ≡ Status.WriteFault → Rose (O.faults out.old) (O.faults out.new) }

    // The line of the status is sent to err, or a part of it where a count of err rose.
    ensures line { E.tells → SendsPrefix (E.sent err.old) (line_of result) (E.sent err.new) }
    ensures whole_line { E.tells → (E.sent err.new ≡ E.sent err.old ++ line_of result) ⊎ Rose (E.faults err.old) (E.faults err.new) ⊎ Rose (E.wants err.old) (E.wants err.new) }

    // No file changes, no write to a file fails, and no count of the outside falls.
    ensures reads { OnlyReads F.Files files.old files.new }
    ensures counts { NeverFall O.Sink out.old out.new × NeverFall E.Sink err.old err.new }

    // Where nothing is sent because of the words or the files, nothing is searched and no route is opened.
    ensures unsearched { ComesUnsent result → (searches.new ≡ searches.old) × (opens.new ≡ opens.old) }
{
    match given_words(rt) {
        Ok(words) => run(rt.alloc(), &words, files, out, err, searches, opens),
        Err(status) => {
            tell(status, err);
            status
        }
    }
}
