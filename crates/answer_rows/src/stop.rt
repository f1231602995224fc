// Why an answer was not sent whole.
ghost use Rattle.std.specs.Prelude.{◌≡◌, ◌↔◌};

use journey_print::PrintStop;

/// Why an answer was not sent whole.
#[derive(Clone, Copy, Debug, PartialEq, Eq)]
pub enum AnswerStop {
    WriteFault,
    NoMemory,
}

// What a stop of a row is for the answer.
pub(crate) fn stop_of(stop: PrintStop) -> AnswerStop
    ensures { (result ≡ AnswerStop.WriteFault) ↔ (stop ≡ PrintStop.WriteFault) }
{
    match stop {
        PrintStop::WriteFault => AnswerStop::WriteFault,
        PrintStop::NoMemory => AnswerStop::NoMemory,
    }
}
