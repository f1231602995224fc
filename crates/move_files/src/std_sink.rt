// A sink over any writer of std.
ghost use Rattle.std.specs.Prelude.{◌≡◌, ◌<◌, ◌≤◌, length, IfOk, IsErrOf};
ghost use Rattle.move_files.specs.Outside.{Rose};

use crate::{Sink, WriteFail};
use std::io::Write;

/// A sink over a writer. It tells nothing of what the writer holds. A write that takes nothing counts as a fault.
#[derive(Drop)]
pub struct StdSink<W: Write> {
    writer: W,
    faults: u64,
}

impl<W: Write> StdSink<W> {
    /// A sink over this writer, with no fault so far.
    pub fn new(writer: W) -> Self
        ensures { ⟦<StdSink<W> as Sink>⟧.faults result ≡ 0 }
    {
        StdSink { writer, faults: 0 }
    }
}

impl<W: Write> Sink for StdSink<W> {
    ghost use Rattle.std.specs.Prelude.{[]};

    ghost tells = { ⊥ };

    ghost sent = { λ _. [] };

    ghost faults = { λ sink. sink.faults };

    ghost wants = { λ _. 0 };

    // The trait's clauses, and that memory is never wanting.
    fn write(&mut self, bytes: &[u8]) -> Result<usize, WriteFail>
        requires { 0 < length bytes.now }

        ensures bound { IfOk result (λ n. (0 < n) × (n ≤ length bytes.now)) }

        ensures failed { IsErrOf result WriteFail.Failed → Rose (⟦<StdSink<W> as Sink>⟧.faults self.old) (⟦<StdSink<W> as Sink>⟧.faults self.new) }
        ensures no_memory { ¬ IsErrOf result WriteFail.NoMemory }

        ensures counts { ⟦<StdSink<W> as Sink>⟧.faults self.old ≤ ⟦<StdSink<W> as Sink>⟧.faults self.new }
    {
        match self.writer.write(bytes) {
            Ok(count) if count > 0 => Ok(count),
            _ => {
                self.faults = self.faults.saturating_add(1);
                Err(WriteFail::Failed)
            }
        }
    }
}
