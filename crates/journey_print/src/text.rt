// Text in memory, and its way to a sink.
ghost use Rattle.std.specs.Prelude.{◌≡◌, [], ◌++◌, ◌≤◌, List, ℕ, map, IfOk, OnOk, OnErr, IsErrOf};
ghost use Rattle.move_files.specs.Outside.{Rose, SendsPrefix};
ghost use Rattle.journey_print.specs.Records.{HasText, record_text};

use crate::PrintStop;
use csv::{Error, Writer, WriterBuilder};
use move_files::{Sink, WriteFail, write_whole};
use std::alloc::Global;

/// A writer over memory that has taken nothing.
pub fn new_writer(alloc: Global) -> Writer<Vec<u8>>
    ensures { HasText result [] }
{
    WriterBuilder::new().from_writer(Vec::new(alloc))
}

/// Writes one record behind the text so far.
#[tactic(auto, unfolding(crate::specs::Records::record_text))]
pub fn add_record(out: &mut Writer<Vec<u8>>, fields: &[&[u8]]) -> Result<(), Error>
    ensures { OnOk result ((text : List ℕ) → HasText out.old text → HasText out.new (text ++ record_text (map (λ f. f.now) fields.now))) }
{
    out.write_fields(fields)
}

/// The bytes that a writer over memory has taken.
pub fn text_of(out: Writer<Vec<u8>>) -> Result<Vec<u8>, Error>
    ensures { (text : List ℕ) → HasText out text → IfOk result (λ bytes. bytes.items ≡ text) }
{
    match out.into_inner() {
        Ok(text) => Ok(text),
        Err(error) => Err(error.into_error()),
    }
}

/// Sends a text, if there was memory to make it.
pub fn send<S: Sink>(text: Result<Vec<u8>, Error>, out: &mut S) -> Result<(), PrintStop>
    ensures ok { S.tells → (bytes : List ℕ) → IfOk text (λ made. made.items ≡ bytes) → OnOk result (S.sent out.new ≡ S.sent out.old ++ bytes) }
    ensures err { S.tells → (bytes : List ℕ) → IfOk text (λ made. made.items ≡ bytes) → OnErr result (SendsPrefix (S.sent out.old) bytes (S.sent out.new)) }
    ensures grows { S.tells → (more : List ℕ) × (S.sent out.new ≡ S.sent out.old ++ more) }
    ensures fault { IsErrOf result PrintStop.WriteFault → Rose (S.faults out.old) (S.faults out.new) }
    ensures counts { (S.faults out.old ≤ S.faults out.new) × (S.wants out.old ≤ S.wants out.new) }
{
    let Ok(text) = text else {
        return Err(PrintStop::NoMemory);
    };
    match write_whole(out, &text) {
        Ok(()) => Ok(()),
        Err(WriteFail::Failed) => Err(PrintStop::WriteFault),
        Err(WriteFail::NoMemory) => Err(PrintStop::NoMemory),
    }
}
