// The lines of a summary.
ghost use Rattle.std.specs.Prelude.{◌≡◌, ◌++◌, IfOk, OnOk};
ghost use Rattle.city_summary.specs.Text as spec;

use crate::totals::Totals;
use itoa::Buffer;
use move_model::NoMemory;
use std::alloc::Global;

// Puts a line last.
fn put_line(text: &mut Vec<u8>, word: &[u8], number: u64) -> Result<(), NoMemory>
    ensures { OnOk result (text.new.items ≡ text.old.items ++ spec.line_of word.now number) }
{
    let mut buffer = Buffer::new();
    text.extend_from_slice(word)?;
    text.push(b' ')?;
    text.extend_from_slice(buffer.format(number).as_bytes())?;
    text.push(b'\n')?;
    Ok(())
}

/// The lines that tell a summary: a word, a space, a number and LF each.
#[tactic(auto, unfolding(crate::specs::Text::summary_text))]
pub fn summary_text(alloc: Global, totals: &Totals) -> Result<Vec<u8>, NoMemory>
    ensures { IfOk result (λ text. text.items ≡ spec.summary_text totals.now) }
{
    let mut text = Vec::new(alloc);
    put_line(&mut text, b"vertices", totals.vertices)?;
    put_line(&mut text, b"arcs", totals.arcs)?;
    put_line(&mut text, b"stops", totals.stops)?;
    put_line(&mut text, b"trips", totals.trips)?;
    put_line(&mut text, b"shortcuts", totals.shortcuts)?;
    put_line(&mut text, b"queries", totals.queries)?;
    put_line(&mut text, b"pairs", totals.pairs)?;
    put_line(&mut text, b"spans", totals.spans)?;
    put_line(&mut text, b"arrivals", totals.arrivals)?;
    Ok(text)
}
