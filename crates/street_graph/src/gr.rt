// The form `.gr`: vertices and arcs.
ghost use Rattle.std.specs.Prelude.{◌≡◌, ◌≤◌, ◌++◌, length, OnOk, IfOk, is_some, Some, None, if◌then◌else◌};
ghost use Rattle.street_graph.specs.Text.{fields};
ghost use Rattle.refusals.specs.Refusal.{Tests, or_then, first_cause, IsFirstRefusal};
ghost use Rattle.street_graph.specs.Refused.{IfRefused};
ghost use Rattle.street_graph.specs.Gr as spec;
ghost use Rattle.street_graph.specs.GrDraft.{HasRead};

use crate::Graph;
use crate::number::next_number;
use crate::text::{next_field, next_line, next_word};
use move_model::{Arc, Arcs, Cause, FileKind, NodeNo, Refusal, Stopped};
use std::alloc::Global;

const MAX_NODES: u64 = 2_000_000;

const MAX_ARCS: u64 = 8_000_000;

const MAX_SECONDS: u64 = 1_000_000;

// What a line says.
#[derive(Clone, Copy, Debug)]
pub(crate) enum GrLine {
    Skipped,
    Problem(u64, u64),
    Arc(u64, u64, u64),
    Faulty,
}

// The vertices and arcs that the `p` line announces.
#[derive(Clone, Copy, Debug)]
pub(crate) struct Size {
    nodes: u32,
    arcs: u32,
}

fn problem_line(line: &[u8]) -> GrLine
    ensures { result ≡ spec.problem_line (fields line.now) }
{
    let Some(line) = next_word(line, b"sp") else {
        return GrLine::Faulty;
    };
    let Some((nodes, line)) = next_number(line) else {
        return GrLine::Faulty;
    };
    let Some((arcs, line)) = next_number(line) else {
        return GrLine::Faulty;
    };
    match next_field(line) {
        None => GrLine::Problem(nodes, arcs),
        Some(_) => GrLine::Faulty,
    }
}

fn arc_line(line: &[u8]) -> GrLine
    ensures { result ≡ spec.arc_line (fields line.now) }
{
    let Some((from, line)) = next_number(line) else {
        return GrLine::Faulty;
    };
    let Some((to, line)) = next_number(line) else {
        return GrLine::Faulty;
    };
    let Some((seconds, line)) = next_number(line) else {
        return GrLine::Faulty;
    };
    match next_field(line) {
        None => GrLine::Arc(from, to, seconds),
        Some(_) => GrLine::Faulty,
    }
}

// What a line says.
fn gr_line(line: &[u8]) -> GrLine
    ensures { result ≡ spec.gr_line_of (fields line.now) }
{
    let Some((word, line)) = next_field(line) else {
        return GrLine::Skipped;
    };
    if word[0] == b'c' {
        GrLine::Skipped
    } else if word == b"p".as_slice() {
        problem_line(line)
    } else if word == b"a".as_slice() {
        arc_line(line)
    } else {
        GrLine::Faulty
    }
}

#[tactic(auto, unfolding(crate::specs::Gr::nodes_broken, crate::specs::Gr::arcs_broken))]
fn checked_size(nodes: u64, arcs: u64) -> Result<Size, Cause>
    ensures { Tests result (or_then (spec.nodes_broken (GrLine.Problem nodes arcs)) (spec.arcs_broken (GrLine.Problem nodes arcs)))
        (record { nodes = nodes; arcs = arcs }) }
{
    if nodes < 1 || MAX_NODES < nodes {
        return Err(Cause::Limit(nodes));
    }
    if MAX_ARCS < arcs {
        return Err(Cause::Limit(arcs));
    }
    Ok(Size {
        nodes: nodes as u32,
        arcs: arcs as u32,
    })
}

#[tactic(auto, unfolding(crate::specs::Gr::vertex_broken))]
fn checked_vertex(nodes: u32, number: u64) -> Result<NodeNo, Cause>
    ensures { Tests result (spec.vertex_broken nodes number) (record { 0 = number }) }
{
    if 1 <= number && number <= u64::from(nodes) {
        Ok(NodeNo(number as u32))
    } else {
        Err(Cause::Vertex(number))
    }
}

#[tactic(auto, unfolding(crate::specs::Gr::seconds_broken))]
fn checked_arc(nodes: u32, from: u64, to: u64, seconds: u64) -> Result<Arc, Cause>
    ensures { Tests result
        (or_then (spec.vertex_broken nodes from) (or_then (spec.vertex_broken nodes to) (spec.seconds_broken (GrLine.Arc from to seconds))))
        (record { from = record { 0 = from }; to = record { 0 = to }; seconds = seconds }) }
{
    let from = checked_vertex(nodes, from)?;
    let to = checked_vertex(nodes, to)?;
    if MAX_SECONDS < seconds {
        return Err(Cause::Weight(seconds));
    }
    Ok(Arc {
        from,
        to,
        seconds: seconds as u32,
    })
}

fn refused(row: u32, cause: Cause) -> Stopped
    ensures { result ≡ Stopped.Refused (record { file = FileKind.Gr; row = row; cause = cause }) }
{
    Stopped::Refused(Refusal {
        file: FileKind::Gr,
        row,
        cause,
    })
}

// What the lines so far gave.
#[derive(Drop)]
struct Draft {
    size: Option<Size>,
    row: u32,
    arcs: Arcs,
}

impl Draft {
    #[tactic(auto, unfolding(crate::specs::Gr::gr_rules, crate::specs::Gr::form_broken, crate::specs::Gr::nodes_broken, crate::specs::Gr::arcs_broken, crate::specs::Gr::from_broken, crate::specs::Gr::to_broken, crate::specs::Gr::seconds_broken))]
    // Takes in what the line of this row says, or tells the first rule that it breaks.
    fn take(&mut self, row: u32, line: GrLine) -> Result<(), Stopped>
        ensures holds { OnOk result (first_cause spec.gr_rules (record { given = self.old.size; line = line }) ≡ None) }
        ensures size { OnOk result (self.new.size ≡ spec.first_some self.old.size (spec.size_in line)) }
        ensures row { OnOk result (self.new.row ≡ (if is_some (spec.size_in line) then row else self.old.row)) }
        ensures arcs { OnOk result (self.new.arcs ≡ self.old.arcs ++ spec.arcs_in line) }
        ensures refused { IfRefused result (λ refusal. (refusal.file ≡ FileKind.Gr) × (refusal.row ≡ row)
            × (first_cause spec.gr_rules (record { given = self.old.size; line = line }) ≡ Some refusal.cause)) }
    {
        match (line, self.size) {
            (GrLine::Skipped, _) => Ok(()),
            (GrLine::Problem(nodes, arcs), None) => {
                match checked_size(nodes, arcs) {
                    Ok(size) => {
                        self.size = Some(size);
                        self.row = row;
                        Ok(())
                    }
                    Err(cause) => Err(refused(row, cause)),
                }
            }
            (GrLine::Arc(from, to, seconds), Some(size)) => {
                match checked_arc(size.nodes, from, to, seconds) {
                    Ok(arc) => match self.arcs.push(arc) {
                        Ok(()) => Ok(()),
                        Err(_) => Err(Stopped::NoMemory),
                    },
                    Err(cause) => Err(refused(row, cause)),
                }
            }
            _ => Err(refused(row, Cause::Line)),
        }
    }
}

// What all lines of a text gave.
fn read_lines(alloc: Global, text: &[u8]) -> Result<Draft, Stopped>
    requires { length text.now ≤ 1073741824 }
    ensures hold { OnOk result (spec.LinesHold (spec.gr_lines text.now)) }
    ensures read { IfOk result (λ draft. HasRead draft (spec.gr_lines text.now)) }
    ensures refused { IfRefused result (λ refusal. (refusal.file ≡ FileKind.Gr)
        × IsFirstRefusal spec.gr_rules (spec.spot_at (spec.gr_lines text.now)) (length (spec.gr_lines text.now)) refusal.row refusal.cause) }
{
    let mut draft = Draft {
        size: None,
        row: 0,
        arcs: Arcs::new(alloc),
    };
    let mut rest = text;
    let mut row = 0u32;
    while !rest.is_empty() {
        let (line, after) = next_line(rest);
        rest = after;
        row += 1;
        draft.take(row, gr_line(line))?;
    }
    Ok(draft)
}

/// The graph of a text of the form `.gr`: the lines `p sp N M` and `a U V W`, with the weight W in seconds.
///
/// Refused tells the first rule that the text breaks: its line, or row 0 where there is no `p` line, and its cause.
pub fn read_gr(alloc: Global, bytes: &[u8]) -> Result<Graph, Stopped>
    requires { length bytes.now ≤ 1073741824 }
    ensures graph { IfOk result (spec.IsGrGraph bytes.now) }
    ensures refused { IfRefused result (λ refusal. (refusal.file ≡ FileKind.Gr) × spec.IsGrRefused bytes.now refusal.row refusal.cause) }
{
    let Draft { size, row, arcs } = read_lines(alloc, bytes)?;
    let Some(size) = size else {
        return Err(refused(0, Cause::Line));
    };
    let count = arcs.len();
    if count != size.arcs as usize {
        return Err(refused(row, Cause::Count(count as u64)));
    }
    Graph::of(alloc, size.nodes, arcs).map_err(|_| Stopped::NoMemory)
}
