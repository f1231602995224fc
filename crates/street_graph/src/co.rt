// The form `.co`: coordinates.
ghost use Rattle.std.specs.Prelude.{◌==◌, IsTrue, slice_index, ◌≡◌, ◌≤◌, ◌∷◌, ◌++◌, ◌||◌, ◌+◌, ◌-◌, ◌<◌, ◌^◌, [], true, slice_set, ℕ, length, OnOk, IfOk, MatchOption, Some, None, count_by, if◌then◌else◌};
ghost use Rattle.street_graph.specs.Text.{fields, first_number, BeginsWithNumber};
ghost use Rattle.refusals.specs.Refusal.{Tests, or_then, first_cause, IsFirstRefusal};
ghost use Rattle.street_graph.specs.Refused.{IfRefused};
ghost use Rattle.street_graph.specs.Co as spec;
ghost use Rattle.street_graph.specs.CoDraft.{first_signed, BeginsWithSigned, point_of, marked_broken, cause_at, points_after, placed_after, HasPlaced};

use crate::number::{next_number, number};
use crate::point::{Point, Points};
use crate::text::{next_field, next_line, next_word};
use move_model::{Cause, FileKind, Refusal, Stopped};
use std::alloc::{AllocError, Global};

const MAX_LONGITUDE: u64 = 180_000_000;

const MAX_LATITUDE: u64 = 90_000_000;

// A number with its sign.
#[derive(Clone, Copy, Debug)]
pub(crate) struct Signed {
    size: u64,
    negative: bool,
}

// What a line says.
#[derive(Clone, Copy, Debug)]
pub(crate) enum CoLine {
    Skipped,
    Size(u64),
    Place(u64, Signed, Signed),
    Faulty,
}

fn signed_by(negative: bool, size: Option<u64>) -> Option<Signed>
    ensures { result ≡ spec.signed_by negative size }
{
    match size {
        Some(size) => Some(Signed { size, negative }),
        None => None,
    }
}

// Whether a field begins with a minus sign.
fn is_negative(field: &[u8]) -> bool
    ensures value { result ≡ (slice_index field.now 0 == 45) }
    ensures some { IsTrue result → 1 ≤ length field.now }
{
    if field.is_empty() {
        return false;
    }
    field[0] == b'-'
}

fn signed_number(field: &[u8]) -> Option<Signed>
    ensures { result ≡ spec.signed_of field.now }
{
    if is_negative(field) {
        signed_by(true, number(&field[1..]))
    } else {
        signed_by(false, number(field))
    }
}

// The signed number in the first field of a line, and the bytes behind it, or None where there is no field or it is no such number.
fn next_signed(line: &[u8]) -> Option<(Signed, &[u8])>
    ensures { MatchOption result (first_signed (fields line.now) ≡ None)
        (λ next. BeginsWithSigned (fields line.now) next.0 (fields next.1.now)) }
{
    let Some((field, more)) = next_field(line) else {
        return None;
    };
    match signed_number(field) {
        Some(value) => Some((value, more)),
        None => None,
    }
}

fn size_line(line: &[u8]) -> CoLine
    ensures { result ≡ spec.size_line (fields line.now) }
{
    let Some(line) = next_word(line, b"aux") else {
        return CoLine::Faulty;
    };
    let Some(line) = next_word(line, b"sp") else {
        return CoLine::Faulty;
    };
    let Some(line) = next_word(line, b"co") else {
        return CoLine::Faulty;
    };
    let Some((nodes, line)) = next_number(line) else {
        return CoLine::Faulty;
    };
    match next_field(line) {
        None => CoLine::Size(nodes),
        Some(_) => CoLine::Faulty,
    }
}

fn place_line(line: &[u8]) -> CoLine
    ensures { result ≡ spec.place_line (fields line.now) }
{
    let Some((id, line)) = next_number(line) else {
        return CoLine::Faulty;
    };
    let Some((x, line)) = next_signed(line) else {
        return CoLine::Faulty;
    };
    let Some((y, line)) = next_signed(line) else {
        return CoLine::Faulty;
    };
    match next_field(line) {
        None => CoLine::Place(id, x, y),
        Some(_) => CoLine::Faulty,
    }
}

// What a line says.
fn co_line(line: &[u8]) -> CoLine
    ensures { result ≡ spec.co_line_of (fields line.now) }
{
    let Some((word, line)) = next_field(line) else {
        return CoLine::Skipped;
    };
    if word[0] == b'c' {
        CoLine::Skipped
    } else if word == b"p".as_slice() {
        size_line(line)
    } else if word == b"v".as_slice() {
        place_line(line)
    } else {
        CoLine::Faulty
    }
}

// The coordinate in millionths of a degree.
fn degrees(signed: Signed) -> i32
    requires { signed.size ≤ 180000000 }
    ensures { result ≡ spec.int_of signed }
{
    let size = signed.size as i32;
    if signed.negative { -size } else { size }
}

// The point of these coordinates.
#[tactic(auto, unfolding(crate::specs::Co::coordinate_broken))]
fn checked_point(x: Signed, y: Signed) -> Result<Point, Cause>
    ensures { Tests result (spec.coordinate_broken x y) (point_of x y) }
{
    if MAX_LONGITUDE < x.size || MAX_LATITUDE < y.size {
        return Err(Cause::Coordinate);
    }
    Ok(Point {
        lat: degrees(y),
        lon: degrees(x),
    })
}

// Tests the mark of a vertex, which says whether an earlier line places it.
fn checked_mark(placed: bool) -> Result<(), Cause>
    ensures { Tests result (if placed then Some Cause.Repeated else None) tt }
{
    if placed { Err(Cause::Repeated) } else { Ok(()) }
}

fn refused(row: u32, cause: Cause) -> Stopped
    ensures { result ≡ Stopped.Refused (record { file = FileKind.Co; row = row; cause = cause }) }
{
    Stopped::Refused(Refusal {
        file: FileKind::Co,
        row,
        cause,
    })
}

// What the lines so far gave.
#[derive(Drop)]
struct Draft {
    points: Vec<Point>,
    placed: Vec<bool>,
    row: u32,
    count: u32,
    sized: bool,
}

// No line gave anything.
fn empty_draft(alloc: Global, nodes: u32) -> Result<Draft, Stopped>
    ensures empty { IfOk result (λ draft. HasPlaced nodes draft []) }
    ensures refused { IfRefused result (λ _. ⊥) }
{
    let none = Point { lat: 0, lon: 0 };
    let Ok(points) = vec![in alloc; none; nodes as usize] else {
        return Err(Stopped::NoMemory);
    };
    let Ok(placed) = vec![in alloc; false; nodes as usize] else {
        return Err(Stopped::NoMemory);
    };
    Ok(Draft {
        points,
        placed,
        row: 0,
        count: 0,
        sized: false,
    })
}

impl Draft {
    // Places a vertex, or tells the first rule that is broken.
    #[tactic(auto, unfolding(crate::specs::Co::co_vertex_broken, crate::specs::Gr::vertex_broken, crate::specs::Co::co_coordinate_broken))]
    fn place(&mut self, id: u64, x: Signed, y: Signed) -> Result<(), Cause>
        requires room { length self.old.points.items ≡ length self.old.placed.items }
        requires few { self.old.count < 2 ^ 32 - 1 }
        ensures cause { Tests result (or_then (spec.co_vertex_broken (length self.old.points.items) (CoLine.Place id x y))
            (or_then (marked_broken self.old.placed.items id) (spec.co_coordinate_broken (CoLine.Place id x y)))) tt }
        ensures points { OnOk result (self.new.points.items ≡ slice_set self.old.points.items (id - 1) (point_of x y)) }
        ensures placed { OnOk result (self.new.placed.items ≡ slice_set self.old.placed.items (id - 1) true) }
        ensures count { OnOk result (self.new.count ≡ self.old.count + 1) }
        ensures row { self.new.row ≡ self.old.row }
        ensures sized { self.new.sized ≡ self.old.sized }
    {
        if id < 1 || (self.points.len() as u64) < id {
            return Err(Cause::Vertex(id));
        }
        let place = (id - 1) as usize;
        checked_mark(self.placed[place])?;
        let point = checked_point(x, y)?;
        self.points[place] = point;
        self.placed[place] = true;
        self.count += 1;
        Ok(())
    }

    // Takes in what the line of this row says, or tells the first rule that it breaks.
    #[tactic(auto, unfolding(crate::specs::CoDraft::cause_at, crate::specs::Co::co_form_broken, crate::specs::Co::co_size_broken))]
    fn take(&mut self, nodes: u32, row: u32, line: CoLine) -> Result<(), Cause>
        requires room { length self.old.points.items ≡ nodes }
        requires marks { length self.old.placed.items ≡ nodes }
        requires few { self.old.count < 2 ^ 32 - 1 }
        ensures cause { Tests result (cause_at nodes self.old.sized self.old.placed.items line) tt }
        ensures points { OnOk result (self.new.points.items ≡ points_after self.old.points.items line) }
        ensures placed { OnOk result (self.new.placed.items ≡ placed_after self.old.placed.items line) }
        ensures count { OnOk result (self.new.count ≡ self.old.count + (if spec.is_place line then 1 else 0)) }
        ensures row { OnOk result (self.new.row ≡ (if spec.is_size line then row else self.old.row)) }
        ensures sized { OnOk result (self.new.sized ≡ (self.old.sized || spec.is_size line)) }
    {
        match line {
            CoLine::Skipped => Ok(()),
            CoLine::Size(count) if !self.sized => {
                if count != u64::from(nodes) {
                    return Err(Cause::Count(count));
                }
                self.sized = true;
                self.row = row;
                Ok(())
            }
            CoLine::Place(id, x, y) if self.sized => self.place(id, x, y),
            _ => Err(Cause::Line),
        }
    }
}

// What all lines of a text gave.
fn read_lines(alloc: Global, text: &[u8], nodes: u32) -> Result<Draft, Stopped>
    requires { length text.now ≤ 1073741824 }
    ensures hold { OnOk result (spec.CoLinesHold nodes (spec.co_lines text.now)) }
    ensures read { IfOk result (λ draft. HasPlaced nodes draft (spec.co_lines text.now)) }
    ensures refused { IfRefused result (λ refusal. (refusal.file ≡ FileKind.Co)
        × IsFirstRefusal (spec.co_rules nodes) (spec.co_spot_at (spec.co_lines text.now)) (length (spec.co_lines text.now)) refusal.row refusal.cause) }
{
    let mut draft = empty_draft(alloc, nodes)?;
    let mut rest = text;
    let mut row = 0u32;
    while !rest.is_empty() {
        let (line, after) = next_line(rest);
        rest = after;
        row += 1;
        match draft.take(nodes, row, co_line(line)) {
            Ok(()) => {}
            Err(cause) => return Err(refused(row, cause)),
        }
    }
    Ok(draft)
}

/// The points of the vertices, from a text of the form `.co`, for a graph with so many vertices: the lines
/// `p aux sp co N` and `v ID X Y`, with the longitude X and the latitude Y in millionths of a degree.
///
/// Refused tells the first rule that the text breaks: its line, or row 0 where there is no `p` line, and its cause.
pub fn read_co(alloc: Global, bytes: &[u8], nodes: u32) -> Result<Points, Stopped>
    requires { length bytes.now ≤ 1073741824 }
    ensures points { IfOk result (spec.AreCoPoints nodes bytes.now) }
    ensures refused { IfRefused result (λ refusal. (refusal.file ≡ FileKind.Co) × spec.IsCoRefused nodes bytes.now refusal.row refusal.cause) }
{
    let Draft {
        points,
        placed: _,
        row,
        count,
        sized,
    } = read_lines(alloc, bytes, nodes)?;
    if !sized {
        return Err(refused(0, Cause::Line));
    }
    if count != nodes {
        return Err(refused(row, Cause::Count(u64::from(count))));
    }
    Ok(Points::from_vec(points))
}
