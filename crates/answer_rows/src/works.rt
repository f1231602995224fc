// The memory of answers.
ghost use Rattle.std.specs.Prelude.{◌≡◌, ◌≤◌, All, IfOk};
ghost use Rattle.answer_rows.specs.Room.{point_limit_of, range_limit_of, HasRoom};

use journey_print::LeastArcs;
use move_model::{NoMemory, Query};
use network_answers::AnswerWork;
use network_file::Compiled;
use range_answers::RangeWork;
use std::alloc::Global;

// All memory that is taken before the first query.
#[derive(Drop)]
pub struct Works<'a> {
    pub(crate) point: AnswerWork,
    pub(crate) range: RangeWork<'a>,
    pub(crate) arcs: LeastArcs,
}

fn point_limit(query: &Query) -> u8
    ensures { result ≡ point_limit_of query.now }
{
    match query {
        Query::At { limit, .. } => *limit,
        Query::Range { .. } => 0,
    }
}

fn range_limit(query: &Query) -> u8
    ensures { result ≡ range_limit_of query.now }
{
    match query {
        Query::At { .. } => 0,
        Query::Range { limit, .. } => *limit,
    }
}

// The greatest limit of point queries, or 0 where there is none.
fn greatest_point_limit(queries: &[Query]) -> u8
    ensures { All (λ query. point_limit_of query ≤ result) queries.now }
{
    let mut greatest = 0u8;
    for query in queries {
        greatest = greatest.max(point_limit(query));
    }
    greatest
}

// The greatest limit of ranges, or 0 where there is none.
fn greatest_range_limit(queries: &[Query]) -> u8
    ensures { All (λ query. range_limit_of query ≤ result) queries.now }
{
    let mut greatest = 0u8;
    for query in queries {
        greatest = greatest.max(range_limit(query));
    }
    greatest
}

impl<'a> Works<'a> {
    // Takes the memory for queries.
    pub(crate) fn new(
        alloc: Global,
        compiled: &'a Compiled,
        queries: &[Query],
    ) -> Result<Works<'a>, NoMemory>
        ensures { IfOk result (λ works. All (HasRoom compiled.now works) queries.now) }
    {
        let arcs = LeastArcs::new(alloc, compiled.network.arcs.as_slice())?;
        let point_limit = greatest_point_limit(queries);
        let range_limit = greatest_range_limit(queries);
        let point = AnswerWork::new(alloc, compiled, point_limit)?;
        let range = RangeWork::new(alloc, compiled, range_limit)?;
        Ok(Works { point, range, arcs })
    }
}
