// The memory of the answers to queries.
ghost use Rattle.std.specs.Prelude.{◌≡◌, ◌≤◌, All, IfOk};
ghost use Rattle.city_summary.specs.Room.{HasRoom};
ghost use Rattle.city_summary.specs.Room as room;

use move_model::{NoMemory, Query};
use network_answers::AnswerWork;
use network_file::Compiled;
use range_answers::RangeWork;
use std::alloc::Global;

/// The memory that answers to point queries and to ranges need, taken once.
#[derive(Drop)]
pub(crate) struct Works<'a> {
    pub(crate) points: AnswerWork,
    pub(crate) ranges: RangeWork<'a>,
}

impl<'a> Works<'a> {
    /// Takes the memory for answers with at most `limit` rides.
    pub(crate) fn new(
        alloc: Global,
        compiled: &'a Compiled,
        limit: u8,
    ) -> Result<Works<'a>, NoMemory>
        ensures { IfOk result (HasRoom compiled.now limit) }
    {
        let points = AnswerWork::new(alloc, compiled, limit)?;
        let ranges = RangeWork::new(alloc, compiled, limit)?;
        Ok(Works { points, ranges })
    }
}

// The greatest number of rides of a query.
fn limit_of(query: &Query) -> u8
    ensures { result ≡ room.limit_of query.now }
{
    match query {
        Query::At { limit, .. } => *limit,
        Query::Range { limit, .. } => *limit,
    }
}

/// The greatest limit of queries, or 0 where there is none.
pub(crate) fn greatest_limit(queries: &[Query]) -> u8
    ensures { All (λ query. room.limit_of query ≤ result) queries.now }
{
    let mut greatest = 0u8;
    for query in queries {
        greatest = greatest.max(limit_of(query));
    }
    greatest
}
