// The answers to queries over a right value, which are exact.
ghost use Rattle.std.specs.Prelude.{◌≡◌, ◌+◌, ◌*◌, ◌-◌, ◌≤◌, ℕ, IfOk, length};
ghost use Rattle.move_model.specs.declared.query.Query.TheVariants as query;
ghost use Rattle.move_model.specs.Found.{IsPointAnswer, IsRangeAnswer};
ghost use Rattle.network_file.specs.Compiled.{IsRight};
ghost use Rattle.network_answers.specs.Point as point;
ghost use Rattle.range_answers.specs.Range as range;
ghost use Rattle.city_maker.specs.Asked.{IsAsked};
ghost use Rattle.answer_rows.specs.Counted.{IsSearchedOver, IsOpenedOver};

use move_model::{Findings, NoMemory, Place};
use network_answers::AnswerWork;
use network_file::Compiled;
use range_answers::{RangeFindings, RangeWork};
use std::alloc::Global;
use std::sync::ledger::Ledger;
use steps::Steps;

/// The answer to a query at a second.
pub(crate) fn find_point<L: Ledger, M: Ledger>(
    alloc: Global,
    compiled: &Compiled,
    work: &mut AnswerWork,
    from: &Place,
    to: &Place,
    depart: u32,
    limit: u8,
    searches: &mut Steps<L>,
    opens: &mut Steps<M>,
) -> Result<Findings, NoMemory>
    requires right { IsRight compiled.now }
    requires asked { IsAsked compiled.now.network (query.At from.now to.now depart limit) }
    requires room { point.IsRoomFor compiled.now limit work.old }
    ensures found { IfOk result (IsPointAnswer compiled.now.network from.now.node depart to.now.node limit) }
    ensures room { work.new ≡ work.old }
    ensures searches { IsSearchedOver compiled.now.network (query.At from.now to.now depart limit) searches.old searches.new }
    ensures opens { IsOpenedOver compiled.now.network (length compiled.now.table.routes) (query.At from.now to.now depart limit) opens.old opens.new }
{
    work.point(
        alloc, compiled, from.node, to.node, depart, limit, searches, opens,
    )
}

/// The answer to a range.
pub(crate) fn find_range<'a, L: Ledger, M: Ledger>(
    alloc: Global,
    compiled: &'a Compiled,
    work: &mut RangeWork<'a>,
    from: &Place,
    to: &Place,
    first: u32,
    last: u32,
    limit: u8,
    searches: &mut Steps<L>,
    opens: &mut Steps<M>,
) -> Result<RangeFindings, NoMemory>
    requires right { IsRight compiled.now }
    requires asked { IsAsked compiled.now.network (query.Range from.now to.now first last limit) }
    requires room { range.IsRoomFor compiled.now limit work.old }
    ensures found { IfOk result (λ found. IsRangeAnswer compiled.now.network from.now.node to.now.node limit first last found.foot found.spans) }
    ensures room { (most : ℕ) → range.IsRoomFor compiled.now most work.old → range.IsRoomFor compiled.now most work.new }
    ensures searches { IsSearchedOver compiled.now.network (query.Range from.now to.now first last limit) searches.old searches.new }
    ensures opens { IsOpenedOver compiled.now.network (length compiled.now.table.routes) (query.Range from.now to.now first last limit) opens.old opens.new }
{
    work.range(
        alloc, compiled, from.node, to.node, first, last, limit, searches, opens,
    )
}
