// The order of the contraction, which is free: a vertex that needs few arcs comes early, and the vertices that are
// contracted are spread over the graph.
ghost use Rattle.std.specs.Prelude.{◌≡◌, ◌<◌, ◌≤◌, ◌^◌, IsTrue, OnOk, length, slice_set, vec_len};
ghost use Rattle.move_model.specs.Streets.{Streets};
ghost use Rattle.walk_core.specs.Row.{is_last};
ghost use Rattle.walk_core.specs.Bridge.{view_of, IsBuilt};
ghost use Rattle.walk_core.specs.State.{Advances, IsFree, IsRight, IsSound};

use crate::contraction::{LONGEST, Scratch, greatest};
use crate::rows::{Rows, is_left};
use crate::search::Search;
use crate::state::contract_next;
use move_model::NodeNo;
use std::alloc::{AllocError, Global};
use walk_laws::CoreArc;
use walk_queue::MinQueue;

// From how many vertices a search for witnesses goes on while a vertex is contracted.
const SETTLED: u32 = 60;

// What a priority is raised by, so that it is no negative number.
const BASE: u64 = 1_000_000;

/// How far the contraction goes, and what it spends on the order.
#[derive(Clone, Copy, Debug)]
pub struct Effort {
    /// How many arcs out a vertex that is left has at most, on average.
    pub degree: u64,
    /// From how many vertices a search for witnesses goes on while a priority is found.
    pub tried: u32,
}

// What the order knows of a vertex: how deep the contractions below it go, and whether its priority may be out of date.
#[derive(Clone, Copy, Debug)]
struct Mark {
    depth: u32,
    stale: bool,
}

// The vertices that wait, by priority.
#[derive(Drop)]
pub struct Order {
    queue: MinQueue<u64>,
    marks: Vec<Mark>,
    // How many vertices are left, and how many arcs lead out of them.
    vertices: u64,
    arcs: u64,
    effort: Effort,
}

// How many arcs the way over a vertex from one neighbour needs.
fn count_row(x: CoreArc, outs: &[CoreArc], search: &Search) -> u64 {
    let mut many: u64 = 0;
    for y in outs {
        if y.to.0 != x.to.0 && search.found(y.to) > x.seconds.saturating_add(y.seconds) {
            many = many.saturating_add(1);
        }
    }
    many
}

// How many arcs the contraction of a vertex needs, as far as the searches find witnesses.
fn count_arcs(out: &Rows, into: &Rows, rank: &[u32], m: u32, search: &mut Search, tried: u32) -> u64
    requires built { IsBuilt (view_of out.now into.now rank.now) }
    requires labels { vec_len search.old.labels ≡ length rank.now }
    ensures labels { vec_len search.new.labels ≡ vec_len search.old.labels }
{
    let outs = out.row(NodeNo(m));
    let most = greatest(outs);
    let mut many: u64 = 0;
    for x in into.row(NodeNo(m)) {
        let limit = x.seconds.saturating_add(most).min(LONGEST);
        search.look(out, rank, m, x.to, outs, limit, tried);
        many = many.saturating_add(count_row(*x, outs, search));
    }
    many
}

// The priority of a vertex: the arcs that its contraction needs, against those that it takes away, and its depth.
fn priority(
    out: &Rows,
    into: &Rows,
    rank: &[u32],
    m: u32,
    depth: u32,
    search: &mut Search,
    tried: u32,
) -> u64
    requires built { IsBuilt (view_of out.now into.now rank.now) }
    requires labels { vec_len search.old.labels ≡ length rank.now }
    ensures labels { vec_len search.new.labels ≡ vec_len search.old.labels }
{
    let added = count_arcs(out, into, rank, m, search, tried);
    let removed = (out.row(NodeNo(m)).len() as u64).saturating_add(
        into.row(NodeNo(m)).len() as u64,
    );
    let ratio = added.saturating_mul(1000) / removed.max(1);
    BASE.saturating_add(ratio)
        .saturating_add(u64::from(depth).saturating_mul(300))
        .saturating_add(added.saturating_mul(20))
        .saturating_sub(removed.saturating_mul(20))
}

impl Order {
    // All vertices that may be contracted wait, and none has its priority yet.
    fn new(alloc: Global, out: &Rows, keep: &[bool], effort: Effort) -> Result<Order, AllocError>
        requires { length keep.now < 2 ^ 32 }
    {
        let count = keep.len() as u32;
        let queue = MinQueue::new(alloc, count)?;
        let mark = Mark {
            depth: 0,
            stale: true,
        };
        let marks = vec![in alloc; mark; keep.len()]?;
        let mut order = Order {
            queue,
            marks,
            vertices: u64::from(count),
            arcs: 0,
            effort,
        };
        for at in 1..count {
            order.arcs = order.arcs.saturating_add(out.row(NodeNo(at)).len() as u64);
            if !keep[at as usize] {
                order.put(at, 0);
            }
        }
        Ok(order)
    }

    fn put(&mut self, at: u32, key: u64) {
        if at < self.queue.places() {
            self.queue.put_or_lower(at, key);
        }
    }

    fn mark(&self, at: u32) -> Mark {
        match self.marks.get(at as usize) {
            Some(mark) => *mark,
            None => Mark {
                depth: 0,
                stale: false,
            },
        }
    }

    fn set_mark(&mut self, at: u32, mark: Mark) {
        if let Some(place) = self.marks.get_mut(at as usize) {
            *place = mark;
        }
    }

    // Tells the other ends of a contracted vertex's arcs how deep it went.
    fn tell(&mut self, arcs: &[CoreArc], depth: u32) {
        for arc in arcs {
            let mark = self.mark(arc.to.0);
            self.set_mark(
                arc.to.0,
                Mark {
                    depth: mark.depth.max(depth),
                    stale: true,
                },
            );
        }
    }

    fn is_dense(&self) -> bool {
        self.arcs > self.vertices.saturating_mul(self.effort.degree)
    }
}

// Puts the vertex back where its priority is out of date and has become greater.
fn waits(
    out: &Rows,
    into: &Rows,
    rank: &[u32],
    m: u32,
    key: u64,
    order: &mut Order,
    search: &mut Search,
) -> bool
    requires built { IsBuilt (view_of out.now into.now rank.now) }
    requires labels { vec_len search.old.labels ≡ length rank.now }
    ensures labels { vec_len search.new.labels ≡ vec_len search.old.labels }
{
    let mark = order.mark(m);
    if !mark.stale {
        return false;
    }
    order.set_mark(
        m,
        Mark {
            depth: mark.depth,
            stale: false,
        },
    );
    let fresh = priority(out, into, rank, m, mark.depth, search, order.effort.tried);
    if fresh > key {
        order.put(m, fresh);
        return true;
    }
    false
}

// Whether the vertex may be contracted.
fn may_contract(rank: &[u32], keep: &[bool], many: usize, m: u32) -> bool
    requires { length keep.now ≡ length rank.now }
    ensures { IsTrue result → IsFree rank.now keep.now many m }
{
    1 <= m
        && many < rank.len()
        && (m as usize) < keep.len()
        && !keep[m as usize]
        && is_left(rank, NodeNo(m))
}

// How many arcs lead out of the other ends of the arcs.
fn count_out(out: &Rows, arcs: &[CoreArc]) -> u64 {
    let mut many: u64 = 0;
    for arc in arcs {
        many = many.saturating_add(out.row(arc.to).len() as u64);
    }
    many
}

// Contracts a vertex, and tells the order of it.
fn contract_now(
    out: &mut Rows,
    into: &mut Rows,
    rank: &mut [u32],
    contracted: &mut Vec<NodeNo>,
    m: u32,
    order: &mut Order,
    scratch: &mut Scratch,
) -> Result<(), AllocError>
    requires sound { IsSound (view_of out.old into.old rank.old) contracted.old.items }
    requires one { 1 ≤ m }
    requires m { m < length rank.old }
    requires left { is_last rank.old m }
    requires room { length contracted.old.items < length rank.old }
    requires labels { vec_len scratch.old.search.labels ≡ length rank.old }
    ensures sound { OnOk result (IsSound (view_of out.new into.new rank.new) contracted.new.items) }
    ensures right { OnOk result ((graph : Streets) → IsRight graph (view_of out.old into.old rank.old) → IsRight graph (view_of out.new into.new rank.new)) }
    ensures rank { OnOk result (rank.new ≡ slice_set rank.old m (length contracted.old.items)) }
    ensures labels { vec_len scratch.new.search.labels ≡ vec_len scratch.old.search.labels }
{
    let gone = (out.row(NodeNo(m)).len() as u64).saturating_add(count_out(
        out,
        into.row(NodeNo(m)),
    ));
    contract_next(out, into, rank, contracted, m, scratch, SETTLED)?;
    let come = count_out(out, into.row(NodeNo(m)));
    order.arcs = order.arcs.saturating_add(come).saturating_sub(gone);
    order.vertices = order.vertices.saturating_sub(1);
    let depth = order.mark(m).depth.saturating_add(1);
    order.tell(out.row(NodeNo(m)), depth);
    order.tell(into.row(NodeNo(m)), depth);
    Ok(())
}

// Takes the vertex that is next, and contracts it or puts it back. It tells whether there is more to do.
fn advance(
    out: &mut Rows,
    into: &mut Rows,
    rank: &mut [u32],
    contracted: &mut Vec<NodeNo>,
    keep: &[bool],
    order: &mut Order,
    scratch: &mut Scratch,
) -> Result<bool, AllocError>
    requires sound { IsSound (view_of out.old into.old rank.old) contracted.old.items }
    requires keep { length keep.now ≡ length rank.old }
    requires labels { vec_len scratch.old.search.labels ≡ length rank.old }
    ensures sound { OnOk result (IsSound (view_of out.new into.new rank.new) contracted.new.items) }
    ensures advances { OnOk result (Advances keep.now (view_of out.old into.old rank.old) (view_of out.new into.new rank.new)) }
    ensures labels { vec_len scratch.new.search.labels ≡ vec_len scratch.old.search.labels }
{
    let Some((m, key)) = order.queue.take_least() else {
        return Ok(false);
    };
    if !may_contract(rank, keep, contracted.len(), m)
        || waits(out, into, rank, m, key, order, &mut scratch.search)
    {
        return Ok(true);
    }
    if order.is_dense() {
        return Ok(false);
    }
    contract_now(out, into, rank, contracted, m, order, scratch)?;
    Ok(true)
}

/// Contracts vertices that are not to be kept, until more arcs than the effort allows lead out of those that are left.
pub fn contract_some(
    alloc: Global,
    out: &mut Rows,
    into: &mut Rows,
    rank: &mut [u32],
    contracted: &mut Vec<NodeNo>,
    keep: &[bool],
    effort: Effort,
) -> Result<(), AllocError>
    requires sound { IsSound (view_of out.old into.old rank.old) contracted.old.items }
    requires keep { length keep.now ≡ length rank.old }
    ensures sound { OnOk result (IsSound (view_of out.new into.new rank.new) contracted.new.items) }
    ensures advances { OnOk result (Advances keep.now (view_of out.old into.old rank.old) (view_of out.new into.new rank.new)) }
{
    let mut order = Order::new(alloc, out, keep, effort)?;
    let search = Search::new(alloc, rank.len() as u32)?;
    let mut scratch = Scratch {
        ins: Vec::new(alloc),
        outs: Vec::new(alloc),
        search,
    };
    for _step in 0..u64::MAX {
        if !advance(out, into, rank, contracted, keep, &mut order, &mut scratch)? {
            break;
        }
    }
    Ok(())
}
