// A search for witnesses, which may give up.
ghost use Rattle.std.specs.Prelude.{◌≡◌, ◌≢◌, ℕ, ◌<◌, ◌≤◌, ◌^◌, List, [], Contains, length, vec_len, All, IfOk, IfSome, slice_index_or};
ghost use Rattle.walk_laws.specs.Sums.{longest};
ghost use Rattle.walk_laws.specs.declared.CoreArc.{CoreArc};
ghost use Rattle.walk_core.specs.declared.search.Label.{Label};
ghost use Rattle.walk_core.specs.Search.{Fits, IsLabel, AllLabels};
ghost use Rattle.walk_core.specs.Row.{is_last};

use crate::rows::{LEFT, Rows, is_left};
use move_model::NodeNo;
use std::alloc::{AllocError, Global};
use walk_laws::CoreArc;
use walk_queue::MinQueue;

/// The seconds of the best list of arcs so far, in a search of this number.
#[derive(Clone, Copy, Debug)]
pub struct Label {
    pub seconds: u64,
    pub run: u32,
}

/// The labels of a search. Those of earlier searches count no more.
#[derive(Drop)]
pub struct Search {
    pub labels: Vec<Label>,
    pub run: u32,
    queue: MinQueue<u64>,
    // The number of the last search of which a vertex was a target.
    aims: Vec<u32>,
    // How many targets were not met yet.
    wanted: u32,
    ghost queued: { vec_len labels ≡ length queue },
    ghost aimed: { vec_len labels ≡ vec_len aims },
    ghost past: { All (λ label. label.run ≤ run) labels.items },
}

// A number that no label has.
fn next_run(labels: &mut [Label], run: u32) -> u32
    requires { All (λ label. label.run ≤ run) labels.old }
    ensures fresh { All (λ label. label.run < result) labels.new }
    ensures past { All (λ label. label.run ≤ run) labels.new }
{
    if run < u32::MAX {
        return run + 1;
    }
    for label in labels.iter_mut() {
        *label = Label { seconds: 0, run: 0 };
    }
    1
}

// Marks the ends of the arcs as targets, and counts them.
fn aim(aims: &mut [u32], targets: &[CoreArc], run: u32) -> u32 {
    let mut many: u32 = 0;
    for arc in targets {
        if let Some(last) = aims.get_mut(arc.to.0 as usize) {
            if *last != run {
                *last = run;
                many = many.wrapping_add(1);
            }
        }
    }
    many
}

impl Search {
    pub fn new(alloc: Global, count: u32) -> Result<Search, AllocError>
        ensures { IfOk result (λ s. vec_len s.labels ≡ count) }
    {
        let labels = vec![in alloc; Label { seconds: 0, run: 0 }; count as usize]?;
        let aims = vec![in alloc; 0; count as usize]?;
        let queue = MinQueue::new(alloc, count)?;
        Ok(Search {
            labels,
            run: 0,
            queue,
            aims,
            wanted: 0,
        })
    }

    // Begins a search with no labels.
    fn begin(&mut self, targets: &[CoreArc])
        ensures many { vec_len self.new.labels ≡ vec_len self.old.labels }
        ensures none { All (λ label. label.run < self.new.run) self.new.labels.items }
    {
        self.queue.clear();
        let run = next_run(self.labels.as_mut_slice(), self.run);
        self.run = run;
        self.wanted = aim(self.aims.as_mut_slice(), targets, run);
    }

    /// The label of a vertex, or the greatest number.
    #[inline]
    pub fn seconds_at(&self, at: u32) -> u64
        requires { at < vec_len self.now.labels }
        ensures { result ≤ longest → (d : Label) → ((slice_index_or self.now.labels.items at d).run ≡ self.now.run) × ((slice_index_or self.now.labels.items at d).seconds ≡ result) }
    {
        let label = self.labels[at as usize];
        if label.run == self.run {
            label.seconds
        } else {
            u64::MAX
        }
    }

    // The vertex of least label that waits.
    #[inline]
    fn next(&mut self) -> Option<u32>
        ensures same { self.new.labels ≡ self.old.labels }
        ensures run { self.new.run ≡ self.old.run }
        ensures low { IfSome result (λ at. at < vec_len self.new.labels) }
    {
        match self.queue.take_least() {
            Some((at, _)) => Some(at),
            None => None,
        }
    }

    // Whether the vertex was the last target.
    #[inline]
    fn meets(&mut self, at: u32) -> bool
        requires { at < vec_len self.old.labels }
        ensures same { self.new.labels ≡ self.old.labels }
        ensures run { self.new.run ≡ self.old.run }
    {
        if self.aims[at as usize] != self.run {
            return false;
        }
        self.wanted = self.wanted.saturating_sub(1);
        self.wanted == 0
    }

    // Goes along an arc.
    #[inline]
    fn reach(&mut self, rank: &[u32], avoid: u32, arc: CoreArc, reached: u64, limit: u64)
        requires ranks { length rank.now ≡ vec_len self.old.labels }
        requires end { arc.to.0 < vec_len self.old.labels }
        requires short { arc.seconds ≤ longest }
        requires reached { reached ≤ longest }
        ensures many { vec_len self.new.labels ≡ vec_len self.old.labels }
        ensures run { self.new.run ≡ self.old.run }
        ensures labels { (out : List (List CoreArc)) (from v : ℕ) → Contains (slice_index_or out v []) arc → IsLabel out rank.now avoid from v reached
            → AllLabels out rank.now avoid from self.old.labels.items self.old.run → AllLabels out rank.now avoid from self.new.labels.items self.new.run }
    {
        let to = arc.to.0;
        if to == avoid || rank[to as usize] != LEFT {
            return;
        }
        let seconds = reached + arc.seconds;
        if seconds > limit || seconds >= self.seconds_at(to) {
            return;
        }
        self.labels[to as usize] = Label {
            seconds,
            run: self.run,
        };
        self.queue.put_or_lower(to, seconds);
    }

    // Goes on from a vertex along its arcs.
    fn relax(&mut self, out: &Rows, rank: &[u32], avoid: u32, at: u32, reached: u64, limit: u64)
        requires fits { Fits out.now (vec_len self.old.labels) }
        requires ranks { length rank.now ≡ vec_len self.old.labels }
        requires at { at < vec_len self.old.labels }
        requires reached { reached ≤ longest }
        ensures many { vec_len self.new.labels ≡ vec_len self.old.labels }
        ensures run { self.new.run ≡ self.old.run }
        ensures labels { (from : ℕ) → IsLabel out.now rank.now avoid from at reached
            → AllLabels out.now rank.now avoid from self.old.labels.items self.old.run → AllLabels out.now rank.now avoid from self.new.labels.items self.new.run }
    {
        for arc in out.row(NodeNo(at)) {
            self.reach(rank, avoid, *arc, reached, limit);
        }
    }

    // Goes on from the vertex of least label, and tells whether the search goes on.
    fn step(&mut self, out: &Rows, rank: &[u32], avoid: u32, limit: u64) -> bool
        requires fits { Fits out.now (vec_len self.old.labels) }
        requires ranks { length rank.now ≡ vec_len self.old.labels }
        requires limit { limit ≤ longest }
        ensures many { vec_len self.new.labels ≡ vec_len self.old.labels }
        ensures labels { (from : ℕ) → AllLabels out.now rank.now avoid from self.old.labels.items self.old.run → AllLabels out.now rank.now avoid from self.new.labels.items self.new.run }
    {
        let Some(at) = self.next() else {
            return false;
        };
        let reached = self.seconds_at(at);
        if reached > limit {
            return false;
        }
        if self.meets(at) {
            return false;
        }
        self.relax(out, rank, avoid, at, reached, limit);
        true
    }

    /// The label of a vertex that may be none, or the greatest number.
    #[inline]
    pub fn found(&self, node: NodeNo) -> u64 {
        match self.labels.get(node.0 as usize) {
            Some(label) => {
                if label.run == self.run {
                    label.seconds
                } else {
                    u64::MAX
                }
            }
            None => u64::MAX,
        }
    }

    /// Searches as `search` does, if the vertex may be searched from.
    pub fn look(
        &mut self,
        out: &Rows,
        rank: &[u32],
        avoid: u32,
        from: NodeNo,
        targets: &[CoreArc],
        limit: u64,
        settle: u32,
    )
        requires fits { Fits out.now (vec_len self.old.labels) }
        requires ranks { length rank.now ≡ vec_len self.old.labels }
        requires limit { limit ≤ longest }
        ensures many { vec_len self.new.labels ≡ vec_len self.old.labels }
    {
        if (from.0 as usize) < self.labels.len() && from.0 != avoid && is_left(rank, from) {
            self.search(out, rank, avoid, from.0, targets, limit, settle);
        }
    }

    /// Finds lists of arcs that avoid a vertex, of at most so many seconds. It ends when it has met all targets, or has
    /// gone on from so many vertices.
    pub fn search(
        &mut self,
        out: &Rows,
        rank: &[u32],
        avoid: u32,
        from: u32,
        targets: &[CoreArc],
        limit: u64,
        settle: u32,
    )
        requires fits { Fits out.now (vec_len self.old.labels) }
        requires ranks { length rank.now ≡ vec_len self.old.labels }
        requires from { from < vec_len self.old.labels }
        requires left { is_last rank.now from }
        requires other { from ≢ avoid }
        requires limit { limit ≤ longest }
        ensures many { vec_len self.new.labels ≡ vec_len self.old.labels }
        ensures labels { AllLabels out.now rank.now avoid from self.new.labels.items self.new.run }
    {
        self.begin(targets);
        self.labels[from as usize] = Label {
            seconds: 0,
            run: self.run,
        };
        self.queue.put_or_lower(from, 0);
        for _i in 0..settle {
            if !self.step(out, rank, avoid, limit) {
                break;
            }
        }
    }
}
