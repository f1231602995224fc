// The labels that wait.
ghost use Rattle.std.specs.Prelude.{◌≡◌, ◌+◌, ◌<◌, ◌≤◌, ℕ, length, replicate, IfOk, IfSome, IfNone, IsNone, None, Some};
ghost use Rattle.core_search.specs.Waiting.{HasNone, IsPut, IsAdmitted, IsTaken};

use crate::label::Label;
use move_model::{NoMemory, NodeNo};
use std::alloc::Global;
use std::marker::Model;
use walk_queue::MinQueue;

// For each vertex from 1 on the label that waits there, or none. Contracts see a list of optional labels, in which entry
// v is the label of the vertex v and entry 0 is None.
#[derive(Drop)]
pub(crate) struct Waiting {
    queue: MinQueue<Label>,
}

impl Model for Waiting {
    ghost use Rattle.std.specs.Prelude.{◌<◌, ◌^◌, List, ◌∷◌, Option, None, length};
    ghost use Rattle.core_search.specs.declared.label.Label.{Label};

    ghost Value = { List (Option Label) };

    ghost view = { λ waiting. None ∷ waiting.queue };

    ghost invariant = { λ waiting. length waiting.queue < 2 ^ 32 };
}

impl Waiting {
    pub(crate) fn new(alloc: Global, nodes: u32) -> Result<Waiting, NoMemory>
        ensures { IfOk result (λ waiting. waiting ≡ replicate (nodes + 1) None) }
    {
        let queue = MinQueue::new(alloc, nodes)?;
        Ok(Waiting { queue })
    }

    // Lets a label wait at a vertex, unless a lesser one waits there.
    #[inline]
    pub(crate) fn put(&mut self, at: NodeNo, label: Label)
        requires from_one { 1 ≤ at.0 }
        requires exists { at.0 < length self.old }
        ensures { IsPut self.old self.new at.0 label }
    {
        self.queue.put_or_lower(at.0 - 1, label);
    }

    // Lets an optional label wait.
    #[inline]
    pub(crate) fn admit(&mut self, at: NodeNo, label: Option<Label>)
        requires from_one { 1 ≤ at.0 }
        requires exists { at.0 < length self.old }
        ensures { IsAdmitted self.old self.new at.0 label }
    {
        if let Some(label) = label {
            self.put(at, label);
        }
    }

    // Takes the least label.
    #[inline]
    pub(crate) fn take(&mut self) -> Option<(NodeNo, Label)>
        ensures none { IfNone result (HasNone self.old) }
        ensures kept { IfNone result (self.new ≡ self.old) }
        ensures from_one { IfSome result (λ taken. 1 ≤ taken.0.0) }
        ensures exists { IfSome result (λ taken. taken.0.0 < length self.old) }
        ensures taken { IfSome result (λ taken. IsTaken self.old self.new taken.0.0 taken.1) }
    {
        match self.queue.take_least() {
            Some((at, label)) => Some((NodeNo(at + 1), label)),
            None => None,
        }
    }
}
