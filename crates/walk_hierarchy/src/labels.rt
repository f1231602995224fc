// The labels of a search, one for each vertex that it came to.
ghost use Rattle.std.specs.Prelude.{◌≡◌, ◌-◌, ◌<◌, ◌≤◌, ◌^◌, List, [], vec_capacity, All, ℕ, length, map, replicate, slice_set, IfOk, None, Some, Contains};
ghost use Rattle.std.specs.Bool.{OnTrue, OnFalse};
ghost use Rattle.walk_queue.specs.Keys.{key_at};
ghost use Rattle.walk_hierarchy.specs.Labels.{HasLabel, AreListed, lowers};
ghost use Rattle.walk_hierarchy.specs.Places.{settled_name};
ghost use Rattle.walk_hierarchy.specs.declared.labels.Label.{Label};
ghost use Rattle.walk_hierarchy.specs.declared.settled.Settled.{Settled};

use crate::settled::Settled;
use move_model::NodeNo;
use std::alloc::{AllocError, Global};
use std::marker::Model;

// What stands for the seconds of no label.
const ABSENT: u64 = u64::MAX;

// The seconds between a vertex and where the search began, and the vertex from which it came.
#[derive(Clone, Copy, Debug, PartialEq, Eq)]
pub(crate) struct Label {
    pub(crate) seconds: u64,
    pub(crate) parent: NodeNo,
}

// Contracts see the optional label of each vertex, from vertex 0.
#[derive(Drop)]
pub(crate) struct Labels {
    marks: Vec<Label>,
    touched: Vec<NodeNo>,
}

impl Model for Labels {
    ghost use Rattle.std.specs.Prelude.{List, Option, map, vec_capacity};
    ghost use Rattle.walk_hierarchy.specs.Labels.{label_of, IsTouched};
    ghost use Rattle.walk_hierarchy.specs.declared.labels.Label.{Label};

    ghost Value = { List (Option Label) };

    ghost view = { λ labels. map label_of labels.marks.items };

    ghost invariant = { λ labels. IsTouched labels.marks.items labels.touched.items (vec_capacity labels.touched) };
}

impl Labels {
    // No labels yet, of that many vertices.
    pub(crate) fn new(alloc: Global, places: u32) -> Result<Labels, AllocError>
        ensures { IfOk result (λ labels. labels ≡ replicate places None) }
    {
        let none = Label {
            seconds: ABSENT,
            parent: NodeNo(0),
        };
        let marks = vec![in alloc; none; places as usize]?;
        let touched = Vec::with_capacity(alloc, places as usize)?;
        Ok(Labels { marks, touched })
    }

    // The label of a vertex that has one.
    #[inline]
    pub(crate) fn label(&self, at: NodeNo) -> Label
        requires { (x : Label) × HasLabel self.now at.0 x }
        ensures { HasLabel self.now at.0 result }
    {
        self.marks[at.0 as usize]
    }

    // Writes a label with fewer seconds than the vertex has, or its first one. Answers false, and changes nothing, where
    // the vertex has a label that has no more seconds.
    #[inline]
    pub(crate) fn lower(&mut self, at: NodeNo, label: Label) -> bool
        requires exists { at.0 < length self.old }
        requires short { label.seconds < 2 ^ 64 - 1 }
        ensures answer { result ≡ lowers label (key_at self.old at.0) }
        ensures lowered { OnTrue result (self.new ≡ slice_set self.old at.0 (Some label)) }
        ensures kept { OnFalse result (self.new ≡ self.old) }
    {
        let held = self.marks[at.0 as usize].seconds;
        if held <= label.seconds {
            return false;
        }
        if held == ABSENT {
            self.touched.push_reserved(at);
            self.marks[at.0 as usize] = label;
            return true;
        }
        self.marks[at.0 as usize] = label;
        true
    }

    // The vertices that have labels.
    pub(crate) fn nodes(&self) -> &[NodeNo]
        ensures all { (v : ℕ) (x : Label) → HasLabel self.now v x → Contains result.now (record { 0 = v }) }
        ensures only { All (λ node. (x : Label) × HasLabel self.now node.0 x) result.now }
    {
        self.touched.as_slice()
    }

    // The label of a vertex, or None where it has none.
    #[inline]
    pub(crate) fn get(&self, at: NodeNo) -> Option<Label>
        requires { at.0 < length self.now }
        ensures { result ≡ key_at self.now at.0 }
    {
        let mark = self.marks[at.0 as usize];
        if mark.seconds < ABSENT {
            Some(mark)
        } else {
            None
        }
    }

    // Lists the places that have labels by their names, with their seconds.
    pub(crate) fn list(&self, names: &[u32], settled: &mut Vec<Settled>)
        requires empty { settled.old.items ≡ [] }
        requires room { length self.now ≤ vec_capacity settled.old }
        requires named { length names.now ≡ length self.now }
        ensures listed { (places : List Settled) × (AreListed self.now places × (settled.new.items ≡ map (settled_name names.now) places)) }
        ensures capacity { vec_capacity settled.new ≡ vec_capacity settled.old }
    {
        for place in self.touched.as_slice() {
            let seconds = self.marks[place.0 as usize].seconds;
            settled.push_reserved(Settled {
                node: NodeNo(names[place.0 as usize]),
                seconds,
            });
        }
    }

    // Leaves no label. It costs as much as there are labels, however many vertices there are.
    pub(crate) fn clear(&mut self)
        ensures { self.new ≡ replicate (length self.old) None }
    {
        while let Some(node) = self.touched.pop() {
            self.marks[node.0 as usize] = Label {
                seconds: ABSENT,
                parent: NodeNo(0),
            };
        }
    }
}
