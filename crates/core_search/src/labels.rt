// Labels by vertex.
ghost use Rattle.std.specs.Prelude.{◌≡◌, ◌+◌, ◌<◌, ◌≤◌, length, replicate, slice_set, IfOk, None};
ghost use Rattle.core_search.specs.Label.{label_at};
ghost use Rattle.core_search.specs.Waiting.{HasNone};

use crate::label::Label;
use crate::waiting::Waiting;
use move_model::{NoMemory, NodeNo};
use std::alloc::Global;
use std::marker::Model;

// What stands for no slot.
const NO_SLOT: u32 = u32::MAX;

// The label of a vertex, which may have been taken away again.
#[derive(Clone, Copy, Debug)]
pub struct Slot {
    pub label: Option<Label>,
    pub node: NodeNo,
}

/// A label or none for each vertex from 1 on. Contracts see a list of optional labels, in which entry v is the label of
/// the vertex v and entry 0 is None.
#[derive(Drop)]
pub struct Labels {
    // A slot for each vertex that has a label, with room for all vertices.
    slots: Vec<Slot>,
    // The slot of each vertex, from vertex 1 on, or NO_SLOT.
    index: Vec<u32>,
}

impl Model for Labels {
    ghost use Rattle.std.specs.Prelude.{List, Option, vec_capacity};
    ghost use Rattle.core_search.specs.declared.label.Label.{Label};
    ghost use Rattle.core_search.specs.Stored.{labels_in, IsStored};

    ghost Value = { List (Option Label) };

    ghost view = { λ labels. labels_in labels.slots.items labels.index.items };

    ghost invariant = { λ labels. IsStored labels.slots.items labels.index.items (vec_capacity labels.slots) };
}

impl Labels {
    /// No label, for so many vertices.
    pub fn new(alloc: Global, nodes: u32) -> Result<Labels, NoMemory>
        ensures { IfOk result (λ labels. labels ≡ replicate (nodes + 1) None) }
    {
        let slots = Vec::with_capacity(alloc, nodes as usize)?;
        let index = vec![in alloc; NO_SLOT; nodes as usize]?;
        Ok(Labels { slots, index })
    }

    /// The number of vertices.
    pub fn nodes(&self) -> u32
        ensures { result + 1 ≡ length self.now }
    {
        self.index.len() as u32
    }

    /// Writes the label of a vertex. Takes no memory.
    #[inline]
    pub fn set(&mut self, node: NodeNo, label: Option<Label>)
        requires from_one { 1 ≤ node.0 }
        requires exists { node.0 < length self.old }
        ensures { self.new ≡ slice_set self.old node.0 label }
    {
        let at = self.index[(node.0 - 1) as usize];
        if at == NO_SLOT {
            self.index[(node.0 - 1) as usize] = self.slots.len() as u32;
            self.slots.push_reserved(Slot { label, node });
        } else {
            self.slots[at as usize] = Slot { label, node };
        }
    }

    /// The label of a vertex, or None where it has none. Takes no memory.
    #[inline]
    pub fn get(&self, node: NodeNo) -> Option<Label>
        requires from_one { 1 ≤ node.0 }
        requires exists { node.0 < length self.now }
        ensures { result ≡ label_at self.now node.0 }
    {
        let at = self.index[(node.0 - 1) as usize];
        match self.slots.get(at as usize) {
            Some(slot) => slot.label,
            None => None,
        }
    }

    /// Leaves no label. It costs as much as there were labels. Takes no memory.
    pub fn clear(&mut self)
        ensures { self.new ≡ replicate (length self.old) None }
    {
        while let Some(slot) = self.slots.pop() {
            self.index[(slot.node.0 - 1) as usize] = NO_SLOT;
        }
    }

    // Lets all labels wait, and leaves none.
    pub(crate) fn move_to(&mut self, waiting: &mut Waiting)
        requires none { HasNone waiting.old }
        requires same { length waiting.old ≡ length self.old }
        ensures waiting { waiting.new ≡ self.old }
        ensures none { HasNone self.new }
        ensures many { length self.new ≡ length self.old }
    {
        while let Some(slot) = self.slots.pop() {
            self.index[(slot.node.0 - 1) as usize] = NO_SLOT;
            waiting.admit(slot.node, slot.label);
        }
    }
}
