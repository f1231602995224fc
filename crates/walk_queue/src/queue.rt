// The queue as its users see it.
ghost use Rattle.std.specs.Prelude.{◌≡◌, ◌↔◌, ◌<◌, length, replicate, slice_set, IsTrue, IsNone, IfNone, IfSome, IfOk, None, Some};
ghost use Rattle.std.specs.Bool.{OnTrue, OnFalse};
ghost use Rattle.walk_queue.specs.Keys.{key_at, improves, IsEmpty, IsLeast};

use crate::heap::{Entry, sift_down, sift_up};
use std::alloc::{AllocError, Global};
use std::marker::Model;

// What stands for no slot.
const ABSENT: u32 = u32::MAX;

/// A queue that holds one key at most for each of its places. Contracts see it as a list of optional
/// keys, one for each place.
#[derive(Drop)]
pub struct MinQueue<K: Ord + Copy> {
    // A heap, with room for as many entries as there are places.
    slots: Vec<Entry<K>>,
    // For each place the slot of its entry, or ABSENT.
    index: Vec<u32>,
}

impl<K: Ord + Copy> Model for MinQueue<K> {
    ghost use Rattle.std.specs.Prelude.{List, Option, vec_capacity};
    ghost use Rattle.std.specs.Coded.{coded_list, coded_option};

    ghost Value = { List (Option K) };

    ghost coded = { coded_list (coded_option K.code) };

    ghost use Rattle.walk_queue.specs.Heap.{keys_in, IsStored};

    ghost view = { λ queue. keys_in queue.slots.items queue.index.items };

    ghost invariant = { λ queue. IsStored K.cmp queue.slots.items queue.index.items (vec_capacity queue.slots) };
}

impl<K: Ord + Copy> MinQueue<K> {
    /// An empty queue with the places below `places`. It alone takes memory, for all of them at once.
    pub fn new(alloc: Global, places: u32) -> Result<MinQueue<K>, AllocError>
        ensures { IfOk result (λ queue. queue ≡ replicate places None) }
    {
        let slots = Vec::with_capacity(alloc, places as usize)?;
        let index = vec![in alloc; ABSENT; places as usize]?;
        Ok(MinQueue { slots, index })
    }

    /// How many places there are.
    pub fn places(&self) -> u32
        ensures { result ≡ length self.now }
    {
        self.index.len() as u32
    }

    /// Whether no place has a key.
    pub fn is_empty(&self) -> bool
        ensures { IsTrue result ↔ IsEmpty self.now }
    {
        self.slots.is_empty()
    }

    /// Puts a key at a place, or lowers the key that the place has. It answers false, and changes
    /// nothing, exactly where the place has a key that is not greater. It takes no memory: each place
    /// has one key at most, so there is always room.
    #[inline]
    pub fn put_or_lower(&mut self, place: u32, key: K) -> bool
        requires { place < length self.old }
        ensures answer { result ≡ improves K.cmp key (key_at self.old place) }
        ensures put { OnTrue result (self.new ≡ slice_set self.old place (Some key)) }
        ensures kept { OnFalse result (self.new ≡ self.old) }
        ensures places { length self.new ≡ length self.old }
    {
        let entry = Entry { key, place };
        let slot = self.index[place as usize];
        if slot == ABSENT {
            let last = self.slots.len();
            self.slots.push_reserved(entry);
            self.index[place as usize] = last as u32;
            sift_up(self.slots.as_mut_slice(), self.index.as_mut_slice(), last);
            return true;
        }
        let at = slot as usize;
        if key.cmp(&self.slots[at].key).is_lt() {
            self.slots[at] = entry;
            sift_up(self.slots.as_mut_slice(), self.index.as_mut_slice(), at);
            return true;
        }
        false
    }

    /// Takes out the least key with its place, and of equal keys that at the least place. It answers
    /// None exactly where no place has a key.
    #[inline]
    pub fn take_least(&mut self) -> Option<(u32, K)>
        ensures none { IsNone result ↔ IsEmpty self.old }
        ensures least { IfSome result (λ taken. IsLeast K.cmp self.old taken.0 taken.1) }
        ensures taken { IfSome result (λ taken. self.new ≡ slice_set self.old taken.0 None) }
        ensures kept { IfNone result (self.new ≡ self.old) }
        ensures places { length self.new ≡ length self.old }
    {
        if self.slots.is_empty() {
            return None;
        }
        let top = self.slots.swap_remove(0);
        self.index[top.place as usize] = ABSENT;
        if !self.slots.is_empty() {
            let moved = self.slots[0].place;
            self.index[moved as usize] = 0;
            sift_down(self.slots.as_mut_slice(), self.index.as_mut_slice(), 0);
        }
        Some((top.place, top.key))
    }

    /// Leaves no key. It costs as much as the queue holds, however many places there are.
    pub fn clear(&mut self)
        ensures { self.new ≡ replicate (length self.old) None }
    {
        while let Some(entry) = self.slots.pop() {
            self.index[entry.place as usize] = ABSENT;
        }
    }
}
