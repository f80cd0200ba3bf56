//! Marks that were set far from both ends of those that stood in order.

ghost use Rattle.std.specs.Prelude.{◌≡◌, ◌<◌, ◌||◌, [], ◌∷◌, false, true, All, IfSome, IfNone, IfOk};
ghost use Rattle.std.specs.BinaryHeap.{heap_items, heap_len, heap_capacity, IsHeap};
ghost use Rattle.mt_base.specs.declared.keys.Key.{Key as AKey};
ghost use Rattle.mt_base.specs.Order.{is_before, is_same};
ghost use Rattle.rank_order.specs.Marked.{has_key};
ghost use Rattle.rank_order.specs.InOrder.{Heaped, later_cmp, keys_in};

use core::cmp::Reverse;
use mt_base::keys::Key;
use mt_base::memory::OutOfMemory;
use std::alloc::Global;
use std::collections::BinaryHeap;
use std::marker::Model;

/// Marks in a heap, seen as the list of their keys in order, each of them once.
#[derive(Drop)]
pub(crate) struct LateMarks {
    /// The least key is at its top. A key is in it as often as it was set since it was last taken.
    heap: BinaryHeap<Reverse<Key>>,
}

impl Model for LateMarks {
    ghost use Rattle.std.specs.Prelude.{List};
    ghost use Rattle.mt_base.specs.declared.keys.Key.{Key as AKey};
    ghost use Rattle.rank_order.specs.Marked.{keys_code};

    ghost Value = { List AKey };

    ghost coded = { keys_code };

    ghost use Rattle.rank_order.specs.Stored.{late_seen, IsLateStored};

    ghost view = { late_seen };

    ghost invariant = { IsLateStored };
}

/// Takes the least key off a heap if it is this one, and answers whether it was.
fn pop_same(heap: &mut BinaryHeap<Reverse<Key>>, k: &Key) -> bool
    requires least { Heaped k.now heap.old }
    ensures least { Heaped k.now heap.new }
    ensures shorter { result ≡ true → heap_len heap.new < heap_len heap.old }
    ensures after { result ≡ false → All (λ q. is_before k.now q ≡ true) (keys_in heap.new) }
    ensures keys { (q : AKey) → (is_same k.now q || has_key (keys_in heap.new) q)
        ≡ (is_same k.now q || has_key (keys_in heap.old) q) }
{
    let Some(top) = heap.peek() else {
        return false;
    };
    if !top.0.is_same(k) {
        return false;
    }
    let Some(_) = heap.pop() else { unreachable!() };
    true
}

/// Takes a key off a heap as often as it is in it, where none is before it.
fn take_off(heap: &mut BinaryHeap<Reverse<Key>>, k: &Key)
    requires least { Heaped k.now heap.old }
    ensures heap { IsHeap later_cmp (heap_items heap.new) }
    ensures after { All (λ q. is_before k.now q ≡ true) (keys_in heap.new) }
    ensures keys { (q : AKey) → (is_same k.now q || has_key (keys_in heap.new) q)
        ≡ (is_same k.now q || has_key (keys_in heap.old) q) }
{
    'same: while pop_same(heap, k) {}
}

impl LateMarks {
    /// No marks, with room for so many. `OutOfMemory` where there is no memory.
    pub(crate) fn build(alloc: Global, room: usize) -> Result<LateMarks, OutOfMemory>
        ensures { IfOk result (λ marks. marks ≡ []) }
    {
        Ok(LateMarks {
            heap: BinaryHeap::with_capacity(alloc, room)?,
        })
    }

    /// The same marks once more, in as much memory. `OutOfMemory` where there is no memory.
    pub(crate) fn copy(&self, alloc: Global) -> Result<LateMarks, OutOfMemory>
        ensures { IfOk result (λ copy. copy ≡ self.now) }
    {
        let mut keys = Vec::with_capacity(alloc, self.heap.capacity())?;
        keys.extend_from_slice(self.heap.as_slice())?;
        Ok(LateMarks {
            heap: BinaryHeap::from(keys),
        })
    }

    /// Whether there are none.
    pub(crate) fn is_empty(&self) -> bool
        ensures { result ≡ true → self.now ≡ [] }
    {
        self.heap.is_empty()
    }

    /// Whether there is no room for another.
    pub(crate) fn is_full(&self) -> bool {
        self.heap.len() == self.heap.capacity()
    }

    /// Whether a key is before all of them.
    pub(crate) fn are_after(&self, k: &Key) -> bool
        ensures after { result ≡ true → All (λ q. is_before k.now q ≡ true) self.now }
        ensures all { All (λ q. is_before k.now q ≡ true) self.now → result ≡ true }
    {
        match self.heap.peek() {
            Some(least) => k.is_before(&least.0),
            None => true,
        }
    }

    /// Marks an event if there is room, and answers whether there was. It takes no memory.
    pub(crate) fn set(&mut self, k: &Key) -> bool
        ensures set { result ≡ true → (q : AKey) → has_key self.new q
            ≡ (is_same k.now q || has_key self.old q) }
        ensures full { result ≡ false → self.new ≡ self.old }
    {
        if self.is_full() {
            return false;
        }
        let Ok(()) = self.heap.push(Reverse(*k)) else {
            return false;
        };
        true
    }

    /// Takes out the least marked key. There is none exactly where no event is marked.
    pub(crate) fn take_least(&mut self) -> Option<Key>
        ensures none { IfNone result (self.old ≡ []) }
        ensures same { IfNone result (self.new ≡ self.old) }
        ensures taken { IfSome result (λ k. self.old ≡ k ∷ self.new) }
        ensures least { IfSome result (λ k. All (λ q. is_before k q ≡ true) self.new) }
    {
        let Reverse(least) = self.heap.pop()?;
        take_off(&mut self.heap, &least);
        Some(least)
    }
}
