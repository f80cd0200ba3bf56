//! Marked events.

ghost use Rattle.std.specs.Prelude.{◌≡◌, ◌≤◌, ◌<◌, ◌||◌, ℕ, [], ◌∷◌, ◌++◌, false, true, Bool, All, filter, IfSome, IfNone, IfOk, length};
ghost use Rattle.std.specs.Fn.{ComputesKey};
ghost use Rattle.std.specs.VecDeque.{deque_capacity};
ghost use Rattle.mt_base.specs.declared.keys.Key.{Key as AKey};
ghost use Rattle.mt_base.specs.Order.{is_before, is_same};
ghost use Rattle.rank_order.specs.Marked.{Ascends, has_key, is_marked};
ghost use Rattle.rank_order.specs.InOrder.{in_order, IsPlace};

use crate::gathering::{gather, take_lesser};
use crate::late_marks::LateMarks;
use mt_base::keys::Key;
use mt_base::memory::OutOfMemory;
use std::alloc::Global;
use std::collections::VecDeque;
use std::marker::Model;

/// Events that are marked, by their keys. It is seen as the list of these keys in their order, and
/// how many can be marked at once.
#[derive(Drop)]
pub struct Marks {
    /// The least key first. A mark is put in by moving the marks before it or those after it,
    /// whichever are fewer, and the least is taken without moving any.
    keys: VecDeque<Key>,
    /// Marks for which more than a few keys would have had to be moved.
    late: LateMarks,
    /// No keys: where late marks are gathered, all keys are put in order here.
    spare: VecDeque<Key>,
    /// How many can be marked at once: so many are sure to fit.
    room: u32,
}

impl Model for Marks {
    ghost use Rattle.rank_order.specs.Marked.{Marked, marked_code};

    ghost Value = { Marked };

    ghost coded = { marked_code };

    ghost use Rattle.rank_order.specs.Stored.{seen, IsStored};

    ghost view = { seen };

    ghost invariant = { IsStored };
}

/// How many keys may have to be moved for one that is put among the others.
const FEW: usize = 64;

/// The place among keys in order at which a key has to be put. There is none where it is there.
fn free_place(keys: &VecDeque<Key>, k: &Key) -> Option<usize>
    requires ascends { Ascends keys.now.items }
    ensures there { IfNone result (has_key keys.now.items k.now ≡ true) }
    ensures none { IfSome result (λ _. has_key keys.now.items k.now ≡ false) }
    ensures bound { IfSome result (λ place. place ≤ length keys.now.items) }
    ensures place { IfSome result (λ place. IsPlace k.now keys.now.items place) }
{
    let place = keys.partition_point(|q| q.is_before(k));
    if place == keys.len() {
        return Some(place);
    }
    if keys[place].is_same(k) {
        return None;
    }
    Some(place)
}

/// Sets a late mark if its place among so many keys is far from both ends and there is room, and
/// answers whether it did.
fn set_far(late: &mut LateMarks, place: usize, len: usize, k: &Key) -> bool
    requires { place ≤ len }
    ensures set { result ≡ true → (q : AKey) → has_key late.new q
        ≡ (is_same k.now q || has_key late.old q) }
    ensures unset { result ≡ false → late.new ≡ late.old }
{
    if place.min(len - place) <= FEW {
        return false;
    }
    late.set(k)
}

/// Gathers the late marks if there is no room for another.
fn gather_if_full(keys: &mut VecDeque<Key>, late: &mut LateMarks, spare: &mut VecDeque<Key>)
    requires ascends { Ascends keys.old.items }
    requires spare { spare.old.items ≡ [] }
    requires room { length (in_order (keys.old.items ++ late.old)) ≤ deque_capacity spare.old }
    ensures ascends { Ascends keys.new.items }
    ensures keys { in_order (keys.new.items ++ late.new)
        ≡ in_order (keys.old.items ++ late.old) }
    ensures spare { spare.new.items ≡ [] }
    ensures capacity { (n : ℕ) → n ≤ deque_capacity keys.old → n ≤ deque_capacity spare.old
        → n ≤ deque_capacity keys.new }
    ensures spare_capacity { (n : ℕ) → n ≤ deque_capacity keys.old
        → n ≤ deque_capacity spare.old → n ≤ deque_capacity spare.new }
{
    if late.is_full() {
        gather(keys, late, spare);
    }
}

impl Marks {
    /// No marks, with room for so many at once. `OutOfMemory` where there is no memory.
    pub fn build(alloc: Global, room: u32) -> Result<Marks, OutOfMemory>
        ensures { IfOk result (λ marks. marks ≡ record { keys = []; room = room }) }
    {
        Ok(Marks {
            keys: VecDeque::with_capacity(alloc, room as usize)?,
            late: LateMarks::build(alloc, (room / 8) as usize + FEW)?,
            spare: VecDeque::with_capacity(alloc, room as usize)?,
            room,
        })
    }

    /// The same marks once more, with the same room. `OutOfMemory` where there is no memory.
    pub fn copy(&self, alloc: Global) -> Result<Marks, OutOfMemory>
        ensures { IfOk result (λ copy. copy ≡ self.now) }
    {
        let (first, second) = self.keys.as_slices();
        let mut keys = Vec::with_capacity(alloc, self.room as usize)?;
        keys.extend_from_slice(first)?;
        keys.extend_from_slice(second)?;
        Ok(Marks {
            keys: VecDeque::from_vec(keys),
            late: self.late.copy(alloc)?,
            spare: VecDeque::with_capacity(alloc, self.room as usize)?,
            room: self.room,
        })
    }

    /// A law: each key is before those after it, and there are no more than there is room for.
    pub fn marks_are_in_order(&self)
        ensures ascends { Ascends self.now.keys }
        ensures fits { length self.now.keys ≤ self.now.room }
    {
        let _ = &self.keys;
    }

    /// Marks an event, and answers whether it is sure that it was not marked. It takes no memory.
    pub fn set(&mut self, k: &Key) -> bool
        requires room { is_marked self.old k.now ≡ false → length self.old.keys < self.old.room }
        ensures room { self.new.room ≡ self.old.room }
        ensures marked { (q : AKey) → is_marked self.new q
            ≡ (is_same k.now q || is_marked self.old q) }
        ensures fresh { result ≡ true → is_marked self.old k.now ≡ false }
    {
        let Some(place) = free_place(&self.keys, k) else {
            return false;
        };
        let fresh = self.late.is_empty();
        if set_far(&mut self.late, place, self.keys.len(), k) {
            return fresh;
        }
        // There is room, so that it succeeds.
        let _ = self.keys.insert(place, *k);
        gather_if_full(&mut self.keys, &mut self.late, &mut self.spare);
        fresh
    }

    /// Takes out the least marked key. There is none exactly where no event is marked.
    pub fn take_least(&mut self) -> Option<Key>
        ensures room { self.new.room ≡ self.old.room }
        ensures none { IfNone result (self.old.keys ≡ []) }
        ensures same { IfNone result (self.new ≡ self.old) }
        ensures taken { IfSome result (λ k. self.old.keys ≡ k ∷ self.new.keys) }
        ensures least { IfSome result (λ k. All (λ q. is_before k q ≡ true) self.new.keys) }
    {
        take_lesser(&mut self.keys, &mut self.late)
    }

    /// Takes the marks off that do not pass a test.
    pub fn retain<F: FnMut(&Key) -> bool>(&mut self, passes: F)
        requires { F.IsAlwaysCallable passes }
        ensures room { self.new.room ≡ self.old.room }
        ensures keys { (p : AKey → Bool) → ComputesKey F.FnMut p passes → self.new.keys
            ≡ filter p self.old.keys }
    {
        gather(&mut self.keys, &mut self.late, &mut self.spare);
        self.keys.retain(passes);
    }
}
