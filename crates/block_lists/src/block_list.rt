//! Lists whose elements lie in blocks, with room that was taken when they were made.

ghost use Rattle.std.specs.Prelude.{◌≡◌, ◌+◌, ◌-◌, ◌<◌, ◌≤◌, [], Bool, IfOk, length, nat_eq, slice_index_or, slice_range, slice_set, true, false};
ghost use Rattle.std.specs.Fn.{CalledAt, ComputesKey};
ghost use Rattle.std.specs.List.{insert, remove};
ghost use Rattle.std.specs.List.Retain.{IsFiltered};
ghost use Rattle.std.specs.List.Sorted.{IsBinarySearchResult, IsPartitionPoint, IsPartitionedBy, IsSearchInRange};

use crate::blocks::{BLOCK, move_back, move_on, settle, settle_all, stored_at};
use crate::elements::Elements;
use mt_base::memory::{OutOfMemory, copy_with_room};
use std::alloc::Global;
use std::cmp::Ordering;
use std::marker::Model;

/// A long list with room for more elements, seen as the list of them and for how many more there
/// is room. An insertion and a removal move the elements of one block, and one of each block
/// behind it. Neither takes memory.
#[derive(Drop)]
pub struct BlockList<T> {
    /// The elements, block by block. All blocks but the last are full.
    stored: Vec<T>,
    /// For each block the place in it where its first element stands. The others follow, and those
    /// that would stand behind the end of the block stand at its front.
    starts: Vec<u8>,
    room: u32,
}

impl<T> Model for BlockList<T> {
    ghost use Rattle.std.specs.Prelude.{vec_capacity};
    ghost use Rattle.block_lists.specs.Blocks.{Blocks, IsStored, coded_blocks, elements};

    ghost Value = { Blocks T };

    ghost coded = { coded_blocks T.code };

    ghost view = { λ a. record { items = elements a.starts.items a.stored.items; room = a.room } };

    ghost invariant = { λ a. IsStored a.starts.items a.stored.items (vec_capacity a.stored) a.room };
}

impl<T: Copy> BlockList<T> {
    /// No elements, with room for so many. `OutOfMemory` where there is no memory.
    pub fn with_room(alloc: Global, room: u32) -> Result<BlockList<T>, OutOfMemory>
        ensures { IfOk result (λ list. list ≡ record { items = []; room = room }) }
    {
        Ok(BlockList {
            stored: Vec::with_capacity(alloc, room as usize)?,
            starts: vec![in alloc; 0; room as usize / BLOCK + 1]?,
            room,
        })
    }

    /// The same elements once more, with the same room. `OutOfMemory` where there is no memory.
    pub fn copy(&self, alloc: Global) -> Result<BlockList<T>, OutOfMemory>
        ensures { IfOk result (λ copy. copy ≡ self.now) }
    {
        Ok(BlockList {
            stored: copy_with_room(alloc, &self.stored, self.room)?,
            starts: Vec::from_slice(alloc, &self.starts)?,
            room: self.room,
        })
    }

    /// How many elements there are.
    pub fn len(&self) -> usize
        ensures { result ≡ length self.now.items }
    {
        self.stored.len()
    }

    /// Whether there are none.
    pub fn is_empty(&self) -> bool
        ensures { result ≡ nat_eq (length self.now.items) 0 }
    {
        self.stored.is_empty()
    }

    /// For how many more elements there is room.
    pub fn room(&self) -> u32
        ensures { result ≡ self.now.room }
    {
        self.room
    }

    /// The element at a place.
    pub fn get(&self, place: usize) -> &T
        requires { place < length self.now.items }
        ensures { result.now ≡ slice_index_or self.now.items place result.now }
    {
        let at = stored_at(&self.starts, place);
        &self.stored[at]
    }

    /// Puts an element in place of the one at a place.
    pub fn set(&mut self, place: usize, item: T)
        requires { place < length self.old.items }
        ensures items { self.new.items ≡ slice_set self.old.items place item }
        ensures room { self.new.room ≡ self.old.room }
    {
        let at = stored_at(&self.starts, place);
        self.stored[at] = item;
    }

    /// Puts an element at a place, before the one that stands there. It takes no memory.
    pub fn insert(&mut self, place: usize, item: T)
        requires place { place ≤ length self.old.items }
        requires room { 0 < self.old.room }
        ensures items { self.new.items ≡ insert self.old.items place item }
        ensures room { self.new.room ≡ self.old.room - 1 }
    {
        let end = place.max(self.stored.len() / BLOCK * BLOCK);
        let carried = move_on(&mut self.stored, &mut self.starts, place, end, item);
        // There is room, so that it succeeds.
        let _ = self.stored.insert(end, carried);
        self.room -= 1;
    }

    /// Takes the element at a place out, and gives its room back.
    pub fn remove(&mut self, place: usize) -> T
        requires { place < length self.old.items }
        ensures value { result ≡ slice_index_or self.old.items place result }
        ensures items { self.new.items ≡ remove self.old.items place }
        ensures room { self.new.room ≡ self.old.room + 1 }
    {
        let last = (self.stored.len() - 1) / BLOCK;
        settle(&mut self.stored, &mut self.starts, last);
        let end = place.max(last * BLOCK);
        let carried = self.stored.remove(end);
        self.room += 1;
        move_back(&mut self.stored, &mut self.starts, place, end, carried)
    }

    /// Keeps the elements that pass a test, in their order, and gives the room of the others back.
    pub fn retain<F: FnMut(&T) -> bool>(&mut self, passes: F)
        requires { F.IsAlwaysCallable passes }
        ensures items { IsFiltered (CalledAt F.FnMut) passes self.old.items self.new.items }
        ensures room { self.new.room + length self.new.items
            ≡ self.old.room + length self.old.items }
    {
        let before = self.stored.len();
        settle_all(&mut self.stored, &mut self.starts);
        self.stored.retain(passes);
        self.room += (before - self.stored.len()) as u32;
    }

    /// The elements from one place up to another.
    pub fn range(&self, first: usize, last: usize) -> Elements<'_, T>
        requires order { first ≤ last }
        requires within { last ≤ length self.now.items }
        ensures { result ≡ slice_range self.now.items first last }
    {
        Elements::new(self, first, last)
    }

    /// How many elements pass a test, where those that pass it come first.
    pub fn partition_point<F: FnMut(&T) -> bool>(&self, mut passes: F) -> usize
        requires { F.IsAlwaysCallable passes }
        ensures bound { result ≤ length self.now.items }
        ensures partitioned { (p : T → Bool) → ComputesKey F.FnMut p passes
            → IsPartitionedBy p self.now.items
            → IsPartitionPoint (λ x. p x ≡ true) (λ x. p x ≡ false) self.now.items result }
    {
        let mut size = self.len();
        if size == 0 {
            return 0;
        }
        let mut base = 0;
        while size > 1 {
            let half = size / 2;
            let mid = base + half;
            if passes(self.get(mid)) {
                base = mid;
                size -= half;
            } else {
                size -= half;
            }
        }
        if passes(self.get(base)) {
            base + 1
        } else {
            base
        }
    }

    /// The place of an element that compares as equal, or where one would be put.
    pub fn binary_search_by<F: FnMut(&T) -> Ordering>(&self, mut compare: F) -> Result<usize, usize>
        requires { F.IsAlwaysCallable compare }
        ensures bound { IsSearchInRange result (length self.now.items) }
        ensures position { (ord : T → Ordering) → ComputesKey F.FnMut ord compare
            → IsBinarySearchResult ord self.now.items result }
    {
        let mut size = self.len();
        if size == 0 {
            return Err(0);
        }
        let mut base = 0;
        while size > 1 {
            let half = size / 2;
            let mid = base + half;
            if compare(self.get(mid)).is_gt() {
                size -= half;
            } else {
                base = mid;
                size -= half;
            }
        }
        match compare(self.get(base)) {
            Ordering::Equal => Ok(base),
            Ordering::Less => Err(base + 1),
            Ordering::Greater => Err(base),
        }
    }
}
