//! Elements of a list in blocks, one after another.

ghost use Rattle.std.specs.Prelude.{◌≡◌, ◌≤◌, ◌∷◌, [], IfNone, IfSome, drop, length, slice_range};
ghost use Rattle.std.specs.Iterator.{YieldsFirst, item_count};

use crate::block_list::BlockList;
use std::marker::Model;

/// The elements of a list from one place up to another, seen as the list of those still to come.
#[derive(Drop)]
pub struct Elements<'a, T> {
    list: &'a BlockList<T>,
    /// The place of the next of them.
    next: usize,
    /// The place behind the last of them.
    end: usize,
}

impl<'a, T> Model for Elements<'a, T> {
    ghost use Rattle.std.specs.Prelude.{◌≤◌, List, length, slice_range};

    ghost Value = { List T };

    ghost view = { λ a. slice_range a.list.now.items a.next a.end };

    ghost invariant = { λ a. (a.next ≤ a.end) × (a.end ≤ length a.list.now.items) };
}

impl<'a, T: Copy> Elements<'a, T> {
    /// The elements of a list from one place up to another.
    pub(crate) fn new(list: &'a BlockList<T>, first: usize, last: usize) -> Elements<'a, T>
        requires order { first ≤ last }
        requires within { last ≤ length list.now.items }
        ensures { result ≡ slice_range list.now.items first last }
    {
        Elements {
            list,
            next: first,
            end: last,
        }
    }

    /// The next element, if there is one. It is still to come.
    pub fn first(&self) -> Option<T>
        ensures none { IfNone result (self.now ≡ []) }
        ensures some { IfSome result (λ x. self.now ≡ x ∷ drop 1 self.now) }
    {
        if self.next == self.end {
            return None;
        }
        Some(*self.list.get(self.next))
    }
}

impl<'a, T: Copy> Iterator for Elements<'a, T> {
    type Item = T;

    ghost next_gives = { YieldsFirst (λ s. s) };

    ghost remaining = { item_count (λ s. s) };

    fn next(&mut self) -> Option<T> {
        let item = self.first()?;
        self.next += 1;
        Some(item)
    }
}
