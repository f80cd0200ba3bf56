//! The least of marks in a queue and of marks in a heap, and all of them in one queue.

ghost use Rattle.std.specs.Prelude.{◌≡◌, ◌≤◌, ℕ, [], ◌∷◌, ◌++◌, All, IfSome, IfNone, length, drop};
ghost use Rattle.std.specs.VecDeque.{deque_capacity};
ghost use Rattle.mt_base.specs.Order.{is_before};
ghost use Rattle.rank_order.specs.Marked.{Ascends};
ghost use Rattle.rank_order.specs.InOrder.{in_order};

use crate::late_marks::LateMarks;
use core::mem::{replace_with, swap};
use mt_base::keys::Key;
use std::collections::VecDeque;

/// Puts a queue without keys back to the start of its memory. A queue moves on through its memory
/// with each key that is put at its end and each that is taken off its front; put back, it touches
/// no more of it than for the keys that were put in since it was last without keys.
fn begin_again(keys: &mut VecDeque<Key>)
    requires { keys.old.items ≡ [] }
    ensures items { keys.new.items ≡ [] }
    ensures capacity { deque_capacity keys.new ≡ deque_capacity keys.old }
{
    replace_with(keys, (), |keys, _nothing| {
        (VecDeque::from_vec(keys.into_vec()), ())
    })
}

/// The first key, if there is one.
fn first_key(keys: &VecDeque<Key>) -> Option<Key>
    ensures none { IfNone result (keys.now.items ≡ []) }
    ensures some { IfSome result (λ k. keys.now.items ≡ k ∷ drop 1 keys.now.items) }
{
    keys.front().copied()
}

/// Takes the first key off, and puts the queue back to the start of its memory if it was the last.
fn drop_first(keys: &mut VecDeque<Key>)
    ensures items { keys.new.items ≡ drop 1 keys.old.items }
    ensures capacity { deque_capacity keys.new ≡ deque_capacity keys.old }
{
    let _ = keys.pop_front();
    if keys.is_empty() {
        begin_again(keys);
    }
}

/// Takes the least of the keys of a queue that are in order and of the late marks out of both.
/// There is none exactly where both are empty.
pub(crate) fn take_lesser(keys: &mut VecDeque<Key>, late: &mut LateMarks) -> Option<Key>
    requires ascends { Ascends keys.old.items }
    ensures ascends { Ascends keys.new.items }
    ensures capacity { deque_capacity keys.new ≡ deque_capacity keys.old }
    ensures no_key { IfNone result (keys.new.items ≡ []) }
    ensures no_late { IfNone result (late.new ≡ []) }
    ensures none { IfNone result (in_order (keys.old.items ++ late.old) ≡ []) }
    ensures taken { IfSome result (λ k. in_order (keys.old.items ++ late.old)
        ≡ k ∷ in_order (keys.new.items ++ late.new)) }
{
    let Some(first) = first_key(keys) else {
        return late.take_least();
    };
    if late.are_after(&first) {
        drop_first(keys);
        return Some(first);
    }
    let Some(least) = late.take_least() else {
        unreachable!();
    };
    if least.is_before(&first) {
        return Some(least);
    }
    drop_first(keys);
    Some(first)
}

/// Puts the late marks among the keys of a queue that are in order, by way of a spare queue.
pub(crate) fn gather(keys: &mut VecDeque<Key>, late: &mut LateMarks, spare: &mut VecDeque<Key>)
    requires ascends { Ascends keys.old.items }
    requires spare { spare.old.items ≡ [] }
    requires room { length (in_order (keys.old.items ++ late.old)) ≤ deque_capacity spare.old }
    ensures keys { keys.new.items ≡ in_order (keys.old.items ++ late.old) }
    ensures late { late.new ≡ [] }
    ensures spare { spare.new.items ≡ [] }
    ensures capacity { (n : ℕ) → n ≤ deque_capacity keys.old → n ≤ deque_capacity spare.old
        → n ≤ deque_capacity keys.new }
    ensures spare_capacity { (n : ℕ) → n ≤ deque_capacity keys.old
        → n ≤ deque_capacity spare.old → n ≤ deque_capacity spare.new }
{
    if late.is_empty() {
        return;
    }
    while let Some(key) = take_lesser(keys, late) {
        // There is room, so that it succeeds.
        let _ = spare.push_back(key);
    }
    swap(keys, spare);
}
