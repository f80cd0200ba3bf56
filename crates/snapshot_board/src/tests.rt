//! What no clause says: that posts find their room, that viewers look beside the publisher and
//! beside one another, and the whole of it once.

ghost use Rattle.std.specs.Prelude.{◌≡◌, Some};

mod sum;

use crate::board::{open_board, open_board_in};
use crate::history::NewHistory;
use crate::machine::{ApplyFault, Event, Machine};
use crate::meeting::Meet;
use crate::published::Opening;
use crate::publisher::{Publisher, PublisherOver};
use crate::tests::sum::Sum;
use crate::viewer::Viewer;
use linked_list_allocator::LocalHeap;
use std::alloc::{AllocError, Allocator, Global};
use std::marker::Brand;
use std::sync::Wait;
use std::sync::atomic::{AtomicU64, Ordering};
use std::test::*;
use std::thread::{Threads, join};

// What the machine answers. None is want of memory.
fn is_accepted(machine: &mut Machine<u32>, event: Event<u32>) -> Option<bool> {
    match machine.apply(event) {
        Ok(()) => Some(true),
        Err(ApplyFault::NotAStep(_)) => Some(false),
        Err(ApplyFault::OutOfMemory(_)) => None,
    }
}

fn look_of(viewer: u32, count: u64) -> Event<u32> {
    Event::Look { viewer, count }
}

#[test]
fn the_machine_accepts_steps_alone(rt: HostRuntime) -> Result<(), Fail> {
    let mut machine: Machine<u32> = Machine::build(rt.alloc(), 2)?;
    let rows = [
        (Event::Post(5), true),
        (look_of(0, 1), true),
        (look_of(0, 0), false),
        (Event::Learn { viewer: 0, note: 0 }, false),
        (Event::Tell, true),
        (Event::Learn { viewer: 1, note: 0 }, true),
        (look_of(1, 0), false),
        (look_of(1, 1), true),
        (look_of(2, 0), false),
        (Event::Post(7), true),
        (Event::Tell, true),
        (Event::Learn { viewer: 0, note: 1 }, true),
        (Event::Learn { viewer: 0, note: 0 }, true),
        (look_of(0, 1), false),
        (look_of(0, 2), true),
    ];
    for (i, (event, accepted)) in rows.iter().enumerate() {
        assert_eq!(rt;
            is_accepted(&mut machine, *event),
            Some(*accepted),
            "row {i}"
        );
    }
    Ok(())
}

#[test]
fn what_was_posted_is_seen(rt: HostRuntime) -> Result<(), Fail> {
    let fine = post_tell_learn_look_meet::<Brand, _>(
        &rt,
        rt.alloc(),
        NewHistory::new(),
        Sum::zero(),
        Sum::zero(),
    )?;
    assert!(rt; fine);
    Ok(())
}

// Posts a message, while there are fewer than `POSTS`. It says whether it was taken.
fn is_taken<H: Opening<u64>, A: Allocator, R: Wait>(
    rt: &R,
    publisher: &mut Publisher<Sum, H, A>,
    message: u32,
) -> bool {
    publisher.count() < POSTS && publisher.post(rt, message).is_ok()
}

// The total that a viewer sees, and after how many messages.
fn total_and_number<H: Opening<u64>, A: Allocator, R: Wait>(
    rt: &R,
    viewer: &mut Viewer<Sum, H, A>,
) -> (u64, u64) {
    viewer.look(rt, |s, n| (s.total, n))
}

// Whether so many messages were posted, and their sum is this one.
fn has_posted<H: Opening<u64>>(publisher: &Publisher<Sum, H>, count: u64, total: u64) -> bool {
    publisher.count() == count && publisher.state().total == total
}

// Whether a viewer that learns what was posted sees the first message, a 5.
fn sees_the_first<H: Opening<u64>, R: Wait>(
    rt: &R,
    publisher: &Publisher<Sum, H>,
    viewer: &mut Viewer<Sum, H>,
) -> bool {
    viewer.learn(publisher.tell());
    total_and_number(rt, viewer) == (5, 1) && viewer.seen() == 1
}

// What the publisher finds where it meets a viewer.
fn meeting<H: Opening<u64>>(publisher: &Publisher<Sum, H>, viewer: &mut Viewer<Sum, H>) -> Meet {
    let note = publisher.tell();
    publisher.meet(viewer, note)
}

// Whether a 5 is posted, a viewer sees it, and the publisher meets that viewer.
fn is_posted_seen_and_met<H: Opening<u64>, R: Wait>(
    rt: &R,
    publisher: &mut Publisher<Sum, H>,
    viewer: &mut Viewer<Sum, H>,
) -> bool {
    let is_posted = is_taken(rt, publisher, 5) && has_posted(publisher, 1, 5);
    let is_seen = sees_the_first(rt, publisher, viewer);
    let met = meeting(publisher, viewer);
    let within = Meet::Within {
        viewer: 1,
        publisher: 1,
    };
    is_posted && is_seen && met == within
}

fn post_tell_learn_look_meet<H: Opening<u64>, R: Wait>(
    rt: &R,
    alloc: Global,
    history: NewHistory<u32>,
    first: Sum,
    second: Sum,
) -> Result<bool, Fail>
    requires book { history ≡ H.book }
    requires opening { H.opening ≡ Some first.total }
    requires alike { first.total ≡ second.total }
{
    let (mut publisher, mut viewers) = open_board::<Sum, H, R>(
        rt, alloc, history, first, second, 1,
    )?;
    let fine = is_posted_seen_and_met(rt, &mut publisher, &mut viewers[0]);
    let last = publisher.close(rt, viewers);
    Ok(fine && last.total == 5)
}

const POSTS: u64 = 10_000;

#[test]
fn viewers_look_beside_the_publisher(rt: HostRuntime) -> Result<(), Fail> {
    let fine = look_beside_posts::<Brand, _>(
        &rt,
        rt.alloc(),
        NewHistory::new(),
        Sum::zero(),
        Sum::zero(),
    )?;
    assert!(rt; fine);
    Ok(())
}

// Posts 2 so often. It says whether each post was taken.
fn post_often<H: Opening<u64>, A: Allocator, R: Wait>(
    rt: &R,
    publisher: &mut Publisher<Sum, H, A>,
    posts: u64,
) -> bool {
    for _ in 0..posts {
        if !is_taken(rt, publisher, 2) {
            return false;
        }
    }
    true
}

// Looks until all is posted. It says whether each total was right for its number and no number
// fell.
fn look_to_the_end<H: Opening<u64>, R: Wait>(rt: &R, viewer: Viewer<Sum, H>) -> bool {
    let mut viewer = viewer;
    let mut before = 0;
    for _ in rt.forever() {
        let (total, number) = total_and_number(rt, &mut viewer);
        if number < before || total != number.wrapping_mul(2) {
            return false;
        }
        if number >= POSTS {
            return number == POSTS;
        }
        before = number;
    }
    unreachable!()
}

fn both_look<H: Opening<u64> + Send + Sync, R: Threads + Wait + Sync>(
    rt: &R,
    one: Viewer<Sum, H>,
    two: Viewer<Sum, H>,
) -> bool {
    let (a, b) = join(
        rt,
        move || look_to_the_end(rt, one),
        move || look_to_the_end(rt, two),
    );
    a && b
}

// Takes two viewers out: the last one is the second.
fn take_two<H: Opening<u64>>(
    viewers: &mut Vec<Viewer<Sum, H>>,
) -> Option<(Viewer<Sum, H>, Viewer<Sum, H>)> {
    match (viewers.pop(), viewers.pop()) {
        (Some(two), Some(one)) => Some((one, two)),
        _ => None,
    }
}

// Whether two viewers look beside all posts, and both see them.
fn both_see_all_posts<H: Opening<u64> + Send + Sync, R: Threads + Wait + Sync>(
    rt: &R,
    publisher: &mut Publisher<Sum, H>,
    viewers: &mut Vec<Viewer<Sum, H>>,
) -> bool {
    let Some((one, two)) = take_two(viewers) else {
        return false;
    };
    let (seen, posted) = join(
        rt,
        move || both_look(rt, one, two),
        || post_often(rt, publisher, POSTS),
    );
    seen && posted
}

fn look_beside_posts<H: Opening<u64> + Send + Sync, R: Threads + Wait + Sync>(
    rt: &R,
    alloc: Global,
    history: NewHistory<u32>,
    first: Sum,
    second: Sum,
) -> Result<bool, Fail>
    requires book { history ≡ H.book }
    requires opening { H.opening ≡ Some first.total }
    requires alike { first.total ≡ second.total }
{
    let (mut publisher, mut viewers) = open_board::<Sum, H, R>(
        rt, alloc, history, first, second, 2,
    )?;
    let fine = both_see_all_posts(rt, &mut publisher, &mut viewers);
    publisher.close(rt, viewers);
    Ok(fine)
}

#[test]
fn a_post_is_taken_inside_a_look(rt: HostRuntime) -> Result<(), Fail> {
    let fine = post_inside_a_look::<Brand, _>(
        &rt,
        rt.alloc(),
        NewHistory::new(),
        Sum::zero(),
        Sum::zero(),
    )?;
    assert!(rt; fine);
    Ok(())
}

// Posts while a look is open. It says whether the post was taken, and the total that was seen.
fn post_while_looking<H: Opening<u64>, R: Wait>(
    rt: &R,
    publisher: &mut Publisher<Sum, H>,
    viewer: &mut Viewer<Sum, H>,
) -> (bool, u64) {
    viewer.look(rt, |s, _| (post_often(rt, publisher, 1), s.total))
}

// On one thread, posts while a look is open, and looks again.
fn post_inside_a_look<H: Opening<u64>, R: Wait>(
    rt: &R,
    alloc: Global,
    history: NewHistory<u32>,
    first: Sum,
    second: Sum,
) -> Result<bool, Fail>
    requires book { history ≡ H.book }
    requires opening { H.opening ≡ Some first.total }
    requires alike { first.total ≡ second.total }
{
    let (mut publisher, mut viewers) = open_board::<Sum, H, R>(
        rt, alloc, history, first, second, 1,
    )?;
    let before = post_while_looking(rt, &mut publisher, &mut viewers[0]);
    let after = total_and_number(rt, &mut viewers[0]);
    let last = publisher.close(rt, viewers);
    Ok(before == (true, 0) && after == (2, 1) && last.total == 2)
}

#[test]
fn two_looks_are_open_at_once(rt: HostRuntime) -> Result<(), Fail> {
    let fine = look_at_once::<Brand, _>(
        &rt,
        rt.alloc(),
        NewHistory::new(),
        Sum::zero(),
        Sum::zero(),
    )?;
    assert!(rt; fine);
    Ok(())
}

// Whether the flag is set in the end.
fn is_set_in_the_end(flag: &AtomicU64) -> bool {
    for _ in 0..1_000_000_000u64 {
        if flag.load(Ordering::SeqCst) > 0 {
            return true;
        }
    }
    false
}

// Looks, and waits inside for the other to be inside its own look.
fn look_while_open<H: Opening<u64>, R: Wait>(
    rt: &R,
    viewer: Viewer<Sum, H>,
    mine: &AtomicU64,
    other: &AtomicU64,
) -> bool {
    let mut viewer = viewer;
    viewer.look(rt, |_, _| {
        mine.store(1, Ordering::SeqCst);
        is_set_in_the_end(other)
    })
}

// Whether the looks of two viewers are open at once.
fn both_are_open<H: Opening<u64> + Send + Sync, R: Threads + Wait + Sync>(
    rt: &R,
    viewers: &mut Vec<Viewer<Sum, H>>,
) -> bool {
    let Some((one, two)) = take_two(viewers) else {
        return false;
    };
    let first_is_in = AtomicU64::new(0);
    let second_is_in = AtomicU64::new(0);
    let (a, b) = join(
        rt,
        || look_while_open(rt, one, &first_is_in, &second_is_in),
        || look_while_open(rt, two, &second_is_in, &first_is_in),
    );
    a && b
}

fn look_at_once<H: Opening<u64> + Send + Sync, R: Threads + Wait + Sync>(
    rt: &R,
    alloc: Global,
    history: NewHistory<u32>,
    first: Sum,
    second: Sum,
) -> Result<bool, Fail>
    requires book { history ≡ H.book }
    requires opening { H.opening ≡ Some first.total }
    requires alike { first.total ≡ second.total }
{
    let (publisher, mut viewers) = open_board::<Sum, H, R>(rt, alloc, history, first, second, 2)?;
    let fine = both_are_open(rt, &mut viewers);
    publisher.close(rt, viewers);
    Ok(fine)
}

#[test]
fn the_older_copy_follows(rt: HostRuntime) -> Result<(), Fail> {
    let followed = followed_posts::<Brand, _>(
        &rt,
        rt.alloc(),
        NewHistory::new(),
        Sum::zero(),
        Sum::zero(),
    )?;
    assert_eq!(rt; followed, 3);
    Ok(())
}

// Posts seven messages, and says how many of them the copy that is shown last took as the other one
// had taken them.
fn followed_posts<H: Opening<u64>, R: Wait>(
    rt: &R,
    alloc: Global,
    history: NewHistory<u32>,
    first: Sum,
    second: Sum,
) -> Result<u64, Fail>
    requires book { history ≡ H.book }
    requires opening { H.opening ≡ Some first.total }
    requires alike { first.total ≡ second.total }
{
    let (mut publisher, viewers) = open_board::<Sum, H, R>(rt, alloc, history, first, second, 1)?;
    let posted = post_often(rt, &mut publisher, 7);
    let last = publisher.close(rt, viewers);
    Ok(if posted { last.followed } else { 0 })
}

#[test]
fn posts_want_no_memory(rt: HostRuntime) -> Result<(), Fail> {
    let heap = LocalHeap::new(rt.alloc(), 1 << 16)?;
    let fine = post_without_memory::<Brand, _>(
        &rt,
        rt.alloc(),
        &heap,
        NewHistory::new(),
        Sum::zero(),
        Sum::zero(),
    )?;
    assert!(rt; fine);
    Ok(())
}

// Takes all that is left, so that every allocation is refused from then on.
fn use_up<'a>(
    alloc: Global,
    heap: &'a LocalHeap,
) -> Result<Vec<Vec<u8, &'a LocalHeap>>, AllocError> {
    let mut taken = Vec::new(alloc);
    let mut size = 1 << 15;
    for _ in 0..1000 {
        match Vec::with_capacity(heap, size) {
            Ok(block) => taken.push(block)?,
            Err(_) => size /= 2,
        }
    }
    Ok(taken)
}

// Whether nothing is left, and a byte more is refused.
fn is_used_up(heap: &LocalHeap) -> bool {
    heap.free() == 0 && Vec::<u8, _>::with_capacity(heap, 1).is_err()
}

// Ends a board whose viewers are gone.
fn end_board<'a, H: Opening<u64>, R: Wait>(rt: &R, publisher: Publisher<Sum, H, &'a LocalHeap>) {
    let PublisherOver {
        writer,
        history: _,
        posted: _,
    } = publisher;
    drop(writer.take(rt));
}

fn post_without_memory<H: Opening<u64>, R: Wait>(
    rt: &R,
    alloc: Global,
    heap: &LocalHeap,
    history: NewHistory<u32>,
    first: Sum,
    second: Sum,
) -> Result<bool, Fail>
    requires book { history ≡ H.book }
    requires opening { H.opening ≡ Some first.total }
    requires alike { first.total ≡ second.total }
{
    let (mut publisher, mut viewers) = open_board_in::<Sum, H, _, R>(
        rt, heap, history, first, second, 1,
    )?;
    let taken = use_up(alloc, heap);
    let is_refused = is_used_up(heap);
    let posted = post_often(rt, &mut publisher, 1000);
    let seen = total_and_number(rt, &mut viewers[0]);
    drop(viewers);
    end_board(rt, publisher);
    drop(taken);
    Ok(is_refused && posted && seen == (2000, 1000))
}
