//! The replies to the lines of a window, from what the publisher and the workers have for them.

ghost use Rattle.std.specs.Prelude.{◌≡◌, ℕ, ◌^◌, ◌<◌, ◌≤◌, List, None, Some, IfOk, IsSome, length, get_or, slice_get, slice_index_or};
ghost use Rattle.query_crew.specs.declared.window_line.WindowLine.{WindowLine as ALine};
ghost use Rattle.query_crew.specs.Joining.{answer_for, chosen, reply_for, IsSameBehind, AreJoined};
ghost use Rattle.query_crew.specs.Keeping.{IsKept, AreKept};

use crate::window_line::WindowLine;
use crate::worker::Worker;
use delay_report::Reply;
use mt_base::memory::OutOfMemory;
use std::alloc::Global;

/// Takes what the worker has for the line in this place.
fn take_entry<V: Drop>(worker: &mut Worker<V>, place: usize) -> Option<Reply>
    requires { place < length worker.old.answers.items }
    ensures taken { result ≡ get_or worker.old.answers.items place None }
    ensures others { IsSameBehind place worker.old.answers.items worker.new.answers.items }
    ensures kept { IsKept worker.old worker.new }
{
    worker.answers[place].take()
}

/// Takes what the worker of the client has for the line in this place, if it is a query.
fn take_answer<V: Drop>(all: &mut [Worker<V>], line: &WindowLine, place: usize) -> Option<Reply>
    requires some { 1 ≤ length all.old }
    requires few { length all.old < 2 ^ 32 }
    requires there { (k : ℕ) (d : _) → k < length all.old
        → place < length (slice_index_or all.old k d).answers.items }
    ensures answer { (d : _) → result ≡ answer_for
        (λ k. (slice_index_or all.old k d).answers.items) (length all.old) line.now place }
    ensures others { (k : ℕ) (d : _) → k < length all.old → IsSameBehind place
        (slice_index_or all.old k d).answers.items (slice_index_or all.new k d).answers.items }
    ensures kept { AreKept all.old all.new }
{
    if let WindowLine::Query(query) = line {
        let me = query.client.worker(all.len() as u32) as usize;
        return take_entry(&mut all[me], place);
    }
    None
}

/// The reply to the line in this place: the publisher's, or else the answer of a worker.
fn take_reply<V: Drop>(
    own: Option<Reply>,
    all: &mut [Worker<V>],
    line: &WindowLine,
    place: usize,
) -> Option<Reply>
    requires some { 1 ≤ length all.old }
    requires few { length all.old < 2 ^ 32 }
    requires there { (k : ℕ) (d : _) → k < length all.old
        → place < length (slice_index_or all.old k d).answers.items }
    ensures reply { (d : _) → result ≡ chosen own (answer_for
        (λ k. (slice_index_or all.old k d).answers.items) (length all.old) line.now place) }
    ensures others { (k : ℕ) (d : _) → k < length all.old → IsSameBehind place
        (slice_index_or all.old k d).answers.items (slice_index_or all.new k d).answers.items }
    ensures kept { AreKept all.old all.new }
{
    match own {
        Some(reply) => Some(reply),
        None => take_answer(all, line, place),
    }
}

/// The reply to each line: the publisher's, or else the answer of the worker of its client. They
/// are taken out of what the publisher and the workers have. It fails only by memory.
pub(crate) fn join_replies<V: Drop>(
    alloc: Global,
    lines: &[WindowLine],
    own: &mut Vec<Option<Reply>>,
    all: &mut [Worker<V>],
) -> Result<Vec<Reply>, OutOfMemory>
    requires some { 1 ≤ length all.old }
    requires few { length all.old < 2 ^ 32 }

    // there is an entry for each line, and a reply to it
    requires own { length own.old.items ≡ length lines.now }
    requires entries { (k : ℕ) (d : _) → k < length all.old
        → length (slice_index_or all.old k d).answers.items ≡ length lines.now }
    requires covered { (place : ℕ) (line : ALine) (d : _) → slice_get lines.now place ≡ Some line
        → IsSome (reply_for own.old.items (λ k. (slice_index_or all.old k d).answers.items)
        (length all.old) line place) }

    // the replies, and what stays of the workers
    ensures one_each { IfOk result (λ replies. length replies.items ≡ length lines.now) }
    ensures each { IfOk result (λ replies. (d : _) → AreJoined lines.now own.old.items
        (λ k. (slice_index_or all.old k d).answers.items) (length all.old) replies.items) }
    ensures kept { AreKept all.old all.new }
{
    let mut replies = Vec::with_capacity(alloc, lines.len())?;
    for (i, line) in lines.iter().enumerate() {
        let entry = own[i].take();
        let Some(reply) = take_reply(entry, all, line, i) else {
            unreachable!()
        };
        replies.push(reply)?;
    }
    Ok(replies)
}
