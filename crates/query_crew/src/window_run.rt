//! The messages of a window, which are posted beside the workers, and then the meeting of the
//! publisher with each worker's viewer.

ghost use Rattle.std.specs.Prelude.{◌≡◌, ℕ, ◌+◌, ◌^◌, ◌<◌, ◌≤◌, List, true, IfOk, OnOk, length, slice_index_or};
ghost use mathlib.Core.List.{IsPrefix};
ghost use Rattle.delay_model.specs.declared.messages.Message.{Message};
ghost use Rattle.query_crew.specs.Crews.{AreRepliesTo, StandsBehind};
ghost use Rattle.query_crew.specs.Keeping.{AreKept};
ghost use Rattle.query_crew.specs.Posted.{HasSearchRoom};
ghost use Rattle.query_crew.specs.Posting.{HasService, CanBeRun, AreLinesPosted};
ghost use Rattle.query_crew.specs.Working.{HasAnsweredAll, HasWorked};

use crate::answering::{answer_all, answer_in_turn, meet_worker};
use crate::joining::join_replies;
use crate::posting::post_all;
use crate::setting::Setting;
use crate::window::NumberedLines;
use crate::window_line::has_queries;
use crate::worker::Worker;
use delay_report::Reply;
use mt_base::memory::OutOfMemory;
use mt_io::Gate;
use schedule_build::Directory;
use snapshot_board::{Opening, Publisher, Viewer};
use std::alloc::{AllocError, Global};
use std::sync::Wait;
use std::thread::{Threads, join_mut};
use timetable::Timetable;

/// Posts the messages of the window, while the workers answer its queries in threads of their own.
/// Where no line asks something no thread is started: the workers go through the lines, one after
/// another, before the messages are posted.
fn run_beside<H: Opening<Timetable> + Send + Sync, R: Threads + Wait + Sync, G: Gate + Sync>(
    setting: &Setting<'_, R, G>,
    publisher: &mut Publisher<Timetable, H>,
    directory: &mut Directory,
    all: &mut [Worker<Viewer<Timetable, H>>],
    window: &NumberedLines<'_>,
    replies: &mut Vec<Option<Reply>>,
) -> Result<(), OutOfMemory>
    // numbers fit, names and trains are in step, and there is room for the answers
    requires ready { CanBeRun H.opening publisher.old directory.old window.now.first
        window.now.lines.now }
    requires few { length all.old < 2 ^ 32 }
    requires room { (i : ℕ) (d : _) → i < length all.old
        → HasSearchRoom H.opening (slice_index_or all.old i d).scratch.room }

    // what was posted and replied
    ensures posted { OnOk result (AreLinesPosted H.opening window.now.first window.now.lines.now
        publisher.old publisher.new directory.old directory.new replies.old.items
        replies.new.items) }
    ensures later { IsPrefix publisher.old publisher.new }

    // what each worker answered
    ensures worked { (i : ℕ) (d : _) → i < length all.old
        → (slice_index_or all.new i d).is_whole ≡ true
        → HasWorked H.opening publisher.old (slice_index_or all.new i d).viewer
        window.now.first i (length all.old) window.now.lines.now
        (slice_index_or all.new i d).answers.items }
    ensures kept { AreKept all.old all.new }
{
    let note = publisher.tell();
    if !has_queries(window.lines) {
        answer_in_turn(setting, all, window, &note);
        return post_all(setting, publisher, directory, window, replies);
    }
    let (_, posted) = join_mut(
        setting.rt,
        &mut ||
            requires { (length all.now < 2 ^ 32)
                × (window.now.first + length window.now.lines.now < 2 ^ 64)
                × ((i : ℕ) (d : _) → i < length all.now
                → HasSearchRoom H.opening (slice_index_or all.now i d).scratch.room) }
            ensures { ((i : ℕ) (d : _) → i < length all.entry.now
                → (slice_index_or all.exit.now i d).is_whole ≡ true
                → HasWorked H.opening note (slice_index_or all.exit.now i d).viewer
                window.entry.now.first i (length all.entry.now) window.entry.now.lines.now
                (slice_index_or all.exit.now i d).answers.items)
                × AreKept all.entry.now all.exit.now }
        { answer_all(setting, all, window, &note) },
        &mut || -> Result<(), OutOfMemory>
            requires { CanBeRun H.opening publisher.now directory.now window.now.first
                window.now.lines.now }
            ensures { OnOk result (AreLinesPosted H.opening window.entry.now.first
                window.entry.now.lines.now publisher.entry.now publisher.exit.now
                directory.entry.now directory.exit.now replies.entry.now.items
                replies.exit.now.items)
                × IsPrefix publisher.entry.now publisher.exit.now }
        { post_all(setting, publisher, directory, window, replies) },
    );
    posted
}

/// The publisher meets each worker's viewer. It says whether there was memory for all answers.
fn meet_all<H: Opening<Timetable>>(
    alloc: Global,
    publisher: &Publisher<Timetable, H>,
    all: &mut [Worker<Viewer<Timetable, H>>],
    window: &NumberedLines<'_>,
) -> bool
    requires numbers { window.now.first + length window.now.lines.now < 2 ^ 64 }
    requires few { length all.old < 2 ^ 32 }
    requires room { (i : ℕ) (d : _) → i < length all.old
        → HasSearchRoom H.opening (slice_index_or all.old i d).scratch.room }

    // the answers over what was posted, where the workers worked with a note of the first of it
    ensures answered { result ≡ true → (start : List Message) → IsPrefix start publisher.now
        → ((i : ℕ) (d : _) → i < length all.old → (slice_index_or all.old i d).is_whole ≡ true
        → HasWorked H.opening start (slice_index_or all.old i d).viewer window.now.first i
        (length all.old) window.now.lines.now (slice_index_or all.old i d).answers.items)
        → ((i : ℕ) (d : _) → i < length all.old → HasAnsweredAll H.opening publisher.now
        (length start) window.now.first i (length all.old) window.now.lines.now
        (slice_index_or all.new i d).answers.items) }
    ensures kept { AreKept all.old all.new }
{
    let workers = all.len() as u32;
    for i in 0..all.len() {
        if !meet_worker(alloc, publisher, &mut all[i], window, i as u32, workers) {
            return false;
        }
    }
    true
}

/// Posts the messages of a window in their order, while the workers answer its queries; `replies`
/// gets the reply to each line but the queries. Then the publisher meets each worker's viewer;
/// where there is none, or one saw more than was posted, the publisher answers in its place.
fn post_and_answer<H: Opening<Timetable> + Send + Sync, R: Threads + Wait + Sync, G: Gate + Sync>(
    setting: &Setting<'_, R, G>,
    publisher: &mut Publisher<Timetable, H>,
    directory: &mut Directory,
    all: &mut [Worker<Viewer<Timetable, H>>],
    window: &NumberedLines<'_>,
    replies: &mut Vec<Option<Reply>>,
) -> Result<(), OutOfMemory>
    // numbers fit, names and trains are in step, and there is room for the answers
    requires ready { CanBeRun H.opening publisher.old directory.old window.now.first
        window.now.lines.now }
    requires few { length all.old < 2 ^ 32 }
    requires room { (i : ℕ) (d : _) → i < length all.old
        → HasSearchRoom H.opening (slice_index_or all.old i d).scratch.room }

    // what was posted and replied
    ensures posted { OnOk result (AreLinesPosted H.opening window.now.first window.now.lines.now
        publisher.old publisher.new directory.old directory.new replies.old.items
        replies.new.items) }
    ensures later { IsPrefix publisher.old publisher.new }

    // what the clients of each worker are answered, over what was posted
    ensures answered { IfOk result (λ _. (i : ℕ) (d : _) → i < length all.old
        → HasAnsweredAll H.opening publisher.new (length publisher.old) window.now.first i
        (length all.old) window.now.lines.now (slice_index_or all.new i d).answers.items) }
    ensures kept { AreKept all.old all.new }
{
    run_beside(setting, publisher, directory, all, window, replies)?;
    if meet_all(setting.alloc, publisher, all, window) {
        Ok(())
    } else {
        Err(AllocError)
    }
}

/// Runs a window, and gives the reply to each of its lines, in their order. There is a worker at
/// least.
pub(crate) fn run_lines<
    H: Opening<Timetable> + Send + Sync,
    R: Threads + Wait + Sync,
    G: Gate + Sync,
>(
    setting: &Setting<'_, R, G>,
    publisher: &mut Publisher<Timetable, H>,
    directory: &mut Directory,
    all: &mut [Worker<Viewer<Timetable, H>>],
    window: &NumberedLines<'_>,
) -> Result<Vec<Reply>, OutOfMemory>
    requires ready { CanBeRun H.opening publisher.old directory.old window.now.first
        window.now.lines.now }
    requires some { 1 ≤ length all.old }
    requires few { length all.old < 2 ^ 32 }
    requires room { (i : ℕ) (d : _) → i < length all.old
        → HasSearchRoom H.opening (slice_index_or all.old i d).scratch.room }

    // the replies, and how the board stands then
    ensures replies { IfOk result (λ replies. AreRepliesTo H.opening publisher.old directory.old
        window.now.first window.now.lines.now replies.items) }
    ensures stands { OnOk result (StandsBehind H.opening publisher.old publisher.new directory.old
        directory.new window.now.first window.now.lines.now) }

    // nothing that was posted is taken back, names and trains are in step, and the workers stay
    ensures board { OnOk result (HasService H.opening publisher.new directory.new) }
    ensures later { IsPrefix publisher.old publisher.new }
    ensures kept { AreKept all.old all.new }
{
    let mut own = Vec::new(setting.alloc);
    post_and_answer(setting, publisher, directory, all, window, &mut own)?;
    join_replies(setting.alloc, window.lines, &mut own, all)
}
