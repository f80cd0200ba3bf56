//! How the queries of a window are answered: by workers, or by the publisher.

ghost use Rattle.std.specs.Prelude.{◌≡◌, ℕ, ◌+◌, ◌^◌, ◌<◌, ◌≤◌, List, true, IfOk, is_some, length, slice_index_or};
ghost use mathlib.Core.List.{IsPrefix};
ghost use Rattle.delay_model.specs.declared.messages.Message.{Message};
ghost use Rattle.query_crew.specs.Keeping.{IsKept, AreKept};
ghost use Rattle.query_crew.specs.Posted.{HasSearchRoom};
ghost use Rattle.query_crew.specs.Working.{IsNewEntry, HasAnswered, HasAnsweredAll, HasWorked, IsWithin};

use crate::setting::Setting;
use crate::window::NumberedLines;
use crate::worker::{Worker, asked_by, push_entry, work};
use conn_scan::Scratch;
use core::mem::replace_with;
use delay_report::Reply;
use information_service::reply_to_asked;
use message_reader::AskedQuery;
use mt_base::memory::OutOfMemory;
use mt_io::Gate;
use snapshot_board::{Meet, Note, Opening, Publisher, Viewer};
use std::alloc::Global;
use std::sync::Wait;
use std::thread;
use std::thread::Threads;
use timetable::Timetable;
use train_nodes::Msg;

/// The worker learns the note, and answers the queries of its clients, in line order.
fn work_on<H: Opening<Timetable>, R: Wait, G: Gate>(
    setting: &Setting<'_, R, G>,
    worker: &mut Worker<Viewer<Timetable, H>>,
    window: &NumberedLines<'_>,
    note: &Note<Msg, H>,
    me: u32,
    workers: u32,
)
    requires some { 1 ≤ workers }
    requires numbers { window.now.first + length window.now.lines.now < 2 ^ 64 }
    requires room { HasSearchRoom H.opening worker.old.scratch.room }
    ensures worked { worker.new.is_whole ≡ true → HasWorked H.opening note.now worker.new.viewer
        window.now.first me workers window.now.lines.now worker.new.answers.items }
    ensures kept { IsKept worker.old worker.new }
{
    replace_with(worker, (setting, window), |worker, (setting, window)| {
        (work(setting, worker, window, note, me, workers), ())
    })
}

/// The workers answer, each in a thread of its own.
pub(crate) fn answer_all<
    H: Opening<Timetable> + Send + Sync,
    R: Threads + Wait + Sync,
    G: Gate + Sync,
>(
    setting: &Setting<'_, R, G>,
    all: &mut [Worker<Viewer<Timetable, H>>],
    window: &NumberedLines<'_>,
    note: &Note<Msg, H>,
)
    requires few { length all.old < 2 ^ 32 }
    requires numbers { window.now.first + length window.now.lines.now < 2 ^ 64 }
    requires room { (i : ℕ) (d : _) → i < length all.old
        → HasSearchRoom H.opening (slice_index_or all.old i d).scratch.room }
    ensures worked { (i : ℕ) (d : _) → i < length all.old
        → (slice_index_or all.new i d).is_whole ≡ true
        → HasWorked H.opening note.now (slice_index_or all.new i d).viewer window.now.first i
        (length all.old) window.now.lines.now (slice_index_or all.new i d).answers.items }
    ensures kept { AreKept all.old all.new }
{
    if all.is_empty() {
        return;
    }
    let workers = all.len() as u32;
    thread::for_each_mut(
        setting.rt,
        all,
        all.len(),
        &|i: usize, worker: &mut Worker<Viewer<Timetable, H>>|
            requires { (1 ≤ workers) × (i < 2 ^ 32)
                × (window.now.first + length window.now.lines.now < 2 ^ 64)
                × HasSearchRoom H.opening worker.now.scratch.room }
            ensures { (worker.exit.now.is_whole ≡ true → HasWorked H.opening note.entry.now
                worker.exit.now.viewer window.entry.now.first i workers
                window.entry.now.lines.now worker.exit.now.answers.items)
                × IsKept worker.entry.now worker.exit.now }
        { work_on(setting, worker, window, note, i as u32, workers) },
    )
}

/// The same, one worker after another in this thread.
pub(crate) fn answer_in_turn<H: Opening<Timetable>, R: Wait, G: Gate>(
    setting: &Setting<'_, R, G>,
    all: &mut [Worker<Viewer<Timetable, H>>],
    window: &NumberedLines<'_>,
    note: &Note<Msg, H>,
)
    requires few { length all.old < 2 ^ 32 }
    requires numbers { window.now.first + length window.now.lines.now < 2 ^ 64 }
    requires room { (i : ℕ) (d : _) → i < length all.old
        → HasSearchRoom H.opening (slice_index_or all.old i d).scratch.room }
    ensures worked { (i : ℕ) (d : _) → i < length all.old
        → (slice_index_or all.new i d).is_whole ≡ true
        → HasWorked H.opening note.now (slice_index_or all.new i d).viewer window.now.first i
        (length all.old) window.now.lines.now (slice_index_or all.new i d).answers.items }
    ensures kept { AreKept all.old all.new }
{
    let workers = all.len() as u32;
    for i in 0..all.len() {
        work_on(setting, &mut all[i], window, note, i as u32, workers);
    }
}

/// The answer to a line in the publisher's own timetable, if the line asks something.
fn answer_here<H: Opening<Timetable>>(
    alloc: Global,
    publisher: &Publisher<Timetable, H>,
    scratch: &mut Scratch,
    number: u64,
    asked: &Option<AskedQuery>,
) -> Result<Option<Reply>, OutOfMemory>
    requires room { HasSearchRoom H.opening scratch.old.room }
    ensures entry { IfOk result (IsNewEntry H.opening publisher.now publisher.now number
        asked.now) }
    ensures room { scratch.new.room ≡ scratch.old.room }
{
    if let Some(query) = asked {
        let after = publisher.count();
        let reply = reply_to_asked(alloc, publisher.state(), scratch, number, after, query)?;
        return Ok(Some(reply));
    }
    Ok(None)
}

/// Answers the queries of the worker's clients in the publisher's own timetable. It says whether
/// there was memory for all of them.
fn answer_own<H: Opening<Timetable>>(
    alloc: Global,
    publisher: &Publisher<Timetable, H>,
    worker: &mut Worker<Viewer<Timetable, H>>,
    window: &NumberedLines<'_>,
    me: u32,
    workers: u32,
) -> bool
    requires some { 1 ≤ workers }
    requires numbers { window.now.first + length window.now.lines.now < 2 ^ 64 }
    requires room { HasSearchRoom H.opening worker.old.scratch.room }
    ensures answered { result ≡ true → HasAnsweredAll H.opening publisher.now
        (length publisher.now) window.now.first me workers window.now.lines.now
        worker.new.answers.items }
    ensures kept { IsKept worker.old worker.new }
{
    worker.answers.clear();
    for (i, line) in window.lines.iter().enumerate() {
        let asked = asked_by(line, me, workers);
        let number = window.first + i as u64 + 1;
        let entry = answer_here(alloc, publisher, &mut worker.scratch, number, &asked);
        if !push_entry(&mut worker.answers, entry) {
            return false;
        }
    }
    true
}

/// Whether the worker has a viewer that saw no more than was posted. The viewer learns what was
/// posted.
fn is_within<H: Opening<Timetable>>(
    publisher: &Publisher<Timetable, H>,
    viewer: &mut Option<Viewer<Timetable, H>>,
) -> bool
    ensures within { IsWithin result viewer.old publisher.now }
    ensures kept { is_some viewer.new ≡ is_some viewer.old }
{
    if let Some(viewer) = viewer {
        return matches!(
            publisher.meet(viewer, publisher.tell()),
            Meet::Within { .. }
        );
    }
    false
}

/// The publisher meets the worker's viewer. Where there is none, or it saw more than was posted,
/// the publisher answers in the worker's place. It says whether there was memory for all answers.
pub(crate) fn meet_worker<H: Opening<Timetable>>(
    alloc: Global,
    publisher: &Publisher<Timetable, H>,
    worker: &mut Worker<Viewer<Timetable, H>>,
    window: &NumberedLines<'_>,
    me: u32,
    workers: u32,
) -> bool
    requires some { 1 ≤ workers }
    requires numbers { window.now.first + length window.now.lines.now < 2 ^ 64 }
    requires room { HasSearchRoom H.opening worker.old.scratch.room }

    // the answers over what was posted, where the worker worked with a note of the first of it
    ensures answered { result ≡ true → (start : List Message) → IsPrefix start publisher.now
        → (worker.old.is_whole ≡ true → HasWorked H.opening start worker.old.viewer
        window.now.first me workers window.now.lines.now worker.old.answers.items)
        → HasAnsweredAll H.opening publisher.now (length start) window.now.first me workers
        window.now.lines.now worker.new.answers.items }
    ensures kept { IsKept worker.old worker.new }
{
    if is_within(publisher, &mut worker.viewer) {
        return worker.is_whole;
    }
    answer_own(alloc, publisher, worker, window, me, workers)
}
