//! Messages that are posted while every request for memory is refused.

ghost use Rattle.std.specs.Prelude.{◌≡◌, Some};

use crate::tests::exhaustion::{TakenBlocks, is_all_refused, take_all, take_small};
use crate::tests::refused_memory::loaded_feed;
use message_reader::{Line, LineRoom, read_line, resolve};
use mt_base::memory::OutOfMemory;
use schedule_build::Directory;
use snapshot_board::{NewHistory, Opening, Publisher, Viewer, open_board};
use std::alloc::Global;
use std::marker::Brand;
use std::sync::Wait;
use std::test::*;
use timetable::Timetable;
use train_nodes::Msg;

/// Messages of all ten types, the last one first. They can be taken again and again in this order:
/// all are accepted each time, but for the extra train, which is accepted once.
const MESSAGES: [&str; 14] = [
    r#"{"v":2,"type":"withdraw","trip":"T1","date":"20260105","call":0,"event":"dep"}"#,
    r#"{"v":1,"type":"extra","trip":"X1","date":"20260105","route":"R1","calls":[{"stop":"A","arr":"09:20:00","dep":"09:20:00"},{"stop":"D","arr":"10:00:00","dep":"10:00:00"}]}"#,
    r#"{"v":1,"type":"rule","feeder":{"trip":"T1","date":"20260105","call":1},"train":{"trip":"T2","date":"20260105","call":0}}"#,
    r#"{"v":1,"type":"reroute","trip":"T2","date":"20260105","from":0,"to":1,"via":[{"stop":"C","arr":"08:50:00","dep":"08:51:00"}]}"#,
    r#"{"v":1,"type":"forecast","trip":"T1","date":"20260105","call":0,"event":"dep","time":"08:20:00"}"#,
    r#"{"v":1,"type":"cancel","trip":"T1","date":"20260105","from":1,"to":2}"#,
    r#"{"v":1,"type":"rule","feeder":{"trip":"T1","date":"20260105","call":1},"train":{"trip":"T2","date":"20260105","call":0}}"#,
    r#"{"v":1,"type":"drop","feeder":{"trip":"T1","date":"20260105","call":1},"train":{"trip":"T2","date":"20260105","call":0}}"#,
    r#"{"v":1,"type":"keep","feeder":{"trip":"T1","date":"20260105","call":1},"train":{"trip":"T2","date":"20260105","call":0}}"#,
    r#"{"v":2,"type":"withdraw","trip":"T1","date":"20260105","call":0,"event":"dep"}"#,
    r#"{"v":2,"type":"correct","trip":"T1","date":"20260105","call":0,"event":"dep","time":null}"#,
    r#"{"v":2,"type":"correct","trip":"T1","date":"20260105","call":0,"event":"dep","time":"08:03:00"}"#,
    r#"{"v":1,"type":"report","trip":"T1","date":"20260105","call":0,"event":"dep","time":"08:05:00"}"#,
    r#"{"v":1,"type":"forecast","trip":"T1","date":"20260105","call":0,"event":"dep","time":"08:10:00"}"#,
];

/// How often they are posted.
const ROUNDS: usize = 800;

/// How many messages are accepted: of 11,200 all but 799 extra trains.
const ACCEPTED: u64 = 10_401;

/// The message of a line.
fn message_of(alloc: Global, directory: &Directory, line: &str) -> Option<Msg> {
    if line.len() > 1_000 {
        return None;
    }
    let Ok(mut room) = LineRoom::build(alloc) else {
        return None;
    };
    match read_line(alloc, &mut room, line.as_bytes()) {
        Ok(Line::Message(wire)) => resolve(alloc, &wire, directory).ok(),
        _ => None,
    }
}

/// Each of the messages once.
fn once_each(alloc: Global, directory: &Directory) -> Result<Vec<Msg>, OutOfMemory> {
    let mut once = Vec::new(alloc);
    for line in &MESSAGES {
        if let Some(message) = message_of(alloc, directory, line) {
            once.push(message)?;
        }
    }
    Ok(once)
}

/// Puts a copy of each of these messages behind the others.
fn push_copies(alloc: Global, once: &[Msg], all: &mut Vec<Msg>) -> Result<(), OutOfMemory> {
    for message in once {
        all.push(message.copy(alloc)?)?;
    }
    Ok(())
}

/// These messages as often as they are posted.
fn often(alloc: Global, once: &[Msg]) -> Result<Vec<Msg>, OutOfMemory> {
    let mut all = Vec::new(alloc);
    for _ in 0..ROUNDS {
        push_copies(alloc, once, &mut all)?;
    }
    Ok(all)
}

/// Posts a message, if it is accepted.
fn post_one<H: Opening<Timetable>, R: Wait>(
    rt: &R,
    publisher: &mut Publisher<Timetable, H>,
    message: Msg,
) {
    if publisher.count() < ACCEPTED && publisher.state().check(&message).is_ok() {
        let _ = publisher.post(rt, message);
    }
}

/// Posts the messages from the last one on. What a message gives back is taken again.
fn post_all<H: Opening<Timetable>, R: Wait>(
    rt: &R,
    alloc: Global,
    publisher: &mut Publisher<Timetable, H>,
    messages: &mut Vec<Msg>,
    blocks: &mut TakenBlocks,
) {
    for _ in 0..messages.len() {
        if let Some(message) = messages.pop() {
            post_one(rt, publisher, message);
        }
        take_small(alloc, &mut blocks.again);
    }
}

/// After how many messages the last of the viewers looks.
fn shown_to<H: Opening<Timetable>, R: Wait>(
    rt: &R,
    viewers: &mut Vec<Viewer<Timetable, H>>,
) -> u64 {
    let mut shown = 0;
    for viewer in viewers.iter_mut() {
        shown = viewer.look(rt, |_timetable: &Timetable, after: u64| -> u64 { after });
    }
    shown
}

/// How many messages were posted and how many of them are shown, and whether every request was
/// refused before and after them.
#[derive(Clone, Copy, Debug, PartialEq, Eq)]
struct Outcome {
    posted: u64,
    shown: u64,
    is_refused: bool,
}

/// Takes all memory that is left, and posts the messages on this board.
fn post<H: Opening<Timetable>, R: Wait>(
    rt: &R,
    alloc: Global,
    publisher: &mut Publisher<Timetable, H>,
    viewers: &mut Vec<Viewer<Timetable, H>>,
    messages: &mut Vec<Msg>,
    blocks: &mut TakenBlocks,
) -> Outcome {
    take_all(alloc, &mut blocks.taken);
    let is_refused = is_all_refused(alloc);
    post_all(rt, alloc, publisher, messages, blocks);
    let shown = shown_to(rt, viewers);
    Outcome {
        posted: publisher.count(),
        shown,
        is_refused: is_refused && is_all_refused(alloc),
    }
}

/// Opens a board of these two timetables with a viewer, and posts the messages without memory.
fn post_on_board<H: Opening<Timetable>, R: Wait>(
    rt: &R,
    alloc: Global,
    history: NewHistory<Msg>,
    first: Timetable,
    second: Timetable,
    messages: &mut Vec<Msg>,
    blocks: &mut TakenBlocks,
) -> Result<Outcome, OutOfMemory>
    requires book { history ≡ H.book }
    requires opening { H.opening ≡ Some first }
    requires alike { first ≡ second }
{
    let (mut publisher, mut viewers) = open_board::<Timetable, H, R>(
        rt, alloc, history, first, second, 1,
    )?;
    let outcome = post(rt, alloc, &mut publisher, &mut viewers, messages, blocks);
    drop(publisher.close(rt, viewers));
    Ok(outcome)
}

/// The same on a board of a timetable and a copy of it.
fn post_on_copies<H: Opening<Timetable>, R: Wait>(
    rt: &R,
    alloc: Global,
    history: NewHistory<Msg>,
    timetable: Timetable,
    messages: &mut Vec<Msg>,
    blocks: &mut TakenBlocks,
) -> Result<Outcome, OutOfMemory>
    requires book { history ≡ H.book }
    requires opening { H.opening ≡ Some timetable }
{
    let copy = timetable.copy(alloc)?;
    post_on_board::<H, R>(rt, alloc, history, timetable, copy, messages, blocks)
}

/// The same on a board of the timetable of the feed.
fn post_on_feed<R: Wait>(
    rt: &R,
    alloc: Global,
    messages: &mut Vec<Msg>,
    blocks: &mut TakenBlocks,
) -> Result<Outcome, Fail> {
    let loaded = loaded_feed(alloc)?;
    Ok(post_on_copies::<Brand, R>(
        rt,
        alloc,
        NewHistory::new(),
        loaded.timetable,
        messages,
        blocks,
    )?)
}

/// Makes what posts want beforehand, and posts the messages without memory.
fn post_without_memory<R: Wait>(
    rt: &R,
    alloc: Global,
    messages: &mut Vec<Msg>,
) -> Result<Outcome, Fail> {
    let mut blocks = TakenBlocks::build(alloc)?;
    post_on_feed(rt, alloc, messages, &mut blocks)
}

/// Each of the messages once, by the names of the feed.
fn once_by_names(alloc: Global) -> Result<Vec<Msg>, Fail> {
    let loaded = loaded_feed(alloc)?;
    Ok(once_each(alloc, &loaded.directory)?)
}

/// All messages that are posted, the last one first.
fn made_messages(alloc: Global) -> Result<Vec<Msg>, Fail> {
    let once = once_by_names(alloc)?;
    Ok(often(alloc, &once)?)
}

/// Memory runs out only where the process may have less than is taken, so the test says whether
/// it did.
#[test]
fn messages_want_no_memory(rt: HostRuntime) -> Result<(), Fail> {
    let mut messages = made_messages(rt.alloc())?;
    let outcome = post_without_memory(&rt, rt.alloc(), &mut messages)?;
    assert_eq!(rt; outcome.posted, ACCEPTED);
    assert_eq!(rt; outcome.shown, ACCEPTED);
    println!(rt; "every request was refused: {}", outcome.is_refused)?;
    Ok(())
}
