//! A worker, which answers the queries of some of the clients.

ghost use Rattle.std.specs.Prelude.{◌≡◌, ◌+◌, ◌^◌, ◌<◌, ◌≤◌, true, IfOk, length};
ghost use mathlib.Core.List.{IsPrefix};
ghost use Rattle.information_service.specs.Output.{IsReplyToQuery};
ghost use Rattle.snapshot_board.specs.Knowledge.{IsLook};
ghost use Rattle.query_crew.specs.Keeping.{IsKept};
ghost use Rattle.query_crew.specs.Posted.{HasSearchRoom, IsAnswerAt, IsRoomFor};
ghost use Rattle.query_crew.specs.Working.{asked_of, IsNewEntry, IsPushed, HasWorked};

use crate::setting::Setting;
use crate::window::NumberedLines;
use crate::window_line::WindowLine;
use conn_scan::Scratch;
use delay_report::Reply;
use information_service::reply_to_asked;
use message_reader::AskedQuery;
use mt_base::memory::OutOfMemory;
use mt_io::{Gate, Point};
use snapshot_board::{Note, Opening, Viewer};
use std::alloc::Global;
use std::sync::Wait;
use timetable::Timetable;
use train_nodes::Msg;

/// Who answers the queries of some of the clients. The publisher answers in its place where it has
/// no viewer.
#[derive(Drop)]
pub struct Worker<V: Drop> {
    /// With what it looks at the timetable, if it has that.
    pub(crate) viewer: Option<V>,
    /// Room for the search.
    pub(crate) scratch: Scratch,
    /// What was answered to each line of the last window: nothing to a line that is no query of its
    /// clients.
    pub(crate) answers: Vec<Option<Reply>>,
    /// Whether there was memory for all answers.
    pub(crate) is_whole: bool,
}

impl<V: Drop> Worker<V> {
    /// A worker that has answered nothing, with room for a search between so many stops over
    /// departures with so many numbers. `OutOfMemory` where there is no memory.
    pub(crate) fn build(
        alloc: Global,
        viewer: Option<V>,
        stops: u32,
        numbers: u32,
    ) -> Result<Worker<V>, OutOfMemory>
        ensures viewer { IfOk result (λ w. w.viewer ≡ viewer) }
        ensures room { IfOk result (λ w. w.scratch.room
            ≡ record { stops = stops; numbers = numbers }) }
    {
        Ok(Worker {
            viewer,
            scratch: Scratch::build(alloc, stops, numbers)?,
            answers: Vec::new(alloc),
            is_whole: false,
        })
    }
}

/// The query of a line, if it is one of a client of this worker.
pub(crate) fn asked_by(line: &WindowLine, me: u32, workers: u32) -> Option<AskedQuery>
    requires some { 1 ≤ workers }
    ensures { result ≡ asked_of me workers line.now }
{
    if let WindowLine::Query(query) = line
        && query.client.worker(workers) == me
        && let Ok(asked) = &query.asked
    {
        return Some(*asked);
    }
    None
}

/// The answer to a query in the timetable that the viewer is shown, and the scratch.
fn look_for<H: Opening<Timetable>, R: Wait, G: Gate>(
    setting: &Setting<'_, R, G>,
    viewer: &mut Viewer<Timetable, H>,
    scratch: Scratch,
    number: u64,
    asked: &AskedQuery,
) -> (Scratch, Result<Reply, OutOfMemory>)
    requires room { HasSearchRoom H.opening scratch.room }
    ensures look { IsLook viewer.old viewer.new }
    ensures answer { IfOk result.1 (IsAnswerAt H.opening viewer.new.seen (length viewer.new.seen)
        number asked.now) }
    ensures room { result.0.room ≡ scratch.room }
{
    let alloc = setting.alloc;
    let gate = setting.gate;
    viewer.look(
        setting.rt,
        move |timetable: &Timetable, after: u64| -> (Scratch, Result<Reply, OutOfMemory>)
            requires { IsRoomFor timetable.now scratch.room }
            ensures reply { IfOk result.1 (IsReplyToQuery timetable.now.network timetable.now.state
                after number asked.entry.now.day asked.entry.now.query) }
            ensures room { result.0.room ≡ scratch.room }
        {
            gate.at(Point::InLook { line: number });
            let mut scratch = scratch;
            let reply = reply_to_asked(alloc, timetable, &mut scratch, number, after, asked);
            (scratch, reply)
        },
    )
}

/// The answer to a line, if it asks something, and the scratch.
fn answer_line<H: Opening<Timetable>, R: Wait, G: Gate>(
    setting: &Setting<'_, R, G>,
    viewer: &mut Viewer<Timetable, H>,
    scratch: Scratch,
    number: u64,
    asked: &Option<AskedQuery>,
) -> (Scratch, Result<Option<Reply>, OutOfMemory>)
    requires room { HasSearchRoom H.opening scratch.room }
    ensures entry { IfOk result.1 (IsNewEntry H.opening viewer.old.learnt viewer.new.seen number
        asked.now) }
    ensures later { IsPrefix viewer.old.seen viewer.new.seen }
    ensures learnt { viewer.new.learnt ≡ viewer.old.learnt }
    ensures room { result.0.room ≡ scratch.room }
{
    if let Some(query) = asked {
        setting.gate.at(Point::BeforeLook { line: number });
        let (scratch, answer) = look_for(setting, viewer, scratch, number, query);
        return (scratch, answer.map(Some));
    }
    (scratch, Ok(None))
}

/// Puts what was answered behind the answers. It says whether there was memory for both.
pub(crate) fn push_entry(
    answers: &mut Vec<Option<Reply>>,
    entry: Result<Option<Reply>, OutOfMemory>,
) -> bool
    ensures { result ≡ true → IsPushed answers.old.items entry answers.new.items }
{
    match entry {
        Ok(entry) => answers.push(entry).is_ok(),
        Err(_) => false,
    }
}

/// Learns the note, and answers the queries of this worker's clients, in line order. A worker
/// without a viewer does nothing.
pub(crate) fn work<H: Opening<Timetable>, R: Wait, G: Gate>(
    setting: &Setting<'_, R, G>,
    worker: Worker<Viewer<Timetable, H>>,
    window: &NumberedLines<'_>,
    note: &Note<Msg, H>,
    me: u32,
    workers: u32,
) -> Worker<Viewer<Timetable, H>>
    requires some { 1 ≤ workers }
    requires numbers { window.now.first + length window.now.lines.now < 2 ^ 64 }
    requires room { HasSearchRoom H.opening worker.scratch.room }
    ensures worked { result.is_whole ≡ true → HasWorked H.opening note.now result.viewer
        window.now.first me workers window.now.lines.now result.answers.items }
    ensures kept { IsKept worker result }
{
    let Worker {
        viewer,
        mut scratch,
        mut answers,
        is_whole: _,
    } = worker;
    let Some(mut viewer) = viewer else {
        return Worker {
            viewer: None,
            scratch,
            answers,
            is_whole: true,
        };
    };
    let mut is_whole = true;
    viewer.learn(note.copy());
    answers.clear();
    for (i, line) in window.lines.iter().enumerate() {
        let asked = asked_by(line, me, workers);
        let number = window.first + i as u64 + 1;
        let (back, entry) = answer_line(setting, &mut viewer, scratch, number, &asked);
        scratch = back;
        if !push_entry(&mut answers, entry) {
            is_whole = false;
            break;
        }
    }
    Worker {
        viewer: Some(viewer),
        scratch,
        answers,
        is_whole,
    }
}
