//! A crew of which not every worker has a viewer.

ghost use Rattle.std.specs.Prelude.{◌≡◌, ◌≤◌, [], Some};
ghost use Rattle.query_crew.specs.Crews.{IsReady};
ghost use Rattle.schedule_build.specs.InStep.{AreInStep};

use crate::tests::example_feed::WITH_RULES;
use crate::tests::held_runs::{FOUR_WORKERS, HeldRun, WITH_TWO_VIEWERS, WITHOUT_VIEWERS};
use crate::tests::threads::{Seen, gate_of, seen_of, text_of};
use crate::tests::{feed_of, words_of};
use command_words::read_words;
use commands::load_timetable;
use delay_report::reply_text;
use information_service::LinesFault;
use mt_io::{Gate, LineReader, Point, SureSource};
use query_crew::{Crew, CrewPlan, NumberedLines, Setting, Window, read_window};
use snapshot_board::{NewHistory, Opening, Publisher, Viewer};
use std::alloc::Global;
use std::marker::Brand;
use std::sync::Wait;
use std::test::*;
use std::thread::Threads;
use timetable::Timetable;
use train_nodes::Msg;

/// The texts of the replies to the first window of this text.
fn window_text<H: Opening<Timetable> + Send + Sync, R: Threads + Wait + Sync, G: Gate + Sync>(
    setting: &Setting<'_, R, G>,
    crew: &mut Crew<Publisher<Timetable, H>, Viewer<Timetable, H>>,
    text: &[u8],
) -> Result<Vec<u8>, LinesFault>
    requires ready { IsReady H.opening crew.old }
    requires new { crew.old.publisher ≡ [] }
{
    let alloc = setting.alloc;
    let mut input = SureSource::build(Vec::from_slice(alloc, text)?, 100);
    let mut reader = LineReader::build(alloc, 10_000)?;
    let mut window = Window::build(alloc)?;
    let _ = read_window(
        alloc,
        &mut reader,
        &mut input,
        crew.directory(),
        &mut window,
    )?;
    let numbered = NumberedLines {
        lines: window.lines(),
        first: 0,
    };
    let replies = crew.run_window(setting, &numbered)?;
    let mut all = Vec::new(alloc);
    for reply in &replies {
        all.extend_from_slice(reply_text(alloc, reply, crew.directory())?.as_slice())?;
    }
    Ok(all)
}

/// The same with a crew of its own, of which so many workers have a viewer.
fn limited_text<H: Opening<Timetable> + Send + Sync, R: Threads + Wait + Sync, G: Gate + Sync>(
    setting: &Setting<'_, R, G>,
    history: NewHistory<Msg>,
    plan: CrewPlan,
    viewers: u32,
    text: &[u8],
) -> Result<Vec<u8>, LinesFault>
    requires book { history ≡ H.book }
    requires opening { H.opening ≡ Some plan.timetable }
    requires in_step { AreInStep plan.directory plan.timetable.state }
    requires some { 1 ≤ plan.workers }
    requires few { plan.workers ≤ 16 }
{
    let mut crew: Crew<Publisher<Timetable, H>, Viewer<Timetable, H>> = Crew::build_limited(
        setting.rt,
        setting.alloc,
        history,
        plan,
        viewers,
    )?;
    let shown = window_text(setting, &mut crew, text);
    crew.close(setting.rt, setting.alloc);
    shown
}

/// The same over the feed with a waiting rule, with four workers.
fn shown_by<R: Threads + Wait + Sync, G: Gate + Sync>(
    rt: &R,
    alloc: Global,
    viewers: u32,
    text: &[u8],
    gate: &G,
) -> Result<Vec<u8>, Fail> {
    let words = words_of(alloc, FOUR_WORKERS)?;
    let asked = match read_words(alloc, &words) {
        Ok(asked) => asked,
        Err(fault) => return Err(Fail::from(fault)),
    };
    let mut feed = feed_of(alloc, &WITH_RULES, None)?;
    let loaded = load_timetable(
        alloc,
        asked.folder,
        asked.first,
        asked.days,
        &asked.zone,
        &asked.opts,
        &mut feed,
    )?;
    let setting = Setting { rt, alloc, gate };
    let plan = CrewPlan {
        timetable: loaded.timetable,
        directory: loaded.directory,
        workers: 4,
    };
    Ok(limited_text::<Brand, R, G>(&setting, NewHistory::new(), plan, viewers, text)?)
}

/// What is seen of a run on these lines, of whose four workers so many have a viewer.
fn limited_on<R: Threads + Wait + Sync>(
    rt: &R,
    alloc: Global,
    viewers: u32,
    run: &HeldRun<'_>,
    text: &[u8],
) -> Result<Seen, Fail> {
    let gate = gate_of(alloc, run.holds)?;
    let shown = shown_by(rt, alloc, viewers, text, &gate)?;
    Ok(seen_of(&gate, &shown, run.outputs))
}

/// What is seen of a run of whose four workers so many have a viewer.
fn seen_limited<R: Threads + Wait + Sync>(
    rt: &R,
    alloc: Global,
    viewers: u32,
    run: &HeldRun<'_>,
) -> Result<Seen, Fail> {
    let text = text_of(alloc, run.lines)?;
    limited_on(rt, alloc, viewers, run, &text)
}

#[test]
fn the_publisher_answers_where_no_worker_has_a_viewer(rt: HostRuntime) -> Result<(), Fail> {
    let seen = seen_limited(&rt, rt.alloc(), 0, &WITHOUT_VIEWERS)?;
    assert_eq!(rt; seen, Seen::Right);
    Ok(())
}

#[test]
fn two_workers_with_viewers_answer_beside_the_publisher(rt: HostRuntime) -> Result<(), Fail> {
    let seen = seen_limited(&rt, rt.alloc(), 2, &WITH_TWO_VIEWERS)?;
    assert_eq!(rt; seen, Seen::Right);
    Ok(())
}

/// Whether the query of this line is about to look, where two workers have a viewer.
fn is_looked_for<R: Threads + Wait + Sync>(rt: &R, alloc: Global, line: u64) -> Result<bool, Fail> {
    let look = Point::BeforeLook { line };
    let run = HeldRun {
        holds: &[(look, look)],
        ..WITH_TWO_VIEWERS
    };
    Ok(seen_limited(rt, alloc, 2, &run)? != Seen::Expired)
}

#[test]
fn only_workers_with_viewers_look(rt: HostRuntime) -> Result<(), Fail> {
    for line in 2..6 {
        let is_looked_for = is_looked_for(&rt, rt.alloc(), line)?;
        assert_eq!(rt; is_looked_for, line < 4);
    }
    Ok(())
}
