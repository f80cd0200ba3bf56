//! The command `gen`: a feed and an input that are made from a number of trains.

ghost use Rattle.std.specs.Prelude.{◌≡◌, ◌≤◌, map, IfOk, IfErr, string_bytes};
ghost use Rattle.commands.specs.Seen.{stream_seen};
ghost use Rattle.commands.specs.GenContract.{GenEndsAs, MeetsGenContract};
ghost use Rattle.commands.specs.Summaries.{IsOnlySummary};

use crate::feed::load_timetable;
use crate::refusal::feed_stop;
use crate::run::BYTE_BUDGET;
use crate::status::{Status, Stop};
use crate::telling::tell;
use command_words::{AskedGen, default_options, read_gen_words};
use feed_gen::{GenFeed, GenLines};
use information_service::LinesFault;
use mt_io::{Gate, Sink, put};
use query_crew::{CrewPlan, Setting};
use service_zones::Zone;
use snapshot_board::NewHistory;
use std::alloc::Global;
use std::marker::Brand;
use std::sync::Wait;
use std::thread::Threads;
use window_service::{sum_windows, summary_text};

/// The service day of the trains that are made, as the number YYYYMMDD.
const SERVICE_DAY: u32 = 20_260_105;

/// Does for the tables and the lines of so many trains what the program does for `serve`, and gives
/// the summary of the replies. The only failure is being out of memory.
fn summary<R: Threads + Wait + Sync, G: Gate + Sync>(
    rt: &R,
    alloc: Global,
    asked: AskedGen,
    gate: &G,
) -> Result<Vec<u8>, Stop>
    requires trains { (1 ≤ asked.trains) × (asked.trains ≤ 100000) }
    requires workers { (1 ≤ asked.workers) × (asked.workers ≤ 16) }

    ensures ok { IfOk result (λ line. IsOnlySummary asked.trains line.items) }
    ensures memory { IfErr result (λ stop. stop ≡ Stop.Fault LinesFault.OutOfMemory) }
{
    let mut feed = GenFeed::build(alloc, asked.trains);
    let mut lines = GenLines::build(alloc, asked.trains)?;
    let zone = Zone::utc();
    let opts = default_options();
    let loaded = match load_timetable(alloc, "", SERVICE_DAY, 1, &zone, &opts, &mut feed) {
        Ok(loaded) => loaded,
        Err(error) => return Err(feed_stop(alloc, error)),
    };
    let count = loaded.timetable.graph().trains().count();
    let setting = Setting { rt, alloc, gate };
    let plan = CrewPlan {
        timetable: loaded.timetable,
        directory: loaded.directory,
        workers: asked.workers,
    };
    let sums = sum_windows::<Brand, R, GenLines, G>(
        &setting,
        NewHistory::new(),
        plan,
        &mut lines,
        BYTE_BUDGET,
    )?;
    Ok(summary_text(alloc, &sums, count)?)
}

/// Reads the words of `gen`, and writes the summary that they ask for.
fn write_summary<R: Threads + Wait + Sync, K: Sink, G: Gate + Sync>(
    rt: &R,
    alloc: Global,
    words: &[String],
    out: &mut K,
    gate: &G,
) -> Result<(), Stop>
    ensures run { GenEndsAs (map string_bytes words.now)
        (stream_seen K.written K.faults out.old out.new) out.old out.new result }
{
    let asked = read_gen_words(alloc, words)?;
    let line = summary(rt, alloc, asked, gate)?;
    put(out, line.as_slice())?;
    Ok(())
}

/// All that the program does for `gen`.
pub(crate) fn run_gen<R: Threads + Wait + Sync, K: Sink, E: Sink, G: Gate + Sync>(
    rt: &R,
    alloc: Global,
    words: &[String],
    out: &mut K,
    err: &mut E,
    gate: &G,
) -> Status
    ensures contract { MeetsGenContract (map string_bytes words.now)
        (stream_seen K.written K.faults out.old out.new)
        (stream_seen E.written E.faults err.old err.new) out.old out.new result }
{
    let run = write_summary(rt, alloc, words, out, gate);
    tell(&run, err)
}
