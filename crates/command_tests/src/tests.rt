//! Runs of the whole program over objects in memory, each with all that it must write. A run is
//! data: what is asked, what the objects give and take, and which of their calls fail.

mod example_feed;
mod exhaustion;
mod failing_calls;
mod follow_runs;
mod full_watch;
mod held_runs;
mod in_memory;
mod limited;
mod line_commands;
mod refused_memory;
mod refused_posts;
mod runs;
mod threads;

use crate::tests::example_feed::TABLES;
use commands::{Status, traind, traind_within};
use mt_io::{Gate, LineReader, MemFeed, MemSink, MemSource, Next, NoGate};
use std::alloc::Global;
use std::sync::Wait;
use std::test::Fail;
use std::thread::Threads;

/// The name of a table and its text.
type Table<'a> = (&'a str, &'a str);

/// A run: what is asked, and what its objects give and take.
#[derive(Clone, Copy)]
struct Case<'a> {
    /// The words after the program's name, parted by blanks.
    words: &'a str,
    tables: &'a [Table<'a>],
    input: &'a [u8],
    /// How many bytes a read gives at most.
    piece: usize,
    /// How many bytes the output and the error stream have room for.
    room: usize,
    told_room: usize,
    /// Which call of the feed, of the input and of the output fails, counted from 0.
    failing_table: Option<u64>,
    failing_read: Option<u64>,
    failing_write: Option<u64>,
    /// How many bytes of the input are taken at most. None is as many as the program takes.
    budget: Option<u64>,
}

/// A run on the feed of the two trains and no input, of which no call fails.
const CASE: Case<'static> = Case {
    words: "times feed --from 20260105",
    tables: &TABLES,
    input: &[],
    piece: 100,
    room: 16_384,
    told_room: 4_096,
    failing_table: None,
    failing_read: None,
    failing_write: None,
    budget: Some(1_000_000),
};

/// The objects of a run.
#[derive(Drop)]
struct Objects {
    words: Vec<String>,
    feed: MemFeed,
    input: MemSource,
    out: MemSink,
    err: MemSink,
}

/// What a run left behind.
#[derive(Drop)]
struct Ended {
    status: Status,
    objects: Objects,
}

/// Whether these bytes are the texts one behind the other.
fn is_text(bytes: &[u8], parts: &[&str]) -> bool {
    let mut rest = bytes;
    for part in parts {
        let part = part.as_bytes();
        if !rest.starts_with(part) {
            return false;
        }
        rest = &rest[part.len()..];
    }
    rest.is_empty()
}

/// Whether a run ended like this, with these texts on the output and this one on the error stream.
fn is_end(ended: &Ended, status: Status, out: &[&str], err: &str) -> bool {
    ended.status == status
        && is_text(ended.objects.out.bytes(), out)
        && is_text(ended.objects.err.bytes(), &[err])
}

/// The texts one behind the other.
fn bytes_of(alloc: Global, parts: &[&str]) -> Result<Vec<u8>, Fail> {
    let mut bytes = Vec::new(alloc);
    for part in parts {
        bytes.extend_from_slice(part.as_bytes())?;
    }
    Ok(bytes)
}

/// The words that blanks part in this text.
fn words_of(alloc: Global, text: &str) -> Result<Vec<String>, Fail> {
    let mut words = Vec::new(alloc);
    for word in text.split_whitespace() {
        words.push(String::from_str(alloc, word)?)?;
    }
    Ok(words)
}

/// The number of the call that fails, if one does, as a list.
fn calls_of(alloc: Global, failing: Option<u64>) -> Result<Vec<u64>, Fail> {
    let mut calls = Vec::new(alloc);
    if let Some(call) = failing {
        calls.push(call)?;
    }
    Ok(calls)
}

/// A feed of these tables, of which one call may fail.
fn feed_of(alloc: Global, tables: &[Table<'_>], failing: Option<u64>) -> Result<MemFeed, Fail> {
    let mut feed = MemFeed::build(alloc, calls_of(alloc, failing)?);
    for (name, text) in tables {
        feed.add("feed", name, Vec::from_slice(alloc, text.as_bytes())?)?;
    }
    Ok(feed)
}

/// The input of a run.
fn input_of(alloc: Global, case: &Case<'_>) -> Result<MemSource, Fail> {
    let bytes = Vec::from_slice(alloc, case.input)?;
    let failing = calls_of(alloc, case.failing_read)?;
    Ok(MemSource::build(bytes, case.piece.max(1), failing))
}

/// A stream with so much room, of which one write may fail.
fn sink_of(alloc: Global, room: usize, failing: Option<u64>) -> Result<MemSink, Fail> {
    Ok(MemSink::build(alloc, room, calls_of(alloc, failing)?)?)
}

/// The objects of a run.
fn objects_of(alloc: Global, case: &Case<'_>) -> Result<Objects, Fail> {
    Ok(Objects {
        words: words_of(alloc, case.words)?,
        feed: feed_of(alloc, case.tables, case.failing_table)?,
        input: input_of(alloc, case)?,
        out: sink_of(alloc, case.room, case.failing_write)?,
        err: sink_of(alloc, case.told_room, None)?,
    })
}

/// The program over these objects.
fn status_of<R: Threads + Wait + Sync, G: Gate + Sync>(
    rt: &R,
    alloc: Global,
    on: &mut Objects,
    gate: &G,
) -> Status {
    traind(
        rt,
        alloc,
        &on.words,
        &mut on.feed,
        &mut on.input,
        &mut on.out,
        &mut on.err,
        gate,
    )
}

/// The same, of which the input may have fewer than so many bytes.
fn status_within<R: Threads + Wait + Sync, G: Gate + Sync>(
    rt: &R,
    alloc: Global,
    on: &mut Objects,
    gate: &G,
    budget: u64,
) -> Status {
    traind_within(
        rt,
        alloc,
        &on.words,
        &mut on.feed,
        &mut on.input,
        &mut on.out,
        &mut on.err,
        gate,
        budget.max(1).min(1 << 63),
    )
}

/// A run with a gate, with ample memory.
fn run_at<R: Threads + Wait + Sync, G: Gate + Sync>(
    rt: &R,
    alloc: Global,
    case: &Case<'_>,
    gate: &G,
) -> Result<Ended, Fail> {
    let mut objects = objects_of(alloc, case)?;
    let status = match case.budget {
        None => status_of(rt, alloc, &mut objects, gate),
        Some(budget) => status_within(rt, alloc, &mut objects, gate, budget),
    };
    Ok(Ended { status, objects })
}

/// A run with ample memory.
fn run<R: Threads + Wait + Sync>(rt: &R, alloc: Global, case: &Case<'_>) -> Result<Ended, Fail> {
    run_at(rt, alloc, case, &NoGate)
}

/// Whether this is the next line of the input that a run left.
fn is_next(alloc: Global, ended: &mut Ended, line: &[u8]) -> Result<bool, Fail> {
    let mut reader = LineReader::build(alloc, 1_000)?;
    match reader.next(&mut ended.objects.input) {
        Next::Line(left) => Ok(left == line),
        _ => Ok(false),
    }
}
