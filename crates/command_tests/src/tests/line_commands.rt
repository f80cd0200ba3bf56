//! Runs of the two small commands.

ghost use Rattle.commands.specs.LineTasks.{BeginsFitting};

use crate::tests::example_feed::{CALLS, DAYS, HELD, PLACES, TRAINS};
use crate::tests::{CASE, Case, Ended, Table, is_end, objects_of};
use commands::{LoadBehind, LoadNothing, Status, run_lines};
use information_service::AnswerLines;
use mt_io::{MemFeed, MemSink, MemSource};
use small_commands::{CountAccepted, KeepAccepted, TakeMark};
use std::alloc::Global;
use std::test::*;

/// A message that is accepted, and a line that is bad.
const INPUT: &str =
    "{\"v\":1,\"type\":\"forecast\",\"trip\":\"T1\",\"date\":\"20260105\",\"call\":1,\"event\":\"arr\",\"time\":\"08:36:00\"}
nonsense
";

/// What one command writes for them, and what the other does.
const COUNTED: [&str; 3] = [
    "{\"accepted\":1,\"changed\":3,\"line\":1}\n",
    "{\"bad\":\"json\",\"line\":2}\n",
    "1\n",
];

const ACCEPTED: [&str; 4] = ["accepted\n", "+", HELD, "\n"];

/// And with another mark.
const MARKED: [&str; 4] = ["accepted\n", "*", HELD, "\n"];

/// A run of a command that answers line by line, with ample memory.
fn run_command<T: AnswerLines<C>, L: LoadBehind<C>, C: Drop>(
    alloc: Global,
    case: &Case<'_>,
) -> Result<Ended, Fail>
    requires fits { BeginsFitting L.behind T.output }
{
    let mut objects = objects_of(alloc, case)?;
    let status = run_lines::<T, L, C, MemFeed, MemSource, MemSink, MemSink>(
        alloc,
        &objects.words,
        &mut objects.feed,
        &mut objects.input,
        &mut objects.out,
        &mut objects.err,
        1_000_000,
    );
    Ok(Ended { status, objects })
}

#[test]
fn accepted_messages_are_counted_at_the_end(rt: HostRuntime) -> Result<(), Fail> {
    let case = Case {
        input: INPUT.as_bytes(),
        ..CASE
    };
    let ended = run_command::<CountAccepted, LoadNothing, ()>(rt.alloc(), &case)?;
    assert!(rt; is_end(&ended, Status::Ok, &COUNTED, ""));
    Ok(())
}

/// Whether a run over these tables ends like this.
fn is_marked(
    alloc: Global,
    tables: &[Table<'_>],
    status: Status,
    out: &[&str],
    err: &str,
) -> Result<bool, Fail> {
    let case = Case {
        tables,
        input: INPUT.as_bytes(),
        ..CASE
    };
    let ended = run_command::<KeepAccepted, TakeMark, u8>(alloc, &case)?;
    Ok(is_end(&ended, status, out, err))
}

#[test]
fn accepted_lines_stand_behind_a_header(rt: HostRuntime) -> Result<(), Fail> {
    let tables = [PLACES, TRAINS, CALLS, DAYS];
    let is_right = is_marked(rt.alloc(), &tables, Status::Ok, &ACCEPTED, "")?;
    assert!(rt; is_right);
    Ok(())
}

#[test]
fn a_table_behind_the_feed_has_the_mark(rt: HostRuntime) -> Result<(), Fail> {
    let tables = [PLACES, TRAINS, CALLS, DAYS, ("mark.txt", "*")];
    let is_right = is_marked(rt.alloc(), &tables, Status::Ok, &MARKED, "")?;
    assert!(rt; is_right);
    Ok(())
}

#[test]
fn a_table_behind_the_feed_is_refused(rt: HostRuntime) -> Result<(), Fail> {
    let tables = [PLACES, TRAINS, CALLS, DAYS, ("mark.txt", "\n")];
    let is_right = is_marked(
        rt.alloc(),
        &tables,
        Status::FeedRefused,
        &[],
        "traind: no mark\n",
    )?;
    assert!(rt; is_right);
    Ok(())
}
