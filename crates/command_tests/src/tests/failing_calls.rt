//! Each call of the feed, of the input, of the output and of the error stream that fails in turn,
//! and each beginning of a table, of an input and of a long line.

use crate::tests::example_feed::{
    ACCEPTED, CALLS, DAYS, FLUSH, FORECAST, HEADER, NO_TRAIN, PLACES, STOP_TIMES, T1, T1_LATE, T2,
    TRAINS,
};
use crate::tests::{CASE, Case, Ended, bytes_of, is_end, is_next, is_text, run};
use commands::Status;
use std::alloc::Global;
use std::sync::Wait;
use std::test::*;
use std::thread::Threads;

/// The reply to a message about a train that there is not, as line 2.
const UNKNOWN: &str = "{\"line\":2,\"refused\":\"Unknown\"}\n";

/// How the error line begins where stop_times.txt has a fault.
const REFUSED: &[u8] = b"traind: feed refused: stop_times.txt row ";

/// A query from a place that is not there.
const FROM_NOWHERE: &str =
    r#"{"v":1,"type":"query","client":"c1","from":"Z","to":"D","date":"20260105","time":"08:00:00"}"#;

const READ_FAULT: &str = "traind: read fault\n";

const WRITE_FAULT: &str = "traind: write fault\n";

/// How many bytes a read gives at most.
const PIECE: usize = 7;

/// The forecast and a message that is refused.
const LINES: [&str; 4] = [FORECAST, "\n", NO_TRAIN, "\n"];

/// A table whose reading fails ends the run, before the input is read. None where none failed.
fn is_table_fault<R: Threads + Wait + Sync>(
    rt: &R,
    alloc: Global,
    table: u64,
) -> Result<Option<bool>, Fail> {
    let case = Case {
        input: FORECAST.as_bytes(),
        failing_table: Some(table),
        ..CASE
    };
    let mut ended = run(rt, alloc, &case)?;
    if ended.status == Status::Ok {
        return Ok(None);
    }
    let is_fault = is_end(&ended, Status::ReadFault, &[], READ_FAULT);
    Ok(Some(is_fault && is_next(alloc, &mut ended, FORECAST.as_bytes())?))
}

#[test]
fn each_table_that_fails(rt: HostRuntime) -> Result<(), Fail> {
    for table in 0..100 {
        match is_table_fault(&rt, rt.alloc(), table)? {
            Some(is_right) => assert!(rt; is_right, "table {table}"),
            None => {
                assert!(rt; table > 4, "only {table} tables were asked for");
                return Ok(());
            }
        }
    }
    assert!(rt; false, "a table failed each time");
    Ok(())
}

/// The reply to the forecast, if so many bytes have it as a whole line.
fn first_reply(bytes: usize) -> &'static str {
    if bytes > FORECAST.len() { ACCEPTED } else { "" }
}

/// The same of the message behind it.
fn second_reply(bytes: usize) -> &'static str {
    if bytes > FORECAST.len() + 1 + NO_TRAIN.len() {
        UNKNOWN
    } else {
        ""
    }
}

/// A read that fails ends the run, when the lines that are whole among the bytes before it were
/// answered. None where none failed.
fn is_read_fault<R: Threads + Wait + Sync>(
    rt: &R,
    alloc: Global,
    input: &[u8],
    read: usize,
) -> Result<Option<bool>, Fail> {
    let case = Case {
        input,
        piece: PIECE,
        failing_read: Some(read as u64),
        ..CASE
    };
    let ended = run(rt, alloc, &case)?;
    if ended.status == Status::Ok {
        return Ok(None);
    }
    let bytes = input.len().min(read.saturating_mul(PIECE));
    let want = [first_reply(bytes), second_reply(bytes)];
    Ok(Some(is_end(&ended, Status::ReadFault, &want, READ_FAULT)))
}

#[test]
fn each_read_that_fails(rt: HostRuntime) -> Result<(), Fail> {
    let input = bytes_of(rt.alloc(), &LINES)?;
    for read in 0..100_usize {
        match is_read_fault(&rt, rt.alloc(), &input, read)? {
            Some(is_right) => assert!(rt; is_right, "read {read}"),
            None => {
                assert!(rt; read * PIECE > input.len(), "read {read} did not fail");
                return Ok(());
            }
        }
    }
    assert!(rt; false, "a read failed each time");
    Ok(())
}

/// A run whose output fails: what was written is the beginning of what is written without a fault.
fn is_write_fault(ended: &Ended, want: &[u8]) -> bool {
    ended.status == Status::WriteFault
        && want.starts_with(ended.objects.out.bytes())
        && is_text(ended.objects.err.bytes(), &[WRITE_FAULT])
}

/// How many writes of this case fail one by one, each as it must, until none fails and all of this
/// is written. None where a run ends otherwise.
fn count_failing_writes<R: Threads + Wait + Sync>(
    rt: &R,
    alloc: Global,
    case: &Case<'_>,
    want: &[u8],
) -> Result<Option<u64>, Fail> {
    for write in 0..1_000 {
        let case = Case {
            failing_write: Some(write),
            ..*case
        };
        let ended = run(rt, alloc, &case)?;
        if ended.status == Status::Ok {
            let is_whole = ended.objects.out.bytes() == want
                && ended.objects.err.bytes().is_empty();
            return Ok(is_whole.then_some(write));
        }
        if !is_write_fault(&ended, want) {
            return Ok(None);
        }
    }
    Ok(None)
}

#[test]
fn each_write_that_fails(rt: HostRuntime) -> Result<(), Fail> {
    let want = bytes_of(rt.alloc(), &[ACCEPTED, HEADER, T1_LATE, T2])?;
    let case = Case {
        input: FORECAST.as_bytes(),
        ..CASE
    };
    let writes = count_failing_writes(&rt, rt.alloc(), &case, &want)?;
    assert!(rt; writes > Some(0));
    Ok(())
}

#[test]
fn each_write_of_a_window_that_fails(rt: HostRuntime) -> Result<(), Fail> {
    let input = bytes_of(rt.alloc(), &[FORECAST, "\n", FLUSH, "\n", FORECAST, "\n"])?;
    let flushed = "{\"flush\":1,\"line\":2}\n{\"accepted\":2,\"changed\":0,\"line\":3}\n";
    let want = bytes_of(rt.alloc(), &[ACCEPTED, flushed])?;
    let case = Case {
        words: "serve feed --from 20260105 --workers 2",
        input: &input,
        ..CASE
    };
    let writes = count_failing_writes(&rt, rt.alloc(), &case, &want)?;
    assert!(rt; writes > Some(0));
    Ok(())
}

/// The error stream has room for so many bytes, and the status is that of the run.
fn is_usage_fault<R: Threads + Wait + Sync>(
    rt: &R,
    alloc: Global,
    room: usize,
) -> Result<bool, Fail> {
    let case = Case {
        words: "fly",
        input: FORECAST.as_bytes(),
        told_room: room,
        budget: None,
        ..CASE
    };
    let ended = run(rt, alloc, &case)?;
    Ok(
        ended.status == Status::Usage
            && ended.objects.out.bytes().is_empty()
            && ended.objects.err.bytes().len() <= room,
    )
}

#[test]
fn error_stream_that_fails(rt: HostRuntime) -> Result<(), Fail> {
    for room in 0..40 {
        let is_right = is_usage_fault(&rt, rt.alloc(), room)?;
        assert!(rt; is_right, "room for {room} bytes");
    }
    Ok(())
}

/// The reply to the forecast, of which so many bytes are there: a line that is cut is no JSON.
fn first_cut(bytes: usize) -> &'static str {
    if bytes >= FORECAST.len() {
        ACCEPTED
    } else if bytes > 0 {
        "{\"bad\":\"json\",\"line\":1}\n"
    } else {
        ""
    }
}

/// The same of the message behind it.
fn second_cut(bytes: usize) -> &'static str {
    if bytes > FORECAST.len() + NO_TRAIN.len() {
        UNKNOWN
    } else if bytes > FORECAST.len() + 1 {
        "{\"bad\":\"json\",\"line\":2}\n"
    } else {
        ""
    }
}

/// Whether the beginning of an input has a reply for each of its lines, whole or cut, and the table.
fn is_cut_answered<R: Threads + Wait + Sync>(
    rt: &R,
    alloc: Global,
    input: &[u8],
) -> Result<bool, Fail> {
    let case = Case {
        input,
        piece: PIECE,
        ..CASE
    };
    let bytes = input.len();
    let times = if bytes >= FORECAST.len() { T1_LATE } else { T1 };
    let want = [first_cut(bytes), second_cut(bytes), HEADER, times, T2];
    Ok(is_end(&run(rt, alloc, &case)?, Status::Ok, &want, ""))
}

#[test]
fn input_cut_at_every_byte(rt: HostRuntime) -> Result<(), Fail> {
    let whole = bytes_of(rt.alloc(), &LINES)?;
    for length in 0..whole.len() {
        let is_right = is_cut_answered(&rt, rt.alloc(), &whole[..length])?;
        assert!(rt; is_right, "{length} bytes");
    }
    Ok(())
}

/// A table of calls that is cut is refused, and nothing is written, or all goes well.
fn is_cut_refused<R: Threads + Wait + Sync>(
    rt: &R,
    alloc: Global,
    calls: &str,
) -> Result<bool, Fail> {
    let case = Case {
        tables: &[PLACES, TRAINS, (CALLS.0, calls), DAYS],
        ..CASE
    };
    let ended = run(rt, alloc, &case)?;
    let (out, err) = (ended.objects.out.bytes(), ended.objects.err.bytes());
    Ok(match ended.status {
        Status::Ok => err.is_empty(),
        Status::FeedRefused => out.is_empty() && err.starts_with(REFUSED),
        _ => false,
    })
}

#[test]
fn table_cut_at_every_byte(rt: HostRuntime) -> Result<(), Fail> {
    let whole = STOP_TIMES.as_bytes();
    for length in 0..whole.len() {
        let Ok(calls) = str::from_utf8(&whole[..length]) else {
            return Err("no text")?;
        };
        let is_right = is_cut_refused(&rt, rt.alloc(), calls)?;
        assert!(rt; is_right, "{length} bytes");
    }
    Ok(())
}

/// Whether a line of so many letters has this reply, and the forecast behind it is read.
fn is_long_answered<R: Threads + Wait + Sync>(
    rt: &R,
    alloc: Global,
    length: usize,
    reply: &str,
) -> Result<bool, Fail> {
    let mut input = vec![in alloc; b'x'; length]?;
    input.extend_from_slice(&bytes_of(alloc, &["\n", FORECAST, "\n"])?)?;
    let case = Case {
        input: &input,
        piece: 1_000,
        ..CASE
    };
    let accepted = "{\"accepted\":1,\"changed\":4,\"line\":2}\n";
    let want = [reply, accepted, HEADER, T1_LATE, T2];
    Ok(is_end(&run(rt, alloc, &case)?, Status::Ok, &want, ""))
}

#[test]
fn longest_line(rt: HostRuntime) -> Result<(), Fail> {
    let json = "{\"bad\":\"json\",\"line\":1}\n";
    let long = "{\"bad\":\"long\",\"line\":1}\n";
    for (length, reply) in [(65_535, json), (65_536, long), (65_537, long)] {
        let is_right = is_long_answered(&rt, rt.alloc(), length, reply)?;
        assert!(rt; is_right, "{length} bytes");
    }
    Ok(())
}

/// 65,537 letters, the beginning of an object, and a query from a place that is not there.
fn bad_lines(alloc: Global) -> Result<Vec<u8>, Fail> {
    let mut bytes = vec![in alloc; b'x'; 65_537]?;
    let rest = bytes_of(alloc, &["\n", r#"{"v":1,"#, "\n", FROM_NOWHERE, "\n"])?;
    bytes.extend_from_slice(&rest)?;
    Ok(bytes)
}

/// The read after the last byte fails.
#[test]
fn bad_lines_in_single_bytes(rt: HostRuntime) -> Result<(), Fail> {
    let input = bad_lines(rt.alloc())?;
    let case = Case {
        input: &input,
        piece: 1,
        failing_read: Some(input.len() as u64),
        ..CASE
    };
    let want = [
        "{\"bad\":\"long\",\"line\":1}\n",
        "{\"bad\":\"json\",\"line\":2}\n",
        "{\"bad\":\"stop\",\"line\":3}\n",
    ];
    let ended = run(&rt, rt.alloc(), &case)?;
    assert!(rt; is_end(&ended, Status::ReadFault, &want, READ_FAULT));
    Ok(())
}
