//! Runs of each command, one by one, with all that each must write.

use crate::tests::example_feed::{
    ACCEPTED, BACKWARDS, BACKWARDS_REPLY, CANCEL, CLAIM, CLAIM_REPLIES, DESK_REPLIES, EARLIER,
    EXTRA, EXTRA_REPLIES, FLUSH, FORECAST, HEADER, HELD, KEEP, MISSED, NO_TRAIN, ON_TIME,
    PLANS_REPLIES, QUERY, QUERY_REPLIES, QUESTIONS, REPLIES, REPORT, SHORT_QUERIES, SHORT_REPLIES,
    T1, T1_LATE, T1_MISSED, T2, T2_HELD, USAGE, WATCH_REPLIES, WITH_RULES, X1,
};
use crate::tests::{CASE, Case, Ended, bytes_of, is_end, is_next, run, words_of};
use commands::{Status, traind};
use mt_io::{NoGate, SureFeed, SureSink, SureSource};
use std::alloc::Global;
use std::sync::Wait;
use std::test::*;
use std::thread::Threads;

/// A run and how it ends: what it shows, the texts of its input one behind the other, its status,
/// the texts of the output, the error stream, and the next line that is left of the input.
#[derive(Clone, Copy)]
pub(super) struct Run {
    pub(super) shows: &'static str,
    pub(super) case: Case<'static>,
    pub(super) input: &'static [&'static str],
    pub(super) status: Status,
    pub(super) out: &'static [&'static str],
    pub(super) err: &'static str,
    pub(super) left: Option<&'static str>,
}

/// A run that goes well.
pub(super) const WELL: Run = Run {
    shows: "no line",
    case: CASE,
    input: &[],
    status: Status::Ok,
    out: &[HEADER, T1, T2],
    err: "",
    left: None,
};

/// The words of `serve`.
const SERVE: Case<'static> = Case {
    words: "serve feed --from 20260105 --workers 2",
    ..CASE
};

/// A run of `gen` beside a feed that it does not ask for, with a budget of one byte for the input
/// that it does not read.
const GEN: Case<'static> = Case {
    words: "gen 2 --workers 1",
    budget: Some(1),
    ..CASE
};

/// The reply to a message about a train that there is not, as the first line and as the second one.
const UNKNOWN: &str = "{\"line\":1,\"refused\":\"Unknown\"}\n";

const SECOND_UNKNOWN: &str = "{\"line\":2,\"refused\":\"Unknown\"}\n";

/// The reply to a flush after one message, as the second line.
const FLUSHED: &str = "{\"flush\":1,\"line\":2}\n";

/// The summary of two trains.
const TWO_TRAINS: &str =
    "{\"accepted\":2,\"arrivals\":16476,\"bad\":0,\"changed\":9,\"found\":1,\"lines\":5,\"queries\":1,\"refused\":0,\"trains\":2}\n";

/// Runs of `times` on the feed of the two trains.
const TIMES_RUNS: [Run; 11] = [
    WELL,
    Run {
        shows: "no line, and as many bytes as the program takes",
        case: Case {
            budget: None,
            ..CASE
        },
        ..WELL
    },
    Run {
        shows: "a forecast",
        input: &[FORECAST, "\n"],
        out: &[ACCEPTED, HEADER, T1_LATE, T2],
        ..WELL
    },
    Run {
        shows: "a forecast of an unknown train",
        input: &[NO_TRAIN, "\n"],
        out: &[UNKNOWN, HEADER, T1, T2],
        ..WELL
    },
    Run {
        shows: "a report",
        input: &[REPORT, "\n"],
        out: &[ACCEPTED, HEADER, T1_LATE, T2],
        ..WELL
    },
    Run {
        shows: "a cancellation",
        input: &[CANCEL, "\n"],
        out: &[ACCEPTED, HEADER, T2],
        ..WELL
    },
    Run {
        shows: "an extra train and its report",
        input: &[EXTRA, "\n"],
        out: &[EXTRA_REPLIES, HEADER, T1, T2, X1],
        ..WELL
    },
    Run {
        shows: "an extra train against the order of its times",
        input: &[BACKWARDS, "\n"],
        out: &[BACKWARDS_REPLY, HEADER, T1, T2],
        ..WELL
    },
    Run {
        shows: "reports and a kept connection",
        input: &[REPORT, "\n", EARLIER, "\n", KEEP, "\n", FLUSH],
        out: &[REPLIES, HEADER, T1_LATE, T2_HELD],
        ..WELL
    },
    Run {
        shows: "a query before and after a missed connection",
        case: Case {
            words: "times feed --from 20260105 --slack 0",
            ..CASE
        },
        input: &[QUERY, "\n", MISSED, "\n", QUERY, "\n"],
        out: &[QUERY_REPLIES, HEADER, T1_MISSED, T2],
        ..WELL
    },
    Run {
        shows: "queries that take no train",
        input: &[SHORT_QUERIES],
        out: &[SHORT_REPLIES, HEADER, T1, T2],
        ..WELL
    },
];

/// A run of `check` on the same feed.
const CHECK_RUNS: [Run; 1] = [Run {
    shows: "a claim, before and after a missed connection, and a query that has no journey then",
    case: Case {
        words: "check feed --from 20260105 --slack 0",
        ..CASE
    },
    input: &[CLAIM, "\n", MISSED, "\n", CLAIM, "\n", QUERY],
    out: &[CLAIM_REPLIES],
    ..WELL
}];

/// A run of `plans` on the same feed.
const PLANS_RUNS: [Run; 1] = [Run {
    shows: "the best plans with up to two rides, before and after a missed connection",
    case: Case {
        words: "plans feed --from 20260105 --slack 0 --rides 2",
        ..CASE
    },
    input: &[QUERY, "\n", MISSED, "\n", QUERY],
    out: &[PLANS_REPLIES],
    ..WELL
}];

/// A run of `watch` on the same feed.
const WATCH_RUNS: [Run; 1] = [Run {
    shows: "a watched journey, which is broken by a missed connection and then can be taken again",
    case: Case {
        words: "watch feed --from 20260105 --slack 0",
        ..CASE
    },
    input: &[QUERY, "\n", MISSED, "\n", QUERY, "\n", ON_TIME],
    out: &[WATCH_REPLIES],
    ..WELL
}];

/// A run of `desk` on the feed in which T2 waits for T1.
const DESK_RUNS: [Run; 1] = [Run {
    shows: "why a train is late that waits for another, and what departs from their station",
    case: Case {
        words: "desk feed --from 20260105 --slack 0",
        tables: &WITH_RULES,
        ..CASE
    },
    input: &[HELD, "\n", QUESTIONS],
    out: &[DESK_REPLIES],
    ..WELL
}];

/// Runs that end before the end of their input, and one that takes the whole of it.
const ENDED_RUNS: [Run; 6] = [
    Run {
        shows: "no table",
        case: Case {
            tables: &[],
            ..CASE
        },
        input: &[FORECAST],
        status: Status::FeedRefused,
        out: &[],
        err: "traind: feed refused: missing stops.txt\n",
        left: Some(FORECAST),
    },
    Run {
        shows: "no date",
        case: Case {
            words: "times feed",
            ..CASE
        },
        input: &[FORECAST],
        status: Status::Usage,
        out: &[],
        err: USAGE,
        left: Some(FORECAST),
    },
    Run {
        shows: "a read that fails in mid-line",
        case: Case {
            piece: 1,
            failing_read: Some(FORECAST.len() as u64 + 10),
            ..CASE
        },
        input: &[FORECAST, "\n", NO_TRAIN, "\n"],
        status: Status::ReadFault,
        out: &[ACCEPTED],
        err: "traind: read fault\n",
        left: None,
    },
    Run {
        shows: "an input of more than ten bytes, of which ten may be taken",
        case: Case {
            budget: Some(10),
            ..CASE
        },
        input: &[FORECAST, "\n"],
        status: Status::TooLong,
        out: &[],
        err: "traind: input too long\n",
        left: None,
    },
    Run {
        shows: "an input of as many bytes as may not be taken",
        case: Case {
            budget: Some(FORECAST.len() as u64 + 1 + NO_TRAIN.len() as u64),
            ..CASE
        },
        input: &[FORECAST, "\n", NO_TRAIN],
        status: Status::TooLong,
        out: &[ACCEPTED],
        err: "traind: input too long\n",
        left: None,
    },
    Run {
        shows: "an input of as many bytes as may be taken",
        case: Case {
            budget: Some(FORECAST.len() as u64 + 2 + NO_TRAIN.len() as u64),
            ..CASE
        },
        input: &[FORECAST, "\n", NO_TRAIN],
        out: &[ACCEPTED, SECOND_UNKNOWN, HEADER, T1_LATE, T2],
        ..WELL
    },
];

/// Runs of `serve`.
const SERVE_RUNS: [Run; 4] = [
    Run {
        shows: "windows that end with a flush line, and with the input",
        case: SERVE,
        input: &[
            FORECAST, "\n", FLUSH, "\n", NO_TRAIN, "\n", FLUSH, "\n", QUERY,
        ],
        out: &[
            ACCEPTED,
            FLUSHED,
            "{\"line\":3,\"refused\":\"Unknown\"}\n{\"flush\":1,\"line\":4}\n",
            "{\"after\":1,\"arrives\":null,\"line\":5}\n",
        ],
        ..WELL
    },
    Run {
        shows: "a window in which a read fails",
        case: Case {
            piece: 1,
            failing_read: Some((FORECAST.len() + FLUSH.len() + 2 + QUERY.len() + 1) as u64),
            ..SERVE
        },
        input: &[FORECAST, "\n", FLUSH, "\n", QUERY, "\n", NO_TRAIN, "\n"],
        status: Status::ReadFault,
        out: &[ACCEPTED, FLUSHED],
        err: "traind: read fault\n",
        left: None,
    },
    Run {
        shows: "the first write, which fails",
        case: Case {
            failing_write: Some(0),
            ..SERVE
        },
        input: &[FORECAST, "\n"],
        status: Status::WriteFault,
        out: &[],
        err: "traind: write fault\n",
        left: None,
    },
    Run {
        shows: "an input of more bytes than may be taken",
        case: Case {
            budget: Some((FORECAST.len() + FLUSH.len() + 2 + 10) as u64),
            ..SERVE
        },
        input: &[FORECAST, "\n", FLUSH, "\n", QUERY, "\n"],
        status: Status::TooLong,
        out: &[ACCEPTED, FLUSHED],
        err: "traind: input too long\n",
        left: None,
    },
];

/// Runs of `gen`.
const GEN_RUNS: [Run; 5] = [
    Run {
        shows: "two trains with one worker",
        case: GEN,
        input: &["no line of JSON"],
        out: &[TWO_TRAINS],
        ..WELL
    },
    Run {
        shows: "two trains with sixteen workers",
        case: Case {
            words: "gen 2 --workers 16",
            ..GEN
        },
        input: &["no line of JSON"],
        out: &[TWO_TRAINS],
        ..WELL
    },
    Run {
        shows: "no trains",
        case: Case {
            words: "gen 0 --workers 4",
            ..GEN
        },
        input: &["no line of JSON"],
        status: Status::Usage,
        out: &[],
        err: USAGE,
        left: None,
    },
    Run {
        shows: "too many trains",
        case: Case {
            words: "gen 100001 --workers 4",
            ..GEN
        },
        input: &["no line of JSON"],
        status: Status::Usage,
        out: &[],
        err: USAGE,
        left: None,
    },
    Run {
        shows: "a summary that is not written",
        case: Case {
            words: "gen 2 --workers 4",
            failing_write: Some(0),
            ..GEN
        },
        input: &["no line of JSON"],
        status: Status::WriteFault,
        out: &[],
        err: "traind: write fault\n",
        left: None,
    },
];

/// Whether a line is the next one that is left of the input, where one is wanted.
fn is_left(alloc: Global, ended: &mut Ended, left: Option<&str>) -> Result<bool, Fail> {
    match left {
        Some(line) => is_next(alloc, ended, line.as_bytes()),
        None => Ok(true),
    }
}

/// Whether a run ends as it must.
fn is_right<R: Threads + Wait + Sync>(rt: &R, alloc: Global, wanted: &Run) -> Result<bool, Fail> {
    let input = bytes_of(alloc, wanted.input)?;
    let case = Case {
        input: &input,
        ..wanted.case
    };
    let mut ended = run(rt, alloc, &case)?;
    let is_end = is_end(&ended, wanted.status, wanted.out, wanted.err);
    Ok(is_end && is_left(alloc, &mut ended, wanted.left)?)
}

/// What the first run shows that does not end as it must.
pub(super) fn first_wrong<R: Threads + Wait + Sync>(
    rt: &R,
    alloc: Global,
    runs: &[Run],
) -> Result<Option<&'static str>, Fail> {
    for wanted in runs {
        if !is_right(rt, alloc, wanted)? {
            return Ok(Some(wanted.shows));
        }
    }
    Ok(None)
}

#[test]
fn lines_are_answered(rt: HostRuntime) -> Result<(), Fail> {
    assert_eq!(rt; first_wrong(&rt, rt.alloc(), &TIMES_RUNS)?, None);
    Ok(())
}

#[test]
fn claims_are_judged(rt: HostRuntime) -> Result<(), Fail> {
    assert_eq!(rt; first_wrong(&rt, rt.alloc(), &CHECK_RUNS)?, None);
    Ok(())
}

#[test]
fn plans_are_shown(rt: HostRuntime) -> Result<(), Fail> {
    assert_eq!(rt; first_wrong(&rt, rt.alloc(), &PLANS_RUNS)?, None);
    Ok(())
}

#[test]
fn journeys_are_watched(rt: HostRuntime) -> Result<(), Fail> {
    assert_eq!(rt; first_wrong(&rt, rt.alloc(), &WATCH_RUNS)?, None);
    Ok(())
}

#[test]
fn questions_are_answered(rt: HostRuntime) -> Result<(), Fail> {
    assert_eq!(rt; first_wrong(&rt, rt.alloc(), &DESK_RUNS)?, None);
    Ok(())
}

#[test]
fn runs_that_end_early(rt: HostRuntime) -> Result<(), Fail> {
    assert_eq!(rt; first_wrong(&rt, rt.alloc(), &ENDED_RUNS)?, None);
    Ok(())
}

#[test]
fn windows_are_answered(rt: HostRuntime) -> Result<(), Fail> {
    assert_eq!(rt; first_wrong(&rt, rt.alloc(), &SERVE_RUNS)?, None);
    Ok(())
}

#[test]
fn summaries_of_made_trains(rt: HostRuntime) -> Result<(), Fail> {
    assert_eq!(rt; first_wrong(&rt, rt.alloc(), &GEN_RUNS)?, None);
    Ok(())
}

/// The feed of the two trains, which cannot fail.
fn sure_feed(alloc: Global) -> Result<SureFeed, Fail> {
    let mut feed = SureFeed::build(alloc);
    for (name, text) in CASE.tables {
        feed.add("feed", name, Vec::from_slice(alloc, text.as_bytes())?)?;
    }
    Ok(feed)
}

/// How the program ends over objects that cannot fail.
fn sure_status<R: Threads + Wait + Sync>(rt: &R, alloc: Global) -> Result<Status, Fail> {
    let words = words_of(alloc, CASE.words)?;
    let mut feed = sure_feed(alloc)?;
    let mut input = SureSource::build(bytes_of(alloc, &[FORECAST])?, 10);
    let (mut out, mut err) = (SureSink::build(), SureSink::build());
    Ok(traind(
        rt, alloc, &words, &mut feed, &mut input, &mut out, &mut err, &NoGate,
    ))
}

#[test]
fn objects_that_never_fail(rt: HostRuntime) -> Result<(), Fail> {
    assert_eq!(rt; sure_status(&rt, rt.alloc())?, Status::Ok);
    Ok(())
}
