//! Runs of `follow`, with all that each must write.

use crate::tests::example_feed::{HEADER, T1, T1_LATE, T2};
use crate::tests::runs::{Run, WELL, first_wrong};
use crate::tests::{CASE, Case};
use commands::Status;
use std::test::*;

/// The words of `follow`.
const FOLLOW: Case<'static> = Case {
    words: "follow feed --from 20260105",
    ..CASE
};

/// The header of a journal of these words.
const HEAD: &str =
    "{\"change\":180,\"days\":1,\"from\":\"20260105\",\"journal\":1,\"overrides\":10000,\"slack\":7,\"spare_calls\":4000,\"spare_trains\":200,\"stop\":60,\"window\":1800,\"zone\":null}\n";

/// The line of a forecast by which T1 leaves A at 08:10:00.
const LINE: &str =
    "{\"call\":0,\"date\":\"20260105\",\"event\":\"dep\",\"time\":\"08:10:00\",\"trip\":\"T1\",\"type\":\"forecast\",\"v\":2}\n";

/// Runs of `follow` on the feed of the two trains.
const FOLLOW_RUNS: [Run; 6] = [
    Run {
        shows: "a journal of one message, byte for byte",
        case: Case { piece: 1, ..FOLLOW },
        input: &[HEAD, LINE],
        out: &[HEADER, T1_LATE, T2],
        ..WELL
    },
    Run {
        shows: "a line without its end",
        case: FOLLOW,
        input: &[HEAD, "{\"call\":0"],
        out: &[HEADER, T1, T2],
        ..WELL
    },
    Run {
        shows: "an input without a line",
        case: FOLLOW,
        input: &["{\"change\""],
        status: Status::FeedRefused,
        out: &[],
        err: "traind: feed refused: journal.jsonl row 1: bad header\n",
        left: None,
    },
    Run {
        shows: "a line with a blank more",
        case: FOLLOW,
        input: &[HEAD, " ", LINE],
        status: Status::FeedRefused,
        out: &[],
        err: "traind: feed refused: journal.jsonl row 2: bad line\n",
        left: None,
    },
    Run {
        shows: "an input of as many bytes as may be taken",
        case: Case {
            budget: Some((HEAD.len() + LINE.len()) as u64),
            ..FOLLOW
        },
        input: &[HEAD, LINE],
        status: Status::TooLong,
        out: &[],
        err: "traind: input too long\n",
        left: None,
    },
    Run {
        shows: "a table that is not written",
        case: Case {
            failing_write: Some(0),
            ..FOLLOW
        },
        input: &[HEAD, LINE],
        status: Status::WriteFault,
        out: &[],
        err: "traind: write fault\n",
        left: None,
    },
];

#[test]
fn journals_are_followed(rt: HostRuntime) -> Result<(), Fail> {
    assert_eq!(rt; first_wrong(&rt, rt.alloc(), &FOLLOW_RUNS)?, None);
    Ok(())
}
