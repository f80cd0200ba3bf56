//! A journal that an input holds.

ghost use Rattle.std.specs.Prelude.{◌≡◌, ◌≤◌, ◌^◌, Some};
ghost use Rattle.mt_base.specs.Civil.{IsCivil};
ghost use Rattle.schedule_build.specs.InStep.{AreInStep};

use crate::example::{JOURNAL, LATE, SCHEDULED, leader};
use crate::pieces::rows_of;
use followed_input::{FollowFault, follow_input};
use journal_follower::{Follower, Leader};
use journal_replay::JournalRefusal;
use mt_io::MemSource;
use snapshot_board::{NewHistory, Opening, Publisher};
use std::alloc::Global;
use std::marker::Brand;
use std::sync::Wait;
use std::test::*;
use timetable::Timetable;
use train_nodes::Msg;

/// More bytes than an input of these tests has.
const MANY: u64 = 1_000_000;

/// How following an input ended, and the rows of the times behind it.
#[derive(Drop)]
struct Followed {
    answer: Result<(), FollowFault>,
    rows: Vec<u8>,
}

/// What comes of an input of which a follower reads so many bytes at most.
fn follow<H: Opening<Timetable>, R: Wait>(
    rt: &R,
    alloc: Global,
    history: NewHistory<Msg>,
    leader: Leader,
    input: &mut MemSource,
    budget: u64,
) -> Result<Followed, Fail>
    requires book { history ≡ H.book }
    requires opening { H.opening ≡ Some leader.timetable }
    requires head { IsCivil leader.head.first }
    requires in_step { AreInStep leader.directory leader.timetable.state }
    requires budget { budget ≤ 2 ^ 63 }
{
    let (mut follower, viewers) = Follower::<Publisher<Timetable, H>>::build(
        rt, alloc, history, leader, 1,
    )?;
    let answer = follow_input(rt, alloc, &mut follower, input, budget);
    let (timetable, directory) = follower.close(rt, viewers);
    let rows = rows_of(alloc, &timetable, &directory)?;
    Ok(Followed { answer, rows })
}

/// Whether an input that holds these bytes, of which the reads that are numbered fail, ends so and
/// leads to these rows.
fn ends_so<R: Wait>(
    rt: &R,
    alloc: Global,
    bytes: &[u8],
    failing: &[u64],
    budget: u64,
    answer: Result<(), FollowFault>,
    rows: &str,
) -> Result<bool, Fail>
    requires budget { budget ≤ 2 ^ 63 }
{
    let failing = Vec::from_slice(alloc, failing)?;
    let mut input = MemSource::build(Vec::from_slice(alloc, bytes)?, 7, failing);
    let leader = leader(alloc)?;
    let found = follow::<Brand, R>(rt, alloc, NewHistory::new(), leader, &mut input, budget)?;
    Ok(found.answer == answer && found.rows.as_slice() == rows.as_bytes())
}

#[test]
fn an_input_is_followed_to_its_end(rt: HostRuntime) -> Result<(), Fail> {
    assert!(rt; ends_so(&rt, rt.alloc(), JOURNAL.as_bytes(), &[], MANY, Ok(()), LATE)?);
    Ok(())
}

#[test]
fn an_empty_input_has_no_header(rt: HostRuntime) -> Result<(), Fail> {
    let refused = Err(FollowFault::Refused(JournalRefusal::Header));
    assert!(rt; ends_so(&rt, rt.alloc(), &[], &[], MANY, refused, SCHEDULED)?);
    Ok(())
}

#[test]
fn a_read_that_fails_ends_it(rt: HostRuntime) -> Result<(), Fail> {
    let failed = Err(FollowFault::ReadFault);
    assert!(rt;
        ends_so(
            &rt,
            rt.alloc(),
            JOURNAL.as_bytes(),
            &[3],
            MANY,
            failed,
            SCHEDULED
        )?
    );
    Ok(())
}

#[test]
fn an_input_of_as_many_bytes_as_may_be_is_too_long(rt: HostRuntime) -> Result<(), Fail> {
    let journal = JOURNAL.as_bytes();
    let long = Err(FollowFault::TooLong);
    assert!(rt;
        ends_so(
            &rt,
            rt.alloc(),
            journal,
            &[],
            journal.len() as u64,
            long,
            LATE
        )?
    );
    Ok(())
}
