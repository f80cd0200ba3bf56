//! A journal that comes in pieces.

ghost use Rattle.std.specs.Prelude.{◌≡◌, ◌≤◌, Some};
ghost use Rattle.journal_follower.specs.Following.{IsReady};
ghost use Rattle.mt_base.specs.Civil.{IsCivil};
ghost use Rattle.schedule_build.specs.InStep.{AreInStep};

use crate::example::{JOURNAL, LATE, SCHEDULED, leader};
use delay_report::times_rows;
use journal_follower::{Follower, Leader};
use journal_replay::JournalRefusal;
use mt_base::memory::OutOfMemory;
use mt_base::numbers::TrainNo;
use schedule_build::Directory;
use snapshot_board::{NewHistory, Opening, Publisher};
use std::alloc::Global;
use std::marker::Brand;
use std::sync::Wait;
use std::test::*;
use timetable::Timetable;
use train_nodes::Msg;

/// How many messages a journal of these tests has at most.
const MOST: u64 = 1_000;

/// Feeds a follower a journal in pieces of so many bytes.
fn feed_pieces<H: Opening<Timetable>, R: Wait>(
    rt: &R,
    alloc: Global,
    follower: &mut Follower<Publisher<Timetable, H>>,
    journal: &[u8],
    size: usize,
) -> Result<(), JournalRefusal>
    requires ready { IsReady H.opening follower.old }
    requires new { follower.old.reader.lines ≡ 0 }
    requires size { 1 ≤ size }
{
    for piece in journal.chunks(size) {
        if follower.feed(rt, alloc, piece)? > MOST {
            break;
        }
    }
    Ok(())
}

/// The rows of all trains in the table of times.
pub(crate) fn rows_of(
    alloc: Global,
    timetable: &Timetable,
    directory: &Directory,
) -> Result<Vec<u8>, OutOfMemory> {
    let mut rows = Vec::new(alloc);
    for train in 0..timetable.graph().trains().count() {
        let own = times_rows(alloc, timetable, directory, TrainNo::new(train))?;
        rows.extend_from_slice(own.as_slice())?;
    }
    Ok(rows)
}

/// The same, if a journal was read.
fn rows_if(
    alloc: Global,
    read: Result<(), JournalRefusal>,
    timetable: &Timetable,
    directory: &Directory,
) -> Result<Vec<u8>, Fail> {
    read?;
    Ok(rows_of(alloc, timetable, directory)?)
}

/// The rows behind a journal that a follower reads in pieces of so many bytes.
fn rows_behind<H: Opening<Timetable>, R: Wait>(
    rt: &R,
    alloc: Global,
    history: NewHistory<Msg>,
    leader: Leader,
    journal: &[u8],
    size: usize,
) -> Result<Vec<u8>, Fail>
    requires book { history ≡ H.book }
    requires opening { H.opening ≡ Some leader.timetable }
    requires head { IsCivil leader.head.first }
    requires in_step { AreInStep leader.directory leader.timetable.state }
    requires size { 1 ≤ size }
{
    let (mut follower, viewers) = Follower::<Publisher<Timetable, H>>::build(
        rt, alloc, history, leader, 1,
    )?;
    let read = feed_pieces(rt, alloc, &mut follower, journal, size);
    let (timetable, directory) = follower.close(rt, viewers);
    rows_if(alloc, read, &timetable, &directory)
}

/// Whether these are the rows behind the example's journal, without so many bytes at its end, read
/// in pieces of so many bytes.
fn are_rows<R: Wait>(
    rt: &R,
    alloc: Global,
    without: usize,
    size: usize,
    rows: &str,
) -> Result<bool, Fail> {
    let leader = leader(alloc)?;
    let journal = JOURNAL.as_bytes();
    let read = &journal[..journal.len() - without.min(journal.len())];
    let found = rows_behind::<Brand, R>(rt, alloc, NewHistory::new(), leader, read, size.max(1))?;
    Ok(found.as_slice() == rows.as_bytes())
}

#[test]
fn a_journal_is_read_byte_by_byte(rt: HostRuntime) -> Result<(), Fail> {
    assert!(rt; are_rows(&rt, rt.alloc(), 0, 1, LATE)?);
    Ok(())
}

#[test]
fn a_journal_is_read_in_pieces_of_any_size(rt: HostRuntime) -> Result<(), Fail> {
    for size in 1..JOURNAL.len() + 1 {
        assert!(rt; are_rows(&rt, rt.alloc(), 0, size, LATE)?);
    }
    Ok(())
}

#[test]
fn a_message_without_its_line_end_is_not_taken(rt: HostRuntime) -> Result<(), Fail> {
    assert!(rt; are_rows(&rt, rt.alloc(), 1, 1, SCHEDULED)?);
    Ok(())
}
