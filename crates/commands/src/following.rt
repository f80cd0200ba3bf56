//! The command `follow`: a journal that the input holds, read while it is being written.

ghost use Rattle.std.specs.Prelude.{◌≡◌, ◌≤◌, ◌^◌, map, string_bytes};
ghost use Rattle.commands.specs.FollowContract.{FollowEndsAs, MeetsFollowContract};
ghost use Rattle.commands.specs.FollowTasks.{IsFollowStop};
ghost use Rattle.commands.specs.Seen.{feed_seen, stream_seen};

use crate::feed::load_asked;
use crate::own_loads::{head_of, journal_fault};
use crate::refusal::feed_stop;
use crate::status::{Status, Stop, run_of};
use crate::telling::tell;
use command_words::read_words;
use followed_input::{FollowFault, follow_journal};
use information_service::{LinesFault, write_table};
use journal_follower::Leader;
use mt_io::{Feed, Sink, Source};
use snapshot_board::NewHistory;
use std::alloc::Global;
use std::marker::Brand;
use std::sync::Wait;

/// Why a run stops whose journal is not followed to its end. A refusal is told by its line, unless
/// there is no memory for that.
fn follow_stop(alloc: Global, fault: FollowFault) -> Stop
    ensures { IsFollowStop fault result }
{
    match fault {
        FollowFault::Refused(why) => Stop::from(journal_fault(alloc, why)),
        FollowFault::ReadFault => Stop::Fault(LinesFault::ReadFault),
        FollowFault::OutOfMemory => Stop::Fault(LinesFault::OutOfMemory),
        FollowFault::TooLong => Stop::Fault(LinesFault::TooLong),
    }
}

/// Reads the words of `follow`, loads the feed that they ask for, reads the journal that the input
/// holds, and writes the table of all times behind it.
fn follow_words<R: Wait, F: Feed, S: Source, K: Sink>(
    rt: &R,
    alloc: Global,
    words: &[String],
    feed: &mut F,
    input: &mut S,
    out: &mut K,
    budget: u64,
) -> Result<(), Stop>
    requires budget { budget ≤ 2 ^ 63 }
    ensures run { FollowEndsAs budget (map string_bytes words.now)
        (feed_seen F.tables F.faults feed.old feed.new)
        (stream_seen S.left S.faults input.old input.new)
        (stream_seen K.written K.faults out.old out.new)
        feed.old feed.new input.old input.new out.old out.new result }
{
    let asked = match read_words(alloc, words) {
        Ok(asked) => asked,
        Err(fault) => return Err(Stop::from(fault)),
    };
    let loaded = match load_asked(alloc, &asked, feed) {
        Ok(loaded) => loaded,
        Err(error) => return Err(feed_stop(alloc, error)),
    };
    let head = head_of(alloc, &asked)?;
    let leader = Leader {
        head,
        timetable: loaded.timetable,
        directory: loaded.directory,
    };
    let history = NewHistory::new();
    match follow_journal::<Brand, R, S>(rt, alloc, history, leader, input, budget) {
        Ok((timetable, directory)) => run_of(write_table(alloc, &timetable, &directory, out)),
        Err(fault) => Err(follow_stop(alloc, fault)),
    }
}

/// All that the program does for `follow`. It reads the tables of the feed, and then the journal
/// that the input holds, each line as it comes. At the end of the input it writes the table of all
/// times behind the journal; bytes behind the last whole line are passed over. It stops at the
/// first line that is refused, and where `budget` bytes of the input were taken and no end was
/// read.
pub(crate) fn run_follow<R: Wait, F: Feed, S: Source, K: Sink, E: Sink>(
    rt: &R,
    alloc: Global,
    words: &[String],
    feed: &mut F,
    input: &mut S,
    out: &mut K,
    err: &mut E,
    budget: u64,
) -> Status
    requires budget { (1 ≤ budget) × (budget ≤ 2 ^ 63) }
    ensures contract { MeetsFollowContract budget (map string_bytes words.now)
        (feed_seen F.tables F.faults feed.old feed.new)
        (stream_seen S.left S.faults input.old input.new)
        (stream_seen K.written K.faults out.old out.new)
        (stream_seen E.written E.faults err.old err.new)
        feed.old feed.new input.old input.new out.old out.new result }
{
    let run = follow_words(rt, alloc, words, feed, input, out, budget);
    tell(&run, err)
}
