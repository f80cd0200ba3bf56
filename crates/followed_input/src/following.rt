//! An input whose journal is read piece by piece.

ghost use Rattle.std.specs.Prelude.{◌≡◌, ◌<◌, ◌≤◌, ◌+◌, ◌^◌, ℕ, List, None, Some, length, take, vec_len, IfOk, MatchResult};
ghost use Rattle.std.specs.Io.KnownBytes.{Consumes, IsAtEnd, Keeps};
ghost use mathlib.Core.List.{IsPrefix};
ghost use Rattle.mt_io.specs.Causes.{HasCause};
ghost use Rattle.journal_follower.specs.Following.{IsReady};
ghost use Rattle.followed_input.specs.Faults.{ended, reads_failed};
ghost use Rattle.followed_input.specs.Followed.{IsFollowed};

use crate::fault::FollowFault;
use journal_follower::Follower;
use journal_replay::JournalRefusal;
use mt_io::{Failed, Source};
use snapshot_board::{Opening, Publisher};
use std::alloc::Global;
use std::sync::Wait;
use timetable::Timetable;

// So many bytes are read at once, at most.
const ROOM: usize = 65_536;

/// Moves the next bytes of the input to the front of `piece`, `room` of them at most.
fn read_piece<S: Source>(input: &mut S, piece: &mut Vec<u8>, room: usize) -> Result<usize, Failed>
    requires { room ≤ vec_len piece.old }
    ensures len { vec_len piece.new ≡ vec_len piece.old }
    ensures bound { IfOk result (λ n. n ≤ room) }
    ensures moved { MatchResult result
        (λ n. Consumes (S.left input.old) (S.left input.new) (take n piece.new.items)
        × (n ≡ 0 → 0 < room → IsAtEnd (S.left input.new)))
        (λ _. Keeps (S.left input.old) (S.left input.new)) }
    ensures cause { HasCause (S.faults input.old) (S.faults input.new) result }
{
    input.read(&mut piece[0..room])
}

/// What is answered at the end of an input of which so many lines were taken: a journal has one at
/// least, its header.
fn end_input(lines: u64) -> Result<(), FollowFault>
    ensures { result ≡ ended lines }
{
    if lines == 0 {
        return Err(FollowFault::Refused(JournalRefusal::Header));
    }
    Ok(())
}

/// Reads the journal that the input holds through the follower, piece by piece, until the input is
/// at its end. Bytes behind its last whole line are passed over. It fails with `Refused` where the
/// follower refuses the journal, or the input is at its end and no line was whole, which is
/// `Header`; with `ReadFault` where a read failed; and with `TooLong` where `budget` bytes were
/// taken, no end was read, and nothing among them is refused. Then the messages of the whole lines
/// that were taken are posted, up to the one that is refused. With `OutOfMemory` those of a
/// beginning of the bytes are, and the follower can only be closed. It takes no more than `budget`
/// bytes.
pub fn follow_input<H: Opening<Timetable>, R: Wait, S: Source>(
    rt: &R,
    alloc: Global,
    follower: &mut Follower<Publisher<Timetable, H>>,
    input: &mut S,
    budget: u64,
) -> Result<(), FollowFault>
    // the follower can read on, and a line for each byte can be counted
    requires ready { IsReady H.opening follower.old }
    requires not_refused { follower.old.reader.refusal ≡ None }
    requires lines { follower.old.reader.lines + budget ≤ 2 ^ 63 }

    // the bytes that were taken of the input, how the follower stands behind them, and what this
    // answers for them
    ensures followed { (bytes : List ℕ) × IsFollowed H.opening budget follower.old follower.new
        (S.left input.old) (S.left input.new) bytes result }

    // how many reads failed
    ensures reads { Some (S.faults input.new) ≡ reads_failed result (S.faults input.old) }

    // the follower expects the same header, takes no post back, and is ready for more
    ensures header { follower.new.reader.header ≡ follower.old.reader.header }
    ensures later { IsPrefix follower.old.board.posted follower.new.board.posted }
    ensures ready { IsReady H.opening follower.new }
{
    let mut piece = vec![in alloc; 0; ROOM]?;
    let mut taken = 0;
    'pieces: while taken < budget {
        let room = (budget - taken).min(ROOM as u64) as usize;
        let count = read_piece(input, &mut piece, room)?;
        if count == 0 {
            return end_input(follower.lines());
        }
        taken += count as u64;
        follower.feed(rt, alloc, &piece[..count])?;
    }
    Err(FollowFault::TooLong)
}
