//! A journal that an input holds, from its beginning.

ghost use Rattle.std.specs.Prelude.{◌≡◌, ◌≤◌, ◌^◌, ℕ, List, Some};
ghost use Rattle.information_service.specs.Taking.{service_with};
ghost use Rattle.journal_lines.specs.Lines.{text_of_head};
ghost use Rattle.mt_base.specs.Civil.{IsCivil};
ghost use Rattle.schedule_build.specs.InStep.{AreInStep};
ghost use Rattle.followed_input.specs.Faults.{reads_failed};
ghost use Rattle.followed_input.specs.FollowedJournals.{IsJournalFollowed};

use crate::fault::FollowFault;
use crate::following::follow_input;
use journal_follower::{Follower, Leader};
use mt_io::Source;
use schedule_build::Directory;
use snapshot_board::{NewHistory, Opening, Publisher};
use std::alloc::Global;
use std::sync::Wait;
use timetable::Timetable;
use train_nodes::Msg;

/// Reads the journal that the input holds by a follower of its own, and gives the timetable behind
/// the journal's whole lines, and its names. Bytes behind the last of them are passed over. When it
/// fails, and how many bytes it takes, is told at `follow_input`.
pub fn follow_journal<H: Opening<Timetable>, R: Wait, S: Source>(
    rt: &R,
    alloc: Global,
    history: NewHistory<Msg>,
    leader: Leader,
    input: &mut S,
    budget: u64,
) -> Result<(Timetable, Directory), FollowFault>
    // the history of the follower's board, and how it opens
    requires book { history ≡ H.book }
    requires opening { H.opening ≡ Some leader.timetable }

    // a date, and names and trains in step, before all messages
    requires head { IsCivil leader.head.first }
    requires in_step { AreInStep leader.directory leader.timetable.state }
    requires budget { budget ≤ 2 ^ 63 }

    // the bytes that were taken of the input, and what is answered for them
    ensures followed { (bytes : List ℕ) × IsJournalFollowed budget (text_of_head leader.head)
        (service_with leader.timetable 0 leader.directory) (S.left input.old) (S.left input.new)
        bytes result }

    // how many reads failed
    ensures reads { Some (S.faults input.new) ≡ reads_failed result (S.faults input.old) }
{
    let (mut follower, viewers) = Follower::<Publisher<Timetable, H>>::build(
        rt, alloc, history, leader, 1,
    )?;
    let answer = follow_input(rt, alloc, &mut follower, input, budget);
    let whole = follower.close(rt, viewers);
    answer?;
    Ok(whole)
}
