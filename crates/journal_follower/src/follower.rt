//! A follower of a journal.

ghost use Rattle.std.specs.Prelude.{◌≡◌, ◌≢◌, ◌<◌, ◌≤◌, ◌^◌, [], All, Err, IfOk, None, Some, length, vec_len};
ghost use mathlib.Core.List.{IsPrefix};
ghost use Rattle.journal_lines.specs.Lines.{text_of_head};
ghost use Rattle.journal_replay.specs.ReaderStates.{answer, BreaksOff, HasRead};
ghost use Rattle.journal_replay.specs.declared.refusal.JournalRefusal.{JournalRefusal as AJournalRefusal};
ghost use Rattle.journal_replay.specs.declared.refusal.JournalRefusal.TheVariants.{OutOfMemory};
ghost use Rattle.mt_base.specs.Civil.{IsCivil};
ghost use Rattle.schedule_build.specs.InStep.{AreInStep};
ghost use Rattle.snapshot_board.specs.Knowledge.{LearnsNote};
ghost use Rattle.snapshot_board.specs.Meetings.{newcomer, IsMeeting};
ghost use Rattle.query_crew.specs.Posted.{timetable_after};
ghost use Rattle.journal_follower.specs.Boards.{StandsAs};
ghost use Rattle.journal_follower.specs.Following.{IsReady};

use crate::board::NamedBoard;
use journal_lines::Head;
use journal_replay::{JournalReader, JournalRefusal};
use mt_base::memory::OutOfMemory;
use schedule_build::Directory;
use snapshot_board::{Meet, NewHistory, Note, Opening, Publisher, Viewer, open_board};
use std::alloc::Global;
use std::marker::Model;
use std::sync::Wait;
use timetable::Timetable;
use train_nodes::Msg;

/// What a follower begins with.
#[derive(Drop)]
pub struct Leader {
    /// The head of the journal that is followed.
    pub head: Head,

    /// The timetable before all messages.
    pub timetable: Timetable,

    /// The names of its trains, stops, routes and service days.
    pub directory: Directory,
}

/// Reads a journal, however its bytes come, and posts its messages to a board. `P` is the board's
/// publisher.
pub struct Follower<P> {
    reader: JournalReader,
    board: NamedBoard<P>,
}

impl<P> Model for Follower<P> {
    ghost use Rattle.journal_follower.specs.Following.{FollowerState};

    ghost Value = { FollowerState P };

    ghost view = { λ f. record { reader = f.reader; board = f.board } };
}

impl<H: Opening<Timetable>> Follower<Publisher<Timetable, H>> {
    /// A follower that has read nothing, and so many viewers of its board. `OutOfMemory` where
    /// there is no memory.
    pub fn build<R: Wait>(
        rt: &R,
        alloc: Global,
        history: NewHistory<Msg>,
        leader: Leader,
        viewers: u32,
    ) -> Result<(Follower<Publisher<Timetable, H>>, Vec<Viewer<Timetable, H>>), OutOfMemory>
        // the history of the board, and how it opens
        requires book { history ≡ H.book }
        requires opening { H.opening ≡ Some leader.timetable }

        // a date, and names and trains in step, before all messages; one to sixteen viewers
        requires head { IsCivil leader.head.first }
        requires in_step { AreInStep leader.directory leader.timetable.state }
        requires viewers { (0 < viewers) × (viewers ≤ 16) }

        // nothing was read and nothing posted, and no viewer has seen anything
        ensures reader { IfOk result (λ f. f.0.reader ≡ record {
          header = text_of_head leader.head;
          lines = 0;
          held = [];
          refusal = None;
        }) }
        ensures board { IfOk result (λ f. f.0.board ≡ record {
          posted = [];
          names = leader.directory;
        }) }
        ensures ready { IfOk result (λ f. IsReady H.opening f.0) }
        ensures count { IfOk result (λ f. vec_len f.1 ≡ viewers) }
        ensures viewers { IfOk result (λ f. All (λ v. v ≡ newcomer) f.1.items) }
    {
        let Leader {
            head,
            timetable,
            directory,
        } = leader;
        let reader = JournalReader::build(alloc, &head)?;
        let second = timetable.copy(alloc)?;
        let (publisher, viewers) = open_board(rt, alloc, history, timetable, second, viewers)?;
        let board = NamedBoard {
            publisher,
            directory,
        };
        Ok((Follower { reader, board }, viewers))
    }

    /// Reads the next bytes of the journal, and posts the messages of its whole lines. What it
    /// answers, and when it fails, is told at `JournalReader::feed`. It waits for viewers that look
    /// at the older copy. After `OutOfMemory` it can only be closed.
    pub fn feed<R: Wait>(
        &mut self,
        rt: &R,
        alloc: Global,
        piece: &[u8],
    ) -> Result<u64, JournalRefusal>
        requires ready { IsReady H.opening self.old }
        requires lines { self.old.reader.lines < 2 ^ 63 }

        // what was read and posted, wherever the follower stood
        ensures read { result ≢ Err OutOfMemory → HasRead (StandsAs H.opening) self.old.board
            self.old.reader piece.now self.new.board self.new.reader }
        ensures memory { result ≡ Err OutOfMemory → self.old.reader.refusal ≡ None
            → BreaksOff (StandsAs H.opening) self.old.board self.old.reader piece.now
            self.new.board self.new.reader.lines }

        // the answer, which stays the same after a refusal, with everything else
        ensures answer { result ≡ answer self.new.reader }
        ensures refused { (why : AJournalRefusal) → self.old.reader.refusal ≡ Some why
            → (result ≡ Err why) × (self.new ≡ self.old) }

        // it expects the same header, takes no post back, and is ready for more
        ensures header { self.new.reader.header ≡ self.old.reader.header }
        ensures later { IsPrefix self.old.board.posted self.new.board.posted }
        ensures ready { IsReady H.opening self.new }
    {
        self.reader.feed(alloc, rt, &mut self.board, piece)
    }

    /// A note of all that was posted.
    pub fn tell(&self) -> Note<Msg, H>
        ensures { result ≡ self.now.board.posted }
    {
        self.board.publisher.tell()
    }

    /// Tells whether what the viewer had seen is a beginning of what was posted. The viewer learns
    /// the note, which is of all that was posted.
    pub fn meet(&self, v: &mut Viewer<Timetable, H>, n: Note<Msg, H>) -> Meet
        requires { n ≡ self.now.board.posted }
        ensures met { IsMeeting result v.old.seen self.now.board.posted }
        ensures learns { LearnsNote self.now.board.posted v.old v.new }
    {
        self.board.publisher.meet(v, n)
    }

    /// The timetable after all messages that were posted.
    pub fn state(&self) -> &Timetable
        ensures { timetable_after H.opening self.now.board.posted ≡ Some result.now }
    {
        self.board.publisher.state()
    }

    /// How many lines were taken, the header among them.
    pub fn lines(&self) -> u64
        ensures { result ≡ self.now.reader.lines }
    {
        self.reader.lines()
    }

    /// The names that are known.
    pub fn directory(&self) -> &Directory
        ensures { result.now ≡ self.now.board.names }
    {
        &self.board.directory
    }

    /// Ends the follower and its board, and gives back the timetable and its names. It waits for
    /// those that look.
    pub fn close<R: Wait>(
        self,
        rt: &R,
        viewers: Vec<Viewer<Timetable, H>>,
    ) -> (Timetable, Directory)
        ensures timetable { timetable_after H.opening self.board.posted ≡ Some result.0 }
        ensures names { result.1 ≡ self.board.names }
    {
        let Follower { reader, board } = self;
        let NamedBoard {
            publisher,
            directory,
        } = board;
        drop(reader);
        (publisher.close(rt, viewers), directory)
    }
}
