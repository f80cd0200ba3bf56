//! A board of timetables with the names that are known.

use delay_report::Reply;
use information_service::take_wire;
use journal_replay::TakeJournal;
use message_reader::Wire;
use mt_base::memory::OutOfMemory;
use query_crew::OnBoard;
use schedule_build::Directory;
use snapshot_board::{Opening, Publisher};
use std::alloc::Global;
use std::marker::Model;
use std::sync::Wait;
use timetable::Timetable;

/// The publisher of a board of timetables, with the names that are known. `P` is the publisher.
pub struct NamedBoard<P> {
    pub(crate) publisher: P,
    pub(crate) directory: Directory,
}

impl<P> Model for NamedBoard<P> {
    ghost use Rattle.journal_follower.specs.Boards.{BoardState};

    ghost Value = { BoardState P };

    ghost view = { λ b. record { posted = b.publisher; names = b.directory } };
}

impl<H: Opening<Timetable>, R: Wait> TakeJournal<R> for NamedBoard<Publisher<Timetable, H>> {
    ghost use Rattle.journal_follower.specs.Boards.{StandsAs};

    ghost stands = { StandsAs H.opening };

    fn take(&mut self, alloc: Global, rt: &R, wire: Wire) -> Result<bool, OutOfMemory> {
        let reply = take_wire::<OnBoard, Publisher<Timetable, H>, R>(
            alloc,
            rt,
            &mut self.publisher,
            &mut self.directory,
            0,
            &wire,
        )?;
        Ok(matches!(reply, Reply::Accepted { .. }))
    }
}
