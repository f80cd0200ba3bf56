//! How a board is opened and closed.

ghost use Rattle.std.specs.Prelude.{◌≡◌, ◌<◌, ◌≤◌, [], All, Some, IfOk, vec_len};
ghost use Rattle.snapshot_board.specs.Meetings.{newcomer};
ghost use Rattle.snapshot_board.specs.States.{meaning_after};

use crate::history::{NewHistory, Prefix};
use crate::operation::Operation;
use crate::published::{Opening, Published};
use crate::publisher::{Publisher, PublisherOver};
use crate::publishing::{BoardWriter, publish};
use crate::replay::Replay;
use crate::viewer::Viewer;
use left_right::writer::Writer;
use mt_base::memory::OutOfMemory;
use std::alloc::{AllocError, Allocator, Global};
use std::sync::Wait;

// One viewer, a newcomer. It asks until a reader is free.
fn open_viewer<S: Replay, H: Opening<S::State>, A: Allocator, R: Wait>(
    rt: &R,
    writer: &BoardWriter<S, H, A>,
    empty: &Prefix<S::Msg, H>,
) -> Viewer<S, H, A>
    requires { empty.now ≡ [] }
    ensures { result ≡ newcomer }
{
    for _ in rt.forever() {
        if let Ok(reader) = writer.factory().reader() {
            return Viewer::new(reader, empty);
        }
    }
    unreachable!()
}

// So many viewers, each a newcomer.
fn open_viewers<S: Replay, H: Opening<S::State>, A: Allocator, R: Wait>(
    rt: &R,
    alloc: A,
    writer: &BoardWriter<S, H, A>,
    empty: &Prefix<S::Msg, H>,
    readers: u32,
) -> Result<Vec<Viewer<S, H, A>, A>, OutOfMemory>
    requires { empty.now ≡ [] }
    ensures count { IfOk result (λ viewers. vec_len viewers ≡ readers) }
    ensures viewers { IfOk result (λ viewers. All (λ v. v ≡ newcomer) viewers.items) }
{
    let mut viewers = Vec::new(alloc);
    for _ in 0..readers {
        viewers.push(open_viewer(rt, writer, empty))?;
    }
    Ok(viewers)
}

/// Opens a board that takes its memory from this allocator.
pub(crate) fn open_board_in<S: Replay, H: Opening<S::State>, A: Allocator + Clone, R: Wait>(
    rt: &R,
    alloc: A,
    history: NewHistory<S::Msg>,
    first: S,
    second: S,
    readers: u32,
) -> Result<(Publisher<S, H, A>, Vec<Viewer<S, H, A>, A>), OutOfMemory>
    // the history of the board, and two values with its first meaning
    requires book { history ≡ H.book }
    requires opening { H.opening ≡ Some (S.meaning first) }
    requires alike { S.meaning first ≡ S.meaning second }

    // one to sixteen viewers
    requires readers { (0 < readers) × (readers ≤ 16) }

    // nothing was posted, and no viewer has seen anything
    ensures publisher { IfOk result (λ b. b.0 ≡ []) }
    ensures count { IfOk result (λ b. vec_len b.1 ≡ readers) }
    ensures viewers { IfOk result (λ b. All (λ v. v ≡ newcomer) b.1.items) }
{
    let history = history.named::<H>();
    let posted = history.empty();
    let first = Published::at_opening(first, history.empty());
    let second = Published::at_opening(second, history.empty());
    let copies: A = alloc.clone()?;
    let mut writer: BoardWriter<S, H, A> = Writer::new(copies, first, second, readers as usize)?;
    // The log takes the room of two operations. It never has more.
    let has_room = publish(rt, &mut writer, Operation::MakeRoom).is_ok()
        && publish(rt, &mut writer, Operation::MakeRoom).is_ok();
    match open_viewers(rt, alloc, &writer, &posted, readers) {
        Ok(viewers) if has_room => {
            let publisher = PublisherOver {
                writer,
                history,
                posted,
            };
            Ok((publisher, viewers))
        }
        Ok(_) | Err(_) => {
            drop(writer.take(rt));
            Err(AllocError)
        }
    }
}

/// Opens a board of two values with one meaning, for so many viewers. All room that posts need is
/// taken here. `OutOfMemory` where there is no memory.
pub fn open_board<S: Replay, H: Opening<S::State>, R: Wait>(
    rt: &R,
    alloc: Global,
    history: NewHistory<S::Msg>,
    first: S,
    second: S,
    readers: u32,
) -> Result<(Publisher<S, H>, Vec<Viewer<S, H>>), OutOfMemory>
    // the history of the board, and two values with its first meaning
    requires book { history ≡ H.book }
    requires opening { H.opening ≡ Some (S.meaning first) }
    requires alike { S.meaning first ≡ S.meaning second }

    // one to sixteen viewers
    requires readers { (0 < readers) × (readers ≤ 16) }

    // nothing was posted, and no viewer has seen anything
    ensures publisher { IfOk result (λ b. b.0 ≡ []) }
    ensures count { IfOk result (λ b. vec_len b.1 ≡ readers) }
    ensures viewers { IfOk result (λ b. All (λ v. v ≡ newcomer) b.1.items) }
{
    open_board_in(rt, alloc, history, first, second, readers)
}

impl<S: Replay, H: Opening<S::State>> PublisherOver<BoardWriter<S, H>, S::Msg, H> {
    /// Ends the board and gives back the value that was published last. It waits for those that
    /// look. A viewer that was kept, and looks after this, asks for ever.
    pub fn close<R: Wait>(self, rt: &R, viewers: Vec<Viewer<S, H>>) -> S
        ensures { meaning_after S.after H.opening self ≡ Some (S.meaning result) }
    {
        drop(viewers);
        let PublisherOver {
            writer,
            history: _,
            posted: _,
        } = self;
        let Published { value, prefix: _ } = Box::into_inner(writer.take(rt));
        value
    }
}
