//! The publisher.

ghost use Rattle.std.specs.Prelude.{◌≡◌, ◌+◌, ◌^◌, ◌<◌, ◌++◌, ◌∷◌, [], length, Some, MatchResult};
ghost use Rattle.snapshot_board.specs.States.{meaning_after, FitsAfter};

use crate::history::{History, HistoryLength, Prefix};
use crate::note::Note;
use crate::operation::{Operation, Post};
use crate::published::Opening;
use crate::publishing::{BoardWriter, publish};
use crate::replay::Replay;
use mt_base::memory::OutOfMemory;
use std::alloc::{AllocError, Allocator, Global};
use std::marker::Model;
use std::sync::Wait;

/// What publishes messages: the writer of a board.
pub trait HasPublished<M> {
    ghost use Rattle.std.specs.Prelude.{List};

    /// That the list is published, and that nothing waits to be.
    ghost has_published: { Self → List M → Type 0 };
}

impl<S: Replay, H: Opening<S::State>, A: Allocator> HasPublished<S::Msg> for BoardWriter<S, H, A> {
    ghost use Rattle.std.specs.Prelude.{◌≡◌, [], drop};

    ghost has_published = { λ w list. (w.desk.shown.value.prefix ≡ list)
        × (drop w.behind w.log.items ≡ []) };
}

/// The publisher of a board, generic in its writer `W`. It is seen as the list of the messages that
/// it posted.
pub struct PublisherOver<W: HasPublished<M>, M, H: History> {
    pub(crate) writer: W,
    pub(crate) history: HistoryLength<M, H>,
    pub(crate) posted: Prefix<M, H>,
}

impl<W: HasPublished<M>, M, H: History> Model for PublisherOver<W, M, H> {
    ghost use Rattle.std.specs.Prelude.{List};

    ghost Value = { List M };

    ghost view = { λ p. p.posted };

    ghost invariant = { λ p. ∥ W.has_published p.writer p.posted ∥₁ };
}

/// The publisher of a board of values of type `S`. Only `close` ends it.
pub type Publisher<S, H, A = Global> = PublisherOver<BoardWriter<S, H, A>, <S as Replay>::Msg, H>;

impl<S: Replay, H: Opening<S::State>, A: Allocator> PublisherOver<BoardWriter<S, H, A>, S::Msg, H> {
    /// How many messages were posted.
    pub fn count(&self) -> u64
        ensures { result ≡ length self.now }
    {
        self.posted.count()
    }

    /// The value after all that was posted.
    pub fn state(&self) -> &S
        ensures { meaning_after S.after H.opening self.now ≡ Some (S.meaning result.now) }
    {
        &self.writer.published().value
    }

    /// A note of all that was posted.
    pub fn tell(&self) -> Note<S::Msg, H>
        ensures { result ≡ self.now }
    {
        Note::of(self.posted.copy())
    }

    /// Posts a message that fits: the value after it is published. It waits for viewers that look
    /// at the older copy. `OutOfMemory` where there is no memory: the message is then handed back
    /// and the board is unchanged; later posts may then find no memory either.
    pub fn post<R: Wait>(&mut self, rt: &R, m: S::Msg) -> Result<(), (S::Msg, OutOfMemory)>
        // the messages can be counted, and this one fits in the meaning after them
        requires room { length self.old + 1 < 2 ^ 64 }
        requires fits { FitsAfter S.after S.fits H.opening self.old m }

        // it is appended, or handed back
        ensures { MatchResult result (λ _. self.new ≡ self.old ++ m ∷ [])
            (λ e. (e.0 ≡ m) × (self.new ≡ self.old)) }
    {
        let mut after = self.posted.copy();
        if !after.push(&self.history, &m) {
            return Err((m, AllocError));
        }
        let post = Operation::Post(Post {
            message: m,
            before: self.posted.copy(),
            after: after.copy(),
        });
        match publish(rt, &mut self.writer, post) {
            Ok(()) => {
                self.posted = after;
                Ok(())
            }
            Err(Operation::Post(post)) => Err((post.message, AllocError)),
            Err(Operation::MakeRoom) => unreachable!(),
        }
    }
}
