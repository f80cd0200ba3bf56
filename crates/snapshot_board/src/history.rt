//! The history of a board: the list of messages that its publisher appended, which only grows. It
//! is the list of posted messages, and one message longer once a post found no memory. It stands in
//! proofs alone. What the code has is its length, and values that say that a beginning of it was
//! reached.

ghost use Rattle.std.specs.Prelude.{◌≡◌, ◌≢◌, ◌+◌, ◌==◌, ◌<◌, ◌^◌, ◌++◌, ◌∷◌, [], length, MatchBool};
ghost use mathlib.Core.List.{IsPrefix};
ghost use Rattle.snapshot_board.specs.Histories.{IsLonger, length_word};

use logbook::{Gain, Offer, Plain, Play, Rule, Seen, Start, Word};
use std::marker::{Brand, Model, PhantomData};

/// What is kept of the history: its word is its length.
pub struct LengthRule;

impl<M> Rule<M, u64> for LengthRule {
    ghost use Rattle.std.specs.Prelude.{[]};
    ghost use base.Fml.{ftrue};
    ghost use Rattle.snapshot_board.specs.Histories.{IsKept};

    ghost holds = { λ words list. IsKept words list };

    ghost first = { [] };

    ghost hinted = { λ n list. Unit {0} };

    ghost shows = { λ list. [] };

    ghost keeps = { λ names list. ftrue };

    ghost moves = { λ ask before after answer. Unit {0} };
}

/// A step trades nothing.
pub struct NoGain;

impl<M> Gain<M, u64> for NoGain {
    ghost use base.Fml.{ftrue};

    ghost after = { λ names about answer. ftrue };
}

/// The step that appends a message.
pub struct Append;

impl<M> Play<M, u64> for Append {
    ghost use Rattle.snapshot_board.specs.Histories.{Appends};

    ghost then = { Appends };
}

impl<M> Plain<M, M, u64> for Append {
    ghost use Rattle.std.specs.Prelude.{None};

    ghost ask = { λ m. m };

    ghost state = { λ m. None };
}

/// Names the history of one board. Each call that makes a board picks it.
pub trait History {
    ghost use Rattle.logbook.specs.Pages.{Book};

    /// Which history it is.
    ghost book: { Book };
}

impl History for Brand {
    ghost book = { record { number = 0; log_name = 0; cells_name = 0 } };
}

/// An empty history that nobody has named yet. It is seen as which one it is.
#[derive(Drop)]
pub struct NewHistory<M> {
    word: Word<M, u64, LengthRule>,
    seen: Seen<M, u64, LengthRule>,
}

impl<M> Model for NewHistory<M> {
    ghost use Rattle.std.specs.Prelude.{◌≡◌, []};
    ghost use Rattle.logbook.specs.Pages.{Book, book_coded};
    ghost use Rattle.snapshot_board.specs.Histories.{length_word};

    ghost Value = { Book };

    ghost coded = { book_coded };

    ghost view = { λ h. h.seen.book };

    ghost invariant = { λ h. (h.seen.log ≡ []) × (h.word ≡ length_word h.seen.book) };
}

impl<M> NewHistory<M> {
    /// A history of its own.
    pub fn new() -> NewHistory<M> {
        let (seen, mut first, _second) = Seen::open(Start::alone(), 0, 0);
        NewHistory {
            word: Word::tracked(0, &mut first),
            seen,
        }
    }

    /// The history under its name.
    pub fn named<H: History>(self) -> HistoryLength<M, H>
        requires { self ≡ H.book }
    {
        let NewHistory { word, seen } = self;
        HistoryLength {
            word,
            empty: Prefix {
                count: 0,
                seen,
                of: PhantomData,
            },
        }
    }
}

/// How long the history is. One value only can append to it, and the publisher has that.
#[derive(Drop)]
pub struct HistoryLength<M, H: History> {
    word: Word<M, u64, LengthRule>,
    empty: Prefix<M, H>,
    /// The word is the length of this history.
    ghost word_is: { word ≡ length_word H.book },
    /// The empty beginning has no message.
    ghost empty_is: { empty ≡ [] },
}

impl<M, H: History> HistoryLength<M, H> {
    /// The beginning that has no message.
    pub fn empty(&self) -> Prefix<M, H>
        ensures { result ≡ [] }
    {
        self.empty.copy()
    }
}

/// A beginning of the history that was reached. It is seen as its messages.
#[derive(Drop)]
pub struct Prefix<M, H: History> {
    count: u64,
    seen: Seen<M, u64, LengthRule>,
    of: PhantomData<H>,
}

impl<M, H: History> Model for Prefix<M, H> {
    ghost use Rattle.std.specs.Prelude.{◌≡◌, List, length};

    ghost Value = { List M };

    ghost view = { λ p. p.seen.log };

    ghost invariant = { λ p. (p.count ≡ length p.seen.log) × (p.seen.book ≡ H.book) };
}

impl<M, H: History> Prefix<M, H> {
    /// How many messages it has.
    pub fn count(&self) -> u64
        ensures { result ≡ length self.now }
    {
        self.count
    }

    /// A second value of this beginning.
    pub fn copy(&self) -> Prefix<M, H>
        ensures { result ≡ self.now }
    {
        Prefix {
            count: self.count,
            seen: self.seen.again(),
            of: PhantomData,
        }
    }

    /// Whether the other begins with this one. Else this one is longer, and begins with the other.
    pub fn begins(&self, other: &Prefix<M, H>) -> bool
        ensures { MatchBool result (IsPrefix self.now other.now) (IsLonger other.now self.now) }
    {
        let mut both = self.seen.again();
        both.learn(&other.seen);
        self.count <= other.count
    }

    /// Whether the two have equally many messages. Then they are one list.
    pub fn is_same(&self, other: &Prefix<M, H>) -> bool
        ensures test { result ≡ (length self.now == length other.now) }
        ensures same { MatchBool result (self.now ≡ other.now)
            (length self.now ≢ length other.now) }
    {
        let mut both = self.seen.again();
        both.learn(&other.seen);
        self.count == other.count
    }

    /// Appends a message to the history, and says whether it did. It did not where the history is
    /// longer than this beginning.
    pub fn push(&mut self, history: &HistoryLength<M, H>, m: &M) -> bool
        requires room { length self.old + 1 < 2 ^ 64 }
        ensures { MatchBool result (self.new ≡ self.old ++ m.now ∷ [])
            (IsLonger self.old self.new) }
    {
        let mut offer: Offer<M, u64, LengthRule, NoGain> = self.seen.plain::<NoGain, M, Append>(m);
        let mut pen = self.seen.no_pen();
        let count = self.count;
        let found = history
            .word
            .compare_exchange::<Append, NoGain>(
                count,
                count + 1,
                &mut self.seen,
                &mut offer,
                &mut pen,
            );
        self.count = if found == count { count + 1 } else { found };
        found == count
    }
}
