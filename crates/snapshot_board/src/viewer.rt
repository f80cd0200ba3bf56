//! Viewers, which look without waiting for one another.

ghost use Rattle.std.specs.Prelude.{◌≡◌, length, MatchBool};
ghost use mathlib.Core.List.{IsPrefix};
ghost use Rattle.snapshot_board.specs.Histories.{IsLonger};
ghost use Rattle.snapshot_board.specs.Knowledge.{LearnsNote};
ghost use Rattle.snapshot_board.specs.Looks.{CanLook, Looked};

use crate::history::{History, Prefix};
use crate::note::Note;
use crate::published::{Opening, Published};
use crate::replay::Replay;
use core::mem::replace_with;
use crossbeam_utils::rule::Unruled;
use left_right::reader::Reader;
use std::alloc::{Allocator, Global};
use std::marker::Model;
use std::sync::Wait;

/// A reader of the published copies.
pub type BoardReader<S, H, A = Global> = Reader<Published<S, H>, (), Unruled, A>;

/// A viewer of a board. It is seen as the list of messages whose value it saw last, and the list
/// that it learnt.
#[derive(Drop)]
pub struct Viewer<S: Replay, H: Opening<S::State>, A: Allocator = Global> {
    reader: BoardReader<S, H, A>,
    seen: Prefix<S::Msg, H>,
    learnt: Prefix<S::Msg, H>,
}

impl<S: Replay, H: Opening<S::State>, A: Allocator> Model for Viewer<S, H, A> {
    ghost use Rattle.snapshot_board.specs.Knowledge.{Knowledge};

    ghost Value = { Knowledge S.Msg };

    ghost view = { λ v. record { seen = v.seen; learnt = v.learnt } };
}

// Asks until the reader shows a list that begins with both, calls f once, and leaves.
fn look_at<S: Replay, H: Opening<S::State>, A: Allocator, T, F: FnOnce(&S, u64) -> T, R: Wait>(
    rt: &R,
    reader: BoardReader<S, H, A>,
    seen: &Prefix<S::Msg, H>,
    learnt: &Prefix<S::Msg, H>,
    f: F,
) -> (BoardReader<S, H, A>, (Prefix<S::Msg, H>, T))
    requires { CanLook F.FnOnce S.meaning S.after H.opening f
        (record { seen = seen.now; learnt = learnt.now }) }
    ensures { Looked F.FnOnce S.meaning S.after H.opening f
        (record { seen = seen.now; learnt = learnt.now })
        (record { seen = result.1.0; learnt = learnt.now }) result.1.1 }
{
    let mut asked = reader;
    for _ in rt.forever() {
        match asked.enter_as::<Unruled>() {
            Ok(reading) => {
                let shown = reading.get();
                if seen.begins(&shown.prefix) && learnt.begins(&shown.prefix) {
                    let prefix = shown.prefix.copy();
                    let answer = f(&shown.value, prefix.count());
                    return (reading.leave(), (prefix, answer));
                }
                asked = reading.leave();
            }
            Err(reader) => asked = reader,
        }
    }
    unreachable!()
}

impl<S: Replay, H: Opening<S::State>, A: Allocator> Viewer<S, H, A> {
    pub(crate) fn new(reader: BoardReader<S, H, A>, prefix: &Prefix<S::Msg, H>) -> Viewer<S, H, A>
        ensures { (result.seen ≡ prefix.now) × (result.learnt ≡ prefix.now) }
    {
        Viewer {
            reader,
            seen: prefix.copy(),
            learnt: prefix.copy(),
        }
    }

    /// How long the list is that it has seen.
    pub fn seen(&self) -> u64
        ensures { result ≡ length self.now.seen }
    {
        self.seen.count()
    }

    // Whether the note begins with all that it saw. Else it saw more, and all that the note has.
    pub(crate) fn has_within(&self, n: &Note<S::Msg, H>) -> bool
        ensures { MatchBool result (IsPrefix self.now.seen n.now) (IsLonger n.now self.now.seen) }
    {
        let noted = &n.prefix;
        self.seen.begins(noted)
    }

    /// Takes in a note. The list of each later look begins with the note's.
    pub fn learn(&mut self, n: Note<S::Msg, H>)
        ensures { LearnsNote n self.old self.new }
    {
        let Note { prefix } = n;
        if self.learnt.begins(&prefix) {
            self.learnt = prefix;
        }
    }

    /// Calls `f` once, with the value after a list of messages and with the list's length. The list
    /// begins with all that this viewer saw and learnt. It takes no lock. It need not return: after
    /// the board was closed, a viewer that was kept asks for ever.
    pub fn look<T, F: FnOnce(&S, u64) -> T, R: Wait>(&mut self, rt: &R, f: F) -> T
        requires { CanLook F.FnOnce S.meaning S.after H.opening f self.old }
        ensures { Looked F.FnOnce S.meaning S.after H.opening f self.old self.new result }
    {
        let seen = self.seen.copy();
        let learnt = self.learnt.copy();
        let (prefix, answer) = replace_with(&mut self.reader, f, |reader, f| {
            look_at(rt, reader, &seen, &learnt, f)
        });
        self.seen = prefix;
        answer
    }
}
