//! What is published.

ghost use Rattle.std.specs.Prelude.{◌≡◌, [], Some};
ghost use Rattle.snapshot_board.specs.States.{meaning_after, taken_in};

use crate::history::{History, Prefix};
use crate::operation::{Operation, Post};
use crate::replay::Replay;
use left_right::Absorb;
use std::alloc::AllocError;
use std::collections::LinkedList;
use std::marker::Brand;

/// What the value of a board means when it is opened. Each call that makes a board picks it.
pub trait Opening<St>: History {
    ghost use Rattle.std.specs.Prelude.{Option};

    /// The meaning of the first value.
    ghost opening: { Option St };
}

impl<St> Opening<St> for Brand {
    ghost use Rattle.std.specs.Prelude.{None};

    ghost opening = { None };
}

/// A value, with the messages that it took since the board was opened.
#[derive(Drop)]
pub struct Published<S: Replay, H: Opening<S::State>> {
    pub(crate) value: S,
    pub(crate) prefix: Prefix<S::Msg, H>,
    /// The value means what its messages make of the opening.
    ghost follows: { ∥ meaning_after S.after H.opening prefix ≡ Some (S.meaning value) ∥₁ },
}

// The value takes the message that is next. Where the other value took it last, it follows that
// one.
fn take_message<S: Replay, H: Opening<S::State>>(
    value: &mut S,
    post: &Post<S, H>,
    other: &Published<S, H>,
)
    requires { ∥ meaning_after S.after H.opening post.now.before
        ≡ Some (S.meaning value.old) ∥₁ }
    ensures { S.meaning value.new ≡ S.after (S.meaning value.old) post.now.message }
{
    if other.prefix.is_same(&post.after) {
        value.follow(&post.message, &other.value);
    } else {
        value.step(&post.message);
    }
}

impl<S: Replay, H: Opening<S::State>> Published<S, H> {
    pub(crate) fn at_opening(value: S, empty: Prefix<S::Msg, H>) -> Published<S, H>
        requires { (empty ≡ []) × (H.opening ≡ Some (S.meaning value)) }
        ensures { (result.value ≡ value) × (result.prefix ≡ []) }
    {
        Published {
            value,
            prefix: empty,
        }
    }

    // Takes the message if it is the next one.
    fn take_in(&mut self, post: &Post<S, H>, other: &Published<S, H>)
        ensures { (S.meaning self.new.value, self.new.prefix)
            ≡ taken_in S.after (S.meaning self.old.value, self.old.prefix)
            post.now.message post.now.before }
    {
        if self.prefix.is_same(&post.before) {
            take_message(&mut self.value, post, other);
            self.prefix = post.after.copy();
        }
    }
}

impl<S: Replay, H: Opening<S::State>> Absorb<Operation<S, H>> for Published<S, H> {
    ghost use Rattle.snapshot_board.specs.Operations.{applied_to};

    type State = (S::State, LinkedList<S::Msg>);

    ghost state = { λ p. (S.meaning p.value, p.prefix) };

    ghost applied = { applied_to S.after };

    ghost never_fails = { Unit {0} };

    fn absorb_first(
        &mut self,
        operation: &Operation<S, H>,
        other: &Published<S, H>,
    ) -> Result<(), AllocError> {
        match operation {
            Operation::MakeRoom => {}
            Operation::Post(post) => self.take_in(post, other),
        }
        Ok(())
    }
}
