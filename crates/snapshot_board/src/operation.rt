//! What changes the published value.

ghost use Rattle.std.specs.Prelude.{◌≡◌, ◌++◌, ◌∷◌, []};
ghost use Rattle.snapshot_board.specs.States.{FitsAfter};

use crate::history::Prefix;
use crate::published::Opening;
use crate::replay::Replay;

/// A message that fits, with the history before it and after it.
#[derive(Drop)]
pub struct Post<S: Replay, H: Opening<S::State>> {
    pub(crate) message: S::Msg,
    pub(crate) before: Prefix<S::Msg, H>,
    pub(crate) after: Prefix<S::Msg, H>,
    /// The history after it is one message longer.
    ghost next: { after ≡ before ++ message ∷ [] },
    /// The message fits in the meaning after the history before it.
    ghost fits: { ∥ FitsAfter S.after S.fits H.opening before message ∥₁ },
}

/// What is appended to the log of the two copies.
#[derive(Drop)]
pub enum Operation<S: Replay, H: Opening<S::State>> {
    /// Changes nothing. It has the log take room for one more operation.
    MakeRoom,
    /// The value takes the message.
    Post(Post<S, H>),
}
