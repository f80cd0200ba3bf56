//! How an operation is published.

ghost use Rattle.std.specs.Prelude.{◌≡◌, ◌++◌, ◌∷◌, [], drop, fold, MatchResult};
ghost use Rattle.snapshot_board.specs.Operations.{applied_to};

use crate::operation::Operation;
use crate::published::{Opening, Published};
use crate::replay::Replay;
use core::mem::replace_with;
use crossbeam_utils::rule::Unruled;
use left_right::writer::Writer;
use std::alloc::{Allocator, Global};
use std::sync::Wait;

/// The writer of the published copies.
pub type BoardWriter<S, H, A = Global> = Writer<Published<S, H>, Operation<S, H>, (), Unruled, A>;

// The same with the writer by value.
fn publish_owned<S: Replay, H: Opening<S::State>, A: Allocator, R: Wait>(
    rt: &R,
    writer: BoardWriter<S, H, A>,
    operation: Operation<S, H>,
) -> (BoardWriter<S, H, A>, Result<(), Operation<S, H>>)
    ensures { let old = writer.desk.shown.value in let new = result.0.desk.shown.value in
        let waiting = drop writer.behind writer.log.items in
        let left = drop result.0.behind result.0.log.items in
        MatchResult result.1
        (λ _. ((S.meaning new.value, new.prefix) ≡ fold (applied_to S.after)
        (S.meaning old.value, old.prefix) (waiting ++ operation ∷ [])) × (left ≡ []))
        (λ back. (back ≡ operation) × (new ≡ old) × (left ≡ waiting)) }
{
    let mut writer = writer;
    match writer.append(operation) {
        Ok(()) => {
            let (writer, published) = writer.publish_as::<Unruled, R>(rt);
            published.unwrap();
            (writer, Ok(()))
        }
        Err(operation) => (writer, Err(operation)),
    }
}

/// Publishes what waits in the log and one more operation, all at once. It waits for those that
/// look at the older copy. Where there is no memory the operation is handed back.
pub(crate) fn publish<S: Replay, H: Opening<S::State>, A: Allocator, R: Wait>(
    rt: &R,
    writer: &mut BoardWriter<S, H, A>,
    operation: Operation<S, H>,
) -> Result<(), Operation<S, H>>
    ensures { let old = writer.old.desk.shown.value in let new = writer.new.desk.shown.value in
        let waiting = drop writer.old.behind writer.old.log.items in
        let left = drop writer.new.behind writer.new.log.items in
        MatchResult result
        (λ _. ((S.meaning new.value, new.prefix) ≡ fold (applied_to S.after)
        (S.meaning old.value, old.prefix) (waiting ++ operation ∷ [])) × (left ≡ []))
        (λ back. (back ≡ operation) × (new ≡ old) × (left ≡ waiting)) }
{
    replace_with(writer, operation, |writer, operation| {
        publish_owned(rt, writer, operation)
    })
}
