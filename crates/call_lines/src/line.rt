//! The calls of a train in the arena of all calls: how one is found, and what is kept along all of
//! them.

ghost use Rattle.std.specs.Prelude.{◌≡◌, ℕ, ◌<◌, MatchOption, Some, length, slice_get, vec_capacity};
ghost use Rattle.std.specs.Option.{option_or};
ghost use Rattle.call_lines.specs.Lines.{IsKnownFrom, IsTrainLine};
ghost use Rattle.call_lines.specs.Linked.{AreKnown, HasNoCurrent, IsCurrentAt, IsRenewed, call_of, call_report, next_report_of, walk};
ghost use Rattle.call_lines.specs.declared.stored_call.StoredCall.{StoredCall as ACall};

use crate::stored_call::StoredCall;
use event_numbers::Slots;
use mt_base::numbers::{Label, Time, TrainNo};

/// The slot of the call with this label, where it is one of the train's calls now.
#[inline(always)]
pub fn current_slot(calls: &[StoredCall], slots: &Slots, t: TrainNo, l: Label) -> Option<u32>
    ensures { MatchOption result (HasNoCurrent calls.now slots.now t l)
        (λ slot. IsCurrentAt calls.now slots.now t l slot) }
{
    let slot = slots.slot(t, l)?;
    if calls.get(slot as usize)?.is_current() {
        Some(slot)
    } else {
        None
    }
}

/// Gives each call of a train before the place `end`, of which the last stands in the slot `last`,
/// its place and the first report after it; `behind` is the first report from `end` on. The calls
/// at the places below `known` have theirs, as far as no report behind them changed: it goes
/// through these only while the first report after a call is another.
fn renew_line(calls: &mut Vec<StoredCall>, last: u32, end: u32, known: u32, behind: Option<Time>)
    ensures renewed { (train first to len : ℕ)
        → IsKnownFrom train first to len end last behind calls.old.items
        → AreKnown known (walk calls.old.items len first)
        → IsRenewed train first len calls.old.items calls.new.items }
    ensures capacity { vec_capacity calls.new ≡ vec_capacity calls.old }
{
    let mut slot = last as usize;
    let mut next_report = behind;
    for place in (0..end).rev() {
        if slot < calls.len() {
            if place < known && calls[slot].next_report() == next_report {
                return;
            }
            next_report = calls[slot].renew(place, next_report);
            slot = calls[slot].before() as usize;
        }
    }
}

/// Gives each call of a train, so many, its place and the first report after it.
pub fn renew_train(calls: &mut Vec<StoredCall>, slots: &Slots, t: TrainNo, len: u32)
    requires there { t < length slots.now.trains }
    ensures renewed { (first : ℕ) → IsTrainLine slots.now t first len calls.old.items
        → IsRenewed t first len calls.old.items calls.new.items }
    ensures capacity { vec_capacity calls.new ≡ vec_capacity calls.old }
{
    renew_behind(calls, slots, t, len, 0);
}

/// The same where the calls at the places below `known` know their places, and each the first
/// report after it as far as the next of them tells it. It goes back to the last of them, and
/// further only while the first report after a call is another.
pub fn renew_behind(calls: &mut Vec<StoredCall>, slots: &Slots, t: TrainNo, len: u32, known: u32)
    requires there { t < length slots.now.trains }
    ensures renewed { (first : ℕ) → IsTrainLine slots.now t first len calls.old.items
        → AreKnown known (walk calls.old.items len first)
        → IsRenewed t first len calls.old.items calls.new.items }
    ensures capacity { vec_capacity calls.new ≡ vec_capacity calls.old }
{
    slots.numbers_are_lawful();
    let last = slots.loaded(t) - 1;
    if let Some(slot) = slots.slot(t, Label::new(last)) {
        renew_line(calls, slot, len, known, None);
    }
}

/// The same where the report of the call in a slot alone was changed, so that this call and those
/// behind it know theirs: it goes back from it only while the first report after a call is another.
pub fn renew_before(calls: &mut Vec<StoredCall>, slot: u32)
    requires there { slot < length calls.old.items }
    ensures renewed { (train first last len : ℕ) (x : ACall)
        → slice_get calls.old.items slot ≡ Some x
        → IsKnownFrom train first last len x.place x.before
        (option_or (call_report (call_of x)) (next_report_of x)) calls.old.items
        → AreKnown x.place (walk calls.old.items len first)
        → IsRenewed train first len calls.old.items calls.new.items }
    ensures capacity { vec_capacity calls.new ≡ vec_capacity calls.old }
{
    let call = &calls[slot as usize];
    let (place, before) = (call.place(), call.before());
    let next_report = call.report().or(call.next_report());
    renew_line(calls, before, place, place, next_report);
}
