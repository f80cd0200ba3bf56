//! Parts of trains: how one is found by the labels of its ends, and what a cancellation and a
//! rerouting do to its calls.

ghost use Rattle.std.specs.Prelude.{◌≡◌, ◌+◌, ◌<◌, ◌≤◌, ◌^◌, Option, MatchOption, length, vec_len, vec_capacity};
ghost use Rattle.call_lines.specs.Lines.{IsPart, IsPartOf, HasNoPart, IsKilled, AreTakenOut, AreAppended, AreJoined, AreReplaced, slot_before, slot_from};

use crate::calls::{Edit, new_call};
use crate::line::current_slot;
use crate::stored_call::StoredCall;
use event_numbers::Slots;
use mt_base::new_calls::NewCall;
use mt_base::numbers::{Label, TrainNo};

/// A part of a train: from the call in the slot `from`, at the place `first`, to the call in the
/// slot `to`, at the place `last`.
#[derive(Clone, Copy)]
pub struct Part {
    /// Its train.
    pub train: TrainNo,
    /// The slot of the call with which it begins.
    pub from: u32,
    /// The slot of the call with which it ends.
    pub to: u32,
    /// The place of the first of these calls along the train.
    pub first: u32,
    /// The place of the other.
    pub last: u32,
}

/// The part of a train from one call to another that stands after it.
#[tactic(auto, using(crate::proofs::PartLemmas::slots))]
pub fn find_part(
    calls: &[StoredCall],
    slots: &Slots,
    t: TrainNo,
    from: Label,
    to: Label,
) -> Option<Part>
    ensures { MatchOption result (HasNoPart calls.now slots.now t from to)
        (λ p. IsPartOf calls.now slots.now t from to p) }
{
    let from = current_slot(calls, slots, t, from)?;
    let to = current_slot(calls, slots, t, to)?;
    let first = calls[from as usize].place();
    let last = calls[to as usize].place();
    if first < last {
        Some(Part {
            train: t,
            from,
            to,
            first,
            last,
        })
    } else {
        None
    }
}

/// Kills the events from the departure with which a part begins to the arrival with which it ends.
pub fn kill(calls: &mut Vec<StoredCall>, part: &Part)
    requires { IsPart calls.old.items part.now.train part.now.from part.now.to part.now.first
        part.now.last }
    ensures killed { IsKilled part.now.train part.now.first part.now.last calls.old.items
        calls.new.items }
    ensures capacity { vec_capacity calls.new ≡ vec_capacity calls.old }
{
    let mut slot = part.from;
    for place in part.first..part.last {
        let _ = place;
        calls[slot as usize].edit(true, Edit::Kill);
        slot = calls[slot as usize].after();
        calls[slot as usize].edit(false, Edit::Kill);
    }
}

/// Replaces the calls strictly within a part by others, which get the next slots and are labelled
/// from this label on.
pub fn replace(calls: &mut Vec<StoredCall>, part: &Part, label: Label, via: &[NewCall])
    // the part of the train, and room for the new calls and their numbers
    requires part { IsPart calls.old.items part.now.train part.now.from part.now.to part.now.first
        part.now.last }
    requires room { vec_len calls.old + length via.now ≤ vec_capacity calls.old }
    requires small { vec_len calls.old + length via.now < 2 ^ 31 }
    requires labels { label + length via.now < 2 ^ 31 }
    requires places { part.now.last + length via.now < 2 ^ 31 }

    // what became of the calls
    ensures replaced { AreReplaced part.now.train part.now.from part.now.to part.now.first
        part.now.last label via.now calls.old.items calls.new.items }
    ensures capacity { vec_capacity calls.new ≡ vec_capacity calls.old }
{
    let first = calls.len() as u32;
    take_out(calls, part);
    push_via(calls, part, label, via);
    join(calls, part, first, via.len() as u32);
}

/// Takes the calls strictly within a part out of their train.
fn take_out(calls: &mut Vec<StoredCall>, part: &Part)
    requires { IsPart calls.old.items part.now.train part.now.from part.now.to part.now.first
        part.now.last }
    ensures out { AreTakenOut part.now.train part.now.first part.now.last calls.old.items
        calls.new.items }
    ensures capacity { vec_capacity calls.new ≡ vec_capacity calls.old }
{
    let last = part.last;
    let mut slot = part.from;
    for place in part.first + 1..last {
        let _ = place;
        slot = calls[slot as usize].after();
        calls[slot as usize].take_out();
    }
}

/// Appends the calls of a rerouting, labelled from this label on, between the ends of a part.
#[tactic(auto, using(crate::proofs::LoadedLemmas::pushing))]
fn push_via(calls: &mut Vec<StoredCall>, part: &Part, label: Label, via: &[NewCall])
    requires room { vec_len calls.old + length via.now ≤ vec_capacity calls.old }
    requires small { vec_len calls.old + length via.now < 2 ^ 31 }
    requires labels { label + length via.now < 2 ^ 31 }
    requires places { part.now.first + 1 + length via.now < 2 ^ 32 }
    ensures appended { AreAppended part.now.train part.now.from part.now.to label via.now
        (length via.now) calls.old.items calls.new.items }
    ensures capacity { vec_capacity calls.new ≡ vec_capacity calls.old }
{
    let first = calls.len() as u32;
    let count = via.len() as u32;
    for i in 0..count {
        let before = slot_before(part.from, first, i);
        let after = slot_from(part.to, first, count, i + 1);
        let call = new_call(Label::new(label.get() + i), &via[i as usize]);
        let place = part.first + 1 + i;
        calls.push_reserved(StoredCall::new(part.train, place, before, after, &call));
    }
}

/// Lets the ends of a part lead to each other over so many new calls, of which the first has the
/// slot `new`.
#[tactic(auto, using(crate::proofs::PartLemmas::slots))]
fn join(calls: &mut Vec<StoredCall>, part: &Part, new: u32, count: u32)
    requires from { part.now.from < vec_len calls.old }
    requires to { part.now.to < vec_len calls.old }
    requires small { new + count < 2 ^ 32 }
    ensures joined { AreJoined part.now.from part.now.to new count calls.old.items calls.new.items }
    ensures capacity { vec_capacity calls.new ≡ vec_capacity calls.old }
{
    calls[part.from as usize].set_after(slot_from(part.to, new, count, 0));
    calls[part.to as usize].set_before(slot_before(part.from, new, count));
}

/// The slot before that of the new call of this number: new calls have the slots from `new` on,
/// after the call in the slot `from`.
fn slot_before(from: u32, new: u32, number: u32) -> u32
    requires { new + number < 2 ^ 32 }
    ensures { result ≡ slot_before from new number }
{
    if number == 0 { from } else { new + number - 1 }
}

/// The slot of the new call of this number, or after all new ones that of the call that follows
/// them.
fn slot_from(to: u32, new: u32, count: u32, number: u32) -> u32
    requires { new + number < 2 ^ 32 }
    ensures { result ≡ slot_from to new count number }
{
    if number == count { to } else { new + number }
}
