//! Messages taken, whoever holds the timetable.

ghost use Rattle.std.specs.Prelude.{◌≡◌, ◌<◌, ◌-◌, ◌^◌, Ok, None, IfOk, IfErr};
ghost use Rattle.delay_model.specs.Messages.{IsWellFormed};
ghost use Rattle.delay_model.specs.Refusals.{refusal};
ghost use Rattle.delay_model.specs.Touched.{changed_count};
ghost use Rattle.message_reader.specs.Resolved.{resolved};
ghost use Rattle.message_reader.specs.Wires.{IsWire};
ghost use Rattle.timetable.specs.TimetableState.{stepped};
ghost use Rattle.information_service.specs.Taking.{CanTake, CanTakeAccepted, IsTakenFrom};

use crate::replies::{add_name, added_name, reply_to_refused};
use delay_report::Reply;
use message_reader::{ResolveError, Wire, resolve};
use mt_base::memory::OutOfMemory;
use schedule_build::Directory;
use std::alloc::{AllocError, Global};
use std::marker::Brand;
use std::sync::ledger::{Blank, Ledger};
use timetable::Timetable;
use train_nodes::{Msg, Steps};

/// How a timetable takes messages that a `P` holds: a service that answers line by line, or the
/// publisher of a board. `R` is what it waits with.
pub trait TakeMessages<P, R> {
    ghost use Rattle.std.specs.Prelude.{◌≡◌, ℕ, OnOk, IfOk, IfErr};
    ghost use Rattle.delay_model.specs.declared.messages.Message.{Message};
    ghost use Rattle.delay_model.specs.Touched.{changed_count};
    ghost use Rattle.timetable.specs.TimetableState.{TimetableState};
    ghost use Rattle.information_service.specs.Taking.{Accepts};

    /// It holds this timetable, after so many accepted messages.
    ghost holds: { P → TimetableState → ℕ → Type 0 };

    /// It was as the first, took the message, and is as the second.
    ghost takes: { P → Message → P → Type 0 };

    /// The timetable.
    fn timetable(holder: &P) -> &Timetable
        ensures { (t : TimetableState) (count : ℕ) → holds holder.now t count → result.now ≡ t };

    /// How many messages were accepted.
    fn count(holder: &P) -> u64
        ensures { (t : TimetableState) (count : ℕ) → holds holder.now t count → result ≡ count };

    /// Takes an accepted message, and answers how many events it changes. `OutOfMemory` where there
    /// is no memory; then nothing has changed.
    fn take(holder: &mut P, rt: &R, message: Msg) -> Result<u64, OutOfMemory>
        requires accepted { Accepts holds holder.old message }
        ensures taken { OnOk result (takes holder.old message holder.new) }
        ensures changed { IfOk result (λ changed. (t : TimetableState) (count : ℕ)
            → holds holder.old t count → changed ≡ changed_count t.network t.state message) }
        ensures unchanged { IfErr result (λ _. holder.new ≡ holder.old) };
}

/// A timetable that takes messages where it stands.
pub(crate) struct InPlace;

/// Takes an accepted message. The steps that it counts are not used.
fn take_in_place<L: Ledger>(timetable: &mut Timetable, message: &Msg, blank: Blank) -> u64
    requires accepted { refusal timetable.old.network timetable.old.state message.now ≡ None }

    // the blank has the name and the parts of the ledger
    requires name { blank.name ≡ L.name }
    requires parts { blank.parts ≡ L.parts }
    requires some { 0 < blank.parts }

    ensures effect { timetable.new ≡ stepped timetable.old message.now }
    ensures changed { result ≡ changed_count timetable.old.network timetable.old.state
        message.now }
{
    let mut steps = Steps::<L>::open(blank);
    timetable.take(message, &mut steps)
}

impl TakeMessages<Timetable, ()> for InPlace {
    ghost use Rattle.information_service.specs.Taking.{IsTimetable, IsStepped};

    ghost holds = { IsTimetable };

    ghost takes = { IsStepped };

    fn timetable(holder: &Timetable) -> &Timetable {
        holder
    }

    fn count(holder: &Timetable) -> u64 {
        holder.count()
    }

    fn take(holder: &mut Timetable, _rt: &(), message: Msg) -> Result<u64, OutOfMemory> {
        Ok(take_in_place::<Brand>(holder, &message, Blank::new(1)))
    }
}

/// The reply to a message that is accepted, which is taken. The name of a train that it adds is
/// known from then on.
fn take_accepted<T: TakeMessages<P, R>, P, R>(
    alloc: Global,
    rt: &R,
    holder: &mut P,
    directory: &mut Directory,
    number: u64,
    wire: &Wire,
    message: Msg,
) -> Result<Reply, OutOfMemory>
    requires ready { CanTakeAccepted T.holds holder.old directory.old message }
    requires resolved { resolved directory.old wire.now ≡ Ok message }
    ensures taken { IfOk result (λ reply. IsTakenFrom T.holds T.takes number wire.now holder.old
        holder.new directory.old directory.new reply) }
    ensures unchanged { IfErr result (λ _. holder.new ≡ holder.old) }
    ensures names { IfErr result (λ _. directory.new ≡ directory.old) }
{
    let name = added_name(alloc, directory, wire)?;
    let accepted = T::count(holder) + 1;
    let changed = T::take(holder, rt, message)?;
    add_name(directory, name);
    Ok(Reply::Accepted {
        line: number,
        number: accepted,
        changed,
    })
}

/// The reply to a message, which is taken if it is accepted. This is where it is checked, and the
/// only place.
fn take_message<T: TakeMessages<P, R>, P, R>(
    alloc: Global,
    rt: &R,
    holder: &mut P,
    directory: &mut Directory,
    number: u64,
    wire: &Wire,
    message: Msg,
) -> Result<Reply, OutOfMemory>
    requires ready { CanTake T.holds holder.old directory.old }
    requires resolved { resolved directory.old wire.now ≡ Ok message }
    ensures taken { IfOk result (λ reply. IsTakenFrom T.holds T.takes number wire.now holder.old
        holder.new directory.old directory.new reply) }
    ensures unchanged { IfErr result (λ _. holder.new ≡ holder.old) }
    ensures names { IfErr result (λ _. directory.new ≡ directory.old) }
{
    match T::timetable(holder).check(&message) {
        Ok(()) => { take_accepted::<T, P, R>(alloc, rt, holder, directory, number, wire, message) }
        Err(refusal) => reply_to_refused(alloc, directory, number, wire, &refusal),
    }
}

/// The reply to a message that speaks by names, in the line of this number. It is taken if the
/// timetable accepts it, and the name of a train that it adds is known from then on. Want of memory
/// is the only error, and then nothing has changed.
pub fn take_wire<T: TakeMessages<P, R>, P, R>(
    alloc: Global,
    rt: &R,
    holder: &mut P,
    directory: &mut Directory,
    number: u64,
    wire: &Wire,
) -> Result<Reply, OutOfMemory>
    requires ready { CanTake T.holds holder.old directory.old }
    requires kept { IsWire wire.now }
    ensures taken { IfOk result (λ reply. IsTakenFrom T.holds T.takes number wire.now holder.old
        holder.new directory.old directory.new reply) }
    ensures unchanged { IfErr result (λ _. holder.new ≡ holder.old) }
    ensures names { IfErr result (λ _. directory.new ≡ directory.old) }
    ensures formed { IfOk result (λ _. IfOk (resolved directory.old wire.now) IsWellFormed) }
{
    match resolve(alloc, wire, directory) {
        Ok(message) => {
            // It is well-formed, as a message of this type says.
            let _ = message.message();
            take_message::<T, P, R>(alloc, rt, holder, directory, number, wire, message)
        }
        Err(ResolveError::Refused(refusal)) => Ok(Reply::Refused {
            line: number,
            refusal,
        }),
        Err(ResolveError::OutOfMemory) => Err(AllocError),
    }
}
