//! What is done right behind an accepted message, by the timetable that took it.

ghost use Rattle.std.specs.Prelude.{◌≡◌, ◌+◌, ◌<◌, ◌≤◌, ◌-◌, ◌^◌, Ok, IfOk, OnOk};
ghost use Rattle.message_reader.specs.declared.wire.Line.TheVariants.{Message as Says};
ghost use Rattle.message_reader.specs.Resolved.{resolved};
ghost use Rattle.message_reader.specs.Wires.{IsWire};
ghost use Rattle.schedule_build.specs.InStep.{AreInStep};
ghost use Rattle.information_service.specs.Following.{IsFollowed, IsLeft, IsTaken, is_accepted};
ghost use Rattle.information_service.specs.Taking.{service_with};
ghost use Rattle.information_service.specs.Output.{reply_to_message};
ghost use Rattle.information_service.specs.ServiceState.{after_said};

use crate::service::InformationService;
use crate::taking::{InPlace, take_wire};
use delay_report::Reply;
use message_reader::Wire;
use mt_base::memory::OutOfMemory;
use schedule_build::Directory;
use std::alloc::Global;
use timetable::Timetable;

/// What is done right behind each accepted message, by what the timetable has then. `C` is the type
/// of what is kept beside it, and `R` that of what is told.
pub trait FollowMessages<C, R> {
    ghost use Rattle.std.specs.Prelude.{IfOk};
    ghost use Rattle.delay_model.specs.declared.network.Network.{Network};
    ghost use Rattle.delay_model.specs.declared.state.State.{State};
    ghost use Rattle.information_service.specs.Following.{HasJustTaken};

    /// What is to hold before the message, in its state, of what is kept.
    ghost ready: { Network → State → C → Type 0 };

    /// In the state after the message, what was kept, what is told, and what is kept then.
    ghost follows: { Network → State → C → R → C → Type 0 };

    /// What is told behind a message that the timetable has just taken. `OutOfMemory` where there
    /// is no memory.
    fn follow(alloc: Global, timetable: &Timetable, kept: &mut C) -> Result<R, OutOfMemory>
        requires { HasJustTaken ready timetable.now kept.old }
        ensures { IfOk result (λ told. follows timetable.now.network timetable.now.state kept.old
            told kept.new) };
}

/// The reply to a message, and what is told behind it.
#[derive(Drop)]
pub struct Followed<R> {
    /// The reply.
    pub reply: Reply,
    /// What is told. None exactly where the message is not accepted.
    pub told: Option<R>,
}

/// Whether it is the reply to an accepted message.
fn is_accepted(reply: &Reply) -> bool
    ensures { result ≡ is_accepted reply.now }
{
    match reply {
        Reply::Accepted { .. } => true,
        _ => false,
    }
}

/// Takes a message, if it is accepted, with its reply and what `F` tells behind it then.
fn take_told<F: FollowMessages<C, R>, C, R>(
    alloc: Global,
    timetable: &mut Timetable,
    directory: &mut Directory,
    number: u64,
    wire: &Wire,
    kept: &mut C,
) -> Result<Followed<R>, OutOfMemory>
    requires wire { IsWire wire.now }
    requires count { timetable.old.count < 2 ^ 64 - 1 }
    requires in_step { AreInStep directory.old timetable.old.state }
    requires ready { F.ready timetable.old.network timetable.old.state kept.old }

    ensures taken { IfOk result (λ f. IsTaken timetable.old timetable.new number wire.now
        directory.old directory.new f.reply) }
    ensures followed { IfOk result (λ f. IsFollowed F.follows
        (service_with timetable.old timetable.old.count directory.old)
        (resolved directory.old wire.now) kept.old f.told kept.new) }
    ensures left { IsLeft timetable.old timetable.new directory.new }
{
    timetable.state_is_valid();
    let reply = take_wire::<InPlace, Timetable, ()>(
        alloc,
        &(),
        timetable,
        directory,
        number,
        wire,
    )?;
    if !is_accepted(&reply) {
        return Ok(Followed { reply, told: None });
    }
    let told = F::follow(alloc, timetable, kept)?;
    Ok(Followed {
        reply,
        told: Some(told),
    })
}

impl InformationService {
    /// The reply to a message, which is taken if it is accepted, and what `F` tells behind it then.
    /// After `OutOfMemory`, where there is no memory, it may be taken with nothing told.
    pub fn take_followed<F: FollowMessages<C, R>, C, R>(
        &mut self,
        alloc: Global,
        number: u64,
        wire: &Wire,
        kept: &mut C,
    ) -> Result<Followed<R>, OutOfMemory>
        requires wire { IsWire wire.now }
        requires count { self.old.count < 2 ^ 64 - 1 }
        requires ready { F.ready self.old.network self.old.state kept.old }

        ensures reply { IfOk result (λ f. f.reply ≡ reply_to_message self.old.network
            self.old.names self.old.state self.old.count number wire.now
            (resolved self.old.names wire.now)) }
        ensures next { OnOk result (self.new ≡ after_said self.old (Ok (Says wire.now))) }
        ensures followed { IfOk result (λ f. IsFollowed F.follows self.old
            (resolved self.old.names wire.now) kept.old f.told kept.new) }
        ensures counts { self.new.count ≤ self.old.count + 1 }
    {
        take_told::<F, C, R>(
            alloc,
            &mut self.timetable,
            &mut self.directory,
            number,
            wire,
            kept,
        )
    }
}
