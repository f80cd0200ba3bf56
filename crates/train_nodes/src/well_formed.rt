//! Messages as they are read.

ghost use Rattle.std.specs.Prelude.{◌≡◌, ◌<◌, ◌^◌, IfOk, length};
ghost use Rattle.delay_model.specs.Messages.{IsWellFormed};
ghost use Rattle.train_nodes.specs.Kinds.{HasFewCalls};

use delay_model::messages::Message;
use mt_base::memory::{OutOfMemory, copy_with_room};
use mt_base::new_calls::NewCall;
use mt_base::rows::Rows;
use std::alloc::Global;
use std::marker::Model;

/// A message whose times are below 2^24 seconds, whose extra train has two calls at least, and
/// whose feeder is an arrival and its train a departure, and which makes fewer than 2^31 new calls.
/// It may still be refused.
#[derive(Drop)]
pub struct Msg {
    message: Message,
}

impl Model for Msg {
    ghost use Rattle.delay_model.specs.declared.messages.Message.{Message};
    ghost use Rattle.delay_model.specs.Messages.{IsWellFormed};
    ghost use Rattle.train_nodes.specs.Kinds.{HasFewCalls};

    ghost Value = { Message };

    ghost view = { λ m. m.message };

    ghost invariant = { λ m. IsWellFormed m.message × HasFewCalls m.message };
}

impl Msg {
    /// A well-formed message of few new calls.
    pub fn new(message: Message) -> Msg
        requires well_formed { IsWellFormed message }
        requires few { HasFewCalls message }
        ensures { result ≡ message }
    {
        Msg { message }
    }

    /// What it says.
    pub fn message(&self) -> &Message
        ensures says { result.now ≡ self.now }
        ensures kept { IsWellFormed self.now }
        ensures few { HasFewCalls self.now }
    {
        &self.message
    }

    /// The same message once more. `OutOfMemory` where there is no memory.
    pub fn copy(&self, alloc: Global) -> Result<Msg, OutOfMemory>
        ensures { IfOk result (λ copy. copy ≡ self.now) }
    {
        Ok(Msg {
            message: copy_message(alloc, &self.message)?,
        })
    }
}

fn copy_message(alloc: Global, message: &Message) -> Result<Message, OutOfMemory>
    requires { HasFewCalls message.now }
    ensures { IfOk result (λ copy. copy ≡ message.now) }
{
    Ok(match message {
        Message::Report { node, time } => Message::Report {
            node: *node,
            time: *time,
        },
        Message::Forecast { node, time } => Message::Forecast {
            node: *node,
            time: *time,
        },
        Message::Correct { node, time } => Message::Correct {
            node: *node,
            time: *time,
        },
        Message::Withdraw { node } => Message::Withdraw { node: *node },
        Message::Cancel { train, from, to } => Message::Cancel {
            train: *train,
            from: *from,
            to: *to,
        },
        Message::Reroute {
            train,
            from,
            to,
            via,
        } => Message::Reroute {
            train: *train,
            from: *from,
            to: *to,
            via: copy_calls(alloc, via)?,
        },
        Message::Extra {
            train,
            day,
            route,
            calls,
        } => Message::Extra {
            train: *train,
            day: *day,
            route: *route,
            calls: copy_calls(alloc, calls)?,
        },
        Message::Keep { feeder, train } => Message::Keep {
            feeder: *feeder,
            train: *train,
        },
        Message::Drop { feeder, train } => Message::Drop {
            feeder: *feeder,
            train: *train,
        },
        Message::Rule { feeder, train } => Message::Rule {
            feeder: *feeder,
            train: *train,
        },
    })
}

fn copy_calls(alloc: Global, calls: &Rows<NewCall>) -> Result<Rows<NewCall>, OutOfMemory>
    requires { length calls.now < 2 ^ 32 }
    ensures { IfOk result (λ copy. copy ≡ calls.now) }
{
    Ok(Rows::build(copy_with_room(alloc, calls.as_slice(), 0)?))
}
