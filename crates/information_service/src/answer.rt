//! The answer to a line: the reply, and what the line does to the timetable and its names.

ghost use Rattle.std.specs.Prelude.{◌≡◌, ◌<◌, ◌-◌, ◌^◌, Ok, Err, IfOk, IfErr, OnOk, length};
ghost use Rattle.message_reader.specs.declared.wire.Line.TheVariants.{Message as Says};
ghost use Rattle.message_reader.specs.Resolved.{resolved};
ghost use Rattle.message_reader.specs.ResolvedQueries.{query_resolved};
ghost use Rattle.message_reader.specs.Wires.{IsLine, IsWire, IsWireQuery};
ghost use Rattle.mt_io.specs.Lines.{short};
ghost use Rattle.information_service.specs.Answering.{given_line, HasFewBytes};
ghost use Rattle.information_service.specs.Output.{reply_to_message, IsReply, IsReplyTo, IsReplyToResolved};
ghost use Rattle.information_service.specs.ServiceState.{after_line, after_said};

use crate::answering::InputLine;
use crate::replies::reply_to_asked;
use crate::service::InformationService;
use crate::taking::{InPlace, take_wire};
use delay_report::Reply;
use message_reader::{BadLine, Line, LineError, Wire, WireQuery, resolve_query};
use mt_base::memory::OutOfMemory;
use schedule_build::Directory;
use std::alloc::{AllocError, Global};
use timetable::Timetable;

/// The reply to a message that speaks by names.
fn reply_to_wire(
    alloc: Global,
    service: &mut InformationService,
    number: u64,
    wire: &Wire,
) -> Result<Reply, OutOfMemory>
    requires kept { IsWire wire.now }
    requires count { service.old.count < 2 ^ 64 - 1 }
    ensures reply { IfOk result (λ r. r ≡ reply_to_message service.old.network service.old.names
        service.old.state service.old.count number wire.now (resolved service.old.names wire.now)) }
    ensures next { OnOk result (service.new ≡ after_said service.old (Ok (Says wire.now))) }
    ensures unchanged { IfErr result (λ _. service.new ≡ service.old) }
{
    take_wire::<InPlace, Timetable, ()>(
        alloc,
        &(),
        &mut service.timetable,
        &mut service.directory,
        number,
        wire,
    )
}

/// The reply to a query by names. Who asks it has no use here.
fn reply_to_wire_query(
    alloc: Global,
    service: &mut InformationService,
    number: u64,
    query: &WireQuery,
) -> Result<Reply, OutOfMemory>
    requires times { IsWireQuery query.now }
    ensures reply { IfOk result (IsReplyToResolved service.old.network service.old.state
        service.old.count number (query_resolved service.old.names query.now)) }
    ensures kept { service.new ≡ service.old }
{
    match resolve_query(query, &service.directory) {
        Ok(asked) => {
            let after = service.timetable.count();
            reply_to_asked(
                alloc,
                &service.timetable,
                &mut service.scratch,
                number,
                after,
                &asked,
            )
        }
        Err(bad) => Ok(Reply::Bad { line: number, bad }),
    }
}

/// The reply to a line that is not long, without its line end.
fn reply_to_bytes(
    alloc: Global,
    service: &mut InformationService,
    number: u64,
    line: &[u8],
) -> Result<Reply, OutOfMemory>
    requires count { service.old.count < 2 ^ 64 - 1 }
    requires few { length line.now < 2 ^ 31 }
    ensures reply { IfOk result (IsReplyTo service.old number (short line.now)) }
    ensures next { OnOk result (service.new ≡ after_line service.old (short line.now)) }
    ensures unchanged { IfErr result (λ _. service.new ≡ service.old) }
{
    match service.read_line(alloc, line) {
        Ok(said) => service.answer_said(alloc, number, &said),
        Err(LineError::Bad(bad)) => Ok(Reply::Bad { line: number, bad }),
        Err(LineError::OutOfMemory) => Err(AllocError),
    }
}

impl InformationService {
    /// The reply to what a line of this number says, which may change the timetable and add a name.
    /// Want of memory is the only error, and then nothing has changed.
    pub fn answer_said(
        &mut self,
        alloc: Global,
        number: u64,
        said: &Line,
    ) -> Result<Reply, OutOfMemory>
        requires kept { IsLine said.now }
        requires count { self.old.count < 2 ^ 64 - 1 }
        ensures reply { IfOk result (IsReply self.old.network self.old.names self.old.state
            self.old.count number (Ok said.now)) }
        ensures next { OnOk result (self.new ≡ after_said self.old (Ok said.now)) }
        ensures unchanged { IfErr result (λ _. self.new ≡ self.old) }
    {
        match said {
            Line::Message(wire) => reply_to_wire(alloc, self, number, wire),
            Line::Query(query) => reply_to_wire_query(alloc, self, number, query),
            Line::Flush => Ok(Reply::Flush {
                line: number,
                count: self.timetable.count(),
            }),
        }
    }

    /// The reply to a line of the input, which has this number from 1 on. Its message is taken if
    /// the timetable accepts it, its query is answered by a journey, a flush by the number of
    /// accepted messages, and a bad line by its fault. Want of memory is the only error, and then
    /// nothing has changed.
    pub fn answer(
        &mut self,
        alloc: Global,
        number: u64,
        line: &InputLine<'_>,
    ) -> Result<Reply, OutOfMemory>
        requires count { self.old.count < 2 ^ 64 - 1 }
        requires few { HasFewBytes (given_line line.now) }
        ensures reply { IfOk result (IsReplyTo self.old number (given_line line.now)) }
        ensures next { OnOk result (self.new ≡ after_line self.old (given_line line.now)) }
        ensures unchanged { IfErr result (λ _. self.new ≡ self.old) }
    {
        match line {
            InputLine::Short(bytes) => reply_to_bytes(alloc, self, number, bytes),
            InputLine::Long => Ok(Reply::Bad {
                line: number,
                bad: BadLine::Long,
            }),
        }
    }

    /// The names that are known.
    pub fn directory(&self) -> &Directory
        ensures { result.now ≡ self.now.names }
    {
        &self.directory
    }

    /// How many messages were accepted. Past 2^64 - 1 it stays there.
    pub fn count(&self) -> u64
        ensures { result ≡ self.now.count }
    {
        self.timetable.count()
    }
}
