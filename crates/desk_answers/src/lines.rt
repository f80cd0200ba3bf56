//! What `desk` writes to each line.

ghost use Rattle.std.specs.Prelude.{◌≡◌, ◌+◌, ◌-◌, ◌^◌, ◌<◌, ◌≤◌, IfOk, OnOk, Ok, Err, length};
ghost use Rattle.desk_lines.specs.DeskLines.{desk_line_of, IsDeskLine};
ghost use Rattle.message_reader.specs.Wires.{IsLine};
ghost use Rattle.mt_io.specs.Lines.{short};
ghost use Rattle.information_service.specs.ServiceState.{after_line, after_said};
ghost use Rattle.desk_answers.specs.DeskOutput.{IsBadText, IsReplyText, IsSaidText, after_desk};

use crate::questions::{departures_text, event_text};
use delay_report::{Reply, reply_text};
use desk_lines::{DeskLine, read_desk_line};
use information_service::{AnswerLines, InformationService, InputLine, LinesFault};
use message_reader::{BadLine, Line, LineError};
use mt_base::memory::OutOfMemory;
use mt_io::Sink;
use schedule_build::Directory;
use std::alloc::{AllocError, Global};

/// The text of the reply to a line that is bad.
fn bad_text(
    alloc: Global,
    directory: &Directory,
    line: u64,
    bad: BadLine,
) -> Result<Vec<u8>, OutOfMemory>
    ensures { IfOk result (λ text. IsBadText directory.now line bad text.items) }
{
    reply_text(alloc, &Reply::Bad { line, bad }, directory)
}

/// The text of the reply to a line that is no question of `desk`, which may change the timetable and
/// add a name.
fn said_text(
    alloc: Global,
    service: &mut InformationService,
    line: u64,
    said: &Line,
) -> Result<Vec<u8>, OutOfMemory>
    requires kept { IsLine said.now }
    requires count { service.old.count < 2 ^ 64 - 1 }
    ensures text { IfOk result (λ text. IsSaidText service.old line said.now text.items
        service.new) }
    ensures next { OnOk result (service.new ≡ after_said service.old (Ok said.now)) }
    ensures counts { service.new.count ≤ service.old.count + 1 }
{
    let reply = service.answer_said(alloc, line, said)?;
    reply_text(alloc, &reply, service.directory())
}

/// The text of the reply to what was read of a line.
fn desk_line_text(
    alloc: Global,
    service: &mut InformationService,
    line: u64,
    said: DeskLine,
) -> Result<Vec<u8>, OutOfMemory>
    requires kept { IsDeskLine said }
    requires count { service.old.count < 2 ^ 64 - 1 }
    ensures text { IfOk result (λ text. IsReplyText service.old line (Ok said) text.items
        service.new) }
    ensures next { OnOk result (service.new ≡ after_desk service.old (Ok said)) }
    ensures counts { service.new.count ≤ service.old.count + 1 }
{
    match said {
        DeskLine::Line(said) => said_text(alloc, service, line, &said),
        DeskLine::Departures(asked) => departures_text(alloc, service, line, &asked),
        DeskLine::Why(asked) => event_text(alloc, service, line, &asked),
    }
}

/// The text of the reply to a line that is not long, without its line end.
fn short_text(
    alloc: Global,
    service: &mut InformationService,
    line: u64,
    bytes: &[u8],
) -> Result<Vec<u8>, OutOfMemory>
    requires count { service.old.count < 2 ^ 64 - 1 }
    requires few { length bytes.now < 2 ^ 31 }
    ensures text { IfOk result (λ text. IsReplyText service.old line (desk_line_of bytes.now)
        text.items service.new) }
    ensures next { OnOk result (service.new ≡ after_line service.old (short bytes.now)) }
    ensures counts { service.new.count ≤ service.old.count + 1 }
{
    match read_desk_line(alloc, bytes) {
        Ok(said) => desk_line_text(alloc, service, line, said),
        Err(LineError::Bad(bad)) => bad_text(alloc, service.directory(), line, bad),
        Err(LineError::OutOfMemory) => Err(AllocError),
    }
}

/// Answers each line as `times` does, and questions for departures and about the time of an event. It
/// writes no table.
pub struct DeskLines;

impl AnswerLines<()> for DeskLines {
    ghost use Rattle.desk_answers.specs.DeskOutput.{desk_output};

    ghost output = { desk_output };

    fn begin(
        alloc: Global,
        _service: &InformationService,
        _kept: &(),
    ) -> Result<Vec<u8>, OutOfMemory> {
        Ok(Vec::new(alloc))
    }

    fn answer(
        alloc: Global,
        service: &mut InformationService,
        _kept: &mut (),
        number: u64,
        line: &InputLine<'_>,
    ) -> Result<Vec<u8>, OutOfMemory> {
        match line {
            InputLine::Short(bytes) => short_text(alloc, service, number, bytes),
            InputLine::Long => bad_text(alloc, service.directory(), number, BadLine::Long),
        }
    }

    fn end<K: Sink>(
        _alloc: Global,
        _service: &InformationService,
        _kept: &(),
        _out: &mut K,
    ) -> Result<(), LinesFault> {
        Ok(())
    }

    fn networks_are_written_alike() {}
}
