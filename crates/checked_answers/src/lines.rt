//! What `check` writes to each line.

ghost use Rattle.std.specs.Prelude.{◌≡◌, ◌+◌, ◌-◌, ◌^◌, ◌<◌, ◌≤◌, IfOk, OnOk, Ok, Err, length};
ghost use Rattle.message_reader.specs.CheckLines.{check_line_of, IsCheckLine};
ghost use Rattle.message_reader.specs.Wires.{IsLine};
ghost use Rattle.mt_io.specs.Lines.{short};
ghost use Rattle.information_service.specs.ServiceState.{after_line, after_said};
ghost use Rattle.checked_answers.specs.CheckedLines.{IsBadText, IsReplyText, IsSaidText, after_checked};

use crate::claims::judged_text;
use crate::queries::query_text;
use delay_report::{Reply, reply_text};
use information_service::{AnswerLines, InformationService, InputLine, LinesFault};
use message_reader::{BadLine, CheckLine, Line, LineError, read_check_line};
use mt_base::memory::OutOfMemory;
use mt_io::Sink;
use schedule_build::Directory;
use std::alloc::{AllocError, Global};

/// The text of the reply to a line that is bad.
fn bad_text(
    alloc: Global,
    directory: &Directory,
    line: u64,
    bad: BadLine,
) -> Result<Vec<u8>, OutOfMemory>
    ensures { IfOk result (λ text. IsBadText directory.now line bad text.items) }
{
    reply_text(alloc, &Reply::Bad { line, bad }, directory)
}

/// The text of the reply to a line that is no claim, which may change the timetable and add a name.
fn said_text(
    alloc: Global,
    service: &mut InformationService,
    line: u64,
    said: &Line,
) -> Result<Vec<u8>, OutOfMemory>
    requires kept { IsLine said.now }
    requires count { service.old.count < 2 ^ 64 - 1 }
    ensures text { IfOk result (λ text. IsSaidText service.old line said.now text.items
        service.new) }
    ensures next { OnOk result (service.new ≡ after_said service.old (Ok said.now)) }
    ensures counts { service.new.count ≤ service.old.count + 1 }
{
    if let Line::Query(query) = said {
        return query_text(alloc, service, line, query);
    }
    let reply = service.answer_said(alloc, line, said)?;
    reply_text(alloc, &reply, service.directory())
}

/// The text of the reply to what was read of a line.
fn checked_line_text(
    alloc: Global,
    service: &mut InformationService,
    line: u64,
    said: CheckLine,
) -> Result<Vec<u8>, OutOfMemory>
    requires kept { IsCheckLine said }
    requires count { service.old.count < 2 ^ 64 - 1 }
    ensures text { IfOk result (λ text. IsReplyText service.old line (Ok said) text.items
        service.new) }
    ensures next { OnOk result (service.new ≡ after_checked service.old (Ok said)) }
    ensures counts { service.new.count ≤ service.old.count + 1 }
{
    match said {
        CheckLine::Line(said) => said_text(alloc, service, line, &said),
        CheckLine::Claim(claim) => judged_text(alloc, service, line, claim),
    }
}

/// The text of the reply to a line that is not long, without its line end.
fn short_text(
    alloc: Global,
    service: &mut InformationService,
    line: u64,
    bytes: &[u8],
) -> Result<Vec<u8>, OutOfMemory>
    requires count { service.old.count < 2 ^ 64 - 1 }
    requires few { length bytes.now < 2 ^ 31 }
    ensures text { IfOk result (λ text. IsReplyText service.old line
        (check_line_of service.old.names bytes.now) text.items service.new) }
    ensures next { OnOk result (service.new ≡ after_line service.old (short bytes.now)) }
    ensures counts { service.new.count ≤ service.old.count + 1 }
{
    match read_check_line(alloc, bytes, service.directory()) {
        Ok(said) => checked_line_text(alloc, service, line, said),
        Err(LineError::Bad(bad)) => bad_text(alloc, service.directory(), line, bad),
        Err(LineError::OutOfMemory) => Err(AllocError),
    }
}

/// Answers each query with what shows that its answer is right, and says of each claim whether what
/// comes with it shows that it is right. It writes no table.
pub struct CheckLines;

impl AnswerLines<()> for CheckLines {
    ghost use Rattle.checked_answers.specs.CheckedLines.{checked_output};

    ghost output = { checked_output };

    fn begin(
        alloc: Global,
        _service: &InformationService,
        _kept: &(),
    ) -> Result<Vec<u8>, OutOfMemory> {
        Ok(Vec::new(alloc))
    }

    fn answer(
        alloc: Global,
        service: &mut InformationService,
        _kept: &mut (),
        number: u64,
        line: &InputLine<'_>,
    ) -> Result<Vec<u8>, OutOfMemory> {
        match line {
            InputLine::Short(bytes) => short_text(alloc, service, number, bytes),
            InputLine::Long => bad_text(alloc, service.directory(), number, BadLine::Long),
        }
    }

    fn end<K: Sink>(
        _alloc: Global,
        _service: &InformationService,
        _kept: &(),
        _out: &mut K,
    ) -> Result<(), LinesFault> {
        Ok(())
    }

    fn networks_are_written_alike() {}
}
