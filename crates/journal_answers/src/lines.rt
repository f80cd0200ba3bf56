//! The lines of the messages that are accepted.

ghost use Rattle.std.specs.Prelude.{◌≡◌, ◌+◌, ◌-◌, ◌<◌, ◌≤◌, ◌^◌, Ok, IfOk, OnOk, length};
ghost use Rattle.information_service.specs.ServiceState.{after_line, after_said};
ghost use Rattle.message_reader.specs.declared.wire.Line.TheVariants.{Message as Says};
ghost use Rattle.message_reader.specs.Wires.{IsWire};
ghost use Rattle.mt_io.specs.Lines.{short};
ghost use Rattle.journal_answers.specs.JournaledLines.{said_text, text_by};

use crate::header::HeaderText;
use information_service::{AnswerLines, InformationService, InputLine, LinesFault};
use journal_lines::append_line;
use message_reader::{Line, LineError, Wire};
use mt_base::memory::OutOfMemory;
use mt_io::Sink;
use std::alloc::{AllocError, Global};

/// The line of a message, if the service accepts it, which takes it then; else nothing.
fn message_text(
    alloc: Global,
    service: &mut InformationService,
    number: u64,
    message: Wire,
) -> Result<Vec<u8>, OutOfMemory>
    requires wire { IsWire message }
    requires count { service.old.count < 2 ^ 64 - 1 }
    ensures text { IfOk result (λ text. text.items ≡ said_text service.old (Ok (Says message))) }
    ensures next { OnOk result (service.new ≡ after_said service.old (Ok (Says message))) }
    ensures count { service.new.count ≤ service.old.count + 1 }
{
    let text = append_line(alloc, &message)?;
    let before = service.count();
    service.answer_said(alloc, number, &Line::Message(message))?;
    if service.count() == before {
        return Ok(Vec::new(alloc));
    }
    Ok(text)
}

/// The line of the message that a line says, if it says one and the service accepts it, which takes
/// it then; else nothing.
fn bytes_text(
    alloc: Global,
    service: &mut InformationService,
    number: u64,
    bytes: &[u8],
) -> Result<Vec<u8>, OutOfMemory>
    requires count { service.old.count < 2 ^ 64 - 1 }
    requires few { length bytes.now < 2 ^ 31 }
    ensures text { IfOk result (λ text. text.items ≡ text_by service.old (short bytes.now)) }
    ensures next { OnOk result (service.new ≡ after_line service.old (short bytes.now)) }
    ensures count { service.new.count ≤ service.old.count + 1 }
{
    match service.read_line(alloc, bytes) {
        Ok(Line::Message(message)) => message_text(alloc, service, number, message),
        Ok(_) | Err(LineError::Bad(_)) => Ok(Vec::new(alloc)),
        Err(LineError::OutOfMemory) => Err(AllocError),
    }
}

/// Writes the header first, and then the line of each message that is accepted.
pub struct JournalLines;

impl AnswerLines<HeaderText> for JournalLines {
    ghost use Rattle.journal_answers.specs.JournaledLines.{journal_output};

    ghost output = { journal_output };

    fn begin(
        alloc: Global,
        _service: &InformationService,
        header: &HeaderText,
    ) -> Result<Vec<u8>, OutOfMemory> {
        Vec::from_slice(alloc, header.bytes())
    }

    fn answer(
        alloc: Global,
        service: &mut InformationService,
        _header: &mut HeaderText,
        number: u64,
        line: &InputLine<'_>,
    ) -> Result<Vec<u8>, OutOfMemory> {
        match line {
            InputLine::Short(bytes) => bytes_text(alloc, service, number, bytes),
            InputLine::Long => Ok(Vec::new(alloc)),
        }
    }

    fn end<K: Sink>(
        _alloc: Global,
        _service: &InformationService,
        _header: &HeaderText,
        _out: &mut K,
    ) -> Result<(), LinesFault> {
        Ok(())
    }

    fn networks_are_written_alike() {}
}
