//! What `watch` writes to each line.

ghost use Rattle.std.specs.Prelude.{◌≡◌, ◌+◌, ◌-◌, ◌^◌, ◌<◌, ◌≤◌, IfOk, OnOk, Ok, length};
ghost use Rattle.message_reader.specs.Lines.{line_of};
ghost use Rattle.message_reader.specs.Wires.{IsLine};
ghost use Rattle.mt_io.specs.Lines.{short};
ghost use Rattle.information_service.specs.ServiceState.{after_line, after_said};
ghost use Rattle.watch_answers.specs.WatchedLines.{IsWatchedText};
ghost use Rattle.watch_answers.specs.WatchedMessages.{are_kept};

use crate::messages::message_text;
use crate::queries::query_text;
use delay_report::{Reply, reply_text};
use information_service::{AnswerLines, InformationService, InputLine, LinesFault};
use journey_watch::Watch;
use message_reader::{BadLine, Line, LineError};
use mt_base::memory::OutOfMemory;
use mt_io::Sink;
use std::alloc::{AllocError, Global};

/// The text to what a line says, which may change the timetable and add a name.
fn said_text(
    alloc: Global,
    service: &mut InformationService,
    kept: &mut Watch,
    line: u64,
    said: &Line,
) -> Result<Vec<u8>, OutOfMemory>
    requires kept { IsLine said.now }
    requires count { service.old.count < 2 ^ 64 - 1 }
    requires fits { are_kept service.old.network service.old.state kept.old }
    ensures text { IfOk result (λ text. IsWatchedText service.old kept.old line (Ok said.now)
        text.items service.new kept.new) }
    ensures next { OnOk result (service.new ≡ after_said service.old (Ok said.now)) }
    ensures fits { OnOk result (are_kept service.new.network service.new.state kept.new) }
    ensures counts { service.new.count ≤ service.old.count + 1 }
{
    match said {
        Line::Message(wire) => message_text(alloc, service, kept, line, wire),
        Line::Query(query) => query_text(alloc, service, kept, line, query),
        Line::Flush => {
            let count = service.count();
            reply_text(alloc, &Reply::Flush { line, count }, service.directory())
        }
    }
}

/// The text to a line that is not long. The line is given without its line end.
fn short_text(
    alloc: Global,
    service: &mut InformationService,
    kept: &mut Watch,
    line: u64,
    bytes: &[u8],
) -> Result<Vec<u8>, OutOfMemory>
    requires count { service.old.count < 2 ^ 64 - 1 }
    requires few { length bytes.now < 2 ^ 31 }
    requires fits { are_kept service.old.network service.old.state kept.old }
    ensures text { IfOk result (λ text. IsWatchedText service.old kept.old line
        (line_of bytes.now) text.items service.new kept.new) }
    ensures next { OnOk result (service.new ≡ after_line service.old (short bytes.now)) }
    ensures fits { OnOk result (are_kept service.new.network service.new.state kept.new) }
    ensures counts { service.new.count ≤ service.old.count + 1 }
{
    match service.read_line(alloc, bytes) {
        Ok(said) => said_text(alloc, service, kept, line, &said),
        Err(LineError::Bad(bad)) => {
            reply_text(alloc, &Reply::Bad { line, bad }, service.directory())
        }
        Err(LineError::OutOfMemory) => Err(AllocError),
    }
}

/// Answers each query, watches its journey if there is one and there is room, and tells behind each
/// accepted message which watched journeys have another standing. It writes no table.
pub struct WatchLines;

impl AnswerLines<Watch> for WatchLines {
    ghost use Rattle.watch_answers.specs.WatchedLines.{watched_output};

    ghost output = { watched_output };

    fn begin(
        alloc: Global,
        _service: &InformationService,
        _kept: &Watch,
    ) -> Result<Vec<u8>, OutOfMemory> {
        Ok(Vec::new(alloc))
    }

    fn answer(
        alloc: Global,
        service: &mut InformationService,
        kept: &mut Watch,
        number: u64,
        line: &InputLine<'_>,
    ) -> Result<Vec<u8>, OutOfMemory> {
        match line {
            InputLine::Short(bytes) => short_text(alloc, service, kept, number, bytes),
            InputLine::Long => {
                let bad = BadLine::Long;
                reply_text(
                    alloc,
                    &Reply::Bad { line: number, bad },
                    service.directory(),
                )
            }
        }
    }

    fn end<K: Sink>(
        _alloc: Global,
        _service: &InformationService,
        _kept: &Watch,
        _out: &mut K,
    ) -> Result<(), LinesFault> {
        Ok(())
    }

    fn networks_are_written_alike() {}
}
