//! What `plans` writes to each line.

ghost use Rattle.std.specs.Prelude.{◌≡◌, ◌+◌, ◌-◌, ◌^◌, ◌<◌, ◌≤◌, IfOk, OnOk, Ok, length};
ghost use Rattle.message_reader.specs.Lines.{line_of};
ghost use Rattle.message_reader.specs.Wires.{IsLine};
ghost use Rattle.mt_io.specs.Lines.{short};
ghost use Rattle.information_service.specs.ServiceState.{after_line, after_said};
ghost use Rattle.plan_answers.specs.PlannedLines.{IsPlannedText};

use crate::queries::query_text;
use crate::search::PlanSearch;
use delay_report::{Reply, reply_text};
use information_service::{AnswerLines, InformationService, InputLine, LinesFault};
use message_reader::{BadLine, Line, LineError};
use mt_base::memory::OutOfMemory;
use mt_io::Sink;
use std::alloc::{AllocError, Global};

/// The text of the reply to what a line says, which may change the timetable and add a name.
fn said_text(
    alloc: Global,
    service: &mut InformationService,
    search: &mut PlanSearch,
    line: u64,
    said: &Line,
) -> Result<Vec<u8>, OutOfMemory>
    requires kept { IsLine said.now }
    requires count { service.old.count < 2 ^ 64 - 1 }
    ensures text { IfOk result (λ text. IsPlannedText service.old search.old line (Ok said.now)
        text.items service.new) }
    ensures next { OnOk result (service.new ≡ after_said service.old (Ok said.now)) }
    ensures counts { service.new.count ≤ service.old.count + 1 }
    ensures rides { search.new ≡ search.old }
{
    if let Line::Query(query) = said {
        return query_text(alloc, service, search, line, query);
    }
    let reply = service.answer_said(alloc, line, said)?;
    reply_text(alloc, &reply, service.directory())
}

/// The text of the reply to a line that is not long. The line is given without its line end.
fn short_text(
    alloc: Global,
    service: &mut InformationService,
    search: &mut PlanSearch,
    line: u64,
    bytes: &[u8],
) -> Result<Vec<u8>, OutOfMemory>
    requires count { service.old.count < 2 ^ 64 - 1 }
    requires few { length bytes.now < 2 ^ 31 }
    ensures text { IfOk result (λ text. IsPlannedText service.old search.old line
        (line_of bytes.now) text.items service.new) }
    ensures next { OnOk result (service.new ≡ after_line service.old (short bytes.now)) }
    ensures counts { service.new.count ≤ service.old.count + 1 }
    ensures rides { search.new ≡ search.old }
{
    match service.read_line(alloc, bytes) {
        Ok(said) => said_text(alloc, service, search, line, &said),
        Err(LineError::Bad(bad)) => {
            reply_text(alloc, &Reply::Bad { line, bad }, service.directory())
        }
        Err(LineError::OutOfMemory) => Err(AllocError),
    }
}

/// Answers each query with all best plans up to a number of rides. It writes no table.
pub struct PlanLines;

impl AnswerLines<PlanSearch> for PlanLines {
    ghost use Rattle.plan_answers.specs.PlannedLines.{planned_output};

    ghost output = { planned_output };

    fn begin(
        alloc: Global,
        _service: &InformationService,
        _kept: &PlanSearch,
    ) -> Result<Vec<u8>, OutOfMemory> {
        Ok(Vec::new(alloc))
    }

    fn answer(
        alloc: Global,
        service: &mut InformationService,
        kept: &mut PlanSearch,
        number: u64,
        line: &InputLine<'_>,
    ) -> Result<Vec<u8>, OutOfMemory> {
        match line {
            InputLine::Short(bytes) => short_text(alloc, service, kept, number, bytes),
            InputLine::Long => {
                let bad = BadLine::Long;
                reply_text(
                    alloc,
                    &Reply::Bad { line: number, bad },
                    service.directory(),
                )
            }
        }
    }

    fn end<K: Sink>(
        _alloc: Global,
        _service: &InformationService,
        _kept: &PlanSearch,
        _out: &mut K,
    ) -> Result<(), LinesFault> {
        Ok(())
    }

    fn networks_are_written_alike() {}
}
