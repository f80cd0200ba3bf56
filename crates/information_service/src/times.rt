//! What `times` writes: the replies to all lines of the input, and the table of all times.

ghost use Rattle.std.specs.Prelude.{◌≡◌, List, ℕ, Some, true, false, OnOk, IfErr, IsErrOf};
ghost use Rattle.std.specs.Io.KnownBytes.{Consumes, IsAtEnd};
ghost use Rattle.mt_io.specs.Causes.{IsFull};
ghost use Rattle.mt_io.specs.Lines.{lines_of};
ghost use Rattle.information_service.specs.Causes.{HasCounts, WhereLinesStop};
ghost use Rattle.information_service.specs.Fronts.{AppendsReplies, AppendsOutput};
ghost use Rattle.information_service.specs.Fronts.{AppendsOutputFront};

use crate::answering::{AnswerLines, InputLine};
use crate::fault::LinesFault;
use crate::output::answer_input;
use crate::service::InformationService;
use crate::table::write_table;
use delay_report::reply_text;
use mt_base::memory::OutOfMemory;
use mt_io::{Sink, Source};
use std::alloc::Global;

/// Writes the reply to each line, and the table of all times at the end.
pub struct WriteReplies;

impl AnswerLines<()> for WriteReplies {
    ghost use Rattle.information_service.specs.TimesOutput.{times_output};

    ghost output = { times_output };

    fn begin(
        alloc: Global,
        _service: &InformationService,
        _kept: &(),
    ) -> Result<Vec<u8>, OutOfMemory> {
        Ok(Vec::new(alloc))
    }

    fn answer(
        alloc: Global,
        service: &mut InformationService,
        _kept: &mut (),
        number: u64,
        line: &InputLine<'_>,
    ) -> Result<Vec<u8>, OutOfMemory> {
        let reply = service.answer(alloc, number, line)?;
        reply_text(alloc, &reply, service.directory())
    }

    fn end<K: Sink>(
        alloc: Global,
        service: &InformationService,
        _kept: &(),
        out: &mut K,
    ) -> Result<(), LinesFault> {
        write_table(alloc, &service.timetable, &service.directory, out)
    }

    fn networks_are_written_alike() {}
}

/// Answers each line of the input before more of it is read, and at its end writes the table of all
/// times: for a service that has accepted no message. It fails with `ReadFault` where a read of the
/// input failed, and with `TooLong` where `budget` bytes of it were taken and no end was read; then
/// the lines that are whole among the bytes taken are answered. It fails with `WriteFault` where a
/// write of the output failed, and with `OutOfMemory` where there was none; then a front of an
/// output is written. It takes no more than `budget` bytes.
pub fn write_output<S: Source, K: Sink>(
    alloc: Global,
    service: &mut InformationService,
    input: &mut S,
    out: &mut K,
    budget: u64,
) -> Result<(), LinesFault>
    requires count { service.old.count ≡ 0 }

    // all went well
    ensures ok { OnOk result ((bytes : List ℕ) → S.left input.old ≡ Some bytes
        → AppendsOutput service.old.network service.old.names service.old.state
        (lines_of true bytes) (K.written out.old) (K.written out.new)) }
    ensures ended { OnOk result (IsAtEnd (S.left input.new)) }

    // what is written where the run stops
    ensures stopped { IfErr result (WhereLinesStop ((bytes : List ℕ)
        × Consumes (S.left input.old) (S.left input.new) bytes
        × AppendsReplies service.old.network service.old.names service.old.state
        (lines_of false bytes) (K.written out.old) (K.written out.new))) }
    ensures front { AppendsOutputFront (IsErrOf result LinesFault.WriteFault) service.old.network
        service.old.names service.old.state budget (S.left input.old) (S.left input.new)
        (K.written out.old) (K.written out.new) }

    // the faults, and how many bytes are taken
    ensures counts { HasCounts budget result (S.left input.old) (S.left input.new)
        (S.faults input.old) (S.faults input.new) (K.faults out.old) (K.faults out.new)
        (IsFull (K.faults out.new) (K.written out.new)) }
{
    answer_input::<WriteReplies, (), S, K>(alloc, service, &mut (), input, out, budget)
}
