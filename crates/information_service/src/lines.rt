//! The lines of the input, each answered before more of it is read.

ghost use Rattle.std.specs.Prelude.{◌≡◌, ◌+◌, ◌-◌, ◌<◌, ◌≤◌, ◌^◌, List, ℕ, Some, false, OnOk, IfErr, IsErrOf};
ghost use Rattle.mt_io.specs.Causes.{IsFull};
ghost use Rattle.mt_io.specs.Lines.{Line, lines_of};
ghost use Rattle.mt_io.specs.Reader.{IsDone};
ghost use Rattle.mt_io.specs.Runs.{fresh};
ghost use Rattle.information_service.specs.Answering.{given_line, HasFewBytes};
ghost use Rattle.information_service.specs.Causes.{IsNotOfInput, WhereLinesStop, TookAll};
ghost use Rattle.information_service.specs.Causes.{TookFewer, reads_failed, writes_failed};
ghost use Rattle.information_service.specs.Fronts.{AppendsGatheredFront, AreAnswered, Begun, GathersAnswer};

use crate::answering::{AnswerLines, InputLine};
use crate::fault::LinesFault;
use crate::gathered::{GATHERED, gather, write_before_read, write_gathered};
use crate::service::InformationService;
use mt_io::{LineReader, Next, Sink, Source};
use std::alloc::Global;

/// Gathers the answer to a line of this number. Where there is no memory for it, what is gathered
/// is written.
fn answer_line<T: AnswerLines<C>, C, K: Sink>(
    alloc: Global,
    service: &mut InformationService,
    kept: &mut C,
    number: u64,
    line: &InputLine<'_>,
    gathered: &mut Vec<u8>,
    out: &mut K,
) -> Result<(), LinesFault>
    requires count { service.old.count < 2 ^ 64 - 1 }
    requires few { HasFewBytes (given_line line.now) }
    requires fits { T.output.fits service.old kept.old }

    // what is written or gathered
    ensures ok { OnOk result (GathersAnswer T.output.answers service.old kept.old number
        (given_line line.now) service.new kept.new (K.written out.old) (K.written out.new)
        gathered.old.items gathered.new.items) }
    ensures front { IfErr result (λ f. AppendsGatheredFront (f ≡ LinesFault.WriteFault)
        T.output.answers service.old kept.old number (given_line line.now) (K.written out.old)
        (K.written out.new) gathered.old.items) }
    ensures count { service.new.count ≤ service.old.count + 1 }
    ensures fits { OnOk result (T.output.fits service.new kept.new) }

    // the faults
    ensures fault { IfErr result IsNotOfInput }
    ensures writes { Some (K.faults out.new) ≡ writes_failed result (K.faults out.old) }
    ensures full { IsErrOf result LinesFault.WriteFault
        → IsFull (K.faults out.new) (K.written out.new) }
{
    let Ok(text) = T::answer(alloc, service, kept, number, line) else {
        write_gathered(gathered, out)?;
        return Err(LinesFault::OutOfMemory);
    };
    gather(text.as_slice(), gathered, out)
}

/// Answers each line of the input, from line 1 on, and writes its answer before more of the input
/// is read, until the input is at its end, for a new reader. Answers to lines that the reader holds
/// are gathered and written together. It fails with `ReadFault` or `TooLong` where the reader does,
/// when all lines before are answered, with `WriteFault` where a write of the output failed, and
/// with `OutOfMemory` where there was none; then the last line may have no answer, or a part of one.
pub(crate) fn answer_lines<T: AnswerLines<C>, C, S: Source, K: Sink>(
    alloc: Global,
    service: &mut InformationService,
    kept: &mut C,
    reader: &mut LineReader,
    input: &mut S,
    out: &mut K,
) -> Result<(), LinesFault>
    // a new reader, which counts bytes in 64 bits, and a message for each byte can be counted
    requires reader { reader.old ≡ fresh reader.old.budget }
    requires budget { reader.old.budget < 2 ^ 64 }
    requires count { service.old.count + reader.old.budget < 2 ^ 64 }
    requires fits { T.output.fits service.old kept.old }

    // what is answered at the end, or where it stops
    ensures all { OnOk result ((bytes : List ℕ) × (lines : List Line) × IsDone reader.new
        × AreAnswered T.output.answers service.old kept.old service.new kept.new reader.new
        (S.left input.old) (S.left input.new) (K.written out.old) (K.written out.new) bytes lines) }
    ensures stopped { IfErr result (WhereLinesStop ((bytes : List ℕ) × (lines : List Line)
        × (lines_of false bytes ≡ lines)
        × AreAnswered T.output.answers service.old kept.old service.new kept.new reader.new
        (S.left input.old) (S.left input.new) (K.written out.old) (K.written out.new) bytes
        lines)) }
    ensures begun { IfErr result (λ f. (bytes : List ℕ) × (lines : List Line)
        × Begun (f ≡ LinesFault.WriteFault) T.output.answers service.old kept.old reader.new
        (S.left input.old) (S.left input.new) (K.written out.old) (K.written out.new) bytes
        lines) }

    // how many reads and writes failed, and when the input is too long
    ensures reads { Some (S.faults input.new) ≡ reads_failed result (S.faults input.old) }
    ensures writes { Some (K.faults out.new) ≡ writes_failed result (K.faults out.old) }
    ensures full { IsErrOf result LinesFault.WriteFault
        → IsFull (K.faults out.new) (K.written out.new) }
    ensures too_long { IsErrOf result LinesFault.TooLong
        → TookAll reader.old.budget (S.left input.old) (S.left input.new) }
    ensures read_early { IsErrOf result LinesFault.ReadFault
        → TookFewer reader.old.budget (S.left input.old) (S.left input.new) }

    // the reader has its budget
    ensures budget { reader.new.budget ≡ reader.old.budget }
{
    let mut gathered = Vec::with_capacity(alloc, GATHERED)?;
    let mut before = 0;
    'lines: loop {
        write_before_read(reader, &mut gathered, out)?;
        let line = match reader.next(input) {
            Next::Line(bytes) => InputLine::Short(bytes),
            Next::LongLine => InputLine::Long,
            Next::End => return Ok(()),
            Next::ReadFault => return Err(LinesFault::ReadFault),
            Next::Budget => return Err(LinesFault::TooLong),
        };
        answer_line::<T, C, K>(alloc, service, kept, before + 1, &line, &mut gathered, out)?;
        before += 1;
    }
}
