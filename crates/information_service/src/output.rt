//! All that a command writes for an input.

ghost use Rattle.std.specs.Prelude.{◌≡◌, ◌+◌, ◌<◌, ◌^◌, List, ℕ, Some, true, false, OnOk, IfErr, IsErrOf};
ghost use Rattle.std.specs.Io.KnownBytes.{Appends, Consumes, IsAtEnd};
ghost use Rattle.mt_io.specs.Causes.{IsFull};
ghost use Rattle.mt_io.specs.Lines.{lines_of};
ghost use Rattle.information_service.specs.Answering.{IsBeginning, IsWhole};
ghost use Rattle.information_service.specs.Causes.{HasCounts, IsNotOfInput, WhereLinesStop, writes_failed};
ghost use Rattle.information_service.specs.Fronts.{AppendsAll, AppendsFront, AppendsTakenFront};

use crate::answering::AnswerLines;
use crate::fault::LinesFault;
use crate::lines::answer_lines;
use crate::service::InformationService;
use crate::writing::write_bytes;
use mt_io::{LineReader, Sink, Source};
use std::alloc::Global;

/// Writes what stands before the first line.
fn write_beginning<T: AnswerLines<C>, C, K: Sink>(
    alloc: Global,
    service: &InformationService,
    kept: &C,
    out: &mut K,
) -> Result<(), LinesFault>
    ensures ok { OnOk result (Appends (K.written out.old) (K.written out.new)
        (T.output.begins service.now kept.now)) }
    ensures front { IfErr result (λ f. AppendsFront (f ≡ LinesFault.WriteFault)
        (K.written out.old) (K.written out.new) (T.output.begins service.now kept.now)) }
    ensures fault { IfErr result IsNotOfInput }
    ensures writes { Some (K.faults out.new) ≡ writes_failed result (K.faults out.old) }
    ensures full { IsErrOf result LinesFault.WriteFault
        → IsFull (K.faults out.new) (K.written out.new) }
{
    let text = T::begin(alloc, service, kept)?;
    write_bytes(text.as_slice(), out)
}

/// Writes what a command says before the first line of the input, then the answer to each line
/// before more of the input is read, and at the end of the input what stands behind the last. It
/// fails with `ReadFault` where a read of the input failed, and with `TooLong` where `budget` bytes
/// of it were taken and no end was read; then the lines that are whole among the bytes taken are
/// answered. It fails with `WriteFault` where a write of the output failed, and with `OutOfMemory`
/// where there was none; then a front of an output is written. It takes no more than `budget` bytes.
pub fn answer_input<T: AnswerLines<C>, C, S: Source, K: Sink>(
    alloc: Global,
    service: &mut InformationService,
    kept: &mut C,
    input: &mut S,
    out: &mut K,
    budget: u64,
) -> Result<(), LinesFault>
    requires count { service.old.count + budget < 2 ^ 64 }
    requires fits { T.output.fits service.old kept.old }

    // all went well
    ensures ok { OnOk result ((bytes : List ℕ) → S.left input.old ≡ Some bytes
        → AppendsAll (IsWhole T.output service.old kept.old (lines_of true bytes))
        (K.written out.old) (K.written out.new)) }
    ensures ended { OnOk result (IsAtEnd (S.left input.new)) }

    // what is written where the run stops
    ensures stopped { IfErr result (WhereLinesStop ((bytes : List ℕ)
        × Consumes (S.left input.old) (S.left input.new) bytes
        × AppendsAll (IsBeginning T.output service.old kept.old (lines_of false bytes))
        (K.written out.old) (K.written out.new))) }
    ensures front { AppendsTakenFront (IsErrOf result LinesFault.WriteFault)
        (IsWhole T.output service.old kept.old) (IsBeginning T.output service.old kept.old) budget
        (S.left input.old) (S.left input.new) (K.written out.old) (K.written out.new) }

    // the faults, and how many bytes are taken
    ensures counts { HasCounts budget result (S.left input.old) (S.left input.new)
        (S.faults input.old) (S.faults input.new) (K.faults out.old) (K.faults out.new)
        (IsFull (K.faults out.new) (K.written out.new)) }
{
    let mut reader = LineReader::build(alloc, budget)?;
    write_beginning::<T, C, K>(alloc, service, kept, out)?;
    answer_lines::<T, C, S, K>(alloc, service, kept, &mut reader, input, out)?;
    T::end(alloc, service, kept, out)
}
