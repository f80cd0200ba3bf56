//! How a command answers the lines of an input.

use crate::fault::LinesFault;
use crate::service::InformationService;
use mt_base::memory::OutOfMemory;
use mt_io::Sink;
use std::alloc::Global;

/// A line of the input.
#[derive(Clone, Copy, Debug)]
pub enum InputLine<'a> {
    /// Its bytes, without its line end.
    Short(&'a [u8]),
    /// It is too long to be kept.
    Long,
}

/// How a command answers the lines of an input. `C` is the type of what it keeps beside the
/// timetable and its names.
pub trait AnswerLines<C> {
    ghost use Rattle.std.specs.Prelude.{◌≡◌, ◌+◌, ◌-◌, ◌^◌, ◌<◌, ◌≤◌, Some, IfOk, OnOk, IfErr};
    ghost use Rattle.std.specs.Prelude.{IsErrOf};
    ghost use Rattle.std.specs.Io.KnownBytes.{Appends};
    ghost use Rattle.mt_io.specs.Causes.{IsFull};
    ghost use Rattle.information_service.specs.Answering.{given_line, HasFewBytes, LineOutput};
    ghost use Rattle.information_service.specs.Causes.{IsNotOfInput, writes_failed};
    ghost use Rattle.information_service.specs.Fronts.{AppendsFront};
    ghost use Rattle.information_service.specs.Networks.{IsWrittenAlike};

    /// What it writes: before the first line, to each line, and behind the last.
    ghost output: { LineOutput C };

    /// What it writes before the first line. `OutOfMemory` where there is no memory.
    fn begin(alloc: Global, service: &InformationService, kept: &C) -> Result<Vec<u8>, OutOfMemory>
        ensures { IfOk result (λ text. text.items ≡ output.begins service.now kept.now) };

    /// What it writes to the line of this number, from 1 on. `OutOfMemory` where there is no
    /// memory.
    fn answer(
        alloc: Global,
        service: &mut InformationService,
        kept: &mut C,
        number: u64,
        line: &InputLine<'_>,
    ) -> Result<Vec<u8>, OutOfMemory>
        requires count { service.old.count < 2 ^ 64 - 1 }
        requires few { HasFewBytes (given_line line.now) }
        requires fits { output.fits service.old kept.old }
        ensures text { IfOk result (λ text. output.answers service.old kept.old number
            (given_line line.now) text.items service.new kept.new) }
        ensures count { service.new.count ≤ service.old.count + 1 }
        ensures fits { OnOk result (output.fits service.new kept.new) };

    /// Writes what stands behind the last line. It fails with `WriteFault` where a write of the
    /// output failed, and with `OutOfMemory` where there was no memory.
    fn end<K: Sink>(
        alloc: Global,
        service: &InformationService,
        kept: &C,
        out: &mut K,
    ) -> Result<(), LinesFault>
        ensures ok { OnOk result (Appends (K.written out.old) (K.written out.new)
            (output.ends service.now kept.now)) }
        ensures front { IfErr result (λ f. AppendsFront (f ≡ LinesFault.WriteFault)
            (K.written out.old) (K.written out.new) (output.ends service.now kept.now)) }
        ensures fault { IfErr result IsNotOfInput }
        ensures writes { Some (K.faults out.new) ≡ writes_failed result (K.faults out.old) }
        ensures full { IsErrOf result LinesFault.WriteFault
            → IsFull (K.faults out.new) (K.written out.new) };

    /// A law: over networks that no definition tells apart it writes the same.
    fn networks_are_written_alike()
        ensures { IsWrittenAlike output };
}
