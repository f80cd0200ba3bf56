//! The replies to all windows of the input: received by any output, or written.

ghost use Rattle.std.specs.Prelude.{◌≡◌, ◌≤◌, List, ℕ, Some, true, false, OnOk, IfErr, IsErrOf};
ghost use Rattle.std.specs.Io.KnownBytes.{Consumes, IsAtEnd};
ghost use Rattle.mt_io.specs.Causes.{IsFull};
ghost use Rattle.mt_io.specs.Lines.{lines_of};
ghost use Rattle.information_service.specs.Causes.{HasCounts, WhereLinesStop};
ghost use Rattle.schedule_build.specs.InStep.{AreInStep};
ghost use Rattle.window_service.specs.Received.{IsReceivedWhole, IsReceivedInPart};
ghost use Rattle.window_service.specs.Received.{IsReceivedAtFirst};
ghost use Rattle.window_service.specs.Whole.{AppendsServed, AppendsWholeWindows};
ghost use Rattle.window_service.specs.Whole.{AppendsServedFront};

use crate::receiving::ReceiveReplies;
use crate::windows::answer_windows;
use crate::writing::WriteTexts;
use information_service::LinesFault;
use mt_io::{Gate, LineReader, Sink, Source};
use query_crew::{Crew, CrewPlan, Setting};
use snapshot_board::{NewHistory, Opening, Publisher, Viewer};
use std::sync::Wait;
use std::thread::Threads;
use timetable::Timetable;
use train_nodes::Msg;

/// Answers the windows of the input one after another, by a crew that is made by the plan, and the
/// output receives the replies to a window when all of it is answered.
pub(crate) fn receive_windows<
    H: Opening<Timetable> + Send + Sync,
    T: ReceiveReplies<K>,
    R: Threads + Wait + Sync,
    S: Source,
    K,
    G: Gate + Sync,
>(
    setting: &Setting<'_, R, G>,
    history: NewHistory<Msg>,
    plan: CrewPlan,
    input: &mut S,
    out: &mut K,
    budget: u64,
) -> Result<(), LinesFault>
    // the history of the board that is opened, and how it opens
    requires book { history ≡ H.book }
    requires opening { H.opening ≡ Some plan.timetable }

    // names and trains are in step, and one to sixteen workers
    requires in_step { AreInStep plan.directory plan.timetable.state }
    requires some { 1 ≤ plan.workers }
    requires few { plan.workers ≤ 16 }

    // what is received at the end, or where it stops
    ensures all { OnOk result (IsReceivedWhole T.receives plan.timetable.network plan.directory
        plan.timetable.state budget (S.left input.old) (S.left input.new) out.old out.new) }
    ensures stopped { IfErr result (WhereLinesStop (IsReceivedInPart T.receives
        plan.timetable.network plan.directory plan.timetable.state (S.left input.old)
        (S.left input.new) out.old out.new)) }
    ensures begun { IfErr result (λ f. IsReceivedAtFirst (f ≡ LinesFault.WriteFault) T.receives
        (T.begins (f ≡ LinesFault.WriteFault)) plan.timetable.network plan.directory
        plan.timetable.state budget (S.left input.old) (S.left input.new) out.old out.new) }

    // the faults, and how many bytes are taken
    ensures counts { HasCounts budget result (S.left input.old) (S.left input.new)
        (S.faults input.old) (S.faults input.new) (T.faults out.old) (T.faults out.new)
        (T.is_full out.new) }
{
    let mut reader = LineReader::build(setting.alloc, budget)?;
    let mut crew: Crew<Publisher<Timetable, H>, Viewer<Timetable, H>> = Crew::build(
        setting.rt,
        setting.alloc,
        history,
        plan,
    )?;
    let run = answer_windows::<H, T, R, S, K, G>(setting, &mut crew, &mut reader, input, out);
    crew.close(setting.rt, setting.alloc);
    run
}

/// Answers the windows of the input one after another, by a crew that is made by the plan, and
/// writes the replies to a window when all of it is answered. It fails with `ReadFault` where a
/// read of the input failed, and with `TooLong` where `budget` bytes of it were taken and no end
/// was read; then the windows that are whole among the bytes taken are answered, and no other line
/// is. It fails with `WriteFault` where a write of the output failed, and with `OutOfMemory` where
/// there was no memory; then a front of an output is written. It takes no more than `budget` bytes.
pub fn write_windows<
    H: Opening<Timetable> + Send + Sync,
    R: Threads + Wait + Sync,
    S: Source,
    K: Sink,
    G: Gate + Sync,
>(
    setting: &Setting<'_, R, G>,
    history: NewHistory<Msg>,
    plan: CrewPlan,
    input: &mut S,
    out: &mut K,
    budget: u64,
) -> Result<(), LinesFault>
    // the history of the board that is opened, and how it opens
    requires book { history ≡ H.book }
    requires opening { H.opening ≡ Some plan.timetable }

    // names and trains are in step, and one to sixteen workers
    requires in_step { AreInStep plan.directory plan.timetable.state }
    requires some { 1 ≤ plan.workers }
    requires few { plan.workers ≤ 16 }

    // all went well
    ensures ok { OnOk result ((bytes : List ℕ) → S.left input.old ≡ Some bytes
        → AppendsServed plan.timetable.network plan.directory plan.timetable.state
        (lines_of true bytes) (K.written out.old) (K.written out.new)) }
    ensures ended { OnOk result (IsAtEnd (S.left input.new)) }

    // what is written where the run stops
    ensures stopped { IfErr result (WhereLinesStop ((bytes : List ℕ)
        × Consumes (S.left input.old) (S.left input.new) bytes
        × AppendsWholeWindows plan.timetable.network plan.directory plan.timetable.state
        (lines_of false bytes) (K.written out.old) (K.written out.new))) }
    ensures front { AppendsServedFront (IsErrOf result LinesFault.WriteFault)
        plan.timetable.network plan.directory plan.timetable.state budget (S.left input.old)
        (S.left input.new) (K.written out.old) (K.written out.new) }

    // the faults, and how many bytes are taken
    ensures counts { HasCounts budget result (S.left input.old) (S.left input.new)
        (S.faults input.old) (S.faults input.new) (K.faults out.old) (K.faults out.new)
        (IsFull (K.faults out.new) (K.written out.new)) }
{
    receive_windows::<H, WriteTexts, R, S, K, G>(setting, history, plan, input, out, budget)
}
