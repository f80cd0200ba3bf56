//! The windows of the input, each answered as a whole.

ghost use Rattle.std.specs.Prelude.{◌≡◌, ◌<◌, ◌^◌, [], List, Some, OnOk, IfErr};
ghost use Rattle.std.specs.Prelude.{IsErrOf, length};
ghost use Rattle.delay_model.specs.declared.network.Network.{Network};
ghost use Rattle.delay_model.specs.declared.state.State.{State};
ghost use Rattle.information_service.specs.Causes.{IsNotOfInput, WhereLinesStop, TookAll};
ghost use Rattle.information_service.specs.Causes.{TookFewer, reads_failed, writes_failed};
ghost use Rattle.information_service.specs.ServiceState.{service_after};
ghost use Rattle.mt_io.specs.Lines.{Line};
ghost use Rattle.mt_io.specs.Runs.{fresh};
ghost use Rattle.schedule_build.specs.Directory.{Names};
ghost use Rattle.timetable.specs.TimetableState.{TimetableState};
ghost use Rattle.query_crew.specs.Crews.{IsReady};
ghost use Rattle.query_crew.specs.Posting.{CanBeRun, StandsAt};
ghost use Rattle.query_crew.specs.WindowLines.{window_lines};
ghost use Rattle.window_service.specs.Runs.{IsAnswered, IsBegun, HasEnded, HasStopped, HasBegun};

use crate::receiving::ReceiveReplies;
use information_service::LinesFault;
use mt_io::{Gate, LineReader, Source};
use query_crew::{Crew, NumberedLines, Setting, Window, WindowEnd, read_window};
use snapshot_board::{Opening, Publisher, Viewer};
use std::sync::Wait;
use std::thread::Threads;
use timetable::Timetable;

/// Runs a window, and the output receives the replies to its lines. It fails with `WriteFault`
/// where a write of the output failed, and with `OutOfMemory` where there was no memory; then the
/// crew can only be closed.
fn answer_window<
    H: Opening<Timetable> + Send + Sync,
    T: ReceiveReplies<K>,
    R: Threads + Wait + Sync,
    K,
    G: Gate + Sync,
>(
    setting: &Setting<'_, R, G>,
    crew: &mut Crew<Publisher<Timetable, H>, Viewer<Timetable, H>>,
    numbered: &NumberedLines<'_>,
    out: &mut K,
) -> Result<(), LinesFault>
    requires ready { IsReady H.opening crew.old }
    requires lines { CanBeRun H.opening crew.old.publisher crew.old.directory numbered.now.first
        numbered.now.lines.now }

    // the replies to the window that these lines are, where the board stood as the lines before
    // leave it
    ensures answered { OnOk result ((nw : Network) (names : Names) (st : State)
        (before window : List Line) → StandsAt H.opening crew.old.publisher crew.old.directory
        (service_after nw names st before)
        → numbered.now.first ≡ length before
        → numbered.now.lines.now ≡ window_lines crew.old.directory window
        → IsAnswered T.receives H.opening nw names st before window crew.new.publisher
        crew.new.directory out.old out.new) }
    ensures begun { IfErr result (λ f. (nw : Network) (names : Names) (st : State)
        (before window : List Line) → StandsAt H.opening crew.old.publisher crew.old.directory
        (service_after nw names st before)
        → numbered.now.first ≡ length before
        → numbered.now.lines.now ≡ window_lines crew.old.directory window
        → IsBegun (f ≡ LinesFault.WriteFault) (T.begins (f ≡ LinesFault.WriteFault)) nw names st
        before window out.old out.new) }
    ensures ready { OnOk result (IsReady H.opening crew.new) }

    // no fault is of the input, and how many writes failed
    ensures fault { IfErr result IsNotOfInput }
    ensures writes { Some (T.faults out.new) ≡ writes_failed result (T.faults out.old) }
    ensures full { IsErrOf result LinesFault.WriteFault → T.is_full out.new }
{
    let replies = crew.run_window(setting, numbered)?;
    T::receive(setting.alloc, crew.directory(), replies.as_slice(), out)
}

/// Answers each window of the input, until the input is at its end: for a new reader, and a crew to
/// which no message was posted. It fails with `ReadFault` or `TooLong` where the reader does, when
/// all whole windows before are answered; the window in which that came is not run. It fails with
/// `WriteFault` where a write of the output failed, and with `OutOfMemory` where there was no
/// memory; then the last window may have no replies, or a part of them.
pub(crate) fn answer_windows<
    H: Opening<Timetable> + Send + Sync,
    T: ReceiveReplies<K>,
    R: Threads + Wait + Sync,
    S: Source,
    K,
    G: Gate + Sync,
>(
    setting: &Setting<'_, R, G>,
    crew: &mut Crew<Publisher<Timetable, H>, Viewer<Timetable, H>>,
    reader: &mut LineReader,
    input: &mut S,
    out: &mut K,
) -> Result<(), LinesFault>
    // a new reader, which counts bytes in 64 bits, and a crew to which nothing was posted
    requires reader { reader.old ≡ fresh reader.old.budget }
    requires budget { reader.old.budget < 2 ^ 64 }
    requires ready { IsReady H.opening crew.old }
    requires new { crew.old.publisher ≡ [] }

    // what is received at the end, or where it stops, over the timetable at which the board opened
    ensures all { OnOk result ((t : TimetableState) → H.opening ≡ Some t
        → HasEnded T.receives t.network crew.old.directory t.state reader.new (S.left input.old)
        (S.left input.new) out.old out.new) }
    ensures stopped { IfErr result (WhereLinesStop ((t : TimetableState) → H.opening ≡ Some t
        → HasStopped T.receives t.network crew.old.directory t.state reader.new (S.left input.old)
        (S.left input.new) out.old out.new)) }
    ensures begun { IfErr result (λ f. (t : TimetableState) → H.opening ≡ Some t
        → HasBegun (f ≡ LinesFault.WriteFault) T.receives (T.begins (f ≡ LinesFault.WriteFault))
        t.network crew.old.directory t.state reader.new (S.left input.old) (S.left input.new)
        out.old out.new) }

    // how many reads and writes failed, and when the input is too long
    ensures reads { Some (S.faults input.new) ≡ reads_failed result (S.faults input.old) }
    ensures writes { Some (T.faults out.new) ≡ writes_failed result (T.faults out.old) }
    ensures full { IsErrOf result LinesFault.WriteFault → T.is_full out.new }
    ensures too_long { IsErrOf result LinesFault.TooLong
        → TookAll reader.old.budget (S.left input.old) (S.left input.new) }
    ensures read_early { IsErrOf result LinesFault.ReadFault
        → TookFewer reader.old.budget (S.left input.old) (S.left input.new) }

    // the reader has its budget
    ensures budget { reader.new.budget ≡ reader.old.budget }
{
    let mut window = Window::build(setting.alloc)?;
    let mut first = 0;
    'windows: loop {
        let end = read_window(setting.alloc, reader, input, crew.directory(), &mut window)?;
        let numbered = NumberedLines {
            lines: window.lines(),
            first,
        };
        match end {
            WindowEnd::More => {
                answer_window::<H, T, R, K, G>(setting, crew, &numbered, out)?;
                first += numbered.lines.len() as u64;
            }
            WindowEnd::End => {
                return answer_window::<H, T, R, K, G>(setting, crew, &numbered, out);
            }
        }
    }
}
