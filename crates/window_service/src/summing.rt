//! The sums over the replies to all windows of the input.

ghost use Rattle.std.specs.Prelude.{◌≡◌, ◌≤◌, List, ℕ, Some, true, IfOk};
ghost use Rattle.mt_io.specs.Causes.{no_faults};
ghost use Rattle.mt_io.specs.Lines.{lines_of};
ghost use Rattle.information_service.specs.Causes.{HasCounts};
ghost use Rattle.schedule_build.specs.InStep.{AreInStep};
ghost use Rattle.window_service.specs.Summed.{AreSummed};

use crate::output::receive_windows;
use crate::receiving::ReceiveReplies;
use crate::sums::ReplySums;
use delay_report::Reply;
use information_service::LinesFault;
use mt_io::{Gate, Source};
use query_crew::{CrewPlan, Setting};
use schedule_build::Directory;
use snapshot_board::{NewHistory, Opening};
use std::alloc::Global;
use std::sync::Wait;
use std::thread::Threads;
use timetable::Timetable;
use train_nodes::Msg;

/// Adds the replies up.
struct AddReplies;

impl ReceiveReplies<ReplySums> for AddReplies {
    ghost use Rattle.window_service.specs.Received.{ReceivesSums, BeginsSums, AreSumsFull};
    ghost use Rattle.window_service.specs.Received.{sums_faults};

    ghost receives = { ReceivesSums };

    ghost begins = { BeginsSums };

    ghost faults = { sums_faults };

    ghost is_full = { AreSumsFull };

    fn receive(
        _alloc: Global,
        _directory: &Directory,
        replies: &[Reply],
        out: &mut ReplySums,
    ) -> Result<(), LinesFault> {
        out.add(replies);
        Ok(())
    }
}

/// Answers the windows of the input as `write_windows` does, and gives the sums over the replies in
/// place of their texts. It fails with `ReadFault` where a read of the input failed, with `TooLong`
/// where `budget` bytes of it were taken and no end was read, and with `OutOfMemory` where there
/// was no memory.
pub fn sum_windows<
    H: Opening<Timetable> + Send + Sync,
    R: Threads + Wait + Sync,
    S: Source,
    G: Gate + Sync,
>(
    setting: &Setting<'_, R, G>,
    history: NewHistory<Msg>,
    plan: CrewPlan,
    input: &mut S,
    budget: u64,
) -> Result<ReplySums, LinesFault>
    // the history of the board that is opened, and how it opens
    requires book { history ≡ H.book }
    requires opening { H.opening ≡ Some plan.timetable }

    // names and trains are in step, and one to sixteen workers
    requires in_step { AreInStep plan.directory plan.timetable.state }
    requires some { 1 ≤ plan.workers }
    requires few { plan.workers ≤ 16 }

    // all went well
    ensures ok { IfOk result (λ sums. (bytes : List ℕ) → S.left input.old ≡ Some bytes
        → AreSummed plan.timetable.network plan.directory plan.timetable.state
        (lines_of true bytes) sums) }

    // the faults, of which no write has any, and how many bytes are taken
    ensures counts { HasCounts budget result (S.left input.old) (S.left input.new)
        (S.faults input.old) (S.faults input.new) no_faults no_faults ⊥ }
{
    let mut sums = ReplySums::none();
    receive_windows::<H, AddReplies, R, S, ReplySums, G>(
        setting, history, plan, input, &mut sums, budget,
    )?;
    Ok(sums)
}
