//! The parts of a graph once more, two at a time: what is made so far is dropped where there is no
//! memory for the rest.

ghost use Rattle.std.specs.Prelude.{◌≡◌, IfOk};

use change_times::Changes;
use mt_base::memory::OutOfMemory;
use station_index::StationIndex;
use std::alloc::Global;
use train_nodes::Trains;
use waiting_rules::Waits;

/// An index once more, with the trains of which it holds the live events. `OutOfMemory` where there
/// is no memory.
pub(crate) fn copy_events(
    index: &StationIndex,
    trains: &Trains,
    alloc: Global,
) -> Result<(StationIndex, Trains), OutOfMemory>
    ensures { IfOk result (λ copy. copy ≡ (index.now, trains.now)) }
{
    Ok((index.copy(alloc)?, trains.copy(alloc)?))
}

/// The waits once more, with the change times. `OutOfMemory` where there is no memory.
pub(crate) fn copy_rules(waits: &Waits, changes: &Changes) -> Result<(Waits, Changes), OutOfMemory>
    ensures { IfOk result (λ copy. copy ≡ (waits.now, changes.now)) }
{
    Ok((waits.copy()?, changes.copy()?))
}
