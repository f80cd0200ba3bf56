//! The lists and marks of a timetable, as they are made.

ghost use Rattle.std.specs.Prelude.{◌≡◌, ◌+◌, ◌*◌, ◌≤◌, IfOk, length, vec_capacity};
ghost use Rattle.delay_model.specs.Events.{events};
ghost use Rattle.timetable.specs.Emptied.{AreEmpty};
ghost use Rattle.timetable.specs.Settled.{HasTimesFor, most_live};

use crate::events::count_live;
use mt_base::keys::Node;
use mt_base::memory::OutOfMemory;
use propagate::TimeChange;
use rank_order::Marks;
use std::alloc::Global;
use train_nodes::{NodeTimes, Trains};

/// The lists of a timetable with their room, and its marks.
#[derive(Drop)]
pub(crate) struct Lists {
    /// The events that a message changes.
    pub(crate) changed: Vec<Node>,
    /// The events that are to be settled.
    pub(crate) marks: Marks,
    /// The events to which a message gives other times.
    pub(crate) time_changes: Vec<TimeChange>,
}

/// Nothing listed or marked, with room for so many live events, and in the list of those that a
/// message changes for twice as many.
pub(crate) fn empty_lists(alloc: Global, room: u32) -> Result<Lists, OutOfMemory>
    ensures { IfOk result (λ lists. AreEmpty room lists) }
{
    let marks = Marks::build(alloc, room)?;
    let changed = Vec::with_capacity(alloc, 2 * room as usize)?;
    let time_changes = Vec::with_capacity(alloc, room as usize)?;
    Ok(Lists {
        changed,
        marks,
        time_changes,
    })
}

/// Times for the events of these trains, of which none is stored yet, and lists with room for all
/// that can be live.
pub(crate) fn blank_parts(alloc: Global, trains: &Trains) -> Result<(NodeTimes, Lists), OutOfMemory>
    requires nodes { length (events trains.now) + 2 * trains.now.spare_calls ≤ 2097152 }
    ensures times { IfOk result (λ parts. HasTimesFor trains.now parts.0) }
    ensures lists { IfOk result (λ parts. AreEmpty (most_live trains.now) parts.1) }
{
    let room = count_live(trains) + 2 * trains.spare_calls();
    let lists = empty_lists(alloc, room)?;
    Ok((trains.blank_times(alloc)?, lists))
}

/// The same lists and marks once more, with the same room, but for the list of events that get
/// other times: nothing is in it.
pub(crate) fn copy_lists(
    alloc: Global,
    changed: &Vec<Node>,
    marks: &Marks,
    time_changes: &Vec<TimeChange>,
) -> Result<Lists, OutOfMemory>
    ensures changed { IfOk result (λ lists. lists.changed.items ≡ changed.now.items) }
    ensures marks { IfOk result (λ lists. lists.marks ≡ marks.now) }
    ensures changed_room { IfOk result (λ lists.
        vec_capacity changed.now ≤ vec_capacity lists.changed) }
    ensures time_changes_room { IfOk result (λ lists.
        vec_capacity time_changes.now ≤ vec_capacity lists.time_changes) }
{
    let marks = marks.copy(alloc)?;
    let mut all = Vec::with_capacity(alloc, changed.capacity())?;
    all.extend_from_slice(changed)?;
    let time_changes = Vec::with_capacity(alloc, time_changes.capacity())?;
    Ok(Lists {
        changed: all,
        marks,
        time_changes,
    })
}
