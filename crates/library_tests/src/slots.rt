//! Slots of calls.

use event_numbers::Slots;
use mt_base::memory::OutOfMemory;
use mt_base::numbers::{Label, TrainNo};
use std::alloc::Global;
use std::test::Fail;

/// Two trains, each of which was given more calls twice, by turns.
fn numbered(alloc: Global) -> Result<Slots, OutOfMemory> {
    let mut slots = Slots::with_room(alloc, 2, 20)?;
    let _ = slots.push_train(2);
    let _ = slots.push_train(3);
    let _ = slots.add_calls(TrainNo::new(0), 4);
    let _ = slots.add_calls(TrainNo::new(1), 2);
    let _ = slots.add_calls(TrainNo::new(0), 3);
    Ok(slots)
}

/// The slots of calls, each by its train and label.
const SLOTS: [(u32, u32, Option<u32>); 9] = [
    (0, 1, Some(1)),
    (0, 2, Some(5)),
    (0, 5, Some(8)),
    (0, 6, Some(11)),
    (0, 8, Some(13)),
    (0, 9, None),
    (1, 2, Some(4)),
    (1, 3, Some(9)),
    (2, 0, None),
];

/// The label of the first call that is not found in its slot, with its train.
fn first_wrong(slots: &Slots) -> Option<(u32, u32)> {
    for (train, label, slot) in SLOTS {
        if slots.slot(TrainNo::new(train), Label::new(label)) != slot {
            return Some((train, label));
        }
    }
    None
}

/// A copy of these slots.
fn copied(alloc: Global) -> Result<Slots, OutOfMemory> {
    numbered(alloc)?.copy(alloc)
}

#[test]
fn each_call_has_its_slot(rt: HostRuntime) -> Result<(), Fail> {
    let slots = copied(rt.alloc())?;
    assert!(rt; first_wrong(&slots).is_none());
    Ok(())
}
