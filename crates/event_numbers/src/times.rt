//! The stored times of events.

ghost use Rattle.std.specs.Prelude.{◌≡◌, ℕ, ◌+◌, ◌*◌, ◌<◌, ◌≤◌, [], IsTrue, IfOk, Some, if◌then◌else◌, is_some, length, replicate};
ghost use Rattle.mt_base.specs.declared.keys.Node.{Node as ANode};
ghost use Rattle.mt_base.specs.Order.{is_same_node};
ghost use Rattle.event_numbers.specs.Numbering.{slot_of};
ghost use Rattle.event_numbers.specs.SlotTimes.{IsNumberOf, blank_trains};
ghost use Rattle.event_numbers.specs.Times.{
  time_of,
  has_time,
  with_time,
  no_time,
  with_train_times,
  with_labels,
};

use crate::slots::Slots;
use crate::steps::Steps;
use mt_base::keys::Node;
use mt_base::memory::OutOfMemory;
use mt_base::numbers::{Time, TrainNo};
use std::alloc::Global;
use std::marker::Model;
use std::sync::ledger::Ledger;

/// A time for each event, in seconds from the base of day 0. All memory is taken when it is made.
#[derive(Drop)]
pub struct NodeTimes {
    slots: Slots,
    /// Of each slot the arrival's and the departure's.
    times: Vec<Time>,
}

impl Model for NodeTimes {
    ghost use Rattle.event_numbers.specs.Times.{StoredTimes};
    ghost use Rattle.event_numbers.specs.SlotTimes.{seen, AreHeld};

    ghost Value = { StoredTimes };

    ghost view = { seen };

    ghost invariant = { AreHeld };
}

/// So many times: 2^25 - 1 each, which no settled event has.
fn blank_times(alloc: Global, count: usize) -> Result<Vec<Time>, OutOfMemory>
    ensures { IfOk result (λ times. times.items ≡ replicate count no_time) }
{
    let mut times = Vec::with_capacity(alloc, count)?;
    times.resize(count, Time::new(33_554_431))?;
    Ok(times)
}

/// The number of an event, which is the place of its time.
#[inline(always)]
fn number_of(slots: &Slots, n: Node) -> usize
    requires { IsTrue (is_some (slot_of slots.now n.train n.label)) }
    ensures { IsNumberOf slots.now n result }
{
    slots.numbers_are_lawful();
    let Some(slot) = slots.slot(n.train, n.label) else {
        unreachable!()
    };
    let arrival = 2 * slot as usize;
    if n.dep { arrival + 1 } else { arrival }
}

impl NodeTimes {
    /// No times, with room for those of so many trains, and of so many calls of all trains
    /// together. `OutOfMemory` where there is no memory, and for 2^31 calls or more.
    pub fn with_room(alloc: Global, trains: u32, calls: u32) -> Result<NodeTimes, OutOfMemory>
        ensures { IfOk result (λ times.
            times ≡ record { trains = []; spare_trains = trains; spare_calls = calls }) }
    {
        let slots = Slots::with_room(alloc, trains, calls)?;
        Ok(NodeTimes {
            slots,
            times: blank_times(alloc, 2 * calls as usize)?,
        })
    }

    /// Times for the events of all calls that have slots, 2^25 - 1 for each, with the same room.
    /// `OutOfMemory` where there is no memory.
    #[tactic(auto, using(crate::proofs::SlotTimeLemmas::given))]
    pub fn blank(alloc: Global, slots: &Slots) -> Result<NodeTimes, OutOfMemory>
        ensures { IfOk result (λ times. times ≡ blank_trains slots.now) }
    {
        let count = 2 * (slots.used() as usize + slots.spare_calls() as usize);
        Ok(NodeTimes {
            slots: slots.copy(alloc)?,
            times: blank_times(alloc, count)?,
        })
    }

    /// The same times once more, with the same room. `OutOfMemory` where there is no memory.
    pub fn copy(&self, alloc: Global) -> Result<NodeTimes, OutOfMemory>
        ensures { IfOk result (λ copy. copy ≡ self.now) }
    {
        Ok(NodeTimes {
            slots: self.slots.copy(alloc)?,
            times: self.times.clone()?,
        })
    }

    /// The time of an event, in seconds from the base of day 0. It takes one step, and nothing else
    /// takes one.
    #[inline(always)]
    #[tactic(auto, using(crate::proofs::SlotTimeLemmas::events))]
    pub fn read<L: Ledger>(&self, n: Node, steps: &mut Steps<L>) -> Time
        requires { IsTrue (has_time self.now n) }
        ensures time { time_of self.now n ≡ Some result }
        ensures cost { steps.new ≡ steps.old + 1 }
    {
        steps.tick();
        self.times[number_of(&self.slots, n)]
    }

    /// Changes the time of an event, in seconds from the base of day 0.
    #[tactic(auto, using(crate::proofs::SlotTimeLemmas::events))]
    pub fn write(&mut self, n: Node, t: Time)
        requires { IsTrue (has_time self.old n) }
        ensures stored { self.new ≡ with_time n t self.old }
        ensures time { (m : ANode)
            → time_of self.new m ≡ (if is_same_node n m then Some t else time_of self.old m) }
    {
        self.slots.numbers_are_lawful();
        let number = number_of(&self.slots, n);
        self.times[number] = t;
    }

    /// Times for the events of one more train, which has so many labels: 2^25 - 1 for each, which
    /// no settled event has. It takes no memory.
    #[tactic(auto, using(crate::proofs::SlotTimeLemmas::given))]
    pub fn push_train(&mut self, labels: u32)
        requires train_spare { 0 < self.old.spare_trains }
        requires some { 1 ≤ labels }
        requires calls_spare { labels ≤ self.old.spare_calls }
        ensures { self.new ≡ with_train_times labels self.old }
    {
        let _ = self.slots.push_train(labels);
    }

    /// Times for the events of so many more labels of a train, as for those of a new train. It
    /// takes no memory.
    pub fn add_labels(&mut self, t: TrainNo, labels: u32)
        requires there { t < length self.old.trains }
        requires calls_spare { labels ≤ self.old.spare_calls }
        ensures { self.new ≡ with_labels t labels self.old }
    {
        let _ = self.slots.add_calls(t, labels);
    }
}
