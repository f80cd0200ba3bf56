//! A number for each call of a train.

ghost use Rattle.std.specs.Prelude.{◌≡◌, ℕ, ◌<◌, ◌≤◌, ◌&&◌, [], IfOk, Some, get_or, if◌then◌else◌};
ghost use Rattle.std.specs.Prelude.{length, nat_eq};
ghost use Rattle.dep_order.specs.CallNumbering.{labels_of, number_at, with_label_numbers};
ghost use Rattle.dep_order.specs.CallNumbering.{with_number, with_train_numbers};

use event_numbers::Slots;
use mt_base::memory::OutOfMemory;
use mt_base::numbers::{Label, TrainNo};
use std::alloc::Global;
use std::marker::Model;

/// A number for each call, by its train and label. A number that was not set is `u32::MAX`. All
/// memory is taken when it is made.
#[derive(Drop)]
pub struct CallNumbers {
    slots: Slots,
    /// By the slots of calls.
    numbers: Vec<u32>,
}

impl Model for CallNumbers {
    ghost use Rattle.dep_order.specs.CallNumbering.{StoredNumbers};
    ghost use Rattle.dep_order.specs.StoredCalls.{seen, AreStored};

    ghost Value = { StoredNumbers };

    ghost view = { seen };

    ghost invariant = { AreStored };
}

impl CallNumbers {
    /// No numbers, with room for those of so many trains, and of so many calls of all trains
    /// together. `OutOfMemory` where there is no memory, and for 2^31 calls or more.
    pub fn with_room(alloc: Global, trains: u32, calls: u32) -> Result<CallNumbers, OutOfMemory>
        ensures { IfOk result (λ numbers.
            numbers ≡ record { trains = []; spare_trains = trains; spare_calls = calls }) }
    {
        let slots = Slots::with_room(alloc, trains, calls)?;
        Ok(CallNumbers {
            slots,
            numbers: vec![in alloc; u32::MAX; calls as usize]?,
        })
    }

    /// The same numbers once more, with the same room. `OutOfMemory` where there is no memory.
    pub fn copy(&self, alloc: Global) -> Result<CallNumbers, OutOfMemory>
        ensures { IfOk result (λ copy. copy ≡ self.now) }
    {
        Ok(CallNumbers {
            slots: self.slots.copy(alloc)?,
            numbers: self.numbers.clone()?,
        })
    }

    /// The number of the call of a train with a label. None exactly where no such label was ever
    /// made.
    #[inline]
    #[tactic(auto, using(crate::proofs::CallLemmas::calls))]
    pub fn get(&self, t: TrainNo, l: Label) -> Option<u32>
        ensures { result ≡ number_at self.now t l }
    {
        self.slots.numbers_are_lawful();
        let slot = self.slots.slot(t, l)?;
        Some(self.numbers[slot as usize])
    }

    /// Changes the number of a call.
    pub fn set(&mut self, t: TrainNo, l: Label, number: u32)
        requires { l < get_or (labels_of self.old) t 0 }
        ensures stored { self.new ≡ with_number t l number self.old }
        ensures number { (u m : ℕ) → number_at self.new u m
            ≡ (if nat_eq u t && nat_eq m l then Some number else number_at self.old u m) }
    {
        self.slots.numbers_are_lawful();
        let Some(slot) = self.slots.slot(t, l) else {
            unreachable!()
        };
        self.numbers[slot as usize] = number;
    }

    /// Numbers for the calls of one more train, which has so many labels, none of them set. It
    /// takes no memory.
    pub fn push_train(&mut self, labels: u32)
        requires train_spare { 0 < self.old.spare_trains }
        requires some { 1 ≤ labels }
        requires calls_spare { labels ≤ self.old.spare_calls }
        ensures { self.new ≡ with_train_numbers labels self.old }
    {
        let _ = self.slots.push_train(labels);
    }

    /// Numbers for so many more labels of a train, none of them set. It takes no memory.
    pub fn add_labels(&mut self, t: TrainNo, labels: u32)
        requires there { t < length self.old.trains }
        requires calls_spare { labels ≤ self.old.spare_calls }
        ensures { self.new ≡ with_label_numbers t labels self.old }
    {
        let _ = self.slots.add_calls(t, labels);
    }
}
