//! Departures in slots by number, and the lists of those of each bucket.

ghost use Rattle.std.specs.Prelude.{◌≡◌, ◌<◌, ◌≤◌, ◌^◌, IfOk, None, get_or, length, replicate};
ghost use Rattle.std.specs.Prelude.{slice_set};
ghost use Rattle.dep_order.specs.Departing.{held};
ghost use Rattle.dep_order.specs.Ordered.{blank_onward};
ghost use Rattle.dep_order.specs.Stored.{AreKept, entries_of, onwards_of};

use crate::departure::{Departure, Onward};
use crate::slot_table::{NO_DEPARTURE, SlotTable};
use mt_base::memory::OutOfMemory;
use std::alloc::Global;

/// What stands for no departure in a link.
pub(crate) const NOBODY: u32 = u32::MAX;

/// How many seconds a bucket is for.
pub(crate) const BUCKET_SECONDS: u32 = 8;

/// The numbers of the first and the last departure of a bucket.
#[derive(Clone, Copy)]
pub(crate) struct Bucket {
    pub(crate) first: u32,
    pub(crate) last: u32,
}

/// Departures in slots by number, linked in buckets of eight seconds by their times, of which the
/// last is for all later times too.
#[derive(Drop)]
pub(crate) struct Lists {
    pub(crate) slots: SlotTable,
    pub(crate) buckets: Vec<Bucket>,
}

/// The numbers of two departures of a bucket between which there is none.
#[derive(Clone, Copy)]
pub(crate) struct Gap {
    pub(crate) before: u32,
    pub(crate) after: u32,
}

impl Lists {
    /// No departures, with so many numbers for them, and a bucket for each eight seconds up to a
    /// time.
    pub(crate) fn empty(alloc: Global, room: u32, latest: u32) -> Result<Lists, OutOfMemory>
        requires { room ≤ 2 ^ 22 }
        ensures kept { IfOk result (λ lists. AreKept lists) }
        ensures entries { IfOk result (λ lists. entries_of lists ≡ replicate room None) }
    {
        let buckets = (latest / BUCKET_SECONDS) as usize + 1;
        let bucket = Bucket {
            first: NOBODY,
            last: NOBODY,
        };
        Ok(Lists {
            slots: SlotTable::fresh(alloc, room)?,
            buckets: vec![in alloc; bucket; buckets]?,
        })
    }

    /// The same lists once more.
    pub(crate) fn copy(&self, alloc: Global) -> Result<Lists, OutOfMemory>
        ensures kept { AreKept self.now → IfOk result (λ copy. AreKept copy) }
        ensures entries { IfOk result (λ copy. entries_of copy ≡ entries_of self.now) }
        ensures onwards { IfOk result (λ copy. onwards_of copy ≡ onwards_of self.now) }
    {
        Ok(Lists {
            slots: self.slots.copy(alloc)?,
            buckets: Vec::from_slice(alloc, &self.buckets)?,
        })
    }

    /// The departure that has a number, if there is one.
    #[inline]
    pub(crate) fn departure(&self, number: u32) -> Option<Departure>
        ensures { result ≡ held (entries_of self.now) number }
    {
        if number as usize >= self.slots.len() || self.slots.cold(number).before == NO_DEPARTURE {
            return None;
        }
        Some(self.slots.departure(number))
    }

    /// What the train of the departure of a number does next.
    #[inline]
    pub(crate) fn onward(&self, number: u32) -> Onward
        requires { number < length (onwards_of self.now) }
        ensures { result ≡ get_or (onwards_of self.now) number blank_onward }
    {
        let hot = self.slots.hot(number);
        Onward {
            arrival: hot.arrival,
            to: hot.to,
            next: hot.next,
        }
    }

    /// Lets the train of the departure of a number do something else next.
    #[inline]
    pub(crate) fn set_onward(&mut self, number: u32, onward: &Onward)
        requires kept { AreKept self.old }
        requires there { number < length (onwards_of self.old) }
        requires next { onward.now.next ≤ length (onwards_of self.old) }
        ensures kept { AreKept self.new }
        ensures entries { entries_of self.new ≡ entries_of self.old }
        ensures onwards { onwards_of self.new
            ≡ slice_set (onwards_of self.old) number onward.now }
    {
        self.slots.set_onward(number, onward);
    }
}
