//! What is kept for the numbers of departures: what a scan reads in one table, and the rest in
//! another.

ghost use Rattle.std.specs.Prelude.{◌≡◌, ◌<◌, IfOk, length, replicate, slice_set, true};
ghost use Rattle.dep_order.specs.Slots.{cold_part, fresh_slot, hot_part, slot_at, stored_in};
ghost use Rattle.dep_order.specs.Slots.{with_departure, with_onward};

use crate::departure::{Departure, Onward};
use crate::lists::NOBODY;
use mt_base::keys::Key;
use mt_base::memory::OutOfMemory;
use mt_base::numbers::{Label, StopNo, Time, TrainNo};
use std::alloc::Global;
use std::marker::Model;

/// What stands for the departure before it where no departure has the number.
pub(crate) const NO_DEPARTURE: u32 = u32::MAX - 1;

/// What a scan reads of a departure, in 24 bytes.
#[derive(Clone, Copy)]
pub(crate) struct Hot {
    pub(crate) time: Time,
    pub(crate) stop: StopNo,
    pub(crate) arrival: Time,
    pub(crate) to: StopNo,
    pub(crate) next: u32,
    /// The number of the one after it in its bucket.
    pub(crate) after: u32,
}

/// What only changes and look-ups read of it, in 16 bytes.
#[derive(Clone, Copy)]
pub(crate) struct Cold {
    pub(crate) scheduled: Time,
    pub(crate) train: TrainNo,
    pub(crate) label: Label,
    /// The number of the one before it in its bucket, or `NO_DEPARTURE`.
    pub(crate) before: u32,
}

/// The two parts of what is kept, by one number. It is seen as the list of both together.
#[derive(Drop)]
pub(crate) struct SlotTable {
    hot: Vec<Hot>,
    cold: Vec<Cold>,
}

impl Model for SlotTable {
    ghost use Rattle.std.specs.Prelude.{List};
    ghost use Rattle.dep_order.specs.Slots.{Slot};

    ghost Value = { List Slot };

    ghost use Rattle.dep_order.specs.Tables.{seen, ArePaired};

    ghost view = { seen };

    ghost invariant = { ArePaired };
}

impl SlotTable {
    /// So many numbers, which no departure has.
    pub(crate) fn fresh(alloc: Global, room: u32) -> Result<SlotTable, OutOfMemory>
        ensures { IfOk result (λ slots. slots ≡ replicate room (fresh_slot room)) }
    {
        let time = Time::new(0);
        let stop = StopNo::new(0);
        let hot = Hot {
            time,
            stop,
            arrival: time,
            to: stop,
            next: room,
            after: NOBODY,
        };
        let cold = Cold {
            scheduled: time,
            train: TrainNo::new(0),
            label: Label::new(0),
            before: NO_DEPARTURE,
        };
        Ok(SlotTable {
            hot: vec![in alloc; hot; room as usize]?,
            cold: vec![in alloc; cold; room as usize]?,
        })
    }

    /// The same once more.
    pub(crate) fn copy(&self, alloc: Global) -> Result<SlotTable, OutOfMemory>
        ensures { IfOk result (λ copy. copy ≡ self.now) }
    {
        Ok(SlotTable {
            hot: Vec::from_slice(alloc, &self.hot)?,
            cold: Vec::from_slice(alloc, &self.cold)?,
        })
    }

    /// How many numbers there are.
    #[inline(always)]
    pub(crate) fn len(&self) -> usize
        ensures { result ≡ length self.now }
    {
        self.hot.len()
    }

    /// What a scan reads of a number.
    #[inline(always)]
    pub(crate) fn hot(&self, number: u32) -> Hot
        requires { number < length self.now }
        ensures { result ≡ hot_part (slot_at self.now number) }
    {
        self.hot[number as usize]
    }

    /// What only changes and look-ups read of a number.
    #[inline(always)]
    pub(crate) fn cold(&self, number: u32) -> Cold
        requires { number < length self.now }
        ensures { result ≡ cold_part (slot_at self.now number) }
    {
        self.cold[number as usize]
    }

    /// The departure that has a number, or had it last.
    #[inline(always)]
    pub(crate) fn departure(&self, number: u32) -> Departure
        requires { number < length self.now }
        ensures { result ≡ stored_in (slot_at self.now number) }
    {
        let hot = self.hot(number);
        let cold = self.cold(number);
        Departure {
            time: hot.time,
            key: Key {
                time: cold.scheduled,
                train: cold.train,
                label: cold.label,
                dep: true,
            },
            stop: hot.stop,
        }
    }

    /// Gives a departure a number, between two others of its bucket. What its train does next
    /// stays.
    pub(crate) fn put(&mut self, number: u32, departure: &Departure, before: u32, after: u32)
        requires { number < length self.old }
        ensures { self.new ≡ slice_set self.old number
            (with_departure departure.now before after (slot_at self.old number)) }
    {
        let hot = &mut self.hot[number as usize];
        hot.time = departure.time;
        hot.stop = departure.stop;
        hot.after = after;
        self.cold[number as usize] = Cold {
            scheduled: departure.key.time,
            train: departure.key.train,
            label: departure.key.label,
            before,
        };
    }

    /// Lets the departure of a number take place at another time.
    #[inline(always)]
    pub(crate) fn set_time(&mut self, number: u32, time: Time)
        requires { number < length self.old }
        ensures { self.new ≡ slice_set self.old number
            (record (slot_at self.old number) { time = time }) }
    {
        self.hot[number as usize].time = time;
    }

    /// Lets another departure come after that of a number.
    #[inline(always)]
    pub(crate) fn set_after(&mut self, number: u32, after: u32)
        requires { number < length self.old }
        ensures { self.new ≡ slice_set self.old number
            (record (slot_at self.old number) { after = after }) }
    {
        self.hot[number as usize].after = after;
    }

    /// Lets another departure come before that of a number, or no departure have the number.
    #[inline(always)]
    pub(crate) fn set_before(&mut self, number: u32, before: u32)
        requires { number < length self.old }
        ensures { self.new ≡ slice_set self.old number
            (record (slot_at self.old number) { before = before }) }
    {
        self.cold[number as usize].before = before;
    }

    /// Lets the train of the departure of a number do something else next.
    #[inline(always)]
    pub(crate) fn set_onward(&mut self, number: u32, onward: &Onward)
        requires { number < length self.old }
        ensures { self.new ≡ slice_set self.old number
            (with_onward onward.now (slot_at self.old number)) }
    {
        let hot = &mut self.hot[number as usize];
        hot.arrival = onward.arrival;
        hot.to = onward.to;
        hot.next = onward.next;
    }
}
