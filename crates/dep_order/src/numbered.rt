//! Departures by number.

ghost use Rattle.std.specs.Prelude.{◌≡◌, ℕ, ◌<◌, ◌≤◌, ◌^◌, All, IfOk, IsSome, None, Some, filter};
ghost use Rattle.std.specs.Prelude.{get_or, length, map, nat_le, replicate, slice_get, slice_set};
ghost use Rattle.std.specs.Prelude.{true};
ghost use Rattle.dep_order.specs.declared.departure.Departure.{Departure as ADeparture};
ghost use Rattle.dep_order.specs.Departing.{departures_in_order, held};
ghost use Rattle.dep_order.specs.Held.{HaveDistinctCalls, IsNewCall, leaving_among, with_time};
ghost use Rattle.dep_order.specs.Ordered.{blank_onward};

use crate::departure::{Departure, Onward};
use crate::guides::Guides;
use crate::lists::Lists;
use crate::scan::Departures;
use mt_base::memory::OutOfMemory;
use mt_base::numbers::Time;
use std::alloc::Global;
use std::marker::Model;

/// Departures by number, in the order of their times and then of their keys, of which no two are
/// of the same call. It is seen as the list, by number, of the departures that are there, and that
/// of what their trains do next.
#[derive(Drop)]
pub(crate) struct NumberedDepartures {
    lists: Lists,
    guides: Guides,
}

impl Model for NumberedDepartures {
    ghost use Rattle.dep_order.specs.Held.{Numbered, coded_numbered};

    ghost Value = { Numbered };

    ghost coded = { coded_numbered };

    ghost use Rattle.dep_order.specs.Numbered.{seen, AreNumbered};

    ghost view = { seen };

    ghost invariant = { AreNumbered };
}

impl NumberedDepartures {
    /// No departures, with so many numbers for them, from 0. Most of them are to take place up to
    /// a time in seconds from the base of day 0; the order is as right, and slower, where many
    /// take place later.
    pub(crate) fn build(
        alloc: Global,
        room: u32,
        latest: u32,
    ) -> Result<NumberedDepartures, OutOfMemory>
        requires { room ≤ 2 ^ 22 }
        ensures { IfOk result (λ order. order.entries ≡ replicate room None) }
    {
        Ok(NumberedDepartures {
            lists: Lists::empty(alloc, room, latest)?,
            guides: Guides::with_room(alloc, room)?,
        })
    }

    /// The same departures once more.
    pub(crate) fn copy(&self, alloc: Global) -> Result<NumberedDepartures, OutOfMemory>
        ensures { IfOk result (λ copy. copy ≡ self.now) }
    {
        Ok(NumberedDepartures {
            lists: self.lists.copy(alloc)?,
            guides: self.guides.none_as(alloc)?,
        })
    }

    /// How many numbers there are.
    pub(crate) fn numbers(&self) -> u32
        ensures { result ≡ length self.now.entries }
    {
        self.lists.slots.len() as u32
    }

    /// The departure that has a number, if there is one.
    #[inline]
    pub(crate) fn departure(&self, number: u32) -> Option<Departure>
        ensures { result ≡ held self.now.entries number }
    {
        self.lists.departure(number)
    }

    /// What the train of the departure of a number does next.
    #[inline]
    pub(crate) fn onward(&self, number: u32) -> Onward
        requires { number < length self.now.onwards }
        ensures { result ≡ get_or self.now.onwards number blank_onward }
    {
        self.lists.onward(number)
    }

    /// Lets the train of the departure of a number do something else next.
    #[inline]
    pub(crate) fn set_onward(&mut self, number: u32, onward: &Onward)
        requires there { number < length self.old.onwards }
        requires next { onward.now.next ≤ length self.old.onwards }
        ensures entries { self.new.entries ≡ self.old.entries }
        ensures onwards { self.new.onwards ≡ slice_set self.old.onwards number onward.now }
    {
        self.lists.set_onward(number, onward);
    }

    /// Gives a departure a number that no departure has. It takes no memory.
    pub(crate) fn put(&mut self, number: u32, departure: Departure)
        requires free { slice_get self.old.entries number ≡ Some None }
        requires new_call { IsNewCall self.old.entries departure.key }
        requires departs { departure.key.dep ≡ true }
        ensures entries { self.new.entries ≡ slice_set self.old.entries number (Some departure) }
        ensures onwards { self.new.onwards ≡ self.old.onwards }
    {
        self.lists.insert(&mut self.guides, number, departure);
    }

    /// Takes out the departure that has a number.
    pub(crate) fn take(&mut self, number: u32)
        requires { IsSome (held self.old.entries number) }
        ensures entries { self.new.entries ≡ slice_set self.old.entries number None }
        ensures onwards { self.new.onwards ≡ self.old.onwards }
    {
        self.lists.remove(number);
    }

    /// Lets the departure that has a number take place at another time. Nothing moves where it
    /// keeps its place.
    #[inline]
    pub(crate) fn move_to(&mut self, number: u32, time: Time)
        requires { IsSome (held self.old.entries number) }
        ensures entries { self.new.entries ≡ with_time number time self.old.entries }
        ensures onwards { self.new.onwards ≡ self.old.onwards }
    {
        self.lists.retime(&mut self.guides, number, time);
    }

    /// The departures that do not take place before a time, one after another in their order.
    pub(crate) fn departures_from(&self, time: Time) -> Departures<'_>
        ensures { result ≡ map (leaving_among self.now.entries self.now.onwards)
            (filter (λ d. nat_le time d.time) (departures_in_order self.now.entries)) }
    {
        let first = self.lists.first_from(time);
        Departures {
            lists: &self.lists,
            bucket: first.bucket,
            number: first.number,
        }
    }

    /// A law: no two departures are of the same call; what holds of numbers.
    #[inline(always)]
    pub(crate) fn numbers_are_lawful(&self)
        ensures calls { HaveDistinctCalls self.now.entries }
        ensures departs { (i : ℕ) (d : ADeparture) → held self.now.entries i ≡ Some d
            → d.key.dep ≡ true }
        ensures onwards { length self.now.onwards ≡ length self.now.entries }
        ensures few { length self.now.entries ≤ 2 ^ 22 }
        ensures past { All (λ o. o.next ≤ length self.now.entries) self.now.onwards }
    {
        let _ = &self.lists;
    }
}
