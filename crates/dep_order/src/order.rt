//! Departures in the order in which they take place, each with a number, and with what its train
//! does next.

ghost use Rattle.std.specs.Prelude.{◌≡◌, ◌≢◌, ℕ, ◌+◌, ◌-◌, ◌<◌, ◌≤◌, ◌^◌, [], ◌∷◌, ◌++◌, All};
ghost use Rattle.std.specs.Prelude.{IfNone, IfOk, IfSome, None, Some, filter, get_or};
ghost use Rattle.std.specs.Prelude.{if◌then◌else◌, length, map};
ghost use Rattle.std.specs.Prelude.{nat_le, not, replicate, slice_set, true, false};
ghost use Rattle.std.specs.List.{AllPairs, list_any};
ghost use Rattle.std.specs.Option.{option_map};
ghost use Rattle.mt_base.specs.Order.{is_before, is_same};
ghost use Rattle.mt_base.specs.Sorted.{in_order, placed};
ghost use Rattle.event_numbers.specs.Lists.{change_at};
ghost use Rattle.dep_order.specs.declared.departure.Departure.{Departure as ADeparture};
ghost use Rattle.dep_order.specs.CallNumbering.{labels_of};
ghost use Rattle.dep_order.specs.Departing.{departures_in_order, held, leaves_before};
ghost use Rattle.dep_order.specs.Held.{IsNewKey};
ghost use Rattle.dep_order.specs.Ordered.{HasPlace, KeepsDepartures, KeepsRoom, at_time};
ghost use Rattle.dep_order.specs.Ordered.{is_of_call, leaving_of, moved, number_of};
ghost use Rattle.dep_order.specs.Ordered.{number_or_past, onward_at, without};

use crate::call_numbers::CallNumbers;
use crate::departure::{Departure, Onward};
use crate::numbered::NumberedDepartures;
use crate::scan::Departures;
use mt_base::keys::Key;
use mt_base::memory::OutOfMemory;
use mt_base::numbers::{Label, StopNo, Time, TrainNo};
use std::alloc::Global;
use std::marker::Model;

/// Departures in the order of their times and then of their keys, each with a number that no other
/// ever has, and with what its train does next. All memory is taken when it is made.
#[derive(Drop)]
pub struct DepartureOrder {
    numbered: NumberedDepartures,
    /// The number of each departure, at its call.
    numbers: CallNumbers,
    /// How many numbers were given.
    used: u32,
}

impl Model for DepartureOrder {
    ghost use Rattle.dep_order.specs.Ordered.{Ordered, coded_ordered};

    ghost Value = { Ordered };

    ghost coded = { coded_ordered };

    ghost use Rattle.dep_order.specs.Inside.{seen, IsOrdered};

    ghost view = { seen };

    ghost invariant = { IsOrdered };
}

impl DepartureOrder {
    /// These departures, which are given in the order of their keys and have their places as
    /// numbers, with so many numbers more. What their trains do next is to be told before a scan.
    /// `OutOfMemory` where there is no memory for them.
    pub fn build(
        alloc: Global,
        departures: &[Departure],
        numbers: CallNumbers,
        spare: u32,
    ) -> Result<DepartureOrder, OutOfMemory>
        // departures of different calls, in the order of their keys
        requires ascends { AllPairs (λ a b. is_before a.key b.key ≡ true) departures.now }
        requires departs { All (λ d. d.key.dep ≡ true) departures.now }
        requires calls { AllPairs (λ a b. is_of_call a.key.train a.key.label b ≡ false)
            departures.now }

        // the number of each can be noted, and there are not too many
        requires places { All (λ d. HasPlace (labels_of numbers) d.key) departures.now }
        requires few { length departures.now + spare ≤ 2 ^ 22 }

        // the departures by time and by number
        ensures departures { IfOk result (λ order. order.departures
            ≡ in_order leaves_before departures.now) }
        ensures entries { IfOk result (λ order. order.entries
            ≡ map (λ d. Some d) departures.now ++ replicate spare None) }
        ensures used { IfOk result (λ order. order.used ≡ length departures.now) }

        // the places for numbers, and the room for more, are as given
        ensures labels { IfOk result (λ order. order.labels ≡ labels_of numbers) }
        ensures spare_trains { IfOk result (λ order. order.spare_trains ≡ numbers.spare_trains) }
        ensures spare_calls { IfOk result (λ order. order.spare_calls ≡ numbers.spare_calls) }
    {
        let room = departures.len() as u32 + spare;
        let mut order = DepartureOrder::empty(alloc, room, latest(departures), numbers)?;
        for departure in departures {
            order.departures_are_in_order();
            order.put(departure);
        }
        order.departures_are_in_order();
        Ok(order)
    }

    /// The same departures once more, with the same room. `OutOfMemory` where there is no memory.
    pub fn copy(&self, alloc: Global) -> Result<DepartureOrder, OutOfMemory>
        ensures { IfOk result (λ copy. copy ≡ self.now) }
    {
        Ok(DepartureOrder {
            numbered: self.numbered.copy(alloc)?,
            numbers: self.numbers.copy(alloc)?,
            used: self.used,
        })
    }

    /// Places for the numbers of one more train, which has so many labels. It takes no memory.
    pub fn push_train(&mut self, labels: u32)
        requires train_spare { 0 < self.old.spare_trains }
        requires some { 1 ≤ labels }
        requires calls_spare { labels ≤ self.old.spare_calls }
        ensures labels { self.new.labels ≡ self.old.labels ++ labels ∷ [] }
        ensures spare_trains { self.new.spare_trains ≡ self.old.spare_trains - 1 }
        ensures spare_calls { self.new.spare_calls ≡ self.old.spare_calls - labels }
        ensures departures { KeepsDepartures self.old self.new }
    {
        self.numbers.push_train(labels);
    }

    /// Places for the numbers of so many more labels of a train. It takes no memory.
    pub fn add_labels(&mut self, t: TrainNo, labels: u32)
        requires there { t < length self.old.labels }
        requires calls_spare { labels ≤ self.old.spare_calls }
        ensures labels { self.new.labels ≡ change_at t (λ n. n + labels) self.old.labels }
        ensures spare_trains { self.new.spare_trains ≡ self.old.spare_trains }
        ensures spare_calls { self.new.spare_calls ≡ self.old.spare_calls - labels }
        ensures departures { KeepsDepartures self.old self.new }
    {
        self.numbers.add_labels(t, labels);
    }

    /// Puts in a departure of a call of which none is there. It gets the first number that was
    /// never given. What its train does next is to be told before a scan. It takes no memory.
    pub fn put(&mut self, departure: &Departure)
        // a departure of a new call, for whose number there is a place
        requires departs { departure.now.key.dep ≡ true }
        requires new_call { All (λ d. is_of_call departure.now.key.train departure.now.key.label d
            ≡ false) self.old.departures }
        requires place { HasPlace self.old.labels departure.now.key }
        requires room { self.old.used < length self.old.entries }

        // it is there, with the next number
        ensures departures { self.new.departures
            ≡ placed leaves_before departure.now self.old.departures }
        ensures entries { self.new.entries
            ≡ slice_set self.old.entries self.old.used (Some departure.now) }
        ensures used { self.new.used ≡ self.old.used + 1 }

        // all else is as before
        ensures onwards { self.new.onwards ≡ self.old.onwards }
        ensures room { KeepsRoom self.old self.new }
    {
        self.numbered.numbers_are_lawful();
        let number = self.used;
        self.numbers
            .set(departure.key.train, departure.key.label, number);
        self.numbered.put(number, *departure);
        self.used += 1;
    }

    /// Takes out the departure that has a key, if there is one.
    pub fn take(&mut self, key: &Key)
        ensures departures { self.new.departures
            ≡ filter (λ d. not (is_same d.key key.now)) self.old.departures }
        ensures entries { self.new.entries ≡ map (without key.now) self.old.entries }
        ensures used { self.new.used ≡ self.old.used }
        ensures onwards { self.new.onwards ≡ self.old.onwards }
        ensures room { KeepsRoom self.old self.new }
    {
        self.numbered.numbers_are_lawful();
        if let Some(number) = self.number_with(key) {
            self.numbered.take(number);
        }
    }

    /// Lets the departure that has a key take place at another time, and answers whether there is
    /// one. Nothing moves where it keeps its place.
    #[inline]
    pub fn move_to(&mut self, key: &Key, time: Time) -> bool
        ensures there { result ≡ list_any (λ d. is_same d.key key.now) self.old.departures }
        ensures departures { self.new.departures ≡ moved key.now time self.old.departures }
        ensures entries { self.new.entries
            ≡ map (option_map (at_time key.now time)) self.old.entries }
        ensures used { self.new.used ≡ self.old.used }
        ensures onwards { self.new.onwards ≡ self.old.onwards }
        ensures room { KeepsRoom self.old self.new }
    {
        self.numbered.numbers_are_lawful();
        match self.number_with(key) {
            Some(number) => {
                self.numbered.move_to(number, time);
                true
            }
            None => false,
        }
    }

    /// Lets the train arrive at another time after its departure from a call, in seconds from the
    /// base of day 0. Nothing changes where there is no such departure.
    pub fn set_arrival(&mut self, t: TrainNo, l: Label, arrival: Time)
        ensures onwards { (n : ℕ) (d : ADeparture) → held self.old.entries n ≡ Some d
            → onward_at self.new n ≡ (if is_of_call t l d
            then record (onward_at self.old n) { arrival = arrival }
            else onward_at self.old n) }
        ensures departures { self.new.departures ≡ self.old.departures }
        ensures entries { self.new.entries ≡ self.old.entries }
        ensures used { self.new.used ≡ self.old.used }
        ensures room { KeepsRoom self.old self.new }
    {
        self.numbered.numbers_are_lawful();
        if let Some(number) = self.number_of(t, l) {
            let onward = self.numbered.onward(number);
            self.numbered
                .set_onward(number, &Onward { arrival, ..onward });
        }
    }

    /// Lets the train arrive at a stop after its departure from a call, and go on from there with
    /// the departure of another call. Nothing changes where there is no such departure.
    pub fn set_links(&mut self, t: TrainNo, l: Label, to: StopNo, next: Label)
        ensures onwards { (n : ℕ) (d : ADeparture) → held self.old.entries n ≡ Some d
            → onward_at self.new n ≡ (if is_of_call t l d
            then record (onward_at self.old n) {
              to = to;
              next = number_or_past self.old.entries t next;
            } else onward_at self.old n) }
        ensures departures { self.new.departures ≡ self.old.departures }
        ensures entries { self.new.entries ≡ self.old.entries }
        ensures used { self.new.used ≡ self.old.used }
        ensures room { KeepsRoom self.old self.new }
    {
        self.numbered.numbers_are_lawful();
        if let Some(number) = self.number_of(t, l) {
            let next = self.number_or_past(t, next);
            let onward = self.numbered.onward(number);
            self.numbered
                .set_onward(number, &Onward { to, next, ..onward });
        }
    }

    /// Lets the train do something else after the departure that has a number: it arrives at a stop
    /// at a time, in seconds from the base of day 0, and goes on from there with the departure of
    /// another call.
    pub fn set_onward(
        &mut self,
        number: u32,
        departure: &Departure,
        to: StopNo,
        arrival: Time,
        next: Label,
    )
        requires { held self.old.entries number ≡ Some departure.now }
        ensures onwards { (n : ℕ) (d : ADeparture) → held self.old.entries n ≡ Some d
            → onward_at self.new n
            ≡ (if is_of_call departure.now.key.train departure.now.key.label d then record {
              arrival = arrival;
              to = to;
              next = number_or_past self.old.entries departure.now.key.train next;
            } else onward_at self.old n) }
        ensures departures { self.new.departures ≡ self.old.departures }
        ensures entries { self.new.entries ≡ self.old.entries }
        ensures used { self.new.used ≡ self.old.used }
        ensures room { KeepsRoom self.old self.new }
    {
        self.numbered.numbers_are_lawful();
        let next = self.number_or_past(departure.key.train, next);
        self.numbered
            .set_onward(number, &Onward { arrival, to, next });
    }

    /// What the train does after its departure from a call, if there is such a departure.
    pub fn onward_after(&self, t: TrainNo, l: Label) -> Option<Onward>
        ensures { result ≡ option_map (onward_at self.now) (number_of self.now.entries t l) }
    {
        self.numbered.numbers_are_lawful();
        let number = self.number_of(t, l)?;
        Some(self.numbered.onward(number))
    }

    /// The departure that has a number, if there is one.
    pub fn departure(&self, number: u32) -> Option<Departure>
        ensures { result ≡ held self.now.entries number }
    {
        self.numbered.departure(number)
    }

    /// What was told last of what the train of the departure of a number does next.
    pub fn onward(&self, number: u32) -> Onward
        requires { number < length self.now.entries }
        ensures { result ≡ onward_at self.now number }
    {
        self.numbered.numbers_are_lawful();
        self.numbered.onward(number)
    }

    /// How many numbers departures can have, from 0.
    pub fn numbers(&self) -> u32
        ensures { result ≡ length self.now.entries }
    {
        self.numbered.numbers()
    }

    /// The departures that do not take place before a time, one after another in their order.
    #[inline]
    pub fn departures_from(&self, time: Time) -> Departures<'_>
        ensures { result ≡ map (leaving_of self.now)
            (filter (λ d. nat_le time d.time) self.now.departures) }
    {
        self.numbered.departures_from(time)
    }

    /// A law: each departure leaves before those after it, all are those that have numbers, and no
    /// two have the same key or are of the same call; what holds of their numbers.
    pub fn departures_are_in_order(&self)
        // the order
        ensures ascends { AllPairs (λ a b. leaves_before a b ≡ true) self.now.departures }
        ensures keys { AllPairs (λ a b. a.key ≢ b.key) self.now.departures }
        ensures all { self.now.departures ≡ departures_in_order self.now.entries }

        // the departures by number
        ensures calls { (i j : ℕ) (d e : ADeparture) → held self.now.entries i ≡ Some d
            → held self.now.entries j ≡ Some e → d.key.train ≡ e.key.train
            → d.key.label ≡ e.key.label → i ≡ j }
        ensures departs { (i : ℕ) (d : ADeparture) → held self.now.entries i ≡ Some d
            → d.key.dep ≡ true }

        // the numbers
        ensures onwards { length self.now.onwards ≡ length self.now.entries }
        ensures used { self.now.used ≤ length self.now.entries }
        ensures few { length self.now.entries ≤ 2 ^ 22 }
        ensures unused { (n : ℕ) → self.now.used ≤ n → held self.now.entries n ≡ None }
        ensures past { (n : ℕ) → n < length self.now.entries
            → (onward_at self.now n).next ≤ length self.now.entries }
    {
        self.numbered.numbers_are_lawful();
    }

    /// No departures, with so many numbers for them. Most of them are to take place up to a time in
    /// seconds from the base of day 0.
    fn empty(
        alloc: Global,
        room: u32,
        latest: u32,
        numbers: CallNumbers,
    ) -> Result<DepartureOrder, OutOfMemory>
        requires { room ≤ 2 ^ 22 }
        ensures entries { IfOk result (λ order. order.entries ≡ replicate room None) }
        ensures used { IfOk result (λ order. order.used ≡ 0) }
        ensures labels { IfOk result (λ order. order.labels ≡ labels_of numbers) }
        ensures spare_trains { IfOk result (λ order. order.spare_trains ≡ numbers.spare_trains) }
        ensures spare_calls { IfOk result (λ order. order.spare_calls ≡ numbers.spare_calls) }
    {
        Ok(DepartureOrder {
            numbered: NumberedDepartures::build(alloc, room, latest)?,
            numbers,
            used: 0,
        })
    }

    /// The number of the departure of a call, if there is one.
    #[inline]
    fn number_of(&self, t: TrainNo, l: Label) -> Option<u32>
        ensures is { result ≡ number_of self.now.entries t l }
        ensures within { IfSome result (λ n. n < length self.now.entries) }
    {
        let number = self.numbers.get(t, l)?;
        let departure = self.numbered.departure(number)?;
        if departure.key.train == t && departure.key.label == l {
            Some(number)
        } else {
            None
        }
    }

    /// The number of the departure of a call, or the number past all where there is none.
    #[inline]
    fn number_or_past(&self, t: TrainNo, l: Label) -> u32
        ensures is { result ≡ number_or_past self.now.entries t l }
        ensures within { result ≤ length self.now.entries }
    {
        match self.number_of(t, l) {
            Some(number) => number,
            None => self.numbers(),
        }
    }

    /// The number of the departure that has a key, if there is one.
    #[inline]
    fn number_with(&self, key: &Key) -> Option<u32>
        ensures some { IfSome result (λ n. (d : ADeparture) × (held self.now.entries n ≡ Some d)
            × (d.key ≡ key.now)) }
        ensures none { IfNone result (IsNewKey self.now.entries key.now) }
    {
        let number = self.numbers.get(key.train, key.label)?;
        let departure = self.numbered.departure(number)?;
        if departure.key.is_same(key) {
            Some(number)
        } else {
            None
        }
    }
}

/// Four hours after the scheduled time of the last departure, in seconds from the base of day 0.
fn latest(departures: &[Departure]) -> u32 {
    match departures.last() {
        Some(departure) => departure.key.time.seconds().saturating_add(14_400),
        None => 0,
    }
}
