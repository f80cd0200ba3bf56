//! Departures that are put in, taken out and moved.

ghost use Rattle.std.specs.Prelude.{◌≡◌, ◌<◌, None, Some, slice_get, slice_set, IsSome, length};
ghost use Rattle.std.specs.Prelude.{true};
ghost use Rattle.dep_order.specs.Departing.{held, leaves_before};
ghost use Rattle.dep_order.specs.Held.{IsNewCall, with_time};
ghost use Rattle.dep_order.specs.Linked.{is_above, leaves_after};
ghost use Rattle.dep_order.specs.Slots.{nobody, slot_at, stored_in};
ghost use Rattle.dep_order.specs.Stored.{AreKept, bucket_count, bucket_of, entries_of};
ghost use Rattle.dep_order.specs.Stored.{onwards_of};

use crate::departure::Departure;
use crate::guides::Guides;
use crate::lists::{Lists, NOBODY};
use crate::slot_table::NO_DEPARTURE;
use mt_base::numbers::Time;

impl Lists {
    /// Puts a departure in at a number.
    pub(crate) fn insert(&mut self, guides: &mut Guides, number: u32, departure: Departure)
        // a free number, and the departure of a new call
        requires kept { AreKept self.old }
        requires free { slice_get (entries_of self.old) number ≡ Some None }
        requires new_call { IsNewCall (entries_of self.old) departure.key }
        requires departs { departure.key.dep ≡ true }

        // it has the number
        ensures kept { AreKept self.new }
        ensures entries { entries_of self.new
            ≡ slice_set (entries_of self.old) number (Some departure) }
        ensures onwards { onwards_of self.new ≡ onwards_of self.old }
    {
        let bucket = self.bucket_of(departure.time);
        let gap = self.gap(guides, bucket, &departure);
        self.slots.put(number, &departure, gap.before, gap.after);
        self.join(bucket, gap.before, number);
        self.join(bucket, number, gap.after);
    }

    /// Takes the departure of a number out.
    pub(crate) fn remove(&mut self, number: u32)
        requires kept { AreKept self.old }
        requires there { IsSome (held (entries_of self.old) number) }
        ensures kept { AreKept self.new }
        ensures entries { entries_of self.new ≡ slice_set (entries_of self.old) number None }
        ensures onwards { onwards_of self.new ≡ onwards_of self.old }
    {
        let hot = self.slots.hot(number);
        let before = self.slots.cold(number).before;
        let bucket = self.bucket_of(hot.time);
        self.join(bucket, before, hot.after);
        self.slots.set_before(number, NO_DEPARTURE);
    }

    /// Lets the departure of a number take place at another time. No link changes where it keeps
    /// its place among those of its bucket.
    #[inline]
    pub(crate) fn retime(&mut self, guides: &mut Guides, number: u32, time: Time)
        requires kept { AreKept self.old }
        requires there { IsSome (held (entries_of self.old) number) }
        ensures kept { AreKept self.new }
        ensures entries { entries_of self.new ≡ with_time number time (entries_of self.old) }
        ensures onwards { onwards_of self.new ≡ onwards_of self.old }
    {
        let departure = self.slots.departure(number);
        let moved = Departure { time, ..departure };
        if self.keeps_place(number, &moved) {
            self.slots.set_time(number, time);
        } else {
            self.remove(number);
            self.insert(guides, number, moved);
        }
    }

    /// Whether a departure keeps the place of a number in its bucket, between those beside it.
    #[inline]
    fn keeps_place(&self, number: u32, moved: &Departure) -> bool
        requires kept { AreKept self.now }
        requires there { number < length self.now.slots }
        requires before { held (entries_of self.now) (slot_at self.now.slots number).before ≡ None
            → (slot_at self.now.slots number).before ≡ nobody }
        requires after { held (entries_of self.now) (slot_at self.now.slots number).after ≡ None
            → (slot_at self.now.slots number).after ≡ nobody }
        ensures bucket { result ≡ true → bucket_of (bucket_count self.now) moved.now
            ≡ bucket_of (bucket_count self.now) (stored_in (slot_at self.now.slots number)) }
        ensures before { result ≡ true → is_above leaves_before
            (held (entries_of self.now) (slot_at self.now.slots number).before) moved.now ≡ true }
        ensures after { result ≡ true → is_above leaves_after
            (held (entries_of self.now) (slot_at self.now.slots number).after) moved.now ≡ true }
    {
        let hot = self.slots.hot(number);
        self.bucket_of(moved.time) == self.bucket_of(hot.time)
            && self.comes_after(moved, self.slots.cold(number).before)
            && self.comes_before(moved, hot.after)
    }

    /// Whether a departure comes after that of a number, if there is one.
    #[inline(always)]
    fn comes_after(&self, departure: &Departure, before: u32) -> bool
        requires kept { AreKept self.now }
        requires before { held (entries_of self.now) before ≡ None → before ≡ nobody }
        ensures { result
            ≡ is_above leaves_before (held (entries_of self.now) before) departure.now }
    {
        before == NOBODY || self.slots.departure(before).leaves_before(departure)
    }

    /// Whether a departure comes before that of a number, if there is one.
    #[inline(always)]
    fn comes_before(&self, departure: &Departure, after: u32) -> bool
        requires kept { AreKept self.now }
        requires after { held (entries_of self.now) after ≡ None → after ≡ nobody }
        ensures { result ≡ is_above leaves_after (held (entries_of self.now) after) departure.now }
    {
        after == NOBODY || departure.leaves_before(&self.slots.departure(after))
    }
}
