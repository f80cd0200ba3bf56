//! The first departure of those that a walk is to come to.

ghost use Rattle.std.specs.Prelude.{◌≡◌, ◌≢◌, ◌<◌, ◌≤◌, Bool, nat_le};
ghost use Rattle.dep_order.specs.declared.departure.Departure.{Departure as ADeparture};
ghost use Rattle.dep_order.specs.Linked.{IsAhead};
ghost use Rattle.dep_order.specs.Scanned.{IsFirstPlace, IsPlace, IsStep};
ghost use Rattle.dep_order.specs.Slots.{nobody};
ghost use Rattle.dep_order.specs.Stored.{AreKept, bucket_count, bucket_of, entries_of};

use crate::departure::Leaving;
use crate::lists::{Lists, NOBODY};
use mt_base::numbers::Time;

/// A bucket, and the number of a departure in it, or `NOBODY`.
#[derive(Clone, Copy)]
pub(crate) struct Place {
    pub(crate) bucket: usize,
    pub(crate) number: u32,
}

/// A departure, and the place of the departure after it.
#[derive(Clone, Copy)]
pub(crate) struct Step {
    pub(crate) leaving: Leaving,
    pub(crate) ahead: Place,
}

impl Lists {
    /// The first departure that does not take place before a time.
    pub(crate) fn first_from(&self, time: Time) -> Place
        requires { AreKept self.now }
        ensures { IsFirstPlace self.now (λ d. nat_le time d.time) result.bucket result.number }
    {
        let bucket = self.bucket_of(time);
        let mut number = self.buckets[bucket].first;
        'walk: while number != NOBODY {
            let hot = self.slots.hot(number);
            if time <= hot.time {
                break;
            }
            number = hot.after;
        }
        self.first_ahead(bucket, number)
    }

    /// The departure of a number, and the place of the departure after it.
    #[inline(always)]
    pub(crate) fn step(&self, bucket: usize, number: u32) -> Step
        requires kept { AreKept self.now }
        requires place { IsPlace self.now bucket number }
        requires there { number ≢ nobody }
        ensures { IsStep self.now number result.leaving result.ahead.bucket result.ahead.number }
    {
        let hot = self.slots.hot(number);
        let leaving = Leaving {
            number,
            time: hot.time,
            stop: hot.stop,
            arrival: hot.arrival,
            to: hot.to,
            next: hot.next,
        };
        Step {
            leaving,
            ahead: self.first_ahead(bucket, hot.after),
        }
    }

    /// The departure to which a walk along a bucket has come, or where its end was reached the
    /// first of the later buckets.
    #[inline(always)]
    fn first_ahead(&self, bucket: usize, number: u32) -> Place
        requires kept { AreKept self.now }
        requires bucket { bucket < bucket_count self.now }
        ensures { (passes : ADeparture → Bool)
            → IsAhead (bucket_of (bucket_count self.now)) (entries_of self.now) bucket passes number
            → IsFirstPlace self.now passes result.bucket result.number }
    {
        if number == NOBODY {
            self.first_of_buckets(bucket + 1)
        } else {
            Place { bucket, number }
        }
    }

    /// The first departure of the buckets from this one on.
    #[inline(always)]
    fn first_of_buckets(&self, from: usize) -> Place
        requires kept { AreKept self.now }
        requires from { from ≤ bucket_count self.now }
        ensures { IsFirstPlace self.now
            (λ d. nat_le from (bucket_of (bucket_count self.now) d)) result.bucket result.number }
    {
        for bucket in from..self.buckets.len() {
            let number = self.buckets[bucket].first;
            if number != NOBODY {
                return Place { bucket, number };
            }
        }
        Place {
            bucket: from,
            number: NOBODY,
        }
    }
}
