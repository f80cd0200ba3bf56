//! How departures are linked in their buckets.

ghost use Rattle.std.specs.Prelude.{◌≡◌, ◌≢◌, ◌<◌, ◌≤◌, ◌-◌, ◌/◌, ◌^◌, length, min};
ghost use Rattle.dep_order.specs.Slots.{no_departure, nobody};
ghost use Rattle.dep_order.specs.Stored.{IsJoined, IsLinkEnd, IsLinkSet, bucket_count, next_in};
ghost use Rattle.dep_order.specs.Stored.{previous_in};

use crate::lists::{BUCKET_SECONDS, Lists, NOBODY};
use mt_base::numbers::Time;

impl Lists {
    /// The bucket of a time.
    #[inline(always)]
    pub(crate) fn bucket_of(&self, time: Time) -> usize
        requires { 0 < bucket_count self.now }
        ensures is { result ≡ min (time / 8) (bucket_count self.now - 1) }
        ensures within { result < bucket_count self.now }
    {
        let last = self.buckets.len() - 1;
        last.min((time.seconds() / BUCKET_SECONDS) as usize)
    }

    /// Lets two departures of a bucket follow each other. `NOBODY` stands for what is before the
    /// first of the bucket, and for what is after the last.
    pub(crate) fn join(&mut self, bucket: usize, before: u32, after: u32)
        // few slots, and a bucket
        requires few { length self.old.slots ≤ 2 ^ 22 }
        requires bucket { bucket < bucket_count self.old }

        // each of the two is nobody, or has a departure
        requires before { IsLinkEnd self.old before }
        requires after { IsLinkEnd self.old after }

        ensures { IsJoined bucket before after self.old self.new }
    {
        self.set_next(bucket, before, after);
        self.set_previous(bucket, after, before);
    }

    /// What comes after a number in a bucket from now on.
    fn set_next(&mut self, bucket: usize, number: u32, after: u32)
        requires bucket { bucket < bucket_count self.old }
        requires number { number ≢ nobody → number < length self.old.slots }
        ensures { IsLinkSet next_in previous_in bucket number after self.old self.new }
    {
        if number == NOBODY {
            self.buckets[bucket].first = after;
        } else {
            self.slots.set_after(number, after);
        }
    }

    /// What comes before a number in a bucket from now on.
    fn set_previous(&mut self, bucket: usize, number: u32, before: u32)
        requires bucket { bucket < bucket_count self.old }
        requires number { IsLinkEnd self.old number }
        requires before { before ≢ no_departure }
        ensures { IsLinkSet previous_in next_in bucket number before self.old self.new }
    {
        if number == NOBODY {
            self.buckets[bucket].last = before;
        } else {
            self.slots.set_before(number, before);
        }
    }
}
