//! Where a departure belongs among those of its bucket.

ghost use Rattle.std.specs.Prelude.{◌≡◌, ◌<◌, IfErr, IfOk, Some, length, true};
ghost use Rattle.dep_order.specs.Gaps.{IsBeside, IsBetween, IsFollowed, IsFurther, IsGap};
ghost use Rattle.dep_order.specs.Held.{IsNewKey};
ghost use Rattle.dep_order.specs.Stored.{AreKept, IsNextIn, IsPreviousIn, bucket_count};
ghost use Rattle.dep_order.specs.Stored.{entries_of};

use crate::departure::Departure;
use crate::guides::{Guide, Guides};
use crate::lists::{Gap, Lists, NOBODY};

/// How many departures a walk comes by from either end before guides are asked for, and how many
/// there are between two guides.
const STEPS: u32 = 32;

/// The numbers of the departures of a bucket to which two walks to one place have come: one from
/// the first departure on, and one from the last back.
#[derive(Clone, Copy)]
pub(crate) struct Ends {
    pub(crate) bucket: usize,
    pub(crate) front: u32,
    pub(crate) back: u32,
}

impl Lists {
    /// The two departures of a bucket between which another belongs, searched for from both ends
    /// of the bucket in turn, and where these are far away from a guide on.
    pub(crate) fn gap(&self, guides: &mut Guides, bucket: usize, departure: &Departure) -> Gap
        requires kept { AreKept self.now }
        requires bucket { bucket < bucket_count self.now }
        requires new_key { IsNewKey (entries_of self.now) departure.now.key }
        ensures after { IsNextIn self.now bucket (Some departure.now) result.after }
        ensures before { IsPreviousIn self.now bucket (Some departure.now) result.before }
    {
        let back = self.buckets[bucket].last;
        let front = self.buckets[bucket].first;
        if front == NOBODY {
            return Gap {
                before: NOBODY,
                after: front,
            };
        }
        let ends = Ends {
            bucket,
            front,
            back,
        };
        match self.walk(departure, ends) {
            Ok(gap) => gap,
            Err(further) => self.far_gap(guides, departure, further),
        }
    }

    /// The two departures between which another belongs, or where some steps of the walks do not
    /// lead there the departures to which they have come.
    #[inline]
    fn walk(&self, departure: &Departure, ends: Ends) -> Result<Gap, Ends>
        requires kept { AreKept self.now }
        requires new_key { IsNewKey (entries_of self.now) departure.now.key }
        requires between { IsBetween self.now departure.now ends }
        ensures gap { IfOk result (λ gap. IsGap self.now departure.now ends.bucket gap) }
        ensures further { IfErr result (λ further.
            IsFurther self.now departure.now ends further) }
    {
        let mut after = ends.front;
        let mut before = ends.back;
        let mut steps = 0;
        'search: loop {
            let front = self.slots.departure(after);
            let front_before = self.slots.cold(after).before;
            if departure.leaves_before(&front) {
                return Ok(Gap {
                    before: front_before,
                    after,
                });
            }
            let back = self.slots.departure(before);
            let back_after = self.slots.hot(before).after;
            if back.leaves_before(departure) {
                return Ok(Gap {
                    before,
                    after: back_after,
                });
            }
            after = self.slots.hot(after).after;
            before = self.slots.cold(before).before;
            steps += 1;
            if steps == STEPS {
                return Err(Ends {
                    bucket: ends.bucket,
                    front: after,
                    back: before,
                });
            }
        }
    }

    /// The two departures between which another belongs, searched for from a guide on. The walk
    /// leaves guides for later ones.
    fn far_gap(&self, guides: &mut Guides, departure: &Departure, ends: Ends) -> Gap
        requires kept { AreKept self.now }
        requires new_key { IsNewKey (entries_of self.now) departure.now.key }
        requires between { IsBetween self.now departure.now ends }
        requires followed { IsFollowed self.now departure.now ends.bucket }
        ensures { IsGap self.now departure.now ends.bucket result }
    {
        let front = self.guided(guides, departure, ends);
        let mut rest = Ends { front, ..ends };
        'far: loop {
            match self.walk(departure, rest) {
                Ok(gap) => return gap,
                Err(further) => rest = further,
            }
            self.leave_guide(guides, rest);
        }
    }

    /// From which departure on a walk from the front comes to the place of another: that behind
    /// the last guide before the place, or that to which it has come where there is no guide.
    fn guided(&self, guides: &mut Guides, departure: &Departure, ends: Ends) -> u32
        requires kept { AreKept self.now }
        requires between { IsBetween self.now departure.now ends }
        requires followed { IsFollowed self.now departure.now ends.bucket }
        ensures { IsBetween self.now departure.now (record ends { front = result }) }
    {
        self.give_up_stale(guides, departure);
        match guides.last_before(departure) {
            Some(Guide { number, .. }) => self.behind(number, departure, ends),
            None => ends.front,
        }
    }

    /// The same by the number of a guide.
    fn behind(&self, number: u32, departure: &Departure, ends: Ends) -> u32
        requires kept { AreKept self.now }
        requires between { IsBetween self.now departure.now ends }
        requires followed { IsFollowed self.now departure.now ends.bucket }
        ensures { IsBetween self.now departure.now (record ends { front = result }) }
    {
        if self.leads(number, departure, ends.bucket) {
            let hot = self.slots.hot(number);
            hot.after
        } else {
            ends.front
        }
    }

    /// Gives up the last guides before the place of a departure, as far as they are out of date.
    fn give_up_stale(&self, guides: &mut Guides, departure: &Departure) {
        for _ in 0..guides.len() {
            if !self.is_stale(guides.last_before(departure)) {
                break;
            }
            guides.give_up_before(departure);
        }
    }

    /// Whether there is a guide, and it is out of date.
    fn is_stale(&self, guide: Option<Guide>) -> bool {
        match guide {
            Some(Guide { number, departure }) => self.departure(number) != Some(departure),
            None => false,
        }
    }

    /// Whether a number is that of a departure of a bucket that leaves before another.
    fn leads(&self, number: u32, departure: &Departure, bucket: usize) -> bool
        requires { 0 < bucket_count self.now }
        ensures { result ≡ true → IsBeside self.now departure.now bucket number }
    {
        let Some(sooner) = self.departure(number) else {
            return false;
        };
        self.bucket_of(sooner.time) == bucket && sooner.leaves_before(departure)
    }

    /// Notes the departure to which a walk has come as a guide.
    fn leave_guide(&self, guides: &mut Guides, ends: Ends)
        requires { ends.front < length self.now.slots }
    {
        guides.note(ends.front, self.slots.departure(ends.front));
    }
}
