//! Departures one after another.

ghost use Rattle.std.specs.Iterator.{YieldsFirst, item_count};

use crate::departure::Leaving;
use crate::lists::{Lists, NOBODY};
use std::marker::Model;

/// Departures in the order in which they take place, from one on. It is seen as the list of those
/// still to come.
#[derive(Drop)]
pub struct Departures<'a> {
    pub(crate) lists: &'a Lists,
    /// The bucket of the next.
    pub(crate) bucket: usize,
    /// The number of the next, or `NOBODY`.
    pub(crate) number: u32,
}

impl<'a> Model for Departures<'a> {
    ghost use Rattle.std.specs.Prelude.{List};
    ghost use Rattle.dep_order.specs.declared.departure.Leaving.{Leaving as ALeaving};

    ghost Value = { List ALeaving };

    ghost use Rattle.dep_order.specs.Scanned.{departures_left, IsScan};

    ghost view = { departures_left };

    ghost invariant = { IsScan };
}

impl<'a> Iterator for Departures<'a> {
    type Item = Leaving;

    ghost next_gives = { YieldsFirst (λ s. s) };

    ghost remaining = { item_count (λ s. s) };

    #[inline(always)]
    fn next(&mut self) -> Option<Leaving> {
        if self.number == NOBODY {
            return None;
        }
        let step = self.lists.step(self.bucket, self.number);
        self.bucket = step.ahead.bucket;
        self.number = step.ahead.number;
        Some(step.leaving)
    }
}
