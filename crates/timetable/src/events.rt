//! The keys of the live events of trains.

ghost use Rattle.std.specs.Prelude.{◌≡◌, ◌≤◌, IfOk, IfSome, IfNone, [], ◌∷◌, length};
ghost use Rattle.std.specs.Iterator.{YieldsFirst, item_count};
ghost use Rattle.delay_model.specs.Events.{events};
ghost use Rattle.timetable.specs.LiveTimes.{live_keys};

use mt_base::keys::Key;
use mt_base::memory::OutOfMemory;
use mt_base::numbers::TrainNo;
use std::alloc::Global;
use std::marker::Model;
use train_nodes::{TrainEvents, Trains};

/// The keys of the live events, train by train. It is seen as the list of those that are still to
/// come.
#[derive(Drop)]
pub(crate) struct LiveKeys<'a> {
    trains: &'a Trains,
    /// The events of a train that are still to come.
    events: TrainEvents<'a>,
    /// The number of the train after that one.
    next: u32,
}

impl<'a> Model for LiveKeys<'a> {
    ghost use Rattle.std.specs.Prelude.{List, ◌++◌, drop};
    ghost use Rattle.mt_base.specs.declared.keys.Key.{Key as AKey};
    ghost use Rattle.delay_model.specs.Events.{events_from};
    ghost use Rattle.timetable.specs.LiveTimes.{live_keys};

    ghost Value = { List AKey };

    ghost view = { λ a. live_keys a.events
        ++ live_keys (events_from a.next (drop a.next a.trains.now.trains)) };
}

impl<'a> Iterator for LiveKeys<'a> {
    type Item = Key;

    ghost next_gives = { YieldsFirst (λ s. s) };

    ghost remaining = { item_count (λ s. s) };

    fn next(&mut self) -> Option<Key> {
        let mut key = next_live(&mut self.events);
        while key.is_none() && self.next < self.trains.count() {
            self.events = self.trains.events(TrainNo::new(self.next));
            self.next += 1;
            key = next_live(&mut self.events);
        }
        key
    }
}

/// The key of the first live event among these, which are then those after it.
fn next_live(events: &mut TrainEvents<'_>) -> Option<Key>
    ensures some { IfSome result (λ k. live_keys events.old ≡ k ∷ live_keys events.new) }
    ensures none { IfNone result (live_keys events.old ≡ []) }
    ensures left { IfNone result (live_keys events.new ≡ []) }
{
    while let Some(event) = events.next() {
        if event.live {
            return Some(event.key);
        }
    }
    None
}

/// The keys of all live events, train by train.
pub(crate) fn live_keys(trains: &Trains) -> LiveKeys<'_>
    ensures { result ≡ live_keys (events trains.now) }
{
    LiveKeys {
        trains,
        events: trains.events(TrainNo::new(0)),
        next: 1,
    }
}

/// How many events are live.
pub(crate) fn count_live(trains: &Trains) -> u32
    requires { length (events trains.now) ≤ 2097152 }
    ensures { result ≡ length (live_keys (events trains.now)) }
{
    let mut count: u32 = 0;
    for _ in live_keys(trains) {
        count += 1;
    }
    count
}

/// A list of the keys of all live events, train by train.
pub(crate) fn list_keys(alloc: Global, trains: &Trains) -> Result<Vec<Key>, OutOfMemory>
    ensures { IfOk result (λ keys. keys.items ≡ live_keys (events trains.now)) }
{
    let mut keys = Vec::new(alloc);
    for k in live_keys(trains) {
        keys.push(k)?;
    }
    Ok(keys)
}
