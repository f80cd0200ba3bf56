//! The entries of a stop in a range of times, one after another.

ghost use Rattle.std.specs.Prelude.{◌≡◌, ℕ, ◌<◌, ◌≤◌, true, false, length, slice_index_or};
ghost use Rattle.std.specs.Iterator.{YieldsFirst, item_count};
ghost use Rattle.station_index.specs.Merged.{comes_first};

use crate::loaded_event::{LoadedEvent, entry_of};
use block_lists::Elements;
use mt_base::index_entries::Entry;
use mt_base::numbers::StopNo;
use std::marker::Model;

/// The entries of the arrivals or of the departures at a stop that are scheduled in a range of
/// times, in their order: by time and then by event. It is seen as the list of those still to
/// come.
#[derive(Drop)]
pub struct Range<'a> {
    /// The stop of these events.
    pub(crate) stop: StopNo,
    /// Whether they are departures, and not arrivals.
    pub(crate) dep: bool,
    /// The loaded events that are still to come.
    pub(crate) loaded: &'a [LoadedEvent],
    /// For each of these whether it is live.
    pub(crate) live: &'a [bool],
    /// The added entries that are still to come.
    pub(crate) added: Elements<'a, Entry>,
}

impl<'a> Model for Range<'a> {
    ghost use Rattle.std.specs.Prelude.{List};
    ghost use Rattle.mt_base.specs.declared.index_entries.Entry.{Entry};

    ghost Value = { List Entry };

    ghost use Rattle.station_index.specs.Ranged.{IsRange, entries_left};

    ghost view = { entries_left };

    ghost invariant = { IsRange };
}

impl<'a> Iterator for Range<'a> {
    type Item = Entry;

    ghost next_gives = { YieldsFirst (λ s. s) };

    ghost remaining = { item_count (λ s. s) };

    fn next(&mut self) -> Option<Entry> {
        let dead = dead_at_front(self.live);
        self.loaded = &self.loaded[dead..];
        self.live = &self.live[dead..];
        if let Some((event, later)) = self.loaded.split_first() {
            let entry = entry_of(self.stop, self.dep, event);
            if comes_first(&entry, &self.added) {
                self.loaded = later;
                self.live = &self.live[1..];
                return Some(entry);
            }
        }
        self.added.next()
    }
}

/// How many flags at the front are not set.
fn dead_at_front(live: &[bool]) -> usize
    ensures within { result ≤ length live.now }
    ensures dead { (k : ℕ) → k < result → slice_index_or live.now k true ≡ false }
    ensures live { result < length live.now → slice_index_or live.now result false ≡ true }
{
    for (place, flag) in live.iter().enumerate() {
        if *flag {
            return place;
        }
    }
    live.len()
}

/// Whether an entry stands before the first of others, if there is one.
fn comes_first(entry: &Entry, others: &Elements<'_, Entry>) -> bool
    ensures { result ≡ comes_first entry.now others.now }
{
    match others.first() {
        Some(other) => entry.is_before(&other),
        None => true,
    }
}
