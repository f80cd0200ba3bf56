//! The index of live events by stop and time.

ghost use Rattle.std.specs.Prelude.{◌≡◌, ◌≢◌, ◌-◌, ◌<◌, ◌^◌, All, Contains, IfOk, length};
ghost use Rattle.std.specs.List.{AllPairs};
ghost use Rattle.std.specs.List.Sorted.{IsPermutation};
ghost use Rattle.station_index.specs.Indexed.{AreInOrder, entries_in, entry_at};
ghost use Rattle.station_index.specs.Indexed.{with_entry, without_entry};

use crate::entries::{put, take_out};
use crate::ever_added::{added_part, none_added, note_added};
use crate::live::{all_live, clear};
use crate::loaded::LoadedEntries;
use crate::range::Range;
use crate::sorting::sort_entries;
use block_lists::BlockList;
use mt_base::index_entries::Entry;
use mt_base::keys::Node;
use mt_base::memory::OutOfMemory;
use mt_base::numbers::{StopNo, Time};
use std::alloc::Global;
use std::marker::Model;

/// The live events of each stop in the order of their scheduled times, arrivals apart from
/// departures. It is seen as the entries in their order, and for how many more there is room.
#[derive(Drop)]
pub struct StationIndex {
    /// The entries that were given when the index was built, in order. They are never moved.
    loaded: LoadedEntries,
    /// For each of these whether it is live.
    live: Vec<bool>,
    /// The entries that were put in later and are live, in order.
    added: BlockList<Entry>,
    /// For each stop and kind of event whether an entry was ever added there.
    ever_added: Vec<bool>,
    /// For how many more entries there is room.
    spare: u32,
}

impl Model for StationIndex {
    ghost use Rattle.station_index.specs.Indexed.{Indexed, coded_indexed};

    ghost Value = { Indexed };

    ghost coded = { coded_indexed };

    ghost use Rattle.station_index.specs.Stored.{seen, IsStored};

    ghost view = { seen };

    ghost invariant = { IsStored };
}

impl StationIndex {
    /// The index of these entries, in any order, with room for so many more. `OutOfMemory` where
    /// there is no memory.
    pub fn build(alloc: Global, entries: Vec<Entry>, room: u32) -> Result<StationIndex, OutOfMemory>
        requires distinct { AllPairs (λ a b. a ≢ b) entries.items }
        requires few { length entries.items < 2 ^ 32 }
        requires dep { All (λ e. e.dep ≡ e.node.dep) entries.items }
        ensures entries { IfOk result (λ index. IsPermutation index.entries entries.items) }
        ensures order { IfOk result (λ index. AreInOrder index.entries) }
        ensures room { IfOk result (λ index. index.spare ≡ room) }
    {
        let mut sorted = entries;
        sort_entries(alloc, &mut sorted)?;
        Ok(StationIndex {
            loaded: LoadedEntries::build(alloc, &sorted)?,
            ever_added: none_added(alloc, &sorted)?,
            live: all_live(alloc, sorted.len())?,
            added: BlockList::with_room(alloc, room)?,
            spare: room,
        })
    }

    /// The same entries once more, with the same room. `OutOfMemory` where there is no memory.
    pub fn copy(&self, alloc: Global) -> Result<StationIndex, OutOfMemory>
        ensures { IfOk result (λ copy. copy ≡ self.now) }
    {
        Ok(StationIndex {
            loaded: self.loaded.copy(alloc)?,
            live: Vec::from_slice(alloc, &self.live)?,
            added: self.added.copy(alloc)?,
            ever_added: Vec::from_slice(alloc, &self.ever_added)?,
            spare: self.spare,
        })
    }

    /// Puts in an event at a stop, scheduled at a time in seconds from the base of day 0. It takes
    /// no memory.
    pub fn insert(&mut self, stop: StopNo, time: Time, n: Node)
        requires spare { 0 < self.old.spare }
        requires absent { Contains self.old.entries (entry_at stop time n) → ⊥ }
        ensures { self.new ≡ record {
          entries = with_entry (entry_at stop time n) self.old.entries;
          spare = self.old.spare - 1;
        } }
    {
        let entry = entry(stop, time, &n);
        note_added(&mut self.ever_added, &entry);
        put(&mut self.added, entry);
        self.spare -= 1;
    }

    /// Takes out an event at a stop, scheduled at a time in seconds from the base of day 0. It
    /// gives no room back.
    pub fn remove(&mut self, stop: StopNo, time: Time, n: Node)
        requires { Contains self.old.entries (entry_at stop time n) }
        ensures { self.new ≡ record self.old {
          entries = without_entry (entry_at stop time n) self.old.entries;
        } }
    {
        let entry = entry(stop, time, &n);
        clear(&self.loaded, &mut self.live, &entry);
        take_out(&mut self.added, &entry);
    }

    /// The entries of the arrivals (`dep` false) or of the departures (`dep` true) at a stop that
    /// are scheduled from `lo` to `hi`, both included, in seconds from the base of day 0.
    pub fn range(&self, stop: StopNo, dep: bool, lo: u64, hi: u64) -> Range<'_>
        ensures { result ≡ entries_in stop dep lo hi self.now.entries }
    {
        let (first, events) = self.loaded.part(stop, dep, lo, hi);
        Range {
            stop,
            dep,
            loaded: events,
            live: &self.live[first..first + events.len()],
            added: added_part(&self.added, &self.ever_added, stop, dep, lo, hi),
        }
    }

    /// A law: the entries are in their order, so no entry occurs twice.
    pub fn entries_are_in_order(&self)
        ensures { AreInOrder self.now.entries }
    {
        let _ = &self.loaded;
    }
}

/// The entry of an event at a stop, scheduled at a time.
fn entry(stop: StopNo, time: Time, n: &Node) -> Entry
    ensures { result ≡ entry_at stop time n.now }
{
    Entry {
        stop,
        dep: n.dep,
        time,
        node: *n,
    }
}
