//! Loaded entries, stored flat: the events of each stop's arrivals and of its departures one after
//! the other, and where those of each stop end.

ghost use Rattle.std.specs.Prelude.{◌≡◌, ◌+◌, ◌<◌, ◌≤◌, ◌^◌, All, IfOk, length, map, take, drop};
ghost use Rattle.std.specs.Prelude.{MatchOption, true, false, not, slice_index_or};
ghost use Rattle.std.specs.List.{HoldsAt};
ghost use Rattle.std.specs.List.Sorted.{IsPartitionPoint};
ghost use Rattle.mt_base.specs.Order.{is_before_entry};
ghost use Rattle.station_index.specs.Indexed.{AreInOrder, is_in_range, is_same_entry};
ghost use Rattle.station_index.specs.Places.{IsRangeAt};
ghost use Rattle.station_index.specs.Slots as slots;

use crate::loaded_event::{LoadedEvent, entry_of, event_in, slot_number};
use mt_base::index_entries::Entry;
use mt_base::memory::OutOfMemory;
use mt_base::numbers::StopNo;
use std::alloc::Global;
use std::marker::Model;

/// Entries in their order, seen as the list of them.
#[derive(Drop)]
pub(crate) struct LoadedEntries {
    /// For each stop, where its arrivals and where its departures end among the events, but for
    /// the last of these.
    ends: Vec<u32>,
    events: Vec<LoadedEvent>,
}

impl Model for LoadedEntries {
    ghost use Rattle.std.specs.Prelude.{List};
    ghost use Rattle.std.specs.Coded.{coded_list};
    ghost use Rattle.mt_base.specs.declared.index_entries.Entry.{Entry};
    ghost use Rattle.station_index.specs.Indexed.{coded_entry};

    ghost Value = { List Entry };

    ghost coded = { coded_list coded_entry };

    ghost use Rattle.station_index.specs.Loaded.{AreLoaded, loaded_entries};

    ghost view = { loaded_entries };

    ghost invariant = { AreLoaded };
}

impl LoadedEntries {
    /// These entries, which are in order.
    pub(crate) fn build(alloc: Global, entries: &[Entry]) -> Result<LoadedEntries, OutOfMemory>
        requires order { AreInOrder entries.now }
        requires few { length entries.now < 2 ^ 32 }
        requires dep { All (λ e. e.dep ≡ e.node.dep) entries.now }
        ensures { IfOk result (λ loaded. loaded ≡ entries.now) }
    {
        Ok(LoadedEntries {
            ends: slot_ends(alloc, entries)?,
            events: events_in(alloc, entries)?,
        })
    }

    /// The same entries once more.
    pub(crate) fn copy(&self, alloc: Global) -> Result<LoadedEntries, OutOfMemory>
        ensures { IfOk result (λ copy. copy ≡ self.now) }
    {
        Ok(LoadedEntries {
            ends: Vec::from_slice(alloc, &self.ends)?,
            events: Vec::from_slice(alloc, &self.events)?,
        })
    }

    /// The events at a stop, arrivals or departures as asked for, that are scheduled from `lo` to
    /// `hi`, both included, and the place of the first of them among all.
    pub(crate) fn part(&self, stop: StopNo, dep: bool, lo: u64, hi: u64) -> (usize, &[LoadedEvent])
        ensures order { AreInOrder self.now }
        ensures few { length self.now < 2 ^ 32 }
        ensures range { IsRangeAt (is_in_range stop dep lo hi) self.now result.0
            (result.0 + length result.1.now) }
        ensures events { map (slots.entry_of stop dep) result.1.now
            ≡ take (length result.1.now) (drop result.0 self.now) }
    {
        let (start, events) = self.slot_part(stop, dep);
        let first = events.partition_point(|event| u64::from(event.time.seconds()) < lo);
        let rest = &events[first..];
        let count = rest.partition_point(|event| u64::from(event.time.seconds()) <= hi);
        (start + first, &rest[..count])
    }

    /// The place of an entry among all, if it is there.
    pub(crate) fn find(&self, entry: &Entry) -> Option<usize>
        ensures order { AreInOrder self.now }
        ensures place { MatchOption result
            (All (λ e. not (is_same_entry e entry.now) ≡ true) self.now)
            (λ i. (i < length self.now) × HoldsAt (λ e. e ≡ entry.now) self.now i) }
    {
        let time = u64::from(entry.time.seconds());
        let (first, events) = self.part(entry.stop, entry.dep, time, time);
        let place = place_of(events, entry);
        if place < events.len() && is_not_before(entry, &events[place]) {
            return Some(first + place);
        }
        None
    }

    /// The events at a stop, arrivals or departures as asked for, and the place of the first of
    /// them among all.
    fn slot_part(&self, stop: StopNo, dep: bool) -> (usize, &[LoadedEvent])
        ensures order { AreInOrder self.now }
        ensures few { length self.now < 2 ^ 32 }
        ensures slot { slots.IsSlot stop dep self.now result.0 result.1.now }
    {
        let (start, end) = bounds_of(&self.ends, slot_number(stop, dep), self.events.len());
        (start, &self.events[start..end])
    }
}

/// How many of these events, which are at the stop of an entry and of its kind, stand before it.
fn place_of(events: &[LoadedEvent], entry: &Entry) -> usize
    requires { AreInOrder (map (slots.entry_of entry.now.stop entry.now.dep) events.now) }
    ensures within { result ≤ length events.now }
    ensures place { IsPartitionPoint
        (λ x. is_before_entry (slots.entry_of entry.now.stop entry.now.dep x) entry.now ≡ true)
        (λ x. is_before_entry (slots.entry_of entry.now.stop entry.now.dep x) entry.now ≡ false)
        events.now result }
{
    events.partition_point(|event| entry_of(entry.stop, entry.dep, event).is_before(entry))
}

/// Whether an entry does not stand before an event, which is at its stop and of its kind.
fn is_not_before(entry: &Entry, event: &LoadedEvent) -> bool
    ensures { result ≡ not (is_before_entry entry.now
        (slots.entry_of entry.now.stop entry.now.dep event.now)) }
{
    !entry.is_before(&entry_of(entry.stop, entry.dep, event))
}

/// Where a part begins and where it ends, among so many events.
fn bounds_of(ends: &[u32], slot: usize, count: usize) -> (usize, usize)
    requires { slots.AreEnds ends.now count }
    ensures order { result.0 ≤ result.1 }
    ensures within { result.1 ≤ count }
    ensures start { result.0 ≡ slots.start_of ends.now slot count }
    ensures end { result.1 ≡ slice_index_or ends.now slot count }
{
    (start_of(ends, slot, count), end_of(ends, slot, count))
}

/// Where a part begins, among so many events.
fn start_of(ends: &[u32], slot: usize, count: usize) -> usize
    ensures { result ≡ slots.start_of ends.now slot count }
{
    if slot == 0 {
        0
    } else {
        end_of(ends, slot - 1, count)
    }
}

/// Where a part ends, among so many events.
fn end_of(ends: &[u32], slot: usize, count: usize) -> usize
    ensures { result ≡ slice_index_or ends.now slot count }
{
    if slot < ends.len() {
        ends[slot] as usize
    } else {
        count
    }
}

/// What is stored of each of these entries.
fn events_in(alloc: Global, entries: &[Entry]) -> Result<Vec<LoadedEvent>, OutOfMemory>
    ensures { IfOk result (λ all. all.items ≡ map slots.event_in entries.now) }
{
    entries.iter().map(|entry| event_in(entry)).collect(alloc)
}

/// Where each part but the last one ends, of entries that are in order.
fn slot_ends(alloc: Global, entries: &[Entry]) -> Result<Vec<u32>, OutOfMemory>
    requires order { AreInOrder entries.now }
    requires few { length entries.now < 2 ^ 32 }
    ensures { IfOk result (λ ends. slots.AreEndsOf entries.now ends.items) }
{
    let last = last_slot(entries);
    let mut ends = Vec::with_capacity(alloc, last)?;
    for slot in 0..last {
        let end = entries.partition_point(|entry| slot_number(entry.stop, entry.dep) <= slot);
        ends.push(end as u32)?;
    }
    Ok(ends)
}

/// The number of the last part, of entries that are in order.
pub(crate) fn last_slot(entries: &[Entry]) -> usize
    requires { AreInOrder entries.now }
    ensures { All (λ e. slots.slot_of e ≤ result) entries.now }
{
    if entries.is_empty() {
        return 0;
    }
    let last = &entries[entries.len() - 1];
    slot_number(last.stop, last.dep)
}
