//! Numbers under keys, found by the upper bits of a key and then by a search among few.

ghost use Rattle.std.specs.Prelude.{◌≡◌, ℕ, ◌+◌, ◌<◌, ◌≤◌, ◌^◌, All, IfOk, length, nat_eq, slice_index_or};
ghost use Rattle.std.specs.List.Sorted.{IsNonDecreasingBy, IsPartitionPoint};
ghost use Rattle.schedule_build.specs.Buckets.{AreEnds, IsNear, end_of, first_number, has_key, key_of, slot_of, start_of};

use mt_base::memory::OutOfMemory;
use std::alloc::Global;
use std::marker::Model;

/// A number under a key.
#[derive(Clone, Copy, Debug)]
pub(crate) struct Entry {
    pub(crate) key: u32,
    pub(crate) number: u32,
}

/// Entries whose keys do not fall, with where those of each slot end. They are seen as their list.
#[derive(Drop)]
pub(crate) struct Buckets {
    entries: Vec<Entry>,
    /// For each slot but the last, where its entries end.
    ends: Vec<u32>,
    /// How many slots there would be for all keys of 32 bits.
    scale: u32,
}

impl Model for Buckets {
    ghost use Rattle.std.specs.Prelude.{List};
    ghost use Rattle.schedule_build.specs.declared.buckets.Entry.{Entry};

    ghost Value = { List Entry };

    ghost view = { λ a. a.entries.items };

    ghost use Rattle.schedule_build.specs.Buckets.{AreBuckets};

    ghost invariant = { λ a. AreBuckets a.scale a.entries.items a.ends.items };
}

impl Buckets {
    /// These entries, with so many slots for all keys of 32 bits.
    pub(crate) fn build(
        alloc: Global,
        entries: Vec<Entry>,
        scale: u32,
    ) -> Result<Buckets, OutOfMemory>
        requires order { IsNonDecreasingBy key_of entries.items }
        requires few { length entries.items < 2 ^ 32 }
        ensures { IfOk result (λ buckets. buckets ≡ entries.items) }
    {
        let ends = slot_ends(alloc, &entries, scale)?;
        Ok(Buckets {
            entries,
            ends,
            scale,
        })
    }

    /// The entries of the slot of a key, among which are all that have this key.
    pub(crate) fn near(&self, key: u32) -> &[Entry]
        ensures order { IsNonDecreasingBy key_of self.now }
        ensures near { IsNear key self.now result.now }
    {
        let slot = slot_of(self.scale, key);
        let (start, end) = bounds(&self.entries, &self.ends, self.scale, slot);
        &self.entries[start..end]
    }

    /// The number of the first entry that has a key. None exactly where there is none.
    pub(crate) fn find(&self, key: u32) -> Option<u32>
        ensures { result ≡ first_number (has_key key) self.now }
    {
        let near = self.near(key);
        let place = near.partition_point(|entry| entry.key < key);
        if place >= near.len() {
            return None;
        }
        let entry = &near[place];
        if entry.key != key {
            return None;
        }
        Some(entry.number)
    }
}

/// The slot of a key. Slots rise with keys.
#[tactic(auto, unfolding(crate::specs::Buckets::slot_of))]
fn slot_of(scale: u32, key: u32) -> usize
    ensures { result ≡ slot_of scale key }
{
    ((u64::from(key) * u64::from(scale)) >> 32) as usize
}

/// Where the entries of a slot begin and where they end.
fn bounds(entries: &[Entry], ends: &[u32], scale: u32, slot: usize) -> (usize, usize)
    requires { AreEnds scale entries.now ends.now }
    ensures order { result.0 ≤ result.1 }
    ensures within { result.1 ≤ length entries.now }
    ensures start { result.0 ≡ start_of ends.now slot (length entries.now) }
    ensures end { result.1 ≡ end_of ends.now slot (length entries.now) }
{
    let count = entries.len();
    (start_of(ends, slot, count), end_of(ends, slot, count))
}

/// Where the entries of a slot begin, among so many.
fn start_of(ends: &[u32], slot: usize, count: usize) -> usize
    ensures { result ≡ start_of ends.now slot count }
{
    if slot == 0 {
        0
    } else {
        end_of(ends, slot - 1, count)
    }
}

/// Where the entries of a slot end, among so many.
fn end_of(ends: &[u32], slot: usize, count: usize) -> usize
    ensures { result ≡ end_of ends.now slot count }
{
    match ends.get(slot) {
        Some(end) => *end as usize,
        None => count,
    }
}

/// Where the entries of each slot but the last one end.
fn slot_ends(alloc: Global, entries: &[Entry], scale: u32) -> Result<Vec<u32>, OutOfMemory>
    requires order { IsNonDecreasingBy key_of entries.now }
    requires few { length entries.now < 2 ^ 32 }
    ensures { IfOk result (λ ends. AreEnds scale entries.now ends.items) }
{
    let last = last_slot(entries, scale);
    let mut ends = Vec::with_capacity(alloc, last)?;
    for slot in 0..last {
        let end = entries.partition_point(|entry| slot_of(scale, entry.key) <= slot);
        ends.push(end as u32)?;
    }
    Ok(ends)
}

/// The slot of the last entry, or 0 where there is none.
fn last_slot(entries: &[Entry], scale: u32) -> usize
    requires { IsNonDecreasingBy key_of entries.now }
    ensures { All (λ e. slot_of scale (key_of e) ≤ result) entries.now }
{
    if entries.is_empty() {
        return 0;
    }
    let last = &entries[entries.len() - 1];
    slot_of(scale, last.key)
}
