//! The numbers of names, found by a hash of the name.

ghost use Rattle.std.specs.Prelude.{◌≡◌, ◌&&◌, ◌<◌, ◌^◌, [], IfOk, IfSome, length, bytes_eq, nat_eq, slice_index_or};
ghost use Rattle.std.specs.List.Sorted.{IsPermutation, IsSorted};
ghost use Rattle.schedule_build.specs.Buckets.{entries_of};
ghost use Rattle.schedule_build.specs.Hashed.{IsNumbered, entry_cmp, hash_cmp, name_hash};
ghost use Rattle.schedule_build.specs.Stored.{number_of_name};

use crate::buckets::{Buckets, Entry};
use crate::name_hash::name_hash;
use mt_base::memory::OutOfMemory;
use mt_base::names::Name;
use std::alloc::Global;
use std::cmp::Ordering;

/// The numbers of names, in the order of the hashes and then of the names: of equal names the
/// first counts. The names are not stored once more.
#[derive(Drop)]
pub(crate) struct NameNumbers {
    buckets: Buckets,
}

impl NameNumbers {
    /// The numbers of these names.
    pub(crate) fn build(alloc: Global, names: &[Name]) -> Result<NameNumbers, OutOfMemory>
        requires few { length names.now < 2 ^ 32 }
        ensures { IfOk result (IsNumbered names.now) }
    {
        let entries = sorted_entries(alloc, names)?;
        Ok(NameNumbers {
            buckets: Buckets::build(alloc, entries, names.len() as u32)?,
        })
    }

    /// The number of the first of these names that is equal to a name. None exactly where there is
    /// none.
    pub(crate) fn find(&self, names: &[Name], name: &str) -> Option<u32>
        requires { IsNumbered names.now self.now }
        ensures { result ≡ number_of_name names.now name.now }
    {
        let hash = name_hash(name);
        let near = self.buckets.near(hash);
        let place = near.partition_point(|entry| compare(names, entry, hash, name).is_lt());
        if place >= near.len() {
            return None;
        }
        let entry = &near[place];
        if !is_named(names, entry, hash, name) {
            return None;
        }
        Some(entry.number)
    }
}

/// The name with a number, or the empty text where there is none.
pub(crate) fn name_at(names: &[Name], number: u32) -> &str
    ensures { result.now ≡ slice_index_or names.now number [] }
{
    match names.get(number as usize) {
        Some(name) => name.text(),
        None => "",
    }
}

/// How the name of an entry stands to a name with this hash: by the hash, then by the bytes.
fn compare(names: &[Name], entry: &Entry, hash: u32, name: &str) -> Ordering
    ensures { result ≡ hash_cmp names.now hash name.now entry.now }
{
    match entry.key.cmp(&hash) {
        Ordering::Equal => name_at(names, entry.number).cmp(name),
        unequal => unequal,
    }
}

/// Whether an entry is of a name with this hash.
fn is_named(names: &[Name], entry: &Entry, hash: u32, name: &str) -> bool
    ensures { result ≡ (nat_eq entry.now.key hash
        && bytes_eq (slice_index_or names.now entry.now.number []) name.now) }
{
    entry.key == hash && name_at(names, entry.number) == name
}

/// How two entries of these names stand: by hash, then by name, then by number.
fn compare_entries(names: &[Name], a: &Entry, b: &Entry) -> Ordering
    ensures { result ≡ entry_cmp names.now a.now b.now }
{
    match compare(names, a, b.key, name_at(names, b.number)) {
        Ordering::Equal => a.number.cmp(&b.number),
        unequal => unequal,
    }
}

/// An entry for each of these names, in their order.
fn entries(alloc: Global, names: &[Name]) -> Result<Vec<Entry>, OutOfMemory>
    requires few { length names.now < 2 ^ 32 }
    ensures { IfOk result (λ all. all.items ≡ entries_of name_hash 0 names.now) }
{
    let mut all = Vec::with_capacity(alloc, names.len())?;
    for number in 0..names.len() {
        let key = name_hash(names[number].text());
        let number = number as u32;
        all.push(Entry { key, number })?;
    }
    Ok(all)
}

/// An entry for each of these names, by hash, then by name, then by number.
fn sorted_entries(alloc: Global, names: &[Name]) -> Result<Vec<Entry>, OutOfMemory>
    requires few { length names.now < 2 ^ 32 }
    ensures permutation { IfOk result (λ all.
        IsPermutation (entries_of name_hash 0 names.now) all.items) }
    ensures sorted { IfOk result (λ all. IsSorted (entry_cmp names.now) all.items) }
{
    let mut all = entries(alloc, names)?;
    all.sort_unstable_by(|a, b| compare_entries(names, a, b));
    Ok(all)
}
