//! Entries put in order, where it can be by a number for each, since two numbers are compared
//! faster than two entries.

ghost use Rattle.std.specs.Prelude.{◌≡◌, ◌≢◌, OnOk, IfOk, IfSome, map};
ghost use Rattle.std.specs.List.{AllPairs};
ghost use Rattle.std.specs.List.Sorted.{IsPermutation};
ghost use Rattle.station_index.specs.Indexed.{AreInOrder};
ghost use Rattle.station_index.specs.Numbers.{entry_of_number};

use crate::loaded_event::{LoadedEvent, entry_of};
use mt_base::index_entries::Entry;
use mt_base::memory::OutOfMemory;
use mt_base::numbers::{Label, StopNo, Time, TrainNo};
use std::alloc::Global;

/// How many stops there are numbers for.
const STOPS: u64 = 1 << 17;

/// How many seconds, which are twelve days.
const SECONDS: u64 = 1 << 20;

/// How many trains.
const TRAINS: u64 = 1 << 18;

/// How many labels.
const LABELS: u64 = 1 << 8;

/// What one more train adds to a number. One more label adds 1.
const TRAIN: u64 = LABELS;

/// What one more second adds.
const SECOND: u64 = TRAIN * TRAINS;

/// What a departure has more than an arrival.
const DEP: u64 = SECOND * SECONDS;

/// What one more stop adds.
const STOP: u64 = 2 * DEP;

/// Puts entries in order. They are compared only where one of them has no number.
pub(crate) fn sort_entries(alloc: Global, entries: &mut Vec<Entry>) -> Result<(), OutOfMemory>
    requires { AllPairs (λ a b. a ≢ b) entries.old.items }
    ensures permutation { OnOk result (IsPermutation entries.old.items entries.new.items) }
    ensures order { OnOk result (AreInOrder entries.new.items) }
{
    let Some(mut numbers) = numbers_of(alloc, entries)? else {
        entries.sort_unstable();
        return Ok(());
    };
    numbers.sort_unstable();
    list_entries(entries, &numbers)
}

/// The numbers of entries, if each has one.
fn numbers_of(alloc: Global, entries: &[Entry]) -> Result<Option<Vec<u64>>, OutOfMemory>
    ensures { IfOk result (λ all.
        IfSome all (λ numbers. map entry_of_number numbers.items ≡ entries.now)) }
{
    let mut numbers = Vec::with_capacity(alloc, entries.len())?;
    for entry in entries {
        let Some(number) = number_of(entry) else {
            return Ok(None);
        };
        numbers.push(number)?;
    }
    Ok(Some(numbers))
}

/// Lists the entries of these numbers in place of what was listed.
fn list_entries(entries: &mut Vec<Entry>, numbers: &[u64]) -> Result<(), OutOfMemory>
    ensures { OnOk result (entries.new.items ≡ map entry_of_number numbers.now) }
{
    entries.clear();
    for number in numbers {
        entries.push(entry_of_number(*number))?;
    }
    Ok(())
}

/// The number of an entry. Of two entries the one with the lesser number stands before the other.
/// None where its stop, its time, its train or its label is past those that there are numbers for.
fn number_of(entry: &Entry) -> Option<u64>
    ensures { IfSome result (λ number. entry_of_number number ≡ entry.now) }
{
    let stop = u64::from(entry.stop.get());
    let second = u64::from(entry.time.seconds());
    let train = u64::from(entry.node.train.get());
    let label = u64::from(entry.node.label.get());
    if stop >= STOPS || second >= SECONDS || train >= TRAINS || label >= LABELS {
        return None;
    }
    if entry.dep != entry.node.dep {
        return None;
    }
    let slot = stop * STOP + u64::from(entry.dep) * DEP;
    Some(slot + second * SECOND + train * TRAIN + label)
}

/// The entry of a number.
fn entry_of_number(number: u64) -> Entry
    ensures { result ≡ entry_of_number number }
{
    let event = LoadedEvent {
        time: Time::new((number / SECOND % SECONDS) as u32),
        train: TrainNo::new((number / TRAIN % TRAINS) as u32),
        label: Label::new((number % LABELS) as u32),
    };
    let dep = number / DEP % 2 == 1;
    entry_of(StopNo::new((number / STOP) as u32), dep, &event)
}
