//! The names of the trains.

ghost use Rattle.std.specs.Prelude.{◌≡◌, ◌*◌, ◌+◌, ◌<◌, ◌≤◌, [], All, IfOk, IfSome, length, map, slice_get};
ghost use Rattle.std.specs.List.Sorted.{IsNonDecreasingBy, IsPermutation};
ghost use Rattle.std.specs.Option.{option_map_or};
ghost use Rattle.delay_model.specs.Names.{TrainName};
ghost use Rattle.schedule_build.specs.Buckets.{entries_of};
ghost use Rattle.schedule_build.specs.Stored.{number_of_train};
ghost use Rattle.schedule_build.specs.StoredTrains.{HasTrip, IsSmall, key_at, order_of, seen_train, train_key};
ghost use Rattle.schedule_build.specs.declared.train_names.StoredTrain.{StoredTrain as AStoredTrain};

use crate::buckets::{Buckets, Entry};
use crate::name_list::NameList;
use mt_base::memory::OutOfMemory;
use mt_base::numbers::Day;
use std::alloc::Global;
use std::marker::Model;

/// How many slots there would be for all keys of trains, so that each trip has one.
const SLOTS: u32 = 1 << 27;

/// A train: the number of its trip's name, and its service day.
#[derive(Clone, Copy, Debug)]
pub(crate) struct StoredTrain {
    pub(crate) trip: u32,
    pub(crate) day: Day,
}

/// The names of the trains in the order of their numbers. The name of each trip is stored once.
#[derive(Drop)]
pub(crate) struct TrainNames {
    trips: NameList,
    trains: Vec<StoredTrain>,
    /// The numbers by trip and day.
    numbers: Buckets,
}

impl Model for TrainNames {
    ghost use Rattle.std.specs.Prelude.{List};
    ghost use Rattle.delay_model.specs.Names.{TrainName};

    ghost Value = { List TrainName };

    ghost use Rattle.std.specs.Prelude.{map};
    ghost use Rattle.schedule_build.specs.StoredTrains.{seen_train, AreNamed};

    ghost view = { λ a. map (seen_train a.trips) a.trains.items };

    ghost invariant = { λ a. AreNamed a.trips a.trains.items a.numbers };
}

/// The key of a trip on a service day.
fn train_key(trip: u32, day: Day) -> u32
    requires trip { trip < 200000 }
    requires day { day < 31 }
    ensures { result ≡ key_at trip day }
{
    trip * 32 + day.get()
}

/// An entry for each of these trains, in their order.
fn entries(alloc: Global, trains: &[StoredTrain]) -> Result<Vec<Entry>, OutOfMemory>
    requires few { length trains.now ≤ 200000 }
    requires small { All IsSmall trains.now }
    ensures { IfOk result (λ all. all.items ≡ entries_of train_key 0 trains.now) }
{
    let mut all = Vec::with_capacity(alloc, trains.len())?;
    for number in 0..trains.len() {
        let train = trains[number];
        let key = train_key(train.trip, train.day);
        let number = number as u32;
        all.push(Entry { key, number })?;
    }
    Ok(all)
}

/// A number by which entries stand: by key, then by number.
fn order_of(entry: &Entry) -> u64
    ensures { result ≡ order_of entry.now }
{
    u64::from(entry.key) * 4_294_967_296 + u64::from(entry.number)
}

/// An entry for each of these trains, by trip, then by day, then by number.
fn sorted_entries(alloc: Global, trains: &[StoredTrain]) -> Result<Vec<Entry>, OutOfMemory>
    requires few { length trains.now ≤ 200000 }
    requires small { All IsSmall trains.now }
    ensures permutation { IfOk result (λ all.
        IsPermutation (entries_of train_key 0 trains.now) all.items) }
    ensures sorted { IfOk result (λ all. IsNonDecreasingBy order_of all.items) }
{
    let mut all = entries(alloc, trains)?;
    all.sort_unstable_by_key(|entry| order_of(entry));
    Ok(all)
}

impl TrainNames {
    /// These trains, whose trips have these names, and are numbered in their order.
    pub(crate) fn build(
        alloc: Global,
        trips: NameList,
        trains: Vec<StoredTrain>,
    ) -> Result<TrainNames, OutOfMemory>
        requires few { length trains.items ≤ 200000 }
        requires few_trips { length trips ≤ 200000 }
        requires loaded { All (λ (t : AStoredTrain). t.day < 31) trains.items }
        requires has_trips { All (HasTrip trips) trains.items }
        ensures { IfOk result (λ names. names ≡ map (seen_train trips) trains.items) }
    {
        let entries = sorted_entries(alloc, &trains)?;
        let numbers = Buckets::build(alloc, entries, SLOTS)?;
        Ok(TrainNames {
            trips,
            trains,
            numbers,
        })
    }

    /// How many trains there are.
    pub(crate) fn len(&self) -> u32
        ensures { result ≡ length self.now }
    {
        self.trains.len() as u32
    }

    /// The number of the first train of a trip on a service day. None exactly where there is none.
    pub(crate) fn find(&self, trip: &str, day: Day) -> Option<u32>
        ensures number { result ≡ number_of_train self.now trip.now day }
        ensures there { IfSome result (λ n. n < length self.now) }
    {
        let trip = self.trips.find(trip)?;
        if day.get() >= 31 {
            return None;
        }
        self.numbers.find(train_key(trip, day))
    }

    /// The `trip_id` of a train, or the empty text where there is no such train.
    pub(crate) fn trip(&self, number: u32) -> &str
        ensures { result.now ≡ option_map_or (λ (t : TrainName). t.trip)
            (slice_get self.now number) [] }
    {
        match self.trains.get(number as usize) {
            Some(train) => self.trips.name(train.trip),
            None => "",
        }
    }

    /// The service day of a train, or day 0 where there is no such train.
    pub(crate) fn day(&self, number: u32) -> Day
        ensures day { result ≡ option_map_or (λ (t : TrainName). t.day)
            (slice_get self.now number) 0 }
        ensures loaded { result < 31 }
    {
        match self.trains.get(number as usize) {
            Some(train) => train.day,
            None => Day::new(0),
        }
    }
}
