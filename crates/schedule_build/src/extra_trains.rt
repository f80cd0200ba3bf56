//! The names of the extra trains, with room that is taken when they are made.

ghost use Rattle.std.specs.Prelude.{◌≡◌, ◌+◌, ◌-◌, ◌<◌, ◌≤◌, [], ◌∷◌, ◌++◌, None, IsTrue, IfOk, IfErr, IfSome, length, map};
ghost use Rattle.std.specs.FinMap.{is_sorted};
ghost use Rattle.std.specs.List.Sorted.{IsSearchInRange};
ghost use Rattle.schedule_build.specs.Stored.{number_of_train};
ghost use Rattle.schedule_build.specs.StoredExtras.{name_of, name_cmp, name_at, entry_of, IsEntry, IsGap};

use crate::extra_name::ExtraName;
use mt_base::memory::OutOfMemory;
use mt_base::numbers::Day;
use std::alloc::Global;
use std::cmp::Ordering;
use std::marker::Model;

/// The names of the extra trains in the order of their numbers, which count from 0 here, and for
/// how many more there is room. The numbers are also kept in the order of the names.
#[derive(Drop)]
pub(crate) struct ExtraTrains {
    names: Vec<ExtraName>,
    order: Vec<u32>,
    spare: u32,
}

impl Model for ExtraTrains {
    ghost use Rattle.schedule_build.specs.StoredExtras.{ExtraNames, seen_extras, AreStoredExtras};

    ghost Value = { ExtraNames };

    ghost view = { seen_extras };

    ghost invariant = { AreStoredExtras };
}

impl ExtraTrains {
    /// No extra trains, and room for so many.
    pub(crate) fn with_room(alloc: Global, spare: u32) -> Result<ExtraTrains, OutOfMemory>
        requires few { spare ≤ 2000 }
        ensures { IfOk result (λ extras. extras ≡ record { names = []; spare = spare }) }
    {
        Ok(ExtraTrains {
            names: Vec::with_capacity(alloc, spare as usize)?,
            order: Vec::with_capacity(alloc, spare as usize)?,
            spare,
        })
    }

    /// How many extra trains there are.
    pub(crate) fn len(&self) -> u32
        ensures len { result ≡ length self.now.names }
        ensures few { result + self.now.spare ≤ 2000 }
    {
        self.names.len() as u32
    }

    /// The `trip_id` of an extra train, or the empty text where there is no such train.
    pub(crate) fn trip(&self, number: u32) -> &str
        ensures { result.now ≡ (name_at self.now.names number).trip }
    {
        match self.names.get(number as usize) {
            Some(name) => name.trip(),
            None => "",
        }
    }

    /// The service day of an extra train, or day 0 where there is no such train.
    pub(crate) fn day(&self, number: u32) -> Day
        ensures day { result ≡ (name_at self.now.names number).day }
        ensures loaded { result < 31 }
    {
        match self.names.get(number as usize) {
            Some(name) => name.day(),
            None => Day::new(0),
        }
    }

    /// The number of the train of a trip on a service day. None exactly where there is none.
    pub(crate) fn find(&self, trip: &str, day: Day) -> Option<u32>
        ensures number { result ≡ number_of_train self.now.names trip.now day }
        ensures there { IfSome result (λ n. n < length self.now.names) }
    {
        match search(&self.names, &self.order, trip, day) {
            Ok(place) => Some(self.order[place]),
            Err(_) => None,
        }
    }

    /// Adds a train with the next number. It takes no memory.
    pub(crate) fn add(&mut self, name: ExtraName)
        requires spare { 0 < self.old.spare }
        requires new { number_of_train self.old.names name.trip name.day ≡ None }
        ensures names { self.new.names ≡ self.old.names ++ name ∷ [] }
        ensures spare { self.new.spare ≡ self.old.spare - 1 }
    {
        let Err(place) = search(&self.names, &self.order, name.trip(), name.day()) else {
            unreachable!()
        };
        // There is room, so that both succeed.
        let number = self.names.len() as u32;
        let _ = self.order.insert(place, number);
        let _ = self.names.push(name);
        self.spare -= 1;
    }
}

/// How the name with a number stands to that of a trip on a service day.
fn compare(names: &[ExtraName], number: u32, trip: &str, day: Day) -> Ordering
    ensures { result ≡ name_cmp (name_at names.now number) (name_of trip.now day) }
{
    match names.get(number as usize) {
        Some(name) => name.trip().cmp(trip).then(name.day().cmp(&day)),
        None => "".cmp(trip).then(Day::new(0).cmp(&day)),
    }
}

/// The place of a name among numbers in the order of their names, or the place where it would be
/// inserted.
fn search(names: &[ExtraName], order: &[u32], trip: &str, day: Day) -> Result<usize, usize>
    requires { IsTrue (is_sorted name_cmp (map (entry_of names.now) order.now)) }
    ensures within { IsSearchInRange result (length order.now) }
    ensures found { IfOk result (IsEntry names.now order.now (name_of trip.now day)) }
    ensures absent { IfErr result (IsGap names.now order.now (name_of trip.now day)) }
{
    order.binary_search_by(|number| compare(names, *number, trip, day))
}
