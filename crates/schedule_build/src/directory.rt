//! The names of a timetable, and the numbers that they stand for.

ghost use Rattle.std.specs.Prelude.{◌≡◌, ◌<◌, ◌≤◌, ◌++◌, None, All, IfOk, IfSome, length};
ghost use Rattle.schedule_build.specs.Directory.{train_named, day_named, place_named, route_named, date_of_day, base_of, trip_of_train, day_of_train, id_of_place, kind_of_place, with_extra};
ghost use Rattle.schedule_build.specs.declared.service_day.ServiceDay.{ServiceDay as ADay};

use crate::extra_name::ExtraName;
use crate::extra_trains::ExtraTrains;
use crate::name_list::NameList;
use crate::places::Places;
use crate::service_day::ServiceDay;
use crate::train_names::TrainNames;
use mt_base::memory::OutOfMemory;
use mt_base::numbers::{Day, RouteNo, StopNo, Time, TrainNo};
use mt_base::places::PlaceKind;
use std::alloc::Global;
use std::marker::Model;

/// The names of the trains, places, routes and days of a timetable. It is seen as these names in
/// the order of their numbers, with how many extra trains can still be added.
#[derive(Drop)]
pub struct Directory {
    days: Vec<ServiceDay>,
    places: Places,
    routes: NameList,
    trains: TrainNames,
    extras: ExtraTrains,
}

impl Model for Directory {
    ghost use Rattle.schedule_build.specs.Directory.{Names};

    ghost Value = { Names };

    ghost use Rattle.schedule_build.specs.Seen.{seen, IsStored};

    ghost view = { seen };

    ghost invariant = { IsStored };
}

impl Directory {
    /// The directory with the loaded days, with these places, routes and trains, and with room for
    /// extra trains.
    pub(crate) fn build(
        days: Vec<ServiceDay>,
        places: Places,
        routes: NameList,
        trains: TrainNames,
        extras: ExtraTrains,
    ) -> Directory
        // at most 31 days, none later than 30 days of 26 hours after day 0, and 200,000 trains
        requires days { length days.items ≤ 31 }
        requires bases { All (λ (d : ADay). d.base ≤ 2808000) days.items }
        requires few { length trains ≤ 200000 }

        // each part of the directory
        ensures days { result.days ≡ days.items }
        ensures places { result.places ≡ places }
        ensures routes { result.routes ≡ routes }
        ensures trains { result.trains ≡ trains ++ extras.names }
        ensures spare { result.spare_trains ≡ extras.spare }
    {
        Directory {
            days,
            places,
            routes,
            trains,
            extras,
        }
    }

    /// The name of an extra train on a loaded service day, ready to be added. `OutOfMemory` where
    /// there is no memory.
    pub fn extra_name(&self, alloc: Global, trip: &str, day: Day) -> Result<ExtraName, OutOfMemory>
        requires loaded { day < 31 }
        ensures { IfOk result (λ name. name ≡ record { trip = trip.now; day = day }) }
    {
        ExtraName::build(alloc, trip, day)
    }

    /// Adds an extra train, which gets the next number. It takes no memory.
    #[tactic(auto, using(crate::proofs::NumberLemmas::numbers_after), unfolding(crate::specs::Directory::train_named))]
    pub fn add_extra(&mut self, name: ExtraName) -> TrainNo
        requires spare { 0 < self.old.spare_trains }
        requires new { train_named self.old name.trip name.day ≡ None }
        ensures number { result ≡ length self.old.trains }
        ensures names { self.new ≡ with_extra name.trip name.day self.old }
    {
        let number = self.trains();
        self.extras.add(name);
        TrainNo::new(number)
    }

    /// The train of a trip on a service day. None exactly where there is none.
    #[tactic(auto, using(crate::proofs::NumberLemmas::numbers_after), unfolding(crate::specs::Directory::train_named))]
    pub fn train(&self, trip: &str, day: Day) -> Option<TrainNo>
        ensures number { result ≡ train_named self.now trip.now day }
        ensures there { IfSome result (λ t. t < length self.now.trains) }
    {
        if let Some(number) = self.trains.find(trip, day) {
            return Some(TrainNo::new(number));
        }
        let extra = self.extras.find(trip, day)?;
        Some(TrainNo::new(self.trains.len() + extra))
    }

    /// The loaded day that has a date, a number YYYYMMDD. None exactly where no loaded day has it.
    #[tactic(auto, unfolding(crate::specs::Directory::day_named))]
    pub fn day(&self, date: u32) -> Option<Day>
        ensures number { result ≡ day_named self.now date }
        ensures there { IfSome result (λ d. d < length self.now.days) }
        ensures few { IfSome result (λ d. d < 31) }
    {
        for day in 0..self.days.len() {
            if self.days[day].date == date {
                return Some(Day::new(day as u32));
            }
        }
        None
    }

    /// The place with this `stop_id`. None exactly where there is none.
    #[tactic(auto, unfolding(crate::specs::Directory::place_named))]
    pub fn stop(&self, id: &str) -> Option<StopNo>
        ensures { result ≡ place_named self.now id.now }
    {
        let number = self.places.find(id)?;
        Some(StopNo::new(number))
    }

    /// The route with this `route_id`. None exactly where there is none.
    #[tactic(auto, unfolding(crate::specs::Directory::route_named))]
    pub fn route(&self, id: &str) -> Option<RouteNo>
        ensures { result ≡ route_named self.now id.now }
    {
        let number = self.routes.find(id)?;
        Some(RouteNo::new(number))
    }

    /// The date of a service day as the number YYYYMMDD, or 0 where the day is not loaded.
    pub fn date(&self, day: Day) -> u32
        ensures { result ≡ date_of_day self.now day }
    {
        match self.days.get(day.get() as usize) {
            Some(day) => day.date,
            None => 0,
        }
    }

    /// The base of a service day in seconds from the base of day 0, or 0 where the day is not
    /// loaded.
    pub fn base(&self, day: Day) -> Time
        ensures base { result ≡ base_of self.now day }
        ensures small { result ≤ 2808000 }
    {
        match self.days.get(day.get() as usize) {
            Some(day) => day.base,
            None => Time::new(0),
        }
    }

    /// How many trains there are.
    pub fn trains(&self) -> u32
        ensures { result ≡ length self.now.trains }
    {
        self.trains.len() + self.extras.len()
    }

    /// The `trip_id` of a train, or the empty text where there is no such train.
    #[tactic(auto, using(crate::proofs::ExtraLemmas::read_after))]
    pub fn trip_name(&self, train: TrainNo) -> &str
        ensures { result.now ≡ trip_of_train self.now train }
    {
        let loaded = self.trains.len();
        if train.get() < loaded {
            self.trains.trip(train.get())
        } else {
            self.extras.trip(train.get() - loaded)
        }
    }

    /// The service day of a train, or day 0 where there is no such train.
    #[tactic(auto, using(crate::proofs::ExtraLemmas::read_after))]
    pub fn train_day(&self, train: TrainNo) -> Day
        ensures day { result ≡ day_of_train self.now train }
        ensures loaded { result < 31 }
    {
        let loaded = self.trains.len();
        if train.get() < loaded {
            self.trains.day(train.get())
        } else {
            self.extras.day(train.get() - loaded)
        }
    }

    /// The kind of a place. None exactly where there is no such place.
    pub fn stop_kind(&self, stop: StopNo) -> Option<PlaceKind>
        ensures { result ≡ kind_of_place self.now stop }
    {
        self.places.kind(stop.get())
    }

    /// The `stop_id` of a place, or the empty text where there is no such place.
    pub fn stop_name(&self, stop: StopNo) -> &str
        ensures { result.now ≡ id_of_place self.now stop }
    {
        self.places.id(stop.get())
    }
}
