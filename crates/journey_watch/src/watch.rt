//! Journeys that are watched, and what is told of them.

ghost use Rattle.std.specs.Prelude.{◌≡◌, ◌+◌, ◌<◌, ◌^◌, ◌≤◌, ◌++◌, ◌∷◌, [], All, Err, IfErr, IfNone, IfOk, IfSome, IsErrOf, OnOk, Some, length, map, slice_get, slice_set};
ghost use Rattle.std.specs.Option.{option_and_then, option_map_or};
ghost use Rattle.journey_laws.specs.Certificates.{name_of};
ghost use Rattle.journey_watch.specs.declared.watched.Watched.{Watched as AWatched};
ghost use Rattle.journey_watch.specs.Renewing.{AreDue, reads_on, told_of};
ghost use Rattle.journey_watch.specs.Watching.{AreElsewhereKept, alerts_of, first_watched, reads_for, renewed};
ghost use Rattle.standing_laws.specs.Standings.{first_arrival};

use crate::standings::standing;
use crate::trains::{TrainJourneys, is_on_any};
use crate::watched::Watched;
use mt_base::certificates::CertRide;
use mt_base::journeys::{PlanRide, Query};
use mt_base::memory::OutOfMemory;
use mt_base::numbers::{Day, Time};
use mt_base::rows::Rows;
use standing_laws::{Alert, Standing};
use std::alloc::{AllocError, AllocFailed, Global};
use std::marker::Model;
use std::sync::ledger::Ledger;
use timetable::Timetable;
use train_nodes::Steps;

/// Why a journey is not watched.
#[derive(Clone, Copy, Debug, PartialEq, Eq)]
pub enum AddFault {
    /// As many journeys are watched as can be.
    Full,
    /// There was no memory.
    OutOfMemory,
}

impl From<AllocError> for AddFault {
    ghost use Rattle.std.specs.Prelude.{◌≡◌};
    ghost use Rattle.journey_watch.specs.declared.watch.AddFault.TheVariants.{OutOfMemory};

    ghost from_gives = { λ _ e. e ≡ OutOfMemory };

    fn from(_want: AllocError) -> AddFault {
        AddFault::OutOfMemory
    }
}

impl<T: Drop> From<AllocFailed<T>> for AddFault {
    ghost use Rattle.journey_watch.specs.declared.watch.AddFault.TheVariants.{OutOfMemory};

    ghost from_gives = { λ _ e. e ≡ OutOfMemory };

    fn from(_want: AllocFailed<T>) -> AddFault {
        AddFault::OutOfMemory
    }
}

/// The names of rides.
fn names_of(alloc: Global, rides: &[PlanRide]) -> Result<Rows<CertRide>, OutOfMemory>
    ensures { IfOk result (λ names. names ≡ map name_of rides.now) }
{
    let mut names = Vec::with_capacity(alloc, rides.len())?;
    for ride in rides {
        names.push(CertRide {
            train: ride.train,
            board: ride.board,
            alight: ride.alight,
        })?;
    }
    Ok(Rows::build(names))
}

/// When a journey of these rides arrives, as they say. Without a ride it is this time.
fn first_arrival(time: Time, rides: &[PlanRide]) -> Time
    ensures { result ≡ first_arrival time rides.now }
{
    match rides.last() {
        Some(ride) => ride.alight_time,
        None => time,
    }
}

/// That a watched journey has this standing now.
fn alert_of(watched: &Watched, standing: Standing) -> Alert
    ensures { result ≡ record { watch = watched.now.id; day = watched.now.day; standing = standing } }
{
    Alert {
        watch: watched.id,
        day: watched.day,
        standing,
    }
}

/// Finds the standing of the journey at a place again, if it has a ride on one of these trains. If
/// it is another than the one that is kept, it is kept and told.
fn renew_at<L: Ledger>(
    journeys: &mut Vec<Watched>,
    place: u32,
    trains: &[u32],
    t: &Timetable,
    steps: &mut Steps<L>,
) -> Option<Alert>
    requires few { All (λ (w : AWatched). length w.rides < 2 ^ 32) journeys.old.items }
    ensures told { result ≡ option_and_then (told_of t.now.network t.now.state trains.now)
        (slice_get journeys.old.items place) }
    ensures kept { IfNone result (journeys.new.items ≡ journeys.old.items) }
    ensures renewed { IfSome result (λ _. (w : AWatched)
        → slice_get journeys.old.items place ≡ Some w → journeys.new.items
        ≡ slice_set journeys.old.items place (renewed t.now.network t.now.state w)) }
    ensures cost { steps.new ≤ steps.old + option_map_or (reads_on trains.now)
        (slice_get journeys.old.items place) 0 }
{
    let place = place as usize;
    let Some(watched) = journeys.get(place) else {
        return None;
    };
    let rides = watched.rides.as_slice();
    if !is_on_any(trains, rides) {
        return None;
    }
    let standing = standing(t, &watched.query, rides, steps);
    if standing == watched.standing {
        return None;
    }
    let alert = alert_of(watched, standing);
    journeys[place].standing = standing;
    Some(alert)
}

/// Finds the standings of the journeys at these places again, and tells each that is another than
/// the one that is kept. `OutOfMemory` where there is no memory.
fn renew_all<L: Ledger>(
    alloc: Global,
    journeys: &mut Vec<Watched>,
    due: &[u32],
    trains: &[u32],
    t: &Timetable,
    steps: &mut Steps<L>,
) -> Result<Vec<Alert>, OutOfMemory>
    requires due { AreDue t.now.changed trains.now due.now journeys.old.items }
    requires kept { AreElsewhereKept t.now.network t.now.state t.now.changed journeys.old.items }
    requires few { All (λ (w : AWatched). length w.rides < 2 ^ 32) journeys.old.items }
    ensures alerts { IfOk result (λ alerts. alerts.items
        ≡ alerts_of t.now.network t.now.state journeys.old.items) }
    ensures renewed { OnOk result (journeys.new.items
        ≡ map (renewed t.now.network t.now.state) journeys.old.items) }
    ensures rides { map (λ w. w.rides) journeys.new.items ≡ map (λ w. w.rides) journeys.old.items }
    ensures cost { steps.new ≤ steps.old + reads_for t.now.changed journeys.old.items }
{
    let mut alerts = Vec::new(alloc);
    for place in due {
        if let Some(alert) = renew_at(journeys, *place, trains, t, steps) {
            alerts.push(alert)?;
        }
    }
    Ok(alerts)
}

/// Journeys that are watched, each with the standing that is kept of it. It is seen as the list of
/// them, in the order in which they were added, and how many there can be.
#[derive(Drop)]
pub struct Watch {
    journeys: Vec<Watched>,
    trains: TrainJourneys,
    room: u32,
}

impl Model for Watch {
    ghost use Rattle.journey_watch.specs.Watching.{WatchState};
    ghost use Rattle.journey_watch.specs.Trains.{AreBesideTrains};

    ghost Value = { WatchState };

    ghost view = { λ w. record { room = w.room; watched = w.journeys.items } };

    ghost invariant = { λ w. AreBesideTrains w.room w.trains w.journeys.items };
}

impl Watch {
    /// Room for so many journeys, from 1 to 10,000. None is watched. `OutOfMemory` where there is no
    /// memory.
    pub fn build(alloc: Global, room: u32) -> Result<Watch, OutOfMemory>
        requires some { 1 ≤ room }
        requires few { room ≤ 10000 }
        ensures { IfOk result (λ w. w ≡ record { room = room; watched = [] }) }
    {
        Ok(Watch {
            journeys: Vec::with_capacity(alloc, room as usize)?,
            trains: TrainJourneys::new(alloc),
            room,
        })
    }

    /// Watches a query's journey of these rides from now on, under a number. The time of the query
    /// lies on this service day. The standing that is kept of it at first is good, with the arrival
    /// of the last ride, or with the time of the query where there is no ride. `Full` exactly where
    /// as many journeys are watched as can be, and `OutOfMemory` where there is no memory, or there
    /// are 2^32 rides or more; in each case nothing has changed.
    pub fn add(
        &mut self,
        alloc: Global,
        id: u64,
        day: Day,
        q: &Query,
        rides: &[PlanRide],
    ) -> Result<(), AddFault>
        ensures watched { OnOk result (self.new ≡ record {
          room = self.old.room;
          watched = self.old.watched ++ first_watched id day q.now rides.now ∷ [];
        }) }
        ensures unchanged { IfErr result (λ _. self.new ≡ self.old) }
        ensures room { OnOk result (length self.old.watched < self.old.room) }
        ensures full { IsErrOf result AddFault.Full → length self.old.watched ≡ self.old.room }
        ensures full_exactly { length self.old.watched ≡ self.old.room
            → result ≡ Err AddFault.Full }
    {
        if self.journeys.len() == self.room as usize {
            return Err(AddFault::Full);
        }
        if rides.len() > u32::MAX as usize {
            return Err(AddFault::OutOfMemory);
        }
        let names = names_of(alloc, rides)?;
        let place = self.journeys.len() as u32;
        self.trains.note_rides(alloc, names.as_slice(), place)?;
        let standing = Standing::Good {
            arrives: first_arrival(q.time, rides),
        };
        self.journeys.push(Watched {
            id,
            day,
            query: *q,
            rides: names,
            standing,
        })?;
        Ok(())
    }

    /// Finds again, at the times of a timetable, the standing of each journey that has a train with
    /// an event that the last accepted message changed, and tells each that is another than the one
    /// that is kept, in the order in which the journeys were added. Every other journey has to have
    /// at these times the standing that is kept of it, as after an accepted message before which
    /// all had theirs. What is told is kept. At most
    /// two stored times are read for each ride of those journeys. After `OutOfMemory`, where there
    /// is no memory, some may be kept that were not told.
    pub fn after<L: Ledger>(
        &mut self,
        alloc: Global,
        t: &Timetable,
        steps: &mut Steps<L>,
    ) -> Result<Rows<Alert>, OutOfMemory>
        requires kept { AreElsewhereKept t.now.network t.now.state t.now.changed
            self.old.watched }
        ensures alerts { IfOk result (λ alerts. alerts
            ≡ alerts_of t.now.network t.now.state self.old.watched) }
        ensures renewed { OnOk result (self.new ≡ record {
          room = self.old.room;
          watched = map (renewed t.now.network t.now.state) self.old.watched;
        }) }
        ensures cost { steps.new ≤ steps.old + reads_for t.now.changed self.old.watched }
    {
        let trains = self.trains.watched(alloc, t.changed())?;
        let due = self.trains.journeys(alloc, &trains)?;
        let alerts = renew_all(alloc, &mut self.journeys, &due, &trains, t, steps)?;
        Ok(Rows::build(alerts))
    }
}
