//! The earliest arrival of a query.

ghost use Rattle.std.specs.Prelude.{◌≡◌, ◌≤◌, ◌<◌, ◌+◌, ◌^◌, [], None, IfOk, get_or, length, replicate, vec_capacity};
ghost use Rattle.conn_scan.specs.Searched.{HasFound};
ghost use Rattle.conn_scan.specs.Scanned.{HasRoomFor, HasSameRoom};
ghost use Rattle.conn_scan.specs.ScratchState.{IsAnswer, IsSettled};

use crate::aboard::Aboard;
use crate::known::{Ending, Known, ask, clear, is_at_once};
use crate::openings::Openings;
use crate::scan::search;
use crate::stop_rides::StopRides;
use crate::stop_times::StopTimes;
use crate::trace::trace;
use mt_base::journeys::{PlanRide, Query};
use mt_base::memory::OutOfMemory;
use mt_base::numbers::{StopNo, Time};
use std::alloc::Global;
use std::marker::Model;
use timetable::Timetable;

/// So many numbers of departures a timetable has at most.
const MOST_NUMBERS: u32 = 1 << 22;

/// What a scan keeps for each stop and each number of a departure, and room for the rides that it
/// shows, for one query after the other. All memory is taken when it is made.
#[derive(Drop)]
pub struct Scratch {
    pub(crate) known: Known,
    rides: Vec<PlanRide>,
    numbers: u32,
}

impl Model for Scratch {
    ghost use Rattle.conn_scan.specs.ScratchState.{ScratchState};

    ghost Value = { ScratchState };

    ghost use Rattle.conn_scan.specs.ScratchState.{seen};

    ghost view = { seen };

    ghost use Rattle.conn_scan.specs.ScratchState.{HasRoom};

    ghost invariant = { HasRoom };
}

/// The answer to a query.
#[derive(Clone, Copy, Debug, PartialEq, Eq)]
pub enum Found {
    /// There is a journey.
    Arrives {
        /// The time of the earliest arrival.
        at: Time,
    },

    /// There is no journey.
    NoWay,
}

/// The tables of a scan over so many stops and so many numbers of departures.
fn tables(alloc: Global, stops: usize, numbers: usize) -> Result<Known, OutOfMemory>
    requires numbers { numbers ≤ 2 ^ 22 }
    requires stops { stops < 2 ^ 32 }
    ensures { IfOk result (λ k. k ≡ record {
      openings = record { times = replicate (stops + 1) None; rides = replicate (stops + 1) None };
      held = replicate stops None;
      aboard = replicate (numbers + 1) None;
      best = None;
    }) }
{
    let times = StopTimes::build(alloc, stops + 1)?;
    let rides = StopRides::build(alloc, stops + 1)?;
    let held = StopTimes::build(alloc, stops)?;
    let aboard = Aboard::build(alloc, numbers + 1)?;
    let best: Option<Ending> = None;
    Ok(Known {
        openings: Openings { times, rides },
        held,
        aboard,
        best,
    })
}

/// Searches for the earliest arrival of a query, with these tables. Puts the rides of a journey
/// that arrives then in place of others.
fn find(t: &Timetable, q: &Query, known: &mut Known, rides: &mut Vec<PlanRide>) -> Found
    requires room { HasRoomFor (length t.now.network.stops) t.now.numbers known.old }
    requires capacity { length t.now.network.stops ≤ vec_capacity rides.old }
    ensures found { HasFound t.now.network t.now.state q.now result rides.new.items
        known.new.held }
    ensures room { HasSameRoom known.old known.new }
    ensures capacity { vec_capacity rides.new ≡ vec_capacity rides.old }
{
    t.state_is_valid();
    t.calls_are_at_stops();
    let order = t.departures();
    order.departures_are_in_order();
    let changes = t.graph().changes();
    let asked = ask(changes, q);
    rides.clear();
    if is_at_once(&asked) {
        clear(known);
        return Found::Arrives { at: q.time };
    }
    search(order, changes, &asked, known);
    let Some(last) = known.best else {
        return Found::NoWay;
    };
    trace(t, order, &known.openings, &last.ride, rides);
    Found::Arrives { at: last.time }
}

impl Scratch {
    /// Room for queries over so many stops and departures with so many numbers. No ride is shown.
    /// `OutOfMemory` where there is no memory.
    pub fn build(alloc: Global, stops: u32, numbers: u32) -> Result<Scratch, OutOfMemory>
        ensures { IfOk result (λ scratch. scratch ≡ record {
          room = record { stops = stops; numbers = numbers };
          rides = [];
          held = replicate stops None;
        }) }
    {
        let known = tables(alloc, stops as usize, numbers.min(MOST_NUMBERS) as usize)?;
        Ok(Scratch {
            known,
            rides: Vec::with_capacity(alloc, stops as usize)?,
            numbers,
        })
    }

    /// The rides of the journey that was found last, in their order.
    pub fn rides(&self) -> &[PlanRide]
        ensures { result.now ≡ self.now.rides }
    {
        &self.rides
    }

    /// The time that stands for an arrival at a stop with the last answer, before any change, in
    /// seconds from the base of day 0, if one stands there. Those before the answer's arrival make
    /// a good certificate with the rides, and none of them is before the query's time. Nothing is
    /// promised of the others, nor of any after a check of a certificate.
    pub fn held(&self, s: StopNo) -> Option<Time>
        ensures { result ≡ get_or self.now.held s None }
    {
        self.known.held.get(s)
    }
}

/// The earliest arrival of a query. The rides of a journey that arrives then are shown in the
/// scratch, and by stop the times that show that none arrives earlier. It takes no memory.
pub fn earliest(t: &Timetable, q: &Query, scratch: &mut Scratch) -> Found
    requires stops { length t.now.network.stops ≤ scratch.old.room.stops }
    requires numbers { t.now.numbers ≤ scratch.old.room.numbers }
    ensures answer { IsAnswer t.now.network t.now.state q.now scratch.new.rides result }
    ensures settled { IsSettled t.now.network t.now.state q.now result scratch.new }
    ensures room { scratch.new.room ≡ scratch.old.room }
{
    t.departures().departures_are_in_order();
    find(t, q, &mut scratch.known, &mut scratch.rides)
}
