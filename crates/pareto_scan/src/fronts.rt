//! All best plans of a query.

ghost use Rattle.std.specs.Prelude.{◌≡◌, ◌≤◌, ◌<◌, ◌^◌, ◌+◌, [], ◌∷◌, IfOk, OnOk, All, length};
ghost use Rattle.journey_laws.specs.Fronts.{IsFront};
ghost use Rattle.pareto_scan.specs.Levels.{HasLevelRoom, KeepsRoom};

use crate::begin::begin;
use crate::level::Level;
use crate::plans::plans_within;
use crate::riders::Riders;
use crate::scan::scan;
use conn_scan::known::{Ending, ask, is_at_once};
use conn_scan::openings::Openings;
use conn_scan::stop_rides::StopRides;
use conn_scan::stop_times::StopTimes;
use mt_base::journeys::{Plan, Query};
use mt_base::memory::OutOfMemory;
use mt_base::numbers::Time;
use mt_base::rows::Rows;
use std::alloc::Global;
use std::marker::Model;
use timetable::Timetable;

/// So many numbers of departures a timetable has at most.
const MOST_NUMBERS: u32 = 1 << 22;

/// What a scan keeps after each number of rides for each stop, and for each number of a departure,
/// for one query after the other. Its memory is taken when it is made, and again only where `fit`
/// finds too little of it.
#[derive(Drop)]
pub struct FrontScratch {
    levels: Vec<Level>,
    riders: Riders,
    stops: u32,
    numbers: u32,
}

impl Model for FrontScratch {
    ghost use Rattle.pareto_scan.specs.FrontRoom.{FrontRoom};

    ghost Value = { FrontRoom };

    ghost use Rattle.pareto_scan.specs.FrontRoom.{seen};

    ghost view = { seen };

    ghost use Rattle.pareto_scan.specs.FrontRoom.{HasFrontRoom};

    ghost invariant = { HasFrontRoom };
}

/// The tables for so many stops, after some number of rides.
fn build_level(alloc: Global, stops: usize) -> Result<Level, OutOfMemory>
    requires stops { stops < 2 ^ 32 }
    ensures { IfOk result (HasLevelRoom stops) }
{
    let times = StopTimes::build(alloc, stops + 1)?;
    let rides = StopRides::build(alloc, stops + 1)?;
    let held = StopTimes::build(alloc, stops)?;
    let best: Option<Ending> = None;
    Ok(Level {
        openings: Openings { times, rides },
        held,
        best,
    })
}

/// The tables for so many stops, after no ride and after each number of rides up to this one.
fn build_levels(alloc: Global, stops: usize, rides: u32) -> Result<Vec<Level>, OutOfMemory>
    requires stops { stops < 2 ^ 32 }
    requires rides { rides ≤ 8 }
    ensures count { IfOk result (λ levels. length levels.items ≡ rides + 1) }
    ensures rows { IfOk result (λ levels. All (HasLevelRoom stops) levels.items) }
{
    let mut levels = Vec::with_capacity(alloc, rides as usize + 1)?;
    for _ in 0..rides + 1 {
        levels.push(build_level(alloc, stops)?)?;
    }
    Ok(levels)
}

/// The plan of those who are there at once: it has no ride, and arrives at this time.
fn plan_at_once(alloc: Global, time: Time) -> Result<Vec<Plan>, OutOfMemory>
    ensures { IfOk result (λ plans. plans.items ≡ record { arrives = time; rides = [] } ∷ []) }
{
    let mut plans = Vec::new(alloc);
    plans.push(Plan {
        arrives: time,
        rides: Rows::build(Vec::new(alloc)),
    })?;
    Ok(plans)
}

/// Searches for the best plans of a query with at most so many rides, with these tables.
fn find(
    alloc: Global,
    t: &Timetable,
    q: &Query,
    most: u32,
    levels: &mut [Level],
    riders: &mut Riders,
) -> Result<Vec<Plan>, OutOfMemory>
    requires room { All (HasLevelRoom (length t.now.network.stops)) levels.old }
    requires few { length levels.old ≤ 9 }
    requires most { most < length levels.old }
    requires riders { t.now.numbers < length riders.old }
    requires numbers { length riders.old ≤ 2 ^ 23 }
    ensures front { IfOk result (λ plans. IsFront t.now.network t.now.state q.now most
        plans.items) }
    ensures room { KeepsRoom levels.old levels.new }
    ensures riders { length riders.new ≡ length riders.old }
{
    t.state_is_valid();
    t.calls_are_at_stops();
    let order = t.departures();
    order.departures_are_in_order();
    let changes = t.graph().changes();
    let asked = ask(changes, q);
    if is_at_once(&asked) {
        return plan_at_once(alloc, q.time);
    }
    begin(changes, &asked, levels, riders);
    scan(order, changes, &asked, most, levels, riders);
    plans_within(alloc, t.graph().trains(), order, levels, most)
}

impl FrontScratch {
    /// Room for queries over so many stops and departures with so many numbers, and for plans with
    /// up to so many rides: at most 8. `OutOfMemory` where there is no memory.
    pub fn build(
        alloc: Global,
        rides: u32,
        stops: u32,
        numbers: u32,
    ) -> Result<FrontScratch, OutOfMemory>
        requires rides { rides ≤ 8 }
        ensures { IfOk result (λ scratch. scratch ≡ record {
          stops = stops;
          numbers = numbers;
          rides = rides;
        }) }
    {
        let levels = build_levels(alloc, stops as usize, rides)?;
        let riders = Riders::build(alloc, numbers.min(MOST_NUMBERS) as usize + 1)?;
        Ok(FrontScratch {
            levels,
            riders,
            stops,
            numbers,
        })
    }

    /// Up to how many rides there is room for.
    pub fn rides(&self) -> u32
        ensures { result ≡ self.now.rides }
    {
        self.levels.len() as u32 - 1
    }

    /// Takes room for a timetable, where there is too little for it. `OutOfMemory` where there is
    /// no memory.
    pub fn fit(&mut self, alloc: Global, t: &Timetable) -> Result<(), OutOfMemory>
        ensures stops { OnOk result (length t.now.network.stops ≤ self.new.stops) }
        ensures numbers { OnOk result (t.now.numbers ≤ self.new.numbers) }
        ensures rides { self.new.rides ≡ self.old.rides }
    {
        let stops = t.graph().changes().stops();
        let numbers = t.numbers();
        if self.stops < stops || self.numbers < numbers {
            *self = FrontScratch::build(alloc, self.rides(), stops, numbers)?;
        }
        Ok(())
    }
}

/// The best plans of a query with at most so many rides: journeys, by rising number of rides and
/// falling arrival, such that for each journey with at most so many rides one of them has no more
/// rides and arrives no later. There is none exactly where no journey has at most so many rides.
/// `OutOfMemory` where there is no memory for them.
pub fn front(
    alloc: Global,
    t: &Timetable,
    q: &Query,
    rides: u32,
    scratch: &mut FrontScratch,
) -> Result<Vec<Plan>, OutOfMemory>
    requires stops { length t.now.network.stops ≤ scratch.old.stops }
    requires numbers { t.now.numbers ≤ scratch.old.numbers }
    requires rides { rides ≤ scratch.old.rides }
    ensures front { IfOk result (λ plans. IsFront t.now.network t.now.state q.now rides
        plans.items) }
    ensures room { scratch.new ≡ scratch.old }
{
    t.departures().departures_are_in_order();
    find(alloc, t, q, rides, &mut scratch.levels, &mut scratch.riders)
}
