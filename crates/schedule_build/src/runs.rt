//! The trips that run on each loaded service day.

ghost use Rattle.std.specs.Prelude.{◌≡◌, ◌+◌, ◌<◌, ◌≤◌, ◌^◌, [], ◌∷◌, ◌++◌, ◌&&◌, All, IfOk, IfErr, length};
ghost use Rattle.std.specs.List.Sorted.{IsNonDecreasingBy};
ghost use Rattle.mt_base.specs.Civil.{IsCivil};
ghost use Rattle.feed_tables.specs.Calls.{has_calls, trip_of};
ghost use Rattle.feed_tables.specs.Lawful.{IsLawful};
ghost use Rattle.schedule_build.specs.Faults.{IsTrainsFault};
ghost use Rattle.schedule_build.specs.Groups.{IsGrouped};
ghost use Rattle.schedule_build.specs.Runs.{HasService, is_set, day_runs, runs_on, all_runs};

use crate::dates::date_after;
use crate::faults::ExpandFault;
use crate::groups::rows_of;
use crate::running::active_services;
use crate::service_day::base_on;
use mt_base::numbers::{RouteNo, Time};
use mt_base::tables::{CallRow, Tables, TripRow, What};
use std::alloc::Global;

/// A trip on a service day.
#[derive(Clone, Copy, Debug)]
pub struct Run {
    /// The service day, from 0 for the first loaded day.
    pub day: u32,

    /// The base of the service day, in seconds from that of day 0.
    pub base: Time,

    /// The trip, as a row of `Tables::trips`.
    pub trip: u32,

    /// The route of the trip.
    pub route: RouteNo,
}

fn push_run(runs: &mut Vec<Run>, run: Run) -> Result<(), ExpandFault>
    requires { length runs.old.items ≤ 200000 }
    ensures runs { IfOk result (λ _. runs.new.items ≡ runs.old.items ++ run ∷ []) }
    ensures few { IfOk result (λ _. length runs.new.items ≤ 200000) }
    ensures fault { IfErr result (IsTrainsFault (length runs.old.items + 1)) }
{
    if runs.len() >= 200_000 {
        return Err(ExpandFault::TooMany { what: What::Trains });
    }
    runs.push(run)?;
    Ok(())
}

/// Whether a trip runs: its service is active and it has calls.
fn is_running(row: &TripRow, trip: u32, active: &[bool], all: &[CallRow]) -> bool
    requires service { HasService (length active.now) row.now }
    requires grouped { IsNonDecreasingBy trip_of all.now }
    ensures { result ≡ (is_set active.now row.now.service && has_calls all.now trip) }
{
    active[row.service as usize] && 0 < rows_of(all, trip).len()
}

/// Adds the trips that run on a day with this base.
fn add_day(
    runs: &mut Vec<Run>,
    trips: &[TripRow],
    active: &[bool],
    all: &[CallRow],
    day: u32,
    base: Time,
) -> Result<(), ExpandFault>
    // the trips and their calls, in order
    requires services { All (HasService (length active.now)) trips.now }
    requires grouped { IsNonDecreasingBy trip_of all.now }

    // how many trips and runs there may be
    requires few_trips { length trips.now < 2 ^ 32 }
    requires few_runs { length runs.old.items ≤ 200000 }

    // the runs of the day, and when there are too many
    ensures runs { IfOk result (λ _. runs.new.items ≡ runs.old.items
        ++ day_runs (is_set active.now) all.now day base 0 trips.now) }
    ensures few { IfOk result (λ _. length runs.new.items ≤ 200000) }
    ensures fault { IfErr result
        (IsTrainsFault
        (length (runs.old.items ++ day_runs (is_set active.now) all.now day base 0 trips.now))) }
{
    for trip in 0..trips.len() {
        let row = &trips[trip];
        if is_running(row, trip as u32, active, all) {
            let run = Run {
                day,
                base,
                trip: trip as u32,
                route: row.route,
            };
            push_run(runs, run)?;
        }
    }
    Ok(())
}

/// Adds the trips that run on a service day with this base, of which day 0 is the date `first`.
fn add_date(
    alloc: Global,
    runs: &mut Vec<Run>,
    t: &Tables,
    all: &[CallRow],
    first: u32,
    day: u32,
    base: Time,
) -> Result<(), ExpandFault>
    // lawful tables, and a civil date
    requires lawful { IsLawful t.now }
    requires civil { IsCivil first }
    requires year { first < 21010000 }
    requires day { day ≤ 31 }

    // the calls trip by trip, and the runs so far
    requires grouped { IsGrouped t.now.calls all.now }
    requires few_runs { length runs.old.items ≤ 200000 }

    // the runs of the day, and when there are too many
    ensures runs { IfOk result (λ _. runs.new.items
        ≡ runs.old.items ++ runs_on t.now first day base) }
    ensures few { IfOk result (λ _. length runs.new.items ≤ 200000) }
    ensures fault { IfErr result
        (IsTrainsFault (length (runs.old.items ++ runs_on t.now first day base))) }
{
    let active = active_services(alloc, t, date_after(first, day))?;
    add_day(runs, t.trips.as_slice(), active.as_slice(), all, day, base)
}

/// The trips that run on so many service days from the date `first` on, which have these bases, in
/// the order of the days.
pub(crate) fn all_runs(
    alloc: Global,
    t: &Tables,
    all: &[CallRow],
    first: u32,
    days: u32,
    bases: &[Time],
) -> Result<Vec<Run>, ExpandFault>
    // lawful tables, and the days
    requires lawful { IsLawful t.now }
    requires civil { IsCivil first }
    requires year { first < 21010000 }
    requires few { days ≤ 31 }
    requires bases { length bases.now ≡ days }

    // the calls trip by trip
    requires grouped { IsGrouped t.now.calls all.now }

    // the runs of the days, and when there are too many
    ensures runs { IfOk result (λ runs. runs.items ≡ all_runs t.now first days bases.now) }
    ensures few { IfOk result (λ runs. length runs.items ≤ 200000) }
    ensures fault { IfErr result (IsTrainsFault (length (all_runs t.now first days bases.now))) }
{
    let mut runs = Vec::new(alloc);
    for day in 0..days {
        add_date(alloc, &mut runs, t, all, first, day, base_on(bases, day))?;
    }
    Ok(runs)
}
