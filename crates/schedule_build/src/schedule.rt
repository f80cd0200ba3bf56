//! The trains of the loaded service days.

ghost use Rattle.std.specs.Prelude.{◌≡◌, ◌+◌, ◌<◌, ◌≤◌, ◌^◌, [], ◌∷◌, None, All, IfOk, IfErr, IfSome, IsNone, length};
ghost use Rattle.std.specs.List.Sorted.{IsNonDecreasingBy};
ghost use Rattle.mt_base.specs.Civil.{IsCivil};
ghost use Rattle.mt_base.specs.Options.{IsInRange};
ghost use Rattle.feed_tables.specs.Calls.{trip_of, times_of};
ghost use Rattle.schedule_build.specs.Bases.{AreBases};
ghost use Rattle.schedule_build.specs.Directory.{names_of};
ghost use Rattle.schedule_build.specs.Faults.{IsFault};
ghost use Rattle.schedule_build.specs.Groups.{IsGrouped};
ghost use Rattle.schedule_build.specs.InStep.{AreInStep};
ghost use Rattle.schedule_build.specs.Runs.{all_runs};
ghost use Rattle.schedule_build.specs.Schedule.{IsFit, pushed, run_calls, count_calls, too_many, schedule_of, schedule};
ghost use Rattle.schedule_build.specs.TripCalls.{IsTimely};

use crate::directory::Directory;
use crate::directory_of::directory_of;
use crate::faults::ExpandFault;
use crate::groups::{grouped, rows_of};
use crate::runs::{Run, all_runs};
use crate::trip_calls::trip_calls;
use feed_tables::FeedTables;
use mt_base::memory::OutOfMemory;
use mt_base::numbers::{Day, Time};
use mt_base::options::Opts;
use mt_base::rows::Rows;
use mt_base::tables::{CallRow, What};
use std::alloc::Global;
use train_nodes::Trains;

/// How many of the rows have a time.
fn count_timed(rows: &[CallRow]) -> usize
    ensures count { result ≡ length (times_of rows.now) }
    ensures bound { result ≤ length rows.now }
{
    let mut count = 0;
    for row in rows {
        if row.arr.is_some() || row.dep.is_some() {
            count += 1;
        }
    }
    count
}

/// How many calls the runs have together. None exactly where they have more than 1,000,000.
fn count_all(all: &[CallRow], runs: &[Run]) -> Option<u32>
    requires grouped { IsNonDecreasingBy trip_of all.now }
    requires few { length all.now < 2 ^ 32 }
    ensures some { IfSome result (λ count. (count ≡ count_calls all.now runs.now)
        × (count ≤ 1000000)) }
    ensures none { IsNone result → 1000000 < count_calls all.now runs.now }
{
    let mut count = 0;
    for run in runs {
        count += count_timed(rows_of(all, run.trip));
        if count > 1_000_000 {
            return None;
        }
    }
    Some(count as u32)
}

/// Adds the train of a run.
fn push_run(
    alloc: Global,
    trains: &mut Trains,
    all: &[CallRow],
    run: &Run,
) -> Result<(), OutOfMemory>
    // the calls trip by trip, with times of at most 99:59:59
    requires grouped { IsNonDecreasingBy trip_of all.now }
    requires few { length all.now < 2 ^ 32 }
    requires timely { All IsTimely all.now }

    // a run that fits, and room for its train and calls
    requires fit { IsFit all.now run.now }
    requires train_spare { 0 < trains.old.spare_trains }
    requires calls_spare { length (run_calls all.now run.now) ≤ trains.old.spare_calls }

    // the trains with one more, where there is memory
    ensures { IfOk result (λ _. trains.new ≡ pushed all.now (run.now ∷ []) trains.old) }
{
    let calls = trip_calls(alloc, run.base, rows_of(all, run.trip))?;
    let _ = trains.push_train(Day::new(run.day), run.route, calls.as_slice());
    Ok(())
}

/// Adds the trains of the runs, in their order.
fn push_runs(
    alloc: Global,
    trains: &mut Trains,
    all: &[CallRow],
    runs: &[Run],
) -> Result<(), OutOfMemory>
    // the calls trip by trip, with times of at most 99:59:59
    requires grouped { IsNonDecreasingBy trip_of all.now }
    requires few { length all.now < 2 ^ 32 }
    requires timely { All IsTimely all.now }

    // runs that fit, and room for their trains and calls
    requires fit { All (IsFit all.now) runs.now }
    requires trains_spare { length runs.now ≤ trains.old.spare_trains }
    requires calls_spare { count_calls all.now runs.now ≤ trains.old.spare_calls }

    // the trains with those of the runs, where there is memory
    ensures { IfOk result (λ _. trains.new ≡ pushed all.now runs.now trains.old) }
{
    for run in runs {
        push_run(alloc, trains, all, run)?;
    }
    Ok(())
}

/// The trains of the runs, which have so many calls together, and room for what the options spare.
fn load(
    alloc: Global,
    all: &[CallRow],
    runs: &[Run],
    calls: u32,
    opts: &Opts,
) -> Result<Trains, OutOfMemory>
    // the calls trip by trip, with times of at most 99:59:59
    requires grouped { IsNonDecreasingBy trip_of all.now }
    requires few { length all.now < 2 ^ 32 }
    requires timely { All IsTimely all.now }

    // runs that fit, and the options
    requires fit { All (IsFit all.now) runs.now }
    requires options { IsInRange opts.now }

    // how many runs and calls there are
    requires few_runs { length runs.now ≤ 200000 }
    requires few_calls { calls ≤ 1000000 }
    requires count { calls ≡ count_calls all.now runs.now }

    // the trains, where there is memory
    ensures { IfOk result (λ trains. trains ≡ schedule_of all.now runs.now opts.now) }
{
    let train_room = runs.len() as u32 + opts.spare_trains;
    let mut trains = Trains::with_room(
        alloc,
        train_room,
        calls + opts.spare_calls,
        opts.overrides,
    )?;
    push_runs(alloc, &mut trains, all, runs)?;
    Ok(trains)
}

/// The trains of so many service days from the date `first` on, a number YYYYMMDD of a year up to
/// 2100, and the names of the feed's timetable of these days. The base of each day is given, in
/// seconds from that of day 0. There is a train for each day and, in the order of `trips.txt`, each
/// trip whose service is active on that day and which has calls; its times count from that base.
/// There is room for what the options spare. `TooMany` where there are more than 200,000 trains, or
/// else more than 2,000,000 events, two for each call. `OutOfMemory` where there is no memory.
pub fn expand(
    alloc: Global,
    t: &FeedTables,
    first: u32,
    days: u32,
    opts: &Opts,
    bases: &Rows<Time>,
) -> Result<(Trains, Directory), ExpandFault>
    // the days, their bases and the options
    requires civil { IsCivil first }
    requires year { first < 21010000 }
    requires few_days { days ≤ 31 }
    requires bases { AreBases days bases.now }
    requires options { IsInRange opts.now }

    // the trains and the names of these days
    ensures schedule { IfOk result (λ r. r.0 ≡ schedule t.now first days bases.now opts.now) }
    ensures names { IfOk result (λ r. r.1 ≡ names_of t.now first days bases.now opts.now) }
    ensures in_step { IfOk result (λ r. AreInStep r.1 r.0) }

    // when there are too many
    ensures fits { IfOk result (λ _.
        too_many t.now.calls (all_runs t.now first days bases.now) ≡ None) }
    ensures fault { IfErr result
        (IsFault (too_many t.now.calls (all_runs t.now first days bases.now))) }
{
    let tables = t.tables();
    let all = grouped(alloc, tables.calls.as_slice())?;
    let bases = bases.as_slice();
    let runs = all_runs(alloc, tables, all.as_slice(), first, days, bases)?;
    let Some(calls) = count_all(all.as_slice(), runs.as_slice()) else {
        return Err(ExpandFault::TooMany { what: What::Nodes });
    };
    let trains = load(alloc, all.as_slice(), runs.as_slice(), calls, opts)?;
    let directory = directory_of(alloc, tables, runs.as_slice(), first, days, bases, opts)?;
    Ok((trains, directory))
}
