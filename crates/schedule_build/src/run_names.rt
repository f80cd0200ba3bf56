//! The names of the trips that run.

ghost use Rattle.std.specs.Prelude.{◌≡◌, ℕ, ◌+◌, ◌<◌, ◌≤◌, List, All, IfOk, false, length, map, slice_index_or};
ghost use Rattle.schedule_build.specs.Directory.{name_of_run};
ghost use Rattle.schedule_build.specs.Stored.{AreSeen, HasName};
ghost use Rattle.schedule_build.specs.StoredTrains.{HasTrip, seen_train};
ghost use Rattle.schedule_build.specs.declared.runs.Run.{Run as ARun};
ghost use Rattle.schedule_build.specs.declared.train_names.StoredTrain.{StoredTrain as AStoredTrain};

use crate::name_list::NameList;
use crate::running::mark;
use crate::runs::Run;
use crate::train_names::{StoredTrain, TrainNames};
use mt_base::memory::OutOfMemory;
use mt_base::names::Name;
use mt_base::numbers::Day;
use mt_base::tables::TripRow;
use std::alloc::Global;

/// The `trip_id` of a trip, or the empty text where there is no such row.
fn trip_id<'t>(trips: &'t [TripRow], run: &Run) -> &'t str
    ensures { result.now ≡ (name_of_run trips.now run.now).trip }
{
    match trips.get(run.trip as usize) {
        Some(row) => row.id.text(),
        None => "",
    }
}

/// Whether a row is marked.
fn is_marked(marks: &[bool], row: u32) -> bool
    ensures { result ≡ slice_index_or marks.now row false }
{
    match marks.get(row as usize) {
        Some(mark) => *mark,
        None => false,
    }
}

/// Adds the name of the trip of a run, unless its row is marked, and marks it.
fn add_name(
    alloc: Global,
    trips: &[TripRow],
    run: &Run,
    marks: &mut Vec<bool>,
    names: &mut Vec<Name>,
) -> Result<(), OutOfMemory>
    requires marks { AreSeen trips.now marks.old.items names.old.items }
    ensures marks { IfOk result (λ _. AreSeen trips.now marks.new.items names.new.items) }
    ensures few { IfOk result (λ _. length names.new.items ≤ length names.old.items + 1) }
    ensures named { IfOk result (λ _. HasName names.new.items
        (name_of_run trips.now run.now).trip) }
    ensures kept { IfOk result (λ _. (name : List ℕ) → HasName names.old.items name
        → HasName names.new.items name) }
{
    if is_marked(marks, run.trip) {
        return Ok(());
    }
    names.push(Name::build(alloc, trip_id(trips, run))?)?;
    mark(marks, run.trip, true);
    Ok(())
}

/// The names of the trips of the runs, once for each row.
fn names_of_trips(alloc: Global, trips: &[TripRow], runs: &[Run]) -> Result<Vec<Name>, OutOfMemory>
    ensures few { IfOk result (λ names. length names.items ≤ length runs.now) }
    ensures named { IfOk result (λ names.
        All (λ r. HasName names.items (name_of_run trips.now r).trip) runs.now) }
{
    let mut marks = vec![in alloc; false; trips.len()]?;
    let mut names = Vec::new(alloc);
    for run in runs {
        add_name(alloc, trips, run, &mut marks, &mut names)?;
    }
    Ok(names)
}

/// The train of a run, by the number of its trip's name.
fn stored_train(trips: &[TripRow], run: &Run, names: &NameList) -> StoredTrain
    requires loaded { run.now.day < 31 }
    requires named { HasName names.now (name_of_run trips.now run.now).trip }
    ensures seen { seen_train names.now result ≡ name_of_run trips.now run.now }
    ensures has_trip { HasTrip names.now result }
    ensures loaded { result.day < 31 }
{
    let Some(trip) = names.find(trip_id(trips, run)) else {
        unreachable!()
    };
    StoredTrain {
        trip,
        day: Day::new(run.day),
    }
}

/// The trains of the runs, by the numbers of their trips' names.
fn stored_trains(
    alloc: Global,
    trips: &[TripRow],
    runs: &[Run],
    names: &NameList,
) -> Result<Vec<StoredTrain>, OutOfMemory>
    requires loaded { All (λ (r : ARun). r.day < 31) runs.now }
    requires named { All (λ r. HasName names.now (name_of_run trips.now r).trip) runs.now }
    ensures seen { IfOk result (λ trains. map (seen_train names.now) trains.items
        ≡ map (name_of_run trips.now) runs.now) }
    ensures count { IfOk result (λ trains. length trains.items ≡ length runs.now) }
    ensures has_trips { IfOk result (λ trains. All (HasTrip names.now) trains.items) }
    ensures loaded { IfOk result (λ trains. All (λ (t : AStoredTrain). t.day < 31) trains.items) }
{
    let mut trains = Vec::with_capacity(alloc, runs.len())?;
    for run in runs {
        trains.push(stored_train(trips, run, names))?;
    }
    Ok(trains)
}

/// The names of the trains of the runs.
pub(crate) fn trains(
    alloc: Global,
    trips: &[TripRow],
    runs: &[Run],
) -> Result<TrainNames, OutOfMemory>
    requires few { length runs.now ≤ 200000 }
    requires loaded { All (λ (r : ARun). r.day < 31) runs.now }
    ensures { IfOk result (λ trains. trains ≡ map (name_of_run trips.now) runs.now) }
{
    let names = NameList::build(alloc, names_of_trips(alloc, trips, runs)?)?;
    let trains = stored_trains(alloc, trips, runs, &names)?;
    TrainNames::build(alloc, names, trains)
}
