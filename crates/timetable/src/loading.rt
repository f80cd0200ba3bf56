//! The times of all events, and the departures, as they are at first.

ghost use Rattle.std.specs.Prelude.{◌≡◌, ◌+◌, ◌*◌, ◌<◌, ◌≤◌, [], IsTrue, IfOk, OnOk, All, true, false, length, vec_capacity};
ghost use Rattle.mt_base.specs.Order.{node_of};
ghost use Rattle.delay_model.specs.declared.state.State.{State as AState};
ghost use Rattle.delay_model.specs.Events.{events};
ghost use Rattle.delay_model.specs.Valid.{IsValid};
ghost use Rattle.train_nodes.specs.Times.{has_time};
ghost use Rattle.rank_order.specs.Marked.{is_marked};
ghost use Rattle.timetable.specs.Loaded.{AreLoaded};
ghost use Rattle.timetable.specs.LiveTimes.{live_keys};
ghost use Rattle.timetable.specs.Marking.{AreMarksOf};
ghost use Rattle.timetable.specs.Onward.{IsDepartureOrder};
ghost use Rattle.timetable.specs.Settled.{IsSettled, HasItsTime, HasTimesFor};

use crate::departures::list_departures;
use crate::events::{list_keys, live_keys};
use crate::marking::mark;
use crate::onward::go_on_all;
use crate::places::places_for;
use crate::scheduled::have_schedule_alone;
use dep_order::DepartureOrder;
use edge_rules::Graph;
use mt_base::memory::OutOfMemory;
use propagate::{TimeChange, settle};
use rank_order::Marks;
use std::alloc::Global;
use std::sync::ledger::{Blank, Ledger};
use train_nodes::{NodeTimes, Steps, Trains};

/// Stores for each live event its scheduled time, if nothing but the schedule is known of any
/// event: then this is its time. It answers whether it did, and else changes nothing.
fn store_schedule(graph: &Graph, times: &mut NodeTimes) -> bool
    requires valid { IsValid graph.now.network graph.now.state }
    requires held { All (λ k. IsTrue (has_time times.old (node_of k)))
        (live_keys (events graph.now.state)) }
    ensures times { result ≡ true → All (HasItsTime graph.now.network graph.now.state times.new)
        (live_keys (events graph.now.state)) }
    ensures has_times { (st : AState) → HasTimesFor st times.old → HasTimesFor st times.new }
    ensures unchanged { result ≡ false → times.new ≡ times.old }
{
    if !have_schedule_alone(graph.trains()) {
        return false;
    }
    for k in live_keys(graph.trains()) {
        times.write(k.node(), k.time);
    }
    true
}

/// Marks each live event, the one with the greatest key first: then no mark has to make room for
/// another.
fn mark_all(alloc: Global, trains: &Trains, marks: &mut Marks) -> Result<(), OutOfMemory>
    requires { AreMarksOf (events trains.now) marks.old }
    ensures fit { AreMarksOf (events trains.now) marks.new }
    ensures marked { OnOk result (All (λ k. is_marked marks.new k ≡ true)
        (live_keys (events trains.now))) }
    ensures room { marks.new.room ≡ marks.old.room }
{
    let mut keys = list_keys(alloc, trains)?;
    keys.sort_unstable();
    while let Some(k) = keys.pop() {
        mark(marks, &k);
    }
    Ok(())
}

/// Stores the time of each live event, and uses a list and marks for that, with nothing in them.
/// Where nothing but the schedule is known, no rule is evaluated, and no memory is taken.
fn time_all<L: Ledger>(
    alloc: Global,
    graph: &Graph,
    times: &mut NodeTimes,
    marks: &mut Marks,
    time_changes: &mut Vec<TimeChange>,
    steps: &mut Steps<L>,
) -> Result<(), OutOfMemory>
    // a valid timetable, with a stored time for each live event
    requires valid { IsValid graph.now.network graph.now.state }
    requires held { All (λ k. IsTrue (has_time times.old (node_of k)))
        (live_keys (events graph.now.state)) }

    // an empty list and no mark, with room for each live event
    requires unmarked { marks.old.keys ≡ [] }
    requires empty { time_changes.old.items ≡ [] }
    requires room { length (live_keys (events graph.now.state)) ≤ vec_capacity time_changes.old }
    requires marks_room { length (live_keys (events graph.now.state)) ≤ marks.old.room }

    // the times, where there is memory
    ensures times { OnOk result (All (HasItsTime graph.now.network graph.now.state times.new)
        (live_keys (events graph.now.state))) }
    ensures has_times { (st : AState) → HasTimesFor st times.old → HasTimesFor st times.new }

    // the marks and the list afterwards
    ensures unmarked { OnOk result (marks.new.keys ≡ []) }
    ensures marks_room { marks.new.room ≡ marks.old.room }
    ensures capacity { vec_capacity time_changes.new ≡ vec_capacity time_changes.old }
{
    if !store_schedule(graph, times) {
        mark_all(alloc, graph.trains(), marks)?;
        settle(graph, times, marks, time_changes, steps);
    }
    Ok(())
}

/// The live departures in their order, each at the time that is stored for it, with room for two at
/// each call that can still be made.
fn order_departures<L: Ledger>(
    alloc: Global,
    graph: &Graph,
    times: &NodeTimes,
    steps: &mut Steps<L>,
) -> Result<DepartureOrder, OutOfMemory>
    requires settled { IsSettled graph.now.network graph.now.state times.now }
    requires few { length (live_keys (events graph.now.state)) + 2 * graph.now.state.spare_calls
        ≤ 2097152 }
    ensures { IfOk result (AreLoaded graph.now.network graph.now.state) }
{
    let list = list_departures(alloc, graph, times, steps)?;
    let places = places_for(alloc, graph.trains())?;
    DepartureOrder::build(alloc, &list, places, 2 * graph.trains().spare_calls())
}

/// Stores the time of each live event, and puts the departures in order, with what their trains do
/// next and room for two at each call that can still be made. It counts no step.
pub(crate) fn settle_all<L: Ledger>(
    alloc: Global,
    graph: &Graph,
    times: &mut NodeTimes,
    marks: &mut Marks,
    time_changes: &mut Vec<TimeChange>,
    blank: Blank,
) -> Result<DepartureOrder, OutOfMemory>
    // the blank has the name and the parts of the ledger
    requires name { blank.name ≡ L.name }
    requires parts { blank.parts ≡ L.parts }
    requires some { 0 < blank.parts }

    // a valid timetable of few events, and stored times for its labels
    requires valid { IsValid graph.now.network graph.now.state }
    requires few { length (live_keys (events graph.now.state)) + 2 * graph.now.state.spare_calls
        ≤ 2097152 }
    requires has_times { HasTimesFor graph.now.state times.old }

    // an empty list and no mark, with room for each live event
    requires unmarked { marks.old.keys ≡ [] }
    requires empty { time_changes.old.items ≡ [] }
    requires marks_room { length (live_keys (events graph.now.state)) ≤ marks.old.room }
    requires time_changes_room { length (live_keys (events graph.now.state))
        ≤ vec_capacity time_changes.old }

    // the times and the departures, where there is memory
    ensures settled { OnOk result (IsSettled graph.now.network graph.now.state times.new) }
    ensures departures { IfOk result (AreLoaded graph.now.network graph.now.state) }
    ensures order { IfOk result (IsDepartureOrder graph.now.network graph.now.state) }

    // the list and the marks afterwards
    ensures time_changes_capacity { vec_capacity time_changes.new ≡ vec_capacity time_changes.old }
    ensures unmarked { OnOk result (marks.new.keys ≡ []) }
    ensures marks_room { marks.new.room ≡ marks.old.room }
{
    let mut steps = Steps::<L>::open(blank);
    time_all(alloc, graph, times, marks, time_changes, &mut steps)?;
    let mut departures = order_departures(alloc, graph, times, &mut steps)?;
    go_on_all(&mut departures, graph, times, &mut steps);
    Ok(departures)
}
