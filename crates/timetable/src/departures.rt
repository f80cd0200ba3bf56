//! The live departures in the order of their times.

ghost use Rattle.std.specs.Prelude.{◌≡◌, ◌+◌, ◌*◌, ◌≤◌, ◌∷◌, [], true, IsTrue, IfOk, All};
ghost use Rattle.std.specs.Prelude.{filter, length};
ghost use Rattle.mt_base.specs.Order.{node_of};
ghost use Rattle.delay_model.specs.Events.{events};
ghost use Rattle.delay_model.specs.Valid.{IsTrain};
ghost use Rattle.train_nodes.specs.Calls.{has_call};
ghost use Rattle.train_nodes.specs.Times.{has_time};
ghost use Rattle.dep_order.specs.Ordered.{KeepsRoom, spare};
ghost use Rattle.timetable.specs.Applied.{IsApplied};
ghost use Rattle.timetable.specs.Departures.{AreListed, boarding_stop, departing_at};
ghost use Rattle.timetable.specs.LiveTimes.{live_keys};
ghost use Rattle.timetable.specs.Moved.{AreLiveDepartures, AreTimeChanges, count_new};
ghost use Rattle.timetable.specs.Moved.{is_of_none, with_times};
ghost use Rattle.timetable.specs.Numbers.{AreLeft, AreMoved};
ghost use Rattle.timetable.specs.Onward.{IsDepartureOrder};
ghost use Rattle.timetable.specs.Settled.{HasPlacesFor, next_labels};

use crate::events::live_keys;
use crate::onward::renew_onward;
use dep_order::{Departure, DepartureOrder};
use edge_rules::Graph;
use mt_base::keys::{Key, Node};
use mt_base::memory::OutOfMemory;
use mt_base::numbers::{StopNo, Time};
use propagate::TimeChange;
use std::alloc::Global;
use std::sync::ledger::Ledger;
use train_nodes::{Msg, NodeTimes, Steps, Trains};

/// The stop where passengers may board at the call of an event: its own, or the number past all
/// stops where nobody may.
fn boarding_stop(graph: &Graph, k: &Key) -> StopNo
    requires { IsTrue (has_call graph.now.state k.now.train k.now.label) }
    ensures { result ≡ boarding_stop graph.now.network graph.now.state k.now }
{
    let trains = graph.trains();
    if trains.boards(k.train, k.label) {
        trains.stop(k.train, k.label)
    } else {
        StopNo::new(graph.changes().stops())
    }
}

/// The departure of this key at a time.
fn departing_at(graph: &Graph, k: &Key, time: Time) -> Departure
    requires { IsTrue (has_call graph.now.state k.now.train k.now.label) }
    ensures { result ≡ departing_at graph.now.network graph.now.state time k.now }
{
    Departure {
        time,
        key: *k,
        stop: boarding_stop(graph, k),
    }
}

/// Lists the live departures, each at the time that is stored for it, in the order of their keys.
pub(crate) fn list_departures<L: Ledger>(
    alloc: Global,
    graph: &Graph,
    times: &NodeTimes,
    steps: &mut Steps<L>,
) -> Result<Vec<Departure>, OutOfMemory>
    requires trains { All IsTrain graph.now.state.trains }
    requires held { All (λ k. IsTrue (has_time times.now (node_of k)))
        (live_keys (events graph.now.state)) }
    ensures { IfOk result (λ list. AreListed graph.now.network graph.now.state times.now
        (live_keys (events graph.now.state)) list.items) }
{
    let mut list = Vec::new(alloc);
    for k in live_keys(graph.trains()) {
        if k.dep {
            let time = times.read(k.node(), steps);
            list.push(departing_at(graph, &k, time))?;
        }
    }
    list.sort_unstable_by_key(|d| d.key);
    Ok(list)
}

/// Takes the departures out that are among these live events.
pub(crate) fn take_departures(departures: &mut DepartureOrder, trains: &Trains, gone: &[Node])
    requires trains { All IsTrain trains.now.trains }
    requires live { AreLiveDepartures trains.now departures.old.departures }
    requires there { All (λ n. IsTrue (has_call trains.now n.train n.label)) gone.now }
    ensures departures { departures.new.departures
        ≡ filter (is_of_none gone.now) departures.old.departures }
    ensures numbers { AreLeft gone.now departures.old departures.new }
    ensures room { KeepsRoom departures.old departures.new }
{
    for n in gone {
        if n.dep {
            departures.take(&trains.key(*n));
        }
    }
}

/// Lets a departure take place at another time, or puts it in if it is not there yet.
fn move_departure(departures: &mut DepartureOrder, graph: &Graph, one: &TimeChange)
    // a departure of the trains, with a place for its number
    requires trains { All IsTrain graph.now.state.trains }
    requires departs { one.now.key.dep ≡ true }
    requires changes { AreTimeChanges graph.now.network graph.now.state (one.now ∷ [])
        departures.old.departures }
    requires places { departures.old.labels ≡ next_labels graph.now.state }
    requires room { count_new departures.old.departures (one.now ∷ []) ≤ spare departures.old }

    // the departures in their order and by number
    ensures departures { departures.new.departures ≡ with_times graph.now.network graph.now.state
        (one.now ∷ []) departures.old.departures }
    ensures numbers { AreMoved departures.old departures.new }
    ensures room { spare departures.old
        ≤ spare departures.new + count_new departures.old.departures (one.now ∷ []) }
{
    departures.departures_are_in_order();
    if !departures.move_to(&one.key, one.is) {
        departures.departures_are_in_order();
        departures.put(&departing_at(graph, &one.key, one.is));
    }
}

/// Moves the departures among events that get other times to their places, and puts those there
/// that are new. It takes no memory.
pub(crate) fn move_departures(
    departures: &mut DepartureOrder,
    graph: &Graph,
    changes: &[TimeChange],
)
    // departures of the trains, with places for their numbers
    requires trains { All IsTrain graph.now.state.trains }
    requires changes { AreTimeChanges graph.now.network graph.now.state changes.now
        departures.old.departures }
    requires places { departures.old.labels ≡ next_labels graph.now.state }
    requires room { count_new departures.old.departures changes.now ≤ spare departures.old }

    // the departures in their order and by number
    ensures departures { departures.new.departures ≡ with_times graph.now.network graph.now.state
        changes.now departures.old.departures }
    ensures numbers { AreMoved departures.old departures.new }
    ensures room { spare departures.old
        ≤ spare departures.new + count_new departures.old.departures changes.now }
{
    for one in changes {
        if one.key.dep {
            departures.departures_are_in_order();
            move_departure(departures, graph, one);
        }
    }
    departures.departures_are_in_order();
}

/// After a message was applied, and the departures of events that it took away are out: moves those
/// that get other times, puts those in that are new, and renews what stands beside each. It takes
/// no memory.
pub(crate) fn renew_departures(
    departures: &mut DepartureOrder,
    graph: &Graph,
    m: &Msg,
    noted: Option<Time>,
    changes: &[TimeChange],
)
    requires { IsApplied graph.now.network graph.now.state m.now noted changes.now departures.old }
    ensures order { IsDepartureOrder graph.now.network graph.now.state departures.new }
    ensures places { HasPlacesFor graph.now.state departures.new }
    ensures numbers { length departures.new.entries ≡ length departures.old.entries }
    ensures room { 2 * graph.now.state.spare_calls ≤ spare departures.new }
{
    move_departures(departures, graph, changes);
    departures.departures_are_in_order();
    renew_onward(departures, graph, m, noted, changes);
}
