//! Times taken over from a timetable that took a message before.

ghost use Rattle.std.specs.Prelude.{◌≡◌, ◌+◌, ◌*◌, ◌≤◌, ◌++◌, Some, All, IsTrue, if◌then◌else◌};
ghost use Rattle.std.specs.Prelude.{drop, filter, length, map, vec_len, vec_capacity};
ghost use Rattle.std.specs.Option.{option_map};
ghost use Rattle.mt_base.specs.declared.keys.Node.{Node as ANode};
ghost use Rattle.mt_base.specs.Order.{is_same_node, node_of};
ghost use Rattle.delay_model.specs.declared.state.Event.{Event as AnEvent};
ghost use Rattle.delay_model.specs.declared.state.State.{State as AState};
ghost use Rattle.delay_model.specs.Events.{event_named, events};
ghost use Rattle.delay_model.specs.Valid.{IsValid};
ghost use Rattle.train_nodes.specs.Calls.{has_event};
ghost use Rattle.train_nodes.specs.Times.{has_time, time_of, with_time};
ghost use Rattle.propagate.specs.LiveKeys.{has_another, key_order};
ghost use Rattle.timetable.specs.LiveTimes.{live_keys};
ghost use Rattle.timetable.specs.Moved.{time_changes_of};
ghost use Rattle.timetable.specs.Settled.{HasItsTime, HasTimesFor};

use edge_rules::Graph;
use mt_base::keys::Node;
use propagate::TimeChange;
use std::sync::ledger::Ledger;
use train_nodes::{NodeTimes, Steps, Trains};

/// Stores the time of an event that is stored for it in other times, and answers it with the one
/// that was stored. Both are read, and no other time.
fn take_time<L: Ledger>(
    trains: &Trains,
    times: &mut NodeTimes,
    other: &NodeTimes,
    n: &Node,
    steps: &mut Steps<L>,
) -> TimeChange
    requires there { IsTrue (has_event trains.now n.now) }
    requires has { IsTrue (has_time times.old n.now) }
    requires other_has { IsTrue (has_time other.now n.now) }
    ensures key { option_map (λ (v : AnEvent). v.key) (event_named trains.now n.now)
        ≡ Some result.key }
    ensures was { time_of times.old n.now ≡ Some result.was }
    ensures is { time_of other.now n.now ≡ Some result.is }
    ensures stored { times.new ≡ with_time n.now result.is times.old }
    ensures time { (m : ANode) → time_of times.new m
        ≡ (if is_same_node n.now m then Some result.is else time_of times.old m) }
    ensures cost { steps.new ≡ steps.old + 2 }
{
    let was = times.read(*n, steps);
    let is = other.read(*n, steps);
    times.write(*n, is);
    TimeChange {
        key: trains.key(*n),
        was,
        is,
    }
}

/// The names of a list from a place on.
pub(crate) fn names_from(names: &[Node], first: usize) -> &[Node]
    requires { first ≤ length names.now }
    ensures { result.now ≡ drop first names.now }
{
    &names[first..]
}

/// Stores the times that other times have for these events: the live ones for which not their own
/// time is stored, in the order of their keys. The other times are those of the live events. Each
/// event is added to a list with both times. Two stored times are read for each. It takes no
/// memory.
pub(crate) fn take_times<L: Ledger>(
    graph: &Graph,
    times: &mut NodeTimes,
    other: &NodeTimes,
    names: &[Node],
    changes: &mut Vec<TimeChange>,
    steps: &mut Steps<L>,
)
    // a valid timetable, with a stored time for each live event, and its own time in the others
    requires valid { IsValid graph.now.network graph.now.state }
    requires held { All (λ k. IsTrue (has_time times.old (node_of k)))
        (live_keys (events graph.now.state)) }
    requires other { All (HasItsTime graph.now.network graph.now.state other.now)
        (live_keys (events graph.now.state)) }

    // the events that get other times, and room for them
    requires names { names.now ≡ map node_of (filter (has_another graph.now.network
        graph.now.state times.old) (key_order (events graph.now.state))) }
    requires room { vec_len changes.old + length names.now ≤ vec_capacity changes.old }

    // the times afterwards
    ensures times { All (HasItsTime graph.now.network graph.now.state times.new)
        (live_keys (events graph.now.state)) }
    ensures has_times { (st : AState) → HasTimesFor st times.old → HasTimesFor st times.new }

    // the events that got another time
    ensures changes { changes.new.items ≡ changes.old.items
        ++ time_changes_of graph.now.network graph.now.state times.old }
    ensures capacity { vec_capacity changes.new ≡ vec_capacity changes.old }

    // the steps that are counted
    ensures cost { steps.new ≡ steps.old + 2 * length names.now }
{
    for n in names {
        changes.push_reserved(take_time(graph.trains(), times, other, n, steps));
    }
}
