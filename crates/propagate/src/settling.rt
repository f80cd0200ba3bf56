//! Settles marked events in the order of their keys.

ghost use Rattle.std.specs.Prelude.{◌≡◌, ◌+◌, ◌<◌, ◌≤◌, ◌^◌, ◌++◌, [], IsTrue, IfSome, Some, All, Contains, false, length, map, filter, vec_len, vec_capacity};
ghost use Rattle.std.specs.List.{sum_by};
ghost use Rattle.mt_base.specs.declared.keys.Node.{Node as ANode};
ghost use Rattle.mt_base.specs.Order.{node_of, is_same_node};
ghost use Rattle.delay_model.specs.declared.state.State.{State as AState};
ghost use Rattle.delay_model.specs.Events.{event_named, events};
ghost use Rattle.delay_model.specs.Valid.{IsValid};
ghost use Rattle.train_nodes.specs.Times.{time_of, has_time};
ghost use Rattle.edge_rules.specs.AtEvent.{edges_to, stored_time, local_at};
ghost use Rattle.rank_order.specs.Marked.{is_marked};
ghost use Rattle.propagate.specs.Asked.{TellsTime};
ghost use Rattle.propagate.specs.LiveKeys.{HasItsTime, has_another, key_order, live_keys, time_change_at};
ghost use Rattle.propagate.specs.Settling.{FollowsRule, is_due, reads_at};
ghost use Rattle.propagate.specs.TimesFor.{HasTimesFor};

use crate::asked::{Asked, AskedTable};
use crate::successors::ask_dependents;
use crate::time_changes::TimeChange;
use delay_model::state::Event;
use edge_rules::Graph;
use mt_base::numbers::Time;
use rank_order::Marks;
use std::sync::ledger::Ledger;
use train_nodes::{NodeTimes, Steps};

/// The time that the rule gives an event that has a stored one. What changed feeders ask of it tells
/// that mostly, if it is known; else the stored time of each of its feeders is read.
fn local_by<L: Ledger>(
    graph: &Graph,
    at: &Event,
    was: Time,
    asked: Option<Asked>,
    times: &NodeTimes,
    steps: &mut Steps<L>,
) -> Time
    // an event that has this time
    requires there { event_named graph.now.state (node_of at.now.key) ≡ Some at.now }
    requires stored { time_of times.now (node_of at.now.key) ≡ Some was }
    requires asked { IfSome asked (TellsTime graph.now times.now at.now) }

    // the times of the events that feed it
    requires held { All (λ e. IsTrue (has_time times.now (node_of e.from)))
        (edges_to graph.now (node_of at.now.key)) }
    requires fits { All (λ e. stored_time times.now e.from + e.weight < 2 ^ 25)
        (edges_to graph.now (node_of at.now.key)) }

    // the time by the rule, and the steps that are counted
    ensures rule { local_at graph.now times.now (node_of at.now.key) ≡ Some result }
    ensures cost { steps.new ≤ steps.old + length (edges_to graph.now (node_of at.now.key)) }
{
    match asked {
        Some(asked) if was.seconds() <= asked.after => graph.reported(at, asked.after),
        Some(asked) if asked.before < was.seconds() => was,
        _ => graph.local_at(at, times, steps),
    }
}

/// Stores the time that the rule gives an event, and answers the one that was stored and this one.
fn settle_one<L: Ledger>(
    graph: &Graph,
    at: &Event,
    asked: Option<Asked>,
    times: &mut NodeTimes,
    steps: &mut Steps<L>,
) -> (Time, Time)
    // an event that has a time
    requires there { event_named graph.now.state (node_of at.now.key) ≡ Some at.now }
    requires has { IsTrue (has_time times.old (node_of at.now.key)) }
    requires asked { IfSome asked (TellsTime graph.now times.old at.now) }

    // the times of the events that feed it
    requires held { All (λ e. IsTrue (has_time times.old (node_of e.from)))
        (edges_to graph.now (node_of at.now.key)) }
    requires fits { All (λ e. stored_time times.old e.from + e.weight < 2 ^ 25)
        (edges_to graph.now (node_of at.now.key)) }

    // the time by the rule, and the one before
    ensures rule { local_at graph.now times.old (node_of at.now.key) ≡ Some result.1 }
    ensures before { time_of times.old (node_of at.now.key) ≡ Some result.0 }
    ensures after { time_of times.new (node_of at.now.key) ≡ Some result.1 }

    // what stays as it was
    ensures others { (m : ANode) → is_same_node (node_of at.now.key) m ≡ false
        → time_of times.new m ≡ time_of times.old m }
    ensures has_times { (st : AState) → HasTimesFor st times.old → HasTimesFor st times.new }

    // the steps that are counted
    ensures cost { steps.new
        ≤ steps.old + (1 + length (edges_to graph.now (node_of at.now.key))) }
{
    let was = times.read(at.key.node(), steps);
    let is = local_by(graph, at, was, asked, times, steps);
    if is == was {
        return (was, is);
    }
    times.write(at.key.node(), is);
    (was, is)
}

/// Computes again the times of the marked events, in the order of their keys, and of those that are
/// fed by an event whose time differs then; nothing is marked afterwards. Before, each event that
/// is not marked has the time that the rule gives it from the stored ones. The events that get
/// another time are added to a list, in the order of their keys, with both times. It takes no
/// memory.
pub fn settle<L: Ledger>(
    graph: &Graph,
    times: &mut NodeTimes,
    marks: &mut Marks,
    changed: &mut Vec<TimeChange>,
    steps: &mut Steps<L>,
)
    // a valid timetable, with a stored time for each live event
    requires valid { IsValid graph.now.network graph.now.state }
    requires held { All (λ k. IsTrue (has_time times.old (node_of k)))
        (live_keys (events graph.now.state)) }

    // only live events are marked, and each other one has the time of its rule
    requires marked { All (Contains (live_keys (events graph.now.state))) marks.old.keys }
    requires settled { All (λ k. is_marked marks.old k ≡ false → FollowsRule graph.now times.old k)
        (live_keys (events graph.now.state)) }

    // room for a change of each live event
    requires room { vec_len changed.old + length (live_keys (events graph.now.state))
        ≤ vec_capacity changed.old }
    requires marks_room { length (live_keys (events graph.now.state)) ≤ marks.old.room }

    // the times and the marks afterwards
    ensures times { All (HasItsTime graph.now.network graph.now.state times.new)
        (live_keys (events graph.now.state)) }
    ensures marks { marks.new ≡ record marks.old { keys = [] } }

    // the events that got another time
    ensures changed { changed.new.items ≡ changed.old.items
        ++ map (time_change_at graph.now.network graph.now.state times.old)
        (filter (has_another graph.now.network graph.now.state times.old)
        (key_order (events graph.now.state))) }
    ensures capacity { vec_capacity changed.new ≡ vec_capacity changed.old }

    // the labels that have times, and the steps that are counted
    ensures has_times { (st : AState) → HasTimesFor st times.old → HasTimesFor st times.new }
    ensures cost { steps.new ≤ steps.old
        + sum_by (reads_at graph.now) (filter (is_due graph.now marks.old times.old)
        (key_order (events graph.now.state))) }
{
    let mut table = AskedTable::new();
    while let Some(key) = marks.take_least() {
        let n = key.node();
        let at = graph.live_event(&n);
        let asked = table.take(&key);
        let (was, is) = settle_one(graph, &at, asked, times, steps);
        if was != is {
            changed.push_reserved(TimeChange { key, was, is });
            ask_dependents(graph, &at, was, is, marks, &mut table);
        }
    }
}
