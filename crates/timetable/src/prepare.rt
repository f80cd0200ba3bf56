//! Accepted messages applied, and lists of events that get other times.

ghost use Rattle.std.specs.Prelude.{◌≡◌, ◌+◌, ◌≤◌, ◌++◌, None, length, map, vec_len, vec_capacity};
ghost use Rattle.mt_base.specs.Order.{node_of};
ghost use Rattle.delay_model.specs.Effect.{effect};
ghost use Rattle.delay_model.specs.Messages.{IsWellFormed};
ghost use Rattle.delay_model.specs.Refusals.{refusal};
ghost use Rattle.train_nodes.specs.Kinds.{HasFewCalls, message_of_shape};
ghost use Rattle.dep_order.specs.Ordered.{KeepsDepartures};
ghost use Rattle.timetable.specs.Settled.{AreOfSameLabels, HasPlacesFor, IsSettled};
ghost use Rattle.timetable.specs.Shapes.{HasRoomFor, IsPrepared, with_made};

use cancel_reroute::apply_shape;
use dep_order::DepartureOrder;
use edge_rules::Graph;
use graph_edit::{apply_choice, apply_value};
use mt_base::keys::Node;
use propagate::TimeChange;
use train_nodes::kinds::{Kind, Shape};
use train_nodes::{Msg, NodeTimes};

/// Stores a time that no event has for each event that is made, and adds places for the numbers of
/// departures.
fn add_times(times: &mut NodeTimes, departures: &mut DepartureOrder, s: &Shape<'_>)
    requires few { HasFewCalls (message_of_shape s.now) }
    requires room { HasRoomFor times.old s.now }
    requires places { AreOfSameLabels times.old departures.old }
    ensures times { times.new ≡ with_made s.now times.old }
    ensures places { AreOfSameLabels times.new departures.new }
    ensures departures { KeepsDepartures departures.old departures.new }
{
    match s {
        Shape::Cancel { .. } => {}
        Shape::Reroute { train, via, .. } => {
            times.add_labels(*train, via.len() as u32);
            departures.add_labels(*train, via.len() as u32);
        }
        Shape::Extra { calls, .. } => {
            times.push_train(calls.len() as u32);
            departures.push_train(calls.len() as u32);
        }
    }
}

/// Applies an accepted message, stores a time that no event has for each event that it makes, and
/// adds places for the numbers of departures.
pub(crate) fn apply(
    graph: &mut Graph,
    times: &mut NodeTimes,
    departures: &mut DepartureOrder,
    m: &Msg,
)
    requires accepted { refusal graph.old.network graph.old.state m.now ≡ None }
    requires settled { IsSettled graph.old.network graph.old.state times.old }
    requires places { HasPlacesFor graph.old.state departures.old }
    ensures effect { graph.new ≡ record graph.old { state = effect graph.old.state m.now } }
    ensures prepared { IsPrepared graph.old.network graph.old.state
        (effect graph.old.state m.now) times.new }
    ensures well_formed { IsWellFormed m.now }
    ensures places { HasPlacesFor (effect graph.old.state m.now) departures.new }
    ensures departures { KeepsDepartures departures.old departures.new }
{
    match m.kind() {
        Kind::Value(value) => apply_value(graph, &value),
        Kind::Choice(choice) => apply_choice(graph, &choice),
        Kind::Shape(shape) => {
            add_times(times, departures, &shape);
            apply_shape(graph, &shape);
        }
    }
}

/// Adds the names of events that get other times to a list.
pub(crate) fn push_names(changed: &mut Vec<Node>, time_changes: &[TimeChange])
    requires { vec_len changed.old + length time_changes.now ≤ vec_capacity changed.old }
    ensures names { changed.new.items ≡ changed.old.items
        ++ map (λ r. node_of r.key) time_changes.now }
    ensures capacity { vec_capacity changed.new ≡ vec_capacity changed.old }
{
    for one in time_changes {
        changed.push_reserved(one.key.node());
    }
}
