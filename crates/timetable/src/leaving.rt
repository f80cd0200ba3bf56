//! Lists of live events of one train: those that a message takes away, and those that a report
//! bears on.

ghost use Rattle.std.specs.Prelude.{◌≡◌, ◌+◌, ◌≤◌, ◌++◌, [], ◌∷◌, None, length, vec_len};
ghost use Rattle.std.specs.Prelude.{vec_capacity};
ghost use Rattle.delay_model.specs.Cuts.{before};
ghost use Rattle.delay_model.specs.Effect.{effect, events_between, stretch};
ghost use Rattle.delay_model.specs.Events.{events, is_event, live_events, train_events};
ghost use Rattle.delay_model.specs.Refusals.{refusal};
ghost use Rattle.delay_model.specs.Touched.{is_reported, live_only, names_of, since_report};
ghost use Rattle.delay_model.specs.Valid.{IsValid};
ghost use Rattle.timetable.specs.LiveTimes.{live_keys};
ghost use Rattle.timetable.specs.Marking.{leaving_of};

use delay_model::state::Event;
use edge_rules::Graph;
use mt_base::keys::Node;
use mt_base::numbers::{Label, TrainNo};
use train_nodes::kinds::{Kind, Shape};
use train_nodes::{Msg, Trains};

/// Lists an event, if it is live.
fn push_live(list: &mut Vec<Node>, event: &Event)
    requires room { vec_len list.old + length (live_events (event.now ∷ []))
        ≤ vec_capacity list.old }
    ensures list { list.new.items ≡ list.old.items ++ names_of (live_events (event.now ∷ [])) }
    ensures len { vec_len list.new ≡ vec_len list.old + length (live_events (event.now ∷ [])) }
    ensures capacity { vec_capacity list.new ≡ vec_capacity list.old }
{
    if event.live {
        list.push_reserved(event.key.node());
    }
}

/// Lists the live events of a train from the departure of one call to the arrival of a later one.
fn list_stretch(list: &mut Vec<Node>, trains: &Trains, t: TrainNo, from: Label, to: Label)
    requires empty { list.old.items ≡ [] }
    requires room { length (live_events (train_events trains.now t)) ≤ vec_capacity list.old }
    ensures list { list.new.items ≡ names_of (live_events (stretch trains.now t from to)) }
    ensures capacity { vec_capacity list.new ≡ vec_capacity list.old }
{
    let departure = Node::departure(t, from);
    let arrival = Node::arrival(t, to);
    let mut departed = false;
    for event in trains.events_from(t, from) {
        let node = event.key.node();
        departed = departed || node.is_same(&departure);
        if departed {
            push_live(list, &event);
            if node.is_same(&arrival) {
                return;
            }
        }
    }
}

/// Lists the live events of the calls strictly between two calls of a train.
fn list_between(list: &mut Vec<Node>, trains: &Trains, t: TrainNo, from: Label, to: Label)
    requires empty { list.old.items ≡ [] }
    requires room { length (live_events (train_events trains.now t)) ≤ vec_capacity list.old }
    ensures list { list.new.items ≡ names_of (live_events (events_between trains.now t from to)) }
    ensures capacity { vec_capacity list.new ≡ vec_capacity list.old }
{
    let departure = Node::departure(t, from);
    let arrival = Node::arrival(t, to);
    let mut departed = false;
    for event in trains.events_from(t, from) {
        let node = event.key.node();
        if departed {
            if node.is_same(&arrival) {
                return;
            }
            push_live(list, &event);
        }
        departed = departed || node.is_same(&departure);
    }
}

/// Lists the live events that a message takes away, in the train's order.
pub(crate) fn list_leaving(list: &mut Vec<Node>, trains: &Trains, s: &Shape<'_>)
    requires empty { list.old.items ≡ [] }
    requires room { length (live_keys (events trains.now)) ≤ vec_capacity list.old }
    ensures list { list.new.items ≡ names_of (live_events (leaving_of trains.now s.now)) }
    ensures capacity { vec_capacity list.new ≡ vec_capacity list.old }
{
    match s {
        Shape::Cancel { train, from, to } => list_stretch(list, trains, *train, *from, *to),
        Shape::Reroute {
            train,
            from,
            to,
            ..
        } => list_between(list, trains, *train, *from, *to),
        Shape::Extra { .. } => {}
    }
}

/// Before an accepted message is applied: lists the live events that it takes away, in the train's
/// order, in place of those that were listed. It takes no memory.
pub(crate) fn list_taken(list: &mut Vec<Node>, graph: &Graph, m: &Msg)
    requires valid { IsValid graph.now.network graph.now.state }
    requires accepted { refusal graph.now.network graph.now.state m.now ≡ None }
    requires room { length (live_keys (events graph.now.state)) ≤ vec_capacity list.old }
    ensures list { list.new.items ≡ names_of (live_only (events graph.now.state)
        (events (effect graph.now.state m.now))) }
    ensures capacity { vec_capacity list.new ≡ vec_capacity list.old }
{
    list.clear();
    match m.kind() {
        Kind::Value(_) | Kind::Choice(_) => {}
        Kind::Shape(shape) => list_leaving(list, graph.trains(), &shape),
    }
}

/// Whether an event is live and reported.
fn is_reported(event: &Event) -> bool
    ensures { result ≡ is_reported event.now }
{
    event.live && event.report.is_some()
}

/// Lists the live events before an event on its train, back to the last reported one, that one left
/// out.
pub(crate) fn list_since_report(list: &mut Vec<Node>, trains: &Trains, n: &Node)
    requires empty { list.old.items ≡ [] }
    requires room { length (live_keys (events trains.now)) ≤ vec_capacity list.old }
    ensures list { list.new.items ≡ names_of (live_events (since_report
        (before (is_event n.now) (train_events trains.now n.now.train)))) }
    ensures capacity { vec_capacity list.new ≡ vec_capacity list.old }
{
    for event in trains.events(n.train) {
        if event.key.node().is_same(n) {
            return;
        }
        if is_reported(&event) {
            list.clear();
        } else {
            push_live(list, &event);
        }
    }
}
