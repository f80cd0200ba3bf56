//! Marks the events that a message may give another value: before it is applied those that it names
//! and those that are fed by an event that it takes away, and after it the events that it makes and
//! those whose times these may change.

ghost use Rattle.std.specs.Prelude.{◌≡◌, ◌<◌, ◌≤◌, List, ◌||◌, [], None, All, Contains, IsTrue, filter, length, vec_capacity};
ghost use Rattle.std.specs.List.{list_any};
ghost use Rattle.mt_base.specs.declared.keys.Key.{Key as AKey};
ghost use Rattle.mt_base.specs.Order.{is_same, is_same_node, node_of};
ghost use Rattle.delay_model.specs.declared.state.Event.{Event as AnEvent};
ghost use Rattle.delay_model.specs.declared.state.State.{State as AState};
ghost use Rattle.delay_model.specs.Effect.{effect};
ghost use Rattle.delay_model.specs.Events.{events, is_live, train_events};
ghost use Rattle.delay_model.specs.Refusals.{refusal};
ghost use Rattle.delay_model.specs.Touched.{live_only, named, names_of};
ghost use Rattle.delay_model.specs.Valid.{IsTrain, IsValid};
ghost use Rattle.train_nodes.specs.Kinds.{changed_event, message_of_shape, message_of_value};
ghost use Rattle.rank_order.specs.Marked.{is_marked};
ghost use Rattle.timetable.specs.LiveTimes.{live_keys};
ghost use Rattle.timetable.specs.Marking.{AreMarksOf, AreUnsettled, CanBeMarked, IsMarkedBefore, IsStateAfter, IsMarkedAndApplied, is_fed_from_new, is_fed_from, is_marked_by, is_marked_from};

use crate::leaving::{list_since_report, list_taken};
use edge_rules::Graph;
use mt_base::keys::{Key, Node};
use mt_base::numbers::{Label, Time, TrainNo};
use propagate::mark_successors;
use rank_order::Marks;
use train_nodes::kinds::{Kind, Shape, Value};
use train_nodes::{Msg, Trains};

/// Marks a live event, where all live events can be marked.
pub(crate) fn mark(marks: &mut Marks, k: &Key)
    requires { CanBeMarked marks.old k.now }
    ensures marked { (q : AKey) → is_marked marks.new q
        ≡ (is_marked marks.old q || is_same k.now q) }
    ensures room { marks.new.room ≡ marks.old.room }
    ensures fit { (es : List AnEvent) → AreMarksOf es marks.old → Contains (live_keys es) k.now
        → AreMarksOf es marks.new }
{
    marks.marks_are_in_order();
    marks.set(k);
}

/// Marks the live event of this name.
fn mark_event(trains: &Trains, n: &Node, marks: &mut Marks)
    requires trains { All IsTrain trains.now.trains }
    requires live { IsTrue (is_live trains.now n.now) }
    requires fit { AreMarksOf (events trains.now) marks.old }
    ensures fit { AreMarksOf (events trains.now) marks.new }
    ensures marked { (q : AKey) → Contains (live_keys (events trains.now)) q
        → is_marked marks.new q ≡ (is_marked marks.old q || is_same_node (node_of q) n.now) }
    ensures room { marks.new.room ≡ marks.old.room }
{
    mark(marks, &trains.event(*n).key);
}

/// Marks the live events of these names.
fn mark_events(trains: &Trains, list: &[Node], marks: &mut Marks)
    requires trains { All IsTrain trains.now.trains }
    requires live { All (λ n. IsTrue (is_live trains.now n)) list.now }
    requires fit { AreMarksOf (events trains.now) marks.old }
    ensures fit { AreMarksOf (events trains.now) marks.new }
    ensures marked { (q : AKey) → Contains (live_keys (events trains.now)) q → is_marked marks.new q
        ≡ (is_marked marks.old q || list_any (is_same_node (node_of q)) list.now) }
    ensures room { marks.new.room ≡ marks.old.room }
{
    for n in list {
        mark_event(trains, n, marks);
    }
}

/// Marks each event that is fed by this one.
fn mark_fed_by(graph: &Graph, n: &Node, marks: &mut Marks)
    requires live { IsTrue (is_live graph.now.state n.now) }
    requires fit { AreMarksOf (events graph.now.state) marks.old }
    ensures fit { AreMarksOf (events graph.now.state) marks.new }
    ensures marked { (q : AKey) → Contains (live_keys (events graph.now.state)) q
        → is_marked marks.new q ≡ (is_marked marks.old q || is_fed_from graph.now q n.now) }
    ensures room { marks.new.room ≡ marks.old.room }
{
    for edge in graph.outgoing(*n) {
        mark(marks, &edge.to);
    }
}

/// Marks each event that is fed by one of these.
fn mark_fed(graph: &Graph, list: &[Node], marks: &mut Marks)
    requires live { All (λ n. IsTrue (is_live graph.now.state n)) list.now }
    requires fit { AreMarksOf (events graph.now.state) marks.old }
    ensures fit { AreMarksOf (events graph.now.state) marks.new }
    ensures marked { (q : AKey) → Contains (live_keys (events graph.now.state)) q
        → is_marked marks.new q
        ≡ (is_marked marks.old q || list_any (is_fed_from graph.now q) list.now) }
    ensures room { marks.new.room ≡ marks.old.room }
{
    for n in list {
        mark_fed_by(graph, n, marks);
    }
}

/// Marks an event that a message made, and each event whose time it may change.
fn mark_one_made(graph: &Graph, k: &Key, marks: &mut Marks)
    requires live { Contains (live_keys (events graph.now.state)) k.now }
    requires fit { AreMarksOf (events graph.now.state) marks.old }
    ensures fit { AreMarksOf (events graph.now.state) marks.new }
    ensures marked { (q : AKey) → Contains (live_keys (events graph.now.state)) q
        → is_marked marks.new q ≡ (is_marked marks.old q
        || (is_same k.now q || is_fed_from_new graph.now q (node_of k.now))) }
    ensures room { marks.new.room ≡ marks.old.room }
{
    let no_time = Time::new(33_554_431);
    mark(marks, k);
    mark_successors(graph, &k.node(), no_time, no_time, marks);
}

/// Marks an event of a new call, if it is live, and each event whose time it may change.
fn mark_made_event(graph: &Graph, n: &Node, marks: &mut Marks)
    requires trains { All IsTrain graph.now.state.trains }
    requires fit { AreMarksOf (events graph.now.state) marks.old }
    ensures fit { AreMarksOf (events graph.now.state) marks.new }
    ensures marked { (q : AKey) → Contains (live_keys (events graph.now.state)) q
        → is_marked marks.new q ≡ (is_marked marks.old q || is_marked_from graph.now q n.now) }
    ensures room { marks.new.room ≡ marks.old.room }
{
    if graph.trains().live(*n) {
        mark_one_made(graph, &graph.live_event(n).key, marks);
    }
}

/// Marks the live events of a train whose labels are new, those from `first` on, and each event
/// whose time these may change.
fn mark_made(graph: &Graph, t: TrainNo, first: u32, marks: &mut Marks)
    requires trains { All IsTrain graph.now.state.trains }
    requires there { t < length graph.now.state.trains }
    requires fit { AreMarksOf (events graph.now.state) marks.old }
    ensures fit { AreMarksOf (events graph.now.state) marks.new }
    ensures marked { (q : AKey) → Contains (live_keys (events graph.now.state)) q
        → is_marked marks.new q ≡ (is_marked marks.old q
        || list_any (is_marked_by graph.now first q) (train_events graph.now.state t)) }
    ensures room { marks.new.room ≡ marks.old.room }
{
    for number in first..graph.trains().next_label(t).get() {
        let label = Label::new(number);
        mark_made_event(graph, &Node::arrival(t, label), marks);
        mark_made_event(graph, &Node::departure(t, label), marks);
    }
}

/// Takes the marks off events that are not live.
fn keep_live(trains: &Trains, marks: &mut Marks)
    ensures keys { marks.new.keys ≡ filter (λ k. is_live trains.now (node_of k)) marks.old.keys }
    ensures room { marks.new.room ≡ marks.old.room }
{
    marks.retain(|k| trains.live(k.node()));
}

/// Marks the events that a message about a report or a forecast names. The list has room to work
/// with, and is empty before and after.
#[tactic(auto, using(crate::proofs::Renewed::named_value))]
fn mark_value(trains: &Trains, v: &Value, list: &mut Vec<Node>, marks: &mut Marks)
    // the trains, and a live event of them
    requires trains { All IsTrain trains.now.trains }
    requires live { IsTrue (is_live trains.now (changed_event v.now)) }

    // an empty list with room, and marks of these events
    requires empty { list.old.items ≡ [] }
    requires room { length (live_keys (events trains.now)) ≤ vec_capacity list.old }
    requires fit { AreMarksOf (events trains.now) marks.old }

    // what is marked
    ensures fit { AreMarksOf (events trains.now) marks.new }
    ensures marked { (q : AKey) → Contains (live_keys (events trains.now)) q
        → is_marked marks.new q ≡ (is_marked marks.old q
        || list_any (is_same_node (node_of q)) (named trains.now (message_of_value v.now))) }

    // the room and the list afterwards
    ensures room { marks.new.room ≡ marks.old.room }
    ensures empty { list.new.items ≡ [] }
    ensures capacity { vec_capacity list.new ≡ vec_capacity list.old }
{
    let node = v.node();
    if v.is_of_report() {
        list_since_report(list, trains, &node);
        mark_events(trains, list, marks);
        list.clear();
    }
    mark_event(trains, &node, marks);
}

/// Before an accepted message is applied: lists the live events that it takes away, in the train's
/// order, in place of those that were listed, and marks each event that is fed by one of these, and
/// those that a report, a forecast or a choice names. Nothing is marked before. It takes no memory.
pub(crate) fn mark_before(graph: &Graph, m: &Msg, changed: &mut Vec<Node>, marks: &mut Marks)
    // a valid timetable, and a message that it accepts
    requires valid { IsValid graph.now.network graph.now.state }
    requires accepted { refusal graph.now.network graph.now.state m.now ≡ None }

    // no mark, and room for each live event
    requires unmarked { marks.old.keys ≡ [] }
    requires room { length (live_keys (events graph.now.state)) ≤ vec_capacity changed.old }
    requires marks_room { length (live_keys (events graph.now.state)) ≤ marks.old.room }

    // the events that are taken away
    ensures leaving { changed.new.items ≡ names_of (live_only (events graph.now.state)
        (events (effect graph.now.state m.now))) }
    ensures capacity { vec_capacity changed.new ≡ vec_capacity changed.old }

    // what is marked
    ensures marked { IsMarkedBefore graph.now.network graph.now.state m.now marks.new }
    ensures marks_room { marks.new.room ≡ marks.old.room }
{
    list_taken(changed, graph, m);
    let trains = graph.trains();
    match m.kind() {
        Kind::Value(value) => mark_value(trains, &value, changed, marks),
        Kind::Choice(choice) => mark_event(trains, &choice.train, marks),
        Kind::Shape(_shape) => mark_fed(graph, changed, marks),
    }
}

/// Marks what a message made that changed the calls of a train, or which of its events take place.
fn mark_shape(graph: &Graph, s: &Shape<'_>, marks: &mut Marks)
    requires stepped { IsMarkedAndApplied graph.now (message_of_shape s.now) marks.old }
    requires room { length (live_keys (events graph.now.state)) ≤ marks.old.room }
    ensures marked { (st : AState) → IsStateAfter graph.now.network st graph.now.state
        (message_of_shape s.now) → IsMarkedBefore graph.now.network st (message_of_shape s.now)
        marks.old → AreUnsettled graph.now.network st (message_of_shape s.now) marks.new }
    ensures room { marks.new.room ≡ marks.old.room }
{
    let trains = graph.trains();
    keep_live(trains, marks);
    match s {
        Shape::Cancel { .. } => {}
        Shape::Reroute { train, to, via, .. } => {
            let first = trains.next_label(*train).get() - via.len() as u32;
            mark_made(graph, *train, first, marks);
            mark_event(trains, &Node::arrival(*train, *to), marks);
        }
        Shape::Extra { train, .. } => mark_made(graph, *train, 0, marks),
    }
}

/// After a message was applied, before which the events were marked that it names, and those that
/// are fed by an event that it takes away: takes the marks off events that it took away, and marks
/// the events that it made, the arrival to which a rerouting leads, and each event whose time a
/// made one may change. Then the events are marked that may have another value, and no others. It
/// takes no memory.
pub(crate) fn mark_after(graph: &Graph, m: &Msg, marks: &mut Marks)
    requires stepped { IsMarkedAndApplied graph.now m.now marks.old }
    requires room { length (live_keys (events graph.now.state)) ≤ marks.old.room }
    ensures marked { (st : AState) → IsStateAfter graph.now.network st graph.now.state m.now
        → IsMarkedBefore graph.now.network st m.now marks.old
        → AreUnsettled graph.now.network st m.now marks.new }
    ensures room { marks.new.room ≡ marks.old.room }
{
    match m.kind() {
        Kind::Value(_) | Kind::Choice(_) => {}
        Kind::Shape(shape) => mark_shape(graph, &shape, marks),
    }
}
