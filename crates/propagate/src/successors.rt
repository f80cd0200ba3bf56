//! The events that are to be settled anew after one that got another time.

ghost use Rattle.std.specs.Prelude.{◌≡◌, ◌≤◌, ◌<◌, ◌^◌, ◌&&◌, ◌||◌, ◌∷◌, [], false};
ghost use Rattle.std.specs.Prelude.{IsTrue, Some, All, Contains, filter, length};
ghost use Rattle.std.specs.List.{list_any};
ghost use Rattle.mt_base.specs.declared.keys.Key.{Key as AKey};
ghost use Rattle.mt_base.specs.Order.{is_same, node_of};
ghost use Rattle.delay_model.specs.Events.{event_named, events, is_live};
ghost use Rattle.edge_rules.specs.AtEvent.{along_from, edges_from};
ghost use Rattle.edge_rules.specs.Deciding.{may_change};
ghost use Rattle.rank_order.specs.Marked.{is_marked};
ghost use Rattle.propagate.specs.Asked.{AreRaised};
ghost use Rattle.propagate.specs.LiveKeys.{live_keys};

use crate::asked::{Asked, AskedTable};
use delay_model::state::{Edge, Event};
use edge_rules::Graph;
use mt_base::keys::Node;
use mt_base::numbers::Time;
use rank_order::Marks;

/// Marks the event to which the edge along its train leads from an event, if there is such an edge.
fn mark_next(graph: &Graph, at: &Event, marks: &mut Marks)
    requires there { event_named graph.now.state (node_of at.now.key) ≡ Some at.now }
    requires ends { All (λ e. Contains (live_keys (events graph.now.state)) e.to)
        (along_from graph.now.network.opts graph.now.state (node_of at.now.key)) }
    requires marked { All (Contains (live_keys (events graph.now.state))) marks.old.keys }
    requires room { length (live_keys (events graph.now.state)) ≤ marks.old.room }
    ensures room { marks.new.room ≡ marks.old.room }
    ensures marked { (q : AKey) → is_marked marks.new q ≡ (is_marked marks.old q
        || list_any (λ e. is_same e.to q)
        (along_from graph.now.network.opts graph.now.state (node_of at.now.key))) }
{
    if let Some(edge) = graph.along_from(at) {
        marks.marks_are_in_order();
        marks.set(&edge.to);
    }
}

/// Marks the events whose times may change where a live event gets the time `is` in place of `was`.
/// It takes no memory.
fn mark_dependents(graph: &Graph, at: &Event, was: Time, is: Time, marks: &mut Marks)
    requires there { event_named graph.now.state (node_of at.now.key) ≡ Some at.now }
    requires ends { All (λ e. Contains (live_keys (events graph.now.state)) e.to)
        (edges_from graph.now (node_of at.now.key)) }
    requires marked { All (Contains (live_keys (events graph.now.state))) marks.old.keys }
    requires room { length (live_keys (events graph.now.state)) ≤ marks.old.room }
    ensures room { marks.new.room ≡ marks.old.room }
    ensures marked { (q : AKey) → is_marked marks.new q ≡ (is_marked marks.old q
        || list_any (λ e. is_same e.to q && may_change was is e)
        (edges_from graph.now (node_of at.now.key))) }
{
    let transfers = graph.transfers_changing(at, was, is);
    mark_next(graph, at, marks);
    for edge in transfers {
        marks.marks_are_in_order();
        marks.set(&edge.to);
    }
}

/// Marks the events whose times may change where an event gets the time `is` in place of `was`. It
/// takes no memory.
pub fn mark_successors(graph: &Graph, n: &Node, was: Time, is: Time, marks: &mut Marks)
    requires live { IsTrue (is_live graph.now.state n.now) }
    requires ends { All (λ e. Contains (live_keys (events graph.now.state)) e.to)
        (edges_from graph.now n.now) }
    requires marked { All (Contains (live_keys (events graph.now.state))) marks.old.keys }
    requires room { length (live_keys (events graph.now.state)) ≤ marks.old.room }
    ensures room { marks.new.room ≡ marks.old.room }
    ensures marked { (q : AKey) → is_marked marks.new q ≡ (is_marked marks.old q
        || list_any (λ e. is_same e.to q && may_change was is e) (edges_from graph.now n.now)) }
{
    let at = graph.live_event(n);
    mark_dependents(graph, &at, was, is, marks);
}

/// Marks the event to which an edge leads from one that gets the time `is` in place of `was`, and
/// raises what is asked of it.
fn mark_and_ask(edge: &Edge, was: Time, is: Time, marks: &mut Marks, asked: &mut AskedTable)
    requires weight { edge.now.weight < 2 ^ 24 }
    requires room { is_marked marks.old edge.now.to ≡ false
        → length marks.old.keys < marks.old.room }
    ensures room { marks.new.room ≡ marks.old.room }
    ensures marked { (q : AKey) → is_marked marks.new q
        ≡ (is_same edge.now.to q || is_marked marks.old q) }
    ensures asked { AreRaised was is (edge.now ∷ []) marks.old asked.old asked.new }
{
    let fresh = marks.set(&edge.to);
    asked.raise(&edge.to, Asked::by(edge, was, is), fresh);
}

/// Marks the event to which the edge along its train leads from an event that gets the time `is` in
/// place of `was`, if there is such an edge, and raises what is asked of it.
fn ask_next(
    graph: &Graph,
    at: &Event,
    was: Time,
    is: Time,
    marks: &mut Marks,
    asked: &mut AskedTable,
)
    requires there { event_named graph.now.state (node_of at.now.key) ≡ Some at.now }
    requires ends { All (λ e. Contains (live_keys (events graph.now.state)) e.to)
        (along_from graph.now.network.opts graph.now.state (node_of at.now.key)) }
    requires weights { All (λ e. e.weight < 2 ^ 24)
        (along_from graph.now.network.opts graph.now.state (node_of at.now.key)) }
    requires marked { All (Contains (live_keys (events graph.now.state))) marks.old.keys }
    requires room { length (live_keys (events graph.now.state)) ≤ marks.old.room }
    ensures room { marks.new.room ≡ marks.old.room }
    ensures marked { (q : AKey) → is_marked marks.new q ≡ (is_marked marks.old q
        || list_any (λ e. is_same e.to q)
        (along_from graph.now.network.opts graph.now.state (node_of at.now.key))) }
    ensures asked { AreRaised was is
        (along_from graph.now.network.opts graph.now.state (node_of at.now.key))
        marks.old asked.old asked.new }
{
    if let Some(edge) = graph.along_from(at) {
        marks.marks_are_in_order();
        mark_and_ask(&edge, was, is, marks, asked);
    }
}

/// Marks the events whose times may change where a live event gets the time `is` in place of `was`,
/// and raises what is asked of each of them. It takes no memory.
pub(crate) fn ask_dependents(
    graph: &Graph,
    at: &Event,
    was: Time,
    is: Time,
    marks: &mut Marks,
    asked: &mut AskedTable,
)
    requires there { event_named graph.now.state (node_of at.now.key) ≡ Some at.now }
    requires ends { All (λ e. Contains (live_keys (events graph.now.state)) e.to)
        (edges_from graph.now (node_of at.now.key)) }
    requires weights { All (λ e. e.weight < 2 ^ 24) (edges_from graph.now (node_of at.now.key)) }
    requires marked { All (Contains (live_keys (events graph.now.state))) marks.old.keys }
    requires room { length (live_keys (events graph.now.state)) ≤ marks.old.room }
    ensures room { marks.new.room ≡ marks.old.room }
    ensures marked { (q : AKey) → is_marked marks.new q ≡ (is_marked marks.old q
        || list_any (λ e. is_same e.to q && may_change was is e)
        (edges_from graph.now (node_of at.now.key))) }
    ensures asked { AreRaised was is
        (filter (may_change was is) (edges_from graph.now (node_of at.now.key)))
        marks.old asked.old asked.new }
{
    let transfers = graph.transfers_changing(at, was, is);
    ask_next(graph, at, was, is, marks, asked);
    for edge in transfers {
        marks.marks_are_in_order();
        mark_and_ask(&edge, was, is, marks, asked);
    }
}
