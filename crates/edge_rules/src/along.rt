//! The edges along the trains, found by the events beside an event.

ghost use Rattle.std.specs.Prelude.{◌≡◌, [], ◌∷◌, IsTrue, Some, All};
ghost use Rattle.std.specs.Option.{option_to_list};
ghost use Rattle.mt_base.specs.Order.{node_of};
ghost use Rattle.delay_model.specs.Edges.{edge_on, minimum_between};
ghost use Rattle.delay_model.specs.Events.{event_named};
ghost use Rattle.train_nodes.specs.Calls.{has_event};
ghost use Rattle.edge_rules.specs.AtEvent.{along_to, along_from};
ghost use Rattle.edge_rules.specs.Inside.{HasOwnLabels};
ghost use Rattle.edge_rules.specs.Neighbours.{previous_of, next_of};

use delay_model::state::{Edge, EdgeKind, Event};
use mt_base::keys::Node;
use mt_base::options::Opts;
use train_nodes::Trains;

/// The event before this one on its train. None exactly at the arrival of the first call.
#[inline(always)]
fn previous(trains: &Trains, n: &Node) -> Option<Node>
    requires { IsTrue (has_event trains.now n.now) }
    ensures { result ≡ previous_of trains.now n.now }
{
    if n.dep {
        return Some(Node::arrival(n.train, n.label));
    }
    match trains.prev_call(n.train, n.label) {
        None => None,
        Some(before) => Some(Node::departure(n.train, before)),
    }
}

/// The event after this one on its train. None exactly at the departure of the last call.
fn next(trains: &Trains, n: &Node) -> Option<Node>
    requires { IsTrue (has_event trains.now n.now) }
    ensures { result ≡ next_of trains.now n.now }
{
    if !n.dep {
        return Some(Node::departure(n.train, n.label));
    }
    match trains.next_call(n.train, n.label) {
        None => None,
        Some(after) => Some(Node::arrival(n.train, after)),
    }
}

/// The least time in seconds from an event of a train to the next one, by the times at which the
/// two are scheduled.
#[inline(always)]
fn minimum(opts: &Opts, from: &Event, to: &Event) -> u32
    ensures { result ≡ minimum_between opts.now from.now to.now }
{
    let scheduled = to
        .key
        .time
        .seconds()
        .saturating_sub(from.key.time.seconds());
    if from.key.dep {
        let scheduled = u64::from(scheduled);
        scheduled.saturating_sub(scheduled * u64::from(opts.slack) / 100) as u32
    } else {
        scheduled.min(opts.stop)
    }
}

/// The edge from an event to the next one of its train, if both are live.
#[inline(always)]
pub(crate) fn edge_between(opts: &Opts, from: &Event, to: &Event) -> Option<Edge>
    ensures { option_to_list result ≡ edge_on opts.now from.now (to.now ∷ []) }
{
    if !from.live || !to.live {
        return None;
    }
    Some(Edge {
        from: from.key,
        to: to.key,
        weight: minimum(opts, from, to),
        kind: EdgeKind::Train,
    })
}

/// The edge along its train that leads to an event, if there is one.
#[inline(always)]
#[tactic(auto, using(crate::proofs::GraphLemmas::joins))]
pub(crate) fn edge_into(trains: &Trains, opts: &Opts, at: &Event) -> Option<Edge>
    requires labels { All HasOwnLabels trains.now.trains }
    requires there { event_named trains.now (node_of at.now.key) ≡ Some at.now }
    ensures { option_to_list result ≡ along_to opts.now trains.now (node_of at.now.key) }
{
    match previous(trains, &at.key.node()) {
        None => None,
        Some(before) => edge_between(opts, &trains.event(before), at),
    }
}

/// The edge along its train that leaves an event, if there is one.
#[tactic(auto, using(crate::proofs::GraphLemmas::joins))]
pub(crate) fn edge_out(trains: &Trains, opts: &Opts, at: &Event) -> Option<Edge>
    requires labels { All HasOwnLabels trains.now.trains }
    requires there { event_named trains.now (node_of at.now.key) ≡ Some at.now }
    ensures { option_to_list result ≡ along_from opts.now trains.now (node_of at.now.key) }
{
    match next(trains, &at.key.node()) {
        None => None,
        Some(after) => edge_between(opts, at, &trains.event(after)),
    }
}
