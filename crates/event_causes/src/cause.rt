//! What decides the time of one event.

ghost use Rattle.std.specs.Prelude.{◌≡◌, ◌+◌, ◌≤◌, Some, None, All, IsTrue, fold, length};
ghost use Rattle.std.specs.Option.{option_map};
ghost use Rattle.mt_base.specs.Order.{node_of};
ghost use Rattle.delay_model.specs.Events.{events, event_named};
ghost use Rattle.delay_model.specs.Edges.{edges};
ghost use Rattle.delay_model.specs.Timing.{floor_of, incoming};
ghost use Rattle.train_nodes.specs.Calls.{has_event};
ghost use Rattle.cause_laws.specs.declared.causes.Cause.TheVariants.{Capped};
ghost use Rattle.cause_laws.specs.Causes.{by_cap, capper, cause, floor_cause, is_along};
ghost use Rattle.event_causes.specs.Asking.{by_rule, cause_of, cause_of_due, first_of, goes_before, with_asked, with_edge, AsksInTime, TakesPlace};

use cause_laws::causes::Cause;
use delay_model::state::{Edge, EdgeKind, Event};
use edge_rules::{Edges, Graph, counts, floor};
use mt_base::keys::Key;
use mt_base::numbers::Time;
use std::sync::ledger::Ledger;
use timetable::Timetable;
use train_nodes::{Steps, Trains};

/// An edge that asks for just the time of the event to which it leads.
#[derive(Clone, Copy)]
struct Candidate {
    /// The edge.
    edge: Edge,

    /// Whether the waiting rules alone would hold the event until then.
    by_rule: bool,
}

/// What edges to an event ask for.
#[derive(Clone, Copy)]
struct Due {
    /// When the event is due, in seconds from the base of day 0.
    time: u32,

    /// Of the edges that ask for the time of the event that which is named.
    named: Option<Candidate>,
}

/// Whether an edge leads along a train.
fn is_along(edge: &Edge) -> bool
    ensures { result ≡ is_along edge.now.kind }
{
    match edge.kind {
        EdgeKind::Train => true,
        EdgeKind::Planned { .. } | EdgeKind::Kept => false,
    }
}

/// Whether the first of two edges is named, and not the second.
fn goes_before(d: &Candidate, e: &Candidate) -> bool
    ensures { result ≡ goes_before d.now e.now }
{
    if is_along(&e.edge) {
        return false;
    }
    if is_along(&d.edge) {
        return true;
    }
    if d.by_rule == e.by_rule {
        d.edge.from.is_before(&e.edge.from)
    } else {
        d.by_rule
    }
}

/// Of an edge and of one that is named among others the one that is named among all.
fn first_of(candidate: Candidate, named: Option<Candidate>) -> Candidate
    ensures { result ≡ first_of candidate named }
{
    match named {
        Some(named) if !goes_before(&candidate, &named) => named,
        _ => candidate,
    }
}

/// Whether by the waiting rules alone the edge would be there, and hold the event until this time.
/// A planned edge is there by the rules alone; of a kept one they are asked.
fn holds_by_rule(graph: &Graph, edge: &Edge, at: &Event, time: Time) -> bool
    requires { IsTrue (has_event graph.now.state (node_of edge.now.from)) }
    ensures { result ≡ by_rule graph.now.network graph.now.state at.now time edge.now }
{
    match edge.kind {
        EdgeKind::Train => false,
        EdgeKind::Planned { .. } => true,
        EdgeKind::Kept => {
            let from = graph.trains().event(edge.from.node());
            match graph.edge_by_rule(&from, at) {
                None => false,
                Some(planned) => counts(&planned, time.seconds()),
            }
        }
    }
}

/// What is asked of an event by some edges, and by one more that asks for the time `asked`.
fn with_edge(graph: &Graph, edge: &Edge, asked: u32, at: &Event, time: Time, due: Due) -> Due
    requires { IsTrue (has_event graph.now.state (node_of edge.now.from)) }
    ensures { result ≡ with_asked (by_rule graph.now.network graph.now.state at.now time edge.now)
        time asked due edge.now }
{
    if !counts(edge, asked) {
        return due;
    }
    let mut named = due.named;
    if asked == time.seconds() {
        let by_rule = holds_by_rule(graph, edge, at, time);
        let edge = *edge;
        named = Some(first_of(Candidate { edge, by_rule }, named));
    }
    Due {
        time: due.time.max(asked),
        named,
    }
}

/// What these edges ask of an event that takes place at a time. To read what one asks for takes a
/// step.
fn asked_by<L: Ledger>(
    t: &Timetable,
    edges: Edges<'_>,
    at: &Event,
    time: Time,
    steps: &mut Steps<L>,
) -> Due
    requires { All (AsksInTime t.now.network t.now.state) edges }
    ensures due { result ≡ fold (with_edge t.now.network t.now.state at.now time)
        (record { time = floor_of at.now; named = None }) edges.entry }
    ensures cost { steps.new ≡ steps.old + length edges.entry }
{
    let graph = t.graph();
    let mut due = Due {
        time: floor(at),
        named: None,
    };
    for edge in edges {
        if let Some(from) = t.time(edge.from.node(), steps) {
            due = with_edge(graph, &edge, from.seconds() + edge.weight, at, time, due);
        }
    }
    due
}

/// The first live event behind this one along its train that is reported.
fn next_reported(trains: &Trains, at: &Event) -> Option<Key>
    requires { event_named trains.now (node_of at.now.key) ≡ Some at.now }
    ensures { result ≡ option_map (λ u. u.key) (capper (events trains.now) at.now) }
{
    let mut behind = false;
    for event in trains.events(at.key.train) {
        if behind && event.live && event.report.is_some() {
            return Some(event.key);
        }
        behind = behind || event.key.is_same(&at.key);
    }
    None
}

/// The later event of its train whose report is before what an event is due, if there is one.
fn capped_by(trains: &Trains, at: &Event, due: u32) -> Option<Key>
    requires { event_named trains.now (node_of at.now.key) ≡ Some at.now }
    ensures { option_map Capped result ≡ by_cap due (capper (events trains.now) at.now) }
{
    let report = trains.next_report(at.key.node())?;
    if report.seconds() < due {
        next_reported(trains, at)
    } else {
        None
    }
}

/// The cause that makes the floor of an event.
fn floor_cause(at: &Event) -> Cause
    ensures { result ≡ floor_cause at.now }
{
    match at.forecast {
        None => Cause::Schedule,
        Some(forecast) if at.key.dep && forecast <= at.key.time => Cause::Schedule,
        Some(_) => Cause::Forecast,
    }
}

/// An edge as a cause.
fn edge_cause(named: &Candidate) -> Cause
    ensures { result ≡ cause_of named.now }
{
    let from = named.edge.from;
    if is_along(&named.edge) {
        if from.dep {
            Cause::Run { from }
        } else {
            Cause::Stop { from }
        }
    } else if named.by_rule {
        Cause::Hold { from }
    } else {
        Cause::Kept { from }
    }
}

/// The cause of the time of an event that its floor or an edge decides.
fn due_cause(at: &Event, time: Time, due: &Due) -> Cause
    ensures { result ≡ cause_of_due at.now time due.now }
{
    match due.named {
        Some(named) if floor(at) != time.seconds() => edge_cause(&named),
        _ => floor_cause(at),
    }
}

/// What decides the time of a live event, which takes place at this time. At most so many steps are
/// taken as edges lead to it.
pub(crate) fn cause<L: Ledger>(t: &Timetable, at: &Event, time: Time, steps: &mut Steps<L>) -> Cause
    requires { TakesPlace t.now.network t.now.state at.now time }
    ensures cause { cause t.now.network t.now.state at.now ≡ Some result }
    ensures cost { steps.new ≤ steps.old
        + length (incoming (edges t.now.network t.now.state) at.now.key) }
{
    if at.report.is_some() {
        return Cause::Report;
    }
    t.state_is_valid();
    let graph = t.graph();
    let due = asked_by(t, graph.incoming(at.key.node()), at, time, steps);
    match capped_by(graph.trains(), at, due.time) {
        Some(by) => Cause::Capped { by },
        None => due_cause(at, time, &due),
    }
}
