//! What stands beside each departure: where and when its train arrives next, and the number of its
//! departure from there.

ghost use Rattle.std.specs.Prelude.{◌≡◌, ◌<◌, ◌≤◌, None, Some, All, IsTrue, length};
ghost use Rattle.delay_model.specs.Refusals.{refusal};
ghost use Rattle.delay_model.specs.Valid.{IsValid};
ghost use Rattle.train_nodes.specs.Calls.{has_call};
ghost use Rattle.train_nodes.specs.Kinds.{message_of_shape};
ghost use Rattle.dep_order.specs.Departing.{held};
ghost use Rattle.dep_order.specs.Ordered.{KeepsRoom};
ghost use Rattle.timetable.specs.Carried.{IsCarriedTo, IsNoted};
ghost use Rattle.timetable.specs.Departures.{live_departures};
ghost use Rattle.timetable.specs.Linking.{AreRenewed, CanBeLinked, HasItsCall, HasNextTime};
ghost use Rattle.timetable.specs.Linking.{HasRejoined, alighting_stop, arrival_beside};
ghost use Rattle.timetable.specs.Linking.{used_labels, with_arrival, with_arrivals};
ghost use Rattle.timetable.specs.Linking.{with_call_linked, with_labels_linked, with_made_linked};
ghost use Rattle.timetable.specs.Linking.{with_noted, with_shape_linked, with_stored};
ghost use Rattle.timetable.specs.Onward.{IsDepartureOrder};
ghost use Rattle.timetable.specs.Settled.{IsSettled};

use dep_order::{Departure, DepartureOrder};
use edge_rules::Graph;
use mt_base::keys::Node;
use mt_base::numbers::{Label, StopNo, Time, TrainNo};
use propagate::TimeChange;
use std::sync::ledger::Ledger;
use train_nodes::kinds::{Kind, Shape};
use train_nodes::{Msg, NodeTimes, Steps, Trains};

/// The stop where passengers may alight at a call: its own, or the number past all stops where
/// nobody may.
fn alighting_stop(g: &Graph, t: TrainNo, l: Label) -> StopNo
    requires { IsTrue (has_call g.now.state t l) }
    ensures { result ≡ alighting_stop g.now.network g.now.state t l }
{
    if g.trains().alights(t, l) {
        g.trains().stop(t, l)
    } else {
        StopNo::new(g.changes().stops())
    }
}

/// Lets where a train goes on to from a call stand beside its departure, if that is there.
fn link_call(departures: &mut DepartureOrder, g: &Graph, t: TrainNo, l: Label)
    requires { IsTrue (has_call g.now.state t l) }
    ensures { AreRenewed (with_call_linked g.now.network g.now.state departures.old.entries t l)
        departures.old departures.new }
{
    if let Some(next) = g.trains().next_call(t, l) {
        departures.set_links(t, l, alighting_stop(g, t, next), next);
    }
}

/// The same, where the train has such a call.
fn link_named(departures: &mut DepartureOrder, g: &Graph, t: TrainNo, l: Label)
    ensures { AreRenewed (with_call_linked g.now.network g.now.state departures.old.entries t l)
        departures.old departures.new }
{
    if g.trains().has(t, l) {
        link_call(departures, g, t, l);
    }
}

/// The same for the calls of a train whose labels are those from `first` on.
fn link_calls(departures: &mut DepartureOrder, g: &Graph, t: TrainNo, first: u32)
    requires there { t < length g.now.state.trains }
    requires fewer { first ≤ used_labels g.now.state t }
    ensures { AreRenewed (with_labels_linked g.now.network g.now.state departures.old.entries t
        first (used_labels g.now.state t)) departures.old departures.new }
{
    for label in first..g.trains().next_label(t).get() {
        link_named(departures, g, t, Label::new(label));
    }
}

/// The same for a call of a train and the calls that were made last, so many.
fn link_made(departures: &mut DepartureOrder, g: &Graph, t: TrainNo, from: Label, count: usize)
    requires there { t < length g.now.state.trains }
    requires fewer { count ≤ used_labels g.now.state t }
    ensures { AreRenewed (with_made_linked g.now.network g.now.state departures.old.entries t from
        count) departures.old departures.new }
{
    link_named(departures, g, t, from);
    let first = g.trains().next_label(t).get() - count as u32;
    link_calls(departures, g, t, first);
}

/// Lets the time of an arrival stand beside the departure before it, if that is there.
fn note_arrival(departures: &mut DepartureOrder, trains: &Trains, t: TrainNo, l: Label, time: Time)
    requires { IsTrue (has_call trains.now t l) }
    ensures { AreRenewed (with_arrival trains.now t l time) departures.old departures.new }
{
    if let Some(before) = trains.prev_call(t, l) {
        departures.set_arrival(t, before, time);
    }
}

/// The same for each arrival among events that get other times.
fn note_arrivals(departures: &mut DepartureOrder, trains: &Trains, changes: &[TimeChange])
    requires { All (HasItsCall trains.now) changes.now }
    ensures { AreRenewed (with_arrivals trains.now changes.now) departures.old departures.new }
{
    for one in changes {
        if !one.key.dep {
            note_arrival(departures, trains, one.key.train, one.key.label, one.is);
        }
    }
}

/// Lets the time that was noted of an arrival stand beside the departure before it.
fn note_rejoined(
    departures: &mut DepartureOrder,
    trains: &Trains,
    t: TrainNo,
    to: Label,
    noted: Option<Time>,
)
    requires { IsTrue (has_call trains.now t to) }
    ensures { AreRenewed (with_noted trains.now t to noted) departures.old departures.new }
{
    if let Some(time) = noted {
        note_arrival(departures, trains, t, to, time);
    }
}

/// After a message was applied: links the new calls of the train that it reroutes, with the one
/// before them, and lets the time that was noted stand before the arrival to which they lead; or
/// links the calls of the train that it adds.
fn link_shape(departures: &mut DepartureOrder, g: &Graph, s: &Shape<'_>, noted: Option<Time>)
    requires rejoined { HasRejoined g.now.state (message_of_shape s.now) }
    requires linked { CanBeLinked g.now.state (message_of_shape s.now) }
    ensures { AreRenewed (with_shape_linked g.now.network g.now.state departures.old.entries
        (message_of_shape s.now) noted) departures.old departures.new }
{
    match s {
        Shape::Cancel { .. } => {}
        Shape::Reroute {
            train,
            from,
            to,
            via,
        } => {
            link_made(departures, g, *train, *from, via.len());
            note_rejoined(departures, g.trains(), *train, *to, noted);
        }
        Shape::Extra { train, .. } => link_calls(departures, g, *train, 0),
    }
}

/// The same for a message of any kind.
fn link_changed(departures: &mut DepartureOrder, g: &Graph, m: &Msg, noted: Option<Time>)
    requires rejoined { HasRejoined g.now.state m.now }
    requires linked { CanBeLinked g.now.state m.now }
    ensures { AreRenewed (with_shape_linked g.now.network g.now.state departures.old.entries m.now
        noted) departures.old departures.new }
{
    match m.kind() {
        Kind::Value(_) | Kind::Choice(_) => {}
        Kind::Shape(shape) => link_shape(departures, g, &shape, noted),
    }
}

/// After a message was applied and its departures moved, put in and taken out: makes what stands
/// beside each right again, by the time that was noted before and by the events that got other
/// times. It reads no stored time.
pub(crate) fn renew_onward(
    departures: &mut DepartureOrder,
    g: &Graph,
    m: &Msg,
    noted: Option<Time>,
    changes: &[TimeChange],
)
    requires { IsCarriedTo g.now.network g.now.state m.now noted changes.now departures.old }
    ensures order { IsDepartureOrder g.now.network g.now.state departures.new }
    ensures entries { departures.new.entries ≡ departures.old.entries }
    ensures used { departures.new.used ≡ departures.old.used }
    ensures room { KeepsRoom departures.old departures.new }
{
    departures.departures_are_in_order();
    link_changed(departures, g, m, noted);
    note_arrivals(departures, g.trains(), changes);
}

/// When a train arrives at a call, as it stands beside the departure before.
fn arrival_beside(
    departures: &DepartureOrder,
    trains: &Trains,
    t: TrainNo,
    l: Label,
) -> Option<Time>
    requires { IsTrue (has_call trains.now t l) }
    ensures { result ≡ arrival_beside departures.now trains.now t l }
{
    let before = trains.prev_call(t, l)?;
    let onward = departures.onward_after(t, before)?;
    Some(onward.arrival)
}

/// Before a message is applied that changes the calls of a train: the same as `noted_arrival`.
fn noted_before(departures: &DepartureOrder, g: &Graph, s: &Shape<'_>) -> Option<Time>
    requires valid { IsValid g.now.network g.now.state }
    requires accepted { refusal g.now.network g.now.state (message_of_shape s.now) ≡ None }
    requires order { IsDepartureOrder g.now.network g.now.state departures.now }
    ensures { IsNoted g.now.network g.now.state (message_of_shape s.now) result }
{
    departures.departures_are_in_order();
    match s {
        Shape::Cancel { .. } | Shape::Extra { .. } => None,
        Shape::Reroute { train, to, .. } => arrival_beside(departures, g.trains(), *train, *to),
    }
}

/// Before an accepted message is applied: when the train that it reroutes arrives at the call to
/// which the new calls lead. None for any other message.
pub(crate) fn noted_arrival(departures: &DepartureOrder, g: &Graph, m: &Msg) -> Option<Time>
    requires valid { IsValid g.now.network g.now.state }
    requires accepted { refusal g.now.network g.now.state m.now ≡ None }
    requires order { IsDepartureOrder g.now.network g.now.state departures.now }
    ensures { IsNoted g.now.network g.now.state m.now result }
{
    match m.kind() {
        Kind::Value(_) | Kind::Choice(_) => None,
        Kind::Shape(shape) => noted_before(departures, g, &shape),
    }
}

/// Lets where a train goes on to stand beside its departure that has a number, with the time that is
/// stored for its arrival there.
fn go_on<L: Ledger>(
    departures: &mut DepartureOrder,
    g: &Graph,
    times: &NodeTimes,
    number: u32,
    d: &Departure,
    steps: &mut Steps<L>,
)
    requires there { held departures.old.entries number ≡ Some d.now }
    requires call { IsTrue (has_call g.now.state d.now.key.train d.now.key.label) }
    requires time { HasNextTime g.now.state times.now d.now.key.train d.now.key.label }
    ensures { AreRenewed (with_stored g.now.network g.now.state times.now departures.old.entries
        d.now.key.train d.now.key.label) departures.old departures.new }
{
    let t = d.key.train;
    if let Some(next) = g.trains().next_call(t, d.key.label) {
        let time = times.read(Node::arrival(t, next), steps);
        departures.set_onward(number, d, alighting_stop(g, t, next), time, next);
    }
}

/// Lets what its train does next stand beside each live departure, by the times that are stored.
pub(crate) fn go_on_all<L: Ledger>(
    departures: &mut DepartureOrder,
    g: &Graph,
    times: &NodeTimes,
    steps: &mut Steps<L>,
)
    requires settled { IsSettled g.now.network g.now.state times.now }
    requires departures { departures.old.departures
        ≡ live_departures g.now.network g.now.state }
    ensures order { IsDepartureOrder g.now.network g.now.state departures.new }
    ensures entries { departures.new.entries ≡ departures.old.entries }
    ensures used { departures.new.used ≡ departures.old.used }
    ensures room { KeepsRoom departures.old departures.new }
{
    departures.departures_are_in_order();
    for number in 0..departures.numbers() {
        if let Some(d) = departures.departure(number) {
            go_on(departures, g, times, number, &d, steps);
        }
    }
}
