//! The events of a train, one after another.

ghost use Rattle.std.specs.Prelude.{◌≡◌, [], map};
ghost use Rattle.std.specs.Iterator.{YieldsFirst, item_count};
ghost use Rattle.delay_model.specs.Events.{event_by, events_at};
ghost use Rattle.call_lines.specs.Calls.{values_of};
ghost use Rattle.call_lines.specs.Linked.{call_of, walk};

use crate::calls::values;
use crate::stored_call::StoredCall;
use delay_model::state::{Call, Event};
use mt_base::keys::Node;
use mt_base::numbers::{RouteNo, TrainNo};
use std::marker::Model;

/// The arrival or the departure (dep true) of a call of the train that has this number and route.
pub fn event_of(train: TrainNo, route: RouteNo, call: &Call, dep: bool) -> Event
    ensures { result ≡ event_by train route call.now.label call.now.stop dep
        (values_of dep call.now) }
{
    let values = values(call, dep);
    let node = Node {
        train,
        label: call.label,
        dep,
    };
    Event {
        key: node.key(values.scheduled),
        stop: call.stop,
        route,
        live: values.live,
        forecast: values.forecast,
        report: values.report,
    }
}

/// The arrival or the departure (dep true) of a stored call of the train that has this number and
/// route.
#[inline(always)]
pub fn stored_event(train: TrainNo, route: RouteNo, call: &StoredCall, dep: bool) -> Event
    ensures { result ≡ event_by train route call.now.label call.now.stop dep
        (values_of dep (call_of call.now)) }
{
    let values = call.values(dep);
    let node = Node {
        train,
        label: call.label(),
        dep,
    };
    Event {
        key: node.key(values.scheduled),
        stop: call.stop(),
        route,
        live: values.live,
        forecast: values.forecast,
        report: values.report,
    }
}

/// The events of a train that are still to come, live or not, in the train's order. It is seen as
/// the list of them.
#[derive(Drop)]
pub struct TrainEvents<'a> {
    train: TrainNo,
    route: RouteNo,
    /// The calls of all trains.
    calls: &'a [StoredCall],
    /// The slot of the call of the next event.
    slot: u32,
    /// How many calls are left, from that one on.
    left: u32,
    /// Whether the next event is the departure of that call.
    departs: bool,
}

impl<'a> Model for TrainEvents<'a> {
    ghost use Rattle.std.specs.Prelude.{List, drop, map, if◌then◌else◌};
    ghost use Rattle.delay_model.specs.declared.state.Event.{Event};
    ghost use Rattle.delay_model.specs.Events.{events_at};
    ghost use Rattle.call_lines.specs.Linked.{call_of, walk};

    ghost Value = { List Event };

    ghost view = { λ s. drop (if s.departs then 1 else 0)
        (events_at s.train s.route (map call_of (walk s.calls.now s.left s.slot))) };
}

impl<'a> TrainEvents<'a> {
    /// The events of so many calls, linked from the one in a slot on, of the train that has this
    /// number and route.
    pub fn new(
        train: TrainNo,
        route: RouteNo,
        calls: &'a [StoredCall],
        slot: u32,
        left: u32,
    ) -> TrainEvents<'a>
        ensures { result ≡ events_at train route (map call_of (walk calls.now left slot)) }
    {
        TrainEvents {
            train,
            route,
            calls,
            slot,
            left,
            departs: false,
        }
    }

    /// No events.
    pub fn none(train: TrainNo, calls: &'a [StoredCall]) -> TrainEvents<'a>
        ensures { result ≡ [] }
    {
        TrainEvents {
            train,
            route: RouteNo::new(0),
            calls,
            slot: 0,
            left: 0,
            departs: false,
        }
    }
}

impl<'a> Iterator for TrainEvents<'a> {
    type Item = Event;

    ghost next_gives = { YieldsFirst (λ s. s) };

    ghost remaining = { item_count (λ s. s) };

    fn next(&mut self) -> Option<Event> {
        if self.left == 0 {
            return None;
        }
        let call = self.calls.get(self.slot as usize)?;
        let event = stored_event(self.train, self.route, call, self.departs);
        if self.departs {
            self.departs = false;
            self.slot = call.after();
            self.left -= 1;
            return Some(event);
        }
        self.departs = true;
        Some(event)
    }
}
