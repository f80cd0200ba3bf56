//! The events of a state as a list.

ghost use Rattle.std.specs.Prelude.{◌≡◌, ◌<◌, ◌^◌, ◌++◌, length, IfOk, OnOk};
ghost use Rattle.delay_model.specs.Events.{event_by, events_at, events_of, events_from};

use crate::state::{Call, Event, EventValues, Train};
use mt_base::keys::Key;
use mt_base::memory::OutOfMemory;
use mt_base::numbers::{RouteNo, TrainNo};
use std::alloc::Global;

fn event(train: TrainNo, route: RouteNo, call: &Call, dep: bool, values: &EventValues) -> Event
    ensures { result ≡ event_by train route call.now.label call.now.stop dep values.now }
{
    Event {
        key: Key {
            time: values.scheduled,
            train,
            label: call.label,
            dep,
        },
        stop: call.stop,
        route,
        live: values.live,
        forecast: values.forecast,
        report: values.report,
    }
}

fn push_events(
    all: &mut Vec<Event>,
    train: TrainNo,
    route: RouteNo,
    calls: &[Call],
) -> Result<(), OutOfMemory>
    ensures { OnOk result (all.new.items ≡ all.old.items ++ events_at train route calls.now) }
{
    for call in calls {
        all.push(event(train, route, call, false, &call.arrival))?;
        all.push(event(train, route, call, true, &call.departure))?;
    }
    Ok(())
}

/// The events of one train, in its order. `OutOfMemory` where there is no memory.
pub fn list_train_events(
    alloc: Global,
    number: TrainNo,
    train: &Train,
) -> Result<Vec<Event>, OutOfMemory>
    ensures { IfOk result (λ all. all.items ≡ events_of number train.now) }
{
    let mut all = Vec::new(alloc);
    push_events(&mut all, number, train.route, train.calls.as_slice())?;
    Ok(all)
}

/// The events of all trains, in their order. `OutOfMemory` where there is no memory.
pub fn list_events(alloc: Global, trains: &[Train]) -> Result<Vec<Event>, OutOfMemory>
    requires { length trains.now < 2 ^ 32 }
    ensures { IfOk result (λ all. all.items ≡ events_from 0 trains.now) }
{
    let mut all = Vec::new(alloc);
    for (number, train) in trains.iter().enumerate() {
        let number = TrainNo::new(number as u32);
        push_events(&mut all, number, train.route, train.calls.as_slice())?;
    }
    Ok(all)
}
