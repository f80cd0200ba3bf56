//! The numbers for which single names stand.

ghost use Rattle.std.specs.Prelude.{◌≡◌, ◌<◌, ◌≤◌, ◌+◌, ◌^◌, All, IfOk, IfSome, length, option_map};
ghost use Rattle.delay_model.specs.Messages.{IsSmallCall};
ghost use Rattle.schedule_build.specs.Directory.{base_of};
ghost use Rattle.message_reader.specs.Resolved.{train_on, event_on, stop_named, node_named, new_call, new_calls};
ghost use Rattle.message_reader.specs.Errors.{Gives, refusal_in};
ghost use Rattle.message_reader.specs.Wires.{IsWireCall};

use crate::resolve_error::ResolveError;
use crate::wire::{WireCall, WireRef};
use delay_model::messages::Refusal;
use mt_base::keys::Node;
use mt_base::names::Name;
use mt_base::new_calls::NewCall;
use mt_base::numbers::{Day, Label, StopNo, Time, TrainNo};
use mt_base::rows::Rows;
use schedule_build::Directory;
use std::alloc::Global;

/// A train and its service day.
#[derive(Clone, Copy)]
pub(crate) struct TrainOnDay {
    pub train: TrainNo,
    pub day: Day,
}

impl TrainOnDay {
    /// The arrival or the departure of a call of the train.
    pub fn event(&self, call: Label, dep: bool) -> Node
        ensures { result ≡ event_on self.now call dep }
    {
        Node {
            train: self.train,
            label: call,
            dep,
        }
    }
}

/// The train of a trip on a date.
#[tactic(auto, unfolding(crate::specs::Resolved::train_on))]
pub(crate) fn train_on(dir: &Directory, trip: &Name, date: u32) -> Result<TrainOnDay, Refusal>
    ensures exact { result ≡ train_on dir.now trip.now date }
    ensures loaded { IfOk result (λ found. found.day < 31) }
{
    let day = dir.day(date).ok_or(Refusal::Unknown)?;
    let train = dir.train(trip.text(), day).ok_or(Refusal::Unknown)?;
    Ok(TrainOnDay { train, day })
}

/// The time so many seconds after the base of a service day, in seconds from the base of day 0.
pub fn time_on(dir: &Directory, day: Day, secs: u32) -> Time
    requires within { secs ≤ 359999 }
    ensures time { result ≡ base_of dir.now day + secs }
    ensures small { result < 2 ^ 24 }
{
    Time::new(dir.base(day).seconds() + secs)
}

/// The time so many seconds after the base of a service day, where so many are given.
pub(crate) fn time_if_any_on(dir: &Directory, day: Day, secs: Option<u32>) -> Option<Time>
    requires within { IfSome secs (λ s. s ≤ 359999) }
    ensures exact { result ≡ option_map (λ s. base_of dir.now day + s) secs }
    ensures small { IfSome result (λ t. t < 2 ^ 24) }
{
    match secs {
        Some(secs) => Some(time_on(dir, day, secs)),
        None => None,
    }
}

/// The arrival or the departure of a call. `Unknown` where its trip or its date is not known.
#[tactic(auto, unfolding(crate::specs::Resolved::node_named))]
pub fn node(dir: &Directory, dep: bool, call: &WireRef) -> Result<Node, Refusal>
    ensures exact { result ≡ node_named dir.now dep call.now }
    ensures kind { IfOk result (λ n. n.dep ≡ dep) }
{
    let found = train_on(dir, &call.trip, call.date)?;
    Ok(found.event(call.call, dep))
}

/// The stop with this id. None where no place has it, and where the place is no stop.
#[tactic(auto, unfolding(crate::specs::Resolved::stop_named))]
pub(crate) fn stop(dir: &Directory, id: &str) -> Option<StopNo>
    ensures { result ≡ stop_named dir.now id.now }
{
    let place = dir.stop(id)?;
    if dir.stop_kind(place)?.is_platform() {
        Some(place)
    } else {
        None
    }
}

/// A new call of a train on a service day.
#[tactic(auto, unfolding(crate::specs::Resolved::new_call))]
fn new_call(dir: &Directory, day: Day, call: &WireCall) -> Result<NewCall, Refusal>
    requires within { IsWireCall call.now }
    ensures exact { result ≡ new_call dir.now day call.now }
    ensures small { IfOk result IsSmallCall }
{
    let stop = stop(dir, call.stop.text()).ok_or(Refusal::Unknown)?;
    Ok(NewCall {
        stop,
        arr: time_on(dir, day, call.arr),
        dep: time_on(dir, day, call.dep),
    })
}

/// New calls of a train on a service day.
pub(crate) fn new_calls(
    alloc: Global,
    dir: &Directory,
    day: Day,
    wire_calls: &[WireCall],
) -> Result<Rows<NewCall>, ResolveError>
    requires within { All IsWireCall wire_calls.now }
    requires few { length wire_calls.now < 2 ^ 31 }
    ensures exact { Gives refusal_in result (new_calls dir.now day wire_calls.now) }
    ensures small { IfOk result (λ calls. All IsSmallCall calls) }
    ensures all { IfOk result (λ calls. length calls ≡ length wire_calls.now) }
    ensures few { IfOk result (λ calls. length calls < 2 ^ 31) }
{
    let mut calls = Vec::new(alloc);
    for wire_call in wire_calls {
        let call = new_call(dir, day, wire_call)?;
        calls.push(call)?;
    }
    Ok(Rows::build(calls))
}
