//! Messages by name as messages by number.

ghost use Rattle.std.specs.Prelude.{◌≡◌, ◌<◌, ◌≤◌, ◌^◌, All, IfOk, IfSome, length};
ghost use Rattle.delay_model.specs.Messages.{IsWellFormed};
ghost use Rattle.message_reader.specs.Resolved.{event_resolved, correct_resolved, withdraw_resolved, cancel_resolved, reroute_resolved, extra_resolved, connect_resolved, resolved};
ghost use Rattle.message_reader.specs.Errors.{Gives, refusal_in};
ghost use Rattle.message_reader.specs.Wires.{IsWire, IsWireCall};
ghost use Rattle.train_nodes.specs.Kinds.{HasFewCalls};

use crate::numbers::{new_calls, node, time_if_any_on, time_on, train_on};
use crate::resolve_error::ResolveError;
use crate::wire::{Connect, Wire, WireCall, WireRef};
use delay_model::messages::{Message, Refusal};
use mt_base::names::Name;
use mt_base::numbers::{Label, TrainNo};
use schedule_build::Directory;
use std::alloc::Global;
use train_nodes::Msg;
use train_nodes::kinds::ValueKind;

/// A report or a forecast.
#[tactic(auto, unfolding(crate::specs::Resolved::event_resolved))]
fn event(
    dir: &Directory,
    kind: ValueKind,
    trip: &Name,
    date: u32,
    call: Label,
    dep: bool,
    secs: u32,
) -> Result<Message, Refusal>
    requires { secs ≤ 359999 }
    ensures exact { result ≡ event_resolved dir.now kind trip.now date call dep secs }
    ensures kept { IfOk result IsWellFormed }
    ensures few { IfOk result HasFewCalls }
{
    let found = train_on(dir, trip, date)?;
    let node = found.event(call, dep);
    let time = time_on(dir, found.day, secs);
    Ok(match kind {
        ValueKind::Report => Message::Report { node, time },
        ValueKind::Forecast => Message::Forecast { node, time },
    })
}

/// A corrected report.
#[tactic(auto, unfolding(crate::specs::Resolved::correct_resolved))]
fn correct(
    dir: &Directory,
    trip: &Name,
    date: u32,
    call: Label,
    dep: bool,
    secs: Option<u32>,
) -> Result<Message, Refusal>
    requires { IfSome secs (λ s. s ≤ 359999) }
    ensures exact { result ≡ correct_resolved dir.now trip.now date call dep secs }
    ensures kept { IfOk result IsWellFormed }
    ensures few { IfOk result HasFewCalls }
{
    let found = train_on(dir, trip, date)?;
    Ok(Message::Correct {
        node: found.event(call, dep),
        time: time_if_any_on(dir, found.day, secs),
    })
}

/// A withdrawn forecast.
#[tactic(auto, unfolding(crate::specs::Resolved::withdraw_resolved))]
fn withdraw(
    dir: &Directory,
    trip: &Name,
    date: u32,
    call: Label,
    dep: bool,
) -> Result<Message, Refusal>
    ensures exact { result ≡ withdraw_resolved dir.now trip.now date call dep }
    ensures kept { IfOk result IsWellFormed }
    ensures few { IfOk result HasFewCalls }
{
    let found = train_on(dir, trip, date)?;
    Ok(Message::Withdraw {
        node: found.event(call, dep),
    })
}

/// A cancelled stretch.
#[tactic(auto, unfolding(crate::specs::Resolved::cancel_resolved))]
fn cancel(
    dir: &Directory,
    trip: &Name,
    date: u32,
    from: Label,
    to: Label,
) -> Result<Message, Refusal>
    ensures exact { result ≡ cancel_resolved dir.now trip.now date from to }
    ensures kept { IfOk result IsWellFormed }
    ensures few { IfOk result HasFewCalls }
{
    let found = train_on(dir, trip, date)?;
    Ok(Message::Cancel {
        train: found.train,
        from,
        to,
    })
}

/// A rerouting.
#[tactic(auto, unfolding(crate::specs::Resolved::reroute_resolved))]
fn reroute(
    alloc: Global,
    dir: &Directory,
    trip: &Name,
    date: u32,
    from: Label,
    to: Label,
    via: &[WireCall],
) -> Result<Message, ResolveError>
    requires within { All IsWireCall via.now }
    requires few { length via.now < 2 ^ 31 }
    ensures exact { Gives refusal_in result
        (reroute_resolved dir.now trip.now date from to via.now) }
    ensures kept { IfOk result IsWellFormed }
    ensures few { IfOk result HasFewCalls }
{
    let found = train_on(dir, trip, date)?;
    let via = new_calls(alloc, dir, found.day, via)?;
    Ok(Message::Reroute {
        train: found.train,
        from,
        to,
        via,
    })
}

/// An extra train.
#[tactic(auto, unfolding(crate::specs::Resolved::extra_resolved))]
fn extra(
    alloc: Global,
    dir: &Directory,
    trip: &Name,
    date: u32,
    route: &Name,
    calls: &[WireCall],
) -> Result<Message, ResolveError>
    requires within { All IsWireCall calls.now }
    requires two { 2 ≤ length calls.now }
    requires few { length calls.now < 2 ^ 31 }
    ensures exact { Gives refusal_in result
        (extra_resolved dir.now trip.now date route.now calls.now) }
    ensures kept { IfOk result IsWellFormed }
    ensures few { IfOk result HasFewCalls }
{
    let day = dir.day(date).ok_or(Refusal::Unknown)?;
    let route = dir.route(route.text()).ok_or(Refusal::Unknown)?;
    let calls = new_calls(alloc, dir, day, calls)?;
    if dir.train(trip.text(), day).is_some() {
        return Err(ResolveError::Refused(Refusal::Known));
    }
    Ok(Message::Extra {
        train: TrainNo::new(dir.trains()),
        day,
        route,
        calls,
    })
}

/// A connection.
#[tactic(auto, unfolding(crate::specs::Resolved::connect_resolved))]
fn connect(
    dir: &Directory,
    kind: Connect,
    feeder: &WireRef,
    train: &WireRef,
) -> Result<Message, Refusal>
    ensures exact { result ≡ connect_resolved dir.now kind feeder.now train.now }
    ensures kept { IfOk result IsWellFormed }
    ensures few { IfOk result HasFewCalls }
{
    let feeder = node(dir, false, feeder)?;
    let train = node(dir, true, train)?;
    Ok(match kind {
        Connect::Keep => Message::Keep { feeder, train },
        Connect::Drop => Message::Drop { feeder, train },
        Connect::Rule => Message::Rule { feeder, train },
    })
}

/// The message by number.
#[tactic(auto, unfolding(crate::specs::Resolved::resolved))]
fn message(alloc: Global, wire: &Wire, dir: &Directory) -> Result<Message, ResolveError>
    requires { IsWire wire.now }
    ensures exact { Gives refusal_in result (resolved dir.now wire.now) }
    ensures kept { IfOk result IsWellFormed }
    ensures few { IfOk result HasFewCalls }
{
    match wire {
        Wire::Event {
            kind,
            trip,
            date,
            call,
            dep,
            secs,
        } => Ok(event(dir, *kind, trip, *date, *call, *dep, *secs)?),
        Wire::Correct {
            trip,
            date,
            call,
            dep,
            secs,
        } => Ok(correct(dir, trip, *date, *call, *dep, *secs)?),
        Wire::Withdraw {
            trip,
            date,
            call,
            dep,
        } => Ok(withdraw(dir, trip, *date, *call, *dep)?),
        Wire::Cancel {
            trip,
            date,
            from,
            to,
        } => Ok(cancel(dir, trip, *date, *from, *to)?),
        Wire::Reroute {
            trip,
            date,
            from,
            to,
            via,
        } => reroute(alloc, dir, trip, *date, *from, *to, via.as_slice()),
        Wire::Extra {
            trip,
            date,
            route,
            calls,
        } => extra(alloc, dir, trip, *date, route, calls.as_slice()),
        Wire::Connect {
            kind,
            feeder,
            train,
        } => Ok(connect(dir, *kind, feeder, train)?),
    }
}

/// The message with the numbers for which its names stand. It is refused as `Unknown` exactly where
/// a train of it, other than the new train of an extra, or a stop, a route or a service day of it
/// is not there; and as `Known` exactly where an extra's train is there already and the message is
/// not `Unknown`. Times are in seconds from the base of day 0. `OutOfMemory` where there is no
/// memory for new calls.
pub fn resolve(alloc: Global, wire: &Wire, dir: &Directory) -> Result<Msg, ResolveError>
    requires kept { IsWire wire.now }
    ensures { Gives refusal_in result (resolved dir.now wire.now) }
{
    let message = message(alloc, wire, dir)?;
    Ok(Msg::new(message))
}
