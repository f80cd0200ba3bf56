//! Messages about one train's events.

ghost use Rattle.std.specs.Prelude.{◌≡◌, ◌≤◌, IfOk, IfSome, option_map};
ghost use Rattle.std.specs.Result.{result_map_both};
ghost use Rattle.message_reader.specs.Errors.{Gives, bad_in};
ghost use Rattle.message_reader.specs.Messages.{named_event, event_of, seconds_if_any, correct_of, withdraw_of, cancel_of};
ghost use Rattle.message_reader.specs.Wires.{IsWire};

use crate::bad_line::{BadLine, LineError};
use crate::fields::departure;
use crate::members::{HasMembers, Key, label};
use crate::wire::Wire;
use mt_base::names::Name;
use mt_base::numbers::Label;
use mt_base::texts::{date, seconds};
use std::alloc::Global;
use train_nodes::kinds::ValueKind;

/// An event as an object names it. Its call's label is the bare number, since a struct that holds
/// texts of others cannot hold a number with a model of its own where it is handed on.
#[derive(Clone, Copy)]
struct NamedEvent<'v> {
    trip: &'v str,
    date: &'v str,
    call: u32,
    dep: bool,
}

/// The event that an object names. `Shape` where a member of it is missing or of another kind.
#[tactic(auto, unfolding(crate::specs::Messages::named_event))]
fn event_at<'v, M: HasMembers>(object: &'v M) -> Result<NamedEvent<'v>, BadLine>
    ensures { result_map_both
        (λ r. record { trip = r.trip.now; date = r.date.now; call = r.call; dep = r.dep })
        (λ bad. bad) result
        ≡ named_event (M.stands_for object.now) }
{
    let trip = object.text(Key::Trip).ok_or(BadLine::Shape)?;
    let date = object.text(Key::Date).ok_or(BadLine::Shape)?;
    let call = label(object, Key::Call).ok_or(BadLine::Shape)?;
    let event = object.text(Key::Event).ok_or(BadLine::Shape)?;
    let dep = departure(event).ok_or(BadLine::Shape)?;
    Ok(NamedEvent {
        trip,
        date,
        call: call.get(),
        dep,
    })
}

/// A report or a forecast. `Bad` has the first fault: `Shape` or else `Time`. `OutOfMemory` where
/// there is no memory.
#[tactic(auto, unfolding(crate::specs::Messages::event_of))]
pub fn event<M: HasMembers>(alloc: Global, kind: ValueKind, object: &M) -> Result<Wire, LineError>
    ensures exact { Gives bad_in result (event_of kind (M.stands_for object.now)) }
    ensures kept { IfOk result IsWire }
{
    let named = event_at(object)?;
    let time = object.text(Key::Time).ok_or(BadLine::Shape)?;
    let date = date(named.date.as_bytes()).ok_or(BadLine::Time)?;
    let secs = seconds(time.as_bytes()).ok_or(BadLine::Time)?;
    Ok(Wire::Event {
        kind,
        trip: Name::build(alloc, named.trip)?,
        date,
        call: Label::new(named.call),
        dep: named.dep,
        secs,
    })
}

/// The time of a text: `Some(None)` where there is no text. None where it is not H:MM:SS or
/// HH:MM:SS.
fn seconds_if_any(text: Option<&str>) -> Option<Option<u32>>
    ensures exact { result ≡ seconds_if_any (option_map (λ s. s.now) text.entry) }
    ensures kept { IfSome result (λ secs. IfSome secs (λ s. s ≤ 359999)) }
{
    match text {
        Some(text) => Some(Some(seconds(text.as_bytes())?)),
        None => Some(None),
    }
}

/// A corrected report. `Bad` has the first fault: `Shape` or else `Time`. `OutOfMemory` where there
/// is no memory.
#[tactic(auto, unfolding(crate::specs::Messages::correct_of))]
pub fn correct<M: HasMembers>(alloc: Global, object: &M) -> Result<Wire, LineError>
    ensures exact { Gives bad_in result (correct_of (M.stands_for object.now)) }
    ensures kept { IfOk result IsWire }
{
    let named = event_at(object)?;
    let time = object.text_or_null(Key::Time).ok_or(BadLine::Shape)?;
    let date = date(named.date.as_bytes()).ok_or(BadLine::Time)?;
    let secs = seconds_if_any(time).ok_or(BadLine::Time)?;
    Ok(Wire::Correct {
        trip: Name::build(alloc, named.trip)?,
        date,
        call: Label::new(named.call),
        dep: named.dep,
        secs,
    })
}

/// A withdrawn forecast. `Bad` has the first fault: `Shape` or else `Time`. `OutOfMemory` where
/// there is no memory.
#[tactic(auto, unfolding(crate::specs::Messages::withdraw_of))]
pub fn withdraw<M: HasMembers>(alloc: Global, object: &M) -> Result<Wire, LineError>
    ensures exact { Gives bad_in result (withdraw_of (M.stands_for object.now)) }
    ensures kept { IfOk result IsWire }
{
    let named = event_at(object)?;
    let date = date(named.date.as_bytes()).ok_or(BadLine::Time)?;
    Ok(Wire::Withdraw {
        trip: Name::build(alloc, named.trip)?,
        date,
        call: Label::new(named.call),
        dep: named.dep,
    })
}

/// A cancelled stretch. `Bad` has the first fault: `Shape` or else `Time`. `OutOfMemory` where
/// there is no memory.
#[tactic(auto, unfolding(crate::specs::Messages::cancel_of))]
pub fn cancel<M: HasMembers>(alloc: Global, object: &M) -> Result<Wire, LineError>
    ensures exact { Gives bad_in result (cancel_of (M.stands_for object.now)) }
    ensures kept { IfOk result IsWire }
{
    let trip = object.text(Key::Trip).ok_or(BadLine::Shape)?;
    let day = object.text(Key::Date).ok_or(BadLine::Shape)?;
    let from = label(object, Key::From).ok_or(BadLine::Shape)?;
    let to = label(object, Key::To).ok_or(BadLine::Shape)?;
    let date = date(day.as_bytes()).ok_or(BadLine::Time)?;
    Ok(Wire::Cancel {
        trip: Name::build(alloc, trip)?,
        date,
        from,
        to,
    })
}
