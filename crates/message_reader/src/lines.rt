//! A line: its text, its value, its type, and what it says.

ghost use Rattle.std.specs.Prelude.{◌≡◌, ◌<◌, ◌^◌, IfOk, length};
ghost use Rattle.std.specs.Result.{result_map_both};
ghost use Rattle.serde_json.specs.View.{view};
ghost use Rattle.message_reader.specs.Errors.{Gives, GivesAs, bad_in};
ghost use Rattle.message_reader.specs.Lines.{utf8_of, json_of, value_of, head_of, message_of, said_by_value, line_of};
ghost use Rattle.message_reader.specs.Messages.{HasFewItems};
ghost use Rattle.message_reader.specs.Wires.{IsLine};

use crate::bad_line::{BadLine, LineError};
use crate::connections::connect;
use crate::events::{cancel, correct, event, withdraw};
use crate::kinds::{Kind, has_version, kind_named};
use crate::line_room::LineRoom;
use crate::members::{HasMembers, Key};
use crate::queries::query;
use crate::routes::{extra, reroute};
use crate::wire::{Connect, Line};
use serde_json::Value;
use std::alloc::Global;
use train_nodes::kinds::ValueKind;

fn utf8(bytes: &[u8]) -> Result<&str, BadLine>
    ensures exact { result_map_both (λ s. s.now) (λ bad. bad) result ≡ utf8_of bytes.now }
    ensures same { IfOk result (λ s. s.now ≡ bytes.now) }
{
    match str::from_utf8(bytes) {
        Ok(text) => Ok(text),
        Err(_) => Err(BadLine::Utf8),
    }
}

fn json(alloc: Global, text: &str) -> Result<Value, LineError>
    requires few { length text.now < 2 ^ 31 }
    ensures exact { GivesAs bad_in view result (json_of text.now) }
    ensures few { IfOk result (λ value. HasFewItems (view value)) }
{
    match Value::from_str(alloc, text) {
        Ok(value) => Ok(value),
        Err(e) if e.is_memory() => Err(LineError::OutOfMemory),
        Err(_) => Err(LineError::Bad(BadLine::Json)),
    }
}

/// The value of a line, or the first fault that holds: `Utf8` or else `Json`. `OutOfMemory` where
/// there is no memory.
#[tactic(auto, unfolding(crate::specs::Lines::value_of))]
pub fn read_value(alloc: Global, bytes: &[u8]) -> Result<Value, LineError>
    requires few { length bytes.now < 2 ^ 31 }
    ensures exact { GivesAs bad_in view result (value_of bytes.now) }
    ensures few { IfOk result (λ value. HasFewItems (view value)) }
{
    let text = utf8(bytes)?;
    json(alloc, text)
}

#[tactic(auto, unfolding(crate::specs::Lines::head_of))]
fn head<M: HasMembers>(object: &M) -> Result<Kind, BadLine>
    ensures { result ≡ head_of (M.stands_for object.now) }
{
    let version = object.number(Key::Version).ok_or(BadLine::Shape)?;
    let name = object.text(Key::Kind).ok_or(BadLine::Shape)?;
    let kind = kind_named(name).ok_or(BadLine::Shape)?;
    if !has_version(kind, version) {
        return Err(BadLine::Shape);
    }
    Ok(kind)
}

#[tactic(auto, unfolding(crate::specs::Lines::message_of))]
fn message<M: HasMembers>(alloc: Global, kind: Kind, object: &M) -> Result<Line, LineError>
    requires few { HasFewItems (M.stands_for object.now) }
    ensures exact { Gives bad_in result (message_of kind (M.stands_for object.now)) }
    ensures kept { IfOk result IsLine }
{
    let wire = match kind {
        Kind::Forecast => event(alloc, ValueKind::Forecast, object)?,
        Kind::Report => event(alloc, ValueKind::Report, object)?,
        Kind::Correct => correct(alloc, object)?,
        Kind::Withdraw => withdraw(alloc, object)?,
        Kind::Cancel => cancel(alloc, object)?,
        Kind::Reroute => reroute(alloc, object)?,
        Kind::Extra => extra(alloc, object)?,
        Kind::Keep => connect(alloc, Connect::Keep, object)?,
        Kind::Drop => connect(alloc, Connect::Drop, object)?,
        Kind::Rule => connect(alloc, Connect::Rule, object)?,
        Kind::Query => return Ok(Line::Query(query(alloc, object)?)),
        Kind::Flush => return Ok(Line::Flush),
    };
    Ok(Line::Message(wire))
}

/// What an object says, as `said`.
#[tactic(auto, unfolding(crate::specs::Lines::said_by_value))]
pub(crate) fn said_by<M: HasMembers>(alloc: Global, object: &M) -> Result<Line, LineError>
    requires few { HasFewItems (M.stands_for object.now) }
    ensures exact { Gives bad_in result (said_by_value (M.stands_for object.now)) }
    ensures kept { IfOk result IsLine }
{
    let kind = head(object)?;
    message(alloc, kind, object)
}

/// What the value of a line says, or the first fault that holds: `Shape`, or in a message `Time`.
/// `OutOfMemory` where there is no memory. No message has more new calls than its value has items.
pub fn said(alloc: Global, value: &Value) -> Result<Line, LineError>
    requires few { HasFewItems (view value.now) }
    ensures exact { Gives bad_in result (said_by_value (view value.now)) }
    ensures kept { IfOk result IsLine }
{
    said_by(alloc, value)
}

/// What a line says, or the first fault that holds: `Utf8`, `Json`, `Shape`, or in a message
/// `Time`. The faults of a query's places, date and time are told by `resolve_query`. `OutOfMemory`
/// may come at any line. No message has more new calls than its line has bytes.
#[tactic(auto, unfolding(crate::specs::Lines::line_of))]
pub fn read_line(alloc: Global, room: &mut LineRoom, bytes: &[u8]) -> Result<Line, LineError>
    requires few { length bytes.now < 2 ^ 31 }
    ensures exact { Gives bad_in result (line_of bytes.now) }
    ensures kept { IfOk result IsLine }
{
    let text = utf8(bytes)?;
    if let Some(line) = room.read_flat_line(alloc, text) {
        return line;
    }
    let value = json(alloc, text)?;
    said(alloc, &value)
}
