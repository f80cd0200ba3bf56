//! A line for `desk`.

ghost use Rattle.std.specs.Prelude.{◌≡◌, ◌<◌, ◌^◌, IfOk, length};
ghost use Rattle.serde_json.specs.View.{view};
ghost use Rattle.message_reader.specs.Errors.{Gives, bad_in};
ghost use Rattle.message_reader.specs.Messages.{HasFewItems};
ghost use Rattle.desk_lines.specs.DeskLines.{departures_said, desk_line_of, desk_said, event_said, has_type, has_version, line_said, IsDeskLine};

use crate::asked::{WireDepartures, WireEvent, departures_in, event_in};
use message_reader::{BadLine, Line, LineError, number_at, read_value, said, text_at};
use serde_json::Value;
use std::alloc::Global;

/// What a line says to `desk`.
#[derive(Drop)]
pub enum DeskLine {
    /// What it says to every command.
    Line(Line),
    /// Asks for the next departures of a station.
    Departures(WireDepartures),
    /// Asks why an event is when it is.
    Why(WireEvent),
}

/// Whether the type of an object is this one.
fn has_type(value: &Value, name: &str) -> bool
    ensures { result ≡ has_type name.now (view value.now) }
{
    match text_at(value, "type") {
        Some(text) => text == name,
        None => false,
    }
}

/// Whether the version of an object is 1 or 2.
fn has_version(value: &Value) -> bool
    ensures { result ≡ has_version (view value.now) }
{
    match number_at(value, "v") {
        Some(version) => version == 1 || version == 2,
        None => false,
    }
}

#[tactic(auto, unfolding(crate::specs::DeskLines::departures_said))]
fn departures_said(alloc: Global, value: &Value) -> Result<DeskLine, LineError>
    ensures exact { Gives bad_in result (departures_said (view value.now)) }
    ensures kept { IfOk result IsDeskLine }
{
    if !has_version(value) {
        return Err(LineError::Bad(BadLine::Shape));
    }
    let asked = departures_in(alloc, value)?;
    Ok(DeskLine::Departures(asked))
}

#[tactic(auto, unfolding(crate::specs::DeskLines::event_said))]
fn event_said(alloc: Global, value: &Value) -> Result<DeskLine, LineError>
    ensures exact { Gives bad_in result (event_said (view value.now)) }
    ensures kept { IfOk result IsDeskLine }
{
    if !has_version(value) {
        return Err(LineError::Bad(BadLine::Shape));
    }
    let asked = event_in(alloc, value)?;
    Ok(DeskLine::Why(asked))
}

/// What an object says that is no question of `desk`.
#[tactic(auto, unfolding(crate::specs::DeskLines::line_said))]
fn line_said(alloc: Global, value: &Value) -> Result<DeskLine, LineError>
    requires few { HasFewItems (view value.now) }
    ensures exact { Gives bad_in result (line_said (view value.now)) }
    ensures kept { IfOk result IsDeskLine }
{
    let line = said(alloc, value)?;
    Ok(DeskLine::Line(line))
}

#[tactic(auto, unfolding(crate::specs::DeskLines::desk_said))]
fn desk_said(alloc: Global, value: &Value) -> Result<DeskLine, LineError>
    requires few { HasFewItems (view value.now) }
    ensures exact { Gives bad_in result (desk_said (view value.now)) }
    ensures kept { IfOk result IsDeskLine }
{
    if has_type(value, "departures") {
        departures_said(alloc, value)
    } else if has_type(value, "why") {
        event_said(alloc, value)
    } else {
        line_said(alloc, value)
    }
}

/// What a line says to `desk`, or the first fault that holds: that of `read_line`, or of a question
/// `Shape`, or in one about an event `Time`. The faults of a station, its date and its time are told
/// by `resolve_departures`. `OutOfMemory` may come at any line.
#[tactic(auto, unfolding(crate::specs::DeskLines::desk_line_of))]
pub fn read_desk_line(alloc: Global, bytes: &[u8]) -> Result<DeskLine, LineError>
    requires few { length bytes.now < 2 ^ 31 }
    ensures exact { Gives bad_in result (desk_line_of bytes.now) }
    ensures kept { IfOk result IsDeskLine }
{
    let value = read_value(alloc, bytes)?;
    desk_said(alloc, &value)
}
