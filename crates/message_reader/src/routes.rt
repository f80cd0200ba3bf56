//! Messages with a list of calls.

ghost use Rattle.std.specs.Prelude.{◌≡◌, IfOk, length};
ghost use Rattle.serde_json.specs.View.{items_view};
ghost use Rattle.message_reader.specs.Errors.{Gives, bad_in};
ghost use Rattle.message_reader.specs.Messages.{reroute_of, extra_of, count, HasFewItems};
ghost use Rattle.message_reader.specs.Wires.{IsWire};

use crate::bad_line::{BadLine, LineError};
use crate::calls::{check_calls, read_calls};
use crate::members::{HasMembers, Key, NestedKey, label};
use crate::wire::Wire;
use mt_base::names::Name;
use mt_base::texts::date;
use serde_json::Value;
use std::alloc::Global;

/// A train that takes another way between two of its calls. `Bad` has the first fault: `Shape` or
/// else `Time`. `OutOfMemory` where there is no memory.
#[tactic(auto, unfolding(crate::specs::Messages::reroute_of))]
pub fn reroute<M: HasMembers>(alloc: Global, object: &M) -> Result<Wire, LineError>
    requires few { HasFewItems (M.stands_for object.now) }
    ensures exact { Gives bad_in result (reroute_of (M.stands_for object.now)) }
    ensures kept { IfOk result IsWire }
{
    let trip = object.text(Key::Trip).ok_or(BadLine::Shape)?;
    let day = object.text(Key::Date).ok_or(BadLine::Shape)?;
    let from = label(object, Key::From).ok_or(BadLine::Shape)?;
    let to = label(object, Key::To).ok_or(BadLine::Shape)?;
    let items = object.items(NestedKey::Via).ok_or(BadLine::Shape)?;
    check_calls(items)?;
    let date = date(day.as_bytes()).ok_or(BadLine::Time)?;
    let via = read_calls(alloc, items)?;
    Ok(Wire::Reroute {
        trip: Name::build(alloc, trip)?,
        date,
        from,
        to,
        via,
    })
}

/// How many values there are.
fn count(values: &[Value]) -> usize
    ensures counted { result ≡ count (items_view values.now) }
    ensures length { result ≡ length values.now }
{
    values.len()
}

/// A train that is not in the schedule. `Bad` has the first fault: `Shape` or else `Time`.
/// `OutOfMemory` where there is no memory.
#[tactic(auto, unfolding(crate::specs::Messages::extra_of))]
pub fn extra<M: HasMembers>(alloc: Global, object: &M) -> Result<Wire, LineError>
    requires few { HasFewItems (M.stands_for object.now) }
    ensures exact { Gives bad_in result (extra_of (M.stands_for object.now)) }
    ensures kept { IfOk result IsWire }
{
    let trip = object.text(Key::Trip).ok_or(BadLine::Shape)?;
    let day = object.text(Key::Date).ok_or(BadLine::Shape)?;
    let route = object.text(Key::Route).ok_or(BadLine::Shape)?;
    let items = object.items(NestedKey::Calls).ok_or(BadLine::Shape)?;
    check_calls(items)?;
    if count(items) < 2 {
        return Err(LineError::Bad(BadLine::Shape));
    }
    let date = date(day.as_bytes()).ok_or(BadLine::Time)?;
    let calls = read_calls(alloc, items)?;
    Ok(Wire::Extra {
        trip: Name::build(alloc, trip)?,
        date,
        route: Name::build(alloc, route)?,
        calls,
    })
}
