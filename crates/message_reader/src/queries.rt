//! Queries.

ghost use Rattle.std.specs.Prelude.{◌≡◌, IfOk, IfSome};
ghost use Rattle.message_reader.specs.Errors.{Gives, bad_in};
ghost use Rattle.message_reader.specs.Queries.{wire_time_of, query_of};
ghost use Rattle.message_reader.specs.Wires.{IsWireTime, IsWireQuery};

use crate::bad_line::{BadLine, LineError};
use crate::members::{HasMembers, Key};
use crate::wire::{WireQuery, WireTime};
use mt_base::names::Name;
use mt_base::texts::{date, seconds};
use std::alloc::Global;

/// The service day and the time of day of these texts, by names. None where the one is no civil date, or the other
/// is not H:MM:SS or HH:MM:SS.
#[tactic(auto, unfolding(crate::specs::Queries::wire_time_of))]
pub fn wire_time(day: &str, time: &str) -> Option<WireTime>
    ensures exact { result ≡ wire_time_of day.now time.now }
    ensures kept { IfSome result IsWireTime }
{
    let date = date(day.as_bytes())?;
    let secs = seconds(time.as_bytes())?;
    Some(WireTime { date, secs })
}

/// A query.
#[tactic(auto, unfolding(crate::specs::Queries::query_of))]
pub(crate) fn query<M: HasMembers>(alloc: Global, object: &M) -> Result<WireQuery, LineError>
    ensures exact { Gives bad_in result (query_of (M.stands_for object.now)) }
    ensures kept { IfOk result IsWireQuery }
{
    let client = object.text(Key::Client).ok_or(BadLine::Shape)?;
    let from = object.text(Key::From).ok_or(BadLine::Shape)?;
    let to = object.text(Key::To).ok_or(BadLine::Shape)?;
    let day = object.text(Key::Date).ok_or(BadLine::Shape)?;
    let time = object.text(Key::Time).ok_or(BadLine::Shape)?;
    Ok(WireQuery {
        client: Name::build(alloc, client)?,
        from: Name::build(alloc, from)?,
        to: Name::build(alloc, to)?,
        time: wire_time(day, time),
    })
}
