//! Questions about departures and about the time of an event, by names.

ghost use Rattle.std.specs.Prelude.{◌≡◌, IfOk};
ghost use Rattle.serde_json.specs.View.{view};
ghost use Rattle.message_reader.specs.Errors.{Gives, bad_in};
ghost use Rattle.desk_lines.specs.Questions.{departures_of, event_of, rows_in, AreWireDepartures};

use message_reader::{
    BadLine, LineError, WireRef, WireTime, departure, label_at, number_at, text_at, wire_time,
};
use mt_base::names::Name;
use mt_base::texts::date;
use serde_json::Value;
use std::alloc::Global;

/// Asks for the next departures of a station, by names.
#[derive(Drop)]
pub struct WireDepartures {
    /// The id of a stop of the station, or of the station.
    pub stop: Name,

    /// From when on. None where the date is no civil date, or the time of day is not H:MM:SS or
    /// HH:MM:SS.
    pub time: Option<WireTime>,

    /// How many departures at most, from 1 to 100.
    pub rows: u32,
}

/// Asks why an event is when it is, by names.
#[derive(Drop)]
pub struct WireEvent {
    /// The call of the train.
    pub call: WireRef,

    /// Whether it is the departure, and not the arrival.
    pub dep: bool,
}

/// A number of rows. None where it is 0 or over 100.
fn rows_in(number: u64) -> Option<u32>
    ensures { result ≡ rows_in number }
{
    if number >= 1 && number <= 100 {
        Some(number as u32)
    } else {
        None
    }
}

/// The question for departures of an object of this type. `Shape` where a member that it needs is
/// missing or of another kind.
#[tactic(auto, unfolding(crate::specs::Questions::departures_of))]
pub(crate) fn departures_in(alloc: Global, value: &Value) -> Result<WireDepartures, LineError>
    ensures exact { Gives bad_in result (departures_of (view value.now)) }
    ensures kept { IfOk result AreWireDepartures }
{
    text_at(value, "client").ok_or(BadLine::Shape)?;
    let stop = text_at(value, "stop").ok_or(BadLine::Shape)?;
    let day = text_at(value, "date").ok_or(BadLine::Shape)?;
    let time = text_at(value, "time").ok_or(BadLine::Shape)?;
    let number = number_at(value, "rows").ok_or(BadLine::Shape)?;
    let rows = rows_in(number).ok_or(BadLine::Shape)?;
    Ok(WireDepartures {
        stop: Name::build(alloc, stop)?,
        time: wire_time(day, time),
        rows,
    })
}

/// The question about an event of an object of this type: `Shape` where a member that it needs is
/// missing or of another kind, and else `Time` where its date is no civil date.
#[tactic(auto, unfolding(crate::specs::Questions::event_of))]
pub(crate) fn event_in(alloc: Global, value: &Value) -> Result<WireEvent, LineError>
    ensures exact { Gives bad_in result (event_of (view value.now)) }
{
    let trip = text_at(value, "trip").ok_or(BadLine::Shape)?;
    let day = text_at(value, "date").ok_or(BadLine::Shape)?;
    let call = label_at(value, "call").ok_or(BadLine::Shape)?;
    let event = text_at(value, "event").ok_or(BadLine::Shape)?;
    let dep = departure(event).ok_or(BadLine::Shape)?;
    let date = date(day.as_bytes()).ok_or(BadLine::Time)?;
    Ok(WireEvent {
        call: WireRef {
            trip: Name::build(alloc, trip)?,
            date,
            call,
        },
        dep,
    })
}
