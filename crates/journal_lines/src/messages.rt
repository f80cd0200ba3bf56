//! The lines of messages.

ghost use Rattle.std.specs.Prelude.{◌≡◌, ◌≤◌, All, IfOk, IfSome, length};
ghost use Rattle.serde_json.specs.View.{view};
ghost use Rattle.mt_base.specs.Civil.{IsCivil};
ghost use Rattle.message_reader.specs.declared.wire.Wire.TheVariants as wires;
ghost use Rattle.message_reader.specs.Spelled.{connect_name, event_name, value_name, time_or_null, object_of};
ghost use Rattle.message_reader.specs.Wires.{IsProper, IsWireCall};
ghost use Rattle.journal_lines.specs.Lines.{text_of_message};

use crate::values::{call_values, date_value, ref_value, time_value};
use delay_report::object_text;
use message_reader::{Connect, Wire, WireCall, WireRef};
use mt_base::memory::OutOfMemory;
use mt_base::names::Name;
use mt_base::numbers::Label;
use serde_json::{Value, json};
use std::alloc::Global;
use train_nodes::kinds::ValueKind;

/// The version of lines that has every type of message.
const VERSION: u64 = 2;

/// The word for a departure or an arrival.
fn event_word(dep: bool) -> &'static str
    ensures { result.now ≡ event_name dep }
{
    if dep { "dep" } else { "arr" }
}

/// The type of a line that says when an event took place or is expected.
fn value_word(kind: ValueKind) -> &'static str
    ensures { result.now ≡ value_name kind }
{
    match kind {
        ValueKind::Report => "report",
        ValueKind::Forecast => "forecast",
    }
}

/// The type of a line about a connection.
fn connect_word(kind: Connect) -> &'static str
    ensures { result.now ≡ connect_name kind }
{
    match kind {
        Connect::Keep => "keep",
        Connect::Drop => "drop",
        Connect::Rule => "rule",
    }
}

/// The time of a correction, or null where there is none.
fn corrected_value(alloc: Global, seconds: Option<u32>) -> Result<Value, OutOfMemory>
    requires { IfSome seconds (λ s. s ≤ 359999) }
    ensures { IfOk result (λ v. view v ≡ time_or_null seconds) }
{
    match seconds {
        Some(seconds) => time_value(alloc, seconds),
        None => Ok(Value::Null),
    }
}

/// The object of a report or a forecast.
fn event_value(
    alloc: Global,
    kind: ValueKind,
    trip: &Name,
    date: u32,
    call: Label,
    dep: bool,
    secs: u32,
) -> Result<Value, OutOfMemory>
    requires date { IsCivil date }
    requires time { secs ≤ 359999 }
    ensures { IfOk result (λ v. view v
        ≡ object_of 2 (wires.Event kind trip.now date call dep secs)) }
{
    let date = date_value(alloc, date)?;
    let time = time_value(alloc, secs)?;
    json!(in alloc; {
        "call": u64::from(call.get()),
        "date": date,
        "event": event_word(dep),
        "time": time,
        "trip": trip.text(),
        "type": value_word(kind),
        "v": VERSION
    })
}

/// The object of a correction.
fn correct_value(
    alloc: Global,
    trip: &Name,
    date: u32,
    call: Label,
    dep: bool,
    secs: Option<u32>,
) -> Result<Value, OutOfMemory>
    requires date { IsCivil date }
    requires time { IfSome secs (λ s. s ≤ 359999) }
    ensures { IfOk result (λ v. view v
        ≡ object_of 2 (wires.Correct trip.now date call dep secs)) }
{
    let date = date_value(alloc, date)?;
    let time = corrected_value(alloc, secs)?;
    json!(in alloc; {
        "call": u64::from(call.get()),
        "date": date,
        "event": event_word(dep),
        "time": time,
        "trip": trip.text(),
        "type": "correct",
        "v": VERSION
    })
}

/// The object of the withdrawal of a forecast.
fn withdraw_value(
    alloc: Global,
    trip: &Name,
    date: u32,
    call: Label,
    dep: bool,
) -> Result<Value, OutOfMemory>
    requires { IsCivil date }
    ensures { IfOk result (λ v. view v ≡ object_of 2 (wires.Withdraw trip.now date call dep)) }
{
    let date = date_value(alloc, date)?;
    json!(in alloc; {
        "call": u64::from(call.get()),
        "date": date,
        "event": event_word(dep),
        "trip": trip.text(),
        "type": "withdraw",
        "v": VERSION
    })
}

/// The object of a cancellation.
fn cancel_value(
    alloc: Global,
    trip: &Name,
    date: u32,
    from: Label,
    to: Label,
) -> Result<Value, OutOfMemory>
    requires { IsCivil date }
    ensures { IfOk result (λ v. view v ≡ object_of 2 (wires.Cancel trip.now date from to)) }
{
    let date = date_value(alloc, date)?;
    json!(in alloc; {
        "date": date,
        "from": u64::from(from.get()),
        "to": u64::from(to.get()),
        "trip": trip.text(),
        "type": "cancel",
        "v": VERSION
    })
}

/// The object of a rerouting.
fn reroute_value(
    alloc: Global,
    trip: &Name,
    date: u32,
    from: Label,
    to: Label,
    via: &[WireCall],
) -> Result<Value, OutOfMemory>
    requires date { IsCivil date }
    requires times { All IsWireCall via.now }
    ensures { IfOk result (λ v. view v
        ≡ object_of 2 (wires.Reroute trip.now date from to via.now)) }
{
    let date = date_value(alloc, date)?;
    let via = call_values(alloc, via)?;
    json!(in alloc; {
        "date": date,
        "from": u64::from(from.get()),
        "to": u64::from(to.get()),
        "trip": trip.text(),
        "type": "reroute",
        "v": VERSION,
        "via": via
    })
}

/// The object of an extra train.
fn extra_value(
    alloc: Global,
    trip: &Name,
    date: u32,
    route: &Name,
    calls: &[WireCall],
) -> Result<Value, OutOfMemory>
    requires date { IsCivil date }
    requires times { All IsWireCall calls.now }
    ensures { IfOk result (λ v. view v
        ≡ object_of 2 (wires.Extra trip.now date route.now calls.now)) }
{
    let calls = call_values(alloc, calls)?;
    let date = date_value(alloc, date)?;
    json!(in alloc; {
        "calls": calls,
        "date": date,
        "route": route.text(),
        "trip": trip.text(),
        "type": "extra",
        "v": VERSION
    })
}

/// The object of what is said of a connection.
fn connect_value(
    alloc: Global,
    kind: Connect,
    feeder: &WireRef,
    train: &WireRef,
) -> Result<Value, OutOfMemory>
    requires feeder { IsCivil feeder.now.date }
    requires train { IsCivil train.now.date }
    ensures { IfOk result (λ v. view v ≡ object_of 2 (wires.Connect kind feeder.now train.now)) }
{
    let feeder = ref_value(alloc, feeder)?;
    let train = ref_value(alloc, train)?;
    json!(in alloc; {
        "feeder": feeder,
        "train": train,
        "type": connect_word(kind),
        "v": VERSION
    })
}

/// The object of a message.
fn message_value(alloc: Global, message: &Wire) -> Result<Value, OutOfMemory>
    requires { IsProper message.now }
    ensures { IfOk result (λ v. view v ≡ object_of 2 message.now) }
{
    match message {
        Wire::Event {
            kind,
            trip,
            date,
            call,
            dep,
            secs,
        } => event_value(alloc, *kind, trip, *date, *call, *dep, *secs),
        Wire::Correct {
            trip,
            date,
            call,
            dep,
            secs,
        } => correct_value(alloc, trip, *date, *call, *dep, *secs),
        Wire::Withdraw {
            trip,
            date,
            call,
            dep,
        } => withdraw_value(alloc, trip, *date, *call, *dep),
        Wire::Cancel {
            trip,
            date,
            from,
            to,
        } => cancel_value(alloc, trip, *date, *from, *to),
        Wire::Reroute {
            trip,
            date,
            from,
            to,
            via,
        } => reroute_value(alloc, trip, *date, *from, *to, via.as_slice()),
        Wire::Extra {
            trip,
            date,
            route,
            calls,
        } => extra_value(alloc, trip, *date, route, calls.as_slice()),
        Wire::Connect {
            kind,
            feeder,
            train,
        } => connect_value(alloc, *kind, feeder, train),
    }
}

/// The line of a message whose dates are civil and whose times are at most 99:59:59, as those of
/// every message that was read: its object in version 2, with its members in the order of their
/// names and without blanks, and an LF. `OutOfMemory` where there is no memory.
#[tactic(auto, using(crate::proofs::Whole::messages_are_whole), unfolding(crate::specs::Lines::text_of_message))]
pub fn append_line(alloc: Global, message: &Wire) -> Result<Vec<u8>, OutOfMemory>
    requires { IsProper message.now }
    ensures { IfOk result (λ b. b.items ≡ text_of_message message.now) }
{
    object_text(alloc, &message_value(alloc, message)?)
}
