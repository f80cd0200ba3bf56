//! The JSON values of dates, times and calls.

ghost use Rattle.std.specs.Prelude.{◌≡◌, ◌<◌, ◌≤◌, All, IfOk};
ghost use Rattle.serde_json.specs.Data.{string, array};
ghost use Rattle.serde_json.specs.View.{view};
ghost use Rattle.mt_base.specs.Civil.{IsCivil};
ghost use Rattle.message_reader.specs.Spelled.{two_digits, date_text, time_text, ref_object, call_object, call_objects};
ghost use Rattle.message_reader.specs.Wires.{IsWireCall};

use message_reader::{WireCall, WireRef};
use mt_base::memory::OutOfMemory;
use serde_json::{Value, json};
use std::alloc::Global;
use std::str;

/// The two digits of a number below 100.
fn two_digits(n: u32) -> [u8; 2]
    requires { n < 100 }
    ensures { result ≡ two_digits n }
{
    [b'0' + (n / 10) as u8, b'0' + (n % 10) as u8]
}

/// The eight digits of a date YYYYMMDD.
#[tactic(auto, unfolding(message_reader::specs::Spelled::date_text))]
fn date_digits(date: u32) -> [u8; 8]
    requires { date < 100000000 }
    ensures { result ≡ date_text date }
{
    let [a, b] = two_digits(date / 1_000_000);
    let [c, d] = two_digits(date / 10_000 % 100);
    let [e, f] = two_digits(date / 100 % 100);
    let [g, h] = two_digits(date % 100);
    [a, b, c, d, e, f, g, h]
}

/// `HH:MM:SS` of a time in seconds on a service day.
#[tactic(auto, unfolding(message_reader::specs::Spelled::time_text))]
fn time_digits(seconds: u32) -> [u8; 8]
    requires { seconds ≤ 359999 }
    ensures { result ≡ time_text seconds }
{
    let [a, b] = two_digits(seconds / 3600);
    let [c, d] = two_digits(seconds / 60 % 60);
    let [e, f] = two_digits(seconds % 60);
    [a, b, b':', c, d, b':', e, f]
}

/// A date, in eight digits.
pub(crate) fn date_value(alloc: Global, date: u32) -> Result<Value, OutOfMemory>
    requires { IsCivil date }
    ensures { IfOk result (λ v. view v ≡ string (date_text date)) }
{
    let digits = date_digits(date);
    let text = str::from_utf8(&digits).unwrap();
    json!(in alloc; text)
}

/// A time on a service day.
pub(crate) fn time_value(alloc: Global, seconds: u32) -> Result<Value, OutOfMemory>
    requires { seconds ≤ 359999 }
    ensures { IfOk result (λ v. view v ≡ string (time_text seconds)) }
{
    let digits = time_digits(seconds);
    let text = str::from_utf8(&digits).unwrap();
    json!(in alloc; text)
}

/// The object that names a call of a train.
pub(crate) fn ref_value(alloc: Global, call: &WireRef) -> Result<Value, OutOfMemory>
    requires { IsCivil call.now.date }
    ensures { IfOk result (λ v. view v ≡ ref_object call.now) }
{
    let date = date_value(alloc, call.date)?;
    json!(in alloc; {
        "call": u64::from(call.call.get()),
        "date": date,
        "trip": call.trip.text()
    })
}

/// The object that names a call of a list.
fn call_value(alloc: Global, call: &WireCall) -> Result<Value, OutOfMemory>
    requires { IsWireCall call.now }
    ensures { IfOk result (λ v. view v ≡ call_object call.now) }
{
    let arr = time_value(alloc, call.arr)?;
    let dep = time_value(alloc, call.dep)?;
    json!(in alloc; {"arr": arr, "dep": dep, "stop": call.stop.text()})
}

/// The list of the objects that name these calls.
#[tactic(auto, using(crate::proofs::Calls::calls_listed))]
pub(crate) fn call_values(alloc: Global, calls: &[WireCall]) -> Result<Value, OutOfMemory>
    requires { All IsWireCall calls.now }
    ensures { IfOk result (λ v. view v ≡ array (call_objects calls.now)) }
{
    let mut values = Vec::with_capacity(alloc, calls.len())?;
    for call in calls {
        values.push(call_value(alloc, call)?)?;
    }
    Ok(Value::Array(values))
}
