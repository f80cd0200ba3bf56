//! Lists of calls.

ghost use Rattle.std.specs.Prelude.{◌≡◌, IfOk, All, length};
ghost use Rattle.std.specs.Result.{result_map_both};
ghost use Rattle.serde_json.specs.View.{view, items_view};
ghost use Rattle.message_reader.specs.Errors.{Gives, bad_in};
ghost use Rattle.message_reader.specs.Messages.{call_texts, call_of, calls_shape, calls_of};
ghost use Rattle.message_reader.specs.Wires.{IsWireCall};

use crate::bad_line::{BadLine, LineError};
use crate::fields::text_at;
use crate::wire::WireCall;
use mt_base::names::Name;
use mt_base::rows::Rows;
use mt_base::texts::seconds;
use serde_json::Value;
use std::alloc::Global;

/// A call as an object of a list names it.
#[derive(Clone, Copy)]
struct CallTexts<'v> {
    stop: &'v str,
    arr: &'v str,
    dep: &'v str,
}

#[tactic(auto, unfolding(crate::specs::Messages::call_texts))]
fn texts_at<'v>(value: &'v Value) -> Result<CallTexts<'v>, BadLine>
    ensures { result_map_both
        (λ r. record { stop = r.stop.now; arr = r.arr.now; dep = r.dep.now }) (λ bad. bad) result
        ≡ call_texts (view value.now) }
{
    let stop = text_at(value, "stop").ok_or(BadLine::Shape)?;
    let arr = text_at(value, "arr").ok_or(BadLine::Shape)?;
    let dep = text_at(value, "dep").ok_or(BadLine::Shape)?;
    Ok(CallTexts { stop, arr, dep })
}

#[tactic(auto, unfolding(crate::specs::Messages::call_of))]
fn call_at(alloc: Global, value: &Value) -> Result<WireCall, LineError>
    ensures exact { Gives bad_in result (call_of (view value.now)) }
    ensures kept { IfOk result IsWireCall }
{
    let texts = texts_at(value)?;
    let arr = seconds(texts.arr.as_bytes()).ok_or(BadLine::Time)?;
    let dep = seconds(texts.dep.as_bytes()).ok_or(BadLine::Time)?;
    Ok(WireCall {
        stop: Name::build(alloc, texts.stop)?,
        arr,
        dep,
    })
}

/// Whether each value names a call: `Shape` where one does not have its members.
pub fn check_calls(values: &[Value]) -> Result<(), BadLine>
    ensures { result ≡ calls_shape (items_view values.now) }
{
    for value in values {
        let _texts = texts_at(value)?;
    }
    Ok(())
}

/// The calls that the values name, or the first fault in them. `OutOfMemory` where there is no
/// memory.
pub fn read_calls(alloc: Global, values: &[Value]) -> Result<Rows<WireCall>, LineError>
    ensures exact { Gives bad_in result (calls_of (items_view values.now)) }
    ensures kept { IfOk result (λ calls. All IsWireCall calls) }
    ensures all { IfOk result (λ calls. length calls ≡ length values.now) }
{
    let mut calls = Vec::new(alloc);
    for value in values {
        let call = call_at(alloc, value)?;
        calls.push(call)?;
    }
    Ok(Rows::build(calls))
}
