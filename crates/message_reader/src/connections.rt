//! Messages about connections.

ghost use Rattle.std.specs.Prelude.{◌≡◌, IfOk};
ghost use Rattle.std.specs.Result.{result_map_both};
ghost use Rattle.serde_json.specs.View.{view};
ghost use Rattle.mt_base.specs.Civil.{IsCivil};
ghost use Rattle.message_reader.specs.Errors.{Gives, bad_in};
ghost use Rattle.message_reader.specs.Messages.{ref_texts, ref_of, connect_of};
ghost use Rattle.message_reader.specs.Wires.{IsWire};

use crate::bad_line::{BadLine, LineError};
use crate::fields::{label_at, text_at};
use crate::members::{HasMembers, NestedKey};
use crate::wire::{Connect, Wire, WireRef};
use mt_base::names::Name;
use mt_base::numbers::Label;
use mt_base::texts::date;
use serde_json::Value;
use std::alloc::Global;

/// A call of a train as an object names it.
#[derive(Clone, Copy)]
struct RefTexts<'v> {
    trip: &'v str,
    date: &'v str,
    call: u32,
}

#[tactic(auto, unfolding(crate::specs::Messages::ref_texts))]
fn reference_texts<'v>(value: &'v Value) -> Result<RefTexts<'v>, BadLine>
    ensures { result_map_both
        (λ r. record { trip = r.trip.now; date = r.date.now; call = r.call }) (λ bad. bad) result
        ≡ ref_texts (view value.now) }
{
    let trip = text_at(value, "trip").ok_or(BadLine::Shape)?;
    let date = text_at(value, "date").ok_or(BadLine::Shape)?;
    let call = label_at(value, "call").ok_or(BadLine::Shape)?;
    Ok(RefTexts {
        trip,
        date,
        call: call.get(),
    })
}

#[tactic(auto, unfolding(crate::specs::Messages::ref_of))]
fn reference(alloc: Global, texts: &RefTexts) -> Result<WireRef, LineError>
    ensures exact { let r = texts.now in
        Gives bad_in result
        (ref_of (record { trip = r.trip.now; date = r.date.now; call = r.call })) }
    ensures kept { IfOk result (λ r. IsCivil r.date) }
{
    let date = date(texts.date.as_bytes()).ok_or(BadLine::Time)?;
    Ok(WireRef {
        trip: Name::build(alloc, texts.trip)?,
        date,
        call: Label::new(texts.call),
    })
}

/// A connection that is kept or dropped, or to which the rules apply again. `Bad` has the first
/// fault: `Shape` or else `Time`. `OutOfMemory` where there is no memory.
#[tactic(auto, unfolding(crate::specs::Messages::connect_of))]
pub fn connect<M: HasMembers>(alloc: Global, kind: Connect, object: &M) -> Result<Wire, LineError>
    ensures exact { Gives bad_in result (connect_of kind (M.stands_for object.now)) }
    ensures kept { IfOk result IsWire }
{
    let feeder = object.nested(NestedKey::Feeder).ok_or(BadLine::Shape)?;
    let train = object.nested(NestedKey::Train).ok_or(BadLine::Shape)?;
    let feeder = reference_texts(feeder)?;
    let train = reference_texts(train)?;
    let feeder = reference(alloc, &feeder)?;
    let train = reference(alloc, &train)?;
    Ok(Wire::Connect {
        kind,
        feeder,
        train,
    })
}
