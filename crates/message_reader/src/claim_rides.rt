//! The rides of a claim.

ghost use Rattle.std.specs.Prelude.{◌≡◌};
ghost use Rattle.std.specs.Result.{result_map_both};
ghost use Rattle.serde_json.specs.View.{view, items_view};
ghost use Rattle.message_reader.specs.Claims.{ride_texts, ride_of};
ghost use Rattle.message_reader.specs.Errors.{Gives, bad_in};
ghost use Rattle.message_reader.specs.Items.{items_shape, items_read};

use crate::bad_line::{BadLine, LineError};
use crate::claims::ClaimRide;
use crate::fields::{label_at, text_at};
use mt_base::names::Name;
use mt_base::numbers::Label;
use mt_base::rows::Rows;
use mt_base::texts::date;
use serde_json::Value;
use std::alloc::Global;

/// A ride as an object names it.
#[derive(Clone, Copy)]
struct RideTexts<'v> {
    trip: &'v str,
    date: &'v str,
    board: u32,
    alight: u32,
}

#[tactic(auto, unfolding(crate::specs::Claims::ride_texts))]
fn texts_at<'v>(value: &'v Value) -> Result<RideTexts<'v>, BadLine>
    ensures { result_map_both
        (λ r. record { trip = r.trip.now; date = r.date.now; board = r.board; alight = r.alight })
        (λ bad. bad) result
        ≡ ride_texts (view value.now) }
{
    let trip = text_at(value, "trip").ok_or(BadLine::Shape)?;
    let date = text_at(value, "date").ok_or(BadLine::Shape)?;
    let board = label_at(value, "board").ok_or(BadLine::Shape)?;
    let alight = label_at(value, "alight").ok_or(BadLine::Shape)?;
    Ok(RideTexts {
        trip,
        date,
        board: board.get(),
        alight: alight.get(),
    })
}

#[tactic(auto, unfolding(crate::specs::Claims::ride_of))]
fn ride_at(alloc: Global, value: &Value) -> Result<ClaimRide, LineError>
    ensures { Gives bad_in result (ride_of (view value.now)) }
{
    let texts = texts_at(value)?;
    let date = date(texts.date.as_bytes()).ok_or(BadLine::Time)?;
    Ok(ClaimRide {
        trip: Name::build(alloc, texts.trip)?,
        date,
        board: Label::new(texts.board),
        alight: Label::new(texts.alight),
    })
}

/// Whether each value names a ride: `Shape` where one does not have its members.
pub(crate) fn check_rides(values: &[Value]) -> Result<(), BadLine>
    ensures { result ≡ items_shape ride_texts (items_view values.now) }
{
    for value in values {
        let _texts = texts_at(value)?;
    }
    Ok(())
}

/// The rides that the values name, or the first fault in them. `OutOfMemory` where there is no
/// memory.
pub(crate) fn read_rides(alloc: Global, values: &[Value]) -> Result<Rows<ClaimRide>, LineError>
    ensures { Gives bad_in result (items_read ride_of (items_view values.now)) }
{
    let mut rides = Vec::new(alloc);
    for value in values {
        let ride = ride_at(alloc, value)?;
        rides.push(ride)?;
    }
    Ok(Rows::build(rides))
}
