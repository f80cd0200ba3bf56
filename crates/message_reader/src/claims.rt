//! Claims: answers to queries, with what is to show that they are right.

ghost use Rattle.serde_json.specs.View.{view};
ghost use Rattle.message_reader.specs.Claims.{claim_of};
ghost use Rattle.message_reader.specs.Errors.{Gives, bad_in};
ghost use Rattle.message_reader.specs.Messages.{HasFewItems};

use crate::bad_line::{BadLine, LineError};
use crate::claim_reached::{check_reached, check_stops, read_reached};
use crate::claim_rides::{check_rides, read_rides};
use crate::claim_times::claim_time_if_any;
use crate::fields::{items_at, text_or_null_at};
use crate::queries::query;
use crate::resolve_queries::{check_places, resolve_query};
use mt_base::certificates::Reach;
use mt_base::journeys::Query;
use mt_base::names::Name;
use mt_base::numbers::{Day, Label, Time};
use mt_base::rows::Rows;
use schedule_build::Directory;
use serde_json::Value;
use std::alloc::Global;

/// A ride of a claim, whose train is named.
#[derive(Drop)]
pub struct ClaimRide {
    /// The id of the trip.
    pub trip: Name,

    /// The service day as the number YYYYMMDD.
    pub date: u32,

    /// The label of the call where the passenger boards.
    pub board: Label,

    /// The label of the call where the passenger alights.
    pub alight: Label,
}

/// What is claimed as the answer to a query, and what is to show that it is right. Its trains have
/// their names; days, stops and times are by number.
#[derive(Drop)]
pub struct Claim {
    /// The service day on which the times of the claim lie.
    pub day: Day,

    /// The query.
    pub query: Query,

    /// The arrival that is claimed to be the earliest. None where it is claimed that there is no
    /// journey.
    pub arrives: Option<Time>,

    /// The rides of the journey that is claimed to arrive then.
    pub rides: Rows<ClaimRide>,

    /// Stops, each with a time before which one is claimed not to arrive there.
    pub reached: Rows<Reach>,
}

/// A claim. `Bad` has the first fault: `Shape`, otherwise `Stop`, and otherwise `Time`.
/// `OutOfMemory` where there is no memory.
#[tactic(auto, unfolding(crate::specs::Claims::claim_of))]
pub(crate) fn read_claim(alloc: Global, value: &Value, dir: &Directory) -> Result<Claim, LineError>
    requires few { HasFewItems (view value.now) }
    ensures { Gives bad_in result (claim_of dir.now (view value.now)) }
{
    let query = query(alloc, value)?;
    let arrival = text_or_null_at(value, "arrives").ok_or(BadLine::Shape)?;
    let ride_items = items_at(value, "rides").ok_or(BadLine::Shape)?;
    let reach_items = items_at(value, "reached").ok_or(BadLine::Shape)?;
    check_rides(ride_items)?;
    check_reached(reach_items)?;
    check_places(&query, dir)?;
    check_stops(dir, reach_items)?;
    let asked = resolve_query(&query, dir)?;
    let arrives = claim_time_if_any(dir, asked.day, arrival).ok_or(BadLine::Time)?;
    let rides = read_rides(alloc, ride_items)?;
    let reached = read_reached(alloc, dir, asked.day, reach_items)?;
    Ok(Claim {
        day: asked.day,
        query: asked.query,
        arrives,
        rides,
        reached,
    })
}
