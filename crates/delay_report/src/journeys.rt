//! The JSON objects of journeys.

ghost use Rattle.std.specs.Prelude.{◌≡◌, IfOk};
ghost use Rattle.serde_json.specs.Data.{array};
ghost use Rattle.serde_json.specs.View.{view};
ghost use Rattle.delay_report.specs.Journeys.{call_of_ride_object, ride_object, ride_objects, journey_object, no_journey_object};

use crate::objects::{clock_value, date_value, seconds_after, seconds_on_day};
use mt_base::journeys::PlanRide;
use mt_base::memory::OutOfMemory;
use mt_base::numbers::{Day, Label, StopNo, Time, TrainNo};
use schedule_build::Directory;
use serde_json::{Value, json};
use std::alloc::Global;

/// The object for the call where a passenger boards or alights.
fn call_of_ride_value(
    alloc: Global,
    dir: &Directory,
    train: TrainNo,
    label: Label,
    stop: StopNo,
    time: Time,
) -> Result<Value, OutOfMemory>
    ensures { IfOk result (λ v. view v ≡ call_of_ride_object dir.now train label stop time) }
{
    let time = clock_value(alloc, seconds_on_day(dir, train, time))?;
    json!(in alloc; {
        "call": u64::from(label.get()),
        "stop": dir.stop_name(stop),
        "time": time
    })
}

/// The object for a ride.
fn ride_value(alloc: Global, dir: &Directory, ride: &PlanRide) -> Result<Value, OutOfMemory>
    ensures { IfOk result (λ v. view v ≡ ride_object dir.now ride.now) }
{
    let train = ride.train;
    let board = call_of_ride_value(
        alloc,
        dir,
        train,
        ride.board,
        ride.board_stop,
        ride.board_time,
    )?;
    let alight = call_of_ride_value(
        alloc,
        dir,
        train,
        ride.alight,
        ride.alight_stop,
        ride.alight_time,
    )?;
    let date = date_value(alloc, dir, dir.train_day(train))?;
    json!(in alloc; {
        "alight": alight,
        "board": board,
        "date": date,
        "trip": dir.trip_name(train)
    })
}

/// The list of the objects for these rides.
#[tactic(auto, using(crate::proofs::ReplyTexts::rides_listed))]
pub(crate) fn ride_values(
    alloc: Global,
    dir: &Directory,
    rides: &[PlanRide],
) -> Result<Value, OutOfMemory>
    ensures { IfOk result (λ v. view v ≡ array (ride_objects dir.now rides.now)) }
{
    let mut values = Vec::with_capacity(alloc, rides.len())?;
    for ride in rides {
        values.push(ride_value(alloc, dir, ride)?)?;
    }
    Ok(Value::Array(values))
}

/// The object for a journey.
pub(crate) fn journey_value(
    alloc: Global,
    dir: &Directory,
    line: u64,
    after: u64,
    day: Day,
    arrives: Time,
    rides: &[PlanRide],
) -> Result<Value, OutOfMemory>
    ensures { IfOk result (λ v. view v ≡ journey_object dir.now line after day arrives rides.now) }
{
    let arrives = clock_value(alloc, seconds_after(dir, day, arrives))?;
    let rides = ride_values(alloc, dir, rides)?;
    json!(in alloc; {"after": after, "arrives": arrives, "line": line, "rides": rides})
}

/// The object for a query without a journey.
pub(crate) fn no_journey_value(alloc: Global, line: u64, after: u64) -> Result<Value, OutOfMemory>
    ensures { IfOk result (λ v. view v ≡ no_journey_object line after) }
{
    json!(in alloc; {"after": after, "arrives": null, "line": line})
}
