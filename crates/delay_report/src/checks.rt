//! Replies to queries with what is to show that they are right, and replies to claims.

ghost use Rattle.std.specs.Prelude.{◌≡◌, IfOk};
ghost use Rattle.serde_json.specs.Data.{array};
ghost use Rattle.serde_json.specs.View.{view};
ghost use Rattle.delay_report.specs.Checks.{reach_object, reach_objects, checked_journey_object, checked_no_journey_object, text_of_checked, claim_object, text_of_claim};

use crate::journeys::ride_values;
use crate::objects::{clock_value, seconds_after};
use crate::replies::{Reply, object_text, reply_text};
use mt_base::certificates::Reach;
use mt_base::journeys::PlanRide;
use mt_base::memory::OutOfMemory;
use mt_base::numbers::{Day, Time};
use mt_base::rows::Rows;
use schedule_build::Directory;
use serde_json::{Value, json};
use std::alloc::Global;

/// The object for a stop with a time of a service day.
fn reach_value(
    alloc: Global,
    dir: &Directory,
    day: Day,
    reach: &Reach,
) -> Result<Value, OutOfMemory>
    ensures { IfOk result (λ v. view v ≡ reach_object dir.now day reach.now) }
{
    let time = clock_value(alloc, seconds_after(dir, day, reach.time))?;
    json!(in alloc; {"stop": dir.stop_name(reach.stop), "time": time})
}

/// The list of the objects for these stops.
#[tactic(auto, using(crate::proofs::CheckTexts::reached_listed))]
fn reach_values(
    alloc: Global,
    dir: &Directory,
    day: Day,
    reached: &[Reach],
) -> Result<Value, OutOfMemory>
    ensures { IfOk result (λ v. view v ≡ array (reach_objects dir.now day reached.now)) }
{
    let mut values = Vec::with_capacity(alloc, reached.len())?;
    for reach in reached {
        values.push(reach_value(alloc, dir, day, reach)?)?;
    }
    Ok(Value::Array(values))
}

/// The object for a journey with the list of what is reached.
fn checked_journey_value(
    alloc: Global,
    dir: &Directory,
    line: u64,
    after: u64,
    day: Day,
    arrives: Time,
    rides: &[PlanRide],
    reached: Value,
) -> Result<Value, OutOfMemory>
    ensures { IfOk result (λ v. view v
        ≡ checked_journey_object dir.now line after day arrives rides.now (view reached)) }
{
    let arrives = clock_value(alloc, seconds_after(dir, day, arrives))?;
    let rides = ride_values(alloc, dir, rides)?;
    json!(in alloc; {
        "after": after,
        "arrives": arrives,
        "line": line,
        "reached": reached,
        "rides": rides
    })
}

/// The object for a query without a journey with the list of what is reached.
fn checked_no_journey_value(
    alloc: Global,
    line: u64,
    after: u64,
    reached: Value,
) -> Result<Value, OutOfMemory>
    ensures { IfOk result (λ v. view v ≡ checked_no_journey_object line after (view reached)) }
{
    json!(in alloc; {"after": after, "arrives": null, "line": line, "reached": reached})
}

/// The bytes of a reply: a JSON object without blanks, and an LF. The answer to a query has one
/// member more than that of `reply_text`: these stops with their times, which lie on this service
/// day. `OutOfMemory` where there is no memory.
#[tactic(auto, using(crate::proofs::CheckTexts::reached_are_whole, crate::proofs::ReplyTexts::rides_are_whole), unfolding(crate::specs::Checks::text_of_checked, crate::specs::Replies::text_of_reply))]
pub fn checked_text(
    alloc: Global,
    reply: &Reply,
    reached: &Rows<Reach>,
    day: Day,
    dir: &Directory,
) -> Result<Vec<u8>, OutOfMemory>
    ensures { IfOk result (λ b. b.items ≡ text_of_checked dir.now reached.now day reply.now) }
{
    match reply {
        Reply::Journey {
            line,
            after,
            day: query_day,
            arrives,
            rides,
        } => {
            let reached = reach_values(alloc, dir, day, reached.as_slice())?;
            let value = checked_journey_value(
                alloc,
                dir,
                *line,
                *after,
                *query_day,
                *arrives,
                rides.as_slice(),
                reached,
            )?;
            object_text(alloc, &value)
        }
        Reply::NoJourney { line, after } => {
            let reached = reach_values(alloc, dir, day, reached.as_slice())?;
            let value = checked_no_journey_value(alloc, *line, *after, reached)?;
            object_text(alloc, &value)
        }
        _ => reply_text(alloc, reply, dir),
    }
}

/// The object for a claim.
fn claim_value(alloc: Global, line: u64, good: bool) -> Result<Value, OutOfMemory>
    ensures { IfOk result (λ v. view v ≡ claim_object line good) }
{
    json!(in alloc; {"claim": good, "line": line})
}

/// The bytes of the reply to a claim, which is good or not: a JSON object without blanks, and an
/// LF. `OutOfMemory` where there is no memory.
#[tactic(auto, unfolding(crate::specs::Checks::text_of_claim))]
pub fn claim_text(alloc: Global, line: u64, good: bool) -> Result<Vec<u8>, OutOfMemory>
    ensures { IfOk result (λ b. b.items ≡ text_of_claim line good) }
{
    object_text(alloc, &claim_value(alloc, line, good)?)
}
