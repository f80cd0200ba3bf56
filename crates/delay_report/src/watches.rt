//! Replies to queries whose journeys are watched, and what is told of a watched journey.

ghost use Rattle.std.specs.Prelude.{◌≡◌, IfOk};
ghost use Rattle.serde_json.specs.View.{view};
ghost use Rattle.delay_report.specs.Watches.{arrives_object, broken_object, text_of_alert, text_of_watched, watched_journey_object, watched_no_journey_object};

use crate::journeys::ride_values;
use crate::objects::{clock_value, seconds_after};
use crate::replies::{Reply, object_text, reply_text};
use mt_base::journeys::PlanRide;
use mt_base::memory::OutOfMemory;
use mt_base::numbers::{Day, Time};
use schedule_build::Directory;
use serde_json::{Value, json};
use standing_laws::{Alert, Standing};
use std::alloc::Global;

/// The object for a journey, and whether it is watched.
fn watched_journey_value(
    alloc: Global,
    dir: &Directory,
    line: u64,
    after: u64,
    day: Day,
    arrives: Time,
    rides: &[PlanRide],
    watched: bool,
) -> Result<Value, OutOfMemory>
    ensures { IfOk result (λ v. view v
        ≡ watched_journey_object dir.now line after day arrives rides.now watched) }
{
    let arrives = clock_value(alloc, seconds_after(dir, day, arrives))?;
    let rides = ride_values(alloc, dir, rides)?;
    json!(in alloc; {
        "after": after,
        "arrives": arrives,
        "line": line,
        "rides": rides,
        "watched": watched
    })
}

/// The object for a query without a journey, and whether one is watched.
fn watched_no_journey_value(
    alloc: Global,
    line: u64,
    after: u64,
    watched: bool,
) -> Result<Value, OutOfMemory>
    ensures { IfOk result (λ v. view v ≡ watched_no_journey_object line after watched) }
{
    json!(in alloc; {"after": after, "arrives": null, "line": line, "watched": watched})
}

/// The bytes of a reply: a JSON object without blanks, and an LF. The answer to a query has one
/// member more than that of `reply_text`: whether its journey is watched from then on.
/// `OutOfMemory` where there is no memory.
#[tactic(auto, using(crate::proofs::ReplyTexts::rides_are_whole), unfolding(crate::specs::Watches::text_of_watched, crate::specs::Replies::text_of_reply))]
pub fn watched_text(
    alloc: Global,
    reply: &Reply,
    watched: bool,
    dir: &Directory,
) -> Result<Vec<u8>, OutOfMemory>
    ensures { IfOk result (λ b. b.items ≡ text_of_watched dir.now watched reply.now) }
{
    match reply {
        Reply::Journey {
            line,
            after,
            day,
            arrives,
            rides,
        } => {
            let rides = rides.as_slice();
            let value = watched_journey_value(
                alloc, dir, *line, *after, *day, *arrives, rides, watched,
            )?;
            object_text(alloc, &value)
        }
        Reply::NoJourney { line, after } => {
            object_text(
                alloc,
                &watched_no_journey_value(alloc, *line, *after, watched)?,
            )
        }
        _ => reply_text(alloc, reply, dir),
    }
}

/// The object for the arrival of a watched journey.
fn arrives_value(
    alloc: Global,
    dir: &Directory,
    watch: u64,
    day: Day,
    line: u64,
    arrives: Time,
) -> Result<Value, OutOfMemory>
    ensures { IfOk result (λ v. view v ≡ arrives_object dir.now watch day line arrives) }
{
    let arrives = clock_value(alloc, seconds_after(dir, day, arrives))?;
    json!(in alloc; {"alert": watch, "arrives": arrives, "line": line})
}

/// The object for the ride of a watched journey that can no longer be taken.
fn broken_value(alloc: Global, watch: u64, line: u64, ride: u32) -> Result<Value, OutOfMemory>
    ensures { IfOk result (λ v. view v ≡ broken_object watch line ride) }
{
    json!(in alloc; {"alert": watch, "broken": ride, "line": line})
}

/// The bytes of what is told of a watched journey behind the reply to the message in the line of a
/// number: a JSON object without blanks, and an LF. `OutOfMemory` where there is no memory.
#[tactic(auto, unfolding(crate::specs::Watches::text_of_alert))]
pub fn alert_text(
    alloc: Global,
    alert: &Alert,
    line: u64,
    dir: &Directory,
) -> Result<Vec<u8>, OutOfMemory>
    ensures { IfOk result (λ b. b.items ≡ text_of_alert dir.now line alert.now) }
{
    let value = match alert.standing {
        Standing::Good { arrives } => {
            arrives_value(alloc, dir, alert.watch, alert.day, line, arrives)?
        }
        Standing::Broken { ride } => broken_value(alloc, alert.watch, line, ride)?,
    };
    object_text(alloc, &value)
}
