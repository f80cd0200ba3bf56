//! Replies to queries for all best plans.

ghost use Rattle.std.specs.Prelude.{◌≡◌, IfOk};
ghost use Rattle.serde_json.specs.Data.{array};
ghost use Rattle.serde_json.specs.View.{view};
ghost use Rattle.delay_report.specs.Plans.{plan_object, plan_objects, plans_object, text_of_plans};

use crate::journeys::ride_values;
use crate::objects::{clock_value, seconds_after};
use crate::replies::object_text;
use mt_base::journeys::Plan;
use mt_base::memory::OutOfMemory;
use mt_base::numbers::Day;
use schedule_build::Directory;
use serde_json::{Value, json};
use std::alloc::Global;

/// The object for a plan, whose arrival is told by the clock of a service day.
fn plan_value(alloc: Global, dir: &Directory, day: Day, plan: &Plan) -> Result<Value, OutOfMemory>
    ensures { IfOk result (λ v. view v ≡ plan_object dir.now day plan.now) }
{
    let arrives = clock_value(alloc, seconds_after(dir, day, plan.arrives))?;
    let rides = ride_values(alloc, dir, plan.rides.as_slice())?;
    json!(in alloc; {"arrives": arrives, "rides": rides})
}

/// The list of the objects for these plans.
#[tactic(auto, using(crate::proofs::PlanTexts::plans_listed))]
fn plan_values(
    alloc: Global,
    dir: &Directory,
    day: Day,
    plans: &[Plan],
) -> Result<Value, OutOfMemory>
    ensures { IfOk result (λ v. view v ≡ array (plan_objects dir.now day plans.now)) }
{
    let mut values = Vec::with_capacity(alloc, plans.len())?;
    for plan in plans {
        values.push(plan_value(alloc, dir, day, plan)?)?;
    }
    Ok(Value::Array(values))
}

/// The object for these plans.
fn plans_value(
    alloc: Global,
    dir: &Directory,
    line: u64,
    after: u64,
    day: Day,
    plans: &[Plan],
) -> Result<Value, OutOfMemory>
    ensures { IfOk result (λ v. view v ≡ plans_object dir.now line after day plans.now) }
{
    let plans = plan_values(alloc, dir, day, plans)?;
    json!(in alloc; {"after": after, "line": line, "plans": plans})
}

/// The bytes of the reply to a query, in the line of a number, for its best plans in the timetable
/// after so many accepted messages: a JSON object without blanks, and an LF. The query's time lies
/// on this service day. `OutOfMemory` where there is no memory.
#[tactic(auto, using(crate::proofs::PlanTexts::plans_are_whole), unfolding(crate::specs::Plans::text_of_plans))]
pub fn plans_text(
    alloc: Global,
    line: u64,
    after: u64,
    day: Day,
    plans: &[Plan],
    dir: &Directory,
) -> Result<Vec<u8>, OutOfMemory>
    ensures { IfOk result (λ b. b.items ≡ text_of_plans dir.now line after day plans.now) }
{
    object_text(alloc, &plans_value(alloc, dir, line, after, day, plans)?)
}
