//! The best plans, by what a scan has found.

ghost use Rattle.std.specs.Prelude.{◌≡◌, ◌<◌, ◌≤◌, ◌+◌, ℕ, IfOk, length};
ghost use Rattle.conn_scan.specs.Ways.{AreReadable};
ghost use Rattle.pareto_scan.specs.Levels.{level_at};
ghost use Rattle.pareto_scan.specs.Traced.{plan_with, plans_within, AreEndsReadable};

use crate::level::Level;
use crate::trace::trace;
use conn_scan::known::is_before;
use dep_order::DepartureOrder;
use mt_base::journeys::Plan;
use mt_base::memory::OutOfMemory;
use mt_base::rows::Rows;
use std::alloc::Global;
use train_nodes::Trains;

/// The plan that arrives earliest with at most one ride more than `before`, if it arrives earlier
/// than any with at most `before` rides.
fn plan_with(
    alloc: Global,
    trains: &Trains,
    order: &DepartureOrder,
    levels: &[Level],
    before: u32,
) -> Result<Option<Plan>, OutOfMemory>
    requires before { before + 1 < length levels.now }
    requires readable { (k : ℕ) → AreReadable trains.now order.now
        (level_at levels.now k).openings }
    requires ends { AreEndsReadable trains.now order.now levels.now }
    ensures { IfOk result (λ plan. plan ≡ plan_with trains.now order.now levels.now
        before) }
{
    let Some(ending) = &levels[before as usize + 1].best else {
        return Ok(None);
    };
    if !is_before(ending.time, &levels[before as usize].best) {
        return Ok(None);
    }
    let rides = trace(alloc, trains, order, levels, before, &ending.ride)?;
    Ok(Some(Plan {
        arrives: ending.time,
        rides: Rows::build(rides),
    }))
}

/// The best plans with 1, 2, .. and at most so many rides.
pub(crate) fn plans_within(
    alloc: Global,
    trains: &Trains,
    order: &DepartureOrder,
    levels: &[Level],
    most: u32,
) -> Result<Vec<Plan>, OutOfMemory>
    requires most { most < length levels.now }
    requires few { length levels.now ≤ 9 }
    requires readable { (k : ℕ) → AreReadable trains.now order.now
        (level_at levels.now k).openings }
    requires ends { AreEndsReadable trains.now order.now levels.now }
    ensures { IfOk result (λ plans. plans.items ≡ plans_within trains.now order.now levels.now
        most) }
{
    let mut plans = Vec::new(alloc);
    for rides in 0..most {
        if let Some(plan) = plan_with(alloc, trains, order, levels, rides)? {
            plans.push(plan)?;
        }
    }
    Ok(plans)
}
