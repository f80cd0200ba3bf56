//! The way back along the rides behind which the stops were reached, one ride less at each step.

ghost use Rattle.std.specs.Prelude.{◌≡◌, ◌<◌, ℕ, IfOk, length};
ghost use Rattle.conn_scan.specs.Ways.{AreReadable, IsReadable};
ghost use Rattle.pareto_scan.specs.Levels.{level_at};
ghost use Rattle.pareto_scan.specs.Traced.{traced};

use crate::level::Level;
use conn_scan::stop_rides::Stretch;
use conn_scan::trace::{ride_along, ride_before};
use dep_order::DepartureOrder;
use mt_base::journeys::PlanRide;
use mt_base::memory::OutOfMemory;
use std::alloc::Global;
use train_nodes::Trains;

/// The rides that lead to a ride which was boarded after at most so many rides, and this one.
/// `OutOfMemory` where there is no memory.
pub(crate) fn trace(
    alloc: Global,
    trains: &Trains,
    order: &DepartureOrder,
    levels: &[Level],
    before: u32,
    last: &Stretch,
) -> Result<Vec<PlanRide>, OutOfMemory>
    requires levels { before < length levels.now }
    requires readable { (k : ℕ) → AreReadable trains.now order.now
        (level_at levels.now k).openings }
    requires last { IsReadable trains.now order.now last.now }
    ensures { IfOk result (λ rides. rides.items ≡ traced trains.now order.now levels.now before
        last.now) }
{
    let mut rides = Vec::with_capacity(alloc, before as usize + 1)?;
    let mut level = before;
    let mut next = ride_along(trains, order, last);
    rides.push(next)?;
    while level > 0 {
        let Some(earlier) = ride_before(trains, order, &levels[level as usize].openings, &next)
        else {
            break;
        };
        next = earlier;
        level -= 1;
        rides.push(next)?;
    }
    rides.reverse();
    Ok(rides)
}
