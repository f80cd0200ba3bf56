//! The rows of `stop_times.txt` by trip.

ghost use Rattle.std.specs.Prelude.{◌≡◌, ◌-◌, ◌<◌, ◌≤◌, ◌^◌, IfOk, length, take, drop};
ghost use Rattle.std.specs.List.Sorted.{IsNonDecreasingBy};
ghost use Rattle.feed_tables.specs.Calls.{rows_of, trip_of};
ghost use Rattle.schedule_build.specs.Groups.{IsGrouped};

use mt_base::memory::OutOfMemory;
use mt_base::tables::CallRow;
use std::alloc::Global;

/// The rows with those of a trip beside each other, in their old order.
pub(crate) fn grouped(alloc: Global, rows: &[CallRow]) -> Result<Vec<CallRow>, OutOfMemory>
    requires { length rows.now < 2 ^ 32 }
    ensures { IfOk result (λ all. IsGrouped rows.now all.items) }
{
    let mut all = Vec::with_capacity(alloc, rows.len())?;
    all.extend_from_slice(rows)?;
    all.sort_by_key(|row| row.trip)?;
    Ok(all)
}

/// Where the rows of a trip begin, and where they end, among rows of which those of a trip stand
/// beside each other.
fn bounds(all: &[CallRow], trip: u32) -> (usize, usize)
    requires { IsNonDecreasingBy trip_of all.now }
    ensures order { result.0 ≤ result.1 }
    ensures within { result.1 ≤ length all.now }
    ensures rows { take (result.1 - result.0) (drop result.0 all.now) ≡ rows_of all.now trip }
{
    let start = all.partition_point(|row| row.trip < trip);
    let end = all.partition_point(|row| row.trip <= trip);
    (start, end)
}

/// The rows of a trip, among rows of which those of a trip stand beside each other.
pub(crate) fn rows_of(all: &[CallRow], trip: u32) -> &[CallRow]
    requires { IsNonDecreasingBy trip_of all.now }
    ensures { result.now ≡ rows_of all.now trip }
{
    let (start, end) = bounds(all, trip);
    &all[start..end]
}
