//! The station of a location.

ghost use Rattle.std.specs.Prelude.{◌≡◌, map, IfOk};
ghost use Rattle.waiting_rules.specs.WaitTable.{parent_station, station_in};

use mt_base::memory::OutOfMemory;
use mt_base::numbers::StopNo;
use mt_base::tables::StopRow;
use std::alloc::Global;

/// The parent station of each location, where it has one.
pub(crate) fn parents(alloc: Global, stops: &[StopRow]) -> Result<Vec<Option<StopNo>>, OutOfMemory>
    ensures { IfOk result (λ v. v.items ≡ map parent_station stops.now) }
{
    stops.iter().map(parent_station).collect(alloc)
}

/// The parent station of a stop or platform. Any other location has none.
fn parent_station(row: &StopRow) -> Option<StopNo>
    ensures { result ≡ parent_station row.now }
{
    if row.kind.is_platform() {
        row.parent
    } else {
        None
    }
}

/// The station of a location: its parent station, or itself where it has none.
pub(crate) fn station(parents: &[Option<StopNo>], stop: StopNo) -> StopNo
    ensures { result ≡ station_in parents.now stop }
{
    match parents.get(stop.get() as usize) {
        Some(Some(parent)) => *parent,
        _ => stop,
    }
}
