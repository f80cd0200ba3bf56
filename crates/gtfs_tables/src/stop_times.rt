//! `stop_times.txt` read by itself.

ghost use Rattle.std.specs.Prelude.{◌≡◌, ℕ, List, [], length, IfOk};
ghost use Rattle.gtfs_tables.specs.Checks.{Gives, check, fault};
ghost use Rattle.gtfs_tables.specs.declared.faults.Cause.TheVariants.{UntimedEnd};
ghost use Rattle.gtfs_tables.specs.StopTimes.{is_timed, arrival, departure, check_order, check_trip, check_trips, stop_times_of};
ghost use Rattle.gtfs_tables.specs.Sizes.{IsSmall, GrowsByTable};
ghost use Rattle.gtfs_tables.specs.Texts.{AreRecordsOf};
ghost use Rattle.gtfs_tables.specs.Trips.{trip_ids};

use crate::builders::build_table;
use crate::calls::CallTable;
use crate::columns::Column;
use crate::faults::{Cause, Fault, TableError};
use crate::guesses::Guess;
use crate::keyed_calls::{CallTimes, KeyedCalls};
use crate::stops::Stops;
use crate::trips::Trips;
use mt_base::rows::Rows;
use mt_base::tables::CallRow;
use std::alloc::Global;

fn is_timed(call: &CallTimes) -> bool
    ensures { result ≡ is_timed call.now }
{
    call.arr.is_some() || call.dep.is_some()
}

fn arrival(call: &CallTimes) -> u32
    ensures { result ≡ arrival call.now }
{
    call.arr.unwrap_or(call.dep.unwrap_or(0))
}

fn departure(call: &CallTimes) -> u32
    ensures { result ≡ departure call.now }
{
    call.dep.unwrap_or(call.arr.unwrap_or(0))
}

#[tactic(auto, unfolding(crate::specs::StopTimes::check_order))]
fn check_order(calls: &[CallTimes]) -> Result<(), TableError>
    ensures { Gives (λ u. u) result (check_order 0 calls.now) }
{
    let mut before = 0;
    for call in calls {
        if is_timed(call) {
            if before > arrival(call) || arrival(call) > departure(call) {
                return Err(TableError::Bad(Fault {
                    row: call.row,
                    cause: Cause::BackwardsTimes,
                }));
            }
            before = departure(call);
        }
    }
    Ok(())
}

fn check_end(call: &CallTimes) -> Result<(), TableError>
    ensures { Gives (λ u. u) result (check (fault call.now.row UntimedEnd) (is_timed call.now)) }
{
    if !is_timed(call) {
        return Err(TableError::Bad(Fault {
            row: call.row,
            cause: Cause::UntimedEnd,
        }));
    }
    Ok(())
}

#[tactic(auto, unfolding(crate::specs::StopTimes::check_trip))]
fn check_trip(calls: &[CallTimes]) -> Result<(), TableError>
    ensures { Gives (λ u. u) result (check_trip calls.now) }
{
    match calls {
        [] => Ok(()),
        [call] => Err(TableError::Bad(Fault {
            row: call.row,
            cause: Cause::TooFewCalls,
        })),
        [first, .., last] => {
            check_end(first)?;
            check_end(last)?;
            check_order(calls)
        }
    }
}

// The keys are in order, so the calls of a trip stand together by stop_sequence.
#[tactic(auto, unfolding(crate::specs::StopTimes::check_trips))]
fn check_trips(alloc: Global, by_key: &[((u32, u32), CallTimes)]) -> Result<(), TableError>
    ensures { Gives (λ u. u) result (check_trips 0 [] by_key.now) }
{
    let mut trip = 0;
    let mut passed = Vec::new(alloc);
    for (key, call) in by_key {
        if key.0 != trip {
            check_trip(&passed)?;
            passed.clear();
            trip = key.0;
        }
        passed.push(*call)?;
    }
    check_trip(&passed)
}

/// The rows of stop_times.txt (GTFS Schedule, stop_times.txt), or the first fault in it, by the
/// list of all records of the text: UnknownReference for a trip that is not in trips.txt or a stop
/// that is no stop or platform of stops.txt, BadTime for a time that is not empty, `H:MM:SS` or
/// `HH:MM:SS`, BadNumber for a stop_sequence, pickup_type or drop_off_type that is no number,
/// DuplicateKey for a second row of a trip and a stop_sequence. Then come the trips in the order of
/// trips.txt: TooFewCalls for a trip with one row, UntimedEnd for a first or last call without a
/// time, BackwardsTimes for a time before an earlier one.
#[tactic(auto, unfolding(crate::specs::StopTimes::stop_times_of))]
pub(crate) fn read_stop_times(
    alloc: Global,
    text: &[u8],
    trips: &Trips,
    stops: &Stops,
) -> Result<Rows<CallRow>, TableError>
    requires small { IsSmall text.now }
    ensures size { IfOk result (λ rows. GrowsByTable 0 (length rows)) }
    ensures rows { (all : List (List (List ℕ))) → AreRecordsOf text.now all
        → Gives (λ rows. rows) result
        (stop_times_of (record { trips = trip_ids trips.now.rows; stops = stops.now }) all) }
{
    let needed = [
        Column::TripId,
        Column::ArrivalTime,
        Column::DepartureTime,
        Column::StopId,
        Column::StopSequence,
    ];
    let others = [Column::PickupType, Column::DropOffType];
    let mut table = CallTable {
        guess: Guess::build(alloc, stops.rows().len())?,
        trips,
        stops,
        rows: Vec::new(alloc),
        by_key: KeyedCalls::new(alloc),
    };
    build_table(alloc, text, &needed, &others, &mut table)?;
    let CallTable { rows, by_key, .. } = table;
    check_trips(alloc, &by_key.into_entries()?)?;
    Ok(Rows::build(rows))
}
