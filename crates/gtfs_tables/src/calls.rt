//! The rows of `stop_times.txt`.

ghost use Rattle.std.specs.Prelude.{⊤, ◌≡◌, ◌+◌, ◌++◌, length, true, OnOk};
ghost use Rattle.csv.specs.Records.{fields_of};
ghost use Rattle.gtfs_tables.specs.Builders.{calls_view, calls_size, named_of};
ghost use Rattle.gtfs_tables.specs.Checks.{Gives, all_utf8};
ghost use Rattle.gtfs_tables.specs.Numbers.{number_from};
ghost use Rattle.gtfs_tables.specs.Sheets.{cell};
ghost use Rattle.gtfs_tables.specs.Stops.{stop_ids};
ghost use Rattle.gtfs_tables.specs.StopTimes.{Calls, Named, needed_columns, other_columns, call_of, call_step, is_stop, stop_named, with_call};
ghost use Rattle.gtfs_tables.specs.Trips.{trip_ids};

use crate::builders::TableBuilder;
use crate::cells::need;
use crate::faults::{Cause, Fault, TableError};
use crate::fields::{number, number_or_zero, time};
use crate::guesses::Guess;
use crate::keyed_calls::{CallTimes, KeyedCalls};
use crate::sheets::Sheet;
use crate::stops::Stops;
use crate::trips::Trips;
use mt_base::numbers::StopNo;
use mt_base::tables::CallRow;
use std::alloc::Global;

/// What the rows so far made. After an error it is of no more use.
#[derive(Drop)]
pub(crate) struct CallTable<'a> {
    /// Where the trip and the stop of the next row are looked for first.
    pub guess: Guess,
    /// The trips that a row may name.
    pub trips: &'a Trips,
    /// The locations, of which a row may name a stop or platform.
    pub stops: &'a Stops,
    /// The rows in order.
    pub rows: Vec<CallRow>,
    /// The times of the calls, by the number of the trip and the stop_sequence.
    pub by_key: KeyedCalls,
}

fn is_stop(stops: &Stops, number: StopNo) -> bool
    ensures { result ≡ is_stop stops.now number }
{
    match stops.rows().get(number.get() as usize) {
        Some(stop) => stop.kind.is_platform(),
        None => false,
    }
}

fn find_trip(trips: &Trips, guess: &Guess, sheet: &Sheet<'_>) -> Option<u32>
    requires columns { length sheet.now.places.items ≡ 7 }
    requires text { all_utf8 (fields_of sheet.now.current) ≡ true }
    ensures { result ≡ number_from 0 (cell sheet.now 0) (trip_ids trips.now.rows) }
{
    let id = sheet.field(0);
    let (last, next) = guess.trips();
    if trips.has_id(last, id) {
        return Some(last);
    }
    if trips.has_id(next, id) {
        return Some(next);
    }
    trips.find(sheet.text(0))
}

fn find_location(stops: &Stops, guess: &Guess, sheet: &Sheet<'_>) -> Option<StopNo>
    requires columns { length sheet.now.places.items ≡ 7 }
    requires text { all_utf8 (fields_of sheet.now.current) ≡ true }
    ensures { result ≡ number_from 0 (cell sheet.now 3) (stop_ids stops.now) }
{
    let id = sheet.field(3);
    let (first, second) = guess.stops();
    if stops.has_id(first, id) {
        return Some(first);
    }
    if stops.has_id(second, id) {
        return Some(second);
    }
    stops.find(sheet.text(3))
}

fn find_stop(stops: &Stops, guess: &Guess, sheet: &Sheet<'_>) -> Option<StopNo>
    requires columns { length sheet.now.places.items ≡ 7 }
    requires text { all_utf8 (fields_of sheet.now.current) ≡ true }
    ensures { result ≡ stop_named stops.now (cell sheet.now 3) }
{
    let number = find_location(stops, guess, sheet)?;
    if is_stop(stops, number) {
        Some(number)
    } else {
        None
    }
}

#[tactic(auto, unfolding(crate::specs::StopTimes::call_of))]
fn read_call(
    trips: &Trips,
    stops: &Stops,
    guess: &Guess,
    sheet: &Sheet<'_>,
    row: u64,
) -> Result<CallRow, TableError>
    requires columns { length sheet.now.places.items ≡ 7 }
    requires text { all_utf8 (fields_of sheet.now.current) ≡ true }
    ensures { Gives (λ call. call) result
        (call_of (record { trips = trip_ids trips.now.rows; stops = stops.now }) row
        (cell sheet.now 0) (cell sheet.now 1)
        (cell sheet.now 2) (cell sheet.now 3) (cell sheet.now 4) (cell sheet.now 5)
        (cell sheet.now 6)) }
{
    let trip = need(row, Cause::UnknownReference, find_trip(trips, guess, sheet))?;
    let arr = need(row, Cause::BadTime, time(sheet.field(1)))?;
    let dep = need(row, Cause::BadTime, time(sheet.field(2)))?;
    let stop = need(row, Cause::UnknownReference, find_stop(stops, guess, sheet))?;
    let seq = need(row, Cause::BadNumber, number(sheet.field(4)))?;
    let pickup = need(row, Cause::BadNumber, number_or_zero(sheet.field(5)))?;
    let drop_off = need(row, Cause::BadNumber, number_or_zero(sheet.field(6)))?;
    Ok(CallRow {
        trip,
        stop,
        seq,
        arr,
        dep,
        board: pickup != 1,
        alight: drop_off != 1,
    })
}

impl CallTable<'_> {
    /// Adds a row, unless an earlier one has its trip and stop_sequence.
    #[tactic(auto, unfolding(crate::specs::StopTimes::with_call))]
    fn add(&mut self, row: u64, call: &CallRow) -> Result<(), TableError>
        ensures named { named_of self.new ≡ named_of self.old }
        ensures size { OnOk result (calls_size self.new ≡ calls_size self.old + 1) }
        ensures made { Gives (λ u. calls_view self.new) result
            (with_call row call.now (calls_view self.old)) }
    {
        let times = CallTimes {
            row,
            arr: call.arr,
            dep: call.dep,
        };
        if !self.by_key.insert((call.trip, call.seq), times)? {
            return Err(TableError::Bad(Fault {
                row,
                cause: Cause::DuplicateKey,
            }));
        }
        self.rows.push(*call)?;
        Ok(())
    }
}

impl TableBuilder for CallTable<'_> {
    ghost use Rattle.gtfs_tables.specs.declared.columns.Column.{Column};

    ghost Made = { Calls };

    ghost made = { calls_view };

    ghost Given = { Named };

    ghost given = { named_of };

    ghost IsSound = { λ _. ⊤ };

    ghost size = { calls_size };

    ghost columns = { needed_columns ++ other_columns };

    ghost step = { call_step };

    fn add_row(&mut self, _alloc: Global, row: u64, sheet: &Sheet<'_>) -> Result<(), TableError> {
        let call = read_call(self.trips, self.stops, &self.guess, sheet, row)?;
        self.guess.note(&call);
        self.add(row, &call)
    }
}
