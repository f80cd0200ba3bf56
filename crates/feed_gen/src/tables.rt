//! The tables, each made in one pass.

ghost use Rattle.std.specs.Prelude.{◌≡◌, ◌<◌, ◌≤◌, ◌++◌, IfOk, OnOk, decimal, option_map};
ghost use Rattle.feed_gen.specs.Tables.{call_row, calendar_table, stop_row, stop_times_table, stops_table, table_named, train_rows, trip_row, trips_table, waiting_rules_table};
ghost use Rattle.feed_gen.specs.Texts.{texts_below};

use crate::texts::clock;
use crate::trains::{arrival, departure, stop_of};
use itoa::Buffer;
use mt_base::OutOfMemory;
use std::alloc::Global;

// Appends the digits of a number.
fn push_number(table: &mut Vec<u8>, n: u32) -> Result<(), OutOfMemory>
    ensures { OnOk result (table.new.items ≡ table.old.items ++ decimal n) }
{
    table.extend_from_slice(Buffer::new().format(n).as_bytes())
}

// Appends the row of a stop.
fn push_stop(table: &mut Vec<u8>, stop: u32) -> Result<(), OutOfMemory>
    ensures { OnOk result (table.new.items ≡ table.old.items ++ stop_row stop) }
{
    table.extend_from_slice(b"S")?;
    push_number(table, stop)?;
    table.extend_from_slice(b"\n")
}

// Appends the rows of all stops.
#[tactic(auto, using(crate::proofs::RowLemmas::texts_more, crate::proofs::RowLemmas::texts_none))]
fn push_stops(table: &mut Vec<u8>) -> Result<(), OutOfMemory>
    ensures { OnOk result (table.new.items ≡ table.old.items ++ texts_below stop_row 100) }
{
    for stop in 0..100 {
        push_stop(table, stop)?;
    }
    Ok(())
}

// The stops.
#[tactic(auto, unfolding(crate::specs::Tables::stops_table))]
fn stops_table(alloc: Global) -> Result<Vec<u8>, OutOfMemory>
    ensures { IfOk result (λ table. table.items ≡ stops_table) }
{
    let mut table = Vec::from_slice(alloc, b"stop_id\n")?;
    push_stops(&mut table)?;
    Ok(table)
}

// Appends the row of a train's trip.
fn push_trip(table: &mut Vec<u8>, train: u32) -> Result<(), OutOfMemory>
    ensures { OnOk result (table.new.items ≡ table.old.items ++ trip_row train) }
{
    table.extend_from_slice(b"R,ALL,G")?;
    push_number(table, train)?;
    table.extend_from_slice(b"\n")
}

// Appends the rows of the trips of so many trains.
#[tactic(auto, using(crate::proofs::RowLemmas::texts_more, crate::proofs::RowLemmas::texts_none))]
fn push_trips(table: &mut Vec<u8>, trains: u32) -> Result<(), OutOfMemory>
    ensures { OnOk result (table.new.items ≡ table.old.items ++ texts_below trip_row trains) }
{
    for train in 0..trains {
        push_trip(table, train)?;
    }
    Ok(())
}

// The trips.
#[tactic(auto, unfolding(crate::specs::Tables::trips_table))]
fn trips_table(alloc: Global, trains: u32) -> Result<Vec<u8>, OutOfMemory>
    ensures { IfOk result (λ table. table.items ≡ trips_table trains) }
{
    let mut table = Vec::from_slice(alloc, b"route_id,service_id,trip_id\n")?;
    push_trips(&mut table, trains)?;
    Ok(table)
}

// Appends the row of a call.
fn push_call(table: &mut Vec<u8>, train: u32, call: u32) -> Result<(), OutOfMemory>
    requires train { train < 100000 }
    requires call { call < 4 }
    ensures { OnOk result (table.new.items ≡ table.old.items ++ call_row train call) }
{
    table.extend_from_slice(b"G")?;
    push_number(table, train)?;
    table.extend_from_slice(b",")?;
    table.extend_from_slice(&clock(arrival(train, call)))?;
    table.extend_from_slice(b",")?;
    table.extend_from_slice(&clock(departure(train, call)))?;
    table.extend_from_slice(b",S")?;
    push_number(table, stop_of(train, call))?;
    table.extend_from_slice(b",")?;
    push_number(table, call)?;
    table.extend_from_slice(b"\n")?;
    Ok(())
}

// Appends the rows of a train's calls.
#[tactic(auto, using(crate::proofs::RowLemmas::texts_more, crate::proofs::RowLemmas::texts_none))]
fn push_train(table: &mut Vec<u8>, train: u32) -> Result<(), OutOfMemory>
    requires { train < 100000 }
    ensures { OnOk result (table.new.items ≡ table.old.items ++ train_rows train) }
{
    for call in 0..4 {
        push_call(table, train, call)?;
    }
    Ok(())
}

// Appends the rows of the calls of so many trains.
#[tactic(auto, using(crate::proofs::RowLemmas::texts_more, crate::proofs::RowLemmas::texts_none))]
fn push_trains(table: &mut Vec<u8>, trains: u32) -> Result<(), OutOfMemory>
    requires { trains ≤ 100000 }
    ensures { OnOk result (table.new.items ≡ table.old.items ++ texts_below train_rows trains) }
{
    for train in 0..trains {
        push_train(table, train)?;
    }
    Ok(())
}

// The calls of the trips.
#[tactic(auto, unfolding(crate::specs::Tables::stop_times_table))]
fn stop_times_table(alloc: Global, trains: u32) -> Result<Vec<u8>, OutOfMemory>
    requires { trains ≤ 100000 }
    ensures { IfOk result (λ table. table.items ≡ stop_times_table trains) }
{
    let header = b"trip_id,arrival_time,departure_time,stop_id,stop_sequence\n";
    let mut table = Vec::from_slice(alloc, header)?;
    push_trains(&mut table, trains)?;
    Ok(table)
}

// The one service.
#[tactic(auto, unfolding(crate::specs::Tables::calendar_table))]
fn calendar_table(alloc: Global) -> Result<Vec<u8>, OutOfMemory>
    ensures { IfOk result (λ table. table.items ≡ calendar_table) }
{
    let header = b"service_id,monday,tuesday,wednesday,thursday,friday,saturday,sunday,";
    let mut table = Vec::from_slice(alloc, header)?;
    table.extend_from_slice(b"start_date,end_date\n")?;
    table.extend_from_slice(b"ALL,1,1,1,1,1,1,1,20260101,20261231\n")?;
    Ok(table)
}

// The one waiting rule.
#[tactic(auto, unfolding(crate::specs::Tables::waiting_rules_table))]
fn waiting_rules_table(alloc: Global) -> Result<Vec<u8>, OutOfMemory>
    ensures { IfOk result (λ table. table.items ≡ waiting_rules_table) }
{
    let header = b"feeder_route_id,connecting_route_id,stop_id,max_wait\n";
    let mut table = Vec::from_slice(alloc, header)?;
    table.extend_from_slice(b",,,120\n")?;
    Ok(table)
}

// The table of this name, where there is one.
#[tactic(auto, unfolding(crate::specs::Tables::table_named))]
pub(crate) fn table_named(
    alloc: Global,
    trains: u32,
    name: &str,
) -> Result<Option<Vec<u8>>, OutOfMemory>
    requires { trains ≤ 100000 }
    ensures { IfOk result (λ table.
        table_named trains name.now ≡ option_map (λ v. v.items) table) }
{
    let table = match name {
        "stops.txt" => stops_table(alloc)?,
        "trips.txt" => trips_table(alloc, trains)?,
        "stop_times.txt" => stop_times_table(alloc, trains)?,
        "calendar.txt" => calendar_table(alloc)?,
        "waiting_rules.txt" => waiting_rules_table(alloc)?,
        _ => return Ok(None),
    };
    Ok(Some(table))
}
