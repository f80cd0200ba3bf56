//! Replies with the next departures of a station.

ghost use Rattle.std.specs.Prelude.{◌≡◌, IfOk};
ghost use Rattle.serde_json.specs.Data.{array};
ghost use Rattle.serde_json.specs.View.{view};
ghost use Rattle.desk_report.specs.Departures.{departures_object, row_object, row_objects, text_of_departures};

use board_laws::rows::BoardRow;
use delay_report::{clock_value, date_value, object_text, seconds_on_day};
use mt_base::memory::OutOfMemory;
use schedule_build::Directory;
use serde_json::{Value, json};
use std::alloc::Global;

/// The object for a departure.
fn row_value(alloc: Global, dir: &Directory, row: &BoardRow) -> Result<Value, OutOfMemory>
    ensures { IfOk result (λ v. view v ≡ row_object dir.now row.now) }
{
    let train = row.event.train;
    let date = date_value(alloc, dir, dir.train_day(train))?;
    let scheduled = clock_value(alloc, seconds_on_day(dir, train, row.event.time))?;
    let time = clock_value(alloc, seconds_on_day(dir, train, row.time))?;
    json!(in alloc; {
        "call": u64::from(row.event.label.get()),
        "date": date,
        "scheduled": scheduled,
        "stop": dir.stop_name(row.stop),
        "time": time,
        "to": dir.stop_name(row.to),
        "trip": dir.trip_name(train)
    })
}

/// The list of the objects for these departures.
#[tactic(auto, using(crate::proofs::DepartureTexts::rows_listed))]
fn row_values(alloc: Global, dir: &Directory, rows: &[BoardRow]) -> Result<Value, OutOfMemory>
    ensures { IfOk result (λ v. view v ≡ array (row_objects dir.now rows.now)) }
{
    let mut values = Vec::with_capacity(alloc, rows.len())?;
    for row in rows {
        values.push(row_value(alloc, dir, row)?)?;
    }
    Ok(Value::Array(values))
}

/// The object for these departures.
fn departures_value(
    alloc: Global,
    dir: &Directory,
    line: u64,
    after: u64,
    rows: &[BoardRow],
) -> Result<Value, OutOfMemory>
    ensures { IfOk result (λ v. view v ≡ departures_object dir.now line after rows.now) }
{
    let departures = row_values(alloc, dir, rows)?;
    json!(in alloc; {"after": after, "departures": departures, "line": line})
}

/// The bytes of the reply to the question, in the line of a number, for the next departures of a
/// station in the timetable after so many accepted messages: a JSON object without blanks, and an
/// LF. `OutOfMemory` where there is no memory.
#[tactic(auto, using(crate::proofs::DepartureTexts::rows_are_whole), unfolding(crate::specs::Departures::text_of_departures))]
pub fn departures_text(
    alloc: Global,
    line: u64,
    after: u64,
    rows: &[BoardRow],
    dir: &Directory,
) -> Result<Vec<u8>, OutOfMemory>
    ensures { IfOk result (λ b. b.items ≡ text_of_departures dir.now line after rows.now) }
{
    object_text(alloc, &departures_value(alloc, dir, line, after, rows)?)
}
