//! The JSON objects of replies.

ghost use Rattle.std.specs.Prelude.{◌≡◌, ◌-◌, codes, IfOk};
ghost use Rattle.serde_json.specs.Data.{unsigned, number, string, object, no_members, member};
ghost use Rattle.serde_json.specs.View.{view};
ghost use Rattle.schedule_build.specs.Directory.{date_of_day, base_of};
ghost use Rattle.delay_report.specs.Clocks.{clock, date_text};
ghost use Rattle.delay_report.specs.Replies.{event_word, bad_word, short_word, event_of_trip, event_object, plain_refusal, contradiction_object, rank_object, full_object, refusal_object, refused_extra_object, bad_object, flush_object};
ghost use Rattle.delay_report.specs.Trains.{date_of_train, seconds_on_day};

use crate::clocks::{date_text, write_clock};
use delay_model::messages::{Refusal, Short};
use message_reader::BadLine;
use mt_base::keys::Node;
use mt_base::memory::OutOfMemory;
use mt_base::numbers::{Day, Time, TrainNo};
use schedule_build::Directory;
use serde_json::{Value, json};
use std::alloc::Global;
use std::str;

/// The word for a departure or an arrival.
pub fn event_word(dep: bool) -> &'static str
    ensures { result.now ≡ event_word dep }
{
    if dep { "dep" } else { "arr" }
}

fn bad_word(bad: BadLine) -> &'static str
    ensures { result.now ≡ bad_word bad }
{
    match bad {
        BadLine::Long => "long",
        BadLine::Utf8 => "utf8",
        BadLine::Json => "json",
        BadLine::Shape => "shape",
        BadLine::Stop => "stop",
        BadLine::Time => "time",
    }
}

fn short_word(what: Short) -> &'static str
    ensures { result.now ≡ short_word what }
{
    match what {
        Short::Trains => "trains",
        Short::Calls => "calls",
        Short::Overrides => "overrides",
    }
}

/// The date of a train's service day, in eight digits.
pub(crate) fn date_of_train(dir: &Directory, train: TrainNo) -> [u8; 8]
    ensures { result ≡ date_of_train dir.now train }
{
    date_text(dir.date(dir.train_day(train)))
}

/// The seconds from the base of a service day to a time.
pub(crate) fn seconds_after(dir: &Directory, day: Day, time: Time) -> u32
    ensures { result ≡ time - base_of dir.now day }
{
    time.seconds().saturating_sub(dir.base(day).seconds())
}

/// The seconds from the base of a train's service day to a time.
pub fn seconds_on_day(dir: &Directory, train: TrainNo, time: Time) -> u32
    ensures { result ≡ seconds_on_day dir.now train time }
{
    seconds_after(dir, dir.train_day(train), time)
}

/// The date of a service day, in eight digits. `OutOfMemory` where there is no memory.
pub fn date_value(alloc: Global, dir: &Directory, day: Day) -> Result<Value, OutOfMemory>
    ensures { IfOk result (λ v. view v ≡ string (date_text (date_of_day dir.now day))) }
{
    let digits = date_text(dir.date(day));
    let text = str::from_utf8(&digits).unwrap();
    json!(in alloc; text)
}

/// The time of day so many seconds after the base of a service day. `OutOfMemory` where there is no
/// memory.
pub fn clock_value(alloc: Global, seconds: u32) -> Result<Value, OutOfMemory>
    ensures { IfOk result (λ v. view v ≡ string (clock seconds)) }
{
    let mut digits = Vec::new(alloc);
    write_clock(&mut digits, seconds)?;
    let text = str::from_utf8(&digits).unwrap();
    json!(in alloc; text)
}

/// The object that names an event of the train of a trip on a service day.
fn event_of_trip(
    alloc: Global,
    dir: &Directory,
    trip: &str,
    day: Day,
    event: &Node,
) -> Result<Value, OutOfMemory>
    ensures { IfOk result (λ v. view v ≡ event_of_trip dir.now trip.now day event.now) }
{
    let date = date_value(alloc, dir, day)?;
    json!(in alloc; {
        "call": u64::from(event.label.get()),
        "date": date,
        "event": event_word(event.dep),
        "trip": trip
    })
}

/// The object that names an event of a train of the directory.
fn event_value(alloc: Global, dir: &Directory, event: &Node) -> Result<Value, OutOfMemory>
    ensures { IfOk result (λ v. view v ≡ event_object dir.now event.now) }
{
    let trip = dir.trip_name(event.train);
    event_of_trip(alloc, dir, trip, dir.train_day(event.train), event)
}

/// A refusal of which the word says all.
fn plain_value(alloc: Global, line: u64, word: &str) -> Result<Value, OutOfMemory>
    ensures { IfOk result (λ v. view v ≡ plain_refusal line word.now) }
{
    json!(in alloc; {"line": line, "refused": word})
}

fn contradiction_value(
    alloc: Global,
    dir: &Directory,
    line: u64,
    event: &Node,
    reported: Time,
) -> Result<Value, OutOfMemory>
    ensures { IfOk result (λ v. view v ≡ contradiction_object dir.now line event.now reported) }
{
    let reported = clock_value(alloc, seconds_on_day(dir, event.train, reported))?;
    let event = event_value(alloc, dir, event)?;
    json!(in alloc; {
        "event": event,
        "line": line,
        "refused": "Contradiction",
        "reported": reported
    })
}

fn rank_value(alloc: Global, line: u64, from: Value, to: Value) -> Result<Value, OutOfMemory>
    ensures { IfOk result (λ v. view v ≡ rank_object line (view from) (view to)) }
{
    json!(in alloc; {"from": from, "line": line, "refused": "AgainstRank", "to": to})
}

fn full_value(alloc: Global, line: u64, what: Short) -> Result<Value, OutOfMemory>
    ensures { IfOk result (λ v. view v ≡ full_object line what) }
{
    json!(in alloc; {"full": short_word(what), "line": line, "refused": "Full"})
}

/// The object for a refused message.
pub(crate) fn refusal_value(
    alloc: Global,
    dir: &Directory,
    line: u64,
    refusal: &Refusal,
) -> Result<Value, OutOfMemory>
    ensures { IfOk result (λ v. view v ≡ refusal_object dir.now line refusal.now) }
{
    match refusal {
        Refusal::Unknown => plain_value(alloc, line, "Unknown"),
        Refusal::Known => plain_value(alloc, line, "Known"),
        Refusal::NoConnection => plain_value(alloc, line, "NoConnection"),
        Refusal::Contradiction { event, reported } => {
            contradiction_value(alloc, dir, line, event, *reported)
        }
        Refusal::AgainstRank { from, to } => {
            let from = event_value(alloc, dir, from)?;
            let to = event_value(alloc, dir, to)?;
            rank_value(alloc, line, from, to)
        }
        Refusal::Full { what } => full_value(alloc, line, *what),
        Refusal::Nothing => plain_value(alloc, line, "Nothing"),
    }
}

/// The object for an extra train that is refused since an edge of it, between these events, runs
/// against the order of keys.
pub(crate) fn refused_extra_value(
    alloc: Global,
    dir: &Directory,
    line: u64,
    trip: &str,
    day: Day,
    from: &Node,
    to: &Node,
) -> Result<Value, OutOfMemory>
    ensures { IfOk result (λ v. view v ≡ refused_extra_object dir.now line trip.now day from.now
        to.now) }
{
    let from = event_of_trip(alloc, dir, trip, day, from)?;
    let to = event_of_trip(alloc, dir, trip, day, to)?;
    rank_value(alloc, line, from, to)
}

/// The object for a bad line.
pub(crate) fn bad_value(alloc: Global, line: u64, bad: BadLine) -> Result<Value, OutOfMemory>
    ensures { IfOk result (λ v. view v ≡ bad_object line bad) }
{
    json!(in alloc; {"bad": bad_word(bad), "line": line})
}

/// The object for a flush.
pub(crate) fn flush_value(alloc: Global, line: u64, count: u64) -> Result<Value, OutOfMemory>
    ensures { IfOk result (λ v. view v ≡ flush_object line count) }
{
    json!(in alloc; {"flush": count, "line": line})
}
