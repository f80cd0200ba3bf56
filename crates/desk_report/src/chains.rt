//! Replies with the chain of events that decides the time of an event, written link by link, since a
//! chain may be long.

ghost use Rattle.std.specs.Prelude.{◌≡◌, ◌++◌, false, decimal, string_bytes, IfOk, OnOk};
ghost use Rattle.serde_json.specs.View.{view};
ghost use Rattle.serde_json.specs.Written.{comma_if, compact_text, items_text};
ghost use Rattle.desk_report.specs.Chains.{cause_word, link_object, link_objects, text_of_because};

use cause_laws::causes::{Cause, Link};
use delay_report::{clock_value, date_value, event_word, seconds_on_day};
use itoa::Buffer;
use mt_base::memory::OutOfMemory;
use schedule_build::Directory;
use serde_json::{Value, json};
use std::alloc::Global;

/// The word for a cause.
fn cause_word(cause: &Cause) -> &'static str
    ensures { result.now ≡ cause_word cause.now }
{
    match cause {
        Cause::Report => "report",
        Cause::Capped { .. } => "capped",
        Cause::Schedule => "schedule",
        Cause::Forecast => "forecast",
        Cause::Run { .. } => "run",
        Cause::Stop { .. } => "stop",
        Cause::Hold { .. } => "hold",
        Cause::Kept { .. } => "kept",
    }
}

/// The object for a link.
fn link_value(alloc: Global, dir: &Directory, link: &Link) -> Result<Value, OutOfMemory>
    ensures { IfOk result (λ v. view v ≡ link_object dir.now link.now) }
{
    let train = link.event.train;
    let date = date_value(alloc, dir, dir.train_day(train))?;
    let time = clock_value(alloc, seconds_on_day(dir, train, link.time))?;
    json!(in alloc; {
        "by": cause_word(&link.cause),
        "call": u64::from(link.event.label.get()),
        "date": date,
        "event": event_word(link.event.dep),
        "time": time,
        "trip": dir.trip_name(train)
    })
}

/// The text of the object for a link, without blanks.
fn link_text(alloc: Global, dir: &Directory, link: &Link) -> Result<String, OutOfMemory>
    ensures { IfOk result (λ s. string_bytes s ≡ compact_text (link_object dir.now link.now)) }
{
    let text = link_value(alloc, dir, link)?.to_string(alloc)?;
    Ok(text)
}

/// A comma, where something stands before.
fn comma_if(later: bool) -> &'static [u8]
    ensures { result.now ≡ comma_if later }
{
    if later { b"," } else { b"" }
}

/// Appends a link, behind a comma where it is not the first one.
fn push_link(
    alloc: Global,
    text: &mut Vec<u8>,
    dir: &Directory,
    later: bool,
    link: &Link,
) -> Result<(), OutOfMemory>
    ensures { OnOk result (text.new.items
        ≡ text.old.items ++ (comma_if later ++ compact_text (link_object dir.now link.now))) }
{
    let object = link_text(alloc, dir, link)?;
    text.extend_from_slice(comma_if(later))?;
    text.extend_from_slice(object.as_bytes())
}

/// Appends the links with commas between them, and the bracket that closes their list.
fn push_links(
    alloc: Global,
    text: &mut Vec<u8>,
    dir: &Directory,
    links: &[Link],
) -> Result<(), OutOfMemory>
    ensures { OnOk result (text.new.items
        ≡ text.old.items ++ items_text false (link_objects dir.now links.now)) }
{
    let mut later = false;
    for link in links {
        push_link(alloc, text, dir, later, link)?;
        later = true;
    }
    text.push(b']')?;
    Ok(())
}

/// Appends a text and a number.
fn push_number(text: &mut Vec<u8>, before: &[u8], number: u64) -> Result<(), OutOfMemory>
    ensures { OnOk result (text.new.items ≡ text.old.items ++ (before.now ++ decimal number)) }
{
    text.extend_from_slice(before)?;
    text.extend_from_slice(Buffer::new().format(number).as_bytes())
}

/// The bytes of the reply to the question, in the line of a number, why an event is when it is in
/// the timetable after so many accepted messages: a JSON object without blanks, and an LF.
/// `OutOfMemory` where there is no memory.
pub fn because_text(
    alloc: Global,
    line: u64,
    after: u64,
    links: &[Link],
    dir: &Directory,
) -> Result<Vec<u8>, OutOfMemory>
    ensures { IfOk result (λ b. b.items ≡ text_of_because dir.now line after links.now) }
{
    let mut text = Vec::new(alloc);
    push_number(&mut text, b"{\"after\":", after)?;
    text.extend_from_slice(b",\"because\":[")?;
    push_links(alloc, &mut text, dir, links)?;
    push_number(&mut text, b",\"line\":", line)?;
    text.extend_from_slice(b"}\n")?;
    Ok(text)
}
