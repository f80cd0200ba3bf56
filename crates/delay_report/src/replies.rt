//! Replies.

ghost use Rattle.std.specs.Prelude.{◌≡◌, ◌++◌, false, decimal, IfOk, OnOk};
ghost use Rattle.serde_json.specs.View.{view};
ghost use Rattle.serde_json.specs.Written.{has_float};
ghost use Rattle.delay_report.specs.Replies.{accepted_object, line_of, text_of_reply};

use crate::journeys::{journey_value, no_journey_value};
use crate::objects::{bad_value, flush_value, refusal_value, refused_extra_value};
use delay_model::messages::Refusal;
use itoa::Buffer;
use message_reader::BadLine;
use mt_base::journeys::PlanRide;
use mt_base::keys::Node;
use mt_base::memory::OutOfMemory;
use mt_base::names::Name;
use mt_base::numbers::{Day, Time};
use mt_base::rows::Rows;
use schedule_build::Directory;
use serde_json::Value;
use std::alloc::Global;

/// The most bytes that the reply to an accepted message has, with three numbers of 20 digits.
const ACCEPTED_ROOM: usize = 93;

/// What is answered to a line, which is numbered from 1.
#[derive(Drop)]
pub enum Reply {
    /// The message is the one of this number among those accepted, from 1, and changed so many
    /// events: those that it took away or added, and those that have another time.
    Accepted {
        line: u64,
        number: u64,
        changed: u64,
    },
    /// The message is refused.
    Refused {
        line: u64,
        refusal: Refusal,
    },
    /// An extra train is refused, since an edge of it between these events runs against the order
    /// of keys. The directory does not have it, so its trip and its service day are told.
    RefusedExtra {
        line: u64,
        trip: Name,
        day: Day,
        from: Node,
        to: Node,
    },
    /// The line is bad.
    Bad {
        line: u64,
        bad: BadLine,
    },
    /// A flush, after so many accepted messages.
    Flush {
        line: u64,
        count: u64,
    },
    /// The answer to a query after so many accepted messages: these rides, in their order, are a
    /// journey that arrives at this time, which counts from the base of day 0, and none arrives
    /// earlier. The time of the query lies on this service day.
    Journey {
        line: u64,
        after: u64,
        day: Day,
        arrives: Time,
        rides: Rows<PlanRide>,
    },
    /// The answer to a query after so many accepted messages: it has no journey.
    NoJourney {
        line: u64,
        after: u64,
    },
}

/// Appends a text and a number.
fn push_number(text: &mut Vec<u8>, before: &[u8], number: u64) -> Result<(), OutOfMemory>
    ensures { OnOk result (text.new.items ≡ text.old.items ++ (before.now ++ decimal number)) }
{
    text.extend_from_slice(before)?;
    text.extend_from_slice(Buffer::new().format(number).as_bytes())
}

/// The bytes of the reply to an accepted message, which is the most frequent one.
fn accepted_text(
    alloc: Global,
    line: u64,
    number: u64,
    changed: u64,
) -> Result<Vec<u8>, OutOfMemory>
    ensures { IfOk result (λ b. b.items ≡ line_of (accepted_object line number changed)) }
{
    let mut text = Vec::with_capacity(alloc, ACCEPTED_ROOM)?;
    push_number(&mut text, b"{\"accepted\":", number)?;
    push_number(&mut text, b",\"changed\":", changed)?;
    push_number(&mut text, b",\"line\":", line)?;
    text.extend_from_slice(b"}\n")?;
    Ok(text)
}

/// The bytes of an object without blanks, and an LF. `OutOfMemory` where there is no memory.
pub fn object_text(alloc: Global, value: &Value) -> Result<Vec<u8>, OutOfMemory>
    requires { has_float (view value.now) ≡ false }
    ensures { IfOk result (λ b. b.items ≡ line_of (view value.now)) }
{
    let mut text = value.to_string(alloc)?.into_bytes();
    text.push(b'\n')?;
    Ok(text)
}

/// The bytes of a reply: a JSON object without blanks, and an LF. `OutOfMemory` where there is no
/// memory.
#[tactic(auto, using(crate::proofs::ReplyTexts::rides_are_whole), unfolding(crate::specs::Replies::text_of_reply))]
pub fn reply_text(alloc: Global, reply: &Reply, dir: &Directory) -> Result<Vec<u8>, OutOfMemory>
    ensures { IfOk result (λ b. b.items ≡ text_of_reply dir.now reply.now) }
{
    match reply {
        Reply::Accepted {
            line,
            number,
            changed,
        } => accepted_text(alloc, *line, *number, *changed),
        Reply::Refused { line, refusal } => {
            object_text(alloc, &refusal_value(alloc, dir, *line, refusal)?)
        }
        Reply::RefusedExtra {
            line,
            trip,
            day,
            from,
            to,
        } => object_text(
            alloc,
            &refused_extra_value(alloc, dir, *line, trip.text(), *day, from, to)?,
        ),
        Reply::Bad { line, bad } => object_text(alloc, &bad_value(alloc, *line, *bad)?),
        Reply::Flush { line, count } => object_text(alloc, &flush_value(alloc, *line, *count)?),
        Reply::Journey {
            line,
            after,
            day,
            arrives,
            rides,
        } => object_text(
            alloc,
            &journey_value(alloc, dir, *line, *after, *day, *arrives, rides.as_slice())?,
        ),
        Reply::NoJourney { line, after } => {
            object_text(alloc, &no_journey_value(alloc, *line, *after)?)
        }
    }
}
