//! Replies by the names and the timetable that they speak of.

ghost use Rattle.std.specs.Prelude.{◌≡◌, ◌≤◌, ◌<◌, length, IfOk, IfSome};
ghost use Rattle.information_service.specs.Lines.{added_name, with_added, CanBeAdded};
ghost use Rattle.information_service.specs.Output.{reply_to_found, reply_to_refused, IsReplyToQuery};

use conn_scan::{Found, Scratch, earliest};
use delay_model::messages::Refusal;
use delay_report::Reply;
use message_reader::{AskedQuery, Wire};
use mt_base::journeys::PlanRide;
use mt_base::memory::OutOfMemory;
use mt_base::numbers::Day;
use mt_base::rows::Rows;
use schedule_build::{Directory, ExtraName};
use std::alloc::Global;
use timetable::Timetable;

/// The name of the train that a message adds, if it adds one. `OutOfMemory` where there is no
/// memory.
pub(crate) fn added_name(
    alloc: Global,
    directory: &Directory,
    wire: &Wire,
) -> Result<Option<ExtraName>, OutOfMemory>
    ensures { IfOk result (λ name. name ≡ added_name directory.now wire.now) }
{
    if let Wire::Extra { trip, date, .. } = wire
        && let Some(day) = directory.day(*date)
    {
        return Ok(Some(directory.extra_name(alloc, trip.text(), day)?));
    }
    Ok(None)
}

/// Adds the name of an extra train, if there is one.
pub(crate) fn add_name(directory: &mut Directory, name: Option<ExtraName>)
    requires ready { IfSome name (λ n. CanBeAdded directory.old n) }
    ensures { directory.new ≡ with_added name directory.old }
{
    if let Some(name) = name {
        let _ = directory.add_extra(name);
    }
}

/// The reply to a refused message. `OutOfMemory` where there is no memory.
pub(crate) fn reply_to_refused(
    alloc: Global,
    directory: &Directory,
    number: u64,
    wire: &Wire,
    refusal: &Refusal,
) -> Result<Reply, OutOfMemory>
    ensures { IfOk result (λ r. r ≡ reply_to_refused directory.now number wire.now refusal.now) }
{
    if let Wire::Extra { trip, date, .. } = wire
        && let Refusal::AgainstRank { from, to } = refusal
        && let Some(day) = directory.day(*date)
    {
        return Ok(Reply::RefusedExtra {
            line: number,
            trip: trip.copy(alloc)?,
            day,
            from: *from,
            to: *to,
        });
    }
    Ok(Reply::Refused {
        line: number,
        refusal: *refusal,
    })
}

/// The same rides once more.
fn copy_rides(alloc: Global, rides: &[PlanRide]) -> Result<Rows<PlanRide>, OutOfMemory>
    ensures { IfOk result (λ copy. copy ≡ rides.now) }
{
    let mut copy = Vec::with_capacity(alloc, rides.len())?;
    copy.extend_from_slice(rides)?;
    Ok(Rows::build(copy))
}

/// The reply that shows an answer to a query, and these rides of it. The query stands in the line
/// of this number, its time lies on this service day, and it is answered after so many accepted
/// messages. `OutOfMemory` where there is no memory.
pub fn reply_to_found(
    alloc: Global,
    number: u64,
    after: u64,
    day: Day,
    found: &Found,
    rides: &[PlanRide],
) -> Result<Reply, OutOfMemory>
    ensures { IfOk result (λ r. r ≡ reply_to_found number after day found.now rides.now) }
{
    match found {
        Found::Arrives { at } => Ok(Reply::Journey {
            line: number,
            after,
            day,
            arrives: *at,
            rides: copy_rides(alloc, rides)?,
        }),
        Found::NoWay => Ok(Reply::NoJourney {
            line: number,
            after,
        }),
    }
}

/// The reply to a query by number, which stands in the line of this number and is answered after so
/// many accepted messages. `OutOfMemory` where there is no memory.
pub fn reply_to_asked(
    alloc: Global,
    timetable: &Timetable,
    scratch: &mut Scratch,
    number: u64,
    after: u64,
    asked: &AskedQuery,
) -> Result<Reply, OutOfMemory>
    // there is room for the search
    requires stops { length timetable.now.network.stops ≤ scratch.old.room.stops }
    requires numbers { timetable.now.numbers ≤ scratch.old.room.numbers }

    // the reply, and the room that stays
    ensures reply { IfOk result (IsReplyToQuery timetable.now.network timetable.now.state
        after number asked.now.day asked.now.query) }
    ensures room { scratch.new.room ≡ scratch.old.room }
{
    let found = earliest(timetable, &asked.query, scratch);
    reply_to_found(alloc, number, after, asked.day, &found, scratch.rides())
}
