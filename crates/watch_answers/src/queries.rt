//! Queries, answered with a journey that is watched from then on.

ghost use Rattle.std.specs.Prelude.{◌≡◌, IfOk, OnOk};
ghost use Rattle.message_reader.specs.ResolvedQueries.{query_resolved};
ghost use Rattle.message_reader.specs.Wires.{IsWireQuery};
ghost use Rattle.watch_answers.specs.WatchedMessages.{are_kept};
ghost use Rattle.watch_answers.specs.WatchedQueries.{IsQueryText, IsWatchedReply, is_watched, with_shown};

use conn_scan::Scratch;
use delay_report::{Reply, reply_text, watched_text};
use information_service::{AskTimetable, InformationService, reply_to_asked};
use journey_watch::{AddFault, Watch};
use message_reader::{AskedQuery, WireQuery, resolve_query};
use mt_base::journeys::Query;
use mt_base::memory::OutOfMemory;
use std::alloc::{AllocError, Global};
use timetable::Timetable;

/// A query by number, and the number of its line.
#[derive(Clone, Copy)]
pub(crate) struct NumberedQuery {
    /// The number of its line.
    pub(crate) line: u64,

    /// The query.
    pub(crate) asked: AskedQuery,
}

/// Answers a query by a search.
pub(crate) struct FindJourney;

impl AskTimetable<NumberedQuery, Reply> for FindJourney {
    ghost use Rattle.watch_answers.specs.WatchedQueries.{is_reply_to};

    ghost answers = { is_reply_to };

    fn ask(
        alloc: Global,
        timetable: &Timetable,
        scratch: &mut Scratch,
        question: &NumberedQuery,
    ) -> Result<Reply, OutOfMemory> {
        let after = timetable.count();
        reply_to_asked(
            alloc,
            timetable,
            scratch,
            question.line,
            after,
            &question.asked,
        )
    }
}

/// Watches the journey of a query that a reply shows, under the number of its line, if there is one
/// and there is room, and answers whether it is watched.
fn watch_shown(
    alloc: Global,
    kept: &mut Watch,
    line: u64,
    query: &Query,
    reply: &Reply,
) -> Result<bool, OutOfMemory>
    ensures watched { IfOk result (λ watched. watched ≡ is_watched kept.old reply.now) }
    ensures kept { OnOk result (kept.new ≡ with_shown kept.old line query.now reply.now) }
{
    let Reply::Journey { day, rides, .. } = reply else {
        return Ok(false);
    };
    match kept.add(alloc, line, *day, query, rides.as_slice()) {
        Ok(()) => Ok(true),
        Err(AddFault::Full) => Ok(false),
        Err(AddFault::OutOfMemory) => Err(AllocError),
    }
}

/// The text of the reply to a query by number.
fn asked_text(
    alloc: Global,
    service: &mut InformationService,
    kept: &mut Watch,
    line: u64,
    asked: &AskedQuery,
) -> Result<Vec<u8>, OutOfMemory>
    requires fits { are_kept service.old.network service.old.state kept.old }
    ensures text { IfOk result (λ text. IsWatchedReply service.old kept.old line asked.now
        text.items kept.new) }
    ensures fits { OnOk result (are_kept service.old.network service.old.state kept.new) }
    ensures unchanged { service.new ≡ service.old }
{
    service.timetable().state_is_valid();
    let question = NumberedQuery {
        line,
        asked: *asked,
    };
    let reply = service.ask::<FindJourney, NumberedQuery, Reply>(alloc, &question)?;
    let watched = watch_shown(alloc, kept, line, &asked.query, &reply)?;
    watched_text(alloc, &reply, watched, service.directory())
}

/// The text of the reply to a query by names, in the line of this number.
pub(crate) fn query_text(
    alloc: Global,
    service: &mut InformationService,
    kept: &mut Watch,
    line: u64,
    query: &WireQuery,
) -> Result<Vec<u8>, OutOfMemory>
    requires times { IsWireQuery query.now }
    requires fits { are_kept service.old.network service.old.state kept.old }
    ensures text { IfOk result (λ text. IsQueryText service.old kept.old line
        (query_resolved service.old.names query.now) text.items kept.new) }
    ensures fits { OnOk result (are_kept service.old.network service.old.state kept.new) }
    ensures unchanged { service.new ≡ service.old }
{
    match resolve_query(query, service.directory()) {
        Ok(asked) => asked_text(alloc, service, kept, line, &asked),
        Err(bad) => reply_text(alloc, &Reply::Bad { line, bad }, service.directory()),
    }
}
