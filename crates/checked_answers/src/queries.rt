//! Queries, answered with what shows that the answers are right.

ghost use Rattle.std.specs.Prelude.{◌≡◌, IfOk};
ghost use Rattle.message_reader.specs.ResolvedQueries.{query_resolved};
ghost use Rattle.message_reader.specs.Wires.{IsWireQuery};
ghost use Rattle.checked_answers.specs.CheckedQueries.{IsCheckedText, IsQueryText};

use conn_scan::{Scratch, earliest};
use delay_report::{Reply, checked_text, reply_text};
use information_service::{AskTimetable, InformationService, reply_to_found};
use journey_cert::certify;
use message_reader::{AskedQuery, WireQuery, resolve_query};
use mt_base::certificates::Reach;
use mt_base::memory::OutOfMemory;
use mt_base::rows::Rows;
use std::alloc::Global;
use timetable::Timetable;

/// A query by number, and the number of its line.
#[derive(Clone, Copy)]
pub(crate) struct NumberedQuery {
    /// The number of its line.
    pub(crate) line: u64,

    /// The query.
    pub(crate) asked: AskedQuery,
}

/// The reply to a query, with what shows that it is right.
#[derive(Drop)]
pub(crate) struct CheckedReply {
    /// The reply.
    pub(crate) reply: Reply,

    /// Stops with times that show that no journey arrives earlier than the reply says.
    pub(crate) reached: Rows<Reach>,
}

/// Answers a query by a search, of which it keeps the certificate.
pub(crate) struct FindWithCertificate;

impl AskTimetable<NumberedQuery, CheckedReply> for FindWithCertificate {
    ghost use Rattle.checked_answers.specs.CheckedQueries.{is_checked_reply};

    ghost answers = { is_checked_reply };

    fn ask(
        alloc: Global,
        timetable: &Timetable,
        scratch: &mut Scratch,
        question: &NumberedQuery,
    ) -> Result<CheckedReply, OutOfMemory> {
        let query = &question.asked.query;
        let found = earliest(timetable, query, scratch);
        let cert = certify(alloc, timetable, scratch, query, &found)?;
        let after = timetable.count();
        let day = question.asked.day;
        let reply = reply_to_found(alloc, question.line, after, day, &found, scratch.rides())?;
        Ok(CheckedReply {
            reply,
            reached: cert.reached,
        })
    }
}

/// The text of the reply to a query by number, with what shows that it is right.
fn checked_query_text(
    alloc: Global,
    service: &mut InformationService,
    question: &NumberedQuery,
) -> Result<Vec<u8>, OutOfMemory>
    ensures text { IfOk result (λ text. IsCheckedText service.old question.now.line
        question.now.asked text.items) }
    ensures kept { service.new ≡ service.old }
{
    let checked = service.ask::<FindWithCertificate, NumberedQuery, CheckedReply>(alloc, question)?;
    let day = question.asked.day;
    checked_text(
        alloc,
        &checked.reply,
        &checked.reached,
        day,
        service.directory(),
    )
}

/// The text of the reply to a query by names, with what shows that it is right.
pub(crate) fn query_text(
    alloc: Global,
    service: &mut InformationService,
    line: u64,
    query: &WireQuery,
) -> Result<Vec<u8>, OutOfMemory>
    requires times { IsWireQuery query.now }
    ensures text { IfOk result (λ text. IsQueryText service.old line
        (query_resolved service.old.names query.now) text.items) }
    ensures kept { service.new ≡ service.old }
{
    match resolve_query(query, service.directory()) {
        Ok(asked) => checked_query_text(alloc, service, &NumberedQuery { line, asked }),
        Err(bad) => reply_text(alloc, &Reply::Bad { line, bad }, service.directory()),
    }
}
