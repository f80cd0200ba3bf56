//! Queries, answered with all best plans.

ghost use Rattle.std.specs.Prelude.{◌≡◌, IfOk};
ghost use Rattle.message_reader.specs.ResolvedQueries.{query_resolved};
ghost use Rattle.message_reader.specs.Wires.{IsWireQuery};
ghost use Rattle.plan_answers.specs.PlannedQueries.{IsPlansText, IsQueryText};

use crate::search::PlanSearch;
use delay_report::{Reply, plans_text, reply_text};
use information_service::InformationService;
use message_reader::{AskedQuery, WireQuery, resolve_query};
use mt_base::memory::OutOfMemory;
use std::alloc::Global;

/// The text of the reply to a query by number, in the line of this number.
fn planned_text(
    alloc: Global,
    service: &InformationService,
    search: &mut PlanSearch,
    line: u64,
    asked: &AskedQuery,
) -> Result<Vec<u8>, OutOfMemory>
    ensures text { IfOk result (λ text. IsPlansText service.now search.old line asked.now
        text.items) }
    ensures kept { search.new ≡ search.old }
{
    let timetable = service.timetable();
    let plans = search.front(alloc, timetable, &asked.query)?;
    let after = timetable.count();
    plans_text(
        alloc,
        line,
        after,
        asked.day,
        plans.as_slice(),
        service.directory(),
    )
}

/// The text of the reply to a query by names, in the line of this number.
pub(crate) fn query_text(
    alloc: Global,
    service: &InformationService,
    search: &mut PlanSearch,
    line: u64,
    query: &WireQuery,
) -> Result<Vec<u8>, OutOfMemory>
    requires times { IsWireQuery query.now }
    ensures text { IfOk result (λ text. IsQueryText service.now search.old line
        (query_resolved service.now.names query.now) text.items) }
    ensures kept { search.new ≡ search.old }
{
    match resolve_query(query, service.directory()) {
        Ok(asked) => planned_text(alloc, service, search, line, &asked),
        Err(bad) => reply_text(alloc, &Reply::Bad { line, bad }, service.directory()),
    }
}
