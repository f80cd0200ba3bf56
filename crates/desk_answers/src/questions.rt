//! Questions about departures and about the time of an event, and the texts of their replies.

ghost use Rattle.std.specs.Prelude.{◌≡◌, ◌<◌, IfOk};
ghost use Rattle.cause_laws.specs.Chains.{why};
ghost use Rattle.message_reader.specs.Resolved.{node_named};
ghost use Rattle.desk_lines.specs.Questions.{departures_resolved, AreWireDepartures};
ghost use Rattle.desk_answers.specs.Questions.{board_text, departures_text, event_text, why_text};

use board_laws::rows::BoardRow;
use cause_laws::causes::Link;
use conn_scan::Scratch;
use delay_model::messages::Refusal;
use delay_report::{Reply, reply_text};
use departures::board;
use desk_lines::{AskedDepartures, WireDepartures, WireEvent, resolve_departures};
use desk_report::{because_text, departures_text as rows_text};
use event_causes::why;
use information_service::{AskTimetable, InformationService};
use message_reader::node;
use mt_base::keys::Node;
use mt_base::memory::OutOfMemory;
use std::alloc::Global;
use std::marker::Brand;
use std::sync::ledger::{Blank, Ledger};
use timetable::Timetable;
use train_nodes::Steps;

/// Finds the next departures of a station.
pub(crate) struct FindDepartures;

impl AskTimetable<AskedDepartures, Vec<BoardRow>> for FindDepartures {
    ghost use Rattle.desk_answers.specs.Questions.{is_board};

    ghost answers = { is_board };

    fn ask(
        alloc: Global,
        timetable: &Timetable,
        _scratch: &mut Scratch,
        question: &AskedDepartures,
    ) -> Result<Vec<BoardRow>, OutOfMemory> {
        board(
            alloc,
            timetable,
            question.place,
            question.since,
            question.rows,
        )
    }
}

/// The chain that decides the time of an event. The steps that it counts are not used.
fn chain_of<L: Ledger>(
    alloc: Global,
    timetable: &Timetable,
    event: &Node,
    blank: Blank,
) -> Result<Vec<Link>, OutOfMemory>
    // the blank has the name and the parts of the ledger
    requires name { blank.name ≡ L.name }
    requires parts { blank.parts ≡ L.parts }
    requires some { 0 < blank.parts }

    ensures { IfOk result (λ links.
        links.items ≡ why timetable.now.network timetable.now.state event.now) }
{
    let mut steps = Steps::<L>::open(blank);
    why(alloc, timetable, *event, &mut steps)
}

/// Finds what decides the time of an event.
pub(crate) struct FindCauses;

impl AskTimetable<Node, Vec<Link>> for FindCauses {
    ghost use Rattle.desk_answers.specs.Questions.{is_chain};

    ghost answers = { is_chain };

    fn ask(
        alloc: Global,
        timetable: &Timetable,
        _scratch: &mut Scratch,
        question: &Node,
    ) -> Result<Vec<Link>, OutOfMemory> {
        chain_of::<Brand>(alloc, timetable, question, Blank::new(1))
    }
}

/// The text of the reply to a question about departures, by number.
fn board_text(
    alloc: Global,
    service: &mut InformationService,
    line: u64,
    asked: &AskedDepartures,
) -> Result<Vec<u8>, OutOfMemory>
    ensures text { IfOk result (λ text. text.items ≡ board_text service.old line asked.now) }
    ensures kept { service.new ≡ service.old }
{
    let rows = service.ask::<FindDepartures, AskedDepartures, Vec<BoardRow>>(alloc, asked)?;
    let after = service.timetable().count();
    rows_text(alloc, line, after, &rows, service.directory())
}

/// The text of the reply to a question about departures, by names.
pub(crate) fn departures_text(
    alloc: Global,
    service: &mut InformationService,
    line: u64,
    asked: &WireDepartures,
) -> Result<Vec<u8>, OutOfMemory>
    requires kept { AreWireDepartures asked.now }
    ensures text { IfOk result (λ text. text.items ≡ departures_text service.old line
        (departures_resolved service.old.names asked.now)) }
    ensures kept { service.new ≡ service.old }
{
    match resolve_departures(asked, service.directory()) {
        Ok(asked) => board_text(alloc, service, line, &asked),
        Err(bad) => reply_text(alloc, &Reply::Bad { line, bad }, service.directory()),
    }
}

/// The text of the reply to a question about a live event, by number: its chain. The message is
/// refused where there is no such event.
fn why_text(
    alloc: Global,
    service: &mut InformationService,
    line: u64,
    event: &Node,
) -> Result<Vec<u8>, OutOfMemory>
    ensures text { IfOk result (λ text. text.items ≡ why_text service.old line event.now) }
    ensures kept { service.new ≡ service.old }
{
    let links = service.ask::<FindCauses, Node, Vec<Link>>(alloc, event)?;
    let after = service.timetable().count();
    if links.is_empty() {
        let refusal = Refusal::Unknown;
        return reply_text(
            alloc,
            &Reply::Refused { line, refusal },
            service.directory(),
        );
    }
    because_text(alloc, line, after, &links, service.directory())
}

/// The text of the reply to a question about an event, by names.
pub(crate) fn event_text(
    alloc: Global,
    service: &mut InformationService,
    line: u64,
    asked: &WireEvent,
) -> Result<Vec<u8>, OutOfMemory>
    ensures text { IfOk result (λ text. text.items ≡ event_text service.old line
        (node_named service.old.names asked.now.dep asked.now.call)) }
    ensures kept { service.new ≡ service.old }
{
    match node(service.directory(), asked.dep, &asked.call) {
        Ok(event) => why_text(alloc, service, line, &event),
        Err(refusal) => reply_text(
            alloc,
            &Reply::Refused { line, refusal },
            service.directory(),
        ),
    }
}
