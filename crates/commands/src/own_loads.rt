//! What the commands load behind the feed that answer line by line.

ghost use Rattle.std.specs.Prelude.{◌≡◌, IfOk, option_map};
ghost use Rattle.command_words.specs.Held.{asked_view};
ghost use Rattle.commands.specs.OwnLoads.{head_of, HasJournalLine, IsMissingFault};

use crate::loading::{LoadBehind, LoadFault};
use command_words::Asked;
use information_service::InformationService;
use journal_answers::HeaderText;
use journal_lines::Head;
use journal_replay::{JournalRefusal, replay};
use journey_watch::Watch;
use mt_base::memory::OutOfMemory;
use mt_base::names::Name;
use plan_answers::PlanSearch;
use std::alloc::Global;

/// Keeps the room of the search for plans, up to as many rides as the words ask for.
pub struct LoadPlans;

impl LoadBehind<PlanSearch> for LoadPlans {
    ghost use Rattle.commands.specs.OwnLoads.{plans_behind};

    ghost behind = { plans_behind };

    fn table() -> Option<&'static str> {
        None
    }

    fn load(
        alloc: Global,
        asked: &Asked<'_>,
        _table: Option<Vec<u8>>,
        service: &mut InformationService,
    ) -> Result<PlanSearch, LoadFault> {
        Ok(PlanSearch::build(alloc, asked.rides, service)?)
    }

    fn networks_are_begun_alike() {}
}

/// How many journeys `watch` watches at most.
const WATCHED: u32 = 10_000;

/// Keeps the journeys that are watched, of which there is none at first.
pub struct LoadWatch;

impl LoadBehind<Watch> for LoadWatch {
    ghost use Rattle.commands.specs.OwnLoads.{watch_behind};

    ghost behind = { watch_behind };

    fn table() -> Option<&'static str> {
        None
    }

    fn load(
        alloc: Global,
        _asked: &Asked<'_>,
        _table: Option<Vec<u8>>,
        _service: &mut InformationService,
    ) -> Result<Watch, LoadFault> {
        Ok(Watch::build(alloc, WATCHED)?)
    }

    fn networks_are_begun_alike() {}
}

/// The text of a zone as a name, where one is given.
fn zone_name(alloc: Global, text: Option<&str>) -> Result<Option<Name>, OutOfMemory>
    ensures { IfOk result (λ name. name ≡ option_map (λ t. t.now) text.entry) }
{
    match text {
        Some(text) => Ok(Some(Name::build(alloc, text)?)),
        None => Ok(None),
    }
}

/// The head of a journal over the feed and with the options that the words ask for.
pub(crate) fn head_of(alloc: Global, asked: &Asked<'_>) -> Result<Head, OutOfMemory>
    ensures { IfOk result (λ head. head ≡ head_of (asked_view asked.now)) }
{
    Ok(Head {
        first: asked.first,
        days: asked.days,
        opts: asked.opts,
        zone: zone_name(alloc, asked.zone_text)?,
    })
}

/// Keeps the header of the journal that is written.
pub struct LoadHeader;

impl LoadBehind<HeaderText> for LoadHeader {
    ghost use Rattle.commands.specs.OwnLoads.{header_behind};

    ghost behind = { header_behind };

    fn table() -> Option<&'static str> {
        None
    }

    fn load(
        alloc: Global,
        asked: &Asked<'_>,
        _table: Option<Vec<u8>>,
        _service: &mut InformationService,
    ) -> Result<HeaderText, LoadFault> {
        let head = head_of(alloc, asked)?;
        Ok(HeaderText::build(alloc, &head)?)
    }

    fn networks_are_begun_alike() {}
}

/// The line by which a journal is refused, or want of memory.
pub(crate) fn journal_fault(alloc: Global, refusal: JournalRefusal) -> LoadFault
    ensures { HasJournalLine refusal result }
{
    let line = match refusal {
        JournalRefusal::Header => {
            String::from_str(
                alloc,
                "traind: feed refused: journal.jsonl row 1: bad header\n",
            )
        }
        JournalRefusal::Line { line } => {
            format!(in alloc; "traind: feed refused: journal.jsonl row {line}: bad line\n")
        }
        JournalRefusal::OutOfMemory => return LoadFault::OutOfMemory,
    };
    match line {
        Ok(line) => LoadFault::Refused(line.into_bytes()),
        Err(_) => LoadFault::OutOfMemory,
    }
}

/// The line by which a feed's folder without a journal is refused, or want of memory.
fn missing_fault(alloc: Global) -> LoadFault
    ensures { IsMissingFault result }
{
    match Vec::from_slice(alloc, b"traind: feed refused: missing journal.jsonl\n") {
        Ok(line) => LoadFault::Refused(line),
        Err(_) => LoadFault::OutOfMemory,
    }
}

/// Gives the messages of the journal in the feed's folder to the service, and keeps nothing.
pub struct LoadJournal;

impl LoadBehind<()> for LoadJournal {
    ghost use Rattle.commands.specs.OwnLoads.{journal_behind};

    ghost behind = { journal_behind };

    fn table() -> Option<&'static str> {
        Some("journal.jsonl")
    }

    fn load(
        alloc: Global,
        asked: &Asked<'_>,
        table: Option<Vec<u8>>,
        service: &mut InformationService,
    ) -> Result<(), LoadFault> {
        let Some(bytes) = table else {
            return Err(missing_fault(alloc));
        };
        let head = head_of(alloc, asked)?;
        match replay(alloc, &head, bytes.as_slice(), service) {
            Ok(_) => Ok(()),
            Err(refusal) => Err(journal_fault(alloc, refusal)),
        }
    }

    fn networks_are_begun_alike() {}
}
