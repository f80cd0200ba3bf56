//! Queries while every request for memory is refused.

ghost use Rattle.std.specs.Prelude.{◌≡◌, IfOk};
ghost use Rattle.query_crew.specs.Posted.{IsRoomFor};

use crate::tests::example_feed::TABLES;
use crate::tests::exhaustion::{BLOCKS, is_all_refused, take_all};
use crate::tests::{CASE, feed_of, words_of};
use command_words::read_words;
use commands::{LoadedTimetable, load_timetable};
use conn_scan::{Found, Scratch, earliest};
use mt_base::journeys::Query;
use mt_base::memory::OutOfMemory;
use mt_base::numbers::{StopNo, Time};
use std::alloc::Global;
use std::test::*;
use timetable::Timetable;

/// How many stops, stations and platforms the feed has.
pub(super) const PLACES: u32 = 6;

/// The timetable of the feed, by the options that the program has without further words.
pub(super) fn loaded_feed(alloc: Global) -> Result<LoadedTimetable, Fail> {
    let words = words_of(alloc, CASE.words)?;
    let asked = match read_words(alloc, &words) {
        Ok(asked) => asked,
        Err(fault) => return Err(Fail::from(fault)),
    };
    let mut feed = feed_of(alloc, &TABLES, None)?;
    Ok(load_timetable(
        alloc,
        asked.folder,
        asked.first,
        asked.days,
        &asked.zone,
        &asked.opts,
        &mut feed,
    )?)
}

/// Whether there is a journey from one place to another from 08:00:00 on.
fn is_reached(timetable: &Timetable, scratch: &mut Scratch, from: u32, to: u32) -> bool
    requires room { IsRoomFor timetable.now scratch.old.room }
    ensures room { scratch.new.room ≡ scratch.old.room }
{
    let query = Query {
        from_stop: StopNo::new(from),
        to_stop: StopNo::new(to),
        time: Time::new(28_800),
    };
    earliest(timetable, &query, scratch) != Found::NoWay
}

/// Between how many pairs of places there is a journey.
fn count_reached(timetable: &Timetable, scratch: &mut Scratch) -> u32
    requires room { IsRoomFor timetable.now scratch.old.room }
{
    let mut reached = 0_u32;
    for pair in 0..PLACES * PLACES {
        if is_reached(timetable, scratch, pair / PLACES, pair % PLACES) {
            reached = reached.saturating_add(1);
        }
    }
    reached
}

/// What the queries gave, and whether every request was refused before and after them.
#[derive(Clone, Copy, Debug, PartialEq, Eq)]
struct Outcome {
    reached: u32,
    is_refused: bool,
}

/// Takes all memory that is left, and asks for journeys between all pairs of places.
fn query(
    alloc: Global,
    timetable: &Timetable,
    scratch: &mut Scratch,
    taken: &mut Vec<Vec<u8>>,
) -> Outcome
    requires room { IsRoomFor timetable.now scratch.old.room }
{
    take_all(alloc, taken);
    let is_refused = is_all_refused(alloc);
    let reached = count_reached(timetable, scratch);
    Outcome {
        reached,
        is_refused: is_refused && is_all_refused(alloc),
    }
}

/// Room for queries over a timetable.
pub(super) fn scratch_for(alloc: Global, timetable: &Timetable) -> Result<Scratch, OutOfMemory>
    ensures { IfOk result (λ scratch. IsRoomFor timetable.now scratch.room) }
{
    let stops = timetable.graph().changes().stops();
    Scratch::build(alloc, stops, timetable.numbers())
}

/// Makes what queries want beforehand, and asks them without memory.
fn query_without_memory(alloc: Global, timetable: &Timetable) -> Result<Outcome, OutOfMemory> {
    let mut taken = Vec::with_capacity(alloc, BLOCKS)?;
    let mut scratch = scratch_for(alloc, timetable)?;
    Ok(query(alloc, timetable, &mut scratch, &mut taken))
}

/// Loads the timetable, and asks queries of it without memory.
fn load_and_query(alloc: Global) -> Result<Outcome, Fail> {
    let loaded = loaded_feed(alloc)?;
    Ok(query_without_memory(alloc, &loaded.timetable)?)
}

/// Memory runs out only where the process may have less than is taken, so the test says whether
/// it did.
#[test]
fn queries_want_no_memory(rt: HostRuntime) -> Result<(), Fail> {
    let outcome = load_and_query(rt.alloc())?;
    assert_eq!(rt; outcome.reached, 23);
    println!(rt; "every request was refused: {}", outcome.is_refused)?;
    Ok(())
}
