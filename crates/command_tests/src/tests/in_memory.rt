//! A run over objects in memory that cannot fail.

ghost use Rattle.std.specs.Prelude.{◌≡◌, ◌≤◌, ◌⊎◌, ◌+◌, ◌^◌, [], List, ℕ, Some, true, false, length};
ghost use Rattle.std.specs.Prelude.{map, string_bytes};
ghost use Rattle.command_words.specs.GenWords.{gen_asked_of, is_gen};
ghost use Rattle.command_words.specs.declared.gen_words.AskedGen.{AskedGen as Generated};
ghost use Rattle.mt_io.specs.Tables.{table_in};
ghost use Rattle.commands.specs.Commands.{CanGoWell, IsFrontOf, work_for};
ghost use Rattle.commands.specs.Summaries.{IsOnlySummary};

use commands::{Status, traind_within};
use mt_io::{MemFeed, MemSink, MemSource, NoGate, SureFeed, SureSink, SureSource};
use std::alloc::Global;
use std::sync::Wait;
use std::thread::Threads;

/// A run over a feed, an input and an output in memory, of which no call is to fail. The feed holds
/// a timetable, the input has fewer bytes than may be taken, and for `follow` a journal that is not
/// to be refused, and the output has room for each front of what is to be written. All goes well,
/// unless there is no memory.
pub fn run_in_memory<R: Threads + Wait + Sync>(
    rt: &R,
    alloc: Global,
    words: &[String],
    feed: &mut MemFeed,
    input: &mut MemSource,
    out: &mut MemSink,
    budget: u64,
) -> Status
    requires budget { (1 ≤ budget) × (budget ≤ 2 ^ 63) }
    requires command { is_gen (map string_bytes words.now) ≡ false }

    // no call is to fail
    requires feed { feed.old.failing ≡ [] }
    requires input { input.old.failing ≡ [] }
    requires out { out.old.failing ≡ [] }

    // what is asked can be answered, and there is room for it
    requires can_end { CanGoWell (work_for (map string_bytes words.now))
        (map string_bytes words.now) (Some (table_in feed.old.tables)) (Some input.old.left)
        budget }
    requires room { (written : List ℕ) → IsFrontOf (work_for (map string_bytes words.now)) budget
        (map string_bytes words.now) (Some (table_in feed.old.tables)) (Some input.old.left)
        (Some out.old.held) (Some written) → length written ≤ out.old.room }

    ensures well { (result ≡ Status.Ok) ⊎ (result ≡ Status.OutOfMemory) }
{
    traind_within(
        rt,
        alloc,
        words,
        feed,
        input,
        out,
        &mut SureSink::build(),
        &NoGate,
        budget,
    )
}

/// A run of `gen` over an output in memory, of which no call is to fail, and which has room for the
/// summary. All goes well, unless there is no memory.
pub fn generate_in_memory<R: Threads + Wait + Sync>(
    rt: &R,
    alloc: Global,
    words: &[String],
    out: &mut MemSink,
) -> Status
    requires command { is_gen (map string_bytes words.now) ≡ true }
    requires asked { (asked : Generated)
        × (gen_asked_of (map string_bytes words.now) ≡ Some asked) }

    // no call is to fail, and there is room
    requires out { out.old.failing ≡ [] }
    requires room { (asked : Generated) (line : List ℕ)
        → gen_asked_of (map string_bytes words.now) ≡ Some asked
        → IsOnlySummary asked.trains line
        → length out.old.held + length line ≤ out.old.room }

    ensures well { (result ≡ Status.Ok) ⊎ (result ≡ Status.OutOfMemory) }
{
    traind_within(
        rt,
        alloc,
        words,
        &mut SureFeed::build(alloc),
        &mut SureSource::build(Vec::new(alloc), 1),
        out,
        &mut SureSink::build(),
        &NoGate,
        1,
    )
}
