//! The program as a call: its commands over any feed, input and outputs.

ghost use Rattle.std.specs.Prelude.{◌≡◌, ◌≤◌, ◌^◌, map, true, false, string_bytes};
ghost use Rattle.command_words.specs.GenWords.{is_gen};
ghost use Rattle.commands.specs.Commands.{MeetsContractOf, command_named, work_for};
ghost use Rattle.commands.specs.Contract.{EndsAs, MeetsContract, byte_budget};
ghost use Rattle.commands.specs.Seen.{feed_seen, stream_seen};
ghost use Rattle.commands.specs.GenContract.{MeetsGenContract};
ghost use Rattle.commands.specs.LineTasks.{BeginsFitting, line_task};
ghost use Rattle.commands.specs.Tasks.{served_output, service_task, times_output};

use crate::beginning::begin;
use crate::feed::{load_asked, load_service};
use crate::following::run_follow;
use crate::generated::run_gen;
use crate::loading::{LoadBehind, LoadNothing};
use crate::own_loads::{LoadHeader, LoadJournal, LoadPlans, LoadWatch};
use crate::refusal::feed_stop;
use crate::status::{Status, Stop, run_of};
use crate::telling::tell;
use checked_answers::CheckLines;
use command_words::{Command, is_gen, read_words};
use desk_answers::DeskLines;
use information_service::{AnswerLines, WriteReplies, answer_input, write_output};
use journal_answers::{HeaderText, JournalLines};
use journey_watch::Watch;
use mt_io::{Feed, Gate, Sink, Source};
use plan_answers::{PlanLines, PlanSearch};
use query_crew::{CrewPlan, Setting};
use snapshot_board::NewHistory;
use std::alloc::Global;
use std::marker::Brand;
use std::sync::Wait;
use std::thread::Threads;
use watch_answers::WatchLines;
use window_service::write_windows;

/// Reads the words of `times`, loads the feed that they ask for, and answers the input.
fn times_words<F: Feed, S: Source, K: Sink>(
    alloc: Global,
    words: &[String],
    feed: &mut F,
    input: &mut S,
    out: &mut K,
    budget: u64,
) -> Result<(), Stop>
    ensures run { EndsAs (service_task times_output) budget (map string_bytes words.now)
        (feed_seen F.tables F.faults feed.old feed.new)
        (stream_seen S.left S.faults input.old input.new)
        (stream_seen K.written K.faults out.old out.new)
        feed.old feed.new input.old input.new out.old out.new result }
{
    let asked = match read_words(alloc, words) {
        Ok(asked) => asked,
        Err(fault) => return Err(Stop::from(fault)),
    };
    let mut service = match load_service(alloc, &asked, feed) {
        Ok(service) => service,
        Err(error) => return Err(feed_stop(alloc, error)),
    };
    run_of(write_output(alloc, &mut service, input, out, budget))
}

/// The same for `serve`.
fn serve_words<R: Threads + Wait + Sync, F: Feed, S: Source, K: Sink, G: Gate + Sync>(
    rt: &R,
    alloc: Global,
    words: &[String],
    feed: &mut F,
    input: &mut S,
    out: &mut K,
    gate: &G,
    budget: u64,
) -> Result<(), Stop>
    ensures run { EndsAs (service_task served_output) budget (map string_bytes words.now)
        (feed_seen F.tables F.faults feed.old feed.new)
        (stream_seen S.left S.faults input.old input.new)
        (stream_seen K.written K.faults out.old out.new)
        feed.old feed.new input.old input.new out.old out.new result }
{
    let asked = match read_words(alloc, words) {
        Ok(asked) => asked,
        Err(fault) => return Err(Stop::from(fault)),
    };
    let loaded = match load_asked(alloc, &asked, feed) {
        Ok(loaded) => loaded,
        Err(error) => return Err(feed_stop(alloc, error)),
    };
    let setting = Setting { rt, alloc, gate };
    let plan = CrewPlan {
        timetable: loaded.timetable,
        directory: loaded.directory,
        workers: asked.workers,
    };
    run_of(write_windows::<Brand, R, S, K, G>(
        &setting,
        NewHistory::new(),
        plan,
        input,
        out,
        budget,
    ))
}

/// The same for a command that answers line by line, with what it loads behind the feed.
fn answer_words<T: AnswerLines<C>, L: LoadBehind<C>, C: Drop, F: Feed, S: Source, K: Sink>(
    alloc: Global,
    words: &[String],
    feed: &mut F,
    input: &mut S,
    out: &mut K,
    budget: u64,
) -> Result<(), Stop>
    requires budget { budget ≤ 2 ^ 63 }
    requires fits { BeginsFitting L.behind T.output }

    ensures run { EndsAs (line_task L.behind T.output) budget (map string_bytes words.now)
        (feed_seen F.tables F.faults feed.old feed.new)
        (stream_seen S.left S.faults input.old input.new)
        (stream_seen K.written K.faults out.old out.new)
        feed.old feed.new input.old input.new out.old out.new result }
{
    let mut begun = begin::<T, L, C, F>(alloc, words, feed)?;
    run_of(answer_input::<T, C, S, K>(
        alloc,
        &mut begun.service,
        &mut begun.kept,
        input,
        out,
        budget,
    ))
}

/// All that the program does for a command that answers line by line, by the words and options of
/// `times`: it reads the tables of the feed and, where `L` says so, a table of the feed's folder
/// that is the command's own, and begins with what it makes of them, or refuses them. Then it
/// answers each line of the input before more of it is read, as `T` says, with what stands before
/// the first line and behind the last. Whatever it begins with, the service and what is kept have to
/// fit each other as `T` says. It stops where `budget` bytes of the input were taken and no end was
/// read. It waits for nobody and returns.
pub fn run_lines<
    T: AnswerLines<C>,
    L: LoadBehind<C>,
    C: Drop,
    F: Feed,
    S: Source,
    K: Sink,
    E: Sink,
>(
    alloc: Global,
    words: &[String],
    feed: &mut F,
    input: &mut S,
    out: &mut K,
    err: &mut E,
    budget: u64,
) -> Status
    requires budget { (1 ≤ budget) × (budget ≤ 2 ^ 63) }
    requires fits { BeginsFitting L.behind T.output }
    ensures contract { MeetsContract (line_task L.behind T.output) budget
        (map string_bytes words.now)
        (feed_seen F.tables F.faults feed.old feed.new)
        (stream_seen S.left S.faults input.old input.new)
        (stream_seen K.written K.faults out.old out.new)
        (stream_seen E.written E.faults err.old err.new)
        feed.old feed.new input.old input.new out.old out.new result }
{
    let run = answer_words::<T, L, C, F, S, K>(alloc, words, feed, input, out, budget);
    tell(&run, err)
}

/// All that the program does for `times`. It reads the tables of the feed, answers each line of the
/// input before more of it is read, and at the end of the input writes the table of all times. A
/// query is answered by the times after the messages of the lines before it. It stops where `budget`
/// bytes of the input were taken and no end was read. It waits for nobody and returns.
pub fn run_times<F: Feed, S: Source, K: Sink, E: Sink>(
    alloc: Global,
    words: &[String],
    feed: &mut F,
    input: &mut S,
    out: &mut K,
    err: &mut E,
    budget: u64,
) -> Status
    requires budget { 1 ≤ budget }
    ensures contract { MeetsContract (service_task times_output) budget
        (map string_bytes words.now)
        (feed_seen F.tables F.faults feed.old feed.new)
        (stream_seen S.left S.faults input.old input.new)
        (stream_seen K.written K.faults out.old out.new)
        (stream_seen E.written E.faults err.old err.new)
        feed.old feed.new input.old input.new out.old out.new result }
{
    let run = times_words(alloc, words, feed, input, out, budget);
    tell(&run, err)
}

/// All that the program does for `serve`.
fn run_serve<R: Threads + Wait + Sync, F: Feed, S: Source, K: Sink, E: Sink, G: Gate + Sync>(
    rt: &R,
    alloc: Global,
    words: &[String],
    feed: &mut F,
    input: &mut S,
    out: &mut K,
    err: &mut E,
    gate: &G,
    budget: u64,
) -> Status
    requires budget { 1 ≤ budget }
    ensures contract { MeetsContract (service_task served_output) budget
        (map string_bytes words.now)
        (feed_seen F.tables F.faults feed.old feed.new)
        (stream_seen S.left S.faults input.old input.new)
        (stream_seen K.written K.faults out.old out.new)
        (stream_seen E.written E.faults err.old err.new)
        feed.old feed.new input.old input.new out.old out.new result }
{
    let run = serve_words(rt, alloc, words, feed, input, out, gate, budget);
    tell(&run, err)
}

/// The command that words ask for, if they ask for anything.
fn command_for(words: &[String]) -> Command
    ensures { result ≡ command_named (map string_bytes words.now) }
{
    match words {
        [name, ..] => Command::named(name.as_str()).unwrap_or(Command::Serve),
        [] => Command::Serve,
    }
}

/// The program. For `times` it does what `run_times` does. For `serve` it reads the tables of the
/// feed and answers the input window after window, and queries beside the messages; the gate is
/// called after each message and before each query.
///
/// `check`, `plans`, `watch`, `desk`, `journal` and `restart` do what `run_lines` does. By the times
/// after the messages of the lines before it, `check` answers a query with what shows that its
/// answer is right, and a claim by whether what comes with it shows that it is right; `plans`
/// answers a query with all best plans by arrival and number of rides, up to as many rides as the
/// words ask for; `watch` watches the journey that it shows to a query from then on, up to 10,000 of
/// them, and behind the reply to an accepted message tells of each whose standing changes; and
/// `desk` answers questions for the next departures of a station, and for what decides the time of
/// an event. `journal` writes a header, and behind it the line of each message that is accepted.
/// `restart` takes the messages of the journal in the feed's folder first, and then does what
/// `times` does, with numbers of messages that go on from those of the journal.
///
/// For `follow` it reads the journal that the input holds, each line as it comes, and at the end of
/// the input writes the table of all times behind it. Each of these stops where `budget` bytes of
/// the input were taken and no end was read. For `gen` it does what it does for `serve` over a feed
/// and an input that it makes from a number of trains, and writes one line with the sums over the
/// replies; it asks nothing of `feed` and `input`.
pub fn traind_within<
    R: Threads + Wait + Sync,
    F: Feed,
    S: Source,
    K: Sink,
    E: Sink,
    G: Gate + Sync,
>(
    rt: &R,
    alloc: Global,
    words: &[String],
    feed: &mut F,
    input: &mut S,
    out: &mut K,
    err: &mut E,
    gate: &G,
    budget: u64,
) -> Status
    requires budget { (1 ≤ budget) × (budget ≤ 2 ^ 63) }

    // every command but `gen`
    ensures contract { is_gen (map string_bytes words.now) ≡ false
        → MeetsContractOf (work_for (map string_bytes words.now)) budget
        (map string_bytes words.now)
        (feed_seen F.tables F.faults feed.old feed.new)
        (stream_seen S.left S.faults input.old input.new)
        (stream_seen K.written K.faults out.old out.new)
        (stream_seen E.written E.faults err.old err.new)
        feed.old feed.new input.old input.new out.old out.new result }

    // `gen`, which has a feed and an input of its own
    ensures generated { is_gen (map string_bytes words.now) ≡ true
        → MeetsGenContract (map string_bytes words.now)
        (stream_seen K.written K.faults out.old out.new)
        (stream_seen E.written E.faults err.old err.new) out.old out.new result }
    ensures untouched { is_gen (map string_bytes words.now) ≡ true
        → (feed.new ≡ feed.old) × (input.new ≡ input.old) }
{
    if is_gen(words) {
        return run_gen(rt, alloc, words, out, err, gate);
    }
    match command_for(words) {
        Command::Times => run_times(alloc, words, feed, input, out, err, budget),
        Command::Serve => run_serve(rt, alloc, words, feed, input, out, err, gate, budget),
        Command::Check => run_lines::<CheckLines, LoadNothing, (), F, S, K, E>(
            alloc, words, feed, input, out, err, budget,
        ),
        Command::Plans => run_lines::<PlanLines, LoadPlans, PlanSearch, F, S, K, E>(
            alloc, words, feed, input, out, err, budget,
        ),
        Command::Watch => run_lines::<WatchLines, LoadWatch, Watch, F, S, K, E>(
            alloc, words, feed, input, out, err, budget,
        ),
        Command::Desk => run_lines::<DeskLines, LoadNothing, (), F, S, K, E>(
            alloc, words, feed, input, out, err, budget,
        ),
        Command::Journal => run_lines::<JournalLines, LoadHeader, HeaderText, F, S, K, E>(
            alloc, words, feed, input, out, err, budget,
        ),
        Command::Restart => run_lines::<WriteReplies, LoadJournal, (), F, S, K, E>(
            alloc, words, feed, input, out, err, budget,
        ),
        Command::Follow => run_follow(rt, alloc, words, feed, input, out, err, budget),
    }
}

/// How many bytes of the input the program takes at most.
pub(crate) const BYTE_BUDGET: u64 = 1 << 40;

/// The program, as `traind_within` is it for 2^40 bytes: it stops where so many bytes of the input
/// were taken and no end was read.
pub fn traind<R: Threads + Wait + Sync, F: Feed, S: Source, K: Sink, E: Sink, G: Gate + Sync>(
    rt: &R,
    alloc: Global,
    words: &[String],
    feed: &mut F,
    input: &mut S,
    out: &mut K,
    err: &mut E,
    gate: &G,
) -> Status
    // every command but `gen`
    ensures contract { is_gen (map string_bytes words.now) ≡ false
        → MeetsContractOf (work_for (map string_bytes words.now)) byte_budget
        (map string_bytes words.now)
        (feed_seen F.tables F.faults feed.old feed.new)
        (stream_seen S.left S.faults input.old input.new)
        (stream_seen K.written K.faults out.old out.new)
        (stream_seen E.written E.faults err.old err.new)
        feed.old feed.new input.old input.new out.old out.new result }

    // `gen`, which has a feed and an input of its own
    ensures generated { is_gen (map string_bytes words.now) ≡ true
        → MeetsGenContract (map string_bytes words.now)
        (stream_seen K.written K.faults out.old out.new)
        (stream_seen E.written E.faults err.old err.new) out.old out.new result }
    ensures untouched { is_gen (map string_bytes words.now) ≡ true
        → (feed.new ≡ feed.old) × (input.new ≡ input.old) }
{
    traind_within(rt, alloc, words, feed, input, out, err, gate, BYTE_BUDGET)
}
