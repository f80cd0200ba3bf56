//! What the words after the program's name ask for, where the first of them is `gen`.

ghost use Rattle.std.specs.Prelude.{◌≡◌, ◌≤◌, [], IfOk, IfSome, IsErrOf, Some, None, map, string_bytes};
ghost use Rattle.clap.specs.Words.{fault_of, found_of, matches_of, rows_of};
ghost use Rattle.command_words.specs.Commands.{gen_app};
ghost use Rattle.mt_base.specs.Options.{IsInRange};
ghost use Rattle.command_words.specs.GenWords.{default_options, gen_asked_of, gen_values_ask, is_gen};

use crate::arguments::given_arguments;
use crate::command::gen_command;
use crate::values::number_within;
use crate::words::WordsFault;
use clap::ArgMatches;
use mt_base::Opts;
use std::alloc::Global;

/// What `gen` is asked for.
#[derive(Clone, Copy, Debug, PartialEq, Eq)]
pub struct AskedGen {
    /// How many trains are made: 1 to 100,000.
    pub trains: u32,

    /// How many workers answer queries: 1 to 16.
    pub workers: u32,
}

/// The options of the timetable where none is given.
pub fn default_options() -> Opts
    ensures value { result ≡ default_options }
    ensures range { IsInRange result }
{
    Opts {
        slack: 7,
        stop: 60,
        change: 180,
        window: 1_800,
        spare_trains: 200,
        spare_calls: 4_000,
        overrides: 10_000,
    }
}

/// Whether the first word is `gen`.
pub fn is_gen(words: &[String]) -> bool
    ensures { result ≡ is_gen (map string_bytes words.now) }
{
    match words {
        [name, ..] => name.as_str() == "gen",
        [] => false,
    }
}

/// What the words give to the arguments of `gen`.
fn gen_matches<'a>(alloc: Global, words: &'a [String]) -> Result<ArgMatches<'a>, WordsFault>
    ensures taken { IfOk result (λ _. fault_of gen_app (map string_bytes words.now) ≡ []) }
    ensures values { IfOk result (λ m. rows_of (found_of m)
        ≡ matches_of gen_app (map string_bytes words.now)) }
    ensures usage { IsErrOf result WordsFault.Usage
        → fault_of gen_app (map string_bytes words.now) ≡ [] → ⊥ }
{
    given_arguments(gen_command(alloc)?, words)
}

/// What the values of the arguments ask for.
fn gen_values_ask(given: &ArgMatches<'_>) -> Option<AskedGen>
    ensures value { result ≡ gen_values_ask (rows_of (found_of given.now)) }
    ensures trains { IfSome result (λ a. (1 ≤ a.trains) × (a.trains ≤ 100000)) }
    ensures workers { IfSome result (λ a. (1 ≤ a.workers) × (a.workers ≤ 16)) }
{
    Some(AskedGen {
        trains: number_within(given, "N", 1, 100_000)?,
        workers: number_within(given, "workers", 1, 16)?,
    })
}

/// What the words after the program's name ask of `gen`. `Usage` only where they ask nothing of it,
/// and then always, unless there is no memory; `OutOfMemory` where there is no memory.
#[tactic(auto, unfolding(crate::specs::GenWords::gen_asked_of))]
pub fn read_gen_words(alloc: Global, words: &[String]) -> Result<AskedGen, WordsFault>
    // what is asked for, and when an error comes
    ensures ok { IfOk result (λ a. gen_asked_of (map string_bytes words.now) ≡ Some a) }
    ensures usage { IsErrOf result WordsFault.Usage
        → gen_asked_of (map string_bytes words.now) ≡ None }

    // the range of each value that was read
    ensures trains { IfOk result (λ a. (1 ≤ a.trains) × (a.trains ≤ 100000)) }
    ensures workers { IfOk result (λ a. (1 ≤ a.workers) × (a.workers ≤ 16)) }
{
    if !is_gen(words) {
        return Err(WordsFault::Usage);
    }
    let given = gen_matches(alloc, words)?;
    gen_values_ask(&given).ok_or(WordsFault::Usage)
}
