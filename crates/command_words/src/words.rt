//! What the words after the program's name ask for.

ghost use Rattle.std.specs.Prelude.{◌≡◌, ◌≤◌, [], IfOk, IfSome, IsErrOf, Some, None, map, option_map, string_bytes};
ghost use Rattle.clap.specs.Words.{app_of, fault_of, found_of, matches_of, rows_of};
ghost use Rattle.command_words.specs.Commands.{app_for};
ghost use Rattle.command_words.specs.Held.{asked_view, IsInRanges};
ghost use Rattle.command_words.specs.Words.{asked_of, command_asked, command_of, rides_given, values_ask, zone_given};
ghost use Rattle.command_words.specs.declared.words.WordsFault.TheVariants.{OutOfMemory};

use crate::arguments::given_arguments;
use crate::command::{named_command, plans_command};
use crate::values::{first_date, number_within, options, value};
use clap::ArgMatches;
use gtfs_tables::fields;
use mt_base::Opts;
use service_zones::Zone;
use std::alloc::{AllocError, Global};

/// What the program is asked to do with a feed.
#[derive(Clone, Copy, Debug, PartialEq, Eq)]
pub enum Command {
    /// Answers each line before it waits for more, and writes the table of all times at the end.
    Times,

    /// Answers queries in several threads while the messages are applied.
    Serve,

    /// Answers each line before it waits for more, each query with what shows that its answer is
    /// right, and says of each claim whether what comes with it shows that it is right.
    Check,

    /// Answers each line before it waits for more, each query with all best plans by arrival and
    /// number of rides.
    Plans,

    /// Answers each line before it waits for more, and watches the journey that it shows to a query:
    /// behind the reply to an accepted message it tells of each watched journey whose standing
    /// changes.
    Watch,

    /// Answers each line before it waits for more, and questions for the next departures of a
    /// station and for what decides the time of an event.
    Desk,

    /// Writes the journal of the messages that are accepted, and no replies.
    Journal,

    /// Takes the messages of a journal in the feed's folder first, and then does what `Times` does.
    Restart,

    /// Reads a journal from the input while it is being written, and writes the table of all times
    /// behind it.
    Follow,
}

/// What the words ask for.
#[derive(Clone, Copy, Debug)]
pub struct Asked<'a> {
    /// The command.
    pub command: Command,

    /// The folder of the feed.
    pub folder: &'a str,

    /// The date of the first service day, day 0, as the number YYYYMMDD: of the years 1900 to 2100.
    pub first: u32,

    /// How many service days there are: 1 to 31.
    pub days: u32,

    /// The options of the timetable.
    pub opts: Opts,

    /// How many workers answer queries: 1 to 16.
    pub workers: u32,

    /// Up to how many rides plans have: 1 to 8; 4 where the command has no such option.
    pub rides: u32,

    /// The text of the zone, where one is given.
    pub zone_text: Option<&'a str>,

    /// The zone in which service days begin: universal time where no text is given.
    pub zone: Zone,
}

/// Up to how many rides plans have: what the option gives, one to nine digits that spell a number
/// from 1 to 8; where there is no such option, 4.
fn rides_given(text: Option<&str>) -> Option<u32>
    ensures value { result ≡ rides_given (option_map (λ t. t.now) text.entry) }
    ensures range { IfSome result (λ n. (1 ≤ n) × (n ≤ 8)) }
{
    match text {
        Some(text) => fields::number(text.as_bytes()).filter(|n| 1 <= *n && *n <= 8),
        None => Some(4),
    }
}

/// The zone of a zone text, if it is one; where no text is given, universal time.
fn zone_given(text: Option<&str>) -> Option<Zone>
    ensures { result ≡ zone_given (option_map (λ t. t.now) text.entry) }
{
    match text {
        Some(text) => Zone::read(text),
        None => Some(Zone::utc()),
    }
}

/// Why words were not read.
#[derive(Clone, Copy, Debug, PartialEq, Eq)]
pub enum WordsFault {
    /// The words ask for nothing that the program does.
    Usage,

    /// There was no memory.
    OutOfMemory,
}

impl From<AllocError> for WordsFault {
    ghost from_gives = { λ _ e. e ≡ OutOfMemory };

    fn from(_: AllocError) -> WordsFault {
        WordsFault::OutOfMemory
    }
}

impl Command {
    /// The command of this name, of those that read a feed.
    #[tactic(auto, unfolding(crate::specs::Words::command_of))]
    pub fn named(name: &str) -> Option<Command>
        ensures { result ≡ command_of name.now }
    {
        match name {
            "times" => Some(Command::Times),
            "serve" => Some(Command::Serve),
            "check" => Some(Command::Check),
            "plans" => Some(Command::Plans),
            "watch" => Some(Command::Watch),
            "desk" => Some(Command::Desk),
            "journal" => Some(Command::Journal),
            "restart" => Some(Command::Restart),
            "follow" => Some(Command::Follow),
            _ => None,
        }
    }
}

/// The command of this name as clap reads it.
fn app_for<'a>(
    alloc: Global,
    command: Command,
    name: &'a str,
) -> Result<clap::Command<'a>, AllocError>
    ensures { IfOk result (λ c. app_of c ≡ app_for command name.now) }
{
    match command {
        Command::Plans => plans_command(alloc, name),
        _ => named_command(alloc, name),
    }
}

/// What the words give to the arguments of the command of this name.
fn command_matches<'a>(
    alloc: Global,
    command: Command,
    name: &'a str,
    words: &'a [String],
) -> Result<ArgMatches<'a>, WordsFault>
    ensures taken { IfOk result (λ _.
        fault_of (app_for command name.now) (map string_bytes words.now) ≡ []) }
    ensures values { IfOk result (λ m. rows_of (found_of m)
        ≡ matches_of (app_for command name.now) (map string_bytes words.now)) }
    ensures usage { IsErrOf result WordsFault.Usage
        → fault_of (app_for command name.now) (map string_bytes words.now) ≡ [] → ⊥ }
{
    given_arguments(app_for(alloc, command, name)?, words)
}

/// What the values of the arguments ask for.
fn values_ask<'a>(command: Command, given: &ArgMatches<'a>) -> Option<Asked<'a>>
    ensures value { option_map asked_view result
        ≡ values_ask command (rows_of (found_of given.now)) }
    ensures ranges { IfSome result IsInRanges }
{
    let asked = Asked {
        command,
        folder: value(given, "feed")?,
        first: first_date(given)?,
        days: number_within(given, "days", 1, 31)?,
        opts: options(given)?,
        workers: number_within(given, "workers", 1, 16)?,
        rides: rides_given(value(given, "rides"))?,
        zone_text: value(given, "zone"),
        zone: zone_given(value(given, "zone"))?,
    };
    if asked.zone.has_day_of_wrong_length(asked.first, asked.days) {
        return None;
    }
    Some(asked)
}

/// What words ask of this command, of which the first is its name.
#[tactic(auto, unfolding(crate::specs::Words::command_asked))]
fn command_asked<'a>(
    alloc: Global,
    command: Command,
    name: &'a str,
    words: &'a [String],
) -> Result<Asked<'a>, WordsFault>
    ensures ok { IfOk result (λ a. command_asked command (app_for command name.now)
        (map string_bytes words.now) ≡ Some (asked_view a)) }
    ensures usage { IsErrOf result WordsFault.Usage → command_asked command
        (app_for command name.now) (map string_bytes words.now) ≡ None }
    ensures ranges { IfOk result IsInRanges }
{
    let given = command_matches(alloc, command, name, words)?;
    match values_ask(command, &given) {
        Some(asked) => Ok(asked),
        None => Err(WordsFault::Usage),
    }
}

/// What the words after the program's name ask for, of which the first is the command. `Usage` only
/// where they ask for nothing that the program does, and then always, unless there is no memory;
/// `OutOfMemory` where there is no memory.
#[tactic(auto, unfolding(crate::specs::Words::asked_of))]
pub fn read_words<'a>(alloc: Global, words: &'a [String]) -> Result<Asked<'a>, WordsFault>
    ensures ok { IfOk result (λ a. asked_of (map string_bytes words.now) ≡ Some (asked_view a)) }
    ensures usage { IsErrOf result WordsFault.Usage → asked_of (map string_bytes words.now) ≡ None }
    ensures ranges { IfOk result IsInRanges }
{
    let name = words.first().ok_or(WordsFault::Usage)?.as_str();
    let command = Command::named(name).ok_or(WordsFault::Usage)?;
    command_asked(alloc, command, name, words)
}
