//! Why a run stops where its feed is not loaded, and the line on the error stream that says why a
//! feed is refused.

ghost use Rattle.std.specs.Prelude.{◌≡◌, IfOk, string_bytes};
ghost use Rattle.commands.specs.LineTasks.{long_line};
ghost use Rattle.commands.specs.Statuses.{IsFeedStop, cause_words, what_word, refusal_line};

use crate::status::Stop;
use gtfs_tables::{Cause, FeedError, FeedRefusal};
use information_service::LinesFault;
use mt_base::memory::OutOfMemory;
use mt_base::tables::What;
use std::alloc::Global;

fn cause_words(cause: Cause) -> &'static str
    ensures { result.now ≡ cause_words cause }
{
    match cause {
        Cause::NoColumn => "no column",
        Cause::NotUtf8 => "not UTF-8",
        Cause::FieldCount => "wrong field count",
        Cause::BadNumber => "bad number",
        Cause::BadTime => "bad time",
        Cause::BadDate => "bad date",
        Cause::UnknownReference => "unknown reference",
        Cause::DuplicateKey => "duplicate key",
        Cause::BackwardsTimes => "backwards times",
        Cause::TooFewCalls => "too few calls",
        Cause::UntimedEnd => "untimed end",
    }
}

fn what_word(what: What) -> &'static str
    ensures { result.now ≡ what_word what }
{
    match what {
        What::Stops => "stops",
        What::Transfers => "transfers",
        What::Rules => "rules",
        What::Trains => "trains",
        What::Nodes => "nodes",
        What::Pairs => "pairs",
    }
}

/// The line that says why a feed is refused.
fn refusal_line(alloc: Global, why: &FeedRefusal) -> Result<String, OutOfMemory>
    ensures { IfOk result (λ line. string_bytes line ≡ refusal_line why.now) }
{
    match why {
        FeedRefusal::Missing { table } => {
            format!(in alloc; "traind: feed refused: missing {}\n", table.name())
        }
        FeedRefusal::Bad { table, row, cause } => format!(in alloc;
            "traind: feed refused: {} row {}: {}\n",
            table.name(),
            row,
            cause_words(*cause)
        ),
        FeedRefusal::Frequencies => {
            String::from_str(alloc, "traind: feed refused: frequencies.txt has rows\n")
        }
        FeedRefusal::TooMany { what } => {
            format!(in alloc; "traind: feed refused: too many {}\n", what_word(*what))
        }
        FeedRefusal::TooLong { table } => long_line(alloc, table.name()),
    }
}

/// The line that says that a table has too many bytes.
pub(crate) fn long_line(alloc: Global, name: &str) -> Result<String, OutOfMemory>
    ensures { IfOk result (λ line. string_bytes line ≡ long_line name.now) }
{
    format!(in alloc; "traind: feed refused: {name} is too long\n")
}

/// Why a run stops where its feed is not loaded. A refusal is told by its line, unless there is no
/// memory for that.
pub(crate) fn feed_stop(alloc: Global, error: FeedError) -> Stop
    ensures { IsFeedStop error result }
{
    match error {
        FeedError::Refused(why) => match refusal_line(alloc, &why) {
            Ok(line) => Stop::Refused(line.into_bytes()),
            Err(_) => Stop::Fault(LinesFault::OutOfMemory),
        },
        FeedError::ReadFault => Stop::Fault(LinesFault::ReadFault),
        FeedError::OutOfMemory => Stop::Fault(LinesFault::OutOfMemory),
    }
}
