//! The values of arguments as numbers and dates.

ghost use Rattle.std.specs.Prelude.{◌≡◌, ◌≤◌, ◌<◌, IfSome, option_map};
ghost use Rattle.clap.specs.Words.{first_of, found_of, rows_of};
ghost use Rattle.mt_base.specs.Civil.{IsCivil};
ghost use Rattle.mt_base.specs.Options.{IsInRange};
ghost use Rattle.command_words.specs.Words.{first_date, number_within, options_of};

use clap::ArgMatches;
use gtfs_tables::fields;
use mt_base::{Opts, texts};

/// The value of an argument: the one that the words give, or else its default.
pub(crate) fn value<'a>(given: &ArgMatches<'a>, name: &str) -> Option<&'a str>
    ensures { option_map (λ s. s.now) result ≡ first_of name.now (rows_of (found_of given.now)) }
{
    given.get_str(name)
}

/// The number that an option gives: one to nine digits that spell a number from the least to the
/// most.
pub(crate) fn number_within(
    given: &ArgMatches<'_>,
    name: &str,
    least: u32,
    most: u32,
) -> Option<u32>
    ensures value { result ≡ number_within name.now least most (rows_of (found_of given.now)) }
    ensures range { IfSome result (λ n. (least ≤ n) × (n ≤ most)) }
{
    fields::number(value(given, name)?.as_bytes()).filter(|n| least <= *n && *n <= most)
}

/// The first service day as the number YYYYMMDD: a date of the years 1900 to 2100.
pub(crate) fn first_date(given: &ArgMatches<'_>) -> Option<u32>
    ensures value { result ≡ first_date (rows_of (found_of given.now)) }
    ensures civil { IfSome result IsCivil }
    ensures year { IfSome result (λ date. date < 21010000) }
{
    let date = texts::date(value(given, "from")?.as_bytes());
    date.filter(|date| *date >= 19_000_101 && *date <= 21_001_231)
}

/// The options of the timetable.
pub(crate) fn options(given: &ArgMatches<'_>) -> Option<Opts>
    ensures value { result ≡ options_of (rows_of (found_of given.now)) }
    ensures range { IfSome result IsInRange }
{
    Some(Opts {
        slack: number_within(given, "slack", 0, 50)?,
        stop: number_within(given, "stop", 0, 3_600)?,
        change: number_within(given, "change", 1, 3_600)?,
        window: number_within(given, "window", 0, 3_600)?,
        spare_trains: number_within(given, "spare-trains", 0, 2_000)?,
        spare_calls: number_within(given, "spare-calls", 0, 40_000)?,
        overrides: number_within(given, "overrides", 0, 100_000)?,
    })
}
