//! The commands as clap reads them.

ghost use Rattle.std.specs.Prelude.{◌≡◌, IfOk, false};
ghost use Rattle.clap.specs.Words.{app_of, rule_of};
ghost use Rattle.command_words.specs.Commands.{command_app, plans_app, gen_app, bare_app, feed_rule, from_rule, option_rule, trains_rule, zone_rule};

use clap::Arg;
use std::alloc::{AllocError, Global};

/// A command without flags for help and version.
fn bare_command<'a>(alloc: Global, name: &'a str) -> clap::Command<'a>
    ensures { app_of result ≡ bare_app name.now }
{
    clap::Command::new(alloc, name)
        .disable_help_flag(true)
        .disable_version_flag(true)
}

/// The word `FEED`.
fn feed_argument<'a>(alloc: Global) -> Arg<'a>
    ensures rule { rule_of result ≡ feed_rule }
    ensures local { result.global ≡ false }
{
    Arg::new(alloc, "feed").required(true)
}

/// The option `--from DATE`.
fn from_option<'a>(alloc: Global) -> Arg<'a>
    ensures rule { rule_of result ≡ from_rule }
    ensures local { result.global ≡ false }
{
    Arg::new(alloc, "from").required(true).long("from")
}

/// An option with a value, and the value that counts where it is not given.
fn option<'a>(alloc: Global, name: &'a str, default: &'a str) -> Arg<'a>
    ensures rule { rule_of result ≡ option_rule name.now default.now }
    ensures local { result.global ≡ false }
{
    Arg::new(alloc, name).long(name).default_value(default)
}

/// The option `--zone TEXT`.
fn zone_option<'a>(alloc: Global) -> Arg<'a>
    ensures rule { rule_of result ≡ zone_rule }
    ensures local { result.global ≡ false }
{
    Arg::new(alloc, "zone").long("zone")
}

/// The command `NAME FEED --from DATE` with its options.
pub(crate) fn named_command<'a>(
    alloc: Global,
    name: &'a str,
) -> Result<clap::Command<'a>, AllocError>
    ensures { IfOk result (λ c. app_of c ≡ command_app name.now) }
{
    bare_command(alloc, name)
        .arg(feed_argument(alloc))?
        .arg(from_option(alloc))?
        .arg(option(alloc, "days", "1"))?
        .arg(option(alloc, "slack", "7"))?
        .arg(option(alloc, "stop", "60"))?
        .arg(option(alloc, "change", "180"))?
        .arg(option(alloc, "window", "1800"))?
        .arg(option(alloc, "spare-trains", "200"))?
        .arg(option(alloc, "spare-calls", "4000"))?
        .arg(option(alloc, "overrides", "10000"))?
        .arg(option(alloc, "workers", "4"))?
        .arg(zone_option(alloc))
}

/// The command `NAME FEED --from DATE` with its options and one more, `--rides`.
pub(crate) fn plans_command<'a>(
    alloc: Global,
    name: &'a str,
) -> Result<clap::Command<'a>, AllocError>
    ensures { IfOk result (λ c. app_of c ≡ plans_app name.now) }
{
    named_command(alloc, name)?.arg(option(alloc, "rides", "4"))
}

/// The word `N`.
fn trains_argument<'a>(alloc: Global) -> Arg<'a>
    ensures rule { rule_of result ≡ trains_rule }
    ensures local { result.global ≡ false }
{
    Arg::new(alloc, "N").required(true)
}

/// The command `gen N` with its option.
pub(crate) fn gen_command<'a>(alloc: Global) -> Result<clap::Command<'a>, AllocError>
    ensures { IfOk result (λ c. app_of c ≡ gen_app) }
{
    bare_command(alloc, "gen")
        .arg(trains_argument(alloc))?
        .arg(option(alloc, "workers", "4"))
}
