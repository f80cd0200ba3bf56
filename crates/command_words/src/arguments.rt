//! The arguments that words give a command.

ghost use Rattle.std.specs.Prelude.{◌≡◌, [], IfOk, IsErrOf, map, string_bytes, true};
ghost use Rattle.clap.specs.Words.{app_of, fault_of, found_of, is_simple, is_simple_and_free, matches_of, rows_of};

use crate::words::WordsFault;
use clap::ArgMatches;
use clap::error::ErrorKind;

/// What the words give to the arguments of a command: `Usage` where clap does not take them, and
/// `OutOfMemory` where there is no memory.
pub(crate) fn given_arguments<'a>(
    command: clap::Command<'a>,
    words: &'a [String],
) -> Result<ArgMatches<'a>, WordsFault>
    requires simple { is_simple (app_of command) ≡ true }
    requires free { is_simple_and_free (app_of command) ≡ true }
    ensures taken { IfOk result (λ _.
        fault_of (app_of command.entry) (map string_bytes words.now) ≡ []) }
    ensures values { IfOk result (λ m. rows_of (found_of m)
        ≡ matches_of (app_of command.entry) (map string_bytes words.now)) }
    ensures usage { IsErrOf result WordsFault.Usage
        → fault_of (app_of command.entry) (map string_bytes words.now) ≡ [] → ⊥ }
{
    match command.try_get_matches_from(words) {
        Ok(matches) => Ok(matches),
        Err(error) => match error.kind() {
            ErrorKind::OutOfMemory => Err(WordsFault::OutOfMemory),
            _ => Err(WordsFault::Usage),
        },
    }
}
