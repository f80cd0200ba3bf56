//! What the error stream gets at the end of a run.

ghost use Rattle.std.specs.Prelude.{◌≡◌};
ghost use Rattle.commands.specs.Failing.{Tells};
ghost use Rattle.commands.specs.Seen.{stream_seen};
ghost use Rattle.commands.specs.Statuses.{run_line, run_status};

use crate::status::{Status, Stop};
use mt_io::{Sink, put};

/// Writes a line. Where a write fails, the rest of the line is left out, and nobody is told.
fn tell_line<E: Sink>(line: &[u8], err: &mut E)
    ensures { Tells (stream_seen E.written E.faults err.old err.new) line.now }
{
    let _ = put(err, line);
}

/// Writes how a run ended. A failed write changes nothing.
pub(crate) fn tell<E: Sink>(run: &Result<(), Stop>, err: &mut E) -> Status
    ensures status { result ≡ run_status run.now }
    ensures told { Tells (stream_seen E.written E.faults err.old err.new) (run_line run.now) }
{
    match run {
        Ok(()) => {
            tell_line(Status::Ok.error_line(), err);
            Status::Ok
        }
        Err(stop) => {
            tell_line(stop.line(), err);
            stop.status()
        }
    }
}
