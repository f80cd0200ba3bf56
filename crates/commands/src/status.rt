//! How a run ends.

ghost use Rattle.std.specs.Prelude.{◌≡◌};
ghost use Rattle.commands.specs.Statuses.{error_line, line_of, number_of, run_of, status_of};

use crate::loading::LoadFault;
use command_words::WordsFault;
use information_service::LinesFault;
use mt_io::Failed;
use std::alloc::AllocError;

/// How a run ends.
#[derive(Clone, Copy, Debug, PartialEq, Eq)]
pub enum Status {
    /// The input was read to its end, and the whole output was written; of `gen`, its own lines and
    /// the summary.
    Ok,
    /// The words are none that the program knows.
    Usage,
    /// The feed does not make a timetable.
    FeedRefused,
    /// The feed or the input failed.
    ReadFault,
    /// The output failed.
    WriteFault,
    /// There was no memory.
    OutOfMemory,
    /// As many bytes of the input as may be were taken, and no end was read.
    TooLong,
}

/// How the program is called.
const USAGE: &[u8] = b"traind: usage: traind COMMAND FEED --from DATE or traind gen N\n";

impl Status {
    /// The exit status of the program.
    pub fn number(self) -> u8
        ensures { result ≡ number_of self }
    {
        match self {
            Status::Ok => 0,
            Status::Usage => 2,
            Status::FeedRefused => 3,
            Status::ReadFault => 4,
            Status::WriteFault => 5,
            Status::OutOfMemory => 6,
            Status::TooLong => 7,
        }
    }

    /// The line on the error stream: none where all went well. Where a feed is refused, its refusal
    /// gives the line.
    pub fn error_line(self) -> &'static [u8]
        ensures { result.now ≡ error_line self }
    {
        match self {
            Status::Ok | Status::FeedRefused => b"",
            Status::Usage => USAGE,
            Status::ReadFault => b"traind: read fault\n",
            Status::WriteFault => b"traind: write fault\n",
            Status::OutOfMemory => b"traind: out of memory\n",
            Status::TooLong => b"traind: input too long\n",
        }
    }
}

/// Why a run stops before its end.
#[derive(Debug, Drop)]
pub(crate) enum Stop {
    /// The words are none that the program knows.
    Usage,
    /// What the words ask for is refused, with this line on the error stream.
    Refused(Vec<u8>),
    /// A read or a write failed, there was no memory, or the input is too long.
    Fault(LinesFault),
}

impl Stop {
    /// The status of a run that stops for this.
    pub(crate) fn status(&self) -> Status
        ensures { result ≡ status_of self.now }
    {
        match self {
            Stop::Usage => Status::Usage,
            Stop::Refused(_) => Status::FeedRefused,
            Stop::Fault(LinesFault::ReadFault) => Status::ReadFault,
            Stop::Fault(LinesFault::WriteFault) => Status::WriteFault,
            Stop::Fault(LinesFault::OutOfMemory) => Status::OutOfMemory,
            Stop::Fault(LinesFault::TooLong) => Status::TooLong,
        }
    }

    /// The line on the error stream.
    pub(crate) fn line(&self) -> &[u8]
        ensures { result.now ≡ line_of self.now }
    {
        match self {
            Stop::Refused(line) => line.as_slice(),
            _ => self.status().error_line(),
        }
    }
}

/// How a run ends whose lines ended so.
pub(crate) fn run_of(answered: Result<(), LinesFault>) -> Result<(), Stop>
    ensures { result ≡ run_of answered }
{
    match answered {
        Ok(()) => Ok(()),
        Err(fault) => Err(Stop::Fault(fault)),
    }
}

impl From<AllocError> for Stop {
    ghost use Rattle.std.specs.Prelude.{◌≡◌};
    ghost use Rattle.information_service.specs.declared.fault.LinesFault.TheVariants.{OutOfMemory};
    ghost use Rattle.commands.specs.declared.status.Stop.TheVariants.{Fault};

    ghost from_gives = { λ _ e. e ≡ Fault OutOfMemory };

    fn from(_want: AllocError) -> Stop {
        Stop::Fault(LinesFault::OutOfMemory)
    }
}

impl From<Failed> for Stop {
    ghost use Rattle.std.specs.Prelude.{◌≡◌};
    ghost use Rattle.information_service.specs.declared.fault.LinesFault.TheVariants.{WriteFault};
    ghost use Rattle.commands.specs.declared.status.Stop.TheVariants.{Fault};

    ghost from_gives = { λ _ e. e ≡ Fault WriteFault };

    fn from(_failed: Failed) -> Stop {
        Stop::Fault(LinesFault::WriteFault)
    }
}

impl From<WordsFault> for Stop {
    ghost use Rattle.std.specs.Prelude.{◌≡◌};
    ghost use Rattle.commands.specs.Statuses.{words_stop};

    ghost from_gives = { λ fault e. e ≡ words_stop fault };

    fn from(fault: WordsFault) -> Stop {
        match fault {
            WordsFault::Usage => Stop::Usage,
            WordsFault::OutOfMemory => Stop::Fault(LinesFault::OutOfMemory),
        }
    }
}

impl From<LinesFault> for Stop {
    ghost use Rattle.std.specs.Prelude.{◌≡◌};
    ghost use Rattle.commands.specs.declared.status.Stop.TheVariants.{Fault};

    ghost from_gives = { λ fault e. e ≡ Fault fault };

    fn from(fault: LinesFault) -> Stop {
        Stop::Fault(fault)
    }
}

impl From<LoadFault> for Stop {
    ghost use Rattle.std.specs.Prelude.{◌≡◌};
    ghost use Rattle.commands.specs.Loading.{load_stop};

    ghost from_gives = { λ fault e. e ≡ load_stop fault };

    fn from(fault: LoadFault) -> Stop {
        match fault {
            LoadFault::Refused(line) => Stop::Refused(line),
            LoadFault::OutOfMemory => Stop::Fault(LinesFault::OutOfMemory),
        }
    }
}
