//! Why following an input stops before its end.

use journal_replay::JournalRefusal;
use mt_io::Failed;
use std::alloc::AllocError;

/// Why following an input stops before its end.
#[derive(Clone, Copy, Debug, PartialEq, Eq)]
pub enum FollowFault {
    /// The journal is refused, with `Header` or `Line`: its reader refuses it, or the input is at
    /// its end and has no whole line, which is `Header`.
    Refused(JournalRefusal),
    /// A read of the input failed.
    ReadFault,
    /// There was no memory.
    OutOfMemory,
    /// As many bytes of the input as may be were taken, no end was read, and nothing is refused.
    TooLong,
}

impl From<AllocError> for FollowFault {
    ghost use Rattle.std.specs.Prelude.{◌≡◌};
    ghost use Rattle.followed_input.specs.declared.fault.FollowFault.TheVariants.{OutOfMemory};

    ghost from_gives = { λ _ e. e ≡ OutOfMemory };

    fn from(_want: AllocError) -> FollowFault {
        FollowFault::OutOfMemory
    }
}

impl From<Failed> for FollowFault {
    ghost use Rattle.std.specs.Prelude.{◌≡◌};
    ghost use Rattle.followed_input.specs.declared.fault.FollowFault.TheVariants.{ReadFault};

    ghost from_gives = { λ _ e. e ≡ ReadFault };

    fn from(_failed: Failed) -> FollowFault {
        FollowFault::ReadFault
    }
}

impl From<JournalRefusal> for FollowFault {
    ghost use Rattle.std.specs.Prelude.{◌≡◌};
    ghost use Rattle.followed_input.specs.Faults.{fault_of};

    ghost from_gives = { λ why e. e ≡ fault_of why };

    fn from(why: JournalRefusal) -> FollowFault {
        match why {
            JournalRefusal::Header => FollowFault::Refused(JournalRefusal::Header),
            JournalRefusal::Line { line } => FollowFault::Refused(JournalRefusal::Line { line }),
            JournalRefusal::OutOfMemory => FollowFault::OutOfMemory,
        }
    }
}
