//! Why a journal is not read to its end.

use std::alloc::AllocError;

/// Why a journal is not read to its end.
#[derive(Clone, Copy, Debug, PartialEq, Eq)]
pub enum JournalRefusal {
    /// Its first whole line is not too long and is not the header that is expected, or, of a
    /// journal that has ended, there is no whole line.
    Header,

    /// The line of this number, from 1 on, is too long, whether it is whole or not, or, behind the
    /// header, is not the line of a message that is accepted there.
    Line {
        /// The number of the line, where the header is line 1.
        line: u64,
    },

    /// There was no memory.
    OutOfMemory,
}

impl From<AllocError> for JournalRefusal {
    ghost use Rattle.std.specs.Prelude.{◌≡◌};
    ghost use Rattle.journal_replay.specs.declared.refusal.JournalRefusal.TheVariants.{OutOfMemory};

    ghost from_gives = { λ _ e. e ≡ OutOfMemory };

    fn from(_want: AllocError) -> JournalRefusal {
        JournalRefusal::OutOfMemory
    }
}
