//! Why a feed is refused.

ghost use Rattle.std.specs.Prelude.{◌≡◌};
ghost use Rattle.gtfs_tables.specs.declared.refusals.FeedError.TheVariants.{OutOfMemory};

use crate::faults::{Cause, Table};
use mt_base::tables::What;
use std::alloc::AllocError;

/// Why a feed is refused.
#[derive(Clone, Copy, Debug, PartialEq, Eq)]
pub enum FeedRefusal {
    /// A table that must be there is absent. It is `Calendar` where neither calendar.txt nor
    /// calendar_dates.txt is there.
    Missing {
        /// The table.
        table: Table,
    },

    /// The first fault of a table.
    Bad {
        /// The table.
        table: Table,
        /// The number of the row. The header is row 1.
        row: u64,
        /// What is wrong with it.
        cause: Cause,
    },

    /// frequencies.txt has a row.
    Frequencies,

    /// There are more rows of a table, or more trains or events of the schedule, than may be.
    TooMany {
        /// Of what there are too many.
        what: What,
    },

    /// A table has more than 268,435,456 bytes.
    TooLong {
        /// The table.
        table: Table,
    },
}

/// Why a feed is not read.
#[derive(Clone, Copy, Debug, PartialEq, Eq)]
pub enum FeedError {
    /// The feed is refused.
    Refused(FeedRefusal),

    /// The feed failed.
    ReadFault,

    /// There was no memory.
    OutOfMemory,
}

impl From<AllocError> for FeedError {
    ghost from_gives = { λ _ e. e ≡ OutOfMemory };

    fn from(_e: AllocError) -> FeedError {
        FeedError::OutOfMemory
    }
}
