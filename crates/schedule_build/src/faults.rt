//! Why a schedule is not built.

use mt_base::memory::OutOfMemory;
use mt_base::tables::What;
use std::alloc::AllocFailed;

/// Why a schedule is not built.
#[derive(Clone, Copy, Debug, PartialEq, Eq)]
pub enum ExpandFault {
    /// There are more than 200,000 trains, or more than 2,000,000 events.
    TooMany {
        /// Of what there are too many: `Trains` or `Nodes`.
        what: What,
    },

    /// There was no memory.
    OutOfMemory,
}

impl From<OutOfMemory> for ExpandFault {
    ghost use Rattle.std.specs.Prelude.{◌≡◌};
    ghost use Rattle.schedule_build.specs.declared.faults.ExpandFault.TheVariants.{OutOfMemory};

    ghost from_gives = { λ _ e. e ≡ OutOfMemory };

    fn from(_want: OutOfMemory) -> ExpandFault {
        ExpandFault::OutOfMemory
    }
}

impl<T: Drop> From<AllocFailed<T>> for ExpandFault {
    ghost use Rattle.std.specs.Prelude.{◌≡◌};
    ghost use Rattle.schedule_build.specs.declared.faults.ExpandFault.TheVariants.{OutOfMemory};

    ghost from_gives = { λ _ e. e ≡ OutOfMemory };

    fn from(_want: AllocFailed<T>) -> ExpandFault {
        ExpandFault::OutOfMemory
    }
}
