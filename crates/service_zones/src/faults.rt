//! Why there are no bases.

use mt_base::memory::OutOfMemory;
use mt_base::numbers::Day;
use std::alloc::AllocFailed;

/// Why there are no bases of service days.
#[derive(Clone, Copy, Debug, PartialEq, Eq)]
pub enum BaseFault {
    /// A service day begins less than 22 or more than 26 hours after the one before.
    DayLength {
        /// The first such day.
        day: Day,
    },

    /// There was no memory.
    OutOfMemory,
}

impl From<OutOfMemory> for BaseFault {
    ghost use Rattle.std.specs.Prelude.{◌≡◌};
    ghost use Rattle.service_zones.specs.declared.faults.BaseFault.TheVariants.{OutOfMemory};

    ghost from_gives = { λ _ e. e ≡ OutOfMemory };

    fn from(_want: OutOfMemory) -> BaseFault {
        BaseFault::OutOfMemory
    }
}

impl<T: Drop> From<AllocFailed<T>> for BaseFault {
    ghost use Rattle.std.specs.Prelude.{◌≡◌};
    ghost use Rattle.service_zones.specs.declared.faults.BaseFault.TheVariants.{OutOfMemory};

    ghost from_gives = { λ _ e. e ≡ OutOfMemory };

    fn from(_want: AllocFailed<T>) -> BaseFault {
        BaseFault::OutOfMemory
    }
}
