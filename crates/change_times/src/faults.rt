//! Why change times are not built.

use mt_base::memory::OutOfMemory;

/// Why change times are not built.
#[derive(Clone, Copy, Debug, PartialEq, Eq)]
pub enum BuildFault {
    /// More than 4,000,000 pairs of a stop or station and a stop have a change from the first to
    /// the second.
    TooMany,

    /// There was no memory.
    OutOfMemory,
}

impl From<OutOfMemory> for BuildFault {
    ghost use Rattle.std.specs.Prelude.{◌≡◌};
    ghost use Rattle.change_times.specs.declared.faults.BuildFault.TheVariants.{OutOfMemory};

    ghost from_gives = { λ _ e. e ≡ OutOfMemory };

    fn from(_want: OutOfMemory) -> BuildFault {
        BuildFault::OutOfMemory
    }
}
