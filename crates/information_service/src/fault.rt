//! Why answering lines stops before the end of the input.

use mt_io::Failed;
use std::alloc::AllocError;

/// Why answering lines, or writing the table, stops before its end.
#[derive(Clone, Copy, Debug, PartialEq, Eq)]
pub enum LinesFault {
    /// A read of the input failed.
    ReadFault,
    /// A write of the output failed.
    WriteFault,
    /// There was no memory.
    OutOfMemory,
    /// As many bytes of the input as may be were taken, and no end was read.
    TooLong,
}

impl From<AllocError> for LinesFault {
    ghost use Rattle.std.specs.Prelude.{◌≡◌};
    ghost use Rattle.information_service.specs.declared.fault.LinesFault.TheVariants.{OutOfMemory};

    ghost from_gives = { λ _ e. e ≡ OutOfMemory };

    fn from(_want: AllocError) -> LinesFault {
        LinesFault::OutOfMemory
    }
}

impl From<Failed> for LinesFault {
    ghost use Rattle.std.specs.Prelude.{◌≡◌};
    ghost use Rattle.information_service.specs.declared.fault.LinesFault.TheVariants.{WriteFault};

    ghost from_gives = { λ _ e. e ≡ WriteFault };

    fn from(_failed: Failed) -> LinesFault {
        LinesFault::WriteFault
    }
}
