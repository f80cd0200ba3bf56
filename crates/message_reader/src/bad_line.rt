//! Why a line is bad, and why it could not be read.

ghost use Rattle.std.specs.Prelude.{◌≡◌};
ghost use Rattle.message_reader.specs.declared.bad_line.LineError.TheVariants.{Bad, OutOfMemory};

use std::alloc::{AllocError, AllocFailed};

/// Why a line is bad.
#[derive(Clone, Copy, Debug, PartialEq, Eq)]
pub enum BadLine {
    /// It has 65,536 bytes or more. Who cuts the input into lines finds this out: no line that is
    /// read here is called long.
    Long,
    /// Its bytes are not UTF-8.
    Utf8,
    /// Its text is not JSON.
    Json,
    /// Its value does not have a version, a type of this version, and the members that a line of
    /// this type needs.
    Shape,
    /// A query or a claim names a place that is no stop, platform or station of the feed, or a
    /// claim says that a place is reached that is no stop or platform.
    Stop,
    /// A date is not eight digits that name a civil date, a time of day is not H:MM:SS or HH:MM:SS,
    /// the date of a query or a claim is not loaded, or a time that a claim gives has more than
    /// four digits of hours or is 2^25 or more.
    Time,
}

/// Why a line could not be read.
#[derive(Clone, Copy, Debug, PartialEq, Eq)]
pub enum LineError {
    /// It is bad.
    Bad(BadLine),
    /// There was no memory to read it.
    OutOfMemory,
}

impl From<BadLine> for LineError {
    ghost from_gives = { λ bad e. e ≡ Bad bad };

    fn from(bad: BadLine) -> LineError {
        LineError::Bad(bad)
    }
}

impl From<AllocError> for LineError {
    ghost from_gives = { λ _ e. e ≡ OutOfMemory };

    fn from(_e: AllocError) -> LineError {
        LineError::OutOfMemory
    }
}

impl<T: Drop> From<AllocFailed<T>> for LineError {
    ghost from_gives = { λ _ e. e ≡ OutOfMemory };

    fn from(_e: AllocFailed<T>) -> LineError {
        LineError::OutOfMemory
    }
}
