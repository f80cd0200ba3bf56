//! The tables by name, and what can be wrong with one.

ghost use Rattle.std.specs.Prelude.{◌≡◌};
ghost use Rattle.gtfs_tables.specs.Names.{file_name};
ghost use Rattle.gtfs_tables.specs.declared.faults.TableError.TheVariants.{OutOfMemory};

use std::alloc::{AllocError, AllocFailed};

/// A table of a feed.
#[derive(Clone, Copy, Debug, PartialEq, Eq)]
pub enum Table {
    /// The stops, stations and other locations.
    Stops,

    /// The trips with their routes and services.
    Trips,

    /// The calls of the trips.
    StopTimes,

    /// The weekdays and the span of dates of a service.
    Calendar,

    /// The dates that are added to a service or removed from it.
    CalendarDates,

    /// The changes between two locations.
    Transfers,

    /// How long a train waits for another: a table of this project's own.
    WaitingRules,

    /// Trips that run at intervals, which this project refuses.
    Frequencies,
}

impl Table {
    /// The name of its file.
    pub fn name(&self) -> &'static str
        ensures { result.now ≡ file_name self.now }
    {
        match self {
            Table::Stops => "stops.txt",
            Table::Trips => "trips.txt",
            Table::StopTimes => "stop_times.txt",
            Table::Calendar => "calendar.txt",
            Table::CalendarDates => "calendar_dates.txt",
            Table::Transfers => "transfers.txt",
            Table::WaitingRules => "waiting_rules.txt",
            Table::Frequencies => "frequencies.txt",
        }
    }
}

/// What is wrong with a row.
#[derive(Clone, Copy, Debug, PartialEq, Eq)]
pub enum Cause {
    /// The header lacks a column that is needed.
    NoColumn,

    /// A field is not UTF-8.
    NotUtf8,

    /// The row has another number of fields than the header.
    FieldCount,

    /// A field is not a number of its form or range.
    BadNumber,

    /// A field is not a time of day.
    BadTime,

    /// A field is not a date of the calendar.
    BadDate,

    /// A field names no row of the table that it leads to.
    UnknownReference,

    /// An earlier row has the same key.
    DuplicateKey,

    /// A time is before one that stands before it on the trip.
    BackwardsTimes,

    /// The trip has one row only.
    TooFewCalls,

    /// The first or the last call of the trip has no time.
    UntimedEnd,
}

/// A fault of a table.
#[derive(Clone, Copy, Debug, PartialEq, Eq)]
pub struct Fault {
    /// The number of the row. The header is row 1.
    pub row: u64,
    /// What is wrong with it.
    pub cause: Cause,
}

/// Why a table was not read.
#[derive(Clone, Copy, Debug, PartialEq, Eq)]
pub enum TableError {
    /// There was no memory for what was to be made.
    OutOfMemory,

    /// The first fault of the table.
    Bad(Fault),
}

impl From<AllocError> for TableError {
    ghost from_gives = { λ _ e. e ≡ OutOfMemory };

    fn from(_e: AllocError) -> TableError {
        TableError::OutOfMemory
    }
}

impl<T: Drop> From<AllocFailed<T>> for TableError {
    ghost from_gives = { λ _ e. e ≡ OutOfMemory };

    fn from(_e: AllocFailed<T>) -> TableError {
        TableError::OutOfMemory
    }
}
