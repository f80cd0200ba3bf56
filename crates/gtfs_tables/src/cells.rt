//! What a row's field has to give.

ghost use Rattle.gtfs_tables.specs.Checks.{Gives, fault, need};

use crate::faults::{Cause, Fault, TableError};

/// What is there, else the fault of the row with this cause.
pub(crate) fn need<T: Drop>(row: u64, cause: Cause, found: Option<T>) -> Result<T, TableError>
    ensures { Gives (λ x. x) result (need (fault row cause) found) }
{
    match found {
        Some(value) => Ok(value),
        None => Err(TableError::Bad(Fault { row, cause })),
    }
}
