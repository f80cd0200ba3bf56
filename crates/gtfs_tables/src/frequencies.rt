//! `frequencies.txt`: whether trips run at intervals.

ghost use Rattle.std.specs.Prelude.{ℕ, List, Ok};
ghost use Rattle.gtfs_tables.specs.Checks.{Gives};
ghost use Rattle.gtfs_tables.specs.Frequencies.{has_rows};
ghost use Rattle.gtfs_tables.specs.Texts.{AreRecordsOf};

use crate::faults::TableError;
use crate::sheets::{make_reader, next_record};
use csv::ByteRecord;
use std::alloc::Global;

/// Whether the table has a row (GTFS Schedule, frequencies.txt), by the list of all records of the
/// text: whether a record, with any number of fields, follows the header. Nothing else of it is
/// checked, so the only error is want of memory.
pub(crate) fn has_frequencies(alloc: Global, text: &[u8]) -> Result<bool, TableError>
    ensures { (all : List (List (List ℕ))) → AreRecordsOf text.now all
        → Gives (λ found. found) result (Ok (has_rows all)) }
{
    let mut reader = make_reader(alloc, text);
    let mut fields = ByteRecord::new(alloc);
    if !next_record(&mut reader, &mut fields)? {
        return Ok(false);
    }
    next_record(&mut reader, &mut fields)
}
