//! `calendar_dates.txt` read by itself.

ghost use Rattle.std.specs.Prelude.{◌≡◌, ◌≤◌, ◌+◌, ◌^◌, List, ℕ, [], length, IfOk, OnOk};
ghost use Rattle.gtfs_tables.specs.Builders.{dates_view, dates_size, IsKeyedDates};
ghost use Rattle.gtfs_tables.specs.CalendarDates.{Dates, date_columns, date_step, calendar_dates_of, added_of, with_date};
ghost use Rattle.gtfs_tables.specs.Checks.{Gives};
ghost use Rattle.gtfs_tables.specs.Numberings.{IsNumbered, names_of};
ghost use Rattle.gtfs_tables.specs.Sizes.{IsSmall, GrowsByRow, GrowsByTable};
ghost use Rattle.gtfs_tables.specs.Texts.{AreRecordsOf};

use crate::builders::{TableBuilder, build_table};
use crate::cells::need;
use crate::columns::Column;
use crate::faults::{Cause, Fault, TableError};
use crate::fields::digit_within;
use crate::numbering::Numbering;
use crate::sheets::Sheet;
use mt_base::rows::Rows;
use mt_base::tables::DateRow;
use mt_base::texts::date;
use std::alloc::Global;
use std::collections::BTreeSet;
use std::mem;

// What the rows so far made. After an error it is of no more use.
#[derive(Drop)]
struct DateTable {
    services: Numbering,
    rows: Vec<DateRow>,
    keys: BTreeSet<(u32, u32)>,
}

fn is_added(bytes: &[u8]) -> Option<bool>
    ensures { result ≡ added_of bytes.now }
{
    digit_within(bytes, 1, 2).map(|digit| digit == 1)
}

impl DateTable {
    /// Adds a row, unless an earlier one has its service and date.
    #[tactic(auto, unfolding(crate::specs::CalendarDates::with_date))]
    fn add(
        &mut self,
        alloc: Global,
        row: u64,
        name: &str,
        date: u32,
        added: bool,
    ) -> Result<(), TableError>
        requires keyed { IsKeyedDates self.old }
        requires room { dates_size self.old + 3 ≤ 2 ^ 32 }
        ensures size { OnOk result (GrowsByRow (dates_size self.old) (dates_size self.new)) }
        ensures keyed { OnOk result (IsKeyedDates self.new) }
        ensures made { Gives (λ u. dates_view self.new) result
            (with_date row name.now date added (dates_view self.old)) }
    {
        let service = self.services.number(alloc, name)?;
        if !self.keys.insert((service, date))? {
            return Err(TableError::Bad(Fault {
                row,
                cause: Cause::DuplicateKey,
            }));
        }
        self.rows.push(DateRow {
            service,
            date,
            added,
        })?;
        Ok(())
    }
}

impl TableBuilder for DateTable {
    ghost use Rattle.gtfs_tables.specs.declared.columns.Column.{Column};

    ghost Made = { Dates };

    ghost made = { dates_view };

    ghost Given = { Unit {0} };

    ghost given = { λ _. tt };

    ghost IsSound = { IsKeyedDates };

    ghost size = { dates_size };

    ghost columns = { date_columns };

    ghost step = { λ _. date_step };

    fn add_row(&mut self, alloc: Global, row: u64, sheet: &Sheet<'_>) -> Result<(), TableError> {
        let date = need(row, Cause::BadDate, date(sheet.field(1)))?;
        let added = need(row, Cause::BadNumber, is_added(sheet.field(2)))?;
        self.add(alloc, row, sheet.text(0), date, added)
    }
}

/// The rows of calendar_dates.txt (GTFS Schedule, calendar_dates.txt), or the first fault in it, by
/// the list of all records of the text: BadDate for no civil date, BadNumber for an exception_type
/// that is not `1` or `2`, DuplicateKey for a second row of a service and a date. Services that no
/// earlier table names are numbered on; after an error `services` is of no more use.
pub(crate) fn read_calendar_dates(
    alloc: Global,
    text: &[u8],
    services: &mut Numbering,
) -> Result<Rows<DateRow>, TableError>
    requires numbered { IsNumbered services.old }
    requires small { IsSmall text.now }
    requires room { length (names_of services.old) ≤ 2 ^ 31 }
    ensures size { IfOk result (λ rows. GrowsByTable (length (names_of services.old))
        (length (names_of services.new) + length rows)) }
    ensures numbered { OnOk result (IsNumbered services.new) }
    ensures rows { (all : List (List (List ℕ))) → AreRecordsOf text.now all
        → Gives (λ rows. record { services = names_of services.new; rows = rows }) result
        (calendar_dates_of (names_of services.old) all) }
{
    let needed = [Column::ServiceId, Column::Date, Column::ExceptionType];
    let mut table = DateTable {
        services: mem::replace(services, Numbering::new(alloc)),
        rows: Vec::new(alloc),
        keys: BTreeSet::new(alloc),
    };
    build_table(alloc, text, &needed, &[], &mut table)?;
    *services = table.services;
    Ok(Rows::build(table.rows))
}
