//! `calendar.txt` read by itself.

ghost use Rattle.std.specs.Prelude.{◌≡◌, ◌≤◌, ◌+◌, ◌^◌, List, ℕ, [], length, IfOk, OnOk};
ghost use Rattle.gtfs_tables.specs.Calendar.{Calendar, calendar_columns, calendar_step, calendar_of, runs_of, days_of, with_service};
ghost use Rattle.gtfs_tables.specs.Builders.{calendar_view, calendar_size, IsKeyedCalendar};
ghost use Rattle.gtfs_tables.specs.Checks.{Gives};
ghost use Rattle.gtfs_tables.specs.Numberings.{IsNumbered, names_of};
ghost use Rattle.gtfs_tables.specs.Sheets.{cell};
ghost use Rattle.gtfs_tables.specs.Sizes.{IsSmall, GrowsByRow, GrowsByTable};
ghost use Rattle.gtfs_tables.specs.Texts.{AreRecordsOf};

use crate::builders::{TableBuilder, build_table};
use crate::cells::need;
use crate::columns::Column;
use crate::faults::{Cause, Fault, TableError};
use crate::fields::digit_within;
use crate::numbering::Numbering;
use crate::sheets::Sheet;
use mt_base::rows::Rows;
use mt_base::tables::CalendarRow;
use mt_base::texts::date;
use std::alloc::Global;
use std::collections::BTreeSet;
use std::mem;

// What the rows so far made. After an error it is of no more use.
#[derive(Drop)]
struct CalendarTable {
    services: Numbering,
    rows: Vec<CalendarRow>,
    keys: BTreeSet<u32>,
}

fn runs(bytes: &[u8]) -> Option<bool>
    ensures { result ≡ runs_of bytes.now }
{
    digit_within(bytes, 0, 1).map(|digit| digit == 1)
}

#[tactic(auto, unfolding(crate::specs::Calendar::days_of))]
fn read_days(sheet: &Sheet<'_>, row: u64) -> Result<[bool; 7], TableError>
    requires { length sheet.now.places.items ≡ 10 }
    ensures { Gives (λ days. days) result (days_of row (cell sheet.now 1) (cell sheet.now 2)
        (cell sheet.now 3)
        (cell sheet.now 4) (cell sheet.now 5) (cell sheet.now 6) (cell sheet.now 7)) }
{
    let monday = need(row, Cause::BadNumber, runs(sheet.field(1)))?;
    let tuesday = need(row, Cause::BadNumber, runs(sheet.field(2)))?;
    let wednesday = need(row, Cause::BadNumber, runs(sheet.field(3)))?;
    let thursday = need(row, Cause::BadNumber, runs(sheet.field(4)))?;
    let friday = need(row, Cause::BadNumber, runs(sheet.field(5)))?;
    let saturday = need(row, Cause::BadNumber, runs(sheet.field(6)))?;
    let sunday = need(row, Cause::BadNumber, runs(sheet.field(7)))?;
    Ok([
        monday, tuesday, wednesday, thursday, friday, saturday, sunday,
    ])
}

impl CalendarTable {
    /// Adds a row, unless an earlier one has its service.
    #[tactic(auto, unfolding(crate::specs::Calendar::with_service))]
    fn add(
        &mut self,
        alloc: Global,
        row: u64,
        name: &str,
        days: [bool; 7],
        first: u32,
        last: u32,
    ) -> Result<(), TableError>
        requires keyed { IsKeyedCalendar self.old }
        requires room { calendar_size self.old + 3 ≤ 2 ^ 32 }
        ensures size { OnOk result (GrowsByRow (calendar_size self.old) (calendar_size self.new)) }
        ensures keyed { OnOk result (IsKeyedCalendar self.new) }
        ensures made { Gives (λ u. calendar_view self.new) result
            (with_service row name.now days first last (calendar_view self.old)) }
    {
        let service = self.services.number(alloc, name)?;
        if !self.keys.insert(service)? {
            return Err(TableError::Bad(Fault {
                row,
                cause: Cause::DuplicateKey,
            }));
        }
        self.rows.push(CalendarRow {
            service,
            days,
            first,
            last,
        })?;
        Ok(())
    }
}

impl TableBuilder for CalendarTable {
    ghost use Rattle.gtfs_tables.specs.declared.columns.Column.{Column};

    ghost Made = { Calendar };

    ghost made = { calendar_view };

    ghost Given = { Unit {0} };

    ghost given = { λ _. tt };

    ghost IsSound = { IsKeyedCalendar };

    ghost size = { calendar_size };

    ghost columns = { calendar_columns };

    ghost step = { λ _. calendar_step };

    fn add_row(&mut self, alloc: Global, row: u64, sheet: &Sheet<'_>) -> Result<(), TableError> {
        let days = read_days(sheet, row)?;
        let first = need(row, Cause::BadDate, date(sheet.field(8)))?;
        let last = need(row, Cause::BadDate, date(sheet.field(9)))?;
        self.add(alloc, row, sheet.text(0), days, first, last)
    }
}

/// The rows of calendar.txt (GTFS Schedule, calendar.txt), or the first fault in it, by the list of
/// all records of the text: BadNumber for a weekday that is not `0` or `1`, BadDate for a start or
/// end that is no civil date, DuplicateKey for a second row of a service. Services that no earlier
/// table names are numbered on; after an error `services` is of no more use.
pub(crate) fn read_calendar(
    alloc: Global,
    text: &[u8],
    services: &mut Numbering,
) -> Result<Rows<CalendarRow>, TableError>
    requires numbered { IsNumbered services.old }
    requires small { IsSmall text.now }
    requires room { length (names_of services.old) ≤ 2 ^ 31 }
    ensures size { IfOk result (λ rows. GrowsByTable (length (names_of services.old))
        (length (names_of services.new) + length rows)) }
    ensures numbered { OnOk result (IsNumbered services.new) }
    ensures rows { (all : List (List (List ℕ))) → AreRecordsOf text.now all
        → Gives (λ rows. record { services = names_of services.new; rows = rows }) result
        (calendar_of (names_of services.old) all) }
{
    let needed = [
        Column::ServiceId,
        Column::Monday,
        Column::Tuesday,
        Column::Wednesday,
        Column::Thursday,
        Column::Friday,
        Column::Saturday,
        Column::Sunday,
        Column::StartDate,
        Column::EndDate,
    ];
    let mut table = CalendarTable {
        services: mem::replace(services, Numbering::new(alloc)),
        rows: Vec::new(alloc),
        keys: BTreeSet::new(alloc),
    };
    build_table(alloc, text, &needed, &[], &mut table)?;
    *services = table.services;
    Ok(Rows::build(table.rows))
}
