//! When a service is active.

ghost use Rattle.std.specs.Prelude.{◌≡◌, ◌<◌, true, false};
ghost use Rattle.std.specs.List.{list_any};
ghost use Rattle.mt_base.specs.Civil.{IsCivil};
ghost use Rattle.schedule_build.specs.Services.{runs, changes, is_active};

use crate::dates::weekday;
use feed_tables::FeedTables;
use mt_base::tables::{CalendarRow, DateRow};

fn runs(row: &CalendarRow, service: u32, date: u32, weekday: usize) -> bool
    requires { weekday < 7 }
    ensures { result ≡ runs service date weekday row.now }
{
    row.service == service && row.first <= date && date <= row.last && row.days[weekday]
}

fn any_runs(rows: &[CalendarRow], service: u32, date: u32, weekday: usize) -> bool
    requires { weekday < 7 }
    ensures { result ≡ list_any (runs service date weekday) rows.now }
{
    for row in rows {
        if runs(row, service, date, weekday) {
            return true;
        }
    }
    false
}

fn changes(row: &DateRow, added: bool, service: u32, date: u32) -> bool
    ensures { result ≡ changes added service date row.now }
{
    row.service == service && row.date == date && row.added == added
}

fn any_changes(rows: &[DateRow], added: bool, service: u32, date: u32) -> bool
    ensures { result ≡ list_any (changes added service date) rows.now }
{
    for row in rows {
        if changes(row, added, service, date) {
            return true;
        }
    }
    false
}

/// Whether a service, a row of `Tables::services`, is active on a civil date, a number YYYYMMDD:
/// where `calendar_dates.txt` adds it, or where `calendar.txt` has it run and `calendar_dates.txt`
/// does not remove it.
pub fn active(t: &FeedTables, service: u32, date: u32) -> bool
    requires { IsCivil date }
    ensures { result ≡ is_active t.now service date }
{
    let tables = t.tables();
    let dates = tables.dates.as_slice();
    any_changes(dates, true, service, date)
        || any_runs(tables.calendar.as_slice(), service, date, weekday(date))
            && !any_changes(dates, false, service, date)
}
