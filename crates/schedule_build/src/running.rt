//! The services that are active on a day.

ghost use Rattle.std.specs.Prelude.{◌≡◌, ℕ, ◌<◌, ◌^◌, Bool, true, false, nat_eq, IfOk, if◌then◌else◌, length, slice_index_or};
ghost use Rattle.std.specs.List.{list_any};
ghost use Rattle.mt_base.specs.Civil.{IsCivil};
ghost use Rattle.schedule_build.specs.Services.{runs, changes, is_active};

use crate::dates::weekday;
use mt_base::memory::OutOfMemory;
use mt_base::tables::{CalendarRow, DateRow, Tables};
use std::alloc::Global;

/// Writes the mark with a number, if there is one.
pub(crate) fn mark(marks: &mut Vec<bool>, number: u32, value: bool)
    ensures len { length marks.new.items ≡ length marks.old.items }
    ensures marks { (s : ℕ) → s < length marks.old.items → slice_index_or marks.new.items s false
        ≡ (if nat_eq number s then value else slice_index_or marks.old.items s false) }
{
    if (number as usize) < marks.len() {
        marks[number as usize] = value;
    }
}

fn mark_run(marks: &mut Vec<bool>, row: &CalendarRow, date: u32, weekday: usize)
    requires { weekday < 7 }
    ensures len { length marks.new.items ≡ length marks.old.items }
    ensures marks { (s : ℕ) → s < length marks.old.items → slice_index_or marks.new.items s false
        ≡ (if runs s date weekday row.now then true else slice_index_or marks.old.items s false) }
{
    if row.first <= date && date <= row.last && row.days[weekday] {
        mark(marks, row.service, true);
    }
}

fn mark_runs(marks: &mut Vec<bool>, rows: &[CalendarRow], date: u32, weekday: usize)
    requires { weekday < 7 }
    ensures len { length marks.new.items ≡ length marks.old.items }
    ensures marks { (s : ℕ) → s < length marks.old.items → slice_index_or marks.new.items s false
        ≡ (if list_any (runs s date weekday) rows.now then true
        else slice_index_or marks.old.items s false) }
{
    for row in rows {
        mark_run(marks, row, date, weekday);
    }
}

fn mark_change(marks: &mut Vec<bool>, row: &DateRow, added: bool, date: u32)
    ensures len { length marks.new.items ≡ length marks.old.items }
    ensures marks { (s : ℕ) → s < length marks.old.items → slice_index_or marks.new.items s false
        ≡ (if changes added s date row.now then added else slice_index_or marks.old.items s false) }
{
    if row.date == date && row.added == added {
        mark(marks, row.service, added);
    }
}

fn mark_changes(marks: &mut Vec<bool>, rows: &[DateRow], added: bool, date: u32)
    ensures len { length marks.new.items ≡ length marks.old.items }
    ensures marks { (s : ℕ) → s < length marks.old.items → slice_index_or marks.new.items s false
        ≡ (if list_any (changes added s date) rows.now then added
        else slice_index_or marks.old.items s false) }
{
    for row in rows {
        mark_change(marks, row, added, date);
    }
}

/// For each service, whether it is active on a civil date.
pub(crate) fn active_services(
    alloc: Global,
    t: &Tables,
    date: u32,
) -> Result<Vec<bool>, OutOfMemory>
    requires { IsCivil date }
    ensures len { IfOk result (λ marks. length marks.items ≡ length t.now.services) }
    ensures marks { IfOk result (λ marks. (s : ℕ) → s < length t.now.services
        → slice_index_or marks.items s false ≡ is_active t.now s date) }
{
    let mut marks = vec![in alloc; false; t.services.len()]?;
    mark_runs(&mut marks, t.calendar.as_slice(), date, weekday(date));
    mark_changes(&mut marks, t.dates.as_slice(), false, date);
    mark_changes(&mut marks, t.dates.as_slice(), true, date);
    Ok(marks)
}
