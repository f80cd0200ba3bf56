//! Civil dates as numbers YYYYMMDD.

ghost use Rattle.std.specs.Prelude.{◌≡◌, ℕ, ◌+◌, ◌<◌, ◌≤◌, ◌/◌, ◌%◌, ◌^◌, pos, ◌+ℤ◌};
ghost use Rattle.mt_base.specs.Civil.{IsCivil};
ghost use Rattle.schedule_build.specs.Dates.{day_number, weekday_of, next_date, date_after};

use jiff_core::civil::days_in_month;
use mt_base::calendar::date_of;

/// The day of the week of a civil date, from 0 for Monday.
pub(crate) fn weekday(date: u32) -> usize
    requires { IsCivil date }
    ensures value { result ≡ weekday_of date }
    ensures bound { result < 7 }
{
    match date_of(date) {
        Some(day) => day.weekday().index() as usize,
        None => 0,
    }
}

/// The date of the day after a civil date.
pub(crate) fn next(date: u32) -> u32
    requires { IsCivil date }
    ensures { result ≡ next_date date }
{
    let (year, month, day) = (date / 10_000, date / 100 % 100, date % 100);
    if day < days_in_month(year as i16, month as u8) as u32 {
        return date + 1;
    }
    if month < 12 {
        return year * 10_000 + (month + 1) * 100 + 1;
    }
    (year + 1) * 10_000 + 101
}

/// The civil date so many days after a civil date, both as numbers YYYYMMDD. The first is of a year
/// up to 2100.
pub fn date_after(first: u32, days: u32) -> u32
    requires civil { IsCivil first }
    requires year { first < 21010000 }
    requires few { days ≤ 31 }
    ensures date { result ≡ date_after first days }
    ensures civil { IsCivil result }
    ensures number { day_number result ≡ day_number first +ℤ pos days }
{
    let mut date = first;
    for _day in 0..days {
        date = next(date);
    }
    date
}
