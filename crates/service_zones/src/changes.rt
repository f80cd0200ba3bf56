//! The changes of a clock, and when summer time holds.

ghost use Rattle.std.specs.Prelude.{◌≡◌, ◌+◌, ◌-◌, ◌<◌, ◌≤◌, ℤ, pos, neg_ℤ, ◌+ℤ◌, ◌-ℤ◌, ◌≤ℤ◌, ◌↔◌, [], ◌∷◌};
ghost use Rattle.jiff_core.specs.Calendar.{IsBetween, days_from_civil};
ghost use Rattle.jiff_core.specs.Date.{epoch_day};
ghost use Rattle.mt_base.specs.Civil.{IsCivil};
ghost use Rattle.service_zones.specs.Changes.{noon, has_end, lasts};
ghost use Rattle.std.specs.List.{list_any};

use jiff_core::civil::{Date, Weekday};
use mt_base::calendar::date_of;

/// A change of the clock, which comes once a year: `Mm.w.d/hours` of the variable TZ (POSIX.1, Base
/// Definitions, 8.3; more hours than a day has: RFC 8536, 3.3.1).
#[derive(Clone, Copy, Debug, PartialEq, Eq)]
pub struct Change {
    /// The month of its date, 1 to 12.
    pub month: u8,

    /// Which of the month's days with its weekday: 1 to 4 from the beginning, 5 for the last.
    pub week: u8,

    /// The weekday, from 0 for Sunday to 6.
    pub weekday: u8,

    /// How many hours after the beginning of that date the clock changes, -167 to 167.
    pub hours: i16,
}

impl Change {
    ghost use Rattle.service_zones.specs.Zones.{IsChange};
    ghost use Rattle.service_zones.specs.Changes.{day_in, hour_in, hours_near};

    fn date_in(&self, year: i16) -> Date
        requires year_in { IsBetween (neg_ℤ (pos 9999)) (pos 9999) year }
        requires change_in { IsChange self.now }
        ensures { epoch_day result ≡ days_from_civil year self.now.month (day_in year self.now) }
    {
        let month = Date {
            year,
            month: self.month,
            day: 1,
        };
        let week = if self.week == 5 { -1 } else { self.week as i8 };
        let weekday = Weekday::from_index((self.weekday + 6) % 7);
        let Ok(date) = month.nth_weekday_of_month(week, weekday) else {
            unreachable!()
        };
        date
    }

    #[tactic(auto, unfolding(crate::specs::Changes::hour_in))]
    fn hour_in(&self, year: i16) -> i32
        requires year_in { IsBetween (neg_ℤ (pos 9999)) (pos 9999) year }
        requires change_in { IsChange self.now }
        ensures { result ≡ hour_in year self.now }
    {
        24 * self.date_in(year).to_unix_epoch_day() + i32::from(self.hours)
    }

    #[tactic(auto, unfolding(crate::specs::Changes::hours_near))]
    fn hours_near(&self, year: i16) -> [i32; 3]
        requires year_in { IsBetween (neg_ℤ (pos 9998)) (pos 9998) year }
        requires change_in { IsChange self.now }
        ensures { result ≡ hours_near year self.now }
    {
        [
            self.hour_in(year - 1),
            self.hour_in(year),
            self.hour_in(year + 1),
        ]
    }
}

/// Summer time: the part of the year in which the clock has another offset.
#[derive(Clone, Copy, Debug, PartialEq, Eq)]
pub struct SummerTime {
    /// Its offset, in seconds west of UTC.
    pub offset: i32,

    /// When it starts.
    pub start: Change,

    /// When it ends.
    pub end: Change,
}

impl SummerTime {
    ghost use Rattle.service_zones.specs.Zones.{IsSummerTime};
    ghost use Rattle.service_zones.specs.Changes.{is_summer};

    /// Whether it holds at the noon of a civil date, a number YYYYMMDD of a year up to 9998:
    /// whether the last change up to it is a start. Where a start and an end come at one hour, the
    /// end counts.
    pub(crate) fn holds_on(&self, date: u32) -> bool
        requires civil { IsCivil date }
        requires year { date < 99990000 }
        requires summer_in { IsSummerTime self.now }
        ensures { result ≡ is_summer self.now date }
    {
        let year = (date / 10_000) as i16;
        any_lasts(
            &self.start.hours_near(year),
            &self.end.hours_near(year),
            noon(date),
        )
    }
}

fn noon(date: u32) -> i32
    requires { IsCivil date }
    ensures { result ≡ noon date }
{
    let Some(day) = date_of(date) else {
        unreachable!()
    };
    24 * day.to_unix_epoch_day() + 12
}

#[tactic(auto, unfolding(crate::specs::Changes::has_end))]
fn has_end(ends: &[i32], noon: i32, start: i32) -> bool
    ensures { result ≡ has_end ends.now noon start }
{
    ends.iter().any(|end| start <= *end && *end <= noon)
}

#[tactic(auto, unfolding(crate::specs::Changes::lasts))]
fn lasts(ends: &[i32], noon: i32, start: i32) -> bool
    ensures { result ≡ lasts ends.now noon start }
{
    start <= noon && !has_end(ends, noon, start)
}

fn any_lasts(starts: &[i32], ends: &[i32], noon: i32) -> bool
    ensures { result ≡ list_any (lasts ends.now noon) starts.now }
{
    starts.iter().any(|start| lasts(ends, noon, *start))
}
