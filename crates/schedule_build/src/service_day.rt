//! A loaded service day.

ghost use Rattle.std.specs.Prelude.{◌≡◌, ℕ, ◌<◌, ◌≤◌, All, length};
ghost use Rattle.mt_base.specs.Civil.{IsCivil};
ghost use Rattle.schedule_build.specs.Bases.{base_at};
ghost use Rattle.schedule_build.specs.Dates.{date_after};
ghost use Rattle.schedule_build.specs.Directory.{base_of, date_of_day, names_of};
ghost use Rattle.schedule_build.specs.Runs.{all_runs};
ghost use Rattle.schedule_build.specs.declared.runs.Run.{Run as ARun};

use crate::dates::date_after;
use feed_tables::FeedTables;
use mt_base::numbers::Time;
use mt_base::options::Opts;
use mt_base::rows::Rows;

/// A loaded service day: its date, and the moment from which its times count.
#[derive(Clone, Copy, Debug, PartialEq, Eq)]
pub struct ServiceDay {
    /// The date, as the number YYYYMMDD.
    pub date: u32,

    /// The base, noon minus 12 hours of the date (GTFS Schedule, type Time), in seconds from that
    /// of day 0.
    pub base: Time,
}

/// The base of a loaded day.
pub(crate) fn base_on(bases: &[Time], day: u32) -> Time
    requires loaded { day < length bases.now }
    ensures { result ≡ base_at bases.now day }
{
    bases[day as usize]
}

/// A loaded day, where the date of day 0 is `first`.
pub(crate) fn service_day(first: u32, bases: &[Time], day: u32) -> ServiceDay
    requires civil { IsCivil first }
    requires year { first < 21010000 }
    requires few { day ≤ 31 }
    requires loaded { day < length bases.now }
    ensures { result ≡ record { date = date_after first day; base = base_at bases.now day } }
{
    ServiceDay {
        date: date_after(first, day),
        base: base_on(bases, day),
    }
}

/// The names of a timetable have for each loaded day its date and the base that is given for it, and
/// every train is made with that base. The call does nothing.
pub fn days_have_the_bases_that_are_given(
    t: &FeedTables,
    first: u32,
    days: u32,
    opts: &Opts,
    bases: &Rows<Time>,
)
    ensures dates { (day : ℕ) → day < days
        → date_of_day (names_of t.now first days bases.now opts.now) day ≡ date_after first day }
    ensures names { (day : ℕ) → day < days
        → base_of (names_of t.now first days bases.now opts.now) day ≡ base_at bases.now day }
    ensures trains { All (λ (r : ARun). r.base ≡ base_at bases.now r.day)
        (all_runs t.now first days bases.now) }
{}
