//! The names of a feed's timetable.

ghost use Rattle.std.specs.Prelude.{◌≡◌, ◌<◌, ◌≤◌, ◌^◌, All, IfOk, length, map};
ghost use Rattle.mt_base.specs.Civil.{IsCivil};
ghost use Rattle.mt_base.specs.Options.{IsInRange};
ghost use Rattle.feed_tables.specs.Lawful.{IsLawful};
ghost use Rattle.schedule_build.specs.Directory.{days_from, name_of_run, names_of};
ghost use Rattle.schedule_build.specs.Bases.{AreBases};
ghost use Rattle.schedule_build.specs.declared.service_day.ServiceDay.{ServiceDay as ADay};
ghost use Rattle.schedule_build.specs.Runs.{all_runs};
ghost use Rattle.schedule_build.specs.declared.runs.Run.{Run};

use crate::directory::Directory;
use crate::extra_trains::ExtraTrains;
use crate::name_list::NameList;
use crate::places::Places;
use crate::run_names::trains;
use crate::runs::Run;
use crate::service_day::{ServiceDay, service_day};
use mt_base::memory::OutOfMemory;
use mt_base::names::Name;
use mt_base::numbers::Time;
use mt_base::options::Opts;
use mt_base::tables::Tables;
use std::alloc::Global;

/// So many days from the date `first` on, which have these bases.
fn service_days(
    alloc: Global,
    first: u32,
    days: u32,
    bases: &[Time],
) -> Result<Vec<ServiceDay>, OutOfMemory>
    requires civil { IsCivil first }
    requires year { first < 21010000 }
    requires few { days ≤ 31 }
    requires bases { AreBases days bases.now }
    ensures days { IfOk result (λ all. all.items ≡ days_from first bases.now 0 days) }
    ensures few { IfOk result (λ all. length all.items ≤ 31) }
    ensures bases { IfOk result (λ all. All (λ (d : ADay). d.base ≤ 2808000) all.items) }
{
    let mut all = Vec::new(alloc);
    for day in 0..days {
        all.push(service_day(first, bases, day))?;
    }
    Ok(all)
}

/// The names in their order.
fn names(alloc: Global, rows: &[Name]) -> Result<NameList, OutOfMemory>
    requires few { length rows.now < 2 ^ 32 }
    ensures { IfOk result (λ names. names ≡ rows.now) }
{
    let mut names = Vec::with_capacity(alloc, rows.len())?;
    for row in rows {
        names.push(row.copy(alloc)?)?;
    }
    NameList::build(alloc, names)
}

/// The names of a feed's timetable of so many days from the date `first` on, which have these bases
/// and these runs, with room for what the options spare.
pub(crate) fn directory_of(
    alloc: Global,
    t: &Tables,
    runs: &[Run],
    first: u32,
    days: u32,
    bases: &[Time],
    opts: &Opts,
) -> Result<Directory, OutOfMemory>
    // lawful tables, the days with their bases, and the options
    requires lawful { IsLawful t.now }
    requires civil { IsCivil first }
    requires year { first < 21010000 }
    requires few_days { days ≤ 31 }
    requires bases { AreBases days bases.now }
    requires options { IsInRange opts.now }

    // the runs of these days
    requires runs { runs.now ≡ all_runs t.now first days bases.now }
    requires few_runs { length runs.now ≤ 200000 }
    requires loaded { All (λ (r : Run). r.day < 31) runs.now }

    // the names, where there is memory
    ensures { IfOk result (λ directory.
        directory ≡ names_of t.now first days bases.now opts.now) }
{
    let places = Places::build(alloc, t.stops.as_slice())?;
    let routes = names(alloc, t.routes.as_slice())?;
    let trains = trains(alloc, t.trips.as_slice(), runs)?;
    let days = service_days(alloc, first, days, bases)?;
    let extras = ExtraTrains::with_room(alloc, opts.spare_trains)?;
    Ok(Directory::build(days, places, routes, trains, extras))
}
