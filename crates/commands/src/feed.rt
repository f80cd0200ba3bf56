//! The timetable that a feed holds.

ghost use Rattle.std.specs.Prelude.{◌≡◌, ◌<◌, ◌≤◌, None, Ok, Some, IfOk, IsErrOf};
ghost use Rattle.command_words.specs.Held.{asked_view, IsInRanges};
ghost use Rattle.feed_load.specs.Loaded.{loaded};
ghost use Rattle.gtfs_tables.specs.Feeds.{Files, contents_of, tables_of};
ghost use Rattle.gtfs_tables.specs.Refusals.{Gives};
ghost use Rattle.mt_base.specs.Civil.{IsCivil};
ghost use Rattle.mt_base.specs.Options.{IsInRange};
ghost use Rattle.information_service.specs.Networks.{IsSame};
ghost use Rattle.mt_io.specs.Causes.{counted};
ghost use Rattle.mt_base.specs.declared.tables.Tables.{Tables as ATables};
ghost use Rattle.schedule_build.specs.Bases.{AreBases};
ghost use Rattle.schedule_build.specs.InStep.{AreInStep};
ghost use Rattle.service_zones.specs.Bases.{base_seconds, day_of_wrong_length};
ghost use Rattle.commands.specs.Feeds.{network, tables_in, asked_in};

use command_words::Asked;
use feed_load::load_feed;
use gtfs_tables::FeedError;
use information_service::InformationService;
use mt_base::Opts;
use mt_base::memory::OutOfMemory;
use mt_base::numbers::Time;
use mt_base::rows::Rows;
use mt_io::Feed;
use schedule_build::Directory;
use service_zones::{BaseFault, Zone};
use std::alloc::{AllocError, Global};
use timetable::Timetable;

/// A timetable that was loaded, with its names.
#[derive(Drop)]
pub struct LoadedTimetable {
    /// The timetable.
    pub timetable: Timetable,

    /// The names of its trains, stops, routes and service days.
    pub directory: Directory,
}

/// The bases of so many service days from the date `first` on, in a zone where none of them is too
/// short or too long.
fn bases(alloc: Global, zone: &Zone, first: u32, days: u32) -> Result<Rows<Time>, OutOfMemory>
    requires civil { IsCivil first }
    requires year { first < 21010000 }
    requires few_days { days ≤ 31 }
    requires lengths { day_of_wrong_length zone.now first days ≡ None }
    ensures bases { IfOk result (λ found. found ≡ base_seconds zone.now first days) }
    ensures steps { IfOk result (AreBases days) }
{
    match zone.bases(alloc, first, days) {
        Ok(bases) => Ok(bases),
        Err(BaseFault::OutOfMemory) => Err(AllocError),
        Err(BaseFault::DayLength { .. }) => unreachable!(),
    }
}

/// The timetable of so many service days from the date `first` on, which have these bases, that the
/// feed in a folder holds, with its names.
fn load_with_bases<F: Feed>(
    alloc: Global,
    folder: &str,
    first: u32,
    days: u32,
    bases: &Rows<Time>,
    opts: &Opts,
    feed: &mut F,
) -> Result<LoadedTimetable, FeedError>
    // a date, and numbers in their ranges
    requires civil { IsCivil first }
    requires year { first < 21010000 }
    requires days { (1 ≤ days) × (days ≤ 31) }
    requires options { IsInRange opts.now }
    requires bases { AreBases days bases.now }

    // the timetable that the feed holds, or why it is refused
    ensures exact { (told : Files) → F.tables feed.old ≡ Some told
        → Gives (λ l. (l.timetable.state, l.directory)) result
        (loaded (contents_of told folder.now) first days bases.now opts.now) }
    ensures network { IfOk result (λ l. (told : Files) (rows : ATables) → F.tables feed.old
        ≡ Some told → tables_of (contents_of told folder.now) ≡ Ok rows
        → IsSame (network rows opts.now) l.timetable.network) }

    // no message was accepted, and names and trains are in step
    ensures new { IfOk result (λ l. l.timetable.count ≡ 0) }
    ensures in_step { IfOk result (λ l. AreInStep l.directory l.timetable.state) }

    // a read fault comes where one read failed, and else none failed
    ensures failed { IsErrOf result FeedError.ReadFault
        → Some (F.faults feed.new) ≡ counted (F.faults feed.old) }
    ensures answered { ¬ (IsErrOf result FeedError.ReadFault)
        → F.faults feed.new ≡ F.faults feed.old }
{
    let loaded = load_feed(alloc, feed, folder, first, days, opts, bases)?;
    let timetable = Timetable::build(alloc, loaded.trains, loaded.changes, loaded.waits, *opts)?;
    Ok(LoadedTimetable {
        timetable,
        directory: loaded.directory,
    })
}

/// The timetable of so many service days from the date `first` on that the feed in a folder holds,
/// with its names. The days begin as they do in a zone where none of them is too short or too long.
pub fn load_timetable<F: Feed>(
    alloc: Global,
    folder: &str,
    first: u32,
    days: u32,
    zone: &Zone,
    opts: &Opts,
    feed: &mut F,
) -> Result<LoadedTimetable, FeedError>
    // a date, and numbers in their ranges
    requires civil { IsCivil first }
    requires year { first < 21010000 }
    requires days { (1 ≤ days) × (days ≤ 31) }
    requires options { IsInRange opts.now }

    // no service day is too short or too long
    requires lengths { day_of_wrong_length zone.now first days ≡ None }

    // the timetable that the feed holds, or why it is refused
    ensures exact { (told : Files) → F.tables feed.old ≡ Some told
        → Gives (λ l. (l.timetable.state, l.directory)) result
        (loaded (contents_of told folder.now) first days (base_seconds zone.now first days)
        opts.now) }
    ensures network { IfOk result (λ l. (told : Files) (rows : ATables) → F.tables feed.old
        ≡ Some told → tables_of (contents_of told folder.now) ≡ Ok rows
        → IsSame (network rows opts.now) l.timetable.network) }

    // no message was accepted, and names and trains are in step
    ensures new { IfOk result (λ l. l.timetable.count ≡ 0) }
    ensures in_step { IfOk result (λ l. AreInStep l.directory l.timetable.state) }

    // a read fault comes where one read failed, and else none failed
    ensures failed { IsErrOf result FeedError.ReadFault
        → Some (F.faults feed.new) ≡ counted (F.faults feed.old) }
    ensures answered { ¬ (IsErrOf result FeedError.ReadFault)
        → F.faults feed.new ≡ F.faults feed.old }
{
    let bases = bases(alloc, zone, first, days)?;
    load_with_bases(alloc, folder, first, days, &bases, opts, feed)
}

/// The timetable that the words ask for.
pub(crate) fn load_asked<F: Feed>(
    alloc: Global,
    asked: &Asked<'_>,
    feed: &mut F,
) -> Result<LoadedTimetable, FeedError>
    requires asked { IsInRanges asked.now }

    // the timetable that the feed holds, or why it is refused
    ensures exact { (told : Files) → F.tables feed.old ≡ Some told
        → Gives (λ l. (l.timetable.state, l.directory)) result
        (asked_in told (asked_view asked.now)) }
    ensures network { IfOk result (λ l. (told : Files) (rows : ATables) → F.tables feed.old
        ≡ Some told → tables_in told (asked_view asked.now) ≡ Ok rows
        → IsSame (network rows asked.now.opts) l.timetable.network) }

    // no message was accepted, and names and trains are in step
    ensures new { IfOk result (λ l. l.timetable.count ≡ 0) }
    ensures in_step { IfOk result (λ l. AreInStep l.directory l.timetable.state) }

    // a read fault comes where one read failed, and else none failed
    ensures failed { IsErrOf result FeedError.ReadFault
        → Some (F.faults feed.new) ≡ counted (F.faults feed.old) }
    ensures answered { ¬ (IsErrOf result FeedError.ReadFault)
        → F.faults feed.new ≡ F.faults feed.old }
{
    load_timetable(
        alloc,
        asked.folder,
        asked.first,
        asked.days,
        &asked.zone,
        &asked.opts,
        feed,
    )
}

/// The timetable that the words ask for, as a service.
pub(crate) fn load_service<F: Feed>(
    alloc: Global,
    asked: &Asked<'_>,
    feed: &mut F,
) -> Result<InformationService, FeedError>
    requires asked { IsInRanges asked.now }

    // the timetable that the feed holds, or why it is refused
    ensures exact { (told : Files) → F.tables feed.old ≡ Some told
        → Gives (λ s. (s.state, s.names)) result (asked_in told (asked_view asked.now)) }
    ensures network { IfOk result (λ s. (told : Files) (rows : ATables) → F.tables feed.old
        ≡ Some told → tables_in told (asked_view asked.now) ≡ Ok rows
        → IsSame (network rows asked.now.opts) s.network) }
    ensures new { IfOk result (λ s. s.count ≡ 0) }

    // a read fault comes where one read failed, and else none failed
    ensures failed { IsErrOf result FeedError.ReadFault
        → Some (F.faults feed.new) ≡ counted (F.faults feed.old) }
    ensures answered { ¬ (IsErrOf result FeedError.ReadFault)
        → F.faults feed.new ≡ F.faults feed.old }
{
    let loaded = load_asked(alloc, asked, feed)?;
    Ok(InformationService::build(alloc, loaded.timetable, loaded.directory)?)
}
