//! What a command that answers line by line loads behind the feed.

ghost use Rattle.std.specs.Prelude.{◌≡◌, ◌≤◌, List, ℕ, Some, IfErr, IfOk, IsErrOf, OnOk, option_map};
ghost use Rattle.std.specs.declared.option.Option.{Option};
ghost use Rattle.command_words.specs.Held.{asked_view, IsInRanges};
ghost use Rattle.gtfs_tables.specs.Feeds.{Files};
ghost use Rattle.mt_io.specs.Causes.{counted};
ghost use Rattle.commands.specs.LineTasks.{BeginsSome, begins_by, table_among};
ghost use Rattle.commands.specs.Loading.{HasFewBytes, HasLongLine, HasOwnLine, IsFetched, IsLoaded, IsOfFeed};

use crate::refusal::long_line;
use command_words::Asked;
use information_service::{InformationService, LinesFault};
use mt_io::{Feed, FeedFault};
use std::alloc::{AllocError, Global};

/// Why a command does not begin.
#[derive(Debug, Drop)]
pub enum LoadFault {
    /// What it finds behind the feed is refused, with this line on the error stream.
    Refused(Vec<u8>),
    /// There was no memory.
    OutOfMemory,
}

impl From<AllocError> for LoadFault {
    ghost use Rattle.std.specs.Prelude.{◌≡◌};
    ghost use Rattle.commands.specs.declared.loading.LoadFault.TheVariants.{OutOfMemory};

    ghost from_gives = { λ _ e. e ≡ OutOfMemory };

    fn from(_want: AllocError) -> LoadFault {
        LoadFault::OutOfMemory
    }
}

/// What a command loads behind the feed, before it reads its input. `C` is the type of what it
/// keeps beside the timetable and its names.
pub trait LoadBehind<C> {
    ghost use Rattle.std.specs.Prelude.{◌≡◌, ◌≤◌, length, IfSome, OnOk, option_map};
    ghost use Rattle.command_words.specs.Held.{asked_view, IsInRanges};
    ghost use Rattle.commands.specs.LineTasks.{Behind, IsBegunAlike};
    ghost use Rattle.commands.specs.Loading.{IsLoaded};

    /// The table that it takes, and what it begins with, or the line by which it refuses.
    ghost behind: { Behind C };

    /// The name of the table of the feed's folder that it takes, if it takes one.
    fn table() -> Option<&'static str>
        ensures { option_map (λ name. name.now) result ≡ behind.table };

    /// What it keeps at first, by the bytes of its table, if there is such a table. The service has
    /// accepted no message before, and no more afterwards than a table has bytes at most.
    fn load(
        alloc: Global,
        asked: &Asked<'_>,
        table: Option<Vec<u8>>,
        service: &mut InformationService,
    ) -> Result<C, LoadFault>
        requires asked { IsInRanges asked.now }
        requires few { IfSome table (λ bytes. length bytes.items ≤ 268435456) }
        requires new { service.old.count ≡ 0 }
        ensures loaded { IsLoaded (behind.begins (asked_view asked.now)
            (option_map (λ bytes. bytes.items) table) service.old) service.new result }
        ensures count { OnOk result (service.new.count ≤ 268435456) };

    /// A law: over networks that no definition tells apart it begins the same.
    fn networks_are_begun_alike()
        ensures { IsBegunAlike behind };
}

/// Loads nothing behind the feed, and keeps nothing.
pub struct LoadNothing;

impl LoadBehind<()> for LoadNothing {
    ghost use Rattle.commands.specs.LineTasks.{nothing_behind};

    ghost behind = { nothing_behind };

    fn table() -> Option<&'static str> {
        None
    }

    fn load(
        _alloc: Global,
        _asked: &Asked<'_>,
        _table: Option<Vec<u8>>,
        _service: &mut InformationService,
    ) -> Result<(), LoadFault> {
        Ok(())
    }

    fn networks_are_begun_alike() {}
}

/// What a command begins with: a service, and what it keeps beside it.
#[derive(Drop)]
pub(crate) struct Begun<C> {
    pub(crate) service: InformationService,
    pub(crate) kept: C,
}

/// What was taken of the feed's folder.
#[derive(Drop)]
pub(crate) enum Fetched {
    /// The bytes of the table, if there is such a table.
    Table(Option<Vec<u8>>),
    /// It is too long, and refused with this line.
    TooLong(Vec<u8>),
}

/// Takes a table of this name from the feed's folder, if there is such a name. It fails with
/// `ReadFault` where a read failed, and with `OutOfMemory` where there was no memory.
pub(crate) fn fetch<F: Feed>(
    alloc: Global,
    feed: &mut F,
    folder: &str,
    name: Option<&str>,
) -> Result<Fetched, LinesFault>
    // the table, as far as the feed tells it, and the line where it is too long
    ensures fetched { IfOk result (λ own. (told : Files) → F.tables feed.old ≡ Some told
        → IsFetched (table_among (option_map (λ n. n.now) name.entry) (told folder.now)) own) }
    ensures named { IfOk result (HasLongLine (option_map (λ n. n.now) name.entry)) }
    ensures few { IfOk result HasFewBytes }
    ensures same { F.tables feed.new ≡ F.tables feed.old }

    // a read fault comes where one read failed, and else none failed
    ensures fault { IfErr result IsOfFeed }
    ensures failed { IsErrOf result LinesFault.ReadFault
        → Some (F.faults feed.new) ≡ counted (F.faults feed.old) }
    ensures answered { ¬ (IsErrOf result LinesFault.ReadFault)
        → F.faults feed.new ≡ F.faults feed.old }
{
    let Some(name) = name else {
        return Ok(Fetched::Table(None));
    };
    match feed.table(folder, name) {
        Ok(table) => Ok(Fetched::Table(table)),
        Err(FeedFault::TooLong) => Ok(Fetched::TooLong(long_line(alloc, name)?.into_bytes())),
        Err(FeedFault::Failed) => Err(LinesFault::ReadFault),
        Err(FeedFault::OutOfMemory) => Err(LinesFault::OutOfMemory),
    }
}

/// What the command keeps at first, by what was taken for it.
pub(crate) fn load_behind<L: LoadBehind<C>, C>(
    alloc: Global,
    asked: &Asked<'_>,
    own: Fetched,
    service: &mut InformationService,
) -> Result<C, LoadFault>
    requires asked { IsInRanges asked.now }
    requires few { HasFewBytes own }
    requires new { service.old.count ≡ 0 }
    requires named { HasLongLine L.behind.table own }

    ensures loaded { (table : Option (List ℕ)) → IsFetched table own → IsLoaded
        (begins_by L.behind (asked_view asked.now) table service.old) service.new result }
    ensures begins { IfOk result (λ kept. BeginsSome L.behind (record {
      service = service.new;
      kept = kept;
    })) }
    ensures line { IfErr result (HasOwnLine L.behind) }
    ensures count { OnOk result (service.new.count ≤ 268435456) }
{
    match own {
        Fetched::Table(table) => L::load(alloc, asked, table, service),
        Fetched::TooLong(line) => Err(LoadFault::Refused(line)),
    }
}
