//! A timetable from a feed.

ghost use Rattle.std.specs.Prelude.{◌≡◌, ◌+◌, ◌*◌, ◌<◌, ◌≤◌, ℕ, List, Option, Ok, Some, IfOk, IsErrOf, length, map};
ghost use Rattle.mt_base.specs.Civil.{IsCivil};
ghost use Rattle.mt_base.specs.Options.{IsInRange};
ghost use Rattle.mt_base.specs.declared.tables.What.TheVariants.{Pairs};
ghost use Rattle.mt_io.specs.Causes.{counted};
ghost use Rattle.delay_model.specs.declared.network.Network.{Network as ANetwork};
ghost use Rattle.change_times.specs.Reach.{pairs};
ghost use Rattle.delay_model.specs.Events.{events};
ghost use Rattle.delay_model.specs.Valid.{IsValid};
ghost use Rattle.change_times.specs.ChangeTables.{HaveSameChanges, tables_of};
ghost use Rattle.waiting_rules.specs.WaitTable.{parent_station, wait_table};
ghost use Rattle.edge_rules.specs.AtStops.{AreAtStops};
ghost use Rattle.edge_rules.specs.Inside.{network_of};
ghost use Rattle.mt_base.specs.declared.tables.Tables.{Tables as ATables};
ghost use Rattle.gtfs_tables.specs.Feeds.{at_most, contents_of, tables_of as tables_in};
ghost use Rattle.gtfs_tables.specs.Refusals.{Gives};
ghost use Rattle.schedule_build.specs.Bases.{AreBases};
ghost use Rattle.schedule_build.specs.InStep.{AreInStep};
ghost use Rattle.schedule_build.specs.Schedule.{schedule};
ghost use Rattle.feed_load.specs.Loaded.{days_loaded, loaded, schedule_error, tables_loaded};

use change_times::{BuildFault, Changes};
use feed_tables::FeedTables;
use gtfs_tables::{FeedError, FeedRefusal, read_tables};
use mt_base::numbers::Time;
use mt_base::options::Opts;
use mt_base::rows::Rows;
use mt_base::tables::What;
use mt_io::Feed;
use schedule_build::{Directory, ExpandFault, expand, schedules_are_valid};
use std::alloc::Global;
use train_nodes::Trains;
use waiting_rules::Waits;

/// Why a feed is not loaded, where its schedule is not built.
fn schedule_error(fault: ExpandFault) -> FeedError
    ensures { result ≡ schedule_error fault }
{
    match fault {
        ExpandFault::TooMany { what } => FeedError::Refused(FeedRefusal::TooMany { what }),
        ExpandFault::OutOfMemory => FeedError::OutOfMemory,
    }
}

/// What a feed makes: its trains with their names, its change times and its waits.
#[derive(Drop)]
pub struct Loaded {
    /// The trains of the loaded days.
    pub trains: Trains,
    /// The names of what they number.
    pub directory: Directory,
    /// The change times between its stops.
    pub changes: Changes,
    /// How long its trains wait.
    pub waits: Waits,
}

/// The change times of a feed.
fn load_changes(alloc: Global, t: &FeedTables, default: u32) -> Result<Changes, FeedError>
    requires default_least { 1 ≤ default }
    requires default_most { default ≤ 3600 }
    ensures few { Gives (λ _. tt) result
        (at_most 4000000 Pairs (pairs (tables_of t.now default))) }
    ensures same { IfOk result (HaveSameChanges (tables_of t.now default)) }
    ensures failed { IsErrOf result FeedError.ReadFault → ⊥ }
{
    match Changes::build(alloc, t, default) {
        Ok(changes) => Ok(changes),
        Err(BuildFault::TooMany) => Err(FeedError::Refused(FeedRefusal::TooMany {
            what: What::Pairs,
        })),
        Err(BuildFault::OutOfMemory) => Err(FeedError::OutOfMemory),
    }
}

/// The trains of so many service days from the date `first` on, which have these bases, call at
/// stops and platforms alone.
fn schedules_call_at_stops(t: &FeedTables, first: u32, days: u32, opts: &Opts, bases: &Rows<Time>)
    ensures { AreAtStops t.now.stops (schedule t.now first days bases.now opts.now) }
{
    // The tables are read, so that the check knows that they are lawful.
    let _ = t.tables();
}

/// The trains and the names of so many days from the date `first` on, which have these bases, from
/// the tables of a feed.
fn load_days(
    alloc: Global,
    t: &FeedTables,
    first: u32,
    days: u32,
    opts: &Opts,
    bases: &Rows<Time>,
) -> Result<(Trains, Directory), FeedError>
    // the days with their bases, and the options
    requires civil { IsCivil first }
    requires year { first < 21010000 }
    requires days { (1 ≤ days) × (days ≤ 31) }
    requires bases { AreBases days bases.now }
    requires options { IsInRange opts.now }

    // the trains and names, and the error that does not come
    ensures found { Gives (λ r. r) result (days_loaded t.now first days bases.now opts.now) }
    ensures failed { IsErrOf result FeedError.ReadFault → ⊥ }

    // what holds of the trains and names
    ensures valid { IfOk result (λ r. (nw : ANetwork) → nw.opts ≡ opts.now → IsValid nw r.0) }
    ensures in_step { IfOk result (λ r. AreInStep r.1 r.0) }
    ensures stops { IfOk result (λ r. AreAtStops t.now.stops r.0) }
    ensures nodes { IfOk result (λ r. length (events r.0) + 2 * r.0.spare_calls ≤ 2097152) }
{
    schedules_are_valid(t, first, days, opts, bases);
    schedules_call_at_stops(t, first, days, opts, bases);
    match expand(alloc, t, first, days, opts, bases) {
        Ok(made) => Ok(made),
        Err(fault) => Err(schedule_error(fault)),
    }
}

/// What the tables of a feed make on so many days from `first` on, which have these bases.
fn load_tables(
    alloc: Global,
    t: &FeedTables,
    first: u32,
    days: u32,
    opts: &Opts,
    bases: &Rows<Time>,
) -> Result<Loaded, FeedError>
    // the days with their bases, and the options
    requires civil { IsCivil first }
    requires year { first < 21010000 }
    requires days { (1 ≤ days) × (days ≤ 31) }
    requires bases { AreBases days bases.now }
    requires options { IsInRange opts.now }

    // what the tables make
    ensures found { Gives (λ r. (r.trains, r.directory)) result
        (tables_loaded t.now first days bases.now opts.now) }

    // the change times and waiting rules
    ensures network { IfOk result (λ r. HaveSameChanges (tables_of t.now opts.now.change) r.changes
        × (r.waits ≡ wait_table t.now.stops t.now.rules)) }
    ensures default { IfOk result (λ r. r.changes.default ≡ opts.now.change) }
    ensures parents { IfOk result (λ r. r.waits.parents ≡ map parent_station r.changes.stops) }

    // what holds of the trains and names
    ensures valid { IfOk result (λ r. IsValid (network_of r.changes r.waits opts.now) r.trains) }
    ensures in_step { IfOk result (λ r. AreInStep r.directory r.trains) }
    ensures stops { IfOk result (λ r. AreAtStops r.changes.stops r.trains) }
    ensures nodes { IfOk result (λ r. length (events r.trains) + 2 * r.trains.spare_calls
        ≤ 2097152) }

    // the error that does not come
    ensures failed { IsErrOf result FeedError.ReadFault → ⊥ }
{
    let changes = load_changes(alloc, t, opts.change)?;
    let waits = Waits::build(alloc, t)?;
    let (trains, directory) = load_days(alloc, t, first, days, opts, bases)?;
    Ok(Loaded {
        trains,
        directory,
        changes,
        waits,
    })
}

/// What the feed in a folder makes on so many days from `first` on, a date as the number YYYYMMDD
/// of a year up to 2100. The base of each day is given, in seconds from that of day 0. There is
/// room for what the options spare. `Refused` has the first cause to refuse the feed: a fault of
/// its tables; more than 4,000,000 pairs of a stop or station and a stop with a change from the first
/// to the second; more than 200,000 trains; or more than 2,000,000 nodes, two for each call.
/// `ReadFault` comes only where the feed failed. `OutOfMemory` where there is no memory.
pub fn load_feed<F: Feed>(
    alloc: Global,
    feed: &mut F,
    folder: &str,
    first: u32,
    days: u32,
    opts: &Opts,
    bases: &Rows<Time>,
) -> Result<Loaded, FeedError>
    // the days with their bases, and the options
    requires civil { IsCivil first }
    requires year { first < 21010000 }
    requires days { (1 ≤ days) × (days ≤ 31) }
    requires bases { AreBases days bases.now }
    requires options { IsInRange opts.now }

    // what the feed makes
    ensures exact { (files : List ℕ → List ℕ → Option (List ℕ)) → F.tables feed.old ≡ Some files
        → Gives (λ r. (r.trains, r.directory)) result
        (loaded (contents_of files folder.now) first days bases.now opts.now) }

    // the change times and waiting rules
    ensures network { IfOk result (λ r. (files : List ℕ → List ℕ → Option (List ℕ)) (t : ATables)
        → F.tables feed.old ≡ Some files
        → tables_in (contents_of files folder.now) ≡ Ok t
        → HaveSameChanges (tables_of t opts.now.change) r.changes
        × (r.waits ≡ wait_table t.stops t.rules)) }
    ensures default { IfOk result (λ r. r.changes.default ≡ opts.now.change) }
    ensures parents { IfOk result (λ r. r.waits.parents ≡ map parent_station r.changes.stops) }

    // what holds of the trains and names
    ensures valid { IfOk result (λ r. IsValid (network_of r.changes r.waits opts.now) r.trains) }
    ensures in_step { IfOk result (λ r. AreInStep r.directory r.trains) }
    ensures stops { IfOk result (λ r. AreAtStops r.changes.stops r.trains) }
    ensures nodes { IfOk result (λ r. length (events r.trains) + 2 * r.trains.spare_calls
        ≤ 2097152) }

    // the faults of the feed that are counted
    ensures failed { IsErrOf result FeedError.ReadFault
        → Some (F.faults feed.new) ≡ counted (F.faults feed.old) }
    ensures answered { ¬ (IsErrOf result FeedError.ReadFault)
        → F.faults feed.new ≡ F.faults feed.old }
{
    let tables = read_tables(alloc, feed, folder)?;
    load_tables(alloc, &tables, first, days, opts, bases)
}
