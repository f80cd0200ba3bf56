//! The tables of a feed, read and checked one after the other.

ghost use Rattle.std.specs.Prelude.{◌≡◌, ◌≤◌, ◌+◌, ◌^◌, [], Some, Ok, IfOk, IfSome, OnOk, IsErrOf, length, option_map};
ghost use Rattle.gtfs_tables.specs.Feeds.{Contents, Files, at_most, is_absent, contents_of, fetched, stops_in, trips_in, calls_in, calendar_in, dates_in, transfers_in, rules_in, frequencies_in, tables_of};
ghost use Rattle.gtfs_tables.specs.Numberings.{IsNumbered, names_of};
ghost use Rattle.gtfs_tables.specs.Reading.{IsRead};
ghost use Rattle.gtfs_tables.specs.Records.{records_of};
ghost use Rattle.gtfs_tables.specs.Refusals.{Gives, refusal_of, with_table};
ghost use Rattle.gtfs_tables.specs.Sizes.{IsSmall, GrowsByTable};
ghost use Rattle.gtfs_tables.specs.TripTables.{trips_size};
ghost use Rattle.gtfs_tables.specs.declared.faults.Table.TheVariants as tables;
ghost use Rattle.gtfs_tables.specs.declared.refusals.FeedError.TheVariants.{Refused};
ghost use Rattle.gtfs_tables.specs.declared.refusals.FeedRefusal.TheVariants.{Missing};

use crate::calendar::read_calendar;
use crate::calendar_dates::read_calendar_dates;
use crate::faults::{Table, TableError};
use crate::frequencies::has_frequencies;
use crate::numbering::Numbering;
use crate::refusals::{FeedError, FeedRefusal};
use crate::stop_times::read_stop_times;
use crate::stops::{Stops, read_stops};
use crate::transfers::read_transfers;
use crate::trips::{TripParts, Trips, read_trips};
use crate::waiting_rules::read_waiting_rules;
use feed_tables::FeedTables;
use mt_base::rows::Rows;
use mt_base::tables::{CalendarRow, CallRow, DateRow, RuleRow, Tables, TransferRow, What};
use mt_io::{Feed, FeedFault};
use std::alloc::Global;

/// The text of a table, where there is one.
fn fetch<F: Feed>(feed: &mut F, folder: &str, table: Table) -> Result<Option<Vec<u8>>, FeedError>
    ensures text { (files : Files) → F.tables feed.old ≡ Some files
        → Gives (λ text. option_map (λ bytes. records_of bytes.items) text) result
        (fetched table (contents_of files folder.now table)) }
    ensures small { IfOk result (λ text. IfSome text (λ bytes. IsSmall bytes.items)) }
    ensures reads { IsRead result (F.tables feed.old) (F.tables feed.new) (F.faults feed.old)
        (F.faults feed.new) }
{
    match feed.table(folder, table.name()) {
        Ok(text) => Ok(text),
        Err(FeedFault::TooLong) => Err(FeedError::Refused(FeedRefusal::TooLong { table })),
        Err(FeedFault::Failed) => Err(FeedError::ReadFault),
        Err(FeedFault::OutOfMemory) => Err(FeedError::OutOfMemory),
    }
}

/// What reading a table gives, with the table's name.
fn with_table<T: Drop>(table: Table, read: Result<T, TableError>) -> Result<T, FeedError>
    ensures { result ≡ with_table table read }
{
    match read {
        Ok(made) => Ok(made),
        Err(TableError::OutOfMemory) => Err(FeedError::OutOfMemory),
        Err(TableError::Bad(fault)) => Err(FeedError::Refused(FeedRefusal::Bad {
            table,
            row: fault.row,
            cause: fault.cause,
        })),
    }
}

/// Refuses a feed that has more rows than so many.
fn at_most(most: u64, what: What, count: u64) -> Result<(), FeedError>
    ensures limit { Gives (λ u. u) result (at_most most what count) }
    ensures failed { IsErrOf result FeedError.ReadFault → ⊥ }
{
    if count > most {
        return Err(FeedError::Refused(FeedRefusal::TooMany { what }));
    }
    Ok(())
}

fn no_rows<T>(alloc: Global) -> Rows<T>
    ensures { result ≡ [] }
{
    Rows::build(Vec::new(alloc))
}

fn missing(table: Table) -> FeedError
    ensures { result ≡ Refused (Missing table) }
{
    FeedError::Refused(FeedRefusal::Missing { table })
}

#[tactic(auto, unfolding(crate::specs::Feeds::stops_in))]
fn read_stops_in<F: Feed>(alloc: Global, feed: &mut F, folder: &str) -> Result<Stops, FeedError>
    ensures made { (files : Files) → F.tables feed.old ≡ Some files
        → Gives (λ stops. stops) result (stops_in (contents_of files folder.now)) }
    ensures some { IfOk result (λ stops. (contents : Contents) × (stops_in contents ≡ Ok stops)) }
    ensures reads { IsRead result (F.tables feed.old) (F.tables feed.new) (F.faults feed.old)
        (F.faults feed.new) }
{
    let Some(text) = fetch(feed, folder, Table::Stops)? else {
        return Err(missing(Table::Stops));
    };
    let stops = with_table(Table::Stops, read_stops(alloc, &text))?;
    at_most(100_000, What::Stops, stops.rows().len() as u64)?;
    Ok(stops)
}

#[tactic(auto, unfolding(crate::specs::Feeds::trips_in))]
fn read_trips_in<F: Feed>(alloc: Global, feed: &mut F, folder: &str) -> Result<Trips, FeedError>
    ensures made { (files : Files) → F.tables feed.old ≡ Some files
        → Gives (λ trips. trips) result (trips_in (contents_of files folder.now)) }
    ensures size { IfOk result (λ trips. GrowsByTable 0 (trips_size trips)) }
    ensures some { IfOk result (λ trips. (contents : Contents) × (trips_in contents ≡ Ok trips)) }
    ensures reads { IsRead result (F.tables feed.old) (F.tables feed.new) (F.faults feed.old)
        (F.faults feed.new) }
{
    let Some(text) = fetch(feed, folder, Table::Trips)? else {
        return Err(missing(Table::Trips));
    };
    with_table(Table::Trips, read_trips(alloc, &text))
}

#[tactic(auto, unfolding(crate::specs::Feeds::calls_in))]
fn read_calls_in<F: Feed>(
    alloc: Global,
    feed: &mut F,
    folder: &str,
    stops: &Stops,
    trips: &Trips,
) -> Result<Rows<CallRow>, FeedError>
    ensures made { (files : Files) → F.tables feed.old ≡ Some files
        → Gives (λ calls. calls) result
        (calls_in (contents_of files folder.now) stops.now trips.now.rows) }
    ensures size { IfOk result (λ calls. GrowsByTable 0 (length calls)) }
    ensures some { IfOk result (λ calls. (contents : Contents)
        × (calls_in contents stops.now trips.now.rows ≡ Ok calls)) }
    ensures reads { IsRead result (F.tables feed.old) (F.tables feed.new) (F.faults feed.old)
        (F.faults feed.new) }
{
    let Some(text) = fetch(feed, folder, Table::StopTimes)? else {
        return Err(missing(Table::StopTimes));
    };
    with_table(
        Table::StopTimes,
        read_stop_times(alloc, &text, trips, stops),
    )
}

#[tactic(auto, unfolding(crate::specs::Feeds::calendar_in))]
fn read_calendar_in<F: Feed>(
    alloc: Global,
    feed: &mut F,
    folder: &str,
    services: &mut Numbering,
) -> Result<(Rows<CalendarRow>, bool), FeedError>
    // the services that are numbered so far
    requires numbered { IsNumbered services.old }
    requires room { length (names_of services.old) ≤ 2 ^ 31 }

    // the rows, and whether the table is absent
    ensures made { (files : Files) → F.tables feed.old ≡ Some files
        → Gives (λ r. record { services = names_of services.new; rows = r.0 }) result
        (calendar_in (contents_of files folder.now) (names_of services.old)) }
    ensures absent { (files : Files) → F.tables feed.old ≡ Some files
        → IfOk result (λ r. r.1 ≡ is_absent (contents_of files folder.now tables.Calendar)) }
    ensures numbered { OnOk result (IsNumbered services.new) }
    ensures size { IfOk result (λ r. GrowsByTable (length (names_of services.old))
        (length (names_of services.new) + length r.0)) }
    ensures some { IfOk result (λ r. (contents : Contents)
        × (calendar_in contents (names_of services.old)
        ≡ Ok (record { services = names_of services.new; rows = r.0 }))
        × (is_absent (contents tables.Calendar) ≡ r.1)) }
    ensures reads { IsRead result (F.tables feed.old) (F.tables feed.new) (F.faults feed.old)
        (F.faults feed.new) }
{
    let Some(text) = fetch(feed, folder, Table::Calendar)? else {
        return Ok((no_rows(alloc), true));
    };
    let rows = with_table(Table::Calendar, read_calendar(alloc, &text, services))?;
    Ok((rows, false))
}

#[tactic(auto, unfolding(crate::specs::Feeds::dates_in))]
fn read_dates_in<F: Feed>(
    alloc: Global,
    feed: &mut F,
    folder: &str,
    no_calendar: bool,
    services: &mut Numbering,
) -> Result<Rows<DateRow>, FeedError>
    requires numbered { IsNumbered services.old }
    requires room { length (names_of services.old) ≤ 2 ^ 31 }
    ensures size { IfOk result (λ rows. GrowsByTable (length (names_of services.old))
        (length (names_of services.new) + length rows)) }
    ensures made { (files : Files) → F.tables feed.old ≡ Some files
        → no_calendar ≡ is_absent (contents_of files folder.now tables.Calendar)
        → Gives (λ rows. record { services = names_of services.new; rows = rows }) result
        (dates_in (contents_of files folder.now) (names_of services.old)) }
    ensures some { IfOk result (λ rows. (contents : Contents)
        × (dates_in contents (names_of services.old)
        ≡ Ok (record { services = names_of services.new; rows = rows }))
        × (is_absent (contents tables.Calendar) ≡ no_calendar)) }
    ensures reads { IsRead result (F.tables feed.old) (F.tables feed.new) (F.faults feed.old)
        (F.faults feed.new) }
{
    let Some(text) = fetch(feed, folder, Table::CalendarDates)? else {
        if no_calendar {
            return Err(missing(Table::Calendar));
        }
        return Ok(no_rows(alloc));
    };
    with_table(
        Table::CalendarDates,
        read_calendar_dates(alloc, &text, services),
    )
}

#[tactic(auto, unfolding(crate::specs::Feeds::transfers_in))]
fn read_transfers_in<F: Feed>(
    alloc: Global,
    feed: &mut F,
    folder: &str,
    stops: &Stops,
) -> Result<Rows<TransferRow>, FeedError>
    ensures made { (files : Files) → F.tables feed.old ≡ Some files
        → Gives (λ rows. rows) result (transfers_in (contents_of files folder.now) stops.now) }
    ensures some { IfOk result (λ rows. (contents : Contents)
        × (transfers_in contents stops.now ≡ Ok rows)) }
    ensures reads { IsRead result (F.tables feed.old) (F.tables feed.new) (F.faults feed.old)
        (F.faults feed.new) }
{
    let Some(text) = fetch(feed, folder, Table::Transfers)? else {
        return Ok(no_rows(alloc));
    };
    let transfers = with_table(Table::Transfers, read_transfers(alloc, &text, stops))?;
    at_most(1_000_000, What::Transfers, transfers.count)?;
    Ok(transfers.rows)
}

#[tactic(auto, unfolding(crate::specs::Feeds::rules_in))]
fn read_rules_in<F: Feed>(
    alloc: Global,
    feed: &mut F,
    folder: &str,
    stops: &Stops,
    routes: &mut Numbering,
) -> Result<Rows<RuleRow>, FeedError>
    requires numbered { IsNumbered routes.old }
    requires room { length (names_of routes.old) ≤ 2 ^ 31 }
    ensures size { IfOk result (λ rows. GrowsByTable (length (names_of routes.old))
        (length (names_of routes.new) + length rows)) }
    ensures made { (files : Files) → F.tables feed.old ≡ Some files
        → Gives (λ rows. record { routes = names_of routes.new; rows = rows }) result
        (rules_in (contents_of files folder.now) stops.now (names_of routes.old)) }
    ensures some { IfOk result (λ rows. (contents : Contents)
        × (rules_in contents stops.now (names_of routes.old)
        ≡ Ok (record { routes = names_of routes.new; rows = rows }))) }
    ensures reads { IsRead result (F.tables feed.old) (F.tables feed.new) (F.faults feed.old)
        (F.faults feed.new) }
{
    let Some(text) = fetch(feed, folder, Table::WaitingRules)? else {
        return Ok(no_rows(alloc));
    };
    let rules = with_table(
        Table::WaitingRules,
        read_waiting_rules(alloc, &text, stops, routes),
    )?;
    at_most(10_000, What::Rules, rules.len() as u64)?;
    Ok(rules)
}

#[tactic(auto, unfolding(crate::specs::Feeds::frequencies_in))]
fn check_frequencies_in<F: Feed>(alloc: Global, feed: &mut F, folder: &str) -> Result<(), FeedError>
    ensures made { (files : Files) → F.tables feed.old ≡ Some files
        → Gives (λ u. u) result (frequencies_in (contents_of files folder.now)) }
    ensures some { IfOk result (λ u. (contents : Contents) × (frequencies_in contents ≡ Ok u)) }
    ensures reads { IsRead result (F.tables feed.old) (F.tables feed.new) (F.faults feed.old)
        (F.faults feed.new) }
{
    let Some(text) = fetch(feed, folder, Table::Frequencies)? else {
        return Ok(());
    };
    let found = with_table(Table::Frequencies, has_frequencies(alloc, &text))?;
    if found {
        return Err(FeedError::Refused(FeedRefusal::Frequencies));
    }
    Ok(())
}

/// The tables of the feed in a folder, read and checked in this order: stops.txt, trips.txt,
/// stop_times.txt, calendar.txt, calendar_dates.txt, transfers.txt, waiting_rules.txt,
/// frequencies.txt. `Refused` has the first cause to refuse the feed: a table that must be there is
/// absent, a table is too long, has a fault or has too many rows. `ReadFault` comes only where the
/// feed failed. `OutOfMemory` where there is no memory.
pub fn read_tables<F: Feed>(
    alloc: Global,
    feed: &mut F,
    folder: &str,
) -> Result<FeedTables, FeedError>
    ensures exact { (files : Files) → F.tables feed.old ≡ Some files
        → Gives (λ tables. tables) result (tables_of (contents_of files folder.now)) }
    ensures reads { IsRead result (F.tables feed.old) (F.tables feed.new) (F.faults feed.old)
        (F.faults feed.new) }
{
    let stops = read_stops_in(alloc, feed, folder)?;
    let trips = read_trips_in(alloc, feed, folder)?;
    let calls = read_calls_in(alloc, feed, folder, &stops, &trips)?;
    let TripParts {
        trips,
        mut routes,
        mut services,
    } = trips.into_parts();
    let (calendar, no_calendar) = read_calendar_in(alloc, feed, folder, &mut services)?;
    let dates = read_dates_in(alloc, feed, folder, no_calendar, &mut services)?;
    let transfers = read_transfers_in(alloc, feed, folder, &stops)?;
    let rules = read_rules_in(alloc, feed, folder, &stops, &mut routes)?;
    check_frequencies_in(alloc, feed, folder)?;
    let tables = Tables {
        stops: stops.into_rows(),
        routes: Rows::build(routes.into_names()),
        services: Rows::build(services.into_names()),
        trips,
        calls,
        calendar,
        dates,
        transfers,
        rules,
    };
    Ok(FeedTables::build(tables))
}
