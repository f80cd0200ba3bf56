//! `waiting_rules.txt`, a table of this project's own, read by itself.

ghost use Rattle.std.specs.Prelude.{◌≡◌, ◌<◌, ◌≤◌, ◌+◌, ◌^◌, List, ℕ, [], length, OnOk, IfOk, IfErr};
ghost use Rattle.gtfs_tables.specs.Builders.{rules_view, rules_size};
ghost use Rattle.gtfs_tables.specs.Checks.{Gives};
ghost use Rattle.gtfs_tables.specs.Numberings.{IsNumbered, names_of};
ghost use Rattle.gtfs_tables.specs.Sizes.{IsSmall, GrowsByRow, GrowsByTable};
ghost use Rattle.gtfs_tables.specs.Texts.{AreRecordsOf};
ghost use Rattle.gtfs_tables.specs.WaitingRules.{Rules, rule_columns, rule_step, waiting_rules_of, is_stop_or_station, waiting_place, wait_of, route_in, routes_with, with_rule};
ghost use Rattle.gtfs_tables.specs.declared.faults.TableError.TheVariants.{OutOfMemory};

use crate::builders::{TableBuilder, build_table};
use crate::cells::need;
use crate::columns::Column;
use crate::faults::{Cause, TableError};
use crate::fields::number;
use crate::numbering::Numbering;
use crate::sheets::Sheet;
use crate::stops::Stops;
use mt_base::numbers::{RouteNo, StopNo};
use mt_base::rows::Rows;
use mt_base::tables::RuleRow;
use std::alloc::Global;
use std::mem;

// What the rows so far made. After an error it is of no more use.
#[derive(Drop)]
struct RuleTable<'a> {
    routes: Numbering,
    stops: &'a Stops,
    rows: Vec<RuleRow>,
}

fn is_stop_or_station(stops: &Stops, number: StopNo) -> bool
    ensures { result ≡ is_stop_or_station stops.now number }
{
    match stops.rows().get(number.get() as usize) {
        Some(stop) => stop.kind.is_platform_or_station(),
        None => false,
    }
}

fn waiting_place(stops: &Stops, id: &str) -> Option<Option<StopNo>>
    ensures { result ≡ waiting_place stops.now id.now }
{
    if id.is_empty() {
        return Some(None);
    }
    let number = stops.find(id)?;
    if is_stop_or_station(stops, number) {
        Some(Some(number))
    } else {
        None
    }
}

fn longest_wait(bytes: &[u8]) -> Option<u32>
    ensures { result ≡ wait_of bytes.now }
{
    number(bytes).filter(|seconds| *seconds < 86_401)
}

fn number_route(
    routes: &mut Numbering,
    alloc: Global,
    name: &str,
) -> Result<Option<RouteNo>, TableError>
    requires numbered { IsNumbered routes.old }
    requires room { length (names_of routes.old) < 2 ^ 32 }
    ensures size { OnOk result (length (names_of routes.new)
        ≤ length (names_of routes.old) + 1) }
    ensures route { IfOk result (λ route. route ≡ route_in name.now (names_of routes.old)) }
    ensures names { OnOk result (names_of routes.new ≡ routes_with name.now (names_of routes.old)) }
    ensures numbered { OnOk result (IsNumbered routes.new) }
    ensures memory { IfErr result (λ e. e ≡ OutOfMemory) }
{
    if name.is_empty() {
        return Ok(None);
    }
    Ok(Some(RouteNo::new(routes.number(alloc, name)?)))
}

impl RuleTable<'_> {
    /// Adds a row, whose routes are numbered on.
    fn add(
        &mut self,
        alloc: Global,
        feeder: &str,
        connecting: &str,
        place: Option<StopNo>,
        longest: u32,
    ) -> Result<(), TableError>
        requires numbered { IsNumbered self.old.routes }
        requires room { rules_size self.old + 3 ≤ 2 ^ 32 }
        ensures size { OnOk result (GrowsByRow (rules_size self.old) (rules_size self.new)) }
        ensures numbered { OnOk result (IsNumbered self.new.routes) }
        ensures stops { self.new.stops ≡ self.old.stops }
        ensures made { Gives (λ u. rules_view self.new) result
            (Ok (with_rule feeder.now connecting.now place longest (rules_view self.old))) }
    {
        let feeder = number_route(&mut self.routes, alloc, feeder)?;
        let connecting = number_route(&mut self.routes, alloc, connecting)?;
        self.rows.push(RuleRow {
            feeder,
            connecting,
            stop: place,
            max_wait: longest,
        })?;
        Ok(())
    }
}

impl TableBuilder for RuleTable<'_> {
    ghost use Rattle.gtfs_tables.specs.declared.columns.Column.{Column};
    ghost use Rattle.mt_base.specs.declared.tables.StopRow.{StopRow};

    ghost Made = { Rules };

    ghost made = { rules_view };

    ghost Given = { List StopRow };

    ghost given = { λ t. t.stops.now };

    ghost IsSound = { λ t. IsNumbered t.routes };

    ghost size = { rules_size };

    ghost columns = { rule_columns };

    ghost step = { rule_step };

    fn add_row(&mut self, alloc: Global, row: u64, sheet: &Sheet<'_>) -> Result<(), TableError> {
        let place = waiting_place(self.stops, sheet.text(2));
        let place = need(row, Cause::UnknownReference, place)?;
        let longest = need(row, Cause::BadNumber, longest_wait(sheet.field(3)))?;
        self.add(alloc, sheet.text(0), sheet.text(1), place, longest)
    }
}

/// The rows of waiting_rules.txt, or the first fault in it, by the list of all records of the text:
/// UnknownReference for a place that is no stop, platform or station of stops.txt, BadNumber for a
/// longest wait that is no number or is above 86,400 seconds. Routes that no earlier table names
/// are numbered on; after an error `routes` is of no more use.
pub(crate) fn read_waiting_rules(
    alloc: Global,
    text: &[u8],
    stops: &Stops,
    routes: &mut Numbering,
) -> Result<Rows<RuleRow>, TableError>
    requires numbered { IsNumbered routes.old }
    requires small { IsSmall text.now }
    requires room { length (names_of routes.old) ≤ 2 ^ 31 }
    ensures size { IfOk result (λ rows. GrowsByTable (length (names_of routes.old))
        (length (names_of routes.new) + length rows)) }
    ensures numbered { OnOk result (IsNumbered routes.new) }
    ensures rows { (all : List (List (List ℕ))) → AreRecordsOf text.now all
        → Gives (λ rows. record { routes = names_of routes.new; rows = rows }) result
        (waiting_rules_of stops.now (names_of routes.old) all) }
{
    let needed = [
        Column::FeederRouteId,
        Column::ConnectingRouteId,
        Column::StopId,
        Column::MaxWait,
    ];
    let mut table = RuleTable {
        routes: mem::replace(routes, Numbering::new(alloc)),
        stops,
        rows: Vec::new(alloc),
    };
    build_table(alloc, text, &needed, &[], &mut table)?;
    *routes = table.routes;
    Ok(Rows::build(table.rows))
}
