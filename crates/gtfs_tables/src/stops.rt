//! `stops.txt` read by itself.

ghost use Rattle.std.specs.Prelude.{◌≡◌, ◌<◌, ◌+◌, ◌^◌, ◌++◌, ℕ, List, [], length, true, Some, IsTrue, OnOk, IfOk};
ghost use Rattle.csv.specs.Records.{fields_of};
ghost use Rattle.gtfs_tables.specs.Builders.{lines_view, lines_size, IsStopTable};
ghost use Rattle.gtfs_tables.specs.Checks.{Gives, all_utf8};
ghost use Rattle.gtfs_tables.specs.Numbers.{number_from};
ghost use Rattle.gtfs_tables.specs.Sheets.{cell};
ghost use Rattle.gtfs_tables.specs.Sizes.{IsSmall};
ghost use Rattle.gtfs_tables.specs.Stops.{stop_columns, other_stop_columns, stop_of, line_ids, with_stop, stop_step, station_in, parent_of, with_stations, stop_ids, stops_of};
ghost use Rattle.gtfs_tables.specs.Texts.{AreRecordsOf};

use crate::builders::{TableBuilder, build_table};
use crate::cells::need;
use crate::columns::Column;
use crate::faults::{Cause, Fault, TableError};
use crate::fields::location_kind;
use crate::ids::Ids;
use crate::sheets::Sheet;
use mt_base::names::Name;
use mt_base::numbers::StopNo;
use mt_base::places::PlaceKind;
use mt_base::rows::Rows;
use mt_base::tables::StopRow;
use std::alloc::Global;
use std::marker::Model;

// A row by itself.
#[derive(Drop)]
struct StopLine {
    id: Name,
    kind: PlaceKind,
    parent: Name,
}

// What the rows so far made. After an error it is of no more use.
#[derive(Drop)]
struct StopTable {
    lines: Vec<StopLine>,
    ids: Ids,
}

fn read_stop(alloc: Global, sheet: &Sheet<'_>, row: u64) -> Result<StopLine, TableError>
    requires columns { length sheet.now.places.items ≡ 3 }
    requires text { all_utf8 (fields_of sheet.now.current) ≡ true }
    ensures { Gives (λ line. line) result (stop_of row (cell sheet.now 0) (cell sheet.now 1)
        (cell sheet.now 2)) }
{
    let kind = need(row, Cause::BadNumber, location_kind(sheet.field(1)))?;
    let id = Name::build(alloc, sheet.text(0))?;
    let parent = Name::build(alloc, sheet.text(2))?;
    Ok(StopLine { id, kind, parent })
}

impl StopTable {
    /// Adds a row, unless an earlier one has its `stop_id`.
    fn add(&mut self, alloc: Global, row: u64, line: StopLine) -> Result<(), TableError>
        requires ids { IsStopTable self.old }
        requires room { lines_size self.old < 2 ^ 32 }
        ensures size { OnOk result (lines_size self.new ≡ lines_size self.old + 1) }
        ensures ids { OnOk result (IsStopTable self.new) }
        ensures adds { Gives (λ _. self.new.lines.items) result
            (with_stop row line self.old.lines.items) }
    {
        if !self.ids.add(alloc, line.id.text(), self.lines.len())? {
            return Err(TableError::Bad(Fault {
                row,
                cause: Cause::DuplicateKey,
            }));
        }
        self.lines.push(line)?;
        Ok(())
    }

    fn station(&self, id: &str) -> Option<u32>
        requires { IsStopTable self.now }
        ensures { result ≡ station_in self.now.lines.items id.now }
    {
        let number = self.ids.find(id)?;
        match self.lines.get(number as usize) {
            Some(line) if line.kind.is_station() => Some(number),
            _ => None,
        }
    }

    fn parent(&self, row: u64, line: &StopLine) -> Result<Option<StopNo>, TableError>
        requires { IsStopTable self.now }
        ensures { Gives (λ parent. parent) result (parent_of self.now.lines.items row line.now) }
    {
        if !line.kind.is_platform() || line.parent.text().is_empty() {
            return Ok(None);
        }
        match self.station(line.parent.text()) {
            Some(number) => Ok(Some(StopNo::new(number))),
            None => Err(TableError::Bad(Fault {
                row,
                cause: Cause::UnknownReference,
            })),
        }
    }
}

impl TableBuilder for StopTable {
    ghost use Rattle.gtfs_tables.specs.declared.columns.Column.{Column};
    ghost use Rattle.gtfs_tables.specs.declared.stops.StopLine.{StopLine};

    ghost Made = { List StopLine };

    ghost made = { lines_view };

    ghost Given = { Unit {0} };

    ghost given = { λ _. tt };

    ghost IsSound = { IsStopTable };

    ghost size = { lines_size };

    ghost columns = { stop_columns ++ other_stop_columns };

    ghost step = { λ _. stop_step };

    fn add_row(&mut self, alloc: Global, row: u64, sheet: &Sheet<'_>) -> Result<(), TableError> {
        let line = read_stop(alloc, sheet, row)?;
        self.add(alloc, row, line)
    }
}

#[tactic(auto, unfolding(crate::specs::Stops::with_stations))]
fn with_stations(alloc: Global, table: &StopTable) -> Result<Vec<StopRow>, TableError>
    requires { IsStopTable table.now }
    ensures ids { IfOk result (λ rows. stop_ids rows.items ≡ line_ids table.now.lines.items) }
    ensures rows { Gives (λ rows. rows.items) result
        (with_stations table.now.lines.items 2 [] table.now.lines.items) }
{
    let mut rows = Vec::with_capacity(alloc, table.lines.len())?;
    for line in &table.lines {
        let row = rows.len() as u64 + 2;
        let parent = table.parent(row, line)?;
        let id = line.id.copy(alloc)?;
        let kind = line.kind;
        rows.push(StopRow { id, kind, parent })?;
    }
    Ok(rows)
}

/// The stops, stations and other locations of a feed, in the order of `stops.txt`.
#[derive(Drop)]
pub(crate) struct Stops {
    rows: Vec<StopRow>,
    ids: Ids,
}

impl Model for Stops {
    ghost use Rattle.std.specs.Prelude.{List};
    ghost use Rattle.mt_base.specs.declared.tables.StopRow.{StopRow};

    ghost Value = { List StopRow };

    ghost view = { λ stops. stops.rows.items };

    ghost use Rattle.gtfs_tables.specs.Ids.{AreIds};
    ghost use Rattle.gtfs_tables.specs.Stops.{stop_ids};

    ghost invariant = { λ stops. AreIds stops.ids (stop_ids stops.rows.items) };
}

impl Stops {
    /// The rows of `stops.txt`. The row numbered `i` from 0 is the stop with the number `i`.
    pub fn rows(&self) -> &[StopRow]
        ensures { result.now ≡ self.now }
    {
        self.rows.as_slice()
    }

    /// The number of the stop with this `stop_id`. None exactly where there is none.
    pub fn find(&self, id: &str) -> Option<StopNo>
        ensures { result ≡ number_from 0 id.now (stop_ids self.now) }
    {
        Some(StopNo::new(self.ids.find(id)?))
    }

    /// Whether the stop with this number has this `stop_id`. No other stop has it then.
    pub fn has_id(&self, number: StopNo, id: &[u8]) -> bool
        ensures { IsTrue result → number_from 0 id.now (stop_ids self.now) ≡ Some number }
    {
        match self.rows.get(number.get() as usize) {
            Some(row) => row.id.text().as_bytes() == id,
            None => false,
        }
    }

    /// The rows of `stops.txt`, as the tables of a feed hold them.
    pub fn into_rows(self) -> Rows<StopRow>
        ensures { result ≡ self }
    {
        Rows::build(self.rows)
    }
}

/// The stops of a feed (GTFS Schedule, stops.txt), or the first fault in its table, by the list of
/// all records of the text: BadNumber for a location_type that is not empty or `0` to `4`,
/// DuplicateKey for a second row of a stop_id, and then, over the whole table, UnknownReference for
/// a parent_station of a stop or platform that is no station.
#[tactic(auto, unfolding(crate::specs::Stops::stops_of))]
pub(crate) fn read_stops(alloc: Global, text: &[u8]) -> Result<Stops, TableError>
    requires small { IsSmall text.now }
    ensures { (all : List (List (List ℕ))) → AreRecordsOf text.now all
        → Gives (λ stops. stops) result (stops_of all) }
{
    let others = [Column::LocationType, Column::ParentStation];
    let mut table = StopTable {
        lines: Vec::new(alloc),
        ids: Ids::new(alloc),
    };
    build_table(alloc, text, &[Column::StopId], &others, &mut table)?;
    let rows = with_stations(alloc, &table)?;
    Ok(Stops {
        rows,
        ids: table.ids,
    })
}
