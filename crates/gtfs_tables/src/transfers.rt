//! `transfers.txt` read by itself.

ghost use Rattle.std.specs.Prelude.{⊤, ◌≡◌, ◌<◌, ◌+◌, ◌^◌, ◌++◌, OnOk, List, ℕ, length, true};
ghost use Rattle.csv.specs.Records.{fields_of};
ghost use Rattle.gtfs_tables.specs.Builders.{transfers_view};
ghost use Rattle.gtfs_tables.specs.Checks.{Gives, all_utf8};
ghost use Rattle.gtfs_tables.specs.Sheets.{cell};
ghost use Rattle.gtfs_tables.specs.Sizes.{IsSmall};
ghost use Rattle.gtfs_tables.specs.Stops.{stop_ids};
ghost use Rattle.gtfs_tables.specs.Texts.{AreRecordsOf};
ghost use Rattle.gtfs_tables.specs.Transfers.{Transfers, needed_transfer_columns, other_transfer_columns, transfer_step, transfers_of, stop_of, number_if_any, transfer_of, is_for_all, listed, with_transfer};

use crate::builders::{TableBuilder, build_table};
use crate::cells::need;
use crate::columns::Column;
use crate::faults::{Cause, TableError};
use crate::fields::{number, number_or_zero};
use crate::sheets::Sheet;
use crate::stops::Stops;
use mt_base::numbers::StopNo;
use mt_base::rows::Rows;
use mt_base::tables::TransferRow;
use std::alloc::Global;

/// What transfers.txt gives.
#[derive(Drop)]
pub(crate) struct Transfers {
    /// The rows between two stops for all routes and trips, in their order.
    pub rows: Rows<TransferRow>,
    /// How many rows the table has behind its header, those that are not listed among them.
    pub count: u64,
}

// What the rows so far made. After an error it is of no more use.
#[derive(Drop)]
struct TransferTable<'a> {
    stops: &'a Stops,
    rows: Vec<TransferRow>,
    count: u64,
}

fn find_stop(stops: &Stops, id: &str) -> Option<Option<StopNo>>
    ensures { result ≡ stop_of (stop_ids stops.now) id.now }
{
    if id.is_empty() {
        return Some(None);
    }
    match stops.find(id) {
        Some(stop) => Some(Some(stop)),
        None => None,
    }
}

fn number_if_any(bytes: &[u8]) -> Option<Option<u32>>
    ensures { result ≡ number_if_any bytes.now }
{
    if bytes.is_empty() {
        return Some(None);
    }
    match number(bytes) {
        Some(number) => Some(Some(number)),
        None => None,
    }
}

fn is_for_all(sheet: &Sheet<'_>) -> bool
    requires { length sheet.now.places.items ≡ 8 }
    ensures { result ≡ is_for_all (cell sheet.now 4) (cell sheet.now 5) (cell sheet.now 6)
        (cell sheet.now 7) }
{
    sheet.field(4).is_empty()
        && sheet.field(5).is_empty()
        && sheet.field(6).is_empty()
        && sheet.field(7).is_empty()
}

fn listed(
    from_stop: Option<StopNo>,
    to_stop: Option<StopNo>,
    kind: u32,
    seconds: Option<u32>,
    for_all: bool,
) -> Option<TransferRow>
    ensures { result ≡ listed from_stop to_stop kind seconds for_all }
{
    match (from_stop, to_stop, for_all) {
        (Some(from_stop), Some(to_stop), true) => Some(TransferRow {
            from_stop,
            to_stop,
            kind,
            seconds,
        }),
        _ => None,
    }
}

#[tactic(auto, unfolding(crate::specs::Transfers::transfer_of))]
fn read_transfer(
    stops: &Stops,
    sheet: &Sheet<'_>,
    row: u64,
) -> Result<Option<TransferRow>, TableError>
    requires columns { length sheet.now.places.items ≡ 8 }
    requires text { all_utf8 (fields_of sheet.now.current) ≡ true }
    ensures { Gives (λ t. t) result (transfer_of (stop_ids stops.now) row (cell sheet.now 0)
        (cell sheet.now 1) (cell sheet.now 2) (cell sheet.now 3)
        (is_for_all (cell sheet.now 4) (cell sheet.now 5) (cell sheet.now 6) (cell sheet.now 7))) }
{
    let from_stop = need(
        row,
        Cause::UnknownReference,
        find_stop(stops, sheet.text(0)),
    )?;
    let to_stop = need(
        row,
        Cause::UnknownReference,
        find_stop(stops, sheet.text(1)),
    )?;
    let kind = need(row, Cause::BadNumber, number_or_zero(sheet.field(2)))?;
    let seconds = need(row, Cause::BadNumber, number_if_any(sheet.field(3)))?;
    Ok(listed(from_stop, to_stop, kind, seconds, is_for_all(sheet)))
}

impl TransferTable<'_> {
    /// Counts a row, and adds the change that it lists.
    fn add(&mut self, transfer: Option<TransferRow>) -> Result<(), TableError>
        requires room { self.old.count + 1 < 2 ^ 64 }
        ensures stops { self.new.stops ≡ self.old.stops }
        ensures count { OnOk result (self.new.count ≡ self.old.count + 1) }
        ensures made { Gives (λ u. transfers_view self.new) result
            (Ok (with_transfer transfer (transfers_view self.old))) }
    {
        self.count += 1;
        if let Some(transfer) = transfer {
            self.rows.push(transfer)?;
        }
        Ok(())
    }
}

impl TableBuilder for TransferTable<'_> {
    ghost use Rattle.gtfs_tables.specs.declared.columns.Column.{Column};

    ghost Made = { Transfers };

    ghost made = { transfers_view };

    ghost Given = { List (List ℕ) };

    ghost given = { λ t. stop_ids t.stops.now };

    ghost IsSound = { λ _. ⊤ };

    ghost size = { λ t. t.count };

    ghost columns = { needed_transfer_columns ++ other_transfer_columns };

    ghost step = { transfer_step };

    fn add_row(&mut self, _alloc: Global, row: u64, sheet: &Sheet<'_>) -> Result<(), TableError> {
        let transfer = read_transfer(self.stops, sheet, row)?;
        self.add(transfer)
    }
}

/// The rows of transfers.txt (GTFS Schedule, transfers.txt), or the first fault in it, by the list
/// of all records of the text: UnknownReference for a stop that is not in stops.txt, BadNumber for
/// a transfer_type or min_transfer_time that is no number. A row that does not give both stops, or
/// is not for all routes and trips, is checked and counted, and not listed.
pub(crate) fn read_transfers(
    alloc: Global,
    text: &[u8],
    stops: &Stops,
) -> Result<Transfers, TableError>
    requires small { IsSmall text.now }
    ensures { (all : List (List (List ℕ))) → AreRecordsOf text.now all
        → Gives (λ t. record { rows = t.rows; count = t.count }) result
        (transfers_of (stop_ids stops.now) all) }
{
    let needed = [Column::FromStopId, Column::ToStopId, Column::TransferType];
    let others = [
        Column::MinTransferTime,
        Column::FromRouteId,
        Column::ToRouteId,
        Column::FromTripId,
        Column::ToTripId,
    ];
    let mut table = TransferTable {
        stops,
        rows: Vec::new(alloc),
        count: 0,
    };
    build_table(alloc, text, &needed, &others, &mut table)?;
    Ok(Transfers {
        rows: Rows::build(table.rows),
        count: table.count,
    })
}
