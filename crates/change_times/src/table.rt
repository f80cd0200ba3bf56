//! The change times, looked up.

ghost use Rattle.std.specs.Prelude.{◌≡◌, IfOk};
ghost use Rattle.std.specs.List.{filter};
ghost use Rattle.delay_model.specs.Changes.{is_looked_at, first_row, deciding_row, change_by, change};
ghost use Rattle.change_times.specs.ChangeTables.{tables_of, HaveSameChanges};
ghost use Rattle.change_times.specs.Stored.{IsKept};

use crate::places::Places;
use crate::transfers::{Transfers, first_to};
use feed_tables::FeedTables;
use mt_base::memory::OutOfMemory;
use mt_base::numbers::StopNo;
use mt_base::tables::TransferRow;
use std::alloc::Global;
use std::marker::Model;

/// What change times follow from: the locations, the first row of each pair among the rows of
/// `transfers.txt` that are looked at, and the default in seconds.
#[derive(Drop)]
pub(crate) struct Table {
    places: Places,
    transfers: Transfers,
    default: u32,
}

impl Model for Table {
    ghost use Rattle.change_times.specs.ChangeTables.{ChangeTables};

    ghost Value = { ChangeTables };

    ghost use Rattle.change_times.specs.Stored.{seen_table, IsKept};

    ghost view = { seen_table };

    ghost invariant = { λ a. IsKept (seen_table a) };
}

impl Table {
    /// The change times of a feed, with a default in seconds.
    pub(crate) fn build(
        alloc: Global,
        feed: &FeedTables,
        default: u32,
    ) -> Result<Table, OutOfMemory>
        ensures { IfOk result (HaveSameChanges (tables_of feed.now default)) }
    {
        let t = feed.tables();
        let places = Places::build(alloc, t.stops.as_slice())?;
        let rows = looked_at(alloc, &places, t.transfers.as_slice())?;
        let transfers = Transfers::build(alloc, rows, places.len())?;
        Ok(Table {
            places,
            transfers,
            default,
        })
    }

    /// The same change times once more.
    pub(crate) fn copy(&self) -> Result<Table, OutOfMemory>
        ensures { IfOk result (λ table. table ≡ self.now) }
    {
        Ok(Table {
            places: self.places.copy()?,
            transfers: self.transfers.copy()?,
            default: self.default,
        })
    }

    /// The locations.
    pub(crate) fn places(&self) -> &Places
        ensures places { result.now ≡ self.now.stops }
        ensures kept { IsKept self.now }
    {
        &self.places
    }

    /// The first row of each pair among the rows of `transfers.txt` that are looked at.
    pub(crate) fn rows(&self) -> &[TransferRow]
        ensures { result.now ≡ self.now.transfers }
    {
        self.transfers.rows()
    }

    /// The first row that leads from `a` to `b`.
    pub(crate) fn row(&self, a: StopNo, b: StopNo) -> Option<TransferRow>
        ensures { result ≡ first_row self.now.stops self.now.transfers a b }
    {
        first_to(self.transfers.from(a), b)
    }

    /// The row that decides on a change from `a` to `b`.
    fn deciding_row(&self, a: StopNo, b: StopNo) -> Option<TransferRow>
        ensures { result ≡ deciding_row self.now.stops self.now.transfers a b }
    {
        let (at_a, at_b) = (self.places.station(a), self.places.station(b));
        let from_a = self.transfers.from(a);
        let from_at_a = self.transfers.from(at_a);
        let exact = first_to(from_a, b);
        let to_station = first_to(from_a, at_b);
        let from_station = first_to(from_at_a, b);
        let stations = first_to(from_at_a, at_b);
        exact.or(to_station).or(from_station).or(stations)
    }

    /// The seconds that a change from `a` to `b` takes. None exactly where it is not possible.
    #[tactic(auto, unfolding(delay_model::specs::Changes::change))]
    pub(crate) fn change(&self, a: StopNo, b: StopNo) -> Option<u32>
        ensures { result ≡ change self.now.stops self.now.transfers self.now.default a b }
    {
        match self.deciding_row(a, b) {
            Some(row) => change_by(self.default, &row),
            None => (self.places.station(a) == self.places.station(b)).then_some(self.default),
        }
    }
}

/// The seconds by a row that decides. None where it forbids the change.
fn change_by(default: u32, row: &TransferRow) -> Option<u32>
    ensures { result ≡ change_by default row.now }
{
    match row.kind {
        3 => None,
        2 => Some(row.seconds.map_or(default, |seconds| seconds.max(1))),
        _ => Some(default),
    }
}

fn is_looked_at(places: &Places, row: &TransferRow) -> bool
    ensures { result ≡ is_looked_at places.now row.now }
{
    row.kind <= 3
        && places.is_stop_or_station(row.from_stop)
        && places.is_stop_or_station(row.to_stop)
}

/// The rows that are looked at, in their order.
fn looked_at(
    alloc: Global,
    places: &Places,
    rows: &[TransferRow],
) -> Result<Vec<TransferRow>, OutOfMemory>
    ensures { IfOk result (λ kept. kept.items ≡ filter (is_looked_at places.now) rows.now) }
{
    let mut kept = Vec::new(alloc);
    for row in rows {
        if is_looked_at(places, row) {
            kept.push(*row)?;
        }
    }
    Ok(kept)
}
