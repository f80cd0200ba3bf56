//! The rows of `transfers.txt` by the pair of locations that they join.

ghost use Rattle.std.specs.Prelude.{◌≡◌, ◌+◌, ◌<◌, ◌^◌, All, IfOk, find, length, slice_get};
ghost use Rattle.std.specs.List.{filter, dedup, Contains};
ghost use Rattle.std.specs.List.Sorted.{IsNonDecreasingBy};
ghost use Rattle.change_times.specs.Stored.{from_of, to_of, is_from, is_to, of_number, row_bounds, is_same_pair, HaveOwnPairs, HaveSameFirsts, HaveStarts, IsByPair, IsStart};

use mt_base::memory::OutOfMemory;
use mt_base::numbers::StopNo;
use mt_base::tables::TransferRow;
use std::alloc::Global;
use std::marker::Model;

/// Rows of `transfers.txt`, one for each pair of locations, by the location that they lead from,
/// and those from one location by the location that they lead to. They are seen as their list.
#[derive(Drop)]
pub(crate) struct Transfers {
    rows: Vec<TransferRow>,
    /// For each location, how many rows lead from locations with smaller numbers; and last, how
    /// many rows there are.
    starts: Vec<usize>,
}

impl Model for Transfers {
    ghost use Rattle.std.specs.Prelude.{List};
    ghost use Rattle.mt_base.specs.declared.tables.TransferRow.{TransferRow};

    ghost Value = { List TransferRow };

    ghost use Rattle.change_times.specs.Stored.{IsIndexed};

    ghost view = { λ a. a.rows.items };

    ghost invariant = { λ a. IsIndexed a.rows.items a.starts.items };
}

impl Transfers {
    /// These rows by pair, of each pair the first. They lead from locations of which there are so
    /// many.
    pub(crate) fn build(
        alloc: Global,
        rows: Vec<TransferRow>,
        places: usize,
    ) -> Result<Transfers, OutOfMemory>
        requires few { places < 2 ^ 32 }
        requires from { All (λ row. from_of row < places) rows.items }
        ensures first { IfOk result (HaveSameFirsts rows.items) }
        ensures given { IfOk result (All (Contains rows.items)) }
    {
        let kept = firsts_by_pair(rows)?;
        let starts = starts(alloc, kept.as_slice(), places)?;
        Ok(Transfers { rows: kept, starts })
    }

    /// The same rows once more.
    pub(crate) fn copy(&self) -> Result<Transfers, OutOfMemory>
        ensures { IfOk result (λ rows. rows ≡ self.now) }
    {
        Ok(Transfers {
            rows: self.rows.clone()?,
            starts: self.starts.clone()?,
        })
    }

    /// All rows.
    pub(crate) fn rows(&self) -> &[TransferRow]
        ensures { result.now ≡ self.now }
    {
        self.rows.as_slice()
    }

    /// The rows that lead from a location.
    pub(crate) fn from(&self, a: StopNo) -> &[TransferRow]
        ensures rows { result.now ≡ filter (is_from a) self.now }
        ensures order { IsNonDecreasingBy to_of result.now }
    {
        let (start, end) = bounds(self.starts.as_slice(), a);
        &self.rows[start..end]
    }
}

/// Whether both rows lead from one location to one location.
fn is_same_pair(row: &TransferRow, other: &TransferRow) -> bool
    ensures { result ≡ is_same_pair row.now other.now }
{
    row.from_stop == other.from_stop && row.to_stop == other.to_stop
}

/// Drops each row that has the pair of the row before it.
fn keep_first_of_each_pair(rows: &mut Vec<TransferRow>)
    ensures { rows.new.items ≡ dedup is_same_pair rows.old.items }
{
    rows.dedup_by(|row, kept| is_same_pair(row, kept));
}

/// These rows by pair, of each pair the first.
fn firsts_by_pair(rows: Vec<TransferRow>) -> Result<Vec<TransferRow>, OutOfMemory>
    ensures order { IfOk result (λ kept. IsByPair kept.items) }
    ensures once { IfOk result (λ kept. HaveOwnPairs kept.items) }
    ensures first { IfOk result (λ kept. HaveSameFirsts rows.items kept.items) }
    ensures given { IfOk result (λ kept. All (Contains rows.items) kept.items) }
{
    let mut rows = rows;
    rows.sort_by_key(|row| row.to_stop.get())?;
    rows.sort_by_key(|row| row.from_stop.get())?;
    keep_first_of_each_pair(&mut rows);
    Ok(rows)
}

/// How many rows lead from locations with smaller numbers.
fn start_from(rows: &[TransferRow], place: usize) -> usize
    requires { IsNonDecreasingBy from_of rows.now }
    ensures { IsStart rows.now place result }
{
    rows.partition_point(|row| (row.from_stop.get() as usize) < place)
}

/// Where the rows of each location begin, and last where the rows end.
fn starts(alloc: Global, rows: &[TransferRow], places: usize) -> Result<Vec<usize>, OutOfMemory>
    requires few { places < 2 ^ 32 }
    requires order { IsNonDecreasingBy from_of rows.now }
    ensures count { IfOk result (λ starts. length starts.items ≡ places + 1) }
    ensures starts { IfOk result (λ starts. HaveStarts rows.now starts.items) }
{
    let mut starts = Vec::with_capacity(alloc, places + 1)?;
    for place in 0..places + 1 {
        starts.push(start_from(rows, place))?;
    }
    Ok(starts)
}

/// Where the rows of a location begin and end. Both are 0 where there is no such location.
fn bounds(starts: &[usize], a: StopNo) -> (usize, usize)
    ensures { result ≡ row_bounds starts.now a }
{
    let place = a.get() as usize;
    if place + 1 < starts.len() {
        (starts[place], starts[place + 1])
    } else {
        (0, 0)
    }
}

/// Where the rows that lead to a location begin.
fn start_of(rows: &[TransferRow], b: StopNo) -> usize
    requires { IsNonDecreasingBy to_of rows.now }
    ensures { find (is_to b) rows.now ≡ of_number to_of b (slice_get rows.now result) }
{
    rows.partition_point(|row| row.to_stop.get() < b.get())
}

/// The first row that leads to a location.
pub(crate) fn first_to(rows: &[TransferRow], b: StopNo) -> Option<TransferRow>
    requires { IsNonDecreasingBy to_of rows.now }
    ensures { result ≡ find (is_to b) rows.now }
{
    let row = *rows.get(start_of(rows, b))?;
    (row.to_stop == b).then_some(row)
}
