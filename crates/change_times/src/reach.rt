//! The lists of changes from and to each location.

ghost use Rattle.std.specs.Prelude.{◌≡◌, ℕ, ◌++◌, [], ◌<◌, ◌≤◌, IfOk, IfErr, OnOk, length, slice_index_or, if◌then◌else◌};
ghost use Rattle.std.specs.List.{filter_map};
ghost use Rattle.delay_model.specs.Changes.{is_stop_or_station};
ghost use Rattle.change_times.specs.Listed.{change_at, listed};
ghost use Rattle.change_times.specs.Near.{AreOf, has_default, station_row};
ghost use Rattle.change_times.specs.Reach.{pairs, reached_back};

use crate::change::Change;
use crate::faults::BuildFault;
use crate::lists::Lists;
use crate::near::{Direction, Nearby};
use crate::table::Table;
use mt_base::memory::OutOfMemory;
use mt_base::numbers::StopNo;
use mt_base::tables::TransferRow;
use std::alloc::Global;

/// How many pairs of a stop or station and a stop may have a change.
const MOST_PAIRS: usize = 4_000_000;

fn change_at(table: &Table, direction: Direction, place: StopNo, other: StopNo) -> Option<Change>
    ensures { result ≡ change_at table.now direction place other }
{
    if !table.places().is_stop(other) {
        return None;
    }
    let seconds = match direction {
        Direction::Onward => table.change(place, other)?,
        Direction::Back => table.change(other, place)?,
    };
    Some(Change {
        stop: other,
        seconds,
    })
}

fn push_changes(
    list: &mut Vec<Change>,
    table: &Table,
    direction: Direction,
    place: StopNo,
    near: &[StopNo],
) -> Result<(), OutOfMemory>
    ensures { OnOk result (list.new.items ≡ list.old.items ++ filter_map
        (change_at table.now direction place) near.now) }
{
    for other in near {
        if let Some(change) = change_at(table, direction, place, *other) {
            list.push(change)?;
        }
    }
    Ok(())
}

/// The first row from a location to its station, or the other way round.
fn station_row(
    table: &Table,
    direction: Direction,
    place: StopNo,
    at: StopNo,
) -> Option<TransferRow>
    ensures { result ≡ station_row table.now direction place at }
{
    match direction {
        Direction::Onward => table.row(place, at),
        Direction::Back => table.row(at, place),
    }
}

/// Whether the default decides on changes between a location and those of its station that no row
/// names: then all of them are looked at.
fn has_default(table: &Table, direction: Direction, place: StopNo, at: StopNo) -> bool
    ensures { result ≡ has_default table.now direction place at }
{
    station_row(table, direction, place, at).is_none() && table.row(at, at).is_none()
}

/// Fills `list` with the changes from or to a location, by the number of the other, and `near` with
/// the locations near it.
fn fill(
    list: &mut Vec<Change>,
    near: &mut Vec<StopNo>,
    table: &Table,
    nearby: &Nearby,
    direction: Direction,
    place: StopNo,
) -> Result<(), OutOfMemory>
    requires { AreOf table.now nearby.now }
    ensures { OnOk result (list.new.items ≡ listed table.now direction place) }
{
    let at = table.places().station(place);
    let own = has_default(table, direction, place, at);
    nearby.find(near, direction, place, at, own)?;
    list.clear();
    push_changes(list, table, direction, place, near.as_slice())
}

/// How many of the changes from a location count as pairs: those from a stop or station.
fn pairs_from(table: &Table, place: StopNo, list: &[Change]) -> usize
    ensures { result ≡ (if is_stop_or_station table.now.stops place then length list.now else 0) }
{
    if table.places().is_stop_or_station(place) {
        list.len()
    } else {
        0
    }
}

/// The changes from each location.
pub(crate) fn onward(alloc: Global, table: &Table, nearby: &Nearby) -> Result<Lists, BuildFault>
    requires { AreOf table.now nearby.now }
    ensures lists { IfOk result (λ lists. (a : ℕ) → slice_index_or lists a []
        ≡ listed table.now Direction.Onward a) }
    ensures limit { IfOk result (λ _. pairs table.now ≤ 4000000) }
    ensures many { IfErr result (λ e. e ≡ BuildFault.TooMany → 4000000 < pairs table.now) }
{
    let mut lists = Lists::new(alloc);
    let mut list = Vec::new(alloc);
    let mut near = Vec::new(alloc);
    let mut count = 0;
    for number in 0..table.places().len() {
        let place = StopNo::new(number as u32);
        fill(
            &mut list,
            &mut near,
            table,
            nearby,
            Direction::Onward,
            place,
        )?;
        count += pairs_from(table, place, list.as_slice());
        if count > MOST_PAIRS {
            return Err(BuildFault::TooMany);
        }
        lists.push(list.as_slice())?;
    }
    Ok(lists)
}

/// Fills `list` with the changes to a stop or platform, and leaves it empty for any other location.
fn fill_back(
    list: &mut Vec<Change>,
    near: &mut Vec<StopNo>,
    table: &Table,
    nearby: &Nearby,
    place: StopNo,
) -> Result<(), OutOfMemory>
    requires { AreOf table.now nearby.now }
    ensures { OnOk result (list.new.items ≡ reached_back table.now place) }
{
    if table.places().is_stop(place) {
        fill(list, near, table, nearby, Direction::Back, place)
    } else {
        list.clear();
        Ok(())
    }
}

/// The changes to each stop and platform, and no changes to any other location.
pub(crate) fn back(alloc: Global, table: &Table, nearby: &Nearby) -> Result<Lists, OutOfMemory>
    requires { AreOf table.now nearby.now }
    ensures { IfOk result (λ lists. (b : ℕ) → slice_index_or lists b []
        ≡ reached_back table.now b) }
{
    let mut lists = Lists::new(alloc);
    let mut list = Vec::new(alloc);
    let mut near = Vec::new(alloc);
    for number in 0..table.places().len() {
        let place = StopNo::new(number as u32);
        fill_back(&mut list, &mut near, table, nearby, place)?;
        lists.push(list.as_slice())?;
    }
    Ok(lists)
}

/// The changes from each location, and those to each stop and platform.
pub(crate) fn onward_and_back(alloc: Global, table: &Table) -> Result<(Lists, Lists), BuildFault>
    ensures onward { IfOk result (λ lists. (a : ℕ) → slice_index_or lists.0 a []
        ≡ listed table.now Direction.Onward a) }
    ensures back { IfOk result (λ lists. (b : ℕ) → slice_index_or lists.1 b []
        ≡ reached_back table.now b) }
    ensures limit { IfOk result (λ _. pairs table.now ≤ 4000000) }
    ensures many { IfErr result (λ e. e ≡ BuildFault.TooMany → 4000000 < pairs table.now) }
{
    let nearby = Nearby::build(alloc, table)?;
    let onward = onward(alloc, table, &nearby)?;
    Ok((onward, back(alloc, table, &nearby)?))
}
