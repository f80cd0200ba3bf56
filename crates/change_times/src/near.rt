//! The locations that a change may join to a location.

ghost use Rattle.std.specs.Prelude.{◌≡◌, ◌++◌, ◌<◌, ◌^◌, IfOk, OnOk, All, map, length};
ghost use Rattle.std.specs.List.{Contains, filter, flat_map};
ghost use Rattle.std.specs.List.Sorted.{IsStrictlyIncreasing};
ghost use Rattle.change_times.specs.Near.{other_of, with_members, own_members, near, link_of};
ghost use Rattle.change_times.specs.Near.{allows, links_in, HaveMembers, HaveRows, AreOf};

use crate::links::{Link, Links};
use crate::places::Places;
use crate::table::Table;
use mt_base::memory::OutOfMemory;
use mt_base::numbers::StopNo;
use mt_base::tables::TransferRow;
use std::alloc::Global;

/// Whether changes are asked for that lead from a location, or those that lead to it.
#[derive(Clone, Copy)]
pub(crate) enum Direction {
    Onward,
    Back,
}

/// Which locations changes may join: those of one station, and those between which a row leads by
/// which a change is possible.
#[derive(Drop)]
pub(crate) struct Nearby {
    members: Links,
    onward: Links,
    back: Links,
}

/// The locations of each station: each location after its station.
fn members(alloc: Global, places: &Places) -> Result<Links, OutOfMemory>
    requires { length places.now < 2 ^ 32 }
    ensures { IfOk result (HaveMembers places.now) }
{
    let mut links = Vec::with_capacity(alloc, places.len())?;
    for number in 0..places.len() {
        let other = StopNo::new(number as u32);
        links.push(Link {
            place: places.station(other),
            other,
        })?;
    }
    Links::build(links)
}

fn link_of(direction: Direction, row: &TransferRow) -> Link
    ensures { result ≡ link_of direction row.now }
{
    match direction {
        Direction::Onward => Link {
            place: row.from_stop,
            other: row.to_stop,
        },
        Direction::Back => Link {
            place: row.to_stop,
            other: row.from_stop,
        },
    }
}

/// The locations that rows join.
fn links(alloc: Global, direction: Direction, rows: &[TransferRow]) -> Result<Links, OutOfMemory>
    ensures { IfOk result (HaveRows direction rows.now) }
{
    let mut links = Vec::with_capacity(alloc, rows.len())?;
    for row in rows {
        links.push(link_of(direction, row))?;
    }
    Links::build(links)
}

fn push_others(all: &mut Vec<StopNo>, links: &[Link]) -> Result<(), OutOfMemory>
    ensures { OnOk result (all.new.items ≡ all.old.items ++ map other_of links.now) }
{
    for link in links {
        all.push(link.other)?;
    }
    Ok(())
}

/// Puts the locations of a station behind the others, if these are looked at.
fn push_own(
    all: &mut Vec<StopNo>,
    members: &Links,
    at: StopNo,
    own: bool,
) -> Result<(), OutOfMemory>
    ensures { OnOk result (all.new.items ≡ all.old.items ++ own_members members.now at own) }
{
    if own {
        push_others(all, members.of(at))
    } else {
        Ok(())
    }
}

/// The rows by which a change is possible.
fn allowing(alloc: Global, rows: &[TransferRow]) -> Result<Vec<TransferRow>, OutOfMemory>
    ensures { IfOk result (λ kept. kept.items ≡ filter allows rows.now) }
{
    let mut kept = Vec::new(alloc);
    for row in rows {
        if row.kind != 3 {
            kept.push(*row)?;
        }
    }
    Ok(kept)
}

fn push_linked(all: &mut Vec<StopNo>, members: &Links, links: &[Link]) -> Result<(), OutOfMemory>
    ensures { OnOk result (all.new.items ≡ all.old.items ++ flat_map
        (with_members members.now) links.now) }
{
    for link in links {
        all.push(link.other)?;
        push_others(all, members.of(link.other))?;
    }
    Ok(())
}

impl Nearby {
    /// Which locations the changes of a table may join.
    pub(crate) fn build(alloc: Global, table: &Table) -> Result<Nearby, OutOfMemory>
        ensures { IfOk result (AreOf table.now) }
    {
        let rows = allowing(alloc, table.rows())?;
        Ok(Nearby {
            members: members(alloc, table.places())?,
            onward: links(alloc, Direction::Onward, rows.as_slice())?,
            back: links(alloc, Direction::Back, rows.as_slice())?,
        })
    }

    /// The pairs of this direction.
    fn links(&self, direction: Direction) -> &Links
        ensures { result.now ≡ links_in direction self.now }
    {
        match direction {
            Direction::Onward => &self.onward,
            Direction::Back => &self.back,
        }
    }

    /// Fills `all` with the locations that are near a location, of which `at` is the station: by
    /// number, each once. Those of the station that no row names are among them if `own`.
    pub(crate) fn find(
        &self,
        all: &mut Vec<StopNo>,
        direction: Direction,
        place: StopNo,
        at: StopNo,
        own: bool,
    ) -> Result<(), OutOfMemory>
        ensures order { OnOk result (IsStrictlyIncreasing all.new.items) }
        ensures near { OnOk result (All (Contains all.new.items)
            (near self.now.members (links_in direction self.now) place at own)) }
    {
        let links = self.links(direction);
        all.clear();
        push_own(all, &self.members, at, own)?;
        push_linked(all, &self.members, links.of(place))?;
        push_linked(all, &self.members, links.of(at))?;
        all.sort_unstable();
        all.dedup();
        Ok(())
    }
}
