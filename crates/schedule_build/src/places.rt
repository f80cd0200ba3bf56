//! The places of a feed by number and by name.

ghost use Rattle.std.specs.Prelude.{◌≡◌, ◌<◌, ◌^◌, [], IfOk, length, map, slice_get};
ghost use Rattle.std.specs.Option.{option_map, option_map_or};
ghost use Rattle.schedule_build.specs.Directory.{Place, place_of_row};
ghost use Rattle.schedule_build.specs.Stored.{number_of_place};

use crate::name_list::NameList;
use mt_base::memory::OutOfMemory;
use mt_base::names::Name;
use mt_base::places::PlaceKind;
use mt_base::tables::StopRow;
use std::alloc::Global;
use std::marker::Model;

/// The places of a feed in the order of their numbers: the `stop_id` of each, and its kind.
#[derive(Drop)]
pub(crate) struct Places {
    ids: NameList,
    kinds: Vec<PlaceKind>,
}

impl Model for Places {
    ghost use Rattle.std.specs.Prelude.{List};
    ghost use Rattle.schedule_build.specs.Directory.{Place};

    ghost Value = { List Place };

    ghost use Rattle.std.specs.Prelude.{◌≡◌, length};
    ghost use Rattle.schedule_build.specs.Stored.{seen_places};

    ghost view = { λ a. seen_places a.ids a.kinds.items };

    ghost invariant = { λ a. length a.kinds.items ≡ length a.ids };
}

/// The `stop_id` of each row.
fn ids_of(alloc: Global, rows: &[StopRow]) -> Result<Vec<Name>, OutOfMemory>
    ensures { IfOk result (λ ids. ids.items ≡ map (λ r. r.id) rows.now) }
{
    let mut ids = Vec::with_capacity(alloc, rows.len())?;
    for row in rows {
        ids.push(row.id.copy(alloc)?)?;
    }
    Ok(ids)
}

/// The kind of each row.
fn kinds_of(alloc: Global, rows: &[StopRow]) -> Result<Vec<PlaceKind>, OutOfMemory>
    ensures { IfOk result (λ kinds. kinds.items ≡ map (λ r. r.kind) rows.now) }
{
    let mut kinds = Vec::with_capacity(alloc, rows.len())?;
    for row in rows {
        kinds.push(row.kind)?;
    }
    Ok(kinds)
}

impl Places {
    /// The rows of `stops.txt` as places.
    pub(crate) fn build(alloc: Global, rows: &[StopRow]) -> Result<Places, OutOfMemory>
        requires few { length rows.now < 2 ^ 32 }
        ensures { IfOk result (λ places. places ≡ map place_of_row rows.now) }
    {
        let ids = ids_of(alloc, rows)?;
        Ok(Places {
            ids: NameList::build(alloc, ids)?,
            kinds: kinds_of(alloc, rows)?,
        })
    }

    /// The number of the first place with this `stop_id`. None exactly where there is none.
    pub(crate) fn find(&self, id: &str) -> Option<u32>
        ensures { result ≡ number_of_place self.now id.now }
    {
        self.ids.find(id)
    }

    /// The kind of a place. None exactly where there is no such place.
    pub(crate) fn kind(&self, number: u32) -> Option<PlaceKind>
        ensures { result ≡ option_map (λ (p : Place). p.kind) (slice_get self.now number) }
    {
        let number = number as usize;
        if number >= self.kinds.len() {
            return None;
        }
        Some(self.kinds[number])
    }

    /// The `stop_id` of a place, or the empty text where there is no such place.
    pub(crate) fn id(&self, number: u32) -> &str
        ensures { result.now ≡ option_map_or (λ (p : Place). p.id) (slice_get self.now number) [] }
    {
        self.ids.name(number)
    }
}
