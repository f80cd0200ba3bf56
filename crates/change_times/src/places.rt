//! The locations without their ids.

ghost use Rattle.std.specs.Prelude.{◌≡◌, IfOk, length, map};
ghost use Rattle.delay_model.specs.Changes.{kind_of, is_stop, is_stop_or_station, station};
ghost use Rattle.change_times.specs.ChangeTables.{without_id};

use mt_base::memory::OutOfMemory;
use mt_base::numbers::StopNo;
use mt_base::places::PlaceKind;
use mt_base::tables::StopRow;
use std::alloc::Global;
use std::marker::Model;

/// A location: its kind and its `parent_station`.
#[derive(Clone, Copy)]
pub(crate) struct Place {
    kind: PlaceKind,
    parent: Option<StopNo>,
}

/// The locations by number. They are seen as rows of `stops.txt` without ids.
#[derive(Drop)]
pub(crate) struct Places {
    places: Vec<Place>,
}

impl Model for Places {
    ghost use Rattle.std.specs.Prelude.{List};
    ghost use Rattle.mt_base.specs.declared.tables.StopRow.{StopRow};

    ghost Value = { List StopRow };

    ghost use Rattle.std.specs.Prelude.{map};
    ghost use Rattle.change_times.specs.Stored.{row_of};

    ghost view = { λ a. map row_of a.places.items };
}

impl Places {
    /// The locations of these rows.
    pub(crate) fn build(alloc: Global, rows: &[StopRow]) -> Result<Places, OutOfMemory>
        ensures { IfOk result (λ places. places ≡ map without_id rows.now) }
    {
        let mut places = Vec::with_capacity(alloc, rows.len())?;
        for row in rows {
            let parent: Option<StopNo> = row.parent;
            places.push(Place {
                kind: row.kind,
                parent,
            })?;
        }
        Ok(Places { places })
    }

    /// The same locations once more.
    pub(crate) fn copy(&self) -> Result<Places, OutOfMemory>
        ensures { IfOk result (λ places. places ≡ self.now) }
    {
        Ok(Places {
            places: self.places.clone()?,
        })
    }

    /// How many locations there are.
    pub(crate) fn len(&self) -> usize
        ensures { result ≡ length self.now }
    {
        self.places.len()
    }

    /// The kind of a location. None exactly where there is no such location.
    pub(crate) fn kind(&self, a: StopNo) -> Option<PlaceKind>
        ensures { result ≡ kind_of self.now a }
    {
        match self.places.get(a.get() as usize) {
            None => None,
            Some(place) => Some(place.kind),
        }
    }

    /// Whether a location is a stop or platform.
    pub(crate) fn is_stop(&self, a: StopNo) -> bool
        ensures { result ≡ is_stop self.now a }
    {
        match self.kind(a) {
            None => false,
            Some(kind) => kind.is_platform(),
        }
    }

    /// Whether a location is a stop, platform or station.
    pub(crate) fn is_stop_or_station(&self, a: StopNo) -> bool
        ensures { result ≡ is_stop_or_station self.now a }
    {
        match self.kind(a) {
            None => false,
            Some(kind) => kind.is_platform_or_station(),
        }
    }

    /// The station of a location: of a platform its parent, of any other location itself.
    pub(crate) fn station(&self, a: StopNo) -> StopNo
        ensures { result ≡ station self.now a }
    {
        match self.places.get(a.get() as usize) {
            None => a,
            Some(place) => {
                if place.kind.is_platform() {
                    place.parent.unwrap_or(a)
                } else {
                    a
                }
            }
        }
    }
}
